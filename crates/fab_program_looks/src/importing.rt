//! Imports that are tried.
ghost use Rattle.std.specs.Prelude.{◌<◌};
ghost use Rattle.fab_program_looks.specs.Told.{TellsBytes, TellsImport, TellsRows};
ghost use Rattle.fab_world.specs.Soundness.{IsSound};
ghost use Rattle.fab_world.specs.Worlds.{records_of};

use crate::told::{print_import, print_refusal, print_unread};
use fab_desk_base::DeskFault;
use fab_files::{FileFault, read_ports};
use fab_files_base::End;
use fab_files_tries::looks_tries::try_import;
use fab_inventory::PortRow;
use fab_names::Fabric;
use fab_policy::Policy;
use fab_program_outside::{Fault, is_too_large};
use fab_reach_books::PathBook;
use fab_wire_base::requests::Refusal;
use fab_world::World;
use std::alloc::Global;
use std::io::Write;

/// An import that is tried.
#[derive(Clone, Copy)]
pub struct ImportAsked<'t> {
    /// The fabric whose ports the list has.
    pub fabric: Fabric,
    /// The bytes of the port list.
    pub bytes: &'t [u8],
    /// How many paths may be lost; without it, as many as there are.
    pub most_lost: Option<u64>,
    /// Whether JSON is asked for.
    pub is_json: bool,
}

/// Tells what the import of these records would do.
fn rows_at<B: PathBook<Global>, W: Write + Drop>(
    alloc: Global,
    world: &World<Global>,
    book: &mut B,
    policy: &Policy,
    token: &str,
    moment: u64,
    asked: &ImportAsked<'_>,
    rows: Vec<PortRow>,
    writer: W,
) -> Result<(W, End), Fault>
    requires sound { IsSound world.now }
    requires stands { B.stands book.old (records_of world.now) }
    ensures { TellsRows W.contents world.now policy.now token.now moment asked.now.fabric rows asked.now.most_lost asked.now.is_json writer result }
{
    match try_import(
        alloc,
        world,
        book,
        policy,
        token,
        moment,
        asked.fabric,
        rows,
    ) {
        Ok(tried) => print_import(alloc, writer, &tried, asked.most_lost, asked.is_json),
        Err(fault) => print_refusal(alloc, writer, fault),
    }
}

/// Tells what the import of the bytes of a port list of a caller would do.
fn bytes_at<B: PathBook<Global>, W: Write + Drop>(
    alloc: Global,
    world: &World<Global>,
    book: &mut B,
    policy: &Policy,
    token: &str,
    moment: u64,
    asked: &ImportAsked<'_>,
    writer: W,
) -> Result<(W, End), Fault>
    requires sound { IsSound world.now }
    requires stands { B.stands book.old (records_of world.now) }
    ensures { TellsBytes W.contents world.now policy.now token.now moment asked.now.fabric asked.now.bytes.now asked.now.most_lost asked.now.is_json writer result }
{
    if is_too_large(asked.bytes) {
        return print_unread(alloc, writer, Refusal::TooLarge);
    }
    match read_ports(alloc, alloc, asked.bytes) {
        Ok(rows) => rows_at(
            alloc, world, book, policy, token, moment, asked, rows, writer,
        ),
        Err(FileFault::Line(line)) => print_unread(alloc, writer, Refusal::BadBody(line)),
        Err(FileFault::Memory) => print_refusal(alloc, writer, DeskFault::Memory),
    }
}

/// Tells what the import of the bytes of a port list would do. As over HTTP the caller is looked at
/// first, then how many bytes there are, then what they list.
///
/// # Errors
/// `Memory`; `Stream` where the writer failed.
pub fn import_at<B: PathBook<Global>, W: Write + Drop>(
    alloc: Global,
    world: &World<Global>,
    book: &mut B,
    policy: &Policy,
    token: &str,
    moment: u64,
    asked: &ImportAsked<'_>,
    writer: W,
) -> Result<(W, End), Fault>
    requires sound { IsSound world.now }
    requires stands { B.stands book.old (records_of world.now) }
    ensures { TellsImport W.contents world.now policy.now token.now moment asked.now.fabric asked.now.bytes.now asked.now.most_lost asked.now.is_json writer result }
{
    match policy.caller(token) {
        Some(_id) => bytes_at(alloc, world, book, policy, token, moment, asked, writer),
        None => print_refusal(alloc, writer, DeskFault::NoCaller),
    }
}
