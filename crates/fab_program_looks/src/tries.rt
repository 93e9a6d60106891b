//! What an import or a plan would do, over a store.
ghost use Rattle.std.specs.Prelude.{IfOk};
ghost use Rattle.fab_program_outside.specs.Coming.{After};
ghost use Rattle.fab_program_looks.specs.Tries.{IsToldAt, TriesAs, TriesIn, TriesOver};
ghost use Rattle.fab_world.specs.Soundness.{IsSound};
ghost use Rattle.fab_world.specs.Worlds.{records_of};

use crate::books::book_of;
use crate::importing::{ImportAsked, import_at};
use crate::loading::world_of;
use crate::planning::plan_at;
use fab_files_base::End;
use fab_names::{Fabric, Name};
use fab_policy::Policy;
use fab_program_outside::Fault;
use fab_reach::IndexBook;
use fab_reach_books::PathBook;
use fab_store_base::Store;
use fab_world::World;
use std::alloc::Global;
use std::io::Write;

/// What is tried.
#[derive(Clone, Copy)]
pub enum Trial<'t> {
    /// The import of a port list: its bytes, and how many paths may be lost; without a number, as many
    /// as there are.
    Import {
        /// The fabric whose ports the list has.
        fabric: Fabric,
        /// The bytes of the port list.
        bytes: &'t [u8],
        /// How many paths may be lost; without it, as many as there are.
        most_lost: Option<u64>,
    },
    /// The activation of a plan.
    Plan {
        /// The name of the plan.
        plan: Name,
    },
}

/// Who has what tried, when, and in which form it is told.
#[derive(Clone, Copy)]
pub struct Asked<'t> {
    /// The token of the caller.
    pub token: &'t str,
    /// The moment in Unix seconds, or why there is none.
    pub moment: Result<u64, Fault>,
    /// What is tried.
    pub trial: Trial<'t>,
    /// Whether JSON is asked for.
    pub is_json: bool,
}

/// Tries at the world of a store, if there is one, and prints what the caller is told. The writer is
/// handed back, and has just that text. The store is let go of.
///
/// # Errors
/// As for the store and the moment, in this order; `Memory`; `Stream` where the writer failed.
pub fn try_over<S: Store<Global>, W: Write + Drop>(
    alloc: Global,
    store: Result<S, Fault>,
    policy: &Policy,
    asked: &Asked<'_>,
    writer: W,
) -> Result<(W, End), Fault>
    ensures { After store (λ s. TriesOver S.Store W.contents s policy.now asked.now writer) result }
{
    match store {
        Ok(store) => {
            let mut store = store;
            try_in(alloc, &mut store, policy, asked, writer)
        }
        Err(fault) => Err(fault),
    }
}

/// Tries at the world of a store. Nothing of the store is changed.
fn try_in<S: Store<Global>, W: Write + Drop>(
    alloc: Global,
    store: &mut S,
    policy: &Policy,
    asked: &Asked<'_>,
    writer: W,
) -> Result<(W, End), Fault>
    ensures { TriesIn S.Store W.contents store.old store.new policy.now asked.now writer result }
{
    try_by(alloc, world_of(alloc, store), policy, asked, writer)
}

/// Tries at a world, if there is one.
fn try_by<W: Write + Drop>(
    alloc: Global,
    world: Result<World<Global>, Fault>,
    policy: &Policy,
    asked: &Asked<'_>,
    writer: W,
) -> Result<(W, End), Fault>
    requires sound { IfOk world IsSound }
    ensures { After world (λ w. After asked.now.moment (λ m. IsToldAt (TriesAs W.contents w policy.now asked.now.token.now m asked.now.trial asked.now.is_json writer))) result }
{
    match world {
        Ok(world) => try_when(alloc, &world, policy, asked, writer),
        Err(fault) => Err(fault),
    }
}

/// Tries at a world, if there is a moment.
fn try_when<W: Write + Drop>(
    alloc: Global,
    world: &World<Global>,
    policy: &Policy,
    asked: &Asked<'_>,
    writer: W,
) -> Result<(W, End), Fault>
    requires sound { IsSound world.now }
    ensures { After asked.now.moment (λ m. IsToldAt (TriesAs W.contents world.now policy.now asked.now.token.now m asked.now.trial asked.now.is_json writer)) result }
{
    match asked.moment {
        Ok(moment) => try_at(alloc, world, policy, asked, moment, writer),
        Err(fault) => Err(fault),
    }
}

/// Tries at a world and a moment, with a book of its paths.
fn try_at<W: Write + Drop>(
    alloc: Global,
    world: &World<Global>,
    policy: &Policy,
    asked: &Asked<'_>,
    moment: u64,
    writer: W,
) -> Result<(W, End), Fault>
    requires sound { IsSound world.now }
    ensures { IsToldAt (TriesAs W.contents world.now policy.now asked.now.token.now moment asked.now.trial asked.now.is_json writer) result }
{
    let book: Result<IndexBook<Global>, _> = book_of(alloc, world);
    match book {
        Ok(mut book) => try_with(alloc, world, &mut book, policy, asked, moment, writer),
        Err(_) => Err(Fault::Memory),
    }
}

/// Tries at a world and a moment, with a book that stands at the world.
fn try_with<B: PathBook<Global>, W: Write + Drop>(
    alloc: Global,
    world: &World<Global>,
    book: &mut B,
    policy: &Policy,
    asked: &Asked<'_>,
    moment: u64,
    writer: W,
) -> Result<(W, End), Fault>
    requires sound { IsSound world.now }
    requires stands { B.stands book.old (records_of world.now) }
    ensures { TriesAs W.contents world.now policy.now asked.now.token.now moment asked.now.trial asked.now.is_json writer result }
{
    let is_json = asked.is_json;
    match asked.trial {
        Trial::Import {
            fabric,
            bytes,
            most_lost,
        } => {
            let import = ImportAsked {
                fabric,
                bytes,
                most_lost,
                is_json,
            };
            import_at(
                alloc,
                world,
                book,
                policy,
                asked.token,
                moment,
                &import,
                writer,
            )
        }
        Trial::Plan { plan } => plan_at(
            alloc,
            world,
            book,
            policy,
            asked.token,
            moment,
            plan,
            is_json,
            writer,
        ),
    }
}
