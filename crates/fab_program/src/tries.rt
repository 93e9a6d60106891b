//! What an import or the activation of a plan would do at a database: `tryimport` and `diff`.
ghost use Rattle.fab_program.specs.Tries.{ComesTrying, DiffComes, TryImportComes, TryImportComesIn};
ghost use Rattle.fab_program_outside.specs.Coming.{Then};
ghost use Rattle.fab_program_looks.specs.Told.{TellsImport};
ghost use Rattle.fab_program_looks.specs.Tries.{ComesTold};

use fab_files_base::End;
use fab_names::Fabric;
use fab_policy_base::Policy;
use fab_program_desks::Databases;
use fab_program_looks::tries::{Asked, Trial, try_over};
use fab_program_outside::{Fault, Files, bytes_of, policy_of};
use fab_program_words::{Diff, TryImport};
use std::alloc::Global;
use std::io::Write;

/// Tries at a database under a policy, and prints what the caller is told. The writer is handed back.
fn try_under<O: Databases, W: Write + Drop>(
    alloc: Global,
    outside: &O,
    db: &str,
    policy: &Policy,
    asked: &Asked<'_>,
    writer: W,
) -> Result<(W, End), Fault>
    ensures { ComesTrying O.Databases O.Tables.Store W.contents outside.now db.now policy.now asked.now writer result }
{
    try_over(alloc, outside.tables_in(db), policy, asked, writer)
}

/// Tells what importing these bytes at the fabric would do. The writer is handed back.
fn import_bytes<'a, O: Databases, W: Write + Drop>(
    alloc: Global,
    outside: &O,
    db: &str,
    policy: &Policy,
    token: &'a str,
    moment: Result<u64, Fault>,
    fabric: Fabric,
    bytes: &'a [u8],
    most_lost: Option<u64>,
    is_json: bool,
    writer: W,
) -> Result<(W, End), Fault>
    ensures { Then (O.finds outside.now db.now) (λ s. ComesTold O.Tables.Store s moment (λ w m. TellsImport W.contents w policy.now token.now m fabric bytes.now most_lost is_json writer)) result }
{
    let trial = Trial::Import {
        fabric,
        bytes,
        most_lost,
    };
    let told = Asked {
        token,
        moment,
        trial,
        is_json,
    };
    try_under(alloc, outside, db, policy, &told, writer)
}

/// Tells what the import of a port list would do. The writer is handed back.
///
/// # Errors
/// As for the policy, the file, the database, the moment and the stream, in this order.
pub fn try_import<O: Files + Databases, W: Write + Drop>(
    alloc: Global,
    outside: &O,
    asked: &TryImport<'_>,
    moment: Result<u64, Fault>,
    writer: W,
) -> Result<(W, End), Fault>
    ensures { TryImportComes O.Files O.File.remaining O.Databases O.Tables.Store W.contents outside.now asked.entry.now moment writer result }
{
    match policy_of(alloc, outside, asked.access.policy) {
        Ok(policy) => import_under(alloc, outside, asked, &policy, moment, writer),
        Err(fault) => Err(fault),
    }
}

/// Tells what the import of a port list would do, under a policy.
fn import_under<O: Files + Databases, W: Write + Drop>(
    alloc: Global,
    outside: &O,
    asked: &TryImport<'_>,
    policy: &Policy,
    moment: Result<u64, Fault>,
    writer: W,
) -> Result<(W, End), Fault>
    ensures { TryImportComesIn O.Files O.File.remaining O.Databases O.Tables.Store W.contents outside.now asked.entry.now policy.now moment writer result }
{
    match bytes_of(alloc, outside, asked.file) {
        Ok(bytes) => import_bytes(
            alloc,
            outside,
            asked.access.db,
            policy,
            asked.access.token,
            moment,
            asked.fabric,
            bytes.as_slice(),
            asked.most_lost,
            asked.is_json,
            writer,
        ),
        Err(fault) => Err(fault),
    }
}

/// Tells what the activation of a plan would do. The writer is handed back.
///
/// # Errors
/// As for the policy, the database, the moment and the stream, in this order.
pub fn diff<O: Files + Databases, W: Write + Drop>(
    alloc: Global,
    outside: &O,
    asked: &Diff<'_>,
    moment: Result<u64, Fault>,
    writer: W,
) -> Result<(W, End), Fault>
    ensures { DiffComes O.Files O.File.remaining O.Databases O.Tables.Store W.contents outside.now asked.entry.now moment writer result }
{
    let told = Asked {
        token: asked.access.token,
        moment,
        trial: Trial::Plan { plan: asked.plan },
        is_json: asked.is_json,
    };
    match policy_of(alloc, outside, asked.access.policy) {
        Ok(policy) => try_under(alloc, outside, asked.access.db, &policy, &told, writer),
        Err(fault) => Err(fault),
    }
}
