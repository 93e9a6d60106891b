//! The looks of one caller at a database: `why`, `who` and `list`.
ghost use Rattle.std.specs.Prelude.{◌≡◌};
ghost use Rattle.fab_program.specs.Looks as looks;
ghost use Rattle.fab_program.specs.Looks.{ComesLooking, WhyComes, WhoComes, NamesComes};
ghost use Rattle.fab_program_looks.specs.Looks.{LooksOver};
ghost use Rattle.fab_program_outside.specs.Coming.{Then};

use fab_files_base::End;
use fab_policy_base::Policy;
use fab_program_desks::Databases;
use fab_program_looks::looks::{Asked, Look, look_over};
use fab_program_outside::{Fault, Files, policy_of};
use fab_program_words::{Access, Names, Who, WhoOf, Why};
use std::alloc::Global;
use std::io::Write;

/// Looks at a database under a policy, and prints what the caller is told. The writer is handed back.
fn look_under<O: Databases, W: Write + Drop>(
    alloc: Global,
    outside: &O,
    db: &str,
    policy: &Policy,
    asked: &Asked<'_>,
    writer: W,
) -> Result<(W, End), Fault>
    ensures { Then (O.finds outside.now db.now) (λ s. LooksOver O.Tables.Store W.contents s policy.now asked.now writer) result }
{
    look_over(alloc, outside.tables_in(db), policy, asked, writer)
}

/// Looks at a database, and prints what the caller is told. The writer is handed back.
///
/// # Errors
/// As for the policy, the database and the stream, in this order.
fn look<O: Files + Databases, W: Write + Drop>(
    alloc: Global,
    outside: &O,
    access: &Access<'_>,
    look: Look,
    is_json: bool,
    writer: W,
) -> Result<(W, End), Fault>
    ensures { ComesLooking O.Files O.File.remaining O.Databases O.Tables.Store W.contents outside.now access.now look is_json writer result }
{
    let asked = Asked {
        token: access.token,
        look,
        is_json,
    };
    match policy_of(alloc, outside, access.policy) {
        Ok(policy) => look_under(alloc, outside, access.db, &policy, &asked, writer),
        Err(fault) => Err(fault),
    }
}

/// Tells why a host reaches a volume or does not. The writer is handed back.
///
/// # Errors
/// As for the policy, the database and the stream, in this order.
pub fn why<O: Files + Databases, W: Write + Drop>(
    alloc: Global,
    outside: &O,
    asked: &Why<'_>,
    writer: W,
) -> Result<(W, End), Fault>
    ensures { WhyComes O.Files O.File.remaining O.Databases O.Tables.Store W.contents outside.now asked.now writer result }
{
    let way = Look::Why {
        host: asked.host,
        volume: asked.volume,
    };
    look(alloc, outside, &asked.access, way, asked.is_json, writer)
}

/// The look at a volume or at a port.
fn who_look(of: WhoOf) -> Look
    ensures { result ≡ looks.who_look of }
{
    match of {
        WhoOf::Volume { volume } => Look::Who { volume },
        WhoOf::Port { port } => Look::Port { port },
    }
}

/// Tells who reaches a volume, or what is around a port. The writer is handed back.
///
/// # Errors
/// As for the policy, the database and the stream, in this order.
pub fn who<O: Files + Databases, W: Write + Drop>(
    alloc: Global,
    outside: &O,
    asked: &Who<'_>,
    writer: W,
) -> Result<(W, End), Fault>
    ensures { WhoComes O.Files O.File.remaining O.Databases O.Tables.Store W.contents outside.now asked.now writer result }
{
    let of = who_look(asked.of);
    look(alloc, outside, &asked.access, of, asked.is_json, writer)
}

/// Lists what there is of a kind. The writer is handed back.
///
/// # Errors
/// As for the policy, the database and the stream, in this order.
pub fn names<O: Files + Databases, W: Write + Drop>(
    alloc: Global,
    outside: &O,
    asked: &Names<'_>,
    writer: W,
) -> Result<(W, End), Fault>
    ensures { NamesComes O.Files O.File.remaining O.Databases O.Tables.Store W.contents outside.now asked.now writer result }
{
    let list = Look::List {
        kind: asked.kind,
        state: asked.state,
    };
    look(alloc, outside, &asked.access, list, asked.is_json, writer)
}
