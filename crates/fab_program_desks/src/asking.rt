//! One request from standard input, answered on standard output.
ghost use Rattle.std.specs.Prelude.{◌≡◌};
ghost use Rattle.sqlite.specs.Held.{state};
ghost use Rattle.sqlite.specs.Steps.{over_memory};
ghost use Rattle.fab_program_desks.specs.Tables.{AreNewTables};
ghost use Rattle.fab_program_outside.specs.Coming.{After, Then};
ghost use Rattle.fab_program_desks.specs.Once.{ComesOnce, IsServedAt, IsServedOver, ServesIt, ended};

use crate::database::{Databases, ProgramDesk, desk_over};
use crate::machine::new_tables;
use fab_files_base::End;
use fab_policy_base::{Policy, TRIAL_POLICY};
use fab_program_outside::{Fault, Files, policy_from, policy_of};
use fab_program_words::{Once, Over};
use fab_store::{SqlStore, Store};
use fab_wire::{Outcome, serve_one};
use fab_wire_base::routes::Routes;
use fab_wire_streams::counted::Counted;
use sqlite::MemStore;
use std::alloc::Global;
use std::io::{Read, Write};

/// Answers one request at a moment, over the desk that is asked for. The writer is handed back.
///
/// # Errors
/// As for the policy, the database, the moment and the streams, in this order.
pub fn once<O: Files + Databases, R: Read + Drop, W: Write + Drop>(
    alloc: Global,
    outside: &O,
    asked: &Once<'_>,
    moment: Result<u64, Fault>,
    reader: R,
    writer: W,
) -> Result<(W, End), Fault>
    ensures { ComesOnce O.Files O.File.remaining O.Databases O.Tables.Store (λ made. AreNewTables (state over_memory) made (λ tables. tables.conn)) ⟦<SqlStore<MemStore> as Store<Global>>⟧ R.remaining W.contents outside.now asked.entry.now.over moment reader writer result }
{
    match &asked.over {
        Over::Trial => {
            let policy = policy_from(alloc, TRIAL_POLICY);
            once_in_memory(alloc, policy, moment, reader, writer)
        }
        Over::Memory { policy } => {
            let policy = policy_of(alloc, outside, policy);
            once_in_memory(alloc, policy, moment, reader, writer)
        }
        Over::Database { policy, db } => {
            let policy = policy_of(alloc, outside, policy);
            once_in_file(alloc, outside, db, policy, moment, reader, writer)
        }
    }
}

/// Answers one request over a new desk in memory, if there is a policy.
fn once_in_memory<R: Read + Drop, W: Write + Drop>(
    alloc: Global,
    policy: Result<Policy, Fault>,
    moment: Result<u64, Fault>,
    reader: R,
    writer: W,
) -> Result<(W, End), Fault>
    ensures { After policy (λ p. Then (λ made. AreNewTables (state over_memory) made (λ tables. tables.conn)) (λ s. IsServedOver ⟦<SqlStore<MemStore> as Store<Global>>⟧ R.remaining W.contents s p moment reader writer)) result }
{
    match policy {
        Ok(policy) => once_over(alloc, new_tables(alloc), policy, moment, reader, writer),
        Err(fault) => Err(fault),
    }
}

/// Answers one request over the desk of a database's file, if there is a policy.
fn once_in_file<O: Databases, R: Read + Drop, W: Write + Drop>(
    alloc: Global,
    outside: &O,
    db: &str,
    policy: Result<Policy, Fault>,
    moment: Result<u64, Fault>,
    reader: R,
    writer: W,
) -> Result<(W, End), Fault>
    ensures { After policy (λ p. Then (O.finds outside.now db.now) (λ s. IsServedOver O.Tables.Store R.remaining W.contents s p moment reader writer)) result }
{
    match policy {
        Ok(policy) => once_over(alloc, outside.tables_in(db), policy, moment, reader, writer),
        Err(fault) => Err(fault),
    }
}

/// Answers one request at a desk over a store, if there is one.
fn once_over<S: Store<Global>, R: Read + Drop, W: Write + Drop>(
    alloc: Global,
    store: Result<S, Fault>,
    policy: Policy,
    moment: Result<u64, Fault>,
    reader: R,
    writer: W,
) -> Result<(W, End), Fault>
    ensures { After store (λ s. IsServedOver S.Store R.remaining W.contents s policy moment reader writer) result }
{
    match store {
        Ok(store) => once_by(
            alloc,
            desk_over(alloc, store, policy),
            moment,
            reader,
            writer,
        ),
        Err(fault) => Err(fault),
    }
}

/// Answers one request at a desk, if there is one.
fn once_by<S: Store<Global>, R: Read + Drop, W: Write + Drop>(
    alloc: Global,
    desk: Result<ProgramDesk<S>, Fault>,
    moment: Result<u64, Fault>,
    reader: R,
    writer: W,
) -> Result<(W, End), Fault>
    ensures { After desk (λ d. IsServedAt S.Store R.remaining W.contents d moment reader writer) result }
{
    match desk {
        Ok(mut desk) => once_at(alloc, &mut desk, moment, reader, writer),
        Err(fault) => Err(fault),
    }
}

/// Answers one request at a desk, if there is a moment, and the routes have memory.
fn once_at<S: Store<Global>, R: Read + Drop, W: Write + Drop>(
    alloc: Global,
    desk: &mut ProgramDesk<S>,
    moment: Result<u64, Fault>,
    reader: R,
    writer: W,
) -> Result<(W, End), Fault>
    ensures { IsServedAt S.Store R.remaining W.contents desk.old moment reader writer result }
{
    match moment {
        Ok(moment) => match Routes::new(alloc) {
            Ok(routes) => once_now(alloc, &routes, desk, moment, reader, writer),
            Err(_) => Err(Fault::Memory),
        },
        Err(fault) => Err(fault),
    }
}

/// Answers one request at a desk and a moment.
fn once_now<S: Store<Global>, R: Read + Drop, W: Write + Drop>(
    alloc: Global,
    routes: &Routes,
    desk: &mut ProgramDesk<S>,
    moment: u64,
    reader: R,
    writer: W,
) -> Result<(W, End), Fault>
    ensures { ServesIt S.Store R.remaining W.contents desk.old moment reader writer result }
{
    let mut reader = Counted::new(reader);
    let mut writer = Counted::new(writer);
    let outcome = serve_one(alloc, alloc, routes, desk, moment, &mut reader, &mut writer);
    match end_of(outcome) {
        Ok(end) => Ok((writer.into_inner(), end)),
        Err(fault) => Err(fault),
    }
}

/// How a request ended: it is done where its answer was written, or there was none.
fn end_of(outcome: Outcome) -> Result<End, Fault>
    ensures { result ≡ ended outcome }
{
    match outcome {
        Outcome::Answered(_) | Outcome::Empty => Ok(End::Done),
        Outcome::Unsent | Outcome::ReadFailed => Err(Fault::Stream),
    }
}
