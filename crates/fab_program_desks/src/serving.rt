//! Connections served over a database.
ghost use Rattle.std.specs.Prelude.{◌≡◌, Result};
ghost use Rattle.fab_store.specs.declared.OpenFault.{OpenFault};
ghost use Rattle.fab_program_outside.specs.Coming.{After};
ghost use Rattle.fab_wire_serving.specs.Turns.{Gives};
ghost use Rattle.fab_program_desks.specs.Databases.{IsAgain};
ghost use Rattle.fab_program_desks.specs.Servings.{AreServed, ComesServing, IsServedAt, IsServedBy, IsServedOver, served};

use crate::addresses::Addresses;
use crate::database::{Databases, ProgramDesk, desk_over, tables_again};
use crate::front::Front;
use fab_files_base::End;
use fab_policy_base::Policy;
use fab_program_outside::{Fault, Files, policy_of};
use fab_program_words::Serve;
use fab_store::{OpenFault, Store};
use fab_wire_base::routes::Routes;
use fab_wire_log::Watch;
use fab_wire_serving::{ServeFault, Server, serve_on};
use mio::Poll;
use std::alloc::Global;
use std::io::Write;

/// Serves connections: as many as are asked for, or until accepting one fails, or the clock does. Each has
/// its line in the log. The tables of a desk that is halted are opened anew at the same path.
///
/// # Errors
/// As for the policy, the database, the listener and the clock, in this order.
pub fn serve<O: Files + Databases + Addresses, N: FnMut() -> Option<u64>, W: Write + Drop>(
    rt: &HostRuntime,
    outside: &O,
    asked: &Serve<'_>,
    now: &mut N,
    log: W,
) -> Result<End, Fault>
    requires { (state : N) → N.pre state }
    ensures { ComesServing O.Files O.File.remaining O.Databases O.Addresses O.Tables.Store ⟦<Front<O::Tables> as Server>⟧ (λ front. front.desk) W.contents (Gives N.step) outside.now asked.now log result }
{
    let db = asked.db;
    match policy_of(rt.alloc(), outside, asked.policy) {
        Ok(policy) => {
            let again = ||
                ensures { IsAgain (O.finds outside.entry.now db.entry.now) result }
            { tables_again(outside, db) };
            let store = outside.tables_in(db);
            serve_over(rt, outside, asked, store, policy, now, log, &again)
        }
        Err(fault) => Err(fault),
    }
}

/// Serves connections over a desk over the tables at the path that is asked for, if there are any. `again`
/// opens these tables anew.
fn serve_over<
    O: Databases + Addresses,
    N: FnMut() -> Option<u64>,
    W: Write + Drop,
    F: Fn() -> Result<O::Tables, OpenFault>,
>(
    rt: &HostRuntime,
    outside: &O,
    asked: &Serve<'_>,
    store: Result<O::Tables, Fault>,
    policy: Policy,
    now: &mut N,
    log: W,
    again: &F,
) -> Result<End, Fault>
    requires now { (state : N) → N.pre state }
    requires again { F.pre again.now }
    requires found { (came : Result O.Tables OpenFault) → F.post again.now came → IsAgain (O.finds outside.now asked.now.db.now) came }
    ensures { After store (λ s. IsServedOver ⟦<Front<O::Tables> as Server>⟧ W.contents (IsAgain (O.finds outside.now asked.now.db.now)) (Gives N.step) asked.now.count (λ front. front.desk) (O.listens outside.now asked.now.listen.now) O.Tables.Store s policy log) result }
{
    match store {
        Ok(store) => {
            let desk = desk_over(rt.alloc(), store, policy);
            serve_by(rt, outside, asked, desk, now, log, again)
        }
        Err(fault) => Err(fault),
    }
}

/// Serves connections over a desk, if there is one and the routes have memory.
fn serve_by<
    O: Addresses,
    S: Store<Global>,
    N: FnMut() -> Option<u64>,
    W: Write + Drop,
    F: Fn() -> Result<S, OpenFault>,
>(
    rt: &HostRuntime,
    outside: &O,
    asked: &Serve<'_>,
    desk: Result<ProgramDesk<S>, Fault>,
    now: &mut N,
    log: W,
    again: &F,
) -> Result<End, Fault>
    requires now { (state : N) → N.pre state }
    requires again { F.pre again.now }
    ensures { After desk (λ d. IsServedBy ⟦<Front<S> as Server>⟧ W.contents (F.post again.now) (Gives N.step) asked.now.count (λ front. front.desk) (O.listens outside.now asked.now.listen.now) d log) result }
{
    match desk {
        Ok(desk) => match Routes::new(rt.alloc()) {
            Ok(routes) => {
                let mut front = Front {
                    alloc: rt.alloc(),
                    routes,
                    desk,
                };
                serve_at(rt, outside, asked, &mut front, now, log, again)
            }
            Err(_) => Err(Fault::Memory),
        },
        Err(fault) => Err(fault),
    }
}

/// Serves connections at an address, if it can be listened at.
fn serve_at<
    O: Addresses,
    S: Store<Global>,
    N: FnMut() -> Option<u64>,
    W: Write + Drop,
    F: Fn() -> Result<S, OpenFault>,
>(
    rt: &HostRuntime,
    outside: &O,
    asked: &Serve<'_>,
    front: &mut Front<S>,
    now: &mut N,
    log: W,
    again: &F,
) -> Result<End, Fault>
    requires now { (state : N) → N.pre state }
    requires again { F.pre again.now }
    ensures { IsServedAt (O.listens outside.now asked.now.listen.now) (AreServed ⟦<Front<S> as Server>⟧ W.contents (F.post again.now) (Gives N.step) asked.now.count front.old log) result }
{
    match outside.listen(asked.listen) {
        Some(listener) => {
            let mut watch = Watch::new(rt.alloc(), rt, log, Poll::new(rt).ok());
            let came = serve_on(&mut watch, front, &listener, now, asked.count, again);
            end_of(came)
        }
        None => Err(Fault::Listen),
    }
}

/// How serving ended: it is done only where as many connections were served as were asked for.
fn end_of(came: Result<(), ServeFault>) -> Result<End, Fault>
    ensures { result ≡ served came }
{
    match came {
        Ok(()) => Ok(End::Done),
        Err(ServeFault::Listener(_)) => Err(Fault::Listen),
        Err(ServeFault::NoClock) => Err(Fault::Clock),
    }
}
