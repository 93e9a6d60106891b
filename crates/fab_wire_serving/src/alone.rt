//! Connections that are served one after the other, each from its beginning to its end: where there is no
//! memory for the seats of a gathering, or the system does not watch the listener.

ghost use Rattle.std.specs.Prelude.{◌≡◌, ◌<◌, ◌⊎◌, ℕ, List, Option, Some, None, length, IfOk, IfErr, OnOk, OnErr};
ghost use Rattle.std.specs.Duration.{as_nanos};
ghost use Rattle.std.specs.Time.{instant_nanos};
ghost use Rattle.fab_wire_serving.specs.Stops.{IsStopped};
ghost use Rattle.fab_wire_serving.specs.Turns.{Gives, IsTurn, AreTurns, most_turns};

use crate::connection::{let_go, serve_stream};
use crate::serving::{ServeFault, restore};
use crate::{Listens, Server};
use fab_wire_deadlines::clock::Ticks;
use fab_wire_deadlines::deadline::{Deadline, Timed};
use fab_wire_log::Watch;
use std::io::Write;
use std::net::TcpStream;
use std::time::Instant;

/// The next connection, when it came in Unix seconds, and the reading of the clock at which it came.
///
/// # Errors
/// `Listener` where the listener gave none, `NoClock` where `now` gave no moment, or the clock could
/// not be read.
fn next_connection<C: Ticks, L: Listens, N: FnMut() -> Option<u64>>(
    clock: &C,
    listener: &L,
    now: &mut N,
) -> Result<(TcpStream, u64, Instant), ServeFault>
    requires { (state : N) → N.pre state }
    ensures moment { IfOk result (λ next. Gives N.step (Some next.1)) }
    ensures start { IfOk result (λ next. C.tells clock.now (instant_nanos next.2)) }
    ensures fault { IfErr result (IsStopped (L.fails listener.now) (Gives N.step None ⊎ C.fails clock.now)) }
{
    let stream = listener.connection().map_err(ServeFault::Listener)?;
    let Some(moment) = now() else {
        return Err(ServeFault::NoClock);
    };
    match clock.reading() {
        Ok(start) => Ok((stream, moment, start)),
        Err(_) => Err(ServeFault::NoClock),
    }
}

/// The reading of the clock at which a connection's time begins: now, or where the clock cannot be
/// read any more when it came.
pub(crate) fn begun<C: Ticks>(clock: &C, came: Instant) -> Instant
    ensures { C.tells clock.now (instant_nanos result) ⊎ (C.fails clock.now × (result ≡ came)) }
{
    clock.reading().unwrap_or(came)
}

/// Serves the next connection: a server that is halted is opened anew before, if it can be. What that
/// takes is no part of the connection's time.
///
/// # Errors
/// As `next_connection`: then the server and the log are as they were.
fn serve_next<
    C: Ticks,
    W: Write,
    D: Server,
    L: Listens,
    N: FnMut() -> Option<u64>,
    O: Fn() -> Result<D::Store, D::Fault>,
>(
    watch: &mut Watch<'_, C, W>,
    server: &mut D,
    listener: &L,
    now: &mut N,
    again: &O,
) -> Result<(), ServeFault>
    requires now { (state : N) → N.pre state }
    requires again { O.pre again.now }
    ensures clock { watch.new.clock.now ≡ watch.old.clock.now }
    ensures most { watch.new.most ≡ watch.old.most }
    ensures turn { OnOk result ((moment : ℕ) × IsTurn D.Server (O.post again.now) (Gives N.step)
        (C.tells watch.old.clock.now) (C.fails watch.old.clock.now) W.contents (as_nanos watch.old.most)
        server.old watch.old.log moment server.new watch.new.log) }
    ensures fault { IfErr result (IsStopped (L.fails listener.now) (Gives N.step None ⊎ C.fails watch.old.clock.now)) }
    ensures kept { OnErr result (server.new ≡ server.old) }
    ensures unlogged { OnErr result (watch.new.log ≡ watch.old.log) }
{
    let (stream, moment, start) = next_connection(watch.clock, listener, now)?;
    restore(server, again);
    let deadline = Deadline::after(begun(watch.clock, start), watch.most);
    let came = serve_stream(
        watch.alloc,
        watch.clock,
        server,
        moment,
        &stream,
        &stream,
        deadline,
    );
    watch.note(moment, came.shown::<D>(), start);
    let_go(&mut Timed::new(watch.clock, &stream, deadline));
    Ok(())
}

/// Serves as many connections as `count` says, or without end.
///
/// # Errors
/// As `serve_next`: the connections before were served.
pub(crate) fn serve_alone<
    C: Ticks,
    W: Write,
    D: Server,
    L: Listens,
    N: FnMut() -> Option<u64>,
    O: Fn() -> Result<D::Store, D::Fault>,
>(
    watch: &mut Watch<'_, C, W>,
    server: &mut D,
    listener: &L,
    now: &mut N,
    count: Option<u64>,
    again: &O,
) -> Result<(), ServeFault>
    requires now { (state : N) → N.pre state }
    requires again { O.pre again.now }
    ensures turns { (moments : List ℕ) × AreTurns D.Server (O.post again.now) (Gives N.step)
        (C.tells watch.old.clock.now) (C.fails watch.old.clock.now) W.contents (as_nanos watch.old.most)
        server.old watch.old.log moments server.new watch.new.log
        × OnOk result (length moments ≡ most_turns count) × OnErr result (length moments < most_turns count) }
    ensures fault { IfErr result (IsStopped (L.fails listener.now) (Gives N.step None ⊎ C.fails watch.old.clock.now)) }
{
    for _ in 0..count.unwrap_or(u64::MAX) {
        serve_next(watch, server, listener, now, again)?;
    }
    Ok(())
}
