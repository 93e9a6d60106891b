//! Connections served in turn: requests are gathered, and answers sent, side by side; what they ask is done
//! one after the other.

ghost use Rattle.std.specs.Prelude.{◌≡◌, ◌<◌, ◌⊎◌, ℕ, List, [], Some, None, length, IfErr, IfSome, OnOk, OnErr};
ghost use Rattle.std.specs.Duration.{as_nanos};
ghost use Rattle.std.specs.Time.{instant_nanos};
ghost use Rattle.fab_wire_deadlines.specs.Deadlines.{end_of};
ghost use Rattle.fab_wire_gathering.specs.Guests.{gathered_of};
ghost use Rattle.fab_wire_serving.specs.Coming.{CameSo, came_text};
ghost use Rattle.fab_wire_log.specs.Pending.{Advances};
ghost use Rattle.fab_wire_serving.specs.Waiting.{ArePlayed, IsTurnTaken};
ghost use Rattle.fab_wire_log.specs.Shown.{shown_text};
ghost use Rattle.fab_wire_serving.specs.Sides.{begun_sides};
ghost use Rattle.fab_wire_serving.specs.Starts.{AreTold};
ghost use Rattle.fab_wire_serving.specs.Stops.{IsStopped};
ghost use Rattle.fab_wire_serving.specs.Turns.{Gives, IsRestored, AreTurns, most_turns};
ghost use Rattle.fab_wire_serving.specs.declared.connection.Came.{Came};

use crate::alone::{begun, serve_alone};
use crate::connection::{Came, serve_stream};
use crate::exchange::{Answer, Request};
use crate::room::{Room, Turn};
use crate::{Forgets, Listens, Server};
use fab_wire_deadlines::clock::Ticks;
use fab_wire_deadlines::deadline::Deadline;
use fab_wire_gathering::guest::Guest;
use fab_wire_log::pending::Line;
use fab_wire_log::{Shown, Watch};
use std::alloc::Global;
use std::io;
use std::io::Write;
use std::time::Instant;
use thiserror::Error;

/// Why no more connections are served.
#[derive(Debug, Drop, Error)]
pub enum ServeFault {
    /// The listener did not give the next connection.
    #[error("accepting failed: {0}")]
    Listener(io::Error),
    /// A clock could not be read.
    #[error("no clock")]
    NoClock,
}

/// Opens a halted server anew, over a store that `again` opens, once the store that it halted on is
/// dropped. Where none is opened, or the server is refused over it, it stays halted.
pub(crate) fn restore<D: Server, O: Fn() -> Result<D::Store, D::Fault>>(server: &mut D, again: &O)
    requires { O.pre again.now }
    ensures { IsRestored D.Server (O.post again.now) server.old server.new }
{
    if !server.halted() {
        return;
    }
    drop(server.release());
    if let Ok(store) = again() {
        drop(server.reopen(store));
    }
}

/// Serves the connection of a guest, at a moment, until the deadline: the bytes that were gathered of it,
/// and no others. It gives what the log shows of it, and what is kept of its answer.
fn serve_guest<C: Ticks, D: Server>(
    alloc: Global,
    clock: &C,
    server: &mut D,
    moment: u64,
    guest: &Guest,
    deadline: Deadline,
) -> (Shown, Vec<u8>)
    ensures { (came : Came D.Outcome)
        × CameSo (λ outcome after. D.serves server.old moment (begun_sides (gathered_of guest.now) None (end_of deadline)) after outcome server.new) came
        × (shown_text result.0 ≡ came_text D.shows came) }
{
    let request = Request::of(guest);
    let answer = Answer::to(alloc, guest);
    let came = serve_stream(alloc, clock, server, moment, request, &answer, deadline);
    let shown = came.shown::<D>();
    (shown, answer.into_kept())
}

/// Serves a connection whose turn has come: a server that is halted is opened anew before, if it can be.
/// What that takes, and serving, is no part of anybody's time.
///
/// # Errors
/// `NoClock` where `now` gave no moment: then nothing has changed.
fn serve_turn<
    C: Ticks,
    W: Write,
    D: Forgets,
    N: FnMut() -> Option<u64>,
    O: Fn() -> Result<D::Store, D::Fault>,
>(
    watch: &mut Watch<'_, C, W>,
    server: &mut D,
    room: &mut Room,
    now: &mut N,
    again: &O,
    turn: Turn,
) -> Result<(), ServeFault>
    requires now { (state : N) → N.pre state }
    requires again { O.pre again.now }
    requires start { C.tells watch.old.clock.now (instant_nanos turn.start) }
    ensures clock { watch.new.clock.now ≡ watch.old.clock.now }
    ensures most { watch.new.most ≡ watch.old.most }
    ensures starts { room.new.starts ≡ room.old.starts }
    ensures turn { OnOk result (IsTurnTaken D.Server (O.post again.now) (Gives N.step)
        (C.tells watch.old.clock.now) (C.fails watch.old.clock.now) W.contents (as_nanos watch.old.most)
        server.old watch.old.log room.old.pending.lines.items server.new watch.new.log room.new.pending.lines.items) }
    ensures fault { IfErr result (IsStopped ⊥ (Gives N.step None)) }
    ensures kept { OnErr result (server.new ≡ server.old) }
    ensures unlogged { OnErr result (watch.new.log ≡ watch.old.log) }
    ensures waiting { OnErr result (room.new.pending ≡ room.old.pending) }
{
    let Some(moment) = now() else {
        return Err(ServeFault::NoClock);
    };
    room.make_room(watch);
    let called = begun(watch.clock, turn.start);
    restore(server, again);
    let limit = Deadline::after(begun(watch.clock, turn.start), watch.most);
    let (shown, answer) = serve_guest(watch.alloc, watch.clock, server, moment, &turn.guest, limit);
    let line = Line {
        moment,
        shown,
        start: turn.start,
        milliseconds: None,
    };
    let done = begun(watch.clock, called);
    room.put_off(done.duration_since(called));
    room.end_turn(watch, turn, line, answer, Deadline::after(done, watch.most));
    Ok(())
}

/// Serves the next connection whose turn has come.
///
/// # Errors
/// `Listener` where the listener gave none and nobody is there, `NoClock` where `now` gave no moment, or
/// the clock could not be read: then the server is as it was.
fn serve_next<
    C: Ticks,
    W: Write,
    D: Forgets,
    L: Listens,
    N: FnMut() -> Option<u64>,
    O: Fn() -> Result<D::Store, D::Fault>,
>(
    watch: &mut Watch<'_, C, W>,
    server: &mut D,
    listener: &L,
    room: &mut Room,
    now: &mut N,
    again: &O,
) -> Result<(), ServeFault>
    requires now { (state : N) → N.pre state }
    requires again { O.pre again.now }
    requires told { AreTold (C.tells watch.old.clock.now) room.old.starts.items }
    ensures clock { watch.new.clock.now ≡ watch.old.clock.now }
    ensures most { watch.new.most ≡ watch.old.most }
    ensures told { AreTold (C.tells watch.old.clock.now) room.new.starts.items }
    ensures turn { OnOk result (IsTurnTaken D.Server (O.post again.now) (Gives N.step)
        (C.tells watch.old.clock.now) (C.fails watch.old.clock.now) W.contents (as_nanos watch.old.most)
        server.old watch.old.log room.old.pending.lines.items server.new watch.new.log room.new.pending.lines.items) }
    ensures fault { IfErr result (IsStopped (L.fails listener.now) (Gives N.step None ⊎ C.fails watch.old.clock.now)) }
    ensures kept { OnErr result (server.new ≡ server.old) }
    ensures lines { OnErr result (Advances (C.tells watch.old.clock.now) (C.fails watch.old.clock.now) W.contents
        watch.old.log room.old.pending.lines.items watch.new.log room.new.pending.lines.items) }
{
    let turn = room.next_turn(watch, server, listener)?;
    serve_turn(watch, server, room, now, again, turn)
}

/// Serves so many connections in turn. Lines of the last ones may wait then.
///
/// # Errors
/// As `serve_next`: the connections before were served.
fn serve_turns<
    C: Ticks,
    W: Write,
    D: Forgets,
    L: Listens,
    N: FnMut() -> Option<u64>,
    O: Fn() -> Result<D::Store, D::Fault>,
>(
    watch: &mut Watch<'_, C, W>,
    server: &mut D,
    listener: &L,
    room: &mut Room,
    now: &mut N,
    most: u64,
    again: &O,
) -> Result<(), ServeFault>
    requires now { (state : N) → N.pre state }
    requires again { O.pre again.now }
    requires told { AreTold (C.tells watch.old.clock.now) room.old.starts.items }
    requires none { room.old.pending.lines.items ≡ [] }
    ensures clock { watch.new.clock.now ≡ watch.old.clock.now }
    ensures most { watch.new.most ≡ watch.old.most }
    ensures turns { (count : ℕ) × ArePlayed D.Server (O.post again.now) (Gives N.step)
        (C.tells watch.old.clock.now) (C.fails watch.old.clock.now) W.contents (as_nanos watch.old.most)
        server.old watch.old.log count server.new watch.new.log room.new.pending.lines.items
        × OnOk result (count ≡ most) × OnErr result (count < most) }
    ensures fault { IfErr result (IsStopped (L.fails listener.now) (Gives N.step None ⊎ C.fails watch.old.clock.now)) }
{
    for _ in 0..most {
        serve_next(watch, server, listener, room, now, again)?;
    }
    Ok(())
}

/// Serves so many connections in turn, and lets everybody go then.
///
/// # Errors
/// As `serve_turns`.
fn serve_room<
    C: Ticks,
    W: Write,
    D: Forgets,
    L: Listens,
    N: FnMut() -> Option<u64>,
    O: Fn() -> Result<D::Store, D::Fault>,
>(
    watch: &mut Watch<'_, C, W>,
    server: &mut D,
    listener: &L,
    room: &mut Room,
    now: &mut N,
    most: u64,
    again: &O,
) -> Result<(), ServeFault>
    requires now { (state : N) → N.pre state }
    requires again { O.pre again.now }
    requires told { AreTold (C.tells watch.old.clock.now) room.old.starts.items }
    requires none { room.old.pending.lines.items ≡ [] }
    ensures turns { (moments : List ℕ) × AreTurns D.Server (O.post again.now) (Gives N.step)
        (C.tells watch.old.clock.now) (C.fails watch.old.clock.now) W.contents (as_nanos watch.old.most)
        server.old watch.old.log moments server.new watch.new.log
        × OnOk result (length moments ≡ most) × OnErr result (length moments < most) }
    ensures fault { IfErr result (IsStopped (L.fails listener.now) (Gives N.step None ⊎ C.fails watch.old.clock.now)) }
{
    let came = serve_turns(watch, server, listener, room, now, most, again);
    room.finish(watch, server);
    room.close(listener);
    came
}

/// How many connections are served.
fn turns_of(count: Option<u64>) -> u64
    ensures { result ≡ most_turns count }
{
    count.unwrap_or(u64::MAX)
}

/// A room for the connections of a listener, of which so many are to be taken up; none where there is no
/// memory for it, or the system does not tell who is ready.
fn room_for<C: Ticks, W: Write, L: Listens>(
    watch: &mut Watch<'_, C, W>,
    listener: &L,
    left: u64,
) -> Option<Room>
    ensures clock { watch.new.clock.now ≡ watch.old.clock.now }
    ensures most { watch.new.most ≡ watch.old.most }
    ensures log { watch.new.log ≡ watch.old.log }
    ensures told { IfSome result (λ room. AreTold (C.tells watch.old.clock.now) room.starts.items) }
    ensures lines { IfSome result (λ room. room.pending.lines.items ≡ []) }
{
    let poll = watch.poll.take()?;
    let room = Room::new(watch, poll, left).ok()?;
    if room.open(listener).is_err() {
        room.close(listener);
        return None;
    }
    Some(room)
}

/// Serves connections in turn: as many as `count` says, or without end. `now` gives the Unix seconds,
/// and `again` opens the store of a halted server anew.
///
/// The requests of connections are gathered, and their answers sent, side by side, each for no longer than
/// the watch lets it last; a slow one delays no other. They are served one after the other, in the order
/// in which their requests are whole, each at the moment of its turn. Each has its line in the log, in
/// this order too. A server that is halted lets go of its store and is opened anew before the next turn;
/// where that cannot be, it serves that connection as a halted one.
///
/// Where there is no memory for what a connection sends, or the system does not watch it, it is served
/// from its beginning to its end in its turn, and the others wait.
///
/// # Errors
/// `Listener` where the listener gave no connection and nobody is there, `NoClock` where `now` gave no moment, or the clock
/// of the watch could not be read. The connections before were served, and the server is as they left
/// it.
pub fn serve_on<
    C: Ticks,
    W: Write,
    D: Forgets,
    L: Listens,
    N: FnMut() -> Option<u64>,
    O: Fn() -> Result<D::Store, D::Fault>,
>(
    watch: &mut Watch<'_, C, W>,
    server: &mut D,
    listener: &L,
    now: &mut N,
    count: Option<u64>,
    again: &O,
) -> Result<(), ServeFault>
    requires now { (state : N) → N.pre state }
    requires again { O.pre again.now }
    ensures turns { (moments : List ℕ) × AreTurns D.Server (O.post again.now) (Gives N.step)
        (C.tells watch.old.clock.now) (C.fails watch.old.clock.now) W.contents (as_nanos watch.old.most)
        server.old watch.old.log moments server.new watch.new.log
        × OnOk result (length moments ≡ most_turns count) × OnErr result (length moments < most_turns count) }
    ensures fault { IfErr result (IsStopped (L.fails listener.now) (Gives N.step None ⊎ C.fails watch.old.clock.now)) }
{
    let most = turns_of(count);
    match room_for(watch, listener, most) {
        Some(mut room) => serve_room(watch, server, listener, &mut room, now, most, again),
        None => serve_alone(watch, server, listener, now, count, again),
    }
}
