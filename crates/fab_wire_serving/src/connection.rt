//! One connection over a stream.

ghost use Rattle.std.specs.Prelude.{◌≡◌, ◌≤◌, ◌<◌, ◌+◌, ◌⊎◌, ℕ, true, false, IfSome};
ghost use Rattle.std.specs.Io.Buffered.{writer_contents};
ghost use Rattle.std.specs.Io.KnownBytes.{Keeps};
ghost use Rattle.fab_wire_streams.specs.Counting.{inner_of, failures_of};
ghost use Rattle.fab_wire_serving.specs.Coming.{ComesSo, IsSent, IsLate, IsLetGo, came_text};
ghost use Rattle.fab_wire_deadlines.specs.Deadlines.{end_of, end_at, clock_of, stream_of};
ghost use Rattle.fab_wire_gathering.specs.Guests.{most_lingering};
ghost use Rattle.fab_wire_log.specs.Shown.{shown_text};
ghost use Rattle.fab_wire_serving.specs.Sides.{begun_sides};

use crate::Server;
use fab_wire_deadlines::clock::Ticks;
use fab_wire_deadlines::deadline::{Deadline, Timed};
use fab_wire_deadlines::stream::{Sink, Source};
use fab_wire_gathering::guest::{LINGERING_SECONDS, MOST_FIRST, MOST_TAKINGS};
use fab_wire_log::Shown;
use fab_wire_streams::counted::Counted;
use std::alloc::Global;
use std::io::{BufWriter, Read, Write};
use std::time::Duration;

/// How many bytes of an answer are sent at once.
const MOST_AT_ONCE: usize = 65536;

/// What came of a connection over a stream.
#[derive(Drop)]
pub enum Came<O> {
    /// What the server says of it.
    Served(O),
    /// The server wrote an answer, and the stream did not take the rest of it.
    Unsent,
}

impl<O> Came<O> {
    /// What the log shows of it.
    pub fn shown<D: Server<Outcome = O>>(&self) -> Shown
        ensures { shown_text result ≡ came_text D.shows self.now }
    {
        match self {
            Came::Served(outcome) => D::shown(outcome),
            Came::Unsent => Shown::Word("unsent"),
        }
    }
}

/// Sends what a buffer holds, and hands back its stream; none where the stream did not take all. After
/// a failed write nothing is tried again.
fn emptied<W: Write + Drop>(buffer: BufWriter<W>) -> Option<W>
    ensures { IfSome result (λ stream. Keeps (writer_contents W.contents buffer) (W.contents stream)) }
{
    match buffer.into_inner() {
        Ok(stream) => Some(stream),
        Err(e) => {
            drop(e.into_inner().into_parts());
            None
        }
    }
}

/// Sends the rest of an answer, and says whether the stream has taken it. Where a write has failed, of
/// which the outcome tells, nothing is tried again.
fn send_rest<W: Write + Drop>(writer: Counted<BufWriter<W>>) -> bool
    ensures sent { result ≡ true → (0 < failures_of writer) ⊎ ((last : W) × Keeps (writer_contents W.contents (inner_of writer)) (W.contents last)) }
    ensures unsent { result ≡ false → failures_of writer ≡ 0 }
{
    if writer.failures() != 0 {
        drop(writer.into_inner().into_parts());
        return true;
    }
    emptied(writer.into_inner()).is_some()
}

/// Serves a connection at a moment (Unix seconds), until the deadline: what is read of it, and what is
/// written to it. The answer is sent in large pieces; where there is no memory for them, in those in which
/// it is written.
pub fn serve_stream<C: Ticks, D: Server, R: Source + Drop, S: Sink + Copy>(
    alloc: Global,
    clock: &C,
    server: &mut D,
    moment: u64,
    source: R,
    sink: S,
    deadline: Deadline,
) -> Came<D::Outcome>
    ensures { ComesSo
        (λ outcome after. D.serves server.old moment (begun_sides (R.remaining source) (S.contents sink) (end_of deadline)) after outcome server.new)
        (IsSent S.contents) result }
{
    let mut reader = Counted::new(Timed::new(clock, source, deadline));
    let timed = Timed::new(clock, sink, deadline);
    match BufWriter::with_capacity(alloc, MOST_AT_ONCE, timed) {
        Ok(buffer) => {
            let mut writer = Counted::new(buffer);
            let outcome = server.serve_one(moment, &mut reader, &mut writer);
            if send_rest(writer) {
                Came::Served(outcome)
            } else {
                Came::Unsent
            }
        }
        Err(_) => {
            let mut writer = Counted::new(Timed::new(clock, sink, deadline));
            Came::Served(server.serve_one(moment, &mut reader, &mut writer))
        }
    }
}

/// Ends a connection in stages (RFC 9112, section 9.6): nothing more is sent, and what the other side
/// still sends is taken for a second, or until the deadline. Closed with bytes unread, the connection
/// would be reset, and the answer lost with it.
pub fn let_go<C: Ticks, S: Source + Sink>(timed: &mut Timed<'_, C, S>)
    ensures sooner { end_at timed.new ≤ end_at timed.old }
    ensures soon { (stream_of timed.new ≡ stream_of timed.old)
        ⊎ ((reading : ℕ) × C.tells (clock_of timed.old) reading × (end_at timed.new ≤ reading + most_lingering)) }
    ensures ended { IsLate C.fails timed.old timed.new ⊎ IsLetGo C.tells S.ends timed.old timed.new }
{
    if timed
        .hasten(Duration::from_secs(LINGERING_SECONDS))
        .is_err()
    {
        return;
    }
    if timed.end_writing().is_ok() {
        take_rest(timed);
    }
}

/// Takes what a stream still gives.
fn take_rest<C: Ticks, S: Source>(timed: &mut Timed<'_, C, S>)
    ensures { end_at timed.new ≡ end_at timed.old }
{
    let mut bytes = [0u8; MOST_FIRST];
    for _ in 0..MOST_TAKINGS {
        match timed.read(&mut bytes) {
            Ok(taken) if taken > 0 => {}
            _ => return,
        }
    }
}
