//! A stream whose reads and writes end in time.

ghost use Rattle.std.specs.Prelude.{◌≡◌, ◌<◌, ◌≤◌, ◌+◌, ◌⊎◌, ℕ, Some, max, min, IfSome, IfNone, IfOk, IsErrAnd, OnOk, OnErr};
ghost use Rattle.std.specs.Duration.{as_nanos};
ghost use Rattle.std.specs.Io.{ReadsAtMost, WritesAtMost};
ghost use Rattle.std.specs.Io.KnownBytes.{Keeps, ReadConsumes, WriteAppends};
ghost use Rattle.std.specs.IoError.{error_kind};
ghost use Rattle.std.specs.Time.{instant_nanos};
ghost use Rattle.fab_wire_deadlines.specs.Deadlines.{end_after, end_of, end_time, seen_by, clock_of, stream_of, end_at, seen_at, HasSeen, IsOver, IsAsked, IsHastened};

use crate::bounds::Bounded;
use crate::clock::Ticks;
use crate::stream::{Sink, Source};
use std::io;
use std::io::{ErrorKind, Read, Write};
use std::time::{Duration, Instant};

/// When a connection ends at the latest, on the monotonic clock, and the latest reading of that clock.
#[derive(Clone, Copy)]
pub struct Deadline {
    end: Instant,
    seen: Instant,
}

/// The later of two readings of one clock.
fn later(one: Instant, other: Instant) -> Instant
    ensures { instant_nanos result ≡ max (instant_nanos one) (instant_nanos other) }
{
    match other.checked_duration_since(one) {
        Some(_) => other,
        None => one,
    }
}

/// The sooner of two readings of one clock.
pub fn sooner(one: Instant, other: Instant) -> Instant
    ensures { instant_nanos result ≡ min (instant_nanos one) (instant_nanos other) }
{
    match other.checked_duration_since(one) {
        Some(_) => one,
        None => other,
    }
}

/// The shorter of two times.
fn shorter(one: Duration, other: Duration) -> Duration
    ensures { as_nanos result ≡ min (as_nanos one) (as_nanos other) }
{
    match other.checked_sub(one) {
        Some(_) => one,
        None => other,
    }
}

impl Deadline {
    /// The deadline that comes this long after a reading of the clock. Past the end of the clock
    /// there is none: then the deadline is the reading itself, and no time is left.
    pub fn after(start: Instant, most: Duration) -> Self
        ensures end { end_of result ≡ end_after (instant_nanos start) (as_nanos most) }
        ensures seen { seen_by result ≡ instant_nanos start }
    {
        match start.checked_add(most) {
            Some(end) => Deadline { end, seen: start },
            None => Deadline {
                end: start,
                seen: start,
            },
        }
    }

    /// When it is, on the monotonic clock.
    pub fn end(&self) -> Instant
        ensures is { result ≡ end_time self.now }
        ensures end { instant_nanos result ≡ end_of self.now }
    {
        self.end
    }

    /// Puts the deadline off, where the clock does not end before.
    pub fn put_off(&mut self, by: Duration)
        ensures end { end_of self.new ≡ end_after (end_of self.old) (as_nanos by) }
        ensures seen { seen_by self.new ≡ seen_by self.old }
    {
        if let Some(end) = self.end.checked_add(by) {
            self.end = end;
        }
    }

    /// What is left of the time at a reading of the clock. From the deadline on there is none, and
    /// none ever after, even if the clock went back.
    pub fn left(&mut self, reading: Instant) -> Option<Duration>
        ensures end { end_of self.new ≡ end_of self.old }
        ensures seen { seen_by self.new ≡ max (seen_by self.old) (instant_nanos reading) }
        ensures left { IfSome result (λ time. (0 < as_nanos time) × (as_nanos time + seen_by self.new ≡ end_of self.new)) }
        ensures none { IfNone result (end_of self.new ≤ seen_by self.new) }
    {
        self.seen = later(self.seen, reading);
        let time = self.end.checked_duration_since(self.seen)?;
        if time.is_zero() { None } else { Some(time) }
    }
}

/// A stream with a deadline.
///
/// Before each read and write the clock is read, and the stream is asked to wait no longer than what
/// is left of the time. Where none is left the call fails with `TimedOut`, and the stream is not
/// asked. So a byte now and then does not put the end off.
#[derive(Drop)]
pub struct Timed<'c, C: Ticks, S> {
    clock: &'c C,
    stream: S,
    deadline: Deadline,
}

impl<'c, C: Ticks, S> Timed<'c, C, S> {
    /// The stream, until the deadline, which is on this clock.
    pub fn new(clock: &'c C, stream: S, deadline: Deadline) -> Self
        ensures clock { clock_of result ≡ clock.entry.now }
        ensures stream { stream_of result ≡ stream }
        ensures end { end_at result ≡ end_of deadline }
        ensures seen { seen_at result ≡ seen_by deadline }
    {
        Timed {
            clock,
            stream,
            deadline,
        }
    }

    /// What is left of the time.
    ///
    /// # Errors
    /// `TimedOut` from the deadline on; or what the clock answers where it cannot be read, which
    /// leaves everything as it was.
    fn time_left(&mut self) -> io::Result<Duration>
        ensures clock { clock_of self.new ≡ clock_of self.old }
        ensures stream { stream_of self.new ≡ stream_of self.old }
        ensures end { end_at self.new ≡ end_at self.old }
        ensures seen { seen_at self.old ≤ seen_at self.new }
        ensures told { IfOk result (λ time. HasSeen C.tells self.old self.new) }
        ensures time { IfOk result (λ time. (0 < as_nanos time) × (as_nanos time + seen_at self.new ≡ end_at self.new)) }
        ensures over { end_at self.new ≤ seen_at self.new → IsErrAnd result (λ e. (error_kind e ≡ ErrorKind.TimedOut) ⊎ (seen_at self.new ≡ seen_at self.old)) }
    {
        let reading = self.clock.reading()?;
        match self.deadline.left(reading) {
            Some(time) => Ok(time),
            None => Err(io::Error::from(ErrorKind::TimedOut)),
        }
    }

    /// Brings the deadline forward: from now on there is no more than this time left.
    ///
    /// # Errors
    /// As `time_left`; then the deadline is as it was.
    pub fn hasten(&mut self, most: Duration) -> io::Result<()>
        ensures clock { clock_of self.new ≡ clock_of self.old }
        ensures stream { stream_of self.new ≡ stream_of self.old }
        ensures sooner { end_at self.new ≤ end_at self.old }
        ensures soon { OnOk result ((reading : ℕ) × C.tells (clock_of self.old) reading × (end_at self.new ≤ reading + as_nanos most)) }
        ensures hastened { OnOk result ((reading : ℕ) × C.tells (clock_of self.old) reading × IsHastened reading (as_nanos most) self.old self.new) }
        ensures kept { OnErr result (end_at self.new ≡ end_at self.old) }
        ensures late { OnErr result (C.fails (clock_of self.old) ⊎ (end_at self.new ≤ seen_at self.new)) }
    {
        let reading = self.clock.reading()?;
        match self.deadline.left(reading) {
            Some(time) => {
                self.deadline = Deadline::after(reading, shorter(time, most));
                Ok(())
            }
            None => Err(io::Error::from(ErrorKind::TimedOut)),
        }
    }
}

impl<'c, C: Ticks, S: Sink> Timed<'c, C, S> {
    /// Tells the other side that nothing more is sent.
    ///
    /// # Errors
    /// That of the stream.
    pub fn end_writing(&mut self) -> io::Result<()>
        ensures clock { clock_of self.new ≡ clock_of self.old }
        ensures end { end_at self.new ≡ end_at self.old }
        ensures ended { S.ends (stream_of self.old) (stream_of self.new) }
    {
        self.stream.end_writing()
    }
}

impl<'c, C: Ticks, S> Bounded for Timed<'c, C, S> {
    ghost until = { λ timed. Some (end_at timed) };
}

impl<'c, C: Ticks, S: Source> Read for Timed<'c, C, S> {
    ghost remaining = { λ timed. S.remaining (stream_of timed) };

    /// One read of the stream, if there is time for it.
    fn read(&mut self, buf: &mut [u8]) -> io::Result<usize>
        ensures bound { ReadsAtMost result buf.new }
        ensures bytes { ReadConsumes (S.remaining (stream_of self.old)) (S.remaining (stream_of self.new)) result buf.new }
        ensures end { end_at self.new ≡ end_at self.old }
        ensures seen { seen_at self.old ≤ seen_at self.new }
        ensures over { end_at self.new ≤ seen_at self.new → IsOver self.old self.new result }
        ensures asked { IsAsked C.tells S.waits self.old self.new result }
    {
        let time = self.time_left()?;
        self.stream.read_for(time, buf)
    }
}

impl<'c, C: Ticks, S: Sink> Write for Timed<'c, C, S> {
    ghost contents = { λ timed. S.contents (stream_of timed) };

    /// One write to the stream, if there is time for it.
    fn write(&mut self, buf: &[u8]) -> io::Result<usize>
        ensures bound { WritesAtMost result buf.now }
        ensures bytes { WriteAppends (S.contents (stream_of self.old)) (S.contents (stream_of self.new)) result buf.now }
        ensures end { end_at self.new ≡ end_at self.old }
        ensures seen { seen_at self.old ≤ seen_at self.new }
        ensures over { end_at self.new ≤ seen_at self.new → IsOver self.old self.new result }
        ensures asked { IsAsked C.tells S.waits self.old self.new result }
    {
        let time = self.time_left()?;
        self.stream.write_for(time, buf)
    }

    /// Nothing is held back, so that there is nothing to do.
    fn flush(&mut self) -> io::Result<()>
        ensures bytes { Keeps (S.contents (stream_of self.old)) (S.contents (stream_of self.new)) }
        ensures same { self.new ≡ self.old }
    {
        Ok(())
    }
}
