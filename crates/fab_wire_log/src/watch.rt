//! By which clock connections are watched, how long each may last, and where its line goes.

ghost use Rattle.std.specs.Prelude.{◌≡◌, ℕ};
ghost use Rattle.std.specs.Duration.{as_nanos};
ghost use Rattle.std.specs.Time.{instant_nanos};
ghost use Rattle.fab_wire_streams.specs.Counting.{inner_of, failures_of};
ghost use Rattle.fab_wire_log.specs.Shown.{shown_text};
ghost use Rattle.fab_wire_log.specs.Lasting.{most_lasting};
ghost use Rattle.fab_wire_log.specs.Lines.{line_text, Notes, Lasted};

use crate::line::put_line;
use crate::shown::Shown;
use fab_wire_deadlines::clock::Ticks;
use fab_wire_streams::counted::Counted;
use mio::Poll;
use std::alloc::Global;
use std::io::Write;
use std::time::{Duration, Instant};

/// How many seconds a connection is given for its request, however slowly it sends bytes, and then for
/// its answer, however slowly it takes them. Timers of a system may come two seconds late, and none is to
/// be there for more than 30 with either.
const MOST_SECONDS: u64 = 27;

/// The clock that connections are watched by, how long each may last, and the log.
#[derive(Drop)]
pub struct Watch<'c, C: Ticks, W: Write> {
    /// From which the buffer of an answer comes.
    pub alloc: Global,
    /// Its time counts.
    pub clock: &'c C,
    /// How long a connection may take for its request, and then for its answer.
    pub most: Duration,
    /// Where each connection has its line, and how many writes of it have failed.
    pub log: Counted<W>,
    /// What tells which connections have sent something, or take more, if the system has it; `serve_on`
    /// takes it.
    pub poll: Option<Poll>,
}

impl<'c, C: Ticks, W: Write> Watch<'c, C, W> {
    /// Requests and answers take 27 seconds at most by this clock, and connections have their lines in
    /// this log.
    pub fn new(alloc: Global, clock: &'c C, log: W, poll: Option<Poll>) -> Self
        ensures clock { result.clock.now ≡ clock.entry.now }
        ensures most { as_nanos result.most ≡ most_lasting }
        ensures log { inner_of result.log ≡ log }
        ensures failures { failures_of result.log ≡ 0 }
        ensures poll { result.poll ≡ poll }
    {
        Watch {
            alloc,
            clock,
            most: Duration::from_secs(MOST_SECONDS),
            log: Counted::new(log),
            poll,
        }
    }

    /// How many milliseconds have gone by since a reading of the clock; 0 where it cannot be read.
    pub fn milliseconds_since(&self, start: Instant) -> u64
        ensures { Lasted (C.tells self.now.clock.now) (C.fails self.now.clock.now) (instant_nanos start) result }
    {
        match self.clock.reading() {
            Ok(now) => {
                let time = now.duration_since(start);
                u64::try_from(time.as_millis()).unwrap_or(u64::MAX)
            }
            Err(_) => 0,
        }
    }

    /// Writes the line of a connection to the log: when it came, in Unix seconds, what came of it, and
    /// how many milliseconds have gone by since it began. What the log does not take of it is left
    /// out, and serving goes on.
    pub fn note(&mut self, moment: u64, shown: Shown, start: Instant)
        ensures clock { self.new.clock.now ≡ self.old.clock.now }
        ensures most { self.new.most ≡ self.old.most }
        ensures line { (milliseconds : ℕ)
            × Lasted (C.tells self.old.clock.now) (C.fails self.old.clock.now) (instant_nanos start) milliseconds
            × Notes W.contents self.old.log self.new.log (line_text moment (shown_text shown) milliseconds) }
    {
        let milliseconds = self.milliseconds_since(start);
        self.write_line(moment, shown, milliseconds);
    }

    /// Writes a line to the log: a moment in Unix seconds, what came of a connection, and milliseconds.
    /// What the log does not take of it is left out.
    pub fn write_line(&mut self, moment: u64, shown: Shown, milliseconds: u64)
        ensures clock { self.new.clock.now ≡ self.old.clock.now }
        ensures most { self.new.most ≡ self.old.most }
        ensures line { Notes W.contents self.old.log self.new.log (line_text moment (shown_text shown) milliseconds) }
    {
        put_line(&mut self.log, moment, shown, milliseconds);
    }
}
