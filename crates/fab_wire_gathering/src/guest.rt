//! One connection that is never waited for: what it has sent, and what it has taken of its answer.

ghost use Rattle.std.specs.Prelude.{◌≡◌, ◌≢◌, ◌++◌, ◌-◌, ◌⊎◌, ◌≤◌, ◌<◌, ℕ, List, [], true, false, length, max};
ghost use Rattle.std.specs.Duration.{as_nanos};
ghost use Rattle.std.specs.Time.{instant_nanos};
ghost use Rattle.fab_wire_deadlines.specs.Deadlines.{end_of, end_time, end_after, seen_by};
ghost use Rattle.fab_wire_gathering.specs.Guests.{most_lingering, most_first, ComesTo, WaitsSo, TakesRest, answered, given_up};
ghost use Rattle.fab_wire_gathering.specs.Seats.{told, kept_at};
ghost use Rattle.fab_wire_gathering.specs.declared.guest.Ending.TheVariants as ending;
ghost use Rattle.fab_wire_gathering.specs.declared.guest.Stage.TheVariants as stage;

use crate::framing::Framing;
use crate::pieces::{Went, first_of, room_in, write_rest};
use fab_wire_deadlines::deadline::Deadline;
use std::alloc::Global;
use std::io::Read;
use std::net::{Shutdown, TcpStream};
use std::time::{Duration, Instant};

/// How many bytes are read at most before it is known how many there have to be: those of a head. So many
/// of those that nobody reads are taken at once.
pub const MOST_FIRST: usize = 8192;

/// How many pieces are read or written before others have their turn.
const MOST_PIECES: usize = 32;

/// How many pieces are taken behind a request.
pub const MOST_TAKINGS: usize = 4096;

/// How long bytes that nobody reads are taken behind an answer, in seconds.
pub const LINGERING_SECONDS: u64 = 1;

/// How the bytes of a request ended.
#[derive(Clone, Copy, PartialEq, Eq)]
pub enum Ending {
    /// What is asked is known, whatever comes behind.
    Whole,
    /// The client sends no more.
    Ended,
    /// A read failed, or the time is up.
    Failed,
    /// There was no memory for more: the others are still to be read.
    Starved,
}

/// What a connection is about.
#[derive(Clone, Copy, PartialEq, Eq)]
pub enum Stage {
    /// It sends its request.
    Sends,
    /// Its request waits for its turn.
    Waits,
    /// It takes its answer.
    Takes,
    /// It has taken its answer.
    Taken,
    /// It did not take all of its answer.
    Unsent,
    /// It has taken its answer, and that was told. Nothing more is to be sent.
    Told,
    /// What it still sends is taken, so many pieces more.
    Leaves(usize),
    /// It is gone.
    Gone,
}

/// A connection.
#[derive(Drop)]
pub struct Guest {
    stream: TcpStream,
    stage: Stage,
    ending: Ending,
    deadline: Deadline,
    heard: Instant,
    bytes: Vec<u8>,
    wanted: usize,
    sent: usize,
    number: u64,
}

impl Guest {
    /// A connection of which nothing has been read yet, at a reading of the clock. It is given up where
    /// its request is not there by the deadline.
    pub fn new(alloc: Global, stream: TcpStream, now: Instant, deadline: Deadline) -> Self
        ensures stream { result.stream ≡ stream }
        ensures sends { result.stage ≡ stage.Sends }
        ensures none { result.bytes.items ≡ [] }
        ensures deadline { result.deadline ≡ deadline }
        ensures heard { result.heard ≡ now }
    {
        Guest {
            stream,
            stage: Stage::Sends,
            ending: Ending::Whole,
            deadline,
            heard: now,
            bytes: Vec::new(alloc),
            wanted: 1,
            sent: 0,
            number: u64::MAX,
        }
    }

    /// The same, whose request is not gathered: all of it is still to be read, in its turn.
    pub fn carried(alloc: Global, stream: TcpStream, now: Instant, deadline: Deadline) -> Self
        ensures stream { result.stream ≡ stream }
        ensures waits { WaitsSo ending.Starved result }
        ensures deadline { result.deadline ≡ deadline }
    {
        let mut guest = Guest::new(alloc, stream, now, deadline);
        guest.wait(Ending::Starved);
        guest
    }

    /// Its socket.
    pub fn stream(&self) -> &TcpStream
        ensures { result.now ≡ self.now.stream }
    {
        &self.stream
    }

    /// What it is about.
    pub fn stage(&self) -> Stage
        ensures { result ≡ self.now.stage }
    {
        self.stage
    }

    /// How the bytes of its request ended.
    pub fn ending(&self) -> Ending
        ensures { result ≡ self.now.ending }
    {
        self.ending
    }

    /// What it has sent of its request; once it is answered, its answer.
    pub fn bytes(&self) -> &[u8]
        ensures { result.now ≡ self.now.bytes.items }
    {
        self.bytes.as_slice()
    }

    /// Its place among those that began to wait, and once it is answered the number of its turn.
    pub fn number(&self) -> u64
        ensures { result ≡ self.now.number }
    {
        self.number
    }

    /// It is the one of this number.
    pub fn be_number(&mut self, number: u64)
        ensures { self.new ≡ record self.old { number = number } }
    {
        self.number = number;
    }

    /// When it is given up, on the monotonic clock.
    pub fn end(&self) -> Instant
        ensures { result ≡ end_time self.now.deadline }
    {
        self.deadline.end()
    }

    /// When something was last heard of it.
    pub fn heard(&self) -> Instant
        ensures { result ≡ self.now.heard }
    {
        self.heard
    }

    /// Whether its time is up at a reading of the clock, or was at an earlier one.
    pub fn is_late(&mut self, now: Instant) -> bool
        ensures late { result ≡ true → end_of self.new.deadline ≤ seen_by self.new.deadline }
        ensures early { result ≡ false → seen_by self.new.deadline < end_of self.new.deadline }
        ensures end { end_of self.new.deadline ≡ end_of self.old.deadline }
        ensures seen { seen_by self.new.deadline ≡ max (seen_by self.old.deadline) (instant_nanos now) }
        ensures rest { self.new ≡ record self.old { deadline = self.new.deadline } }
    {
        self.deadline.left(now).is_none()
    }

    /// Gives it so much more time.
    pub fn put_off(&mut self, by: Duration)
        ensures end { end_of self.new.deadline ≡ end_after (end_of self.old.deadline) (as_nanos by) }
        ensures rest { self.new ≡ record self.old { deadline = self.new.deadline } }
    {
        self.deadline.put_off(by);
    }

    /// Its request waits for its turn from now on.
    fn wait(&mut self, ending: Ending)
        ensures waits { WaitsSo ending self.new }
        ensures bytes { self.new.bytes ≡ self.old.bytes }
        ensures rest { self.new ≡ record self.old { stage = stage.Waits; ending = ending } }
    {
        self.ending = ending;
        self.stage = Stage::Waits;
    }

    /// Goes on as far as it can without waiting, by a piece of room for what is read. It says whether
    /// something may be left that did not have to wait.
    pub fn go_on<F: Framing>(&mut self, framing: &F, piece: &mut [u8], now: Instant) -> bool
        ensures whole { self.old.stage ≡ stage.Sends → WaitsSo ending.Whole self.new → F.is_whole framing.now self.new.bytes.items }
        ensures comes { ComesTo self.old.stage self.old self.new }
        ensures leaves { (left : ℕ) → self.old.stage ≡ stage.Leaves left → TakesRest (stage.Leaves left) self.new.stage }
        ensures number { self.new.number ≡ self.old.number }
        ensures stream { self.new.stream ≡ self.old.stream }
    {
        match self.stage {
            Stage::Sends => self.receive(framing, piece, now),
            Stage::Takes => self.send(),
            Stage::Leaves(_) => self.take_rest(piece),
            _ => false,
        }
    }

    /// How many bytes may be read: as many as a head has at most, or as are wanted.
    fn lacking(&self) -> usize
        ensures { result ≡ max 1 (max self.now.wanted most_first - length self.now.bytes.items) }
    {
        self.wanted
            .max(MOST_FIRST)
            .saturating_sub(self.bytes.len())
            .max(1)
    }

    /// Reads what has come of the request. Room for it is had before, so that nothing that was read is
    /// lost where there is none.
    fn receive<F: Framing>(&mut self, framing: &F, piece: &mut [u8], now: Instant) -> bool
        ensures bytes { (more : List ℕ) × (self.new.bytes.items ≡ self.old.bytes.items ++ more) }
        ensures stage { self.old.stage ≡ stage.Sends → (self.new.stage ≡ stage.Sends) ⊎ (self.new.stage ≡ stage.Waits) }
        ensures whole { self.old.stage ≡ stage.Sends → WaitsSo ending.Whole self.new → F.is_whole framing.now self.new.bytes.items }
        ensures rest { self.new ≡ record self.old { bytes = self.new.bytes; stage = self.new.stage; ending = self.new.ending; heard = self.new.heard; wanted = self.new.wanted } }
        ensures stream { self.new.stream ≡ self.old.stream }
    {
        for _ in 0..MOST_PIECES {
            let lacking = self.lacking();
            if self.bytes.reserve_exact(lacking).is_err() {
                self.starve(piece);
                return false;
            }
            let room = room_in(piece, lacking);
            match Went::of((&self.stream).read(room)) {
                Went::Some(size) => self.keep(framing, first_of(room, size), now),
                Went::Ended => self.wait(Ending::Ended),
                Went::Failed => self.wait(Ending::Failed),
                Went::Waits => return false,
            }
            if !matches!(self.stage, Stage::Sends) {
                return false;
            }
        }
        true
    }

    /// There is no memory for what it sends. Where it has sent something, that is read in its turn.
    fn starve(&mut self, piece: &mut [u8])
        ensures bytes { self.new.bytes ≡ self.old.bytes }
        ensures waits { (self.new ≡ self.old) ⊎ WaitsSo ending.Starved self.new }
        ensures rest { self.new ≡ record self.old { stage = self.new.stage; ending = self.new.ending } }
        ensures stream { self.new.stream ≡ self.old.stream }
    {
        match Went::of(self.stream.peek(room_in(piece, 1))) {
            Went::Waits => {}
            _ => self.wait(Ending::Starved),
        }
    }

    /// Keeps what has come, and looks whether it is a whole request.
    fn keep<F: Framing>(&mut self, framing: &F, piece: &[u8], now: Instant)
        ensures bytes { (self.new.bytes.items ≡ self.old.bytes.items ++ piece.now)
            ⊎ ((self.new.bytes.items ≡ self.old.bytes.items) × WaitsSo ending.Failed self.new) }
        ensures stage { (self.new.stage ≡ self.old.stage) ⊎ (self.new.stage ≡ stage.Waits) }
        ensures whole { self.old.stage ≡ stage.Sends → WaitsSo ending.Whole self.new → F.is_whole framing.now self.new.bytes.items }
        ensures rest { self.new ≡ record self.old { bytes = self.new.bytes; stage = self.new.stage; ending = self.new.ending; heard = self.new.heard; wanted = self.new.wanted } }
        ensures stream { self.new.stream ≡ self.old.stream }
    {
        self.heard = now;
        if self.bytes.extend_from_slice(piece).is_err() {
            self.wait(Ending::Failed);
            return;
        }
        if self.bytes.len() < self.wanted {
            return;
        }
        match framing.lacks(self.bytes.as_slice()) {
            Some(wanted) => self.wanted = wanted,
            None => self.wait(Ending::Whole),
        }
    }

    /// Sends what is left of the answer. It says whether something may be left that the socket takes.
    pub fn send(&mut self) -> bool
        ensures rest { self.new ≡ record self.old { stage = self.new.stage; sent = self.new.sent } }
        ensures stage { self.old.stage ≡ stage.Takes → (self.new.stage ≡ stage.Takes) ⊎ ((self.new.stage ≡ stage.Taken) ⊎ (self.new.stage ≡ stage.Unsent)) }
        ensures taken { self.old.stage ≡ stage.Takes → self.new.stage ≡ stage.Taken → length self.new.bytes.items ≤ self.new.sent }
    {
        for _ in 0..MOST_PIECES {
            if self.sent >= self.bytes.len() {
                self.stage = Stage::Taken;
                return false;
            }
            let bytes = self.bytes.as_slice();
            match write_rest(&mut &self.stream, bytes, &mut self.sent) {
                Went::Some(_) => {}
                Went::Waits => return false,
                _ => {
                    self.stage = Stage::Unsent;
                    return false;
                }
            }
        }
        true
    }

    /// Takes what comes behind the request of one that has its answer. It says whether something came.
    pub fn take_rest(&mut self, piece: &mut [u8]) -> bool
        ensures rest { self.new ≡ record self.old { stage = self.new.stage } }
        ensures stage { TakesRest self.old.stage self.new.stage }
    {
        let Stage::Leaves(left) = self.stage else {
            return false;
        };
        match Went::of((&self.stream).read(room_in(piece, MOST_FIRST))) {
            Went::Some(_) => {
                self.stage = if left > 0 {
                    Stage::Leaves(left - 1)
                } else {
                    Stage::Gone
                };
                true
            }
            Went::Waits => false,
            _ => {
                self.stage = Stage::Gone;
                false
            }
        }
    }

    /// Gives it up: its request has failed to come, or its answer is not sent, or it is gone.
    pub fn give_up(&mut self)
        ensures { self.new ≡ given_up self.old }
    {
        match self.stage {
            Stage::Sends => self.wait(Ending::Failed),
            Stage::Takes => self.stage = Stage::Unsent,
            Stage::Leaves(_) => self.stage = Stage::Gone,
            _ => {}
        }
    }

    /// How many bytes are kept of an answer that it has not taken whole.
    pub fn kept(&self) -> usize
        ensures { result ≡ kept_at self.now.stage (length self.now.bytes.items) }
    {
        match self.stage {
            Stage::Takes => self.bytes.len(),
            _ => 0,
        }
    }

    /// It has this answer now, in the turn of this number, and until the deadline to take it.
    pub fn answer(&mut self, answer: Vec<u8>, number: u64, deadline: Deadline)
        ensures { self.new ≡ answered answer number deadline self.old }
    {
        self.bytes = answer;
        self.sent = 0;
        self.number = number;
        self.deadline = deadline;
        self.stage = Stage::Takes;
    }

    /// What came of its answer was told. One whose request failed to come, or that did not take its
    /// answer, is gone then.
    pub fn be_told(&mut self)
        ensures { self.new ≡ told self.old }
    {
        self.stage = match self.stage {
            Stage::Taken => match self.ending {
                Ending::Failed => Stage::Gone,
                _ => Stage::Told,
            },
            _ => Stage::Gone,
        };
    }

    /// Nothing more is sent, and what it still sends is taken for a second (RFC 9112, section 9.6).
    pub fn leave(&mut self, now: Instant)
        ensures end { end_of self.new.deadline ≡ end_after (instant_nanos now) most_lingering }
        ensures leaves { (self.new.stage ≡ stage.Leaves MOST_TAKINGS) ⊎ (self.new.stage ≡ stage.Gone) }
        ensures rest { self.new ≡ record self.old { deadline = self.new.deadline; stage = self.new.stage } }
    {
        self.deadline = Deadline::after(now, Duration::from_secs(LINGERING_SECONDS));
        self.stage = if self.stream.shutdown(Shutdown::Write).is_ok() {
            Stage::Leaves(MOST_TAKINGS)
        } else {
            Stage::Gone
        };
    }
}
