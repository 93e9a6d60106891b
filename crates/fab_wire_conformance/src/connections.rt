//! The connections on which exchanges are played: how many bytes each read and each write moves, which
//! of them fails, and how the connection has to end then.

use fab_test_wire::streams::{Breaking, Slow};
use fab_wire::Outcome;
use fab_wire::laws::{Connection, Served};
use fab_wire_streams::counted::Counted;
use fab_worlds_players::Exchange;
use std::alloc::Global;
use std::str;

/// A connection that waits.
pub type Waiting<'t> = Connection<Slow<'t>, Breaking>;

/// A connection that was served.
pub type Ended<'t> = Served<Slow<'t>, Breaking>;

/// How a connection has ended: what came of it, how many reads and how many writes failed, and the
/// writer with what it took.
#[derive(Drop)]
pub struct Ending {
    /// What came of it.
    pub outcome: Outcome,
    failures: (u64, u64),
    writer: Breaking,
}

impl Ending {
    /// How this one has ended.
    pub fn of(served: Ended<'_>) -> Self {
        let Served {
            outcome,
            reader,
            writer,
        } = served;
        let failures = (reader.failures(), writer.failures());
        Ending {
            outcome,
            failures,
            writer: writer.into_inner(),
        }
    }

    /// Whether a read failed.
    pub fn has_failed_read(&self) -> bool {
        self.failures.0 > 0
    }

    /// What was written.
    pub fn written(&self) -> &[u8] {
        self.writer.taken()
    }
}

/// The status that stands in the first line of an answer.
fn status_in(answer: &[u8]) -> Option<u16> {
    let digits = str::from_utf8(answer.get(9..12)?).ok()?;
    digits.parse().ok()
}

/// How a connection has to end.
#[derive(Clone, Copy)]
pub enum End {
    /// No read and no write fails: the whole answer is written.
    Sent,
    /// The read of this number fails, counted from 0: nothing is written.
    Unread(u64),
    /// The write of this number fails, behind as many bytes of the answer, since a write takes one.
    Unsent(usize),
    /// A write takes none of some bytes, which is a failure: nothing is written.
    Untaken,
}

impl End {
    /// How many bytes a write takes at most.
    fn writes(self) -> usize {
        match self {
            End::Sent | End::Unread(_) => usize::MAX,
            End::Unsent(_) => 1,
            End::Untaken => 0,
        }
    }

    /// Which read fails, if one does.
    fn failing_read(self) -> u64 {
        match self {
            End::Unread(number) => number,
            _ => u64::MAX,
        }
    }

    /// Which write fails, if one does.
    fn failing_write(self) -> u64 {
        match self {
            End::Unsent(number) => number as u64,
            _ => u64::MAX,
        }
    }

    /// The bytes of an answer that are written.
    pub fn written(self, answer: &[u8]) -> &[u8] {
        match self {
            End::Sent => answer,
            End::Unread(_) | End::Untaken => &[],
            End::Unsent(count) => answer.get(..count).unwrap_or(answer),
        }
    }

    /// How many reads fail, and how many writes.
    fn failures(self) -> (u64, u64) {
        match self {
            End::Sent => (0, 0),
            End::Unread(_) => (1, 0),
            End::Unsent(_) | End::Untaken => (0, 1),
        }
    }

    /// Whether this comes of the connection, where it has such an answer: none where that has no byte,
    /// and else the status that stands in its first line.
    fn is_outcome(self, outcome: Outcome, answer: &[u8]) -> bool {
        match (self, outcome) {
            (End::Sent, Outcome::Answered(status)) => status_in(answer) == Some(status),
            (End::Sent, Outcome::Empty) => answer.is_empty(),
            (End::Unread(_), Outcome::ReadFailed) => true,
            (End::Unsent(_) | End::Untaken, Outcome::Unsent) => true,
            _ => false,
        }
    }

    /// Whether a connection with such an answer has ended so.
    pub fn is_met(self, ending: &Ending, answer: &[u8]) -> bool {
        ending.written() == self.written(answer)
            && ending.failures == self.failures()
            && self.is_outcome(ending.outcome, answer)
    }
}

/// The connection of an exchange, a read of which gets so many bytes at most, and which is to end so.
pub fn connection_of(alloc: Global, exchange: &Exchange, reads: usize, end: End) -> Waiting<'_> {
    let reader = Slow::new(exchange.request.as_slice(), reads, end.failing_read());
    let writer = Breaking::new(alloc, end.writes(), end.failing_write());
    Connection {
        moment: exchange.moment,
        reader: Counted::new(reader),
        writer: Counted::new(writer),
    }
}
