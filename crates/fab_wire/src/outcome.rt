//! What comes of a connection.

ghost use Rattle.std.specs.Prelude.{Some};
ghost use Rattle.fab_wire.specs.Telling.{outcome_text};

use std::fmt;
use std::fmt::Display;

/// What came of serving a connection. Its text is what a log shows: the status, or `unsent`,
/// `read-failed` or `empty`.
#[derive(Clone, Copy, Drop)]
pub enum Outcome {
    /// The whole answer was written, with this status (RFC 9110, section 15).
    Answered(u16),
    /// A write failed: a beginning of the answer was written, and the command has acted as its reply
    /// says.
    Unsent,
    /// A read failed: nothing has acted, and nothing was written.
    ReadFailed,
    /// The input had no byte, and nothing was written.
    Empty,
}

impl Display for Outcome {
    ghost output = { λ outcome. Some (outcome_text outcome) };

    fn fmt<W: fmt::Write>(&self, f: &mut fmt::Formatter<W>) -> fmt::Result {
        match self {
            Outcome::Answered(status) => write!(f, "{status}"),
            Outcome::Unsent => write!(f, "unsent"),
            Outcome::ReadFailed => write!(f, "read-failed"),
            Outcome::Empty => write!(f, "empty"),
        }
    }
}
