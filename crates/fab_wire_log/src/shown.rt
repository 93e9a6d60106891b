//! What the log shows of a connection.

/// What came of a connection, in the log.
#[derive(Clone, Copy)]
pub enum Shown {
    /// The status of an answer.
    Status(u16),
    /// A word.
    Word(&'static str),
}
