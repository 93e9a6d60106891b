//! Streams whose reads and writes end in time: before each one the clock is read, and the stream is
//! asked to wait no longer than what is left (`deadline`).
//!
//! What a stream and a clock have to be for that are traits (`stream`, `clock`), which those of the
//! standard library meet.
#![tactic(auto)]

pub mod bounds;
pub mod clock;
pub mod deadline;
pub mod stream;
