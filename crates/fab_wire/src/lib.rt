//! The wire of the change desk: one connection over a desk, from the bytes of a request to the bytes
//! of its answer.
#![tactic(auto)]

mod callers;
pub mod laws;
mod outcome;
mod serving;
mod tasks;

pub use callers::lacks_for;
pub use fab_desk::Desk;
pub use fab_wire_streams::counted::Counted;
pub use outcome::Outcome;
pub use serving::serve_one;
pub use tasks::{Task, answer_task};
