//! The desk as a machine over its world: what is answered to a request, and the change that is ready
//! to be taken over. It knows no store and no wire.
//!
//! `propose` is lent the world and changes nothing. What it hands out is the answer, or a change that
//! is ready. Once there is room for it in the world, a store may stand between the two: `take_over`
//! needs no memory and can not fail. `foresee` tells what a request would change, and hands out no change.
#![tactic(auto)]

mod answers;
mod bodies;
mod change;
mod finish;
mod foreseeing;
mod proposing;
mod report;
mod showing;
mod verdicts;

pub use answers::{Asked, answer};
pub use change::{Change, adopt, carry_through, lists_of, take_over};
pub use fab_desk_base as base;
pub use fab_desk_trials as trials;
pub use fab_desk_trials::commands;
pub use foreseeing::foresee;
pub use proposing::{Proposal, propose, sender_of};
pub use report::Report;
pub use verdicts::Sender;
