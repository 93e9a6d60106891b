//! What recorded texts tell: the scenarios of recorded exchanges; and players of worlds of which it is known what
//! callers have to be told, and of histories of which it is known whether a desk opens with them. No text is made by
//! what is played. Nothing here is part of the product.
//!
//! What differs is told on standard output with its file and the number of its line; a line that is not of the
//! form that `texts`, `looks` and `histories` tell, or that can not be done, ends a player.
#![tactic(auto)]

mod faults;
pub mod histories;
pub mod looks;
mod scenarios;
mod tally;
mod texts;

pub use faults::Fault;
pub use scenarios::{Act, Exchange, Scenario, Step, scenarios_of};
pub use tally::Tally;
pub use texts::lines_of;
