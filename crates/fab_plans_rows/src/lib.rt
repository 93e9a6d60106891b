//! What the steps of a plan make of a configuration: the one after them and the rows that they change,
//! done on a spare configuration where there is one; and the first that a configuration names and an
//! inventory has not, looked for only at the rows that came.
#![tactic(auto)]

mod at_rows;
mod beside;
mod changed;
mod clash;
mod keys;
mod lost;
mod outcome;
mod spare;

pub use at_rows::gone_there;
pub use outcome::outcome_of;
pub use spare::{spare_after, spare_ahead, take_spare};
