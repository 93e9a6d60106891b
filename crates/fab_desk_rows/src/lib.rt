//! The rows in which the world after a change differs, told by the world before and the parts of the
//! change: the world after it is not made for that.
#![tactic(auto)]

mod approvals;
mod changes;
mod counts;
mod moved;
mod parts;
mod paths;
mod plan_rows;
mod plans;
mod undo;

pub use changes::next_changes;
