//! What is worth a look in a policy: what is no fault of it, and what it finds of an act, rule by rule.
//!
//! ```
//! for warning in &warnings_of(alloc, &policy)? {
//!     ..
//! }
//! for rule in &find_rules(alloc, &policy, &act)? {
//!     ..
//! }
//! ```
#![tactic(auto)]

mod findings;
mod flaws;
mod found;
mod openings;
mod quorums;
mod warnings;

pub use findings::find_rules;
pub use flaws::is_of_plan;
pub use found::{QuorumNeed, RoleNeed, RuleFinding, WindowNeed};
pub use openings::opening;
pub use warnings::{Warning, warnings_of};
