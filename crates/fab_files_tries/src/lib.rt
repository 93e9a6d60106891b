//! What an import or the activation of a plan would do, as texts for people and as JSON.
//!
//! Each text is put piece by piece into a sink. Each line ends with a line feed.
#![tactic(auto)]

mod imports;
mod members;
mod names;
mod plans;
mod rows;

pub use fab_looks_tries as looks_tries;
pub use imports::{ImportJson, ImportText, is_over};
pub use plans::{PlanJson, PlanText};
