//! The text of a policy (TOML): callers, windows and rules that are read from it, as
//! `Policy::read` of the trait `ReadPolicy`.
//!
//! It stands apart from the policy as a value, since who knows a type takes in what its own crate implements
//! for it: of values of `toml` all of that library, and of those below it.
#![tactic(auto)]

mod distinct;
mod forms;
pub mod laws;
mod read;
mod reading;
mod tables;
mod unknown;

pub use reading::ReadPolicy;
