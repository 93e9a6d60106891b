//! A configuration that is led back through changes, with who uses what in it: whether it is sound
//! again is told by the rows that went and came.
#![tactic(auto)]

mod clashes;
mod comers;
mod counts;
mod draft;
mod goers;
pub mod laws;
mod nearby;
mod soundness;
mod users;
mod uses;

pub use draft::Draft;
pub use fab_store_edits as edits;
