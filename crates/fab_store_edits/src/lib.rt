//! A configuration that is edited in place by rows: those that go are taken out, and those that come
//! are put in.
#![tactic(auto)]

mod drops;
mod edits;
mod heads;
mod leading;
mod mapping_rows;
mod settings;
mod zoning_rows;

pub use leading::lead;
