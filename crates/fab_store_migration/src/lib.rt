//! The tables of schema 1, brought to schema 2 in one transaction: the table of addresses is made, and
//! the setting that tells the schema is changed.
#![tactic(auto)]

mod judging;
mod migrating;
mod raising;
mod settings;

pub use judging::MigrationFault;
pub use migrating::{has_old_schema, migrate};
