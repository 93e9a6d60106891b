//! The tables of a desk in a SQLite database.
#![tactic(auto)]

mod changes;
pub mod laws;
mod lots;
mod naming;
mod opening;
mod paths;
mod reading;
mod store;

pub use fab_store_base::{RefusingStore, Store, StoreFault, Table};
pub use fab_store_load::OpenFault;
pub use store::SqlStore;
