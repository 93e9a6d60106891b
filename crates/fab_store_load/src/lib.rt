//! From rows to values: an inventory and a configuration that have exactly the given rows.
#![tactic(auto)]

mod config;
mod fault;
mod groups;
mod inventory;
mod kind;
mod kinds;
mod mappings;
mod maps;
mod nested;
mod sets;
mod settings;
mod values;
mod zonings;

pub use config::config_of;
pub use fab_store_rows as rows;
pub use fault::{LoadFault, OpenFault, Table};
pub use inventory::inventory_of;
pub use kind::{Kind, Value};
pub use kinds::Head;
pub use nested::maps_of;
pub use sets::sets_of;
