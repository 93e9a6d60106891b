//! The rows of an inventory and of a configuration as typed values, and which stand; the list of all
//! of a configuration's, and the differences of two configurations, as a whole or at keys; the types of
//! the rows of plans, approvals, changes to undo, and paths, and of the rows of all tables.
#![tactic(auto)]

mod at_keys;
mod config_row;
mod gathering;
mod inventory_row;
mod known;
pub mod laws;
mod listing;
mod makers;
mod record_row;
mod row_key;
mod standing;
mod table_rows;

pub use at_keys::difference_at;
pub use config_row::{
    ActiveRow, ConfigRow, GroupRow, HostGroupRow, PartRow, SettingRow, StorageGroupRow,
    StoragePart, ZoningItem, ZoningRow,
};
pub use inventory_row::{AddressRow, HolderRow, InventoryRow, PortEntry, VolumeRow};
pub use known::{has_address, has_entry, has_port};
pub use listing::{RowDifference, config_rows, difference};
pub use record_row::{ApprovalRow, PathRow, PlanRow, PlanState, Sign, UndoRow};
pub use row_key::RowKey;
pub use standing::has_row;
pub use table_rows::{CountRow, SCHEMA, TableRows};
