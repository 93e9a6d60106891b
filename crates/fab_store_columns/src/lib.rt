//! The lines of tables, but for that of changes to undo, as a database has them: texts, whole
//! numbers and null. Each line is read to the row that it shows, where it shows one, and written of
//! a row.
#![tactic(auto)]

mod group_lines;
mod inventory_lines;
pub mod laws;
mod meta_lines;
mod part_lines;
mod plan_lines;
mod record_lines;
mod zoning_lines;

pub use fab_store_columns_base::MOST_NUMBER;
pub use fab_store_rows::{ApprovalRow, PathRow};
pub use group_lines::{GroupLine, read_group};
pub use inventory_lines::{AddressLine, HolderLine, PortLine, VolumeLine};
pub use meta_lines::{MetaLine, MetaRow, read_setting};
pub use part_lines::{PartLine, read_part};
pub use plan_lines::PlanLine;
pub use record_lines::{ApprovalLine, PathLine};
pub use zoning_lines::{ActiveLine, ZoningLine, read_active, read_zoning};
