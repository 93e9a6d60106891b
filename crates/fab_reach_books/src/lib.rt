//! Books of paths, and what they are told and ask: the rows in which two worlds differ, the pairs of ports
//! that a difference affects, and questions about pairs, which are counted.
#![tactic(auto)]

mod book;
mod differing;
pub mod laws;
mod limited;
mod meter;
mod renewed;
mod row;
mod sight;
mod told_rows;

pub use book::PathBook;
pub use differing::row_diff;
pub use limited::Limited;
pub use meter::Meter;
pub use renewed::RenewedGroups;
pub use row::{Row, RowDiff};
pub use sight::{Sight, ViewSight};
pub use told_rows::{StockRows, config_diff, stock_diff};
