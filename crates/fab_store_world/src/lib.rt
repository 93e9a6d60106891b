//! The world of the desk and the rows of its tables: which rows a world has, in which two worlds
//! differ, and the world that rows are.
#![tactic(auto)]

mod counts;
mod faulty;
mod holders;
mod inventories;
mod kinds;
pub mod laws;
mod made;
pub mod opening_laws;
mod order;
mod paths;
mod plans;
mod row_tables;
mod tables;
mod volumes;
mod whole;
mod world;

pub use holders::holder_difference;
pub use inventories::{InventoryDifference, InventoryLists, inventory_difference};
pub use order::order_of;
pub use paths::{PathRowDifference, add_path_rows, are_path_rows};
pub use tables::Changes;
pub use volumes::volume_difference;
pub use whole::{Plans, plans_of};
pub use world::world_of;
