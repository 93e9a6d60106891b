//! The rows (zone, member) of an active zone set: kept by member, and which zones have a port
//! (FC-GS, Fabric Zone Server).
#![tactic(auto)]

mod by_zone;
mod port_zones;
mod rows;

pub use fab_inventory as inventory;
pub use fab_inventory::{lemmas, names};
pub use port_zones::PortZones;
pub use rows::{ActiveRows, MOST_ROWS, address_member, place_member};
