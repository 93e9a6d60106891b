//! What is kept of a world so that a step need not walk through it: the zones of each port and the ports
//! of each zone, the exposed storage groups of each host and of each target, the ports of each holder,
//! the storage groups of each host group, and the paths of each pair.
#![tactic(auto)]

mod index;
mod indexing;
mod lookups;
mod patch;
mod regather;
mod zone_ports;
mod zoning_index;

pub use index::Index;
pub use indexing::{add_all_at, add_at, add_under};
pub use lookups::{add_all, add_held};
pub use regather::{add_some_left, regathered};
pub use zone_ports::turned;
pub use zoning_index::add_zones;
