//! Host groups and storage groups, each by itself: their parts, what refuses one part more, whether
//! they are sound and fit an inventory, and where a host would meet two volumes through them.
//!
//! The mapping of names to groups is `fab_mapping`'s, which hands on what stands here.
#![tactic(auto)]

mod clash;
mod fault;
mod gone;
mod host_group;
mod known_pairs;
pub mod laws;
mod limits;
mod look_ups;
mod nexus;
mod same;
mod served;
mod sound;
mod storage_group;

pub use clash::{are_at_odds, least_clash};
pub use fab_inventory as inventory;
pub use fab_inventory::{lemmas, names};
pub use fault::{MappingFault, MappingLimit};
pub use gone::{Gone, gone_array, gone_host, gone_target, gone_volume};
pub use host_group::HostGroup;
pub use limits::{
    LAST_UNIT, MOST_GROUPS_SERVED, MOST_HOST_GROUPS, MOST_HOSTS, MOST_STORAGE_GROUPS, MOST_TARGETS,
    MOST_UNITS, is_unit,
};
pub use look_ups::{first_no_host, is_array, is_held_by, is_host, is_port_of, is_volume_on};
pub use nexus::Nexus;
pub use sound::{group_fits, host_group_fits, is_sound_group};
pub use storage_group::StorageGroup;
