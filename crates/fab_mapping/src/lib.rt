//! The mapping of volumes: host groups and storage groups by name, and where a host would meet two
//! volumes.
//!
//! The groups themselves stand in `fab_mapping_base` and are handed on here.
#![tactic(auto)]

mod gone;
mod mapping;
mod search;
mod sound;

pub use fab_mapping_base as base;
pub use fab_mapping_base::{
    Gone, HostGroup, LAST_UNIT, MOST_GROUPS_SERVED, MOST_HOST_GROUPS, MOST_HOSTS,
    MOST_STORAGE_GROUPS, MOST_TARGETS, MOST_UNITS, MappingFault, MappingLimit, Nexus, StorageGroup,
};
pub use mapping::Mapping;
