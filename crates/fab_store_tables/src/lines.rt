//! The lines of all tables.

use crate::UndoLine;
use fab_store_columns::{
    ActiveLine, AddressLine, ApprovalLine, GroupLine, HolderLine, MetaLine, PartLine, PathLine,
    PlanLine, PortLine, VolumeLine, ZoningLine,
};
use std::alloc::Global;

/// The lines of the thirteen tables, each in any order.
#[derive(Drop)]
pub struct TableLines {
    /// Of `meta`: the schema, the revision, and the settings of both fabrics.
    pub meta: Vec<MetaLine<Global>>,
    /// Of `ports`: ports without their addresses.
    pub ports: Vec<PortLine<Global>>,
    /// Of `addresses`: the addresses of ports.
    pub addresses: Vec<AddressLine<Global>>,
    /// Of `holders`: hosts and arrays.
    pub holders: Vec<HolderLine<Global>>,
    /// Of `volumes`: volumes.
    pub volumes: Vec<VolumeLine<Global>>,
    /// Of `zoning`: items of aliases, zones and zone sets.
    pub zoning: Vec<ZoningLine<Global>>,
    /// Of `active`: members of the zones of active zone sets.
    pub active: Vec<ActiveLine<Global>>,
    /// Of `groups`: host groups and storage groups.
    pub groups: Vec<GroupLine<Global>>,
    /// Of `group_parts`: parts of host groups and of storage groups.
    pub parts: Vec<PartLine<Global>>,
    /// Of `plans`: plans.
    pub plans: Vec<PlanLine<Global>>,
    /// Of `approvals`: approvals of plans.
    pub approvals: Vec<ApprovalLine<Global>>,
    /// Of `undo`: what active plans took away and added.
    pub undo: Vec<UndoLine<Global>>,
    /// Of `paths`: paths of hosts.
    pub paths: Vec<PathLine<Global>>,
}
