//! A line of some table.

use crate::UndoLine;
use fab_store_columns::{
    ActiveLine, AddressLine, ApprovalLine, GroupLine, HolderLine, MetaLine, PartLine, PathLine,
    PlanLine, PortLine, VolumeLine, ZoningLine,
};
use std::alloc::Allocator;

/// A line of one of the thirteen tables: each variant is a table.
#[derive(Drop)]
pub enum TableLine<A: Allocator + Copy> {
    /// Of `meta`: the schema, the revision, or a setting of a fabric.
    Meta(MetaLine<A>),
    /// Of `ports`: a port without its address.
    Port(PortLine<A>),
    /// Of `addresses`: the address of a port.
    Address(AddressLine<A>),
    /// Of `holders`: a host or an array.
    Holder(HolderLine<A>),
    /// Of `volumes`: a volume.
    Volume(VolumeLine<A>),
    /// Of `zoning`: an item of an alias, a zone or a zone set.
    Zoning(ZoningLine<A>),
    /// Of `active`: a member of a zone of an active zone set.
    Active(ActiveLine<A>),
    /// Of `groups`: a host group or a storage group.
    Group(GroupLine<A>),
    /// Of `group_parts`: a part of a host group or of a storage group.
    Part(PartLine<A>),
    /// Of `plans`: a plan.
    Plan(PlanLine<A>),
    /// Of `approvals`: an approval of a plan.
    Approval(ApprovalLine<A>),
    /// Of `undo`: a row that an active plan took away or added.
    Undo(UndoLine<A>),
    /// Of `paths`: a path of a host.
    Path(PathLine<A>),
}
