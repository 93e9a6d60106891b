//! The rows of a world that paths follow from.

use fab_inventory::Port;
use fab_names::Fabric;
use fab_store_rows::{ActiveRow, GroupRow, HolderRow, PartRow};
use std::alloc::Allocator;

/// A row of a world that paths follow from.
#[derive(Clone, Copy)]
pub enum Row {
    /// What is known of a port.
    Port(Port),
    /// A host or an array.
    Holder(HolderRow),
    /// A member of a zone of a fabric's active zone set (FC-GS).
    Active(ActiveRow),
    /// Whether the fabric's default zone permits its members to communicate (FC-GS).
    DefaultZone(Fabric, bool),
    /// A host group or a storage group.
    Group(GroupRow),
    /// A part of a host group or of a storage group.
    Part(PartRow),
}

/// What tells two worlds apart: the rows that stand in the first alone, and those that stand in the
/// second alone. No order is asked, and a row may be listed more than once.
#[derive(Drop)]
pub struct RowDiff<A: Allocator> {
    /// The rows that stand in the first world alone.
    pub gone: Vec<Row, A>,
    /// The rows that stand in the second world alone.
    pub come: Vec<Row, A>,
}
