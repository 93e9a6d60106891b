//! The rows of all tables.

use crate::{
    AddressRow, ApprovalRow, ConfigRow, HolderRow, PathRow, PlanRow, PortEntry, UndoRow, VolumeRow,
};
use std::alloc::Allocator;

/// The schema of the tables.
pub const SCHEMA: u64 = 2;

/// A row of the table of settings that is none of a configuration.
#[derive(Clone, Copy, PartialEq, Eq)]
pub enum CountRow {
    /// The schema of the tables: `SCHEMA`.
    Schema(u64),
    /// How many changes there were.
    Revision(u64),
}

/// Rows of the thirteen tables.
pub struct TableRows<A: Allocator + Copy> {
    /// Of the settings, those that are none of a configuration.
    pub counts: Vec<CountRow, A>,
    /// Of ports without their addresses.
    pub ports: Vec<PortEntry, A>,
    /// Of ports that have an address.
    pub addresses: Vec<AddressRow, A>,
    /// Of hosts and arrays.
    pub holders: Vec<HolderRow, A>,
    /// Of volumes.
    pub volumes: Vec<VolumeRow, A>,
    /// The settings of both fabrics, the items of aliases, zones and zone sets, the rows of active
    /// zone sets, the groups, and their parts: each row's variant is its table.
    pub config: Vec<ConfigRow, A>,
    /// Of plans.
    pub plans: Vec<PlanRow<A>, A>,
    /// Of approvals of plans.
    pub approvals: Vec<ApprovalRow, A>,
    /// What active plans took away and added.
    pub undo: Vec<UndoRow, A>,
    /// Of paths of hosts.
    pub paths: Vec<PathRow, A>,
}

// It is written out, so that a caller does not prove again how each part is dropped.
impl<A: Allocator + Copy> Drop for TableRows<A> {
    fn drop(self) {
        let TableRows {
            counts: _,
            ports: _,
            addresses: _,
            holders: _,
            volumes: _,
            config: _,
            plans: _,
            approvals: _,
            undo: _,
            paths: _,
        } = self;
    }
}
