//! Which table is named where no sound world has the rows: the first that has a fault. No contract
//! tells of it; tests do.

use crate::counts::revision_of;
use crate::made::made_of;
use crate::plans_of;
use fab_reach_base::inventory::{HolderKind, Inventory};
use fab_world::load::rows::{ApprovalRow, ConfigRow, CountRow, GroupRow, TableRows, UndoRow};
use fab_world::load::{LoadFault, Table, config_of, inventory_of};
use fab_world::{MOST_CHANGES, MOST_PLANS, has_sound_history};
use std::alloc::{AllocError, Allocator};

/// The table in which a fault was found.
fn table_of(fault: LoadFault) -> Result<Option<Table>, AllocError> {
    match fault {
        LoadFault::Damaged(table) => Ok(Some(table)),
        LoadFault::Memory => Err(AllocError),
    }
}

/// Whether the rows tell no revision that may be.
fn has_faulty_counts(rows: &[CountRow]) -> bool {
    match revision_of(rows) {
        Some(revision) => revision > MOST_CHANGES,
        None => true,
    }
}

/// Whether a storage group is on an array that is not there.
fn is_nowhere<A: Allocator + Copy>(inventory: &Inventory<A>, row: &ConfigRow) -> bool {
    let ConfigRow::Group(GroupRow::Storage(group)) = row else {
        return false;
    };
    match inventory.holder(&group.array) {
        Some(holder) => holder.kind != HolderKind::Array,
        None => true,
    }
}

/// Whether some storage group is on an array that is not there.
fn has_faulty_groups<A: Allocator + Copy>(inventory: &Inventory<A>, rows: &[ConfigRow]) -> bool {
    rows.iter().any(|row| is_nowhere(inventory, row))
}

/// Whether an approval is at a revision above the greatest that there may be.
fn has_faulty_approvals(rows: &[ApprovalRow]) -> bool {
    rows.iter().any(|row| row.revision > MOST_CHANGES)
}

/// The table of the configuration's in which a fault is found, if one is.
fn faulty_config<A: Allocator + Copy>(
    alloc: A,
    rows: &[ConfigRow],
) -> Result<Option<Table>, AllocError> {
    match config_of(alloc, rows) {
        Ok(_config) => Ok(None),
        Err(fault) => table_of(fault),
    }
}

/// The first faulty table of groups, where the inventory is the rows'.
fn faulty_groups<A: Allocator + Copy>(
    alloc: A,
    inventory: &Inventory<A>,
    rows: &[ConfigRow],
) -> Result<Option<Table>, AllocError> {
    if has_faulty_groups(inventory, rows) {
        return Ok(Some(Table::Groups));
    }
    match config_of(alloc, rows) {
        Ok(config) => {
            if config.mapping().fits(inventory) {
                return Ok(None);
            }
            Ok(Some(Table::GroupParts))
        }
        Err(fault) => table_of(fault),
    }
}

/// The first faulty table up to that of the parts of groups.
fn faulty_present<A: Allocator + Copy>(
    alloc: A,
    tables: &TableRows<A>,
) -> Result<Option<Table>, AllocError> {
    if has_faulty_counts(tables.counts.as_slice()) {
        return Ok(Some(Table::Meta));
    }
    let rows = tables.config.as_slice();
    let found = faulty_config(alloc, rows)?;
    if found == Some(Table::Meta) {
        return Ok(found);
    }
    let ports = tables.ports.as_slice();
    let addresses = tables.addresses.as_slice();
    let holders = tables.holders.as_slice();
    let volumes = tables.volumes.as_slice();
    match inventory_of(alloc, ports, addresses, holders, volumes) {
        Ok(inventory) => {
            if found == Some(Table::Zoning) || found == Some(Table::Active) {
                return Ok(found);
            }
            faulty_groups(alloc, &inventory, rows)
        }
        Err(fault) => table_of(fault),
    }
}

/// The table in which a fault of plans with these approvals and changes is found, if one is.
fn faulty_plans<A: Allocator + Copy>(
    alloc: A,
    tables: &TableRows<A>,
    approvals: &[ApprovalRow],
    undo: &[UndoRow],
) -> Result<Option<Table>, AllocError> {
    match plans_of(alloc, tables.plans.as_slice(), approvals, undo) {
        Ok(_plans) => Ok(None),
        Err(fault) => table_of(fault),
    }
}

/// The first faulty table of plans, approvals and changes, if the rows of one are faulty by
/// themselves.
fn faulty_records<A: Allocator + Copy>(
    alloc: A,
    tables: &TableRows<A>,
) -> Result<Option<Table>, AllocError> {
    if tables.plans.len() > MOST_PLANS {
        return Ok(Some(Table::Plans));
    }
    let found = faulty_plans(alloc, tables, &[], &[])?;
    if found.is_some() {
        return Ok(found);
    }
    if has_faulty_approvals(tables.approvals.as_slice()) {
        return Ok(Some(Table::Approvals));
    }
    let approvals = tables.approvals.as_slice();
    let found = faulty_plans(alloc, tables, approvals, &[])?;
    if found.is_some() {
        return Ok(found);
    }
    faulty_plans(alloc, tables, approvals, tables.undo.as_slice())
}

/// The last faulty table, where each is without fault by itself: that of changes, if they do not lead
/// back through sound configurations, or that of paths.
fn faulty_at_last<A: Allocator + Copy>(
    alloc: A,
    tables: &TableRows<A>,
) -> Result<Table, AllocError> {
    match made_of(alloc, tables) {
        Ok(world) => {
            let order = world.order.as_slice();
            if has_sound_history(alloc, &world.plans, order, &world.config)? {
                return Ok(Table::Paths);
            }
            Ok(Table::Undo)
        }
        Err(LoadFault::Damaged(table)) => Ok(table),
        Err(LoadFault::Memory) => Err(AllocError),
    }
}

/// The first table that has a fault, in the order of `Table`.
///
/// # Errors
/// `AllocError` where there is no memory.
pub fn first_faulty<A: Allocator + Copy>(
    alloc: A,
    tables: &TableRows<A>,
) -> Result<Table, AllocError> {
    if let Some(table) = faulty_present(alloc, tables)? {
        return Ok(table);
    }
    if let Some(table) = faulty_records(alloc, tables)? {
        return Ok(table);
    }
    faulty_at_last(alloc, tables)
}
