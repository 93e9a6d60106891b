//! What one inventory has and another has not, as lists of rows.
ghost use Rattle.std.specs.Prelude.{◌≡◌, ◌↔◌, [], IsTrue, OnOk, IfOk};
ghost use Rattle.std.specs.FinMap as map;
ghost use Rattle.std.specs.List.Sorted.{IsStrictlySortedBy};
ghost use Rattle.std.specs.Map.{keys_of};
ghost use Rattle.fab_reach_base.specs.fab_lemmas.Lists.{IsListOf};
ghost use Rattle.fab_reach_base.specs.fab_inventory.Ports.{port_of};
ghost use Rattle.fab_world.specs.fab_store_rows.Standing.{IsKnown};
ghost use Rattle.fab_world.specs.fab_store_rows.declared.inventory_row.InventoryRow.TheVariants as row;
ghost use Rattle.fab_store_world.specs.Inventories.{AreListsOf, IsKnownOnlyIn, IsInventoryDifference, port_order, port_row, entry_order, entry_row, address_order, address_row};
ghost use Rattle.fab_store_world.specs.InventoryGathering.{IsPushed, IsRowOfEntries};

use crate::row_tables::{Addresses, Entries, Holders, Ports, Table, Volumes};
use fab_reach_base::inventory::{Inventory, Known, Port};
use fab_reach_base::names::Wwn;
use fab_world::load::rows::{AddressRow, HolderRow, PortEntry, VolumeRow, has_port};
use std::alloc::{AllocError, Allocator};
use std::collections::btree_map;

/// Rows of an inventory: whole ports, and a list a table, each by name.
#[derive(Drop)]
pub struct InventoryLists<A: Allocator> {
    /// Ports with their addresses, which no table has in one row.
    pub ports: Vec<Port, A>,
    /// Rows of the table of ports: ports without their addresses.
    pub entries: Vec<PortEntry, A>,
    /// Addresses of ports.
    pub addresses: Vec<AddressRow, A>,
    /// Hosts and arrays.
    pub holders: Vec<HolderRow, A>,
    /// Volumes.
    pub volumes: Vec<VolumeRow, A>,
}

/// What leads from one inventory to another, as rows: those that are taken away, and those that are
/// added.
#[derive(Drop)]
pub struct InventoryDifference<A: Allocator> {
    /// The rows that are taken away.
    pub taken: InventoryLists<A>,
    /// The rows that are added.
    pub added: InventoryLists<A>,
}

/// Puts the row at the end, if there is one, unless it stands in the inventory.
pub fn push_lacking<K: Ord, V, R: Copy + Drop, T: Table<K, V, R>, A: Allocator + Copy>(
    rows: &mut Vec<R, A>,
    table: &T,
    other: &Inventory<A>,
    found: Option<R>,
) -> Result<(), AllocError>
    ensures { OnOk result (IsPushed (λ r. ¬ T.knows other.now r) found rows.old.items rows.new.items) }
{
    let Some(row) = found else {
        return Ok(());
    };
    if !table.is_known(other, &row) {
        rows.push(row)?;
    }
    Ok(())
}

/// The rows of the entries of a table, but for those that stand in the inventory.
fn rows_without<K: Ord, V, R: Copy + Drop, T: Table<K, V, R>, A: Allocator + Copy>(
    alloc: A,
    table: &T,
    other: &Inventory<A>,
    entries: btree_map::Iter<'_, K, V>,
) -> Result<Vec<R, A>, AllocError>
    requires { IsStrictlySortedBy K.cmp (keys_of entries) }
    ensures { IfOk result (λ rows. IsListOf T.order (IsRowOfEntries T.row_of (λ r. ¬ T.knows other.now r) entries.entry) rows.items) }
{
    let mut rows = Vec::new(alloc);
    for (key, value) in entries {
        push_lacking(&mut rows, table, other, table.row(key, value))?;
    }
    Ok(rows)
}

/// Whether the inventory has this very port.
fn is_whole<A: Allocator + Copy>(inventory: &Inventory<A>, name: &Wwn, known: &Known) -> bool
    ensures { IsTrue result ↔ IsKnown inventory.now (row.Port (port_of name.now known.now)) }
{
    let port = Port {
        name: *name,
        node: known.node,
        at: known.at,
        address: known.address,
        holder: known.holder,
    };
    has_port(inventory, &port)
}

/// Puts the port and its rows at the ends, but for those that stand in the inventory. Where that has
/// this very port, none is looked for.
fn push_port<A: Allocator + Copy>(
    ports: &mut Vec<Port, A>,
    entries: &mut Vec<PortEntry, A>,
    addresses: &mut Vec<AddressRow, A>,
    other: &Inventory<A>,
    name: &Wwn,
    known: &Known,
) -> Result<(), AllocError>
    ensures ports { OnOk result (IsPushed (λ r. ¬ IsKnown other.now (row.Port r)) (port_row name.now known.now) ports.old.items ports.new.items) }
    ensures entries { OnOk result (IsPushed (λ r. ¬ IsKnown other.now (row.Entry r)) (entry_row name.now known.now) entries.old.items entries.new.items) }
    ensures addresses { OnOk result (IsPushed (λ r. ¬ IsKnown other.now (row.Address r)) (address_row name.now known.now) addresses.old.items addresses.new.items) }
{
    if is_whole(other, name, known) {
        return Ok(());
    }
    push_lacking(ports, &Ports, other, Ports.row(name, known))?;
    push_lacking(entries, &Entries, other, Entries.row(name, known))?;
    push_lacking(addresses, &Addresses, other, Addresses.row(name, known))?;
    Ok(())
}

/// Adds the ports of an inventory and their rows, but for those that stand in the other.
pub fn add_ports<A: Allocator + Copy>(
    ports: &mut Vec<Port, A>,
    entries: &mut Vec<PortEntry, A>,
    addresses: &mut Vec<AddressRow, A>,
    inventory: &Inventory<A>,
    other: &Inventory<A>,
) -> Result<(), AllocError>
    requires ports { ports.old.items ≡ [] }
    requires entries { entries.old.items ≡ [] }
    requires addresses { addresses.old.items ≡ [] }
    ensures ports { OnOk result (IsListOf port_order (IsRowOfEntries port_row (λ r. ¬ IsKnown other.now (row.Port r)) (map.entries inventory.now.ports)) ports.new.items) }
    ensures entries { OnOk result (IsListOf entry_order (IsRowOfEntries entry_row (λ r. ¬ IsKnown other.now (row.Entry r)) (map.entries inventory.now.ports)) entries.new.items) }
    ensures addresses { OnOk result (IsListOf address_order (IsRowOfEntries address_row (λ r. ¬ IsKnown other.now (row.Address r)) (map.entries inventory.now.ports)) addresses.new.items) }
{
    for (name, known) in inventory.ports() {
        push_port(ports, entries, addresses, other, name, known)?;
    }
    Ok(())
}

/// The rows of an inventory that do not stand in the other.
fn lists_only_in<A: Allocator + Copy>(
    alloc: A,
    inventory: &Inventory<A>,
    other: &Inventory<A>,
) -> Result<InventoryLists<A>, AllocError>
    ensures { IfOk result (AreListsOf (IsKnownOnlyIn inventory.now other.now)) }
{
    let mut ports = Vec::new(alloc);
    let mut entries = Vec::new(alloc);
    let mut addresses = Vec::new(alloc);
    add_ports(&mut ports, &mut entries, &mut addresses, inventory, other)?;
    let holders = rows_without(alloc, &Holders, other, inventory.holders())?;
    let volumes = rows_without(alloc, &Volumes, other, inventory.volumes())?;
    Ok(InventoryLists {
        ports,
        entries,
        addresses,
        holders,
        volumes,
    })
}

/// What one inventory's rows have and another's have not, both ways: those of `before` that do not
/// stand in `after` are taken, and those of `after` that do not stand in `before` are added, each
/// once, by name. It walks through each inventory once, with a look-up in the other for each port, holder
/// and volume. Besides what differs it takes no memory.
///
/// # Errors
/// `AllocError` where there is no memory.
pub fn inventory_difference<A: Allocator + Copy>(
    alloc: A,
    before: &Inventory<A>,
    after: &Inventory<A>,
) -> Result<InventoryDifference<A>, AllocError>
    ensures { IfOk result (IsInventoryDifference before.now after.now) }
{
    let taken = lists_only_in(alloc, before, after)?;
    let added = lists_only_in(alloc, after, before)?;
    Ok(InventoryDifference { taken, added })
}
