//! Whether a row stands in an inventory.
ghost use Rattle.std.specs.Prelude.{◌≡◌, ◌↔◌, IsTrue};
ghost use Rattle.fab_store_rows.specs.Standing.{IsKnown, entry_at, address_at, without_address};
ghost use Rattle.fab_store_rows.specs.declared.inventory_row.InventoryRow.TheVariants as kind;

use crate::{AddressRow, PortEntry};
use fab_reach_base::inventory::{Inventory, Port};
use fab_reach_base::names::{Address, Wwn};
use std::alloc::Allocator;

/// The port without its address.
fn without_address(port: &Port) -> PortEntry
    ensures { result ≡ without_address port.now }
{
    PortEntry {
        name: port.name,
        node: port.node,
        at: port.at,
        holder: port.holder,
    }
}

/// Whether two ports are one but for their addresses.
fn is_same_entry(one: &Port, other: &Port) -> bool
    ensures { IsTrue result ↔ (without_address one.now ≡ without_address other.now) }
{
    without_address(one) == without_address(other)
}

/// Whether two ports have one address, or none.
fn has_same_address(one: &Port, other: &Port) -> bool
    ensures { IsTrue result ↔ (one.now.address ≡ other.now.address) }
{
    one.address == other.address
}

/// Whether two ports are one.
fn is_same(one: &Port, other: &Port) -> bool
    ensures { IsTrue result ↔ (one.now ≡ other.now) }
{
    if !is_same_entry(one, other) {
        return false;
    }
    has_same_address(one, other)
}

/// The port of a name without its address, if it is known.
fn entry_at<A: Allocator + Copy>(inventory: &Inventory<A>, name: &Wwn) -> Option<PortEntry>
    ensures { result ≡ entry_at inventory.now.ports name.now }
{
    let Some(port) = inventory.port(name) else {
        return None;
    };
    Some(without_address(&port))
}

/// The address of the port of a name, if it is known and has one.
fn address_at<A: Allocator + Copy>(inventory: &Inventory<A>, name: &Wwn) -> Option<Address>
    ensures { result ≡ address_at inventory.now.ports name.now }
{
    let Some(port) = inventory.port(name) else {
        return None;
    };
    port.address
}

/// Whether the port is known, and is this with its address. It takes no memory.
pub fn has_port<A: Allocator + Copy>(inventory: &Inventory<A>, port: &Port) -> bool
    ensures { IsTrue result ↔ IsKnown inventory.now (kind.Port port.now) }
{
    match inventory.port(&port.name) {
        Some(there) => is_same(&there, port),
        None => false,
    }
}

/// Whether the port of the row is known, and is this but for its address. It takes no memory.
pub fn has_entry<A: Allocator + Copy>(inventory: &Inventory<A>, row: &PortEntry) -> bool
    ensures { IsTrue result ↔ IsKnown inventory.now (kind.Entry row.now) }
{
    entry_at(inventory, &row.name) == Some(*row)
}

/// Whether the port of the row is known, and has this address. It takes no memory.
pub fn has_address<A: Allocator + Copy>(inventory: &Inventory<A>, row: &AddressRow) -> bool
    ensures { IsTrue result ↔ IsKnown inventory.now (kind.Address row.now) }
{
    address_at(inventory, &row.port) == Some(row.address)
}
