//! What an inventory is asked: whose a name is, who holds a port, and on which array a volume is.
ghost use Rattle.std.specs.Prelude.{◌≡◌, Some, IsTrue, ◌↔◌, All, MatchOption};
ghost use Rattle.fab_inventory.specs.Inventories.{IsHost, IsArray};
ghost use Rattle.fab_inventory.specs.fab_lemmas.Firsts.{IsFirstWithout};
ghost use Rattle.fab_mapping_base.specs.Fitting.{IsPortOf, IsVolumeOn};

use fab_inventory::names::{Name, Wwn};
use fab_inventory::{HolderKind, Inventory, Port};
use std::alloc::Allocator;

/// Whether the name is a host's.
pub fn is_host<A: Allocator + Copy>(inventory: &Inventory<A>, name: &Name) -> bool
    ensures { IsTrue result ↔ IsHost inventory.now.holders name.now }
{
    match inventory.holder(name) {
        Some(holder) => holder.kind == HolderKind::Host,
        None => false,
    }
}

/// Whether the name is an array's.
pub fn is_array<A: Allocator + Copy>(inventory: &Inventory<A>, name: &Name) -> bool
    ensures { IsTrue result ↔ IsArray inventory.now.holders name.now }
{
    match inventory.holder(name) {
        Some(holder) => holder.kind == HolderKind::Array,
        None => false,
    }
}

/// Whether the holder of this name holds the port.
pub fn is_held_by(port: &Port, name: &Name) -> bool
    ensures { IsTrue result ↔ (port.now.holder ≡ Some name.now) }
{
    match port.holder {
        Some(holder) => holder == *name,
        None => false,
    }
}

/// The first listed name that is no host's.
pub fn first_no_host<A: Allocator + Copy>(inventory: &Inventory<A>, hosts: &[Name]) -> Option<Name>
    ensures { MatchOption result (All (IsHost inventory.now.holders) hosts.now) (IsFirstWithout (IsHost inventory.now.holders) hosts.now) }
{
    for host in hosts {
        if !is_host(inventory, host) {
            return Some(*host);
        }
    }
    None
}

/// Whether the array holds the port.
pub fn is_port_of<A: Allocator + Copy>(inventory: &Inventory<A>, array: &Name, port: &Wwn) -> bool
    ensures { IsTrue result ↔ IsPortOf inventory.now array.now port.now }
{
    match inventory.port(port) {
        Some(found) => is_held_by(&found, array),
        None => false,
    }
}

/// Whether the volume is there, and on the array.
pub fn is_volume_on<A: Allocator + Copy>(
    inventory: &Inventory<A>,
    array: &Name,
    volume: &Name,
) -> bool
    ensures { IsTrue result ↔ IsVolumeOn inventory.now array.now volume.now }
{
    match inventory.volume(volume) {
        Some(found) => found.array == *array,
        None => false,
    }
}
