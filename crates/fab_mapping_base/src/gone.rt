//! What a host group or a storage group names and an inventory has not: it is gone.
ghost use Rattle.std.specs.Prelude.{◌≡◌, MatchOption};
ghost use Rattle.std.specs.Ordering.{nat_cmp};
ghost use Rattle.fab_inventory.specs.Inventories.{IsHost, IsArray};
ghost use Rattle.fab_inventory.specs.fab_lemmas.Firsts.{IsFirstOf};
ghost use Rattle.fab_inventory.specs.fab_names.Orders.{name_cmp};
ghost use Rattle.fab_mapping_base.specs.Fitting.{IsPortOf, IsVolumeOn, LacksHost, LacksArray, LacksTarget, LacksVolume};

use crate::look_ups::{is_array, is_host, is_port_of, is_volume_on};
use crate::{HostGroup, StorageGroup};
use fab_inventory::Inventory;
use fab_inventory::lemmas::lesser;
use fab_inventory::names::{Name, Wwn};
use std::alloc::Allocator;

/// What a mapping names and an inventory has not.
#[derive(Clone, Copy, Debug)]
pub enum Gone {
    /// A host of a host group: no host has this name.
    Host(Name),
    /// The array of a storage group: no array has this name.
    Array(Name),
    /// A target of a storage group: the group's array does not hold it.
    Target(Wwn),
    /// A volume that a storage group maps: it is not on the group's array.
    Volume(Name),
}

/// The name, unless it is a host's.
fn unless_host<A: Allocator + Copy>(inventory: &Inventory<A>, name: &Name) -> Option<Name>
    ensures { MatchOption result (IsHost inventory.now.holders name.now) (λ x. (x ≡ name.now) × ¬ IsHost inventory.now.holders x) }
{
    if is_host(inventory, name) {
        return None;
    }
    Some(*name)
}

/// The name, unless it is an array's.
fn unless_array<A: Allocator + Copy>(inventory: &Inventory<A>, name: &Name) -> Option<Name>
    ensures { MatchOption result (IsArray inventory.now.holders name.now) (λ x. (x ≡ name.now) × ¬ IsArray inventory.now.holders x) }
{
    if is_array(inventory, name) {
        return None;
    }
    Some(*name)
}

/// The port, unless the array holds it.
fn unless_port_of<A: Allocator + Copy>(
    inventory: &Inventory<A>,
    array: &Name,
    port: &Wwn,
) -> Option<Wwn>
    ensures { MatchOption result (IsPortOf inventory.now array.now port.now) (λ x. (x ≡ port.now) × ¬ IsPortOf inventory.now array.now x) }
{
    if is_port_of(inventory, array, port) {
        return None;
    }
    Some(*port)
}

/// The volume, unless it is on the array.
fn unless_volume_on<A: Allocator + Copy>(
    inventory: &Inventory<A>,
    array: &Name,
    volume: &Name,
) -> Option<Name>
    ensures { MatchOption result (IsVolumeOn inventory.now array.now volume.now) (λ x. (x ≡ volume.now) × ¬ IsVolumeOn inventory.now array.now x) }
{
    if is_volume_on(inventory, array, volume) {
        return None;
    }
    Some(*volume)
}

/// The least host of the host group that is gone. It takes no memory.
pub fn gone_host<A: Allocator + Copy>(
    inventory: &Inventory<A>,
    group: &HostGroup<A>,
) -> Option<Name>
    ensures { IsFirstOf name_cmp (LacksHost inventory.now group.now) result }
{
    let mut least = None;
    for host in group.hosts() {
        least = lesser(least, unless_host(inventory, host));
    }
    least
}

/// The array of the storage group, where it is gone. It takes no memory.
pub fn gone_array<A: Allocator + Copy>(
    inventory: &Inventory<A>,
    group: &StorageGroup<A>,
) -> Option<Name>
    ensures { IsFirstOf name_cmp (LacksArray inventory.now group.now) result }
{
    unless_array(inventory, &group.array())
}

/// The least target of the storage group that is gone. It takes no memory.
pub fn gone_target<A: Allocator + Copy>(
    inventory: &Inventory<A>,
    group: &StorageGroup<A>,
) -> Option<Wwn>
    ensures { IsFirstOf nat_cmp (LacksTarget inventory.now group.now) result }
{
    let array = group.array();
    let mut least = None;
    for port in group.targets() {
        least = lesser(least, unless_port_of(inventory, &array, port));
    }
    least
}

/// The least volume of the storage group that is gone. It takes no memory.
pub fn gone_volume<A: Allocator + Copy>(
    inventory: &Inventory<A>,
    group: &StorageGroup<A>,
) -> Option<Name>
    ensures { IsFirstOf name_cmp (LacksVolume inventory.now group.now) result }
{
    let array = group.array();
    let mut least = None;
    for (_unit, volume) in group.units() {
        least = lesser(least, unless_volume_on(inventory, &array, volume));
    }
    least
}
