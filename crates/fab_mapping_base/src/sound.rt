//! Whether a host group or a storage group is sound, and fits an inventory.
ghost use Rattle.std.specs.Prelude.{IsTrue, ◌↔◌};
ghost use Rattle.std.specs.BTreeMap.{get};
ghost use Rattle.fab_inventory.specs.fab_names.Orders.{name_cmp};
ghost use Rattle.fab_mapping_base.specs.Soundness.{HasKnownHosts, IsSoundGroup};
ghost use Rattle.fab_mapping_base.specs.Fitting.{HasHosts, HasTargets, HasVolumes, GroupFits};

use crate::look_ups::{is_array, is_host, is_port_of, is_volume_on};
use crate::{HostGroup, StorageGroup};
use fab_inventory::Inventory;
use fab_inventory::names::Name;
use std::alloc::Allocator;
use std::collections::BTreeMap;

/// Whether each host group that the storage group names is there.
fn has_known_hosts<A: Allocator + Copy>(
    host_groups: &BTreeMap<Name, HostGroup<A>, A>,
    group: &StorageGroup<A>,
) -> bool
    ensures { IsTrue result ↔ HasKnownHosts (get name_cmp host_groups.now) group.now }
{
    group
        .host_groups()
        .all(|name| host_groups.contains_key(name))
}

/// Whether the storage group is sound.
pub fn is_sound_group<A: Allocator + Copy>(
    host_groups: &BTreeMap<Name, HostGroup<A>, A>,
    group: &StorageGroup<A>,
) -> bool
    ensures { IsTrue result ↔ IsSoundGroup (get name_cmp host_groups.now) group.now }
{
    if !group.has_few_parts() {
        return false;
    }
    if !group.has_unit_numbers() {
        return false;
    }
    has_known_hosts(host_groups, group)
}

/// Whether each host of the host group is a host.
pub fn host_group_fits<A: Allocator + Copy>(inventory: &Inventory<A>, group: &HostGroup<A>) -> bool
    ensures { IsTrue result ↔ HasHosts inventory.now group.now }
{
    group.hosts().all(|host| is_host(inventory, host))
}

/// Whether the array holds each target of the storage group.
fn has_targets<A: Allocator + Copy>(
    inventory: &Inventory<A>,
    array: &Name,
    group: &StorageGroup<A>,
) -> bool
    ensures { IsTrue result ↔ HasTargets inventory.now array.now group.now }
{
    group
        .targets()
        .all(|port| is_port_of(inventory, array, port))
}

/// Whether each volume of the storage group is on the array.
fn has_volumes<A: Allocator + Copy>(
    inventory: &Inventory<A>,
    array: &Name,
    group: &StorageGroup<A>,
) -> bool
    ensures { IsTrue result ↔ HasVolumes inventory.now array.now group.now }
{
    group
        .units()
        .all(|(_unit, volume)| is_volume_on(inventory, array, volume))
}

/// Whether what the storage group names is in the inventory.
pub fn group_fits<A: Allocator + Copy>(inventory: &Inventory<A>, group: &StorageGroup<A>) -> bool
    ensures { IsTrue result ↔ GroupFits inventory.now group.now }
{
    let array = group.array();
    if !is_array(inventory, &array) {
        return false;
    }
    if !has_targets(inventory, &array, group) {
        return false;
    }
    has_volumes(inventory, &array, group)
}
