//! Whether all host groups and storage groups are sound, and fit an inventory.
ghost use Rattle.std.specs.Prelude.{IsTrue, ◌↔◌};
ghost use Rattle.std.specs.BTreeMap.{get};
ghost use Rattle.std.specs.FinMap as map;
ghost use Rattle.fab_mapping_base.specs.fab_names.Orders.{name_cmp};
ghost use Rattle.fab_mapping_base.specs.Soundness.{IsSoundHostGroup, IsSoundGroup};
ghost use Rattle.fab_mapping_base.specs.Fitting.{HasHosts, GroupFits};
ghost use Rattle.fab_mapping.specs.Soundness.{Each, IsSound};

use crate::{HostGroup, MOST_HOST_GROUPS, MOST_STORAGE_GROUPS, StorageGroup};
use fab_mapping_base::inventory::Inventory;
use fab_mapping_base::names::Name;
use fab_mapping_base::{group_fits, host_group_fits, is_sound_group};
use std::alloc::Allocator;
use std::collections::BTreeMap;

/// Whether each host group is sound.
fn are_sound_host_groups<A: Allocator + Copy>(host_groups: &BTreeMap<Name, HostGroup<A>, A>) -> bool
    ensures { IsTrue result ↔ Each (get name_cmp host_groups.now) IsSoundHostGroup }
{
    host_groups.values().all(|group| group.is_sound())
}

/// Whether each storage group is sound.
fn are_sound_groups<A: Allocator + Copy>(
    host_groups: &BTreeMap<Name, HostGroup<A>, A>,
    groups: &BTreeMap<Name, StorageGroup<A>, A>,
) -> bool
    ensures { IsTrue result ↔ Each (get name_cmp groups.now) (IsSoundGroup (get name_cmp host_groups.now)) }
{
    groups
        .values()
        .all(|group| is_sound_group(host_groups, group))
}

/// Whether a mapping of these groups is sound.
pub fn are_sound<A: Allocator + Copy>(
    host_groups: &BTreeMap<Name, HostGroup<A>, A>,
    groups: &BTreeMap<Name, StorageGroup<A>, A>,
) -> bool
    ensures { IsTrue result ↔ IsSound (record { host_groups = map.from_entries host_groups.now.entries; groups = map.from_entries groups.now.entries }) }
{
    let (count_of_hosts, count) = (host_groups.len(), groups.len());
    if count_of_hosts > MOST_HOST_GROUPS {
        return false;
    }
    if count > MOST_STORAGE_GROUPS {
        return false;
    }
    if !are_sound_host_groups(host_groups) {
        return false;
    }
    are_sound_groups(host_groups, groups)
}

/// Whether each host of each host group is a host.
pub fn have_hosts<A: Allocator + Copy>(
    inventory: &Inventory<A>,
    host_groups: &BTreeMap<Name, HostGroup<A>, A>,
) -> bool
    ensures { IsTrue result ↔ Each (get name_cmp host_groups.now) (HasHosts inventory.now) }
{
    host_groups
        .values()
        .all(|group| host_group_fits(inventory, group))
}

/// Whether what each storage group names is in the inventory.
pub fn groups_fit<A: Allocator + Copy>(
    inventory: &Inventory<A>,
    groups: &BTreeMap<Name, StorageGroup<A>, A>,
) -> bool
    ensures { IsTrue result ↔ Each (get name_cmp groups.now) (GroupFits inventory.now) }
{
    groups.values().all(|group| group_fits(inventory, group))
}
