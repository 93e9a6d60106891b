//! What of all groups is gone from an inventory, kind by kind.
ghost use Rattle.std.specs.Prelude.{MatchOption};
ghost use Rattle.std.specs.BTreeMap.{get};
ghost use Rattle.std.specs.Ordering.{nat_cmp};
ghost use Rattle.fab_mapping_base.specs.fab_lemmas.Firsts.{IsFirstOf};
ghost use Rattle.fab_mapping_base.specs.fab_names.Orders.{name_cmp};
ghost use Rattle.fab_mapping_base.specs.Fitting.{HasHosts, GroupFits, LacksHost, LacksArray, LacksTarget, LacksVolume};
ghost use Rattle.fab_mapping.specs.Soundness.{Each};
ghost use Rattle.fab_mapping.specs.Gone.{IsLacking, IsFirstGoneOf};

use crate::{Gone, HostGroup, StorageGroup};
use fab_mapping_base::inventory::Inventory;
use fab_mapping_base::lemmas::lesser;
use fab_mapping_base::names::{Name, Wwn};
use fab_mapping_base::{gone_array, gone_host, gone_target, gone_volume};
use std::alloc::Allocator;
use std::collections::BTreeMap;

/// The least host of a host group that is gone.
fn least_host<A: Allocator + Copy>(
    inventory: &Inventory<A>,
    host_groups: &BTreeMap<Name, HostGroup<A>, A>,
) -> Option<Name>
    ensures { IsFirstOf name_cmp (IsLacking (get name_cmp host_groups.now) (LacksHost inventory.now)) result }
{
    let mut least = None;
    for (_name, group) in host_groups {
        least = lesser(least, gone_host(inventory, group));
    }
    least
}

/// The least array of a storage group that is gone.
fn least_array<A: Allocator + Copy>(
    inventory: &Inventory<A>,
    groups: &BTreeMap<Name, StorageGroup<A>, A>,
) -> Option<Name>
    ensures { IsFirstOf name_cmp (IsLacking (get name_cmp groups.now) (LacksArray inventory.now)) result }
{
    let mut least = None;
    for (_name, group) in groups {
        least = lesser(least, gone_array(inventory, group));
    }
    least
}

/// The least target of a storage group that is gone.
fn least_target<A: Allocator + Copy>(
    inventory: &Inventory<A>,
    groups: &BTreeMap<Name, StorageGroup<A>, A>,
) -> Option<Wwn>
    ensures { IsFirstOf nat_cmp (IsLacking (get name_cmp groups.now) (LacksTarget inventory.now)) result }
{
    let mut least = None;
    for (_name, group) in groups {
        least = lesser(least, gone_target(inventory, group));
    }
    least
}

/// The least volume of a storage group that is gone.
fn least_volume<A: Allocator + Copy>(
    inventory: &Inventory<A>,
    groups: &BTreeMap<Name, StorageGroup<A>, A>,
) -> Option<Name>
    ensures { IsFirstOf name_cmp (IsLacking (get name_cmp groups.now) (LacksVolume inventory.now)) result }
{
    let mut least = None;
    for (_name, group) in groups {
        least = lesser(least, gone_volume(inventory, group));
    }
    least
}

/// The first that is gone, of these groups.
pub fn first_gone<A: Allocator + Copy>(
    inventory: &Inventory<A>,
    host_groups: &BTreeMap<Name, HostGroup<A>, A>,
    groups: &BTreeMap<Name, StorageGroup<A>, A>,
) -> Option<Gone>
    ensures { MatchOption result (Each (get name_cmp host_groups.now) (HasHosts inventory.now) × Each (get name_cmp groups.now) (GroupFits inventory.now)) (IsFirstGoneOf inventory.now (get name_cmp host_groups.now) (get name_cmp groups.now)) }
{
    if let Some(host) = least_host(inventory, host_groups) {
        return Some(Gone::Host(host));
    }
    if let Some(array) = least_array(inventory, groups) {
        return Some(Gone::Array(array));
    }
    if let Some(target) = least_target(inventory, groups) {
        return Some(Gone::Target(target));
    }
    match least_volume(inventory, groups) {
        Some(volume) => Some(Gone::Volume(volume)),
        None => None,
    }
}
