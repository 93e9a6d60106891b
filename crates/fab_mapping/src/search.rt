//! Searches among host groups and storage groups.
ghost use Rattle.std.specs.Prelude.{MatchOption};
ghost use Rattle.std.specs.BTreeMap.{get};
ghost use Rattle.fab_mapping_base.specs.fab_names.Orders.{name_cmp};
ghost use Rattle.fab_mapping_base.specs.fab_lemmas.Firsts.{IsFirstWith, HasAt, HasNowhere};
ghost use Rattle.fab_mapping_base.specs.Groups.{HoldsHost, HasTarget, IsOfArray, MapsVolume};
ghost use Rattle.fab_mapping.specs.Mappings.{IsUnservedIn, IsLeastServing};

use crate::{HostGroup, StorageGroup};
use fab_mapping_base::names::{Name, Wwn};
use std::alloc::Allocator;
use std::collections::BTreeMap;

/// The least storage group by name that has the host group.
pub fn first_serving<'a, A: Allocator + Copy>(
    groups: &'a BTreeMap<Name, StorageGroup<A>, A>,
    hosts: &Name,
) -> Option<&'a Name>
    ensures { MatchOption result (IsUnservedIn (get name_cmp groups.now) hosts.now) (λ name. IsLeastServing (get name_cmp groups.now) hosts.now name.now) }
{
    for (name, group) in groups {
        if group.has_hosts(hosts) {
            return Some(name);
        }
    }
    None
}

/// The least host group by name that has the host.
pub fn first_with_host<A: Allocator + Copy>(
    groups: &BTreeMap<Name, HostGroup<A>, A>,
    host: &Name,
) -> Option<Name>
    ensures { MatchOption result (HasNowhere (get name_cmp groups.now) (HoldsHost host.now)) (IsFirstWith name_cmp (HasAt (get name_cmp groups.now) (HoldsHost host.now))) }
{
    for (name, group) in groups {
        if group.has_host(host) {
            return Some(*name);
        }
    }
    None
}

/// The least storage group by name that has the target port.
pub fn first_with_target<A: Allocator + Copy>(
    groups: &BTreeMap<Name, StorageGroup<A>, A>,
    target: &Wwn,
) -> Option<Name>
    ensures { MatchOption result (HasNowhere (get name_cmp groups.now) (HasTarget target.now)) (IsFirstWith name_cmp (HasAt (get name_cmp groups.now) (HasTarget target.now))) }
{
    for (name, group) in groups {
        if group.has_target(target) {
            return Some(*name);
        }
    }
    None
}

/// The least storage group by name that is of the array.
pub fn first_of_array<A: Allocator + Copy>(
    groups: &BTreeMap<Name, StorageGroup<A>, A>,
    array: &Name,
) -> Option<Name>
    ensures { MatchOption result (HasNowhere (get name_cmp groups.now) (IsOfArray array.now)) (IsFirstWith name_cmp (HasAt (get name_cmp groups.now) (IsOfArray array.now))) }
{
    for (name, group) in groups {
        if group.array() == *array {
            return Some(*name);
        }
    }
    None
}

/// The least storage group by name that maps the volume.
pub fn first_with_volume<A: Allocator + Copy>(
    groups: &BTreeMap<Name, StorageGroup<A>, A>,
    volume: &Name,
) -> Option<Name>
    ensures { MatchOption result (HasNowhere (get name_cmp groups.now) (MapsVolume volume.now)) (IsFirstWith name_cmp (HasAt (get name_cmp groups.now) (MapsVolume volume.now))) }
{
    for (name, group) in groups {
        if group.has_volume(volume) {
            return Some(*name);
        }
    }
    None
}
