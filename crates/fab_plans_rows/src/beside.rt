//! One storage group beside all others: whether by them a host may meet two volumes at one nexus.
ghost use Rattle.std.specs.Prelude.{◌≡◌, IsTrue, false};
ghost use Rattle.fab_store_drafts.specs.There.{IsClear, IsClearAt};
ghost use Rattle.fab_plans_rows.specs.Inner.Beside.{AreClear, HasNoneOf, HaveNoHost, ServeNone, ServesNone, ServesNoneOf};

use fab_mapping::{HostGroup, Mapping, StorageGroup};
use fab_mapping_base::are_at_odds;
use fab_names::Name;
use std::alloc::Allocator;

/// Whether some host is in both host groups.
fn have_host<A: Allocator + Copy>(one: &HostGroup<A>, other: &HostGroup<A>) -> bool
    ensures { result ≡ false → HaveNoHost one.now other.now }
{
    for host in one.hosts() {
        if other.has_host(host) {
            return true;
        }
    }
    false
}

/// Whether some host is in the host group and in the one of this name.
fn has_one_of<A: Allocator + Copy>(mapping: &Mapping<A>, hosts: &HostGroup<A>, name: &Name) -> bool
    ensures { result ≡ false → HasNoneOf mapping.now hosts.now name.now }
{
    match mapping.host_group(name) {
        Some(other) => have_host(hosts, other),
        None => false,
    }
}

/// Whether the storage group serves a host of the host group.
fn serves_one<A: Allocator + Copy>(
    mapping: &Mapping<A>,
    group: &StorageGroup<A>,
    hosts: &HostGroup<A>,
) -> bool
    ensures { result ≡ false → ServesNone mapping.now group.now hosts.now }
{
    for name in group.host_groups() {
        if has_one_of(mapping, hosts, name) {
            return true;
        }
    }
    false
}

/// Whether the storage group serves a host of the host group of this name.
fn serves_one_of<A: Allocator + Copy>(
    mapping: &Mapping<A>,
    group: &StorageGroup<A>,
    name: &Name,
) -> bool
    ensures { result ≡ false → ServesNoneOf mapping.now group.now name.now }
{
    match mapping.host_group(name) {
        Some(hosts) => serves_one(mapping, group, hosts),
        None => false,
    }
}

/// Whether both storage groups serve some host.
fn serve_one<A: Allocator + Copy>(
    mapping: &Mapping<A>,
    group: &StorageGroup<A>,
    other: &StorageGroup<A>,
) -> bool
    ensures { result ≡ false → ServeNone mapping.now group.now other.now }
{
    for name in group.host_groups() {
        if serves_one_of(mapping, other, name) {
            return true;
        }
    }
    false
}

/// Whether the other storage group is hidden, or maps no other volume where this one maps one.
fn is_clear_of<A: Allocator + Copy>(
    mapping: &Mapping<A>,
    group: &StorageGroup<A>,
    other: &StorageGroup<A>,
) -> bool
    ensures { IsTrue result → AreClear mapping.now group.now other.now }
{
    if !other.is_exposed() {
        return true;
    }
    if !are_at_odds(group, other) {
        return true;
    }
    !serve_one(mapping, group, other)
}

/// Whether no exposed storage group maps another volume where this one maps one.
fn is_clear<A: Allocator + Copy>(mapping: &Mapping<A>, group: &StorageGroup<A>) -> bool
    ensures { IsTrue result → IsClear mapping.now group.now }
{
    for (_, other) in mapping.groups() {
        if !is_clear_of(mapping, group, other) {
            return false;
        }
    }
    true
}

/// Whether an exposed storage group of this name, if there is one, is clear of the others. It walks
/// once through the storage groups, and takes no memory. Where it says no, that may be so all the same.
pub fn is_clear_at<A: Allocator + Copy>(mapping: &Mapping<A>, name: &Name) -> bool
    ensures { IsTrue result → IsClearAt mapping.now name.now }
{
    let Some(group) = mapping.group(name) else {
        return true;
    };
    if !group.is_exposed() {
        return true;
    }
    is_clear(mapping, group)
}
