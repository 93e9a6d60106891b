//! Where a host would meet two volumes: for each host the exposed storage groups that serve it, and
//! of these each pair, unless another host showed that it gives no host any.
ghost use Rattle.std.specs.Prelude.{◌≡◌, ℕ, map, Some, true, IsTrue, ◌↔◌, IfOk, MatchOption};
ghost use Rattle.std.specs.Option.{option_copied};
ghost use Rattle.std.specs.List.{slice_get};
ghost use Rattle.std.specs.Ordering.{nat_cmp};
ghost use Rattle.std.specs.BTreeMap.{get};
ghost use Rattle.fab_inventory.specs.fab_lemmas.Firsts.{IsFirstWith, lesser};
ghost use Rattle.fab_inventory.specs.fab_lemmas.Adding.{Among};
ghost use Rattle.fab_inventory.specs.fab_names.Orders.{name_cmp};
ghost use Rattle.fab_mapping_base.specs.Nexuses.{nexus_cmp};
ghost use Rattle.fab_mapping_base.specs.Clashes.{AreAtOdds, Maps, IsLeastClashIn, HasNoClashIn};
ghost use Rattle.fab_mapping_base.specs.ClashSearch.{IsShared, IsUnlike, MeetsTwo, IsLeastOf, MeetsAt, AreFine, MeetsIn};

use crate::known_pairs::KnownPairs;
use crate::served::{exposed_of, served_hosts};
use crate::{HostGroup, Nexus, StorageGroup};
use fab_inventory::names::{Name, Wwn};
use std::alloc::{AllocError, Allocator};
use std::collections::{BTreeMap, BTreeSet};

/// The least target port that both storage groups have.
fn shared_target<A: Allocator + Copy>(a: &StorageGroup<A>, b: &StorageGroup<A>) -> Option<Wwn>
    ensures { MatchOption result ((q : ℕ) → ¬ IsShared a.now b.now q) (IsFirstWith nat_cmp (IsShared a.now b.now)) }
{
    for target in a.targets() {
        if b.has_target(target) {
            return Some(*target);
        }
    }
    None
}

/// The least logical unit number at which both storage groups map a volume, and not the same.
fn unlike_unit<A: Allocator + Copy>(a: &StorageGroup<A>, b: &StorageGroup<A>) -> Option<u16>
    ensures { MatchOption result ((u : ℕ) → ¬ IsUnlike a.now b.now u) (IsFirstWith nat_cmp (IsUnlike a.now b.now)) }
{
    for (unit, volume) in a.units() {
        if b.maps_other(*unit, volume) {
            return Some(*unit);
        }
    }
    None
}

/// Whether a host that both storage groups serve would meet two volumes at one target port under one
/// logical unit number. It takes no memory.
pub fn are_at_odds<A: Allocator + Copy>(a: &StorageGroup<A>, b: &StorageGroup<A>) -> bool
    ensures { IsTrue result ↔ AreAtOdds a.now b.now }
{
    if let None = shared_target(a, b) {
        return false;
    }
    match unlike_unit(a, b) {
        Some(_unit) => true,
        None => false,
    }
}

/// The least nexus at which the host meets two volumes, if both storage groups serve it.
fn clash_of<A: Allocator + Copy>(
    host: Name,
    a: &StorageGroup<A>,
    b: &StorageGroup<A>,
) -> Option<Nexus>
    ensures { IsLeastOf (MeetsTwo host a.now b.now) result }
{
    let Some(target) = shared_target(a, b) else {
        return None;
    };
    let Some(unit) = unlike_unit(a, b) else {
        return None;
    };
    Some(Nexus { host, target, unit })
}

/// The lesser of two nexuses, or the one that there is.
fn lesser(a: Option<Nexus>, b: Option<Nexus>) -> Option<Nexus>
    ensures { result ≡ lesser nexus_cmp a b }
{
    fab_inventory::lemmas::lesser(a, b)
}

/// The storage group at a place.
fn group_at<'a, A: Allocator + Copy>(
    groups: &[&'a StorageGroup<A>],
    place: usize,
) -> Option<&'a StorageGroup<A>>
    ensures { option_copied result ≡ slice_get (map (λ r. r.now) groups.now) place }
{
    match groups.get(place) {
        Some(group) => Some(*group),
        None => None,
    }
}

/// The least nexus at which the host meets two volumes by the storage groups at two places. A pair
/// that is known to give none is not looked at again.
fn clash_at<A: Allocator + Copy>(
    host: Name,
    groups: &[&StorageGroup<A>],
    first: usize,
    second: usize,
    known: &mut KnownPairs<A>,
) -> Option<Nexus>
    requires { AreFine (map (λ r. r.now) groups.now) known.old.marks.items }
    ensures least { IsLeastOf (MeetsAt (map (λ r. r.now) groups.now) host first second) result }
    ensures fine { AreFine (map (λ r. r.now) groups.now) known.new.marks.items }
{
    if known.has(first, second) {
        return None;
    }
    let Some(a) = group_at(groups, first) else {
        return None;
    };
    let Some(b) = group_at(groups, second) else {
        return None;
    };
    match clash_of(host, a, b) {
        Some(nexus) => Some(nexus),
        None => {
            known.insert(first, second);
            None
        }
    }
}

/// The least nexus at which the host meets two volumes by the storage group at a place and one at
/// another.
fn clash_with<A: Allocator + Copy>(
    host: Name,
    groups: &[&StorageGroup<A>],
    first: usize,
    places: &BTreeSet<usize, A>,
    known: &mut KnownPairs<A>,
) -> Option<Nexus>
    requires { AreFine (map (λ r. r.now) groups.now) known.old.marks.items }
    ensures least { IsLeastOf (Among nat_cmp places.now (MeetsAt (map (λ r. r.now) groups.now) host first)) result }
    ensures fine { AreFine (map (λ r. r.now) groups.now) known.new.marks.items }
{
    let mut least = None;
    for second in places {
        least = lesser(least, clash_at(host, groups, first, *second, known));
    }
    least
}

/// The least nexus at which the host meets two volumes by the storage groups at two of the places.
fn clash_among<A: Allocator + Copy>(
    host: Name,
    groups: &[&StorageGroup<A>],
    places: &BTreeSet<usize, A>,
    known: &mut KnownPairs<A>,
) -> Option<Nexus>
    requires { AreFine (map (λ r. r.now) groups.now) known.old.marks.items }
    ensures least { IsLeastOf (Among nat_cmp places.now (λ i. Among nat_cmp places.now (MeetsAt (map (λ r. r.now) groups.now) host i))) result }
    ensures fine { AreFine (map (λ r. r.now) groups.now) known.new.marks.items }
{
    let mut least = None;
    for first in places {
        least = lesser(least, clash_with(host, groups, *first, places, known));
    }
    least
}

/// The least nexus at which a host meets two volumes, by the places of the storage groups that
/// serve each host.
fn first_clash<A: Allocator + Copy>(
    groups: &[&StorageGroup<A>],
    served: &BTreeMap<Name, BTreeSet<usize, A>, A>,
    known: &mut KnownPairs<A>,
) -> Option<Nexus>
    requires { AreFine (map (λ r. r.now) groups.now) known.old.marks.items }
    ensures { IsLeastOf (MeetsIn served.now (map (λ r. r.now) groups.now)) result }
{
    for (host, places) in served {
        if let Some(nexus) = clash_among(*host, groups, places, known) {
            return Some(nexus);
        }
    }
    None
}

/// The least nexus at which exposed storage groups name two volumes, if there is one. The same
/// volume there through two groups is no clash.
///
/// # Errors
/// `AllocError` where there is no memory.
pub fn least_clash<A: Allocator + Copy>(
    alloc: A,
    host_groups: &BTreeMap<Name, HostGroup<A>, A>,
    groups: &BTreeMap<Name, StorageGroup<A>, A>,
) -> Result<Option<Nexus>, AllocError>
    ensures { IfOk result (λ clash. MatchOption clash (HasNoClashIn (Maps (get name_cmp host_groups.now) (get name_cmp groups.now))) (IsLeastClashIn (Maps (get name_cmp host_groups.now) (get name_cmp groups.now)))) }
{
    let exposed = exposed_of(alloc, groups)?;
    let groups = exposed.as_slice();
    let served = served_hosts(alloc, host_groups, groups)?;
    let mut known = KnownPairs::new(alloc, groups.len())?;
    Ok(first_clash(groups, &served, &mut known))
}
