//! Whether the aliases, zones and zone sets of a fabric are sound.
ghost use Rattle.std.specs.Prelude.{◌≡◌, ◌&&◌, is_some, length, nat_le, IsTrue, ◌↔◌};
ghost use Rattle.std.specs.List.{list_all};
ghost use Rattle.std.specs.BTreeMap.{get, values, IsOrdered};
ghost use Rattle.fab_names.specs.Orders.{name_cmp, member_cmp};
ghost use Rattle.fab_zoning_rows.specs.fab_lemmas.MapsOfSets.{seen_sets};
ghost use Rattle.fab_zoning.specs.Inner.Tests as spec;
ghost use Rattle.fab_zoning.specs.Soundness.{AreSoundDefinitions, IsSoundActive};

use crate::{MOST_ALIASES, MOST_MEMBERS, MOST_SETS, MOST_ZONES};
use fab_names::{Member, Name};
use fab_zoning_rows::{ActiveRows, MOST_ROWS};
use std::alloc::Allocator;
use std::collections::{BTreeMap, BTreeSet};

/// Whether a set is not empty, and not too large.
fn is_listing<K: Ord, A: Allocator>(set: &BTreeSet<K, A>) -> bool
    ensures { result ≡ spec.is_listing K.cmp set.now }
{
    let count = set.len();
    0 < count && count <= MOST_MEMBERS
}

/// Whether no set is empty, and none too large.
fn all_listings<K: Ord, A: Allocator>(sets: &BTreeMap<Name, BTreeSet<K, A>, A>) -> bool
    ensures { result ≡ list_all (spec.is_listing K.cmp) (values sets.now) }
{
    sets.values().all(|set| is_listing(set))
}

/// Whether there are few enough sets, none of them empty and none too large.
fn are_listings<K: Ord, A: Allocator>(sets: &BTreeMap<Name, BTreeSet<K, A>, A>, most: usize) -> bool
    ensures test { result ≡ (nat_le (length sets.now.entries) most && list_all (spec.is_listing K.cmp) (values sets.now)) }
    ensures ordered { IsOrdered name_cmp sets.now }
{
    sets.len() <= most && all_listings(sets)
}

/// Whether the member is no alias.
fn is_plain(member: &Member) -> bool
    ensures { result ≡ spec.is_plain member.now }
{
    match member {
        Member::Alias(_) => false,
        _ => true,
    }
}

/// Whether no member is an alias.
fn all_plain<A: Allocator>(members: &BTreeSet<Member, A>) -> bool
    ensures { result ≡ list_all spec.is_plain members.now.keys }
{
    members.iter().all(|member| is_plain(member))
}

/// Whether no alias holds an alias.
fn are_plain<A: Allocator>(aliases: &BTreeMap<Name, BTreeSet<Member, A>, A>) -> bool
    ensures { result ≡ list_all (λ s. list_all spec.is_plain s.keys) (values aliases.now) }
{
    aliases.values().all(|members| all_plain(members))
}

/// Whether the alias that the member names, if it names one, is there.
fn is_known<A: Allocator>(aliases: &BTreeMap<Name, BTreeSet<Member, A>, A>, member: &Member) -> bool
    ensures { result ≡ spec.names_alias (λ a. is_some (get name_cmp aliases.now a)) member.now }
{
    match member {
        Member::Alias(alias) => aliases.contains_key(alias),
        _ => true,
    }
}

/// Whether each alias that the members name is there.
fn all_known<A: Allocator>(
    aliases: &BTreeMap<Name, BTreeSet<Member, A>, A>,
    members: &BTreeSet<Member, A>,
) -> bool
    ensures { result ≡ list_all (spec.names_alias (λ a. is_some (get name_cmp aliases.now a))) members.now.keys }
{
    members.iter().all(|member| is_known(aliases, member))
}

/// Whether each alias that a zone names is there.
fn know_aliases<A: Allocator>(
    aliases: &BTreeMap<Name, BTreeSet<Member, A>, A>,
    zones: &BTreeMap<Name, BTreeSet<Member, A>, A>,
) -> bool
    ensures { result ≡ list_all (λ s. list_all (spec.names_alias (λ a. is_some (get name_cmp aliases.now a))) s.keys) (values zones.now) }
{
    zones.values().all(|members| all_known(aliases, members))
}

/// Whether each of these zones is there.
fn all_there<A: Allocator>(
    zones: &BTreeMap<Name, BTreeSet<Member, A>, A>,
    names: &BTreeSet<Name, A>,
) -> bool
    ensures { result ≡ list_all (λ z. is_some (get name_cmp zones.now z)) names.now.keys }
{
    names.iter().all(|name| zones.contains_key(name))
}

/// Whether each zone that a set names is there.
fn know_zones<A: Allocator>(
    zones: &BTreeMap<Name, BTreeSet<Member, A>, A>,
    sets: &BTreeMap<Name, BTreeSet<Name, A>, A>,
) -> bool
    ensures { result ≡ list_all (λ s. list_all (λ z. is_some (get name_cmp zones.now z)) s.keys) (values sets.now) }
{
    sets.values().all(|names| all_there(zones, names))
}

/// Whether there are few enough aliases, zones and zone sets, none of them empty.
fn are_listed<A: Allocator>(
    aliases: &BTreeMap<Name, BTreeSet<Member, A>, A>,
    zones: &BTreeMap<Name, BTreeSet<Member, A>, A>,
    sets: &BTreeMap<Name, BTreeSet<Name, A>, A>,
) -> bool
    ensures test { result ≡ spec.are_listed aliases.now zones.now sets.now }
    ensures aliases { IsOrdered name_cmp aliases.now }
    ensures zones { IsOrdered name_cmp zones.now }
    ensures sets { IsOrdered name_cmp sets.now }
{
    let _aliases = aliases.len();
    let _zones = zones.len();
    let _sets = sets.len();
    are_listings(aliases, MOST_ALIASES)
        && (are_listings(zones, MOST_ZONES) && are_listings(sets, MOST_SETS))
}

/// Whether what aliases, zones and zone sets name is there.
fn are_closed<A: Allocator>(
    aliases: &BTreeMap<Name, BTreeSet<Member, A>, A>,
    zones: &BTreeMap<Name, BTreeSet<Member, A>, A>,
    sets: &BTreeMap<Name, BTreeSet<Name, A>, A>,
) -> bool
    ensures { result ≡ spec.are_closed aliases.now zones.now sets.now }
{
    are_plain(aliases) && (know_aliases(aliases, zones) && know_zones(zones, sets))
}

/// Whether aliases, zones and zone sets are sound.
pub fn are_sound<A: Allocator>(
    aliases: &BTreeMap<Name, BTreeSet<Member, A>, A>,
    zones: &BTreeMap<Name, BTreeSet<Member, A>, A>,
    sets: &BTreeMap<Name, BTreeSet<Name, A>, A>,
) -> bool
    ensures { IsTrue result ↔ AreSoundDefinitions (seen_sets name_cmp member_cmp aliases.now.entries) (seen_sets name_cmp member_cmp zones.now.entries) (seen_sets name_cmp name_cmp sets.now.entries) }
{
    if !are_listed(aliases, zones, sets) {
        return false;
    }
    are_closed(aliases, zones, sets)
}

/// Whether an active name and rows are sound.
pub fn is_active_sound<A: Allocator + Copy>(active: Option<Name>, rows: &ActiveRows<A>) -> bool
    ensures { IsTrue result ↔ IsSoundActive active rows.now }
{
    let count = rows.count();
    if let None = active {
        return count == 0;
    }
    if count == 0 || count > MOST_ROWS {
        return false;
    }
    rows.are_plain()
}
