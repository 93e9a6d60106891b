//! The zones of a port in the active set.
ghost use Rattle.std.specs.Prelude.{◌≡◌, ℕ, List, IsTrue, ◌↔◌, true, false, ◌||◌, MatchOption};
ghost use Rattle.std.specs.Option.{option_copied};
ghost use Rattle.std.specs.BTreeSet.{contains};
ghost use Rattle.fab_inventory.specs.fab_names.Orders.{name_cmp};
ghost use Rattle.fab_inventory.specs.fab_lemmas.MapsOfSets.{in_tree};
ghost use Rattle.fab_zoning_rows.specs.PortZones.{in_zones};
ghost use Rattle.fab_zoning_rows.specs.PortZones.{HasNoCommon, IsLeastCommon};
ghost use Rattle.fab_zoning_rows.specs.Inner.PortZones.{IsLesser};

use fab_inventory::names::Name;
use std::alloc::Allocator;
use std::collections::BTreeSet;

/// The zones that have a port, by what of it they have as a member.
#[derive(Drop)]
pub struct PortZones<'a, A: Allocator> {
    /// The zones with its N_Port_Name.
    pub by_port: Option<&'a BTreeSet<Name, A>>,
    /// The zones with its Node_Name.
    pub by_node: Option<&'a BTreeSet<Name, A>>,
    /// The zones with the place where it is logged in.
    pub by_place: Option<&'a BTreeSet<Name, A>>,
    /// The zones with the address that it has there.
    pub by_address: Option<&'a BTreeSet<Name, A>>,
}

/// Whether the zone is in the set, if there is one.
fn is_in<A: Allocator>(zones: Option<&BTreeSet<Name, A>>, zone: &Name) -> bool
    ensures { result ≡ in_tree name_cmp (option_copied zones.entry) zone.now }
{
    match zones {
        Some(zones) => zones.contains(zone),
        None => false,
    }
}

/// Whether there is no set, or no zone in it.
fn is_bare<A: Allocator>(zones: Option<&BTreeSet<Name, A>>) -> bool
    ensures { IsTrue result ↔ ((z : List ℕ) → in_tree name_cmp (option_copied zones.entry) z ≡ false) }
{
    match zones {
        Some(zones) => zones.is_empty(),
        None => true,
    }
}

/// The first of these zones that the port is in.
fn first_of<'a, A: Allocator>(
    zones: &'a BTreeSet<Name, A>,
    port: &PortZones<'_, A>,
) -> Option<&'a Name>
    ensures { MatchOption (option_copied result) (HasNoCommon (contains name_cmp zones.now) (in_zones port.now)) (IsLeastCommon (contains name_cmp zones.now) (in_zones port.now)) }
{
    for zone in zones {
        if port.contains(zone) {
            return Some(zone);
        }
    }
    None
}

/// The first zone of the set that the port is in, if there is a set.
fn first_in<'a, A: Allocator>(
    zones: Option<&'a BTreeSet<Name, A>>,
    port: &PortZones<'_, A>,
) -> Option<&'a Name>
    ensures { MatchOption (option_copied result) (HasNoCommon (in_tree name_cmp (option_copied zones.entry)) (in_zones port.now)) (IsLeastCommon (in_tree name_cmp (option_copied zones.entry)) (in_zones port.now)) }
{
    match zones {
        Some(zones) => first_of(zones, port),
        None => None,
    }
}

/// The lesser name, or the one that there is.
#[tactic(auto, using(crate::proofs::PortZoneLemmas::lesser_stays))]
fn lesser<'a>(one: Option<&'a Name>, other: Option<&'a Name>) -> Option<&'a Name>
    ensures { IsLesser (option_copied one.entry) (option_copied other.entry) (option_copied result) }
{
    let Some(a) = one else {
        return other;
    };
    let Some(b) = other else {
        return one;
    };
    if b < a { other } else { one }
}

impl<'a, A: Allocator> PortZones<'a, A> {
    /// Whether the zone is one of them.
    pub fn contains(&self, zone: &Name) -> bool
        ensures { result ≡ in_zones self.now zone.now }
    {
        is_in(self.by_port, zone)
            || is_in(self.by_node, zone)
            || is_in(self.by_place, zone)
            || is_in(self.by_address, zone)
    }

    /// Whether there is none.
    pub fn is_empty(&self) -> bool
        ensures { IsTrue result ↔ ((z : List ℕ) → in_zones self.now z ≡ false) }
    {
        is_bare(self.by_port)
            && is_bare(self.by_node)
            && is_bare(self.by_place)
            && is_bare(self.by_address)
    }

    /// The first zone by name that the other port is in too.
    pub fn first_common(&self, other: &PortZones<'_, A>) -> Option<&'a Name>
        ensures { MatchOption (option_copied result) (HasNoCommon (in_zones self.now) (in_zones other.now)) (IsLeastCommon (in_zones self.now) (in_zones other.now)) }
    {
        let by_port = first_in(self.by_port, other);
        let by_node = first_in(self.by_node, other);
        let by_place = first_in(self.by_place, other);
        let by_address = first_in(self.by_address, other);
        lesser(by_port, lesser(by_node, lesser(by_place, by_address)))
    }
}
