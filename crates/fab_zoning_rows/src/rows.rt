//! The rows of the active set, kept by member.
ghost use Rattle.std.specs.Prelude.{◌≡◌, ℕ, ◌≤◌, ◌+◌, ◌↔◌, List, true, min, cond, OnOk, OnErr, IfOk, IsTrue, not};
ghost use Rattle.std.specs.FinSet as set;
ghost use Rattle.std.specs.Map.{keys_of};
ghost use Rattle.std.specs.List.Sorted.{IsStrictlySortedBy};
ghost use Rattle.std.specs.BTreeMap.{IsOrdered, IsUnchanged};
ghost use Rattle.std.specs.Option.{option_copied};
ghost use Rattle.fab_inventory.specs.fab_names.Orders.{name_cmp, member_cmp};
ghost use Rattle.fab_zoning_rows.specs.Limits.{most_rows};
ghost use Rattle.fab_inventory.specs.fab_lemmas.Lists.{IsListOf};
ghost use Rattle.fab_inventory.specs.fab_lemmas.MapsOfSets.{in_tree};
ghost use Rattle.fab_zoning_rows.specs.Rows.{Row, row_cmp, IsRowOf, IsPlain};
ghost use Rattle.fab_zoning_rows.specs.Views.{seen_rows};
ghost use Rattle.fab_zoning_rows.specs.PortZones.{in_zones};
ghost use Rattle.fab_zoning_rows.specs.Holding.{Holds, address_member, has_row, place_member};

use crate::by_zone::rows_by_zone;
use crate::port_zones::PortZones;
use fab_inventory::Port;
use fab_inventory::names::{Member, Name};
use std::alloc::{AllocError, Allocator};
use std::collections::btree_map::Iter;
use std::collections::{BTreeMap, BTreeSet};
use std::marker::Model;

/// How many rows may be active.
pub const MOST_ROWS: usize = 65536;

/// The rows (zone, member) of an active set. A contract sees their set.
///
/// They are kept as the zones of each member, so that the zones of a port are found by its names,
/// its place and its address, however many rows there are.
#[derive(Drop)]
pub struct ActiveRows<A: Allocator + Copy> {
    alloc: A,
    zones_by_member: BTreeMap<Member, BTreeSet<Name, A>, A>,
    /// How many rows there are, counted no further than one past the limit.
    count: usize,
}

impl<A: Allocator + Copy> Model for ActiveRows<A> {
    ghost use Rattle.std.specs.Prelude.{◌≡◌, ◌+◌, min};
    ghost use Rattle.std.specs.FinSet as set;
    ghost use Rattle.std.specs.BTreeMap.{IsOrdered};
    ghost use Rattle.fab_inventory.specs.fab_names.Orders.{name_cmp, member_cmp};
    ghost use Rattle.fab_zoning_rows.specs.Limits.{most_rows};
    ghost use Rattle.fab_zoning_rows.specs.Rows.{Rows, row_code};
    ghost use Rattle.fab_zoning_rows.specs.Views.{seen_rows};

    ghost Value = { Rows };

    ghost coded = { set.code row_code };

    ghost view = { λ a. seen_rows a.zones_by_member.entries };

    ghost invariant = { λ a. IsOrdered member_cmp a.zones_by_member × (a.count ≡ min (set.len (seen_rows a.zones_by_member.entries)) (most_rows + 1)) };
}

/// Adds the zone to those of the member, and says whether it is new there.
fn add_zone<A: Allocator + Copy>(
    alloc: A,
    zones_by_member: &mut BTreeMap<Member, BTreeSet<Name, A>, A>,
    member: Member,
    zone: Name,
) -> Result<bool, AllocError>
    ensures is_new { IfOk result (λ is_new. is_new ≡ not (set.contains (seen_rows zones_by_member.old.entries) (zone, member))) }
    ensures ok { OnOk result (seen_rows zones_by_member.new.entries ≡ set.insert (seen_rows zones_by_member.old.entries) (zone, member)) }
    ensures err { OnErr result (IsUnchanged zones_by_member.old zones_by_member.new) }
    ensures ordered { IsOrdered member_cmp zones_by_member.new }
{
    match zones_by_member.get_mut(&member) {
        Some(zones) => Ok(zones.insert(zone)?),
        None => {
            let mut zones = BTreeSet::new(alloc);
            zones.insert(zone)?;
            zones_by_member.insert(member, zones)?;
            Ok(true)
        }
    }
}

/// Takes the zone out of those of the member, and says whether it was there.
fn remove_zone<A: Allocator + Copy>(
    zones_by_member: &mut BTreeMap<Member, BTreeSet<Name, A>, A>,
    member: &Member,
    zone: &Name,
) -> bool
    ensures was { result ≡ set.contains (seen_rows zones_by_member.old.entries) (zone.now, member.now) }
    ensures removed { seen_rows zones_by_member.new.entries ≡ set.remove (seen_rows zones_by_member.old.entries) (zone.now, member.now) }
    ensures ordered { IsOrdered member_cmp zones_by_member.new }
{
    match zones_by_member.get_mut(member) {
        Some(zones) => zones.remove(zone),
        None => false,
    }
}

/// One more, counted no further than one past the limit, if there is one more.
fn one_more(count: usize, is_new: bool) -> usize
    requires { count ≤ most_rows + 1 }
    ensures { result ≡ min (cond is_new (count + 1) count) (most_rows + 1) }
{
    if is_new && count <= MOST_ROWS {
        count + 1
    } else {
        count
    }
}

/// The member that stands for the port by its place, where the port is logged in.
pub fn place_member(port: &Port) -> Option<Member>
    ensures { result ≡ place_member port.now }
{
    match port.at {
        Some((_, place)) => Some(Member::Place(place)),
        None => None,
    }
}

/// The member that stands for the port by its address, where it has one.
pub fn address_member(port: &Port) -> Option<Member>
    ensures { result ≡ address_member port.now }
{
    match port.address {
        Some(address) => Some(Member::Address(address)),
        None => None,
    }
}

/// Whether the member is an alias.
fn is_alias(member: &Member) -> bool
    ensures { IsTrue result ↔ ¬ IsPlain member.now }
{
    match member {
        Member::Alias(_) => true,
        _ => false,
    }
}

/// How many rows there are, counted no further than one past the limit.
fn count_rows<A: Allocator>(zones_by_member: &BTreeMap<Member, BTreeSet<Name, A>, A>) -> usize
    ensures count { result ≡ min (set.len (seen_rows zones_by_member.now.entries)) (most_rows + 1) }
    ensures ordered { IsOrdered member_cmp zones_by_member.now }
{
    let mut count = 0;
    for (_, zones) in zones_by_member {
        let more = zones.len();
        if more > MOST_ROWS - count {
            return MOST_ROWS + 1;
        }
        count += more;
    }
    count
}

/// Whether no row has an alias.
fn have_no_alias<A: Allocator>(zones_by_member: &BTreeMap<Member, BTreeSet<Name, A>, A>) -> bool
    ensures { IsTrue result ↔ ((r : Row) → set.contains (seen_rows zones_by_member.now.entries) r ≡ true → IsPlain r.1) }
{
    for (member, zones) in zones_by_member {
        if is_alias(member) && !zones.is_empty() {
            return false;
        }
    }
    true
}

impl<A: Allocator + Copy> ActiveRows<A> {
    /// No row.
    pub fn new(alloc: A) -> Self
        ensures { result ≡ set.empty }
    {
        ActiveRows {
            alloc,
            zones_by_member: BTreeMap::new(alloc),
            count: 0,
        }
    }

    /// The rows that have these zones at each member.
    pub fn from_zones(alloc: A, zones_by_member: BTreeMap<Member, BTreeSet<Name, A>, A>) -> Self
        ensures { result ≡ seen_rows zones_by_member.entries }
    {
        let count = count_rows(&zones_by_member);
        ActiveRows {
            alloc,
            zones_by_member,
            count,
        }
    }

    /// How many rows there are, counted no further than one past the limit.
    pub fn count(&self) -> usize
        ensures { result ≡ min (set.len self.now) (most_rows + 1) }
    {
        self.count
    }

    /// The zones of each member, in the order of the members.
    pub fn zones_by_member(&self) -> Iter<'_, Member, BTreeSet<Name, A>>
        ensures rows { seen_rows result ≡ self.now }
        ensures ordered { IsStrictlySortedBy member_cmp (keys_of result) }
    {
        self.zones_by_member.iter()
    }

    /// The rows, by zone and then by member.
    ///
    /// # Errors
    /// `AllocError` where there is no memory.
    pub fn by_zone(&self) -> Result<BTreeSet<(Name, Member), A>, AllocError>
        ensures { IfOk result (λ rows. IsListOf row_cmp (IsRowOf self.now) rows.keys) }
    {
        rows_by_zone(self.alloc, &self.zones_by_member)
    }

    /// Whether no row has an alias.
    pub fn are_plain(&self) -> bool
        ensures { IsTrue result ↔ ((r : Row) → set.contains self.now r ≡ true → IsPlain r.1) }
    {
        have_no_alias(&self.zones_by_member)
    }

    /// Adds a row, if it is not there.
    ///
    /// # Errors
    /// `AllocError` where there is no memory. The rows are then as they were.
    pub fn put(&mut self, zone: Name, member: Member) -> Result<(), AllocError>
        ensures ok { OnOk result (self.new ≡ set.insert self.old (zone, member)) }
        ensures err { OnErr result (self.new ≡ self.old) }
    {
        let is_new = add_zone(self.alloc, &mut self.zones_by_member, member, zone)?;
        self.count = one_more(self.count, is_new);
        Ok(())
    }

    /// Takes a row out, if it is there. It takes no memory. Where there are more rows than there may
    /// be, they are counted anew.
    pub fn take(&mut self, zone: &Name, member: &Member)
        ensures { self.new ≡ set.remove self.old (zone.now, member.now) }
    {
        if remove_zone(&mut self.zones_by_member, member, zone) {
            if self.count <= MOST_ROWS {
                self.count -= 1;
            } else {
                self.count = count_rows(&self.zones_by_member);
            }
        }
    }

    /// Whether the row is there.
    pub fn contains(&self, zone: &Name, member: &Member) -> bool
        ensures { result ≡ set.contains self.now (zone.now, member.now) }
    {
        match self.zones_by_member.get(member) {
            Some(zones) => zones.contains(zone),
            None => false,
        }
    }

    /// The zones that have the member, if one has it.
    pub fn zones_with(&self, member: &Member) -> Option<&BTreeSet<Name, A>>
        ensures { (z : List ℕ) → in_tree name_cmp (option_copied result) z ≡ set.contains self.now (z, member.now) }
    {
        self.zones_by_member.get(member)
    }

    /// The zones that have the member, if there is a member and one has it.
    fn zones_at(&self, member: Option<Member>) -> Option<&BTreeSet<Name, A>>
        ensures { (z : List ℕ) → in_tree name_cmp (option_copied result) z ≡ has_row self.now z member }
    {
        let Some(member) = member else {
            return None;
        };
        self.zones_with(&member)
    }

    /// The zones that have the port.
    pub fn zones_of<'a>(&'a self, port: &Port) -> PortZones<'a, A>
        ensures { (z : List ℕ) → (in_zones result z ≡ true) ↔ Holds self.now port.now z }
    {
        PortZones {
            by_port: self.zones_with(&Member::Port(port.name)),
            by_node: self.zones_with(&Member::Node(port.node)),
            by_place: self.zones_at(place_member(port)),
            by_address: self.zones_at(address_member(port)),
        }
    }

    /// Equal rows.
    ///
    /// # Errors
    /// `AllocError` where there is no memory.
    pub fn copy(&self) -> Result<ActiveRows<A>, AllocError>
        ensures { IfOk result (λ copy. copy ≡ self.now) }
    {
        let zones_by_member = self.zones_by_member.clone()?;
        Ok(ActiveRows {
            alloc: self.alloc,
            zones_by_member,
            count: self.count,
        })
    }
}
