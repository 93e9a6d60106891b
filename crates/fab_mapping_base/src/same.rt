//! Whether two sets, or two tables of units, are the same.
ghost use Rattle.std.specs.Prelude.{◌≡◌, ◌↔◌, IsTrue};
ghost use Rattle.std.specs.FinMap as map;
ghost use Rattle.std.specs.FinSet as set;
ghost use Rattle.std.specs.Ordering.{nat_cmp};
ghost use Rattle.fab_inventory.specs.fab_names.Orders.{name_cmp};

use fab_inventory::names::{Name, Wwn};
use std::alloc::Allocator;
use std::collections::{BTreeMap, BTreeSet};

/// Whether both have the same names. It takes no memory.
pub fn are_same_names<A: Allocator + Copy>(
    one: &BTreeSet<Name, A>,
    other: &BTreeSet<Name, A>,
) -> bool
    ensures { IsTrue result ↔ (set.from_list {R = name_cmp} one.now.keys ≡ set.from_list {R = name_cmp} other.now.keys) }
{
    one.len() == other.len() && one == other
}

/// Whether both have the same ports. It takes no memory.
pub fn are_same_ports<A: Allocator + Copy>(one: &BTreeSet<Wwn, A>, other: &BTreeSet<Wwn, A>) -> bool
    ensures { IsTrue result ↔ (set.from_list {R = nat_cmp} one.now.keys ≡ set.from_list {R = nat_cmp} other.now.keys) }
{
    one.len() == other.len() && one == other
}

/// Whether both have the same units, with the same volumes. It takes no memory.
pub fn are_same_units<A: Allocator + Copy>(
    one: &BTreeMap<u16, Name, A>,
    other: &BTreeMap<u16, Name, A>,
) -> bool
    ensures { IsTrue result ↔ (map.from_entries {R = nat_cmp} one.now.entries ≡ map.from_entries {R = nat_cmp} other.now.entries) }
{
    one.len() == other.len() && one == other
}
