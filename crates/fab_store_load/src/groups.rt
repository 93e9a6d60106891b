//! Host groups and storage groups, put together from their heads and parts.
ghost use Rattle.std.specs.Prelude.{◌≡◌, List, ℕ, false, IfOk};
ghost use Rattle.std.specs.Option.{option_map};
ghost use Rattle.std.specs.Ordering.{nat_cmp};
ghost use Rattle.std.specs.BTreeMap.{get, is_at};
ghost use Rattle.std.specs.FinMap as map;
ghost use Rattle.fab_names.specs.Orders.{name_cmp};
ghost use Rattle.fab_reach_base.specs.fab_lemmas.MapsOfSets.{seen_set};
ghost use Rattle.fab_store_load.specs.declared.kinds.Head.{Head};
ghost use Rattle.fab_store_load.specs.Assembled.{set_at, map_at, host_group_at, storage_group_at};

use crate::kinds::Head;
use fab_names::{Name, Wwn};
use fab_reach_base::mapping::{HostGroup, StorageGroup};
use fab_reach_base::zoning::Key;
use std::alloc::{AllocError, Allocator};
use std::collections::{BTreeMap, BTreeSet};

/// Takes the set of a name, or an empty one where there is none. It takes no memory.
fn take_set<X: Key, A: Allocator + Copy>(
    alloc: A,
    sets: &mut BTreeMap<Name, BTreeSet<X, A>, A>,
    name: &Name,
) -> BTreeSet<X, A>
    ensures taken { seen_set X.cmp result ≡ set_at X.cmp (get name_cmp sets.old name.now) }
    ensures rest { (q : List ℕ) → is_at (name_cmp name.now) q ≡ false → get name_cmp sets.new q ≡ get name_cmp sets.old q }
{
    match sets.remove(name) {
        Some(set) => set,
        None => BTreeSet::new(alloc),
    }
}

/// Takes the units of a name, or none where there are none. It takes no memory.
fn take_units<A: Allocator + Copy>(
    alloc: A,
    units: &mut BTreeMap<Name, BTreeMap<u16, Name, A>, A>,
    name: &Name,
) -> BTreeMap<u16, Name, A>
    ensures taken { map.from_entries {R = nat_cmp} result.entries ≡ map_at nat_cmp (get name_cmp units.old name.now) }
    ensures rest { (q : List ℕ) → is_at (name_cmp name.now) q ≡ false → get name_cmp units.new q ≡ get name_cmp units.old q }
{
    match units.remove(name) {
        Some(own) => own,
        None => BTreeMap::new(alloc),
    }
}

/// The host groups of these tenants, each with its hosts.
///
/// # Errors
/// `AllocError` where there is no memory.
pub fn host_groups_from<A: Allocator + Copy>(
    alloc: A,
    tenants: &BTreeMap<Name, Name, A>,
    hosts: BTreeMap<Name, BTreeSet<Name, A>, A>,
) -> Result<BTreeMap<Name, HostGroup<A>, A>, AllocError>
    ensures { IfOk result (λ groups. (q : List ℕ) → get name_cmp groups q ≡ option_map (host_group_at hosts q) (get name_cmp tenants.now q)) }
{
    let mut left = hosts;
    let mut groups = BTreeMap::new(alloc);
    for (name, tenant) in tenants {
        let own = take_set(alloc, &mut left, name);
        let group = HostGroup::from_parts(*tenant, own);
        groups.insert(*name, group)?;
    }
    Ok(groups)
}

/// The parts of storage groups, by name.
#[derive(Drop)]
pub struct Parts<A: Allocator + Copy> {
    /// Where their memory is from.
    pub alloc: A,
    /// The host groups that they serve.
    pub served: BTreeMap<Name, BTreeSet<Name, A>, A>,
    /// Their targets.
    pub targets: BTreeMap<Name, BTreeSet<Wwn, A>, A>,
    /// Their volumes by logical unit number.
    pub units: BTreeMap<Name, BTreeMap<u16, Name, A>, A>,
}

/// Takes the parts of a storage group, and makes it of them. It takes no memory.
fn take_group<A: Allocator + Copy>(
    parts: &mut Parts<A>,
    name: &Name,
    head: &Head,
) -> StorageGroup<A>
    ensures group { result ≡ storage_group_at parts.old name.now head.now }
    ensures rest { (q : List ℕ) (h : Head) → is_at (name_cmp name.now) q ≡ false → storage_group_at parts.new q h ≡ storage_group_at parts.old q h }
{
    let served = take_set(parts.alloc, &mut parts.served, name);
    let targets = take_set(parts.alloc, &mut parts.targets, name);
    let units = take_units(parts.alloc, &mut parts.units, name);
    StorageGroup::from_parts(
        head.tenant,
        head.array,
        served,
        targets,
        units,
        head.exposed,
    )
}

/// The storage groups of these heads, each with its parts.
///
/// # Errors
/// `AllocError` where there is no memory.
pub fn storage_groups_from<A: Allocator + Copy>(
    heads: &BTreeMap<Name, Head, A>,
    parts: Parts<A>,
) -> Result<BTreeMap<Name, StorageGroup<A>, A>, AllocError>
    ensures { IfOk result (λ groups. (q : List ℕ) → get name_cmp groups q ≡ option_map (storage_group_at parts q) (get name_cmp heads.now q)) }
{
    let mut left = parts;
    let mut groups = BTreeMap::new(left.alloc);
    for (name, head) in heads {
        let group = take_group(&mut left, name, head);
        groups.insert(*name, group)?;
    }
    Ok(groups)
}
