//! Which exposed storage groups serve each host.
ghost use Rattle.std.specs.Prelude.{◌≡◌, ◌↔◌, ◌<◌, map, Some, true, false, OnOk, IfOk, Contains};
ghost use Rattle.std.specs.FinSet as set;
ghost use Rattle.std.specs.BTreeMap.{get};
ghost use Rattle.fab_inventory.specs.fab_lemmas.Adding.{Adds};
ghost use Rattle.fab_inventory.specs.fab_names.Orders.{name_cmp};
ghost use Rattle.fab_mapping_base.specs.Groups.{StorageGroupRows};
ghost use Rattle.fab_mapping_base.specs.Clashes.{IsExposed};
ghost use Rattle.fab_mapping_base.specs.ClashSearch.{ServesHost, ServesAt, lists};

use crate::{HostGroup, StorageGroup};
use fab_inventory::names::Name;
use std::alloc::{AllocError, Allocator};
use std::collections::{BTreeMap, BTreeSet};

/// The exposed storage groups.
pub fn exposed_of<A: Allocator + Copy>(
    alloc: A,
    groups: &BTreeMap<Name, StorageGroup<A>, A>,
) -> Result<Vec<&StorageGroup<A>, A>, AllocError>
    ensures { IfOk result (λ exposed. (g : StorageGroupRows) → Contains (map (λ r. r.now) exposed.items) g ↔ IsExposed (get name_cmp groups.now) g) }
{
    let mut exposed = Vec::new(alloc);
    for (_name, group) in groups {
        if group.is_exposed() {
            exposed.push(group)?;
        }
    }
    Ok(exposed)
}

/// Adds the place to those of the host.
fn serve<A: Allocator + Copy>(
    alloc: A,
    served: &mut BTreeMap<Name, BTreeSet<usize, A>, A>,
    host: Name,
    place: usize,
) -> Result<(), AllocError>
    ensures { OnOk result (Adds (λ e. e ≡ (host, place)) (lists served.old) (lists served.new)) }
{
    match served.get_mut(&host) {
        Some(places) => {
            places.insert(place)?;
            Ok(())
        }
        None => {
            let mut places = BTreeSet::new(alloc);
            places.insert(place)?;
            served.insert(host, places)?;
            Ok(())
        }
    }
}

/// Adds the place to those of each host of the host group.
fn serve_hosts<A: Allocator + Copy>(
    alloc: A,
    served: &mut BTreeMap<Name, BTreeSet<usize, A>, A>,
    hosts: &HostGroup<A>,
    place: usize,
) -> Result<(), AllocError>
    ensures { OnOk result (Adds (λ e. (set.contains hosts.now.hosts e.0 ≡ true) × (e.1 ≡ place)) (lists served.old) (lists served.new)) }
{
    for host in hosts.hosts() {
        serve(alloc, served, *host, place)?;
    }
    Ok(())
}

/// Adds the place to those of each host that the storage group serves.
fn serve_group<A: Allocator + Copy>(
    alloc: A,
    served: &mut BTreeMap<Name, BTreeSet<usize, A>, A>,
    host_groups: &BTreeMap<Name, HostGroup<A>, A>,
    group: &StorageGroup<A>,
    place: usize,
) -> Result<(), AllocError>
    ensures { OnOk result (Adds (λ e. ServesHost (get name_cmp host_groups.now) group.now e.0 × (e.1 ≡ place)) (lists served.old) (lists served.new)) }
{
    for name in group.host_groups() {
        if let Some(hosts) = host_groups.get(name) {
            serve_hosts(alloc, served, hosts, place)?;
        }
    }
    Ok(())
}

/// The places of the listed storage groups that serve each host.
pub fn served_hosts<A: Allocator + Copy>(
    alloc: A,
    host_groups: &BTreeMap<Name, HostGroup<A>, A>,
    groups: &[&StorageGroup<A>],
) -> Result<BTreeMap<Name, BTreeSet<usize, A>, A>, AllocError>
    ensures { IfOk result (λ served. Adds (ServesAt (get name_cmp host_groups.now) (map (λ r. r.now) groups.now)) (λ _. false) (lists served)) }
{
    let mut served = BTreeMap::new(alloc);
    for place in 0..groups.len() {
        serve_group(alloc, &mut served, host_groups, groups[place], place)?;
    }
    Ok(served)
}
