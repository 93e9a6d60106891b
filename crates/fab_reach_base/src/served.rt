//! Which exposed storage groups serve a host.
ghost use Rattle.std.specs.Prelude.{◌≡◌, OnOk, IfOk};
ghost use Rattle.std.specs.FinSet as set;
ghost use Rattle.std.specs.Prelude.{true};
ghost use Rattle.fab_reach_base.specs.Adding.{Adds};
ghost use Rattle.fab_reach_base.specs.Gathering.{Lists, Serves, IsIndexOf};

use fab_mapping::base::names::Name;
use fab_mapping::{HostGroup, Mapping, StorageGroup};
use fab_zoning::put_in_tree;
use std::alloc::{AllocError, Allocator};
use std::collections::{BTreeMap, BTreeSet};

/// Adds the storage group to those of each host of the host group.
fn serve_hosts<A: Allocator + Copy>(
    alloc: A,
    served: &mut BTreeMap<Name, BTreeSet<Name, A>, A>,
    hosts: &HostGroup<A>,
    group: Name,
) -> Result<(), AllocError>
    ensures { OnOk result (Adds (λ e. (set.contains hosts.now.hosts e.0 ≡ true) × (e.1 ≡ group)) (Lists served.old) (Lists served.new)) }
{
    for host in hosts.hosts() {
        put_in_tree(alloc, served, *host, group)?;
    }
    Ok(())
}

/// Adds the storage group to those of each host that it serves.
///
/// # Errors
/// `AllocError` where there is no memory: some of the hosts may have it then.
pub fn serve_group<A: Allocator + Copy>(
    alloc: A,
    served: &mut BTreeMap<Name, BTreeSet<Name, A>, A>,
    mapping: &Mapping<A>,
    name: Name,
    group: &StorageGroup<A>,
) -> Result<(), AllocError>
    ensures { OnOk result (Adds (λ e. Serves mapping.now group.now e.0 × (e.1 ≡ name)) (Lists served.old) (Lists served.new)) }
{
    for hosts in group.host_groups() {
        if let Some(hosts) = mapping.host_group(hosts) {
            serve_hosts(alloc, served, hosts, name)?;
        }
    }
    Ok(())
}

/// Adds the storage group to those of each host that it serves, if it is exposed.
#[tactic(auto, using(crate::proofs::Services::if_exposed, crate::proofs::Services::hidden_adds_none))]
fn serve_exposed<A: Allocator + Copy>(
    alloc: A,
    served: &mut BTreeMap<Name, BTreeSet<Name, A>, A>,
    mapping: &Mapping<A>,
    name: Name,
    group: &StorageGroup<A>,
) -> Result<(), AllocError>
    ensures { OnOk result (Adds (λ e. (group.now.exposed ≡ true) × Serves mapping.now group.now e.0 × (e.1 ≡ name)) (Lists served.old) (Lists served.new)) }
{
    if group.is_exposed() {
        serve_group(alloc, served, mapping, name, group)?;
    }
    Ok(())
}

/// The exposed storage groups that serve each host.
///
/// # Errors
/// `AllocError` where there is no memory.
pub fn served_hosts<A: Allocator + Copy>(
    alloc: A,
    mapping: &Mapping<A>,
) -> Result<BTreeMap<Name, BTreeSet<Name, A>, A>, AllocError>
    ensures { IfOk result (IsIndexOf mapping.now) }
{
    let mut served = BTreeMap::new(alloc);
    for (name, group) in mapping.groups() {
        serve_exposed(alloc, &mut served, mapping, *name, group)?;
    }
    Ok(served)
}
