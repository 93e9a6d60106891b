//! The ends of a way from a host to a volume, and the storage groups between them.
ghost use Rattle.std.specs.Prelude.{◌≡◌, ◌↔◌, ℕ, map, true, Contains, IsTrue, IfOk, MatchOption};
ghost use Rattle.fab_names.specs.declared.fabric.Fabric.{Fabric};
ghost use Rattle.fab_inventory.specs.declared.port.Port.{Port};
ghost use Rattle.fab_inventory.specs.Inventories.{IsHost};
ghost use Rattle.fab_mapping_base.specs.Groups.{StorageGroupRows};
ghost use Rattle.fab_reach_base.specs.Views.{seen};
ghost use Rattle.fab_reach_base.specs.Gathering.{Serves, ServesBy};
ghost use Rattle.fab_looks.specs.Links.{IsLogin, IsMappedBy};
ghost use Rattle.fab_looks.specs.Inner.Offers.{AreJust, IsLoggedIn};

use fab_inventory::Port;
use fab_mapping::{Mapping, StorageGroup};
use fab_names::{Name, Wwn};
use fab_reach_base::View;
use std::alloc::{AllocError, Allocator};

/// The port of the name, if it is logged in.
pub fn login_of<A: Allocator + Copy>(view: &View<'_, A>, name: &Wwn) -> Option<Port>
    ensures { MatchOption result ((p : Port) → ¬ IsLoggedIn (seen view.now) name.now p) (IsLoggedIn (seen view.now) name.now) }
{
    let Some(port) = view.inventory.port(name) else {
        return None;
    };
    match port.at {
        Some(_) => Some(port),
        None => None,
    }
}

/// The ports of these names that are logged in.
pub fn logged_in<A: Allocator + Copy>(
    alloc: A,
    view: &View<'_, A>,
    names: &[Wwn],
) -> Result<Vec<Port, A>, AllocError>
    ensures { IfOk result (λ ports. AreJust (λ p. (name : ℕ) × Contains names.now name × IsLoggedIn (seen view.now) name p) ports.items) }
{
    let mut ports = Vec::new(alloc);
    for name in names {
        if let Some(port) = login_of(view, name) {
            ports.push(port)?;
        }
    }
    Ok(ports)
}

/// The ports of the host that are logged in.
pub fn logins<A: Allocator + Copy>(
    alloc: A,
    view: &View<'_, A>,
    host: &Name,
) -> Result<Vec<Port, A>, AllocError>
    requires { IsHost (seen view.now).inventory.holders host.now }
    ensures { IfOk result (λ ports. AreJust (λ p. (f : Fabric) × IsLogin (seen view.now) host.now f p) ports.items) }
{
    let names = view.inventory.ports_of(host)?;
    let ports = logged_in(alloc, view, &names)?;
    Ok(ports)
}

/// Whether the host group of the name has the host.
fn has_host<A: Allocator + Copy>(mapping: &Mapping<A>, hosts: &Name, host: &Name) -> bool
    ensures { IsTrue result ↔ ServesBy mapping.now hosts.now host.now }
{
    match mapping.host_group(hosts) {
        Some(hosts) => hosts.has_host(host),
        None => false,
    }
}

/// Whether one of the storage group's host groups has the host.
pub fn serves<A: Allocator + Copy>(
    mapping: &Mapping<A>,
    group: &StorageGroup<A>,
    host: &Name,
) -> bool
    ensures { IsTrue result ↔ Serves mapping.now group.now host.now }
{
    for hosts in group.host_groups() {
        if has_host(mapping, hosts, host) {
            return true;
        }
    }
    false
}

/// The storage groups that map the volume.
pub fn mapping_groups<'a, A: Allocator + Copy>(
    alloc: A,
    mapping: &'a Mapping<A>,
    volume: &Name,
) -> Result<Vec<&'a StorageGroup<A>, A>, AllocError>
    ensures { IfOk result (λ groups. AreJust (IsMappedBy mapping.now volume.now) (map (λ r. r.now) groups.items)) }
{
    let mut groups = Vec::new(alloc);
    for (_name, group) in mapping.groups() {
        if group.has_volume(volume) {
            groups.push(group)?;
        }
    }
    Ok(groups)
}

/// Those of the storage groups that serve the host.
pub fn serving_groups<'a, A: Allocator + Copy>(
    alloc: A,
    mapping: &Mapping<A>,
    groups: &[&'a StorageGroup<A>],
    host: &Name,
) -> Result<Vec<&'a StorageGroup<A>, A>, AllocError>
    ensures { IfOk result (λ served. AreJust (λ (g : StorageGroupRows). Contains (map (λ r. r.now) groups.now) g × Serves mapping.now g host.now) (map (λ r. r.now) served.items)) }
{
    let mut served = Vec::new(alloc);
    for &group in groups {
        if serves(mapping, group, host) {
            served.push(group)?;
        }
    }
    Ok(served)
}

/// Those of the storage groups that are exposed.
pub fn exposed_groups<'a, A: Allocator + Copy>(
    alloc: A,
    groups: &[&'a StorageGroup<A>],
) -> Result<Vec<&'a StorageGroup<A>, A>, AllocError>
    ensures { IfOk result (λ exposed. AreJust (λ (g : StorageGroupRows). Contains (map (λ r. r.now) groups.now) g × (g.exposed ≡ true)) (map (λ r. r.now) exposed.items)) }
{
    let mut exposed = Vec::new(alloc);
    for &group in groups {
        if group.is_exposed() {
            exposed.push(group)?;
        }
    }
    Ok(exposed)
}
