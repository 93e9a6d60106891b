//! To whom reads are open.
ghost use Rattle.std.specs.Prelude.{◌↔◌, IsTrue, IsSome};
ghost use Rattle.std.specs.FinMap as map;
ghost use Rattle.fab_reach_base.specs.Records.{zoning_at};
ghost use Rattle.fab_desk_base.specs.Showing.{IsOwn, IsOpenTo};
ghost use Rattle.fab_desk_base.specs.Tenants.{holder, volume, host_group, storage_group};

use crate::Query;
use crate::holders::holder_tenant;
use crate::parts::{inventory_in, mapping_in, zoning_in};
use fab_policy::{CallerId, Policy};
use fab_reach_base::inventory::HolderKind;
use fab_reach_base::names::{Fabric, Name, Wwn};
use fab_world::World;
use std::alloc::Allocator;

/// Whether the host or array is there, and is for the caller.
fn is_own_holder<A: Allocator + Copy>(
    policy: &Policy,
    world: &World<A>,
    id: CallerId,
    kind: HolderKind,
    name: &Name,
) -> bool
    ensures { IsTrue result ↔ IsOwn policy.now world.now id (holder kind name.now) }
{
    let Some(tenant) = holder_tenant(inventory_in(world), kind, name) else {
        return false;
    };
    policy.has_tenant(id, &tenant)
}

/// Whether the volume is there, and is for the caller.
fn is_own_volume<A: Allocator + Copy>(
    policy: &Policy,
    world: &World<A>,
    id: CallerId,
    name: &Name,
) -> bool
    ensures { IsTrue result ↔ IsOwn policy.now world.now id (volume name.now) }
{
    let Some(volume) = inventory_in(world).volume(name) else {
        return false;
    };
    policy.has_tenant(id, &volume.tenant)
}

/// Whether the host group is there, and is for the caller.
fn is_own_host_group<A: Allocator + Copy>(
    policy: &Policy,
    world: &World<A>,
    id: CallerId,
    name: &Name,
) -> bool
    ensures { IsTrue result ↔ IsOwn policy.now world.now id (host_group name.now) }
{
    let Some(group) = mapping_in(world).host_group(name) else {
        return false;
    };
    policy.has_tenant(id, &group.tenant())
}

/// Whether the storage group is there, and is for the caller.
fn is_own_group<A: Allocator + Copy>(
    policy: &Policy,
    world: &World<A>,
    id: CallerId,
    name: &Name,
) -> bool
    ensures { IsTrue result ↔ IsOwn policy.now world.now id (storage_group name.now) }
{
    let Some(group) = mapping_in(world).group(name) else {
        return false;
    };
    policy.has_tenant(id, &group.tenant())
}

/// Whether the port is known.
fn is_known<A: Allocator + Copy>(world: &World<A>, name: &Wwn) -> bool
    ensures { IsTrue result ↔ IsSome (map.get world.now.inventory.ports name.now) }
{
    inventory_in(world).port(name).is_some()
}

/// Whether both ports are known.
fn are_known<A: Allocator + Copy>(world: &World<A>, port: &Wwn, other: &Wwn) -> bool
    ensures { IsTrue result ↔ (IsSome (map.get world.now.inventory.ports port.now) × IsSome (map.get world.now.inventory.ports other.now)) }
{
    if !is_known(world, port) {
        return false;
    }
    is_known(world, other)
}

/// Whether the plan is there.
fn has_plan<A: Allocator + Copy>(world: &World<A>, name: &Name) -> bool
    ensures { IsTrue result ↔ IsSome (map.get world.now.plans name.now) }
{
    world.plan(name).is_some()
}

/// Whether the alias is there.
fn has_alias<A: Allocator + Copy>(world: &World<A>, fabric: Fabric, name: &Name) -> bool
    ensures { IsTrue result ↔ IsSome (map.get (zoning_at world.now.config fabric).aliases name.now) }
{
    zoning_in(world, fabric).alias(name).is_some()
}

/// Whether the zone is there.
fn has_zone<A: Allocator + Copy>(world: &World<A>, fabric: Fabric, name: &Name) -> bool
    ensures { IsTrue result ↔ IsSome (map.get (zoning_at world.now.config fabric).zones name.now) }
{
    zoning_in(world, fabric).zone(name).is_some()
}

/// Whether the zone set is there.
fn has_set<A: Allocator + Copy>(world: &World<A>, fabric: Fabric, name: &Name) -> bool
    ensures { IsTrue result ↔ IsSome (map.get (zoning_at world.now.config fabric).sets name.now) }
{
    zoning_in(world, fabric).zone_set(name).is_some()
}

/// Whether what the read asks for is there, and is for the caller: paths, hosts, arrays, volumes
/// and groups are for their tenants, and all else is for everybody. It takes no memory.
pub fn is_open_to<A: Allocator + Copy>(
    policy: &Policy,
    world: &World<A>,
    id: CallerId,
    query: &Query,
) -> bool
    ensures { IsTrue result ↔ IsOpenTo policy.now world.now id query.now }
{
    match query {
        Query::Paths { host } => is_own_holder(policy, world, id, HolderKind::Host, host),
        Query::Joined { port, other } => are_known(world, port, other),
        Query::Port { name } => is_known(world, name),
        Query::Holder { kind, name } => is_own_holder(policy, world, id, *kind, name),
        Query::Volume { name } => is_own_volume(policy, world, id, name),
        Query::HostGroup { name } => is_own_host_group(policy, world, id, name),
        Query::Group { name } => is_own_group(policy, world, id, name),
        Query::Plan { name } => has_plan(world, name),
        Query::Alias { fabric, name } => has_alias(world, *fabric, name),
        Query::Zone { fabric, name } => has_zone(world, *fabric, name),
        Query::Set { fabric, name } => has_set(world, *fabric, name),
        Query::Active { fabric: _ } => true,
    }
}
