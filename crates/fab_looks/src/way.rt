//! The things on the way from a host to a volume that a caller may read of.
ghost use Rattle.std.specs.Prelude.{◌≡◌, ◌++◌, ℕ, map, OnOk, IfOk};
ghost use Rattle.fab_desk_base.specs.declared.command.Query.TheVariants as query;
ghost use Rattle.fab_looks.specs.Inner.Gathered.{Appends, AreOfHost, IsMappedQuery};
ghost use Rattle.fab_looks.specs.Ways.{AreGroupReads, AreOfWay, AreWayRows, IsOneAtMost, IsOpenQuery, IsOwnMapping};
ghost use Rattle.fab_world.specs.Soundness.{IsSound};

use crate::rows::answers_to;
use fab_desk_base::{Query, Shown, is_open_to};
use fab_policy::{CallerId, Policy};
use fab_reach_base::inventory::HolderKind;
use fab_reach_base::mapping::StorageGroup;
use fab_reach_base::names::{Name, Wwn};
use fab_world::World;
use std::alloc::{AllocError, Allocator};

/// Adds the read, if it is open to the caller.
pub fn add_open<A: Allocator + Copy>(
    queries: &mut Vec<Query, A>,
    policy: &Policy,
    world: &World<A>,
    id: CallerId,
    query: Query,
) -> Result<(), AllocError>
    ensures { OnOk result (Appends (IsOneAtMost (IsOpenQuery policy.now world.now id query)) queries.old.items queries.new.items) }
{
    if !is_open_to(policy, world, id, &query) {
        return Ok(());
    }
    queries.push(query)?;
    Ok(())
}

/// Adds the reads of ports, in their order.
fn add_ports<A: Allocator + Copy>(
    queries: &mut Vec<Query, A>,
    ports: &[Wwn],
) -> Result<(), AllocError>
    ensures { OnOk result (queries.new.items ≡ queries.old.items ++ map (λ (a : ℕ). query.Port a) ports.now) }
{
    for port in ports {
        queries.push(Query::Port { name: *port })?;
    }
    Ok(())
}

/// Adds the reads of a host and of its ports, if that of the host is open to the caller.
fn add_host<A: Allocator + Copy>(
    queries: &mut Vec<Query, A>,
    policy: &Policy,
    world: &World<A>,
    id: CallerId,
    host: &Name,
) -> Result<(), AllocError>
    ensures { OnOk result (Appends (AreOfHost policy.now world.now id host.now) queries.old.items queries.new.items) }
{
    let query = Query::Holder {
        kind: HolderKind::Host,
        name: *host,
    };
    if !is_open_to(policy, world, id, &query) {
        return Ok(());
    }
    queries.push(query)?;
    let ports = world.inventory.ports_of(host)?;
    add_ports(queries, &ports)?;
    Ok(())
}

/// Adds the read of the storage group, if it maps the volume and the read is open to the caller.
fn add_group<A: Allocator + Copy>(
    queries: &mut Vec<Query, A>,
    policy: &Policy,
    world: &World<A>,
    id: CallerId,
    volume: &Name,
    name: Name,
    group: &StorageGroup<A>,
) -> Result<(), AllocError>
    ensures { OnOk result (Appends (IsOneAtMost (IsMappedQuery policy.now world.now id volume.now (name, group.now))) queries.old.items queries.new.items) }
{
    if !group.has_volume(volume) {
        return Ok(());
    }
    add_open(queries, policy, world, id, Query::Group { name })?;
    Ok(())
}

/// Adds the reads of the storage groups that map the volume, if they are open to the caller, in the order
/// of their names.
fn add_groups<A: Allocator + Copy>(
    queries: &mut Vec<Query, A>,
    policy: &Policy,
    world: &World<A>,
    id: CallerId,
    volume: &Name,
) -> Result<(), AllocError>
    ensures { OnOk result (Appends (AreGroupReads (IsOwnMapping policy.now world.now id volume.now)) queries.old.items queries.new.items) }
{
    for (name, group) in world.config.mapping().groups() {
        add_group(queries, policy, world, id, volume, *name, group)?;
    }
    Ok(())
}

/// The reads that are open to the caller of the things on the way from a host to a volume, in this order:
/// of the host, of the ports that it holds, of the volume, and of the storage groups that map it.
///
/// # Errors
/// `AllocError` where there is no memory.
fn way_queries<A: Allocator + Copy>(
    alloc: A,
    policy: &Policy,
    world: &World<A>,
    id: CallerId,
    host: &Name,
    volume: &Name,
) -> Result<Vec<Query, A>, AllocError>
    ensures { IfOk result (λ queries. AreOfWay policy.now world.now id host.now volume.now queries.items) }
{
    let mut queries = Vec::new(alloc);
    add_host(&mut queries, policy, world, id, host)?;
    let of_volume = Query::Volume { name: *volume };
    add_open(&mut queries, policy, world, id, of_volume)?;
    add_groups(&mut queries, policy, world, id, volume)?;
    Ok(queries)
}

/// What the reads show of the things on the way from a host to a volume that are the caller's, each once
/// and in this order: the host, its ports, the volume, and the storage groups that map it.
///
/// It goes once through the known ports and once through the storage groups.
///
/// # Errors
/// `AllocError` where there is no memory.
pub fn way_rows<A: Allocator + Copy>(
    alloc: A,
    policy: &Policy,
    world: &World<A>,
    id: CallerId,
    host: &Name,
    volume: &Name,
) -> Result<Vec<Shown<A>, A>, AllocError>
    requires sound { IsSound world.now }
    ensures { IfOk result (λ rows. AreWayRows policy.now world.now id host.now volume.now rows.items) }
{
    let queries = way_queries(alloc, policy, world, id, host, volume)?;
    let rows = answers_to(alloc, world, &queries)?;
    Ok(rows)
}
