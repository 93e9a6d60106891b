//! The things around a port that a caller may read of.
ghost use Rattle.std.specs.Prelude.{OnOk, IfOk};
ghost use Rattle.fab_looks.specs.Inner.Gathered.{Appends, IsTargetedQuery};
ghost use Rattle.fab_looks.specs.PortWays.{AreOfPort, ArePortWay, HolderQuery, IsOwnTarget};
ghost use Rattle.fab_looks.specs.Ways.{AreGroupReads, IsOneAtMost};
ghost use Rattle.fab_world.specs.Soundness.{IsSound};

use crate::rows::answers_to;
use crate::way::add_open;
use crate::zones::add_zones;
use fab_desk_base::{Query, Shown};
use fab_policy::{CallerId, Policy};
use fab_reach_base::mapping::StorageGroup;
use fab_reach_base::names::{Name, Wwn};
use fab_world::World;
use std::alloc::{AllocError, Allocator};

/// Adds the read of the host or the array that holds the port, if one does and the read is open to the
/// caller.
fn add_holder<A: Allocator + Copy>(
    queries: &mut Vec<Query, A>,
    policy: &Policy,
    world: &World<A>,
    id: CallerId,
    port: &Wwn,
) -> Result<(), AllocError>
    ensures { OnOk result (Appends (IsOneAtMost (HolderQuery policy.now world.now id port.now)) queries.old.items queries.new.items) }
{
    let Some(known) = world.inventory.port(port) else {
        return Ok(());
    };
    let Some(name) = known.holder else {
        return Ok(());
    };
    let Some(holder) = world.inventory.holder(&name) else {
        return Ok(());
    };
    let query = Query::Holder {
        kind: holder.kind,
        name,
    };
    add_open(queries, policy, world, id, query)?;
    Ok(())
}

/// Adds the read of the storage group, if the port is a target of it and the read is open to the caller.
fn add_targeted<A: Allocator + Copy>(
    queries: &mut Vec<Query, A>,
    policy: &Policy,
    world: &World<A>,
    id: CallerId,
    port: &Wwn,
    name: Name,
    group: &StorageGroup<A>,
) -> Result<(), AllocError>
    ensures { OnOk result (Appends (IsOneAtMost (IsTargetedQuery policy.now world.now id port.now (name, group.now))) queries.old.items queries.new.items) }
{
    if !group.has_target(port) {
        return Ok(());
    }
    add_open(queries, policy, world, id, Query::Group { name })?;
    Ok(())
}

/// Adds the reads of the storage groups of which the port is a target, if they are open to the caller, in
/// the order of their names.
fn add_all_targeted<A: Allocator + Copy>(
    queries: &mut Vec<Query, A>,
    policy: &Policy,
    world: &World<A>,
    id: CallerId,
    port: &Wwn,
) -> Result<(), AllocError>
    ensures { OnOk result (Appends (AreGroupReads (IsOwnTarget policy.now world.now id port.now)) queries.old.items queries.new.items) }
{
    for (name, group) in world.config.mapping().groups() {
        add_targeted(queries, policy, world, id, port, *name, group)?;
    }
    Ok(())
}

/// The reads that are open to the caller of a port and the things around it, in this order: of the port, of
/// its holder, of the active zones that have it, and of the storage groups of which it is a target.
///
/// # Errors
/// `AllocError` where there is no memory.
fn queries_of<A: Allocator + Copy>(
    alloc: A,
    policy: &Policy,
    world: &World<A>,
    id: CallerId,
    port: &Wwn,
) -> Result<Vec<Query, A>, AllocError>
    ensures { IfOk result (λ queries. AreOfPort policy.now world.now id port.now queries.items) }
{
    let mut queries = Vec::new(alloc);
    add_open(&mut queries, policy, world, id, Query::Port { name: *port })?;
    add_holder(&mut queries, policy, world, id, port)?;
    add_zones(alloc, &mut queries, policy, world, id, port)?;
    add_all_targeted(&mut queries, policy, world, id, port)?;
    Ok(queries)
}

/// What the reads show of a port and the things around it that are the caller's, each once and in this
/// order: the port, its holder, the active zones that have it and are defined, and the storage groups of
/// which it is a target. Nothing, where the port is not known.
///
/// It goes once through the zones of the fabric and once through the storage groups.
///
/// # Errors
/// `AllocError` where there is no memory.
pub fn port_way<A: Allocator + Copy>(
    alloc: A,
    policy: &Policy,
    world: &World<A>,
    id: CallerId,
    port: &Wwn,
) -> Result<Vec<Shown<A>, A>, AllocError>
    requires sound { IsSound world.now }
    ensures { IfOk result (λ rows. ArePortWay policy.now world.now id port.now rows.items) }
{
    let queries = queries_of(alloc, policy, world, id, port)?;
    let rows = answers_to(alloc, world, &queries)?;
    Ok(rows)
}
