//! The ends between a host and a volume that a caller may read of.
ghost use Rattle.std.specs.Prelude.{◌↔◌, IsTrue, OnOk, IfOk};
ghost use Rattle.fab_looks_ways.specs.Inner.Gathering.{AreEndsOf, GroupEnds, PortEnds, PortsEnds, TargetEnds, TargetsEnds, GroupsEnds};
ghost use Rattle.fab_looks_ways.specs.Pairs.{HasEnds, IsPair, IsUpAt};
ghost use Rattle.fab_reach_base.specs.Adding.{Adds};
ghost use Rattle.fab_world.specs.Worlds.{records_of};

use crate::ends::Ends;
use crate::groups::own_groups;
use fab_desk_base::{Query, is_open_to};
use fab_looks::serves;
use fab_policy::{CallerId, Policy};
use fab_reach_base::inventory::HolderKind;
use fab_reach_base::mapping::StorageGroup;
use fab_reach_base::names::{Fabric, Name, Wwn};
use fab_reach_base::zoning::is_logged_in_at;
use fab_world::World;
use std::alloc::{AllocError, Allocator};
use std::collections::BTreeSet;

/// Whether the port is known, and logged in at the fabric.
fn is_up_at<A: Allocator + Copy>(world: &World<A>, fabric: Fabric, name: &Wwn) -> bool
    ensures { IsTrue result ↔ IsUpAt (records_of world.now) fabric name.now }
{
    match world.inventory.port(name) {
        Some(port) => is_logged_in_at(fabric, &port),
        None => false,
    }
}

/// Adds the ends, if the initiator is logged in at the fabric.
fn add_port<A: Allocator + Copy>(
    ends: &mut BTreeSet<Ends, A>,
    world: &World<A>,
    fabric: Fabric,
    initiator: Wwn,
    target: Wwn,
) -> Result<(), AllocError>
    ensures { OnOk result (Adds (PortEnds (records_of world.now) fabric target initiator) (HasEnds ends.old) (HasEnds ends.new)) }
{
    if !is_up_at(world, fabric, &initiator) {
        return Ok(());
    }
    ends.insert(Ends {
        fabric,
        initiator,
        target,
    })?;
    Ok(())
}

/// Adds the ends of the target with those of the ports that are logged in at the fabric.
fn add_ports<A: Allocator + Copy>(
    ends: &mut BTreeSet<Ends, A>,
    world: &World<A>,
    fabric: Fabric,
    ports: &[Wwn],
    target: Wwn,
) -> Result<(), AllocError>
    ensures { OnOk result (Adds (PortsEnds (records_of world.now) ports.now fabric target) (HasEnds ends.old) (HasEnds ends.new)) }
{
    for port in ports {
        add_port(ends, world, fabric, *port, target)?;
    }
    Ok(())
}

/// Adds the ends of the target, where it is logged in, with those of the ports that are logged in there.
fn add_target<A: Allocator + Copy>(
    ends: &mut BTreeSet<Ends, A>,
    world: &World<A>,
    ports: &[Wwn],
    target: &Wwn,
) -> Result<(), AllocError>
    ensures { OnOk result (Adds (TargetEnds (records_of world.now) ports.now target.now) (HasEnds ends.old) (HasEnds ends.new)) }
{
    let Some(port) = world.inventory.port(target) else {
        return Ok(());
    };
    let Some((fabric, _)) = port.at else {
        return Ok(());
    };
    add_ports(ends, world, fabric, ports, *target)?;
    Ok(())
}

/// Adds the ends of the targets of the storage group.
fn add_targets<A: Allocator + Copy>(
    ends: &mut BTreeSet<Ends, A>,
    world: &World<A>,
    ports: &[Wwn],
    group: &StorageGroup<A>,
) -> Result<(), AllocError>
    ensures { OnOk result (Adds (TargetsEnds (records_of world.now) ports.now group.now) (HasEnds ends.old) (HasEnds ends.new)) }
{
    for target in group.targets() {
        add_target(ends, world, ports, target)?;
    }
    Ok(())
}

/// Adds the ends of the targets of the storage group of this name, if it serves the host.
fn add_group<A: Allocator + Copy>(
    ends: &mut BTreeSet<Ends, A>,
    world: &World<A>,
    ports: &[Wwn],
    host: &Name,
    name: &Name,
) -> Result<(), AllocError>
    ensures { OnOk result (Adds (GroupEnds (records_of world.now) ports.now host.now name.now) (HasEnds ends.old) (HasEnds ends.new)) }
{
    let mapping = world.config.mapping();
    let Some(group) = mapping.group(name) else {
        return Ok(());
    };
    if !serves(mapping, group, host) {
        return Ok(());
    }
    add_targets(ends, world, ports, group)?;
    Ok(())
}

/// Adds the ends of the targets of those of the storage groups that serve the host.
fn add_groups<A: Allocator + Copy>(
    ends: &mut BTreeSet<Ends, A>,
    world: &World<A>,
    ports: &[Wwn],
    host: &Name,
    names: &BTreeSet<Name, A>,
) -> Result<(), AllocError>
    ensures { OnOk result (Adds (GroupsEnds (records_of world.now) ports.now host.now names.now) (HasEnds ends.old) (HasEnds ends.new)) }
{
    for name in names {
        add_group(ends, world, ports, host, name)?;
    }
    Ok(())
}

/// The ends of the ports of the host and the targets of the caller's storage groups that map the volume
/// and serve the host.
fn ends_between<A: Allocator + Copy>(
    alloc: A,
    policy: &Policy,
    world: &World<A>,
    id: CallerId,
    host: &Name,
    volume: &Name,
) -> Result<BTreeSet<Ends, A>, AllocError>
    ensures { IfOk result (AreEndsOf policy.now world.now id host.now volume.now) }
{
    let ports = world.inventory.ports_of(host)?;
    let names = own_groups(alloc, policy, world, id, volume)?;
    let mut ends = BTreeSet::new(alloc);
    add_groups(&mut ends, world, &ports, host, &names)?;
    Ok(ends)
}

/// The same, where the host and the volume are the caller's; else none.
///
/// # Errors
/// `AllocError` where there is no memory.
pub fn ends_told<A: Allocator + Copy>(
    alloc: A,
    policy: &Policy,
    world: &World<A>,
    id: CallerId,
    host: &Name,
    volume: &Name,
) -> Result<BTreeSet<Ends, A>, AllocError>
    ensures { IfOk result (λ ends. (e : Ends) → HasEnds ends e ↔ IsPair policy.now world.now id host.now volume.now e) }
{
    let of_host = Query::Holder {
        kind: HolderKind::Host,
        name: *host,
    };
    if !is_open_to(policy, world, id, &of_host) {
        return Ok(BTreeSet::new(alloc));
    }
    if !is_open_to(policy, world, id, &Query::Volume { name: *volume }) {
        return Ok(BTreeSet::new(alloc));
    }
    ends_between(alloc, policy, world, id, host, volume)
}
