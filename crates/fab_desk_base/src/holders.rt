//! Ports, hosts, arrays and volumes, as they are shown.
ghost use Rattle.std.specs.Prelude.{ℕ, List, IfOk, MatchOption};
ghost use Rattle.fab_desk_base.specs.Tenants.{IsHolderOf};
ghost use Rattle.fab_desk_base.specs.declared.command.Query.TheVariants as query;
ghost use Rattle.fab_desk_base.specs.Recorded.{IsFound};

use crate::parts::inventory_in;
use crate::{Shown, ShownHolder};
use fab_reach_base::inventory::{HolderKind, Inventory};
use fab_reach_base::names::{Name, Wwn};
use fab_world::World;
use std::alloc::{AllocError, Allocator};

/// The port of this name, if it is known. It takes no memory.
pub fn port_shown<A: Allocator + Copy>(world: &World<A>, name: &Wwn) -> Option<Shown<A>>
    ensures { IsFound world.now (query.Port name.now) result }
{
    let inventory = inventory_in(world);
    let Some(port) = inventory.port(name) else {
        return None;
    };
    Some(Shown::Port {
        name: *name,
        node: port.node,
        at: port.at,
        address: port.address,
    })
}

/// The tenant of the host or array of this name, if there is one.
pub fn holder_tenant<A: Allocator + Copy>(
    inventory: &Inventory<A>,
    kind: HolderKind,
    name: &Name,
) -> Option<Name>
    ensures { MatchOption result ((tenant : List ℕ) → ¬ IsHolderOf inventory.now kind name.now tenant) (IsHolderOf inventory.now kind name.now) }
{
    let Some(holder) = inventory.holder(name) else {
        return None;
    };
    if holder.kind != kind {
        return None;
    }
    Some(holder.tenant)
}

/// The host or array of this name, with its ports, if it is there.
///
/// # Errors
/// `AllocError` where there is no memory.
pub fn holder_shown<A: Allocator + Copy>(
    world: &World<A>,
    kind: HolderKind,
    name: &Name,
) -> Result<Option<Shown<A>>, AllocError>
    ensures { IfOk result (IsFound world.now (query.Holder kind name.now)) }
{
    let inventory = inventory_in(world);
    let Some(tenant) = holder_tenant(inventory, kind, name) else {
        return Ok(None);
    };
    let ports = inventory.ports_of(name)?;
    Ok(Some(Shown::Holder(ShownHolder {
        kind,
        name: *name,
        tenant,
        ports,
    })))
}

/// The volume of this name, if it is there. It takes no memory.
pub fn volume_shown<A: Allocator + Copy>(world: &World<A>, name: &Name) -> Option<Shown<A>>
    ensures { IsFound world.now (query.Volume name.now) result }
{
    let inventory = inventory_in(world);
    let Some(volume) = inventory.volume(name) else {
        return None;
    };
    Some(Shown::Volume {
        name: *name,
        volume,
    })
}
