//! Aliases, zones, zone sets and what is active, as they are shown.
ghost use Rattle.std.specs.Prelude.{IfOk};
ghost use Rattle.fab_desk_base.specs.declared.command.Query.TheVariants as query;
ghost use Rattle.fab_desk_base.specs.Recorded.{IsFound};

use crate::Shown;
use crate::active::active_zones;
use crate::parts::zoning_in;
use fab_reach_base::lemmas::keys_listed;
use fab_reach_base::names::{Fabric, Name};
use fab_world::World;
use std::alloc::{AllocError, Allocator};

/// The alias of this name, with its members, if it is there.
///
/// # Errors
/// `AllocError` where there is no memory.
pub fn alias_shown<A: Allocator + Copy>(
    alloc: A,
    world: &World<A>,
    fabric: Fabric,
    name: &Name,
) -> Result<Option<Shown<A>>, AllocError>
    ensures { IfOk result (IsFound world.now (query.Alias fabric name.now)) }
{
    let zoning = zoning_in(world, fabric);
    let Some(alias) = zoning.alias(name) else {
        return Ok(None);
    };
    let _count = alias.len();
    let members = keys_listed(alloc, alias)?;
    Ok(Some(Shown::Members {
        fabric,
        name: *name,
        members,
    }))
}

/// The zone of this name, with its members, if it is there.
///
/// # Errors
/// `AllocError` where there is no memory.
pub fn zone_shown<A: Allocator + Copy>(
    alloc: A,
    world: &World<A>,
    fabric: Fabric,
    name: &Name,
) -> Result<Option<Shown<A>>, AllocError>
    ensures { IfOk result (IsFound world.now (query.Zone fabric name.now)) }
{
    let zoning = zoning_in(world, fabric);
    let Some(zone) = zoning.zone(name) else {
        return Ok(None);
    };
    let _count = zone.len();
    let members = keys_listed(alloc, zone)?;
    Ok(Some(Shown::Members {
        fabric,
        name: *name,
        members,
    }))
}

/// The zone set of this name, with its zones, if it is there.
///
/// # Errors
/// `AllocError` where there is no memory.
pub fn set_shown<A: Allocator + Copy>(
    alloc: A,
    world: &World<A>,
    fabric: Fabric,
    name: &Name,
) -> Result<Option<Shown<A>>, AllocError>
    ensures { IfOk result (IsFound world.now (query.Set fabric name.now)) }
{
    let zoning = zoning_in(world, fabric);
    let Some(set) = zoning.zone_set(name) else {
        return Ok(None);
    };
    let _count = set.len();
    let zones = keys_listed(alloc, set)?;
    Ok(Some(Shown::Set {
        fabric,
        name: *name,
        zones,
    }))
}

/// What is active in the fabric.
///
/// # Errors
/// `AllocError` where there is no memory.
pub fn active_shown<A: Allocator + Copy>(
    alloc: A,
    world: &World<A>,
    fabric: Fabric,
) -> Result<Option<Shown<A>>, AllocError>
    ensures { IfOk result (IsFound world.now (query.Active fabric)) }
{
    let zoning = zoning_in(world, fabric);
    let zones = active_zones(alloc, zoning)?;
    Ok(Some(Shown::Active {
        fabric,
        active: zoning.active(),
        flag: zoning.flag(),
        zones,
    }))
}
