//! Host groups and storage groups, as they are shown.
ghost use Rattle.std.specs.Prelude.{IfOk};
ghost use Rattle.fab_desk_base.specs.declared.command.Query.TheVariants as query;
ghost use Rattle.fab_desk_base.specs.Recorded.{IsFound};

use crate::listed::{names_listed, ports_listed, units_listed};
use crate::parts::mapping_in;
use crate::{Shown, ShownGroup};
use fab_reach_base::mapping::HostGroup;
use fab_reach_base::names::Name;
use fab_world::World;
use std::alloc::{AllocError, Allocator};

/// The host group of this name, with its hosts, if it is there.
///
/// # Errors
/// `AllocError` where there is no memory.
pub fn host_group_shown<A: Allocator + Copy>(
    alloc: A,
    world: &World<A>,
    name: &Name,
) -> Result<Option<Shown<A>>, AllocError>
    ensures { IfOk result (IsFound world.now (query.HostGroup name.now)) }
{
    let mapping = mapping_in(world);
    let Some(group) = mapping.host_group(name) else {
        return Ok(None);
    };
    let hosts = names_listed(alloc, group.hosts())?;
    Ok(Some(Shown::HostGroup {
        name: *name,
        tenant: group.tenant(),
        hosts,
    }))
}

/// The storage group of this name, with its parts, if it is there.
///
/// # Errors
/// `AllocError` where there is no memory.
pub fn group_shown<A: Allocator + Copy>(
    alloc: A,
    world: &World<A>,
    name: &Name,
) -> Result<Option<Shown<A>>, AllocError>
    ensures { IfOk result (IsFound world.now (query.Group name.now)) }
{
    let mapping = mapping_in(world);
    let Some(group) = mapping.group(name) else {
        return Ok(None);
    };
    let host_groups = names_listed(alloc, group.host_groups())?;
    let targets = ports_listed(alloc, group.targets())?;
    let units = units_listed(alloc, group.units())?;
    Ok(Some(Shown::Group(ShownGroup {
        name: *name,
        tenant: group.tenant(),
        array: group.array(),
        exposed: group.is_exposed(),
        host_groups,
        targets,
        units,
    })))
}
