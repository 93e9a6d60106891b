//! What reads show but for paths: what the world alone tells.
ghost use Rattle.std.specs.Prelude.{IfOk};
ghost use Rattle.fab_world.specs.Soundness.{IsSound};
ghost use Rattle.fab_desk_base.specs.Recorded.{IsFound};

use crate::groups::{group_shown, host_group_shown};
use crate::holders::{holder_shown, port_shown, volume_shown};
use crate::joined::joined_shown;
use crate::plans::plan_shown;
use crate::zonings::{active_shown, alias_shown, set_shown, zone_shown};
use crate::{Query, Shown};
use fab_world::World;
use std::alloc::{AllocError, Allocator};

/// What a read shows, if what it asks for is there; but for the paths of a host, which the world
/// alone does not tell: of those none. Whether it is for the caller `is_open_to` tells.
///
/// # Errors
/// `AllocError` where there is no memory.
pub fn recorded<A: Allocator + Copy>(
    alloc: A,
    world: &World<A>,
    query: &Query,
) -> Result<Option<Shown<A>>, AllocError>
    requires sound { IsSound world.now }
    ensures { IfOk result (IsFound world.now query.now) }
{
    match query {
        Query::Paths { host: _ } => Ok(None),
        Query::Joined { port, other } => Ok(joined_shown(world, port, other)),
        Query::Port { name } => Ok(port_shown(world, name)),
        Query::Holder { kind, name } => holder_shown(world, *kind, name),
        Query::Volume { name } => Ok(volume_shown(world, name)),
        Query::HostGroup { name } => host_group_shown(alloc, world, name),
        Query::Group { name } => group_shown(alloc, world, name),
        Query::Plan { name } => plan_shown(alloc, world, name),
        Query::Alias { fabric, name } => alias_shown(alloc, world, *fabric, name),
        Query::Zone { fabric, name } => zone_shown(alloc, world, *fabric, name),
        Query::Set { fabric, name } => set_shown(alloc, world, *fabric, name),
        Query::Active { fabric } => active_shown(alloc, world, *fabric),
    }
}
