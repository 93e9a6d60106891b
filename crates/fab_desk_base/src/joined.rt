//! Whether two ports may communicate, as it is shown.
ghost use Rattle.fab_reach_base.specs.Soundness.{HasSoundZonings};
ghost use Rattle.fab_world.specs.Soundness.{IsSound};
ghost use Rattle.fab_world.specs.Worlds.{records_of};
ghost use Rattle.fab_desk_base.specs.Showing.{IsJoint};
ghost use Rattle.fab_desk_base.specs.declared.command.Query.TheVariants as query;
ghost use Rattle.fab_desk_base.specs.Recorded.{IsFound};

use crate::parts::{inventory_in, zoning_in};
use crate::{Joint, Shown};
use fab_reach_base::inventory::Port;
use fab_reach_base::names::Wwn;
use fab_reach_base::zoning::Why;
use fab_world::World;
use std::alloc::Allocator;

/// Why the ports may communicate, or that they may not. It takes no memory.
fn joint<A: Allocator + Copy>(world: &World<A>, one: &Port, other: &Port) -> Option<Joint>
    requires own { HasSoundZonings world.now.config }
    ensures { IsJoint (records_of world.now) one.now other.now result }
{
    let Some((fabric, _)) = one.at else {
        return None;
    };
    match zoning_in(world, fabric).joined(one, other) {
        Some(Why::Zone(zone)) => Some(Joint::Zone(*zone)),
        Some(Why::Default) => Some(Joint::Default),
        None => None,
    }
}

/// Why the ports of these names may communicate, if both are known. It takes no memory.
pub fn joined_shown<A: Allocator + Copy>(
    world: &World<A>,
    port: &Wwn,
    other: &Wwn,
) -> Option<Shown<A>>
    requires sound { IsSound world.now }
    ensures { IsFound world.now (query.Joined port.now other.now) result }
{
    let inventory = inventory_in(world);
    let Some(one) = inventory.port(port) else {
        return None;
    };
    let Some(two) = inventory.port(other) else {
        return None;
    };
    Some(Shown::Joined(joint(world, &one, &two)))
}
