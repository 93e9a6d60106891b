//! The zones of a port.
ghost use Rattle.std.specs.Prelude.{◌≡◌, ◌++◌, OnOk};
ghost use Rattle.fab_looks.specs.Inner.Gathered.{Appends, zone_reads};
ghost use Rattle.fab_looks.specs.PortWays.{AreZoneReads, IsOwnZone};

use crate::listing::{Kind, list};
use fab_desk_base::Query;
use fab_policy::{CallerId, Policy};
use fab_reach_base::names::{Fabric, Name, Wwn};
use fab_reach_base::zoning::rows::PortZones;
use fab_world::World;
use std::alloc::{AllocError, Allocator};
use std::collections::BTreeSet;

/// Adds the reads of those of the zones that a port is in, in the order of the names.
fn add_those<A: Allocator + Copy>(
    queries: &mut Vec<Query, A>,
    zones: &PortZones<'_, A>,
    fabric: Fabric,
    names: &BTreeSet<Name, A>,
) -> Result<(), AllocError>
    ensures { OnOk result (queries.new.items ≡ queries.old.items ++ zone_reads zones.now fabric names.now.keys) }
{
    for name in names {
        if zones.contains(name) {
            queries.push(Query::Zone {
                fabric,
                name: *name,
            })?;
        }
    }
    Ok(())
}

/// Adds the reads of the active zones that have the port where it is logged in, in the order of their names,
/// if they are open to the caller: they are where a zone of this name is defined.
pub fn add_zones<A: Allocator + Copy>(
    alloc: A,
    queries: &mut Vec<Query, A>,
    policy: &Policy,
    world: &World<A>,
    id: CallerId,
    name: &Wwn,
) -> Result<(), AllocError>
    ensures { OnOk result (Appends (AreZoneReads (IsOwnZone policy.now world.now id name.now)) queries.old.items queries.new.items) }
{
    let Some(port) = world.inventory.port(name) else {
        return Ok(());
    };
    let Some((fabric, _)) = port.at else {
        return Ok(());
    };
    let names = list(alloc, policy, world, id, Kind::Zones(fabric))?;
    let _count = names.len();
    let zones = world.config.zoning(fabric).zones_of(&port);
    add_those(queries, &zones, fabric, &names)?;
    Ok(())
}
