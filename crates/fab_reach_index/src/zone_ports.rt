//! The ports of each zone, from the zones of each port.
ghost use Rattle.std.specs.Prelude.{OnOk, IfOk};
ghost use Rattle.std.specs.Ordering.{nat_cmp};
ghost use Rattle.fab_zoning.specs.Edits.{IsIn};
ghost use Rattle.fab_reach_base.specs.Adding.{Adds};
ghost use Rattle.fab_reach_base.specs.Records.{Records};
ghost use Rattle.fab_reach_index.specs.Indexes.{IsTreeOf, zone_cmp, PortInZone, ZoneHasPort};
ghost use Rattle.fab_reach_index.specs.Inner.Placing.{ByPortZones};

use crate::indexing::add_at;
use fab_names::{Fabric, Name, Wwn};
use std::alloc::{AllocError, Allocator};
use std::collections::{BTreeMap, BTreeSet};

/// Adds the port to those of its zones.
fn add_port<A: Allocator + Copy>(
    alloc: A,
    ports: &mut BTreeMap<(Fabric, Name), BTreeSet<Wwn, A>, A>,
    port: Wwn,
    zones: &BTreeSet<(Fabric, Name), A>,
) -> Result<(), AllocError>
    ensures { OnOk result (Adds (ByPortZones (port, zones.now)) (IsIn zone_cmp nat_cmp ports.old) (IsIn zone_cmp nat_cmp ports.new)) }
{
    for zone in zones {
        add_at(alloc, ports, *zone, port)?;
    }
    Ok(())
}

/// Adds each port to those of its zones.
fn add_ports<A: Allocator + Copy>(
    alloc: A,
    ports: &mut BTreeMap<(Fabric, Name), BTreeSet<Wwn, A>, A>,
    zones: &BTreeMap<Wwn, BTreeSet<(Fabric, Name), A>, A>,
) -> Result<(), AllocError>
    ensures { OnOk result (Adds (λ e. IsIn nat_cmp zone_cmp zones.now (e.1, e.0)) (IsIn zone_cmp nat_cmp ports.old) (IsIn zone_cmp nat_cmp ports.new)) }
{
    for (port, own) in zones {
        add_port(alloc, ports, *port, own)?;
    }
    Ok(())
}

/// The ports of each zone, from zones of ports.
///
/// # Errors
/// `AllocError` where there is no memory.
pub fn turned<A: Allocator + Copy>(
    alloc: A,
    zones: &BTreeMap<Wwn, BTreeSet<(Fabric, Name), A>, A>,
) -> Result<BTreeMap<(Fabric, Name), BTreeSet<Wwn, A>, A>, AllocError>
    ensures { IfOk result (IsTreeOf zone_cmp nat_cmp (λ z p. IsIn nat_cmp zone_cmp zones.now (p, z))) }
{
    let mut ports = BTreeMap::new(alloc);
    add_ports(alloc, &mut ports, zones)?;
    Ok(ports)
}

/// The ports of each zone, from all zones of all ports.
pub fn ports_of<A: Allocator + Copy>(
    alloc: A,
    zones: &BTreeMap<Wwn, BTreeSet<(Fabric, Name), A>, A>,
) -> Result<BTreeMap<(Fabric, Name), BTreeSet<Wwn, A>, A>, AllocError>
    ensures { (w : Records) → IsTreeOf nat_cmp zone_cmp (PortInZone w) zones.now → IfOk result (IsTreeOf zone_cmp nat_cmp (ZoneHasPort w)) }
{
    let ports = turned(alloc, zones)?;
    Ok(ports)
}
