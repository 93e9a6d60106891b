//! The zones that moved ports were in, and those that they are in after a step.
ghost use Rattle.std.specs.Prelude.{◌≡◌, ◌↔◌, ℕ, List, true, IfOk, OnOk};
ghost use Rattle.std.specs.FinSet as set;
ghost use Rattle.std.specs.Ordering.{nat_cmp};
ghost use Rattle.fab_zoning.specs.Edits.{IsIn};
ghost use Rattle.fab_reach_base.specs.Adding.{Adds};
ghost use Rattle.fab_reach_base.specs.Records.{Records, zoning_at};
ghost use Rattle.fab_reach_base.specs.Serving.{IsServing};
ghost use Rattle.fab_reach_base.specs.Views.{seen};
ghost use Rattle.fab_reach_books.specs.Inner.Sets.{HasName, HasPortIn};
ghost use Rattle.fab_reach_index.specs.Indexes.{IsTreeOf, zone_cmp, PortInZone};
ghost use Rattle.fab_reach_index.specs.Inner.Placing.{ByZone, ByZones};
ghost use Rattle.fab_reach_moves.specs.Inner.Telling.{IsTold};
ghost use Rattle.fab_zoning_rows.specs.Holding.{has_row};

use fab_names::{Fabric, Member, Name, Wwn};
use fab_reach_base::View;
use fab_reach_index::{Index, add_all_at, add_some_left, add_zones};
use fab_reach_moves::{Told, port_after};
use fab_zoning_rows::address_member;
use std::alloc::{AllocError, Allocator};
use std::collections::{BTreeMap, BTreeSet};

/// Adds the zones of a port, as the index has them.
fn add_zones_before<A: Allocator + Copy>(
    alloc: A,
    zones: &mut BTreeMap<Wwn, BTreeSet<(Fabric, Name), A>, A>,
    index: &Index<A>,
    port: &Wwn,
) -> Result<(), AllocError>
    ensures { OnOk result (Adds (λ e. (e.0 ≡ port.now) × IsIn nat_cmp zone_cmp index.now.zones e) (IsIn nat_cmp zone_cmp zones.old) (IsIn nat_cmp zone_cmp zones.new)) }
{
    if let Some(own) = index.zones.get(port) {
        add_all_at(alloc, zones, *port, own)?;
    }
    Ok(())
}

/// Adds the zones of each of the ports, as the index has them.
fn add_all_before<A: Allocator + Copy>(
    alloc: A,
    zones: &mut BTreeMap<Wwn, BTreeSet<(Fabric, Name), A>, A>,
    index: &Index<A>,
    ports: &BTreeSet<Wwn, A>,
) -> Result<(), AllocError>
    ensures { OnOk result (Adds (λ e. HasPortIn ports.now e.0 × IsIn nat_cmp zone_cmp index.now.zones e) (IsIn nat_cmp zone_cmp zones.old) (IsIn nat_cmp zone_cmp zones.new)) }
{
    for port in ports {
        add_zones_before(alloc, zones, index, port)?;
    }
    Ok(())
}

/// The zones of each of the ports, as the index has them.
pub fn zones_before<A: Allocator + Copy>(
    alloc: A,
    index: &Index<A>,
    ports: &BTreeSet<Wwn, A>,
) -> Result<BTreeMap<Wwn, BTreeSet<(Fabric, Name), A>, A>, AllocError>
    ensures { IfOk result (IsTreeOf nat_cmp zone_cmp (λ p z. HasPortIn ports.now p × IsIn nat_cmp zone_cmp index.now.zones (p, z))) }
{
    let mut zones = BTreeMap::new(alloc);
    add_all_before(alloc, &mut zones, index, ports)?;
    Ok(zones)
}

/// The active zones of the fabric that have the member after the step.
fn zones_with<A: Allocator + Copy>(
    alloc: A,
    before: &View<'_, A>,
    told: &Told<A>,
    fabric: Fabric,
    member: &Member,
) -> Result<BTreeSet<Name, A>, AllocError>
    ensures { (v : Records) → IsTold (seen before.now) v told.now
        → IfOk result (λ zones. (z : List ℕ) → HasName zones z ↔ (set.contains (zoning_at v.config fabric).rows (z, member.now) ≡ true)) }
{
    let mut zones = BTreeSet::new(alloc);
    let key = (fabric, *member);
    let here = before.config.zoning(fabric).active_zones_with(member);
    add_some_left(&mut zones, told.gone.zoned.get(&key), here)?;
    add_some_left(&mut zones, None, told.come.zoned.get(&key))?;
    Ok(zones)
}

/// Adds the active zones of the fabric that have the member after the step to those of the port.
fn add_zones_with<A: Allocator + Copy>(
    alloc: A,
    zones: &mut BTreeMap<Wwn, BTreeSet<(Fabric, Name), A>, A>,
    before: &View<'_, A>,
    told: &Told<A>,
    at: &(Wwn, Fabric),
    member: &Member,
) -> Result<(), AllocError>
    ensures { (v : Records) → IsTold (seen before.now) v told.now
        → OnOk result (Adds (ByZones (λ z. set.contains (zoning_at v.config at.now.1).rows (z, member.now) ≡ true) at.now.0 at.now.1) (IsIn nat_cmp zone_cmp zones.old) (IsIn nat_cmp zone_cmp zones.new)) }
{
    let these = zones_with(alloc, before, told, at.1, member)?;
    add_zones(alloc, zones, at.0, at.1, &these)?;
    Ok(())
}

/// Adds the active zones of the fabric that have the member after the step to those of the port, if
/// there is a member.
fn add_some_zones_with<A: Allocator + Copy>(
    alloc: A,
    zones: &mut BTreeMap<Wwn, BTreeSet<(Fabric, Name), A>, A>,
    before: &View<'_, A>,
    told: &Told<A>,
    at: &(Wwn, Fabric),
    member: Option<Member>,
) -> Result<(), AllocError>
    ensures { (v : Records) → IsTold (seen before.now) v told.now
        → OnOk result (Adds (ByZones (λ z. has_row (zoning_at v.config at.now.1).rows z member ≡ true) at.now.0 at.now.1) (IsIn nat_cmp zone_cmp zones.old) (IsIn nat_cmp zone_cmp zones.new)) }
{
    let Some(member) = member else {
        return Ok(());
    };
    add_zones_with(alloc, zones, before, told, at, &member)
}

/// Adds the zones that the port is in after the step.
fn add_zones_after<A: Allocator + Copy>(
    alloc: A,
    zones: &mut BTreeMap<Wwn, BTreeSet<(Fabric, Name), A>, A>,
    before: &View<'_, A>,
    told: &Told<A>,
    name: &Wwn,
) -> Result<(), AllocError>
    ensures { (v : Records) → IsServing v → IsTold (seen before.now) v told.now
        → OnOk result (Adds (ByZone v name.now) (IsIn nat_cmp zone_cmp zones.old) (IsIn nat_cmp zone_cmp zones.new)) }
{
    let Some(port) = port_after(before, told, name) else {
        return Ok(());
    };
    let Some((fabric, place)) = port.at else {
        return Ok(());
    };
    let at = (*name, fabric);
    add_zones_with(alloc, zones, before, told, &at, &Member::Port(port.name))?;
    add_zones_with(alloc, zones, before, told, &at, &Member::Node(port.node))?;
    add_zones_with(alloc, zones, before, told, &at, &Member::Place(place))?;
    add_some_zones_with(alloc, zones, before, told, &at, address_member(&port))?;
    Ok(())
}

/// Adds the zones that each of the ports is in after the step.
fn add_all_after<A: Allocator + Copy>(
    alloc: A,
    zones: &mut BTreeMap<Wwn, BTreeSet<(Fabric, Name), A>, A>,
    before: &View<'_, A>,
    told: &Told<A>,
    ports: &BTreeSet<Wwn, A>,
) -> Result<(), AllocError>
    ensures { (v : Records) → IsServing v → IsTold (seen before.now) v told.now
        → OnOk result (Adds (λ e. HasPortIn ports.now e.0 × PortInZone v e.0 e.1) (IsIn nat_cmp zone_cmp zones.old) (IsIn nat_cmp zone_cmp zones.new)) }
{
    for port in ports {
        add_zones_after(alloc, zones, before, told, port)?;
    }
    Ok(())
}

/// The zones that each of the ports is in after the step.
pub fn zones_after<A: Allocator + Copy>(
    alloc: A,
    before: &View<'_, A>,
    told: &Told<A>,
    ports: &BTreeSet<Wwn, A>,
) -> Result<BTreeMap<Wwn, BTreeSet<(Fabric, Name), A>, A>, AllocError>
    ensures { (v : Records) → IsServing v → IsTold (seen before.now) v told.now
        → IfOk result (IsTreeOf nat_cmp zone_cmp (λ p z. HasPortIn ports.now p × PortInZone v p z)) }
{
    let mut zones = BTreeMap::new(alloc);
    add_all_after(alloc, &mut zones, before, told, ports)?;
    Ok(zones)
}
