//! The zones of each port, from a world.
ghost use Rattle.std.specs.Prelude.{◌≡◌, Some, true, IsTrue, OnOk, IfOk};
ghost use Rattle.std.specs.BTreeSet.{contains};
ghost use Rattle.std.specs.Option.{option_copied};
ghost use Rattle.std.specs.Ordering.{nat_cmp};
ghost use Rattle.fab_lemmas.specs.MapsOfSets.{in_tree};
ghost use Rattle.fab_names.specs.Orders.{name_cmp};
ghost use Rattle.fab_zoning.specs.Edits.{IsIn};
ghost use Rattle.fab_reach_base.specs.Adding.{Adds};
ghost use Rattle.fab_reach_base.specs.Serving.{IsServing};
ghost use Rattle.fab_reach_base.specs.Views.{seen};
ghost use Rattle.fab_zoning_rows.specs.PortZones.{in_zones};
ghost use Rattle.fab_reach_books.specs.Affected.{IsInZone};
ghost use Rattle.fab_reach_index.specs.Indexes.{IsTreeOf, zone_cmp, PortInZone};
ghost use Rattle.fab_reach_index.specs.Inner.Placing.{ByZone, ByZones};

use crate::indexing::add_at;
use fab_names::{Fabric, Name, Wwn};
use fab_reach_base::View;
use fab_zoning::is_logged_in_at;
use fab_zoning_rows::PortZones;
use std::alloc::{AllocError, Allocator};
use std::collections::{BTreeMap, BTreeSet};

/// Adds the zones of the fabric to those of the port.
///
/// # Errors
/// `AllocError` where there is no memory: some may have been added.
pub fn add_zones<A: Allocator + Copy>(
    alloc: A,
    zones: &mut BTreeMap<Wwn, BTreeSet<(Fabric, Name), A>, A>,
    port: Wwn,
    fabric: Fabric,
    these: &BTreeSet<Name, A>,
) -> Result<(), AllocError>
    ensures { OnOk result (Adds (ByZones (λ z. IsTrue (contains name_cmp these.now z)) port fabric) (IsIn nat_cmp zone_cmp zones.old) (IsIn nat_cmp zone_cmp zones.new)) }
{
    for zone in these {
        add_at(alloc, zones, port, (fabric, *zone))?;
    }
    Ok(())
}

/// Adds the zones, if there are any.
fn add_some_zones<A: Allocator + Copy>(
    alloc: A,
    zones: &mut BTreeMap<Wwn, BTreeSet<(Fabric, Name), A>, A>,
    port: Wwn,
    fabric: Fabric,
    these: Option<&BTreeSet<Name, A>>,
) -> Result<(), AllocError>
    ensures { OnOk result (Adds (ByZones (λ z. in_tree name_cmp (option_copied these.entry) z ≡ true) port fabric) (IsIn nat_cmp zone_cmp zones.old) (IsIn nat_cmp zone_cmp zones.new)) }
{
    if let Some(these) = these {
        add_zones(alloc, zones, port, fabric, these)?;
    }
    Ok(())
}

/// Adds the zones that have the port.
fn add_port_zones<A: Allocator + Copy>(
    alloc: A,
    zones: &mut BTreeMap<Wwn, BTreeSet<(Fabric, Name), A>, A>,
    port: Wwn,
    fabric: Fabric,
    these: &PortZones<'_, A>,
) -> Result<(), AllocError>
    ensures { OnOk result (Adds (ByZones (λ z. in_zones these.now z ≡ true) port fabric) (IsIn nat_cmp zone_cmp zones.old) (IsIn nat_cmp zone_cmp zones.new)) }
{
    add_some_zones(alloc, zones, port, fabric, these.by_port)?;
    add_some_zones(alloc, zones, port, fabric, these.by_node)?;
    add_some_zones(alloc, zones, port, fabric, these.by_place)?;
    add_some_zones(alloc, zones, port, fabric, these.by_address)?;
    Ok(())
}

/// Adds the zones of the fabric that the port is in.
fn add_zones_at<A: Allocator + Copy>(
    alloc: A,
    zones: &mut BTreeMap<Wwn, BTreeSet<(Fabric, Name), A>, A>,
    view: &View<'_, A>,
    fabric: Fabric,
    name: &Wwn,
) -> Result<(), AllocError>
    requires { IsServing (seen view.now) }
    ensures { OnOk result (Adds (ByZones (λ z. IsInZone (seen view.now) fabric z name.now) name.now fabric) (IsIn nat_cmp zone_cmp zones.old) (IsIn nat_cmp zone_cmp zones.new)) }
{
    let Some(port) = view.inventory.port(name) else {
        return Ok(());
    };
    if !is_logged_in_at(fabric, &port) {
        return Ok(());
    }
    let these = view.config.zoning(fabric).zones_of(&port);
    add_port_zones(alloc, zones, *name, fabric, &these)?;
    Ok(())
}

/// Adds the zones of both fabrics that the port is in.
fn add_zones_of<A: Allocator + Copy>(
    alloc: A,
    zones: &mut BTreeMap<Wwn, BTreeSet<(Fabric, Name), A>, A>,
    view: &View<'_, A>,
    name: &Wwn,
) -> Result<(), AllocError>
    requires { IsServing (seen view.now) }
    ensures { OnOk result (Adds (ByZone (seen view.now) name.now) (IsIn nat_cmp zone_cmp zones.old) (IsIn nat_cmp zone_cmp zones.new)) }
{
    add_zones_at(alloc, zones, view, Fabric::A, name)?;
    add_zones_at(alloc, zones, view, Fabric::B, name)?;
    Ok(())
}

/// The zones of each port.
pub fn zones_of<A: Allocator + Copy>(
    alloc: A,
    view: &View<'_, A>,
) -> Result<BTreeMap<Wwn, BTreeSet<(Fabric, Name), A>, A>, AllocError>
    requires { IsServing (seen view.now) }
    ensures { IfOk result (IsTreeOf nat_cmp zone_cmp (PortInZone (seen view.now))) }
{
    let mut zones = BTreeMap::new(alloc);
    for (name, _known) in view.inventory.ports() {
        add_zones_of(alloc, &mut zones, view, name)?;
    }
    Ok(zones)
}
