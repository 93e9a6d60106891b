//! The patch of a step: of each map of an index, the new sets of those keys whose sets differ.
ghost use Rattle.std.specs.Prelude.{IfOk, OnOk};
ghost use Rattle.std.specs.Ordering.{nat_cmp};
ghost use Rattle.fab_names.specs.Orders.{name_cmp};
ghost use Rattle.fab_zoning.specs.Edits.{IsIn};
ghost use Rattle.fab_reach_base.specs.Adding.{Adds};
ghost use Rattle.fab_reach_base.specs.Books.{IsDelta};
ghost use Rattle.fab_reach_base.specs.Orders.{path_cmp};
ghost use Rattle.fab_reach_base.specs.Records.{Records};
ghost use Rattle.fab_reach_base.specs.Serving.{IsServing};
ghost use Rattle.fab_reach_base.specs.Views.{seen};
ghost use Rattle.fab_reach_books.specs.Pairs.{pair_cmp};
ghost use Rattle.fab_reach_index.specs.Indexes.{IsIndexOf, IsTreeOf, zone_cmp, PortInZone, ZoneHasPort, IsHostServed, IsHeldBy, IsTargetOf, IsHostGroupOf, IsRowOf};
ghost use Rattle.fab_reach_index.specs.Patches.{IsPatchTo, LeadsTo};
ghost use Rattle.fab_reach_moves.specs.Inner.Telling.{IsTold};
ghost use Rattle.fab_reach_moves.specs.Moves.{AreMoved, AreTouched};
ghost use Rattle.fab_reach_pairs.specs.Inner.Rows.{IsRowIn, AreZonesLeft};

use crate::group_maps::{served_after, served_before, targeted_after, targeted_before};
use crate::zone_maps::{zones_after, zones_before};
use fab_names::{Fabric, Name, Wwn};
use fab_reach_base::{Delta, Path, View};
use fab_reach_index::{Index, add_at, regathered, turned};
use fab_reach_moves::{Moved, Told};
use std::alloc::{AllocError, Allocator};
use std::collections::{BTreeMap, BTreeSet};

/// The new sets of zones and of ports.
#[derive(Drop)]
struct ZonePatch<A: Allocator + Copy> {
    zones: BTreeMap<Wwn, BTreeSet<(Fabric, Name), A>, A>,
    ports: BTreeMap<(Fabric, Name), BTreeSet<Wwn, A>, A>,
}

/// The new sets of zones of ports, and of ports of zones.
fn zone_patch<A: Allocator + Copy>(
    alloc: A,
    index: &Index<A>,
    before: &View<'_, A>,
    told: &Told<A>,
    moved: &BTreeSet<Wwn, A>,
) -> Result<ZonePatch<A>, AllocError>
    requires { IsIndexOf (seen before.now) index.now }
    ensures zones { (v : Records) → IsServing v → IsTold (seen before.now) v told.now → AreMoved (seen before.now) v moved.now
        → IfOk result (λ patch. LeadsTo nat_cmp zone_cmp (PortInZone v) patch.zones index.now.zones) }
    ensures ports { (v : Records) → IsServing v → IsTold (seen before.now) v told.now → AreMoved (seen before.now) v moved.now
        → IfOk result (λ patch. LeadsTo zone_cmp nat_cmp (ZoneHasPort v) patch.ports index.now.ports) }
{
    let gone = zones_before(alloc, index, moved)?;
    let come = zones_after(alloc, before, told, moved)?;
    let zones = regathered(alloc, &index.zones, &gone, &come)?;
    let ports = turned_patch(alloc, index, &gone, &come)?;
    Ok(ZonePatch { zones, ports })
}

/// The new sets of ports of zones, by the zones that ports leave and those that they are in then.
fn turned_patch<A: Allocator + Copy>(
    alloc: A,
    index: &Index<A>,
    gone: &BTreeMap<Wwn, BTreeSet<(Fabric, Name), A>, A>,
    come: &BTreeMap<Wwn, BTreeSet<(Fabric, Name), A>, A>,
) -> Result<BTreeMap<(Fabric, Name), BTreeSet<Wwn, A>, A>, AllocError>
    ensures { (w v : Records) → IsTreeOf zone_cmp nat_cmp (ZoneHasPort w) index.now.ports → AreZonesLeft w v gone.now come.now → IfOk result (λ ports. LeadsTo zone_cmp nat_cmp (ZoneHasPort v) ports index.now.ports) }
{
    let gone = turned(alloc, gone)?;
    let come = turned(alloc, come)?;
    let ports = regathered(alloc, &index.ports, &gone, &come)?;
    Ok(ports)
}

/// The new sets of the exposed storage groups of hosts.
///
/// # Errors
/// `AllocError` where there is no memory.
pub fn group_patch<A: Allocator + Copy>(
    alloc: A,
    index: &Index<A>,
    before: &View<'_, A>,
    told: &Told<A>,
    touched: &BTreeSet<Name, A>,
) -> Result<BTreeMap<Name, BTreeSet<Name, A>, A>, AllocError>
    requires { IsIndexOf (seen before.now) index.now }
    ensures { (v : Records) → IsTold (seen before.now) v told.now → AreTouched (seen before.now) v touched.now
        → IfOk result (λ groups. LeadsTo name_cmp name_cmp (IsHostServed v) groups index.now.groups) }
{
    let gone = served_before(alloc, before, touched)?;
    let come = served_after(alloc, before, told, touched)?;
    let groups = regathered(alloc, &index.groups, &gone, &come)?;
    Ok(groups)
}

/// The new sets of the exposed storage groups of targets.
fn target_patch<A: Allocator + Copy>(
    alloc: A,
    index: &Index<A>,
    before: &View<'_, A>,
    told: &Told<A>,
    touched: &BTreeSet<Name, A>,
) -> Result<BTreeMap<Wwn, BTreeSet<Name, A>, A>, AllocError>
    requires { IsIndexOf (seen before.now) index.now }
    ensures { (v : Records) → IsTold (seen before.now) v told.now → AreTouched (seen before.now) v touched.now
        → IfOk result (λ groups. LeadsTo nat_cmp name_cmp (IsTargetOf v) groups index.now.targeted) }
{
    let gone = targeted_before(alloc, before, touched)?;
    let come = targeted_after(alloc, before, told, touched)?;
    let groups = regathered(alloc, &index.targeted, &gone, &come)?;
    Ok(groups)
}

/// The new sets of the ports of holders: of those of whom a port is gone or come.
///
/// # Errors
/// `AllocError` where there is no memory.
pub fn held_patch<A: Allocator + Copy>(
    alloc: A,
    held: &BTreeMap<Name, BTreeSet<Wwn, A>, A>,
    told: &Told<A>,
) -> Result<BTreeMap<Name, BTreeSet<Wwn, A>, A>, AllocError>
    ensures { (w v : Records) → IsTreeOf name_cmp nat_cmp (IsHeldBy w) held.now → IsTold w v told.now → IfOk result (λ sets. LeadsTo name_cmp nat_cmp (IsHeldBy v) sets held.now) }
{
    let sets = regathered(alloc, held, &told.gone.held, &told.come.held)?;
    Ok(sets)
}

/// The new sets of the storage groups of host groups.
fn serving_patch<A: Allocator + Copy>(
    alloc: A,
    index: &Index<A>,
    told: &Told<A>,
) -> Result<BTreeMap<Name, BTreeSet<Name, A>, A>, AllocError>
    ensures { (w v : Records) → IsIndexOf w index.now → IsTold w v told.now → IfOk result (λ serving. LeadsTo name_cmp name_cmp (IsHostGroupOf v) serving index.now.serving) }
{
    let serving = regathered(
        alloc,
        &index.serving,
        &told.gone.serving,
        &told.come.serving,
    )?;
    Ok(serving)
}

/// Adds the paths to those of their pairs.
fn add_rows<A: Allocator + Copy>(
    alloc: A,
    rows: &mut BTreeMap<(Wwn, Wwn), BTreeSet<Path, A>, A>,
    paths: &[Path],
) -> Result<(), AllocError>
    ensures { OnOk result (Adds (λ e. IsRowIn paths.now e.0 e.1) (IsIn pair_cmp path_cmp rows.old) (IsIn pair_cmp path_cmp rows.new)) }
{
    for path in paths {
        add_at(alloc, rows, (path.initiator, path.target), *path)?;
    }
    Ok(())
}

/// The paths by their pairs.
fn rows_in<A: Allocator + Copy>(
    alloc: A,
    paths: &[Path],
) -> Result<BTreeMap<(Wwn, Wwn), BTreeSet<Path, A>, A>, AllocError>
    ensures { IfOk result (IsTreeOf pair_cmp path_cmp (IsRowIn paths.now)) }
{
    let mut rows = BTreeMap::new(alloc);
    add_rows(alloc, &mut rows, paths)?;
    Ok(rows)
}

/// The new sets of the paths of pairs.
fn row_patch<A: Allocator + Copy>(
    alloc: A,
    index: &Index<A>,
    delta: &Delta<A>,
) -> Result<BTreeMap<(Wwn, Wwn), BTreeSet<Path, A>, A>, AllocError>
    ensures { (w v : Records) → IsIndexOf w index.now → IsDelta w v delta.now.gained.items delta.now.lost.items → IfOk result (λ rows. LeadsTo pair_cmp path_cmp (IsRowOf v) rows index.now.rows) }
{
    let gone = rows_in(alloc, delta.lost.as_slice())?;
    let come = rows_in(alloc, delta.gained.as_slice())?;
    let rows = regathered(alloc, &index.rows, &gone, &come)?;
    Ok(rows)
}

/// The new sets of those keys of an index whose sets a step changes, those of hosts' storage groups
/// being known.
///
/// # Errors
/// `AllocError` where there is no memory.
pub fn patch_of<A: Allocator + Copy>(
    alloc: A,
    index: &Index<A>,
    before: &View<'_, A>,
    told: &Told<A>,
    moved: &Moved<A>,
    groups: BTreeMap<Name, BTreeSet<Name, A>, A>,
    delta: &Delta<A>,
) -> Result<Index<A>, AllocError>
    requires { IsIndexOf (seen before.now) index.now }
    ensures { (v : Records) → IsServing v → IsTold (seen before.now) v told.now → AreMoved (seen before.now) v moved.now.ports → AreTouched (seen before.now) v moved.now.groups
        → LeadsTo name_cmp name_cmp (IsHostServed v) groups index.now.groups
        → IsDelta (seen before.now) v delta.now.gained.items delta.now.lost.items → IfOk result (λ patch. IsPatchTo v patch index.now) }
{
    let zoned = zone_patch(alloc, index, before, told, &moved.ports)?;
    let targeted = target_patch(alloc, index, before, told, &moved.groups)?;
    let held = held_patch(alloc, &index.held, told)?;
    let serving = serving_patch(alloc, index, told)?;
    let rows = row_patch(alloc, index, delta)?;
    Ok(Index {
        zones: zoned.zones,
        ports: zoned.ports,
        groups,
        held,
        targeted,
        serving,
        rows,
    })
}
