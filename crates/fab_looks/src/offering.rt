//! The paths that there would be, were all ports joined: from the ports of a host, by the storage
//! groups that offer it a volume.
ghost use Rattle.std.specs.Prelude.{◌↔◌, map, OnOk, IfOk};
ghost use Rattle.fab_reach_base.specs.Adding.{Adds};
ghost use Rattle.fab_reach_base.specs.Orders.{Has};
ghost use Rattle.fab_reach_base.specs.Views.{seen};
ghost use Rattle.fab_looks.specs.Inner.Offers.{UnitPath, PairPath, TargetPath, NamedPath, GroupPath, AnyPath};
ghost use Rattle.fab_reach_base.specs.declared.path.Path.{Path};

use fab_inventory::Port;
use fab_mapping::StorageGroup;
use fab_names::{Fabric, Name, Wwn};
use fab_reach_base::{Path, View, is_target};
use fab_zoning::is_logged_in_at;
use std::alloc::{AllocError, Allocator};
use std::collections::BTreeSet;

/// Adds the paths of a pair in the fabric to the volume, by the storage group.
fn add_units<A: Allocator + Copy>(
    paths: &mut BTreeSet<Path, A>,
    group: &StorageGroup<A>,
    volume: &Name,
    fabric: Fabric,
    initiator: Wwn,
    target: Wwn,
) -> Result<(), AllocError>
    ensures { OnOk result (Adds (UnitPath fabric initiator target group.now volume.now) (Has paths.old) (Has paths.new)) }
{
    for (unit, there) in group.units() {
        if *there == *volume {
            paths.insert(Path {
                fabric,
                initiator,
                target,
                volume: *volume,
                unit: *unit,
            })?;
        }
    }
    Ok(())
}

/// Adds the paths of a pair to the volume, by the storage group, if both are logged in at one fabric.
fn add_pair<A: Allocator + Copy>(
    paths: &mut BTreeSet<Path, A>,
    group: &StorageGroup<A>,
    volume: &Name,
    q: &Port,
    p: &Port,
) -> Result<(), AllocError>
    ensures { OnOk result (Adds (PairPath group.now volume.now q.now p.now) (Has paths.old) (Has paths.new)) }
{
    let Some((fabric, _)) = p.at else {
        return Ok(());
    };
    if is_logged_in_at(fabric, q) {
        add_units(paths, group, volume, fabric, p.name, q.name)?;
    }
    Ok(())
}

/// Adds the paths from the ports to the target.
fn add_target<A: Allocator + Copy>(
    paths: &mut BTreeSet<Path, A>,
    ports: &[Port],
    group: &StorageGroup<A>,
    volume: &Name,
    q: &Port,
) -> Result<(), AllocError>
    ensures { OnOk result (Adds (TargetPath ports.now group.now volume.now q.now) (Has paths.old) (Has paths.new)) }
{
    for p in ports {
        add_pair(paths, group, volume, q, p)?;
    }
    Ok(())
}

/// Adds the paths from the ports to the port of the name, if an array holds it.
fn add_named<A: Allocator + Copy>(
    paths: &mut BTreeSet<Path, A>,
    view: &View<'_, A>,
    ports: &[Port],
    group: &StorageGroup<A>,
    volume: &Name,
    name: &Wwn,
) -> Result<(), AllocError>
    ensures { OnOk result (Adds (NamedPath (seen view.now) ports.now group.now volume.now name.now) (Has paths.old) (Has paths.new)) }
{
    let Some(q) = view.inventory.port(name) else {
        return Ok(());
    };
    if is_target(view, &q) {
        add_target(paths, ports, group, volume, &q)?;
    }
    Ok(())
}

/// Adds the paths from the ports by the storage group.
fn add_group<A: Allocator + Copy>(
    paths: &mut BTreeSet<Path, A>,
    view: &View<'_, A>,
    ports: &[Port],
    group: &StorageGroup<A>,
    volume: &Name,
) -> Result<(), AllocError>
    ensures { OnOk result (Adds (GroupPath (seen view.now) ports.now volume.now group.now) (Has paths.old) (Has paths.new)) }
{
    for target in group.targets() {
        add_named(paths, view, ports, group, volume, target)?;
    }
    Ok(())
}

/// The paths from the ports by the storage groups, were all ports joined.
pub fn offers<A: Allocator + Copy>(
    alloc: A,
    view: &View<'_, A>,
    ports: &[Port],
    groups: &[&StorageGroup<A>],
    volume: &Name,
) -> Result<BTreeSet<Path, A>, AllocError>
    ensures { IfOk result (λ paths. (x : Path) → Has paths x ↔ AnyPath (seen view.now) ports.now volume.now (map (λ r. r.now) groups.now) x) }
{
    let mut paths = BTreeSet::new(alloc);
    for group in groups {
        add_group(&mut paths, view, ports, group, volume)?;
    }
    Ok(paths)
}
