//! Who reaches a volume.
ghost use Rattle.std.specs.Prelude.{◌≡◌, count_by, OnOk, IfOk};
ghost use Rattle.fab_reach_base.specs.Orders.{IsListOf};
ghost use Rattle.fab_reach_base.specs.Views.{seen};
ghost use Rattle.fab_looks.specs.Links.{PathTo};
ghost use Rattle.fab_looks.specs.Inner.Gaining.{AddsHost, AddsHosts};
ghost use Rattle.fab_looks.specs.Inner.Serving.{IsIndexTo, AreLoginsAt, AreLoginsOf};
ghost use Rattle.fab_looks.specs.Reachers.{is_in, AreReachers};

use crate::holding::{logins_of, named_ports};
use crate::joining::passable;
use crate::offering::offers;
use crate::serving::{named_groups, served_hosts};
use fab_names::{Fabric, Name, Wwn};
use fab_reach_base::{Path, View, listed};
use std::alloc::{AllocError, Allocator};
use std::collections::{BTreeMap, BTreeSet};

/// How many paths a host has to a volume, at each fabric.
#[derive(Clone, Copy)]
pub struct Counts {
    /// How many over fabric A.
    pub a: usize,
    /// How many over fabric B.
    pub b: usize,
}

/// Whether the path is in the fabric.
fn is_in(fabric: Fabric, path: &Path) -> bool
    ensures { result ≡ is_in fabric path.now }
{
    match fabric {
        Fabric::A => match path.fabric {
            Fabric::A => true,
            Fabric::B => false,
        },
        Fabric::B => match path.fabric {
            Fabric::A => false,
            Fabric::B => true,
        },
    }
}

/// How many of the paths are in the fabric.
pub fn count_at(paths: &[Path], fabric: Fabric) -> usize
    ensures { result ≡ count_by (is_in fabric) paths.now }
{
    paths.iter().filter(|path| is_in(fabric, path)).count()
}

/// The paths of a host to a volume, in order, by the storage groups that the index names at the host,
/// from the ports of these names.
fn paths_to<A: Allocator + Copy>(
    alloc: A,
    view: &View<'_, A>,
    served: &BTreeMap<Name, BTreeSet<Name, A>, A>,
    host: &Name,
    ports: &BTreeSet<Wwn, A>,
    volume: &Name,
) -> Result<Vec<Path, A>, AllocError>
    requires served { IsIndexTo (seen view.now).config.mapping volume.now served.now }
    requires ports { AreLoginsAt (seen view.now) served.now host.now ports.now }
    ensures { IfOk result (λ paths. IsListOf (PathTo (seen view.now) host.now volume.now) paths.items) }
{
    let Some(names) = served.get(host) else {
        return Ok(Vec::new(alloc));
    };
    let groups = named_groups(alloc, view.config.mapping(), names)?;
    let logins = named_ports(alloc, view, ports)?;
    let offers = offers(alloc, view, &logins, &groups, volume)?;
    let paths = passable(alloc, view, &offers)?;
    let _count = paths.len();
    let items = listed(alloc, &paths)?;
    Ok(items)
}

/// Adds the host with its counts, if it has a path to the volume.
fn add_host<A: Allocator + Copy>(
    alloc: A,
    reachers: &mut BTreeMap<Name, Counts, A>,
    view: &View<'_, A>,
    served: &BTreeMap<Name, BTreeSet<Name, A>, A>,
    host: &Name,
    ports: &BTreeSet<Wwn, A>,
    volume: &Name,
) -> Result<(), AllocError>
    requires served { IsIndexTo (seen view.now).config.mapping volume.now served.now }
    requires ports { AreLoginsAt (seen view.now) served.now host.now ports.now }
    ensures { OnOk result (AddsHost (seen view.now) volume.now host.now reachers.old reachers.new) }
{
    let paths = paths_to(alloc, view, served, host, ports, volume)?;
    if paths.is_empty() {
        return Ok(());
    }
    let counts = Counts {
        a: count_at(&paths, Fabric::A),
        b: count_at(&paths, Fabric::B),
    };
    reachers.insert(*host, counts)?;
    Ok(())
}

/// Adds each host that has a path to the volume. It looks at no host but those whose ports are listed.
fn add_hosts<A: Allocator + Copy>(
    alloc: A,
    reachers: &mut BTreeMap<Name, Counts, A>,
    view: &View<'_, A>,
    served: &BTreeMap<Name, BTreeSet<Name, A>, A>,
    logins: &BTreeMap<Name, BTreeSet<Wwn, A>, A>,
    volume: &Name,
) -> Result<(), AllocError>
    requires served { IsIndexTo (seen view.now).config.mapping volume.now served.now }
    requires logins { AreLoginsOf (seen view.now) served.now logins.now }
    ensures { OnOk result (AddsHosts (seen view.now) volume.now reachers.old reachers.new) }
{
    for (host, ports) in logins {
        add_host(alloc, reachers, view, served, host, ports, volume)?;
    }
    Ok(())
}

/// The hosts that reach the volume, by name, each with how many paths it has there at each fabric.
///
/// It walks once through all storage groups and once through all known ports. Beyond that its work
/// goes by what maps the volume: the exposed storage groups that do, the hosts that they serve, and
/// those hosts' ports. It holds the paths of one host at a time.
///
/// # Errors
/// `AllocError` where there is no memory.
pub fn who_reaches<A: Allocator + Copy>(
    alloc: A,
    view: &View<'_, A>,
    volume: &Name,
) -> Result<BTreeMap<Name, Counts, A>, AllocError>
    ensures { IfOk result (AreReachers (seen view.now) volume.now) }
{
    let served = served_hosts(alloc, view.config.mapping(), volume)?;
    let logins = logins_of(alloc, view, &served)?;
    let mut reachers = BTreeMap::new(alloc);
    add_hosts(alloc, &mut reachers, view, &served, &logins, volume)?;
    Ok(reachers)
}
