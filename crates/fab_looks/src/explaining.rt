//! Why a host reaches a volume, or does not.
ghost use Rattle.std.specs.Prelude.{map, IfOk};
ghost use Rattle.fab_inventory.specs.declared.port.Port.{Port};
ghost use Rattle.fab_names.specs.declared.fabric.Fabric.{Fabric};
ghost use Rattle.fab_reach_base.specs.Views.{seen};
ghost use Rattle.fab_reach_base.specs.declared.path.Path.{Path};
ghost use Rattle.fab_looks.specs.Links.{IsLogin, IsExposedBy, Holds, IsExplained};
ghost use Rattle.fab_looks.specs.declared.link.Link.TheVariants.{Exposed};
ghost use Rattle.fab_looks.specs.Inner.Offers.{AreJust};

use crate::Link;
use crate::finding::{exposed_groups, logins, mapping_groups, serving_groups};
use crate::joining::passable;
use crate::offering::offers;
use fab_inventory::Port;
use fab_mapping::StorageGroup;
use fab_mapping_base::is_host;
use fab_names::Name;
use fab_reach_base::{Path, View, listed};
use std::alloc::{AllocError, Allocator};

/// Whether a host reaches a volume, and why.
#[derive(Drop)]
pub enum Why<A: Allocator + Copy> {
    /// It does, by just these paths, in order.
    Reaches(Vec<Path, A>),
    /// It does not, and this is the first link that is missing.
    Missing(Link),
}

/// The same, where all links to an exposed storage group are there: of the ports of the host that are
/// logged in, and of all such storage groups.
fn explain_offered<A: Allocator + Copy>(
    alloc: A,
    view: &View<'_, A>,
    ports: &[Port],
    groups: &[&StorageGroup<A>],
    host: &Name,
    volume: &Name,
) -> Result<Why<A>, AllocError>
    requires exposed { Holds (seen view.now) host.now volume.now Exposed }
    requires ports { AreJust (λ p. (f : Fabric) × IsLogin (seen view.now) host.now f p) ports.now }
    requires groups { AreJust (IsExposedBy (seen view.now).config.mapping host.now volume.now) (map (λ r. r.now) groups.now) }
    ensures { IfOk result (IsExplained (seen view.now) host.now volume.now) }
{
    let offers = offers(alloc, view, ports, groups, volume)?;
    if offers.is_empty() {
        return Ok(Why::Missing(Link::Met));
    }
    let paths = passable(alloc, view, &offers)?;
    if paths.is_empty() {
        return Ok(Why::Missing(Link::Joined));
    }
    let _count = paths.len();
    let items = listed(alloc, &paths)?;
    Ok(Why::Reaches(items))
}

/// Whether the host reaches the volume, by which paths, or else which link between the two is the
/// first that is missing.
///
/// It goes once through the known ports and once through the storage groups, and then through the
/// ports of the host and the parts of those groups that have the volume. It lists no other path.
///
/// # Errors
/// `AllocError` where there is no memory.
pub fn explain<A: Allocator + Copy>(
    alloc: A,
    view: &View<'_, A>,
    host: &Name,
    volume: &Name,
) -> Result<Why<A>, AllocError>
    ensures { IfOk result (IsExplained (seen view.now) host.now volume.now) }
{
    if !is_host(view.inventory, host) {
        return Ok(Why::Missing(Link::Host));
    }
    let ports = logins(alloc, view, host)?;
    if ports.is_empty() {
        return Ok(Why::Missing(Link::Login));
    }
    if view.inventory.volume(volume).is_none() {
        return Ok(Why::Missing(Link::Volume));
    }
    let mapping = view.config.mapping();
    let mapped = mapping_groups(alloc, mapping, volume)?;
    if mapped.is_empty() {
        return Ok(Why::Missing(Link::Mapped));
    }
    let served = serving_groups(alloc, mapping, &mapped, host)?;
    if served.is_empty() {
        return Ok(Why::Missing(Link::Served));
    }
    let exposed = exposed_groups(alloc, &served)?;
    if exposed.is_empty() {
        return Ok(Why::Missing(Link::Exposed));
    }
    explain_offered(alloc, view, &ports, &exposed, host, volume)
}
