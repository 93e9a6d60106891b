//! Whose hosts and volumes the paths are that a step gains and loses.
ghost use Rattle.std.specs.Prelude.{OnOk, IfOk, ◌↔◌, ℕ, List};
ghost use Rattle.fab_reach_base.specs.Adding.{Adds};
ghost use Rattle.fab_reach_base.specs.Books.{IsDelta};
ghost use Rattle.fab_reach_base.specs.Views.{seen};
ghost use Rattle.fab_desk_base.specs.Tenants.{Has, IsPathOf};
ghost use Rattle.fab_desk_base.specs.Touching.{MovesPathOf};
ghost use Rattle.fab_desk_trials.specs.Gathered.{IsInitiatorTenant, IsOfSomePath};

use crate::things::{add_holder, add_volume};
use fab_reach_base::inventory::HolderKind;
use fab_reach_base::names::{Name, Wwn};
use fab_reach_base::{Delta, Path, View};
use std::alloc::{AllocError, Allocator};
use std::collections::BTreeSet;

/// Adds the tenant of the host that holds the initiator port of this name, if a host holds it.
fn add_initiator<A: Allocator + Copy>(
    tenants: &mut BTreeSet<Name, A>,
    view: &View<'_, A>,
    initiator: &Wwn,
) -> Result<(), AllocError>
    ensures { OnOk result (Adds (IsInitiatorTenant (seen view.now) initiator.now) (Has tenants.old) (Has tenants.new)) }
{
    let Some(port) = view.inventory.port(initiator) else {
        return Ok(());
    };
    let Some(host) = port.holder else {
        return Ok(());
    };
    add_holder(tenants, view.inventory, HolderKind::Host, &host)?;
    Ok(())
}

/// Adds the tenants of the path's host and of its volume.
fn add_path<A: Allocator + Copy>(
    tenants: &mut BTreeSet<Name, A>,
    view: &View<'_, A>,
    path: &Path,
) -> Result<(), AllocError>
    ensures { OnOk result (Adds (IsPathOf (seen view.now) path.now) (Has tenants.old) (Has tenants.new)) }
{
    add_initiator(tenants, view, &path.initiator)?;
    add_volume(tenants, view.inventory, &path.volume)?;
    Ok(())
}

/// Adds the tenants of the hosts and of the volumes of the paths.
fn add_paths<A: Allocator + Copy>(
    tenants: &mut BTreeSet<Name, A>,
    view: &View<'_, A>,
    paths: &[Path],
) -> Result<(), AllocError>
    ensures { OnOk result (Adds (IsOfSomePath (seen view.now) paths.now) (Has tenants.old) (Has tenants.new)) }
{
    for path in paths {
        add_path(tenants, view, path)?;
    }
    Ok(())
}

/// Adds the tenants of the paths that a step gains, as they are after it, and of those that it loses,
/// as they were before.
fn add_moved<A: Allocator + Copy>(
    tenants: &mut BTreeSet<Name, A>,
    before: &View<'_, A>,
    after: &View<'_, A>,
    delta: &Delta<A>,
) -> Result<(), AllocError>
    requires { IsDelta (seen before.now) (seen after.now) delta.now.gained.items delta.now.lost.items }
    ensures { OnOk result (Adds (MovesPathOf (seen before.now) (seen after.now)) (Has tenants.old) (Has tenants.new)) }
{
    add_paths(tenants, after, &delta.gained)?;
    add_paths(tenants, before, &delta.lost)?;
    Ok(())
}

/// The tenants of the hosts and of the volumes of the paths that a step gains, as they are after it,
/// and of those that it loses, as they were before. A host or a volume that is not there has none.
///
/// # Errors
/// `AllocError` where there is no memory.
pub fn moved_tenants<A: Allocator + Copy>(
    alloc: A,
    before: &View<'_, A>,
    after: &View<'_, A>,
    delta: &Delta<A>,
) -> Result<BTreeSet<Name, A>, AllocError>
    requires { IsDelta (seen before.now) (seen after.now) delta.now.gained.items delta.now.lost.items }
    ensures { IfOk result (λ tenants. (t : List ℕ) → Has tenants t ↔ MovesPathOf (seen before.now) (seen after.now) t) }
{
    let mut tenants = BTreeSet::new(alloc);
    add_moved(&mut tenants, before, after, delta)?;
    Ok(tenants)
}
