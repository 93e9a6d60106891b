//! Hosts that lose paths.
ghost use Rattle.std.specs.Prelude.{◌↔◌, ℕ, List, OnOk, IfOk};
ghost use Rattle.fab_desk_machine.specs.fab_desk_base.Tenants.{Has};
ghost use Rattle.fab_looks_tries.specs.Hosts.{LosesPath};
ghost use Rattle.fab_looks_tries.specs.Inner.Gathered.{IsHostOfSome};
ghost use Rattle.fab_reach_base.specs.Adding.{Adds};
ghost use Rattle.fab_reach_base.specs.Books.{IsGained};
ghost use Rattle.fab_reach_base.specs.Orders.{IsListOf};
ghost use Rattle.fab_reach_base.specs.Reach.{IsInitiatorOf};
ghost use Rattle.fab_reach_base.specs.Records.{Records};
ghost use Rattle.fab_reach_base.specs.Views.{seen};

use fab_names::{Name, Wwn};
use fab_reach_base::{Path, View, host_of};
use std::alloc::{AllocError, Allocator};
use std::collections::BTreeSet;

/// Adds the host that holds the initiator port of this name, if a host holds it.
fn add_host<A: Allocator + Copy>(
    hosts: &mut BTreeSet<Name, A>,
    view: &View<'_, A>,
    initiator: &Wwn,
) -> Result<(), AllocError>
    ensures { OnOk result (Adds (IsInitiatorOf (seen view.now) initiator.now) (Has hosts.old) (Has hosts.new)) }
{
    let Some(port) = view.inventory.port(initiator) else {
        return Ok(());
    };
    let Some(host) = host_of(view, &port) else {
        return Ok(());
    };
    hosts.insert(host)?;
    Ok(())
}

/// Adds the hosts of the paths.
fn add_hosts<A: Allocator + Copy>(
    hosts: &mut BTreeSet<Name, A>,
    view: &View<'_, A>,
    paths: &[Path],
) -> Result<(), AllocError>
    ensures { OnOk result (Adds (IsHostOfSome (seen view.now) paths.now) (Has hosts.old) (Has hosts.new)) }
{
    for path in paths {
        add_host(hosts, view, &path.initiator)?;
    }
    Ok(())
}

/// The hosts of the paths that are lost, as the world is before.
///
/// # Errors
/// `AllocError` where there is no memory.
pub fn losing_hosts<A: Allocator + Copy>(
    alloc: A,
    before: &View<'_, A>,
    lost: &[Path],
) -> Result<BTreeSet<Name, A>, AllocError>
    ensures { (v : Records) → IsListOf (IsGained v (seen before.now)) lost.now → IfOk result (λ hosts. (h : List ℕ) → Has hosts h ↔ LosesPath (seen before.now) v h) }
{
    let mut hosts = BTreeSet::new(alloc);
    add_hosts(&mut hosts, before, lost)?;
    Ok(hosts)
}
