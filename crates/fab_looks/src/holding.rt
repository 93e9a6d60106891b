//! The ports that are logged in, by the hosts that hold them.
ghost use Rattle.std.specs.Prelude.{ℕ, OnOk, IfOk};
ghost use Rattle.fab_reach_base.specs.Adding.{Adds};
ghost use Rattle.fab_reach_base.specs.Views.{seen};
ghost use Rattle.fab_looks.specs.Inner.Offers.{AreJust};
ghost use Rattle.fab_looks.specs.Inner.Serving.{ListsPort, ByLogin, AreLoginsOf, IsPortNamedBy};

use crate::finding::{logged_in, login_of};
use fab_inventory::Port;
use fab_names::{Name, Wwn};
use fab_reach_base::{View, host_of};
use fab_zoning::put_in_tree;
use std::alloc::{AllocError, Allocator};
use std::collections::{BTreeMap, BTreeSet};

/// Puts the port of the name under the host that holds it, if it is logged in and the host is one
/// of those that are served.
fn add_login<A: Allocator + Copy>(
    alloc: A,
    logins: &mut BTreeMap<Name, BTreeSet<Wwn, A>, A>,
    view: &View<'_, A>,
    served: &BTreeMap<Name, BTreeSet<Name, A>, A>,
    name: &Wwn,
) -> Result<(), AllocError>
    ensures { OnOk result (Adds (ByLogin (seen view.now) served.now name.now) (ListsPort logins.old) (ListsPort logins.new)) }
{
    let Some(port) = login_of(view, name) else {
        return Ok(());
    };
    let Some(host) = host_of(view, &port) else {
        return Ok(());
    };
    if served.contains_key(&host) {
        put_in_tree(alloc, logins, host, *name)?;
    }
    Ok(())
}

/// The names of the ports that are logged in, under the hosts that hold them, of those hosts that
/// are served. It walks once through all known ports.
pub fn logins_of<A: Allocator + Copy>(
    alloc: A,
    view: &View<'_, A>,
    served: &BTreeMap<Name, BTreeSet<Name, A>, A>,
) -> Result<BTreeMap<Name, BTreeSet<Wwn, A>, A>, AllocError>
    ensures { IfOk result (AreLoginsOf (seen view.now) served.now) }
{
    let mut logins = BTreeMap::new(alloc);
    for (name, _known) in view.inventory.ports() {
        add_login(alloc, &mut logins, view, served, name)?;
    }
    Ok(logins)
}

/// The ports of these names that are logged in.
pub fn named_ports<A: Allocator + Copy>(
    alloc: A,
    view: &View<'_, A>,
    names: &BTreeSet<Wwn, A>,
) -> Result<Vec<Port, A>, AllocError>
    ensures { IfOk result (λ ports. AreJust (IsPortNamedBy (seen view.now) names.now) ports.items) }
{
    let names: Vec<Wwn, A> = names.iter().copied().collect(alloc)?;
    let ports = logged_in(alloc, view, &names)?;
    Ok(ports)
}
