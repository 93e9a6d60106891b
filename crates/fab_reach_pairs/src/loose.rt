//! The pairs that default zones joined or might have joined before a step.
ghost use Rattle.std.specs.Prelude.{◌≡◌, ◌↔◌, ℕ, List, true, false, OnOk, IfOk, IsTrue};
ghost use Rattle.fab_zoning_rows.specs.Holding.{Holds};
ghost use Rattle.fab_reach_base.specs.Adding.{Adds};
ghost use Rattle.fab_reach_base.specs.Gathering.{IsTargeted};
ghost use Rattle.fab_reach_base.specs.Serving.{IsServing};
ghost use Rattle.fab_reach_base.specs.Views.{seen};
ghost use Rattle.fab_reach_books.specs.Inner.Sets.{HasPairIn, HasPortIn};
ghost use Rattle.fab_reach_index.specs.Indexes.{IsIndexOf};
ghost use Rattle.fab_reach_books.specs.Inner.Moving.{IsOffered};
ghost use Rattle.fab_reach_index.specs.Inner.Holding.{HoldsIn};
ghost use Rattle.fab_reach_pairs.specs.Inner.Offering.{IsLoose};

use crate::offers::add_with_initiator;
use fab_inventory::Port;
use fab_names::{Fabric, Name, Wwn};
use fab_reach_base::{View, targets_of};
use fab_reach_index::Index;
use fab_zoning::{Zoning, is_logged_in_at};
use std::alloc::{AllocError, Allocator};
use std::collections::BTreeSet;

/// Whether no zone of the active set has the port, wherever it is logged in.
fn is_unzoned<A: Allocator + Copy>(zoning: &Zoning<A>, port: &Port) -> bool
    ensures { IsTrue result ↔ ((z : List ℕ) → ¬ Holds zoning.now.rows port.now z) }
{
    let zones = zoning.zones_of(port);
    zones.is_empty()
}

/// Whether the port is logged in at the fabric, and in none of its zones.
fn is_loose<A: Allocator + Copy>(view: &View<'_, A>, fabric: Fabric, name: &Wwn) -> bool
    requires { IsServing (seen view.now) }
    ensures { IsTrue result ↔ IsLoose (seen view.now) fabric name.now }
{
    let Some(port) = view.inventory.port(name) else {
        return false;
    };
    if !is_logged_in_at(fabric, &port) {
        return false;
    }
    is_unzoned(view.config.zoning(fabric), &port)
}

/// Adds the port if it is loose.
fn add_if_loose<A: Allocator + Copy>(
    loose: &mut BTreeSet<Wwn, A>,
    view: &View<'_, A>,
    fabric: Fabric,
    port: &Wwn,
) -> Result<(), AllocError>
    requires { IsServing (seen view.now) }
    ensures { OnOk result (Adds (λ p. (p ≡ port.now) × IsLoose (seen view.now) fabric p) (HasPortIn loose.old) (HasPortIn loose.new)) }
{
    if is_loose(view, fabric, port) {
        loose.insert(*port)?;
    }
    Ok(())
}

/// Adds those of the ports that are loose.
fn add_loose<A: Allocator + Copy>(
    loose: &mut BTreeSet<Wwn, A>,
    view: &View<'_, A>,
    fabric: Fabric,
    ports: &BTreeSet<Wwn, A>,
) -> Result<(), AllocError>
    requires { IsServing (seen view.now) }
    ensures { OnOk result (Adds (λ p. HasPortIn ports.now p × IsLoose (seen view.now) fabric p) (HasPortIn loose.old) (HasPortIn loose.new)) }
{
    for port in ports {
        add_if_loose(loose, view, fabric, port)?;
    }
    Ok(())
}

/// Those of the ports that are loose.
fn loose_among<A: Allocator + Copy>(
    alloc: A,
    view: &View<'_, A>,
    fabric: Fabric,
    ports: &BTreeSet<Wwn, A>,
) -> Result<BTreeSet<Wwn, A>, AllocError>
    requires { IsServing (seen view.now) }
    ensures { IfOk result (λ loose. (p : ℕ) → HasPortIn loose p ↔ (HasPortIn ports.now p × IsLoose (seen view.now) fabric p)) }
{
    let mut loose = BTreeSet::new(alloc);
    add_loose(&mut loose, view, fabric, ports)?;
    Ok(loose)
}

/// Adds the pairs of each of the initiators with each of the targets.
pub fn add_product<A: Allocator + Copy>(
    pairs: &mut BTreeSet<(Wwn, Wwn), A>,
    initiators: &BTreeSet<Wwn, A>,
    targets: &BTreeSet<Wwn, A>,
) -> Result<(), AllocError>
    ensures { OnOk result (Adds (λ e. HasPortIn initiators.now e.0 × HasPortIn targets.now e.1) (HasPairIn pairs.old) (HasPairIn pairs.new)) }
{
    for port in initiators {
        add_with_initiator(pairs, *port, targets)?;
    }
    Ok(())
}

/// Adds the loose pairs of a host's ports that these storage groups offer.
fn add_of_host<A: Allocator + Copy>(
    alloc: A,
    pairs: &mut BTreeSet<(Wwn, Wwn), A>,
    index: &Index<A>,
    view: &View<'_, A>,
    fabric: Fabric,
    host: &Name,
    groups: &BTreeSet<Name, A>,
) -> Result<(), AllocError>
    requires { IsServing (seen view.now) }
    ensures { OnOk result (Adds (λ e. HoldsIn index.now.held host.now e.0 × IsTargeted (seen view.now).config.mapping groups.now e.1 × IsLoose (seen view.now) fabric e.0 × IsLoose (seen view.now) fabric e.1) (HasPairIn pairs.old) (HasPairIn pairs.new)) }
{
    let Some(ports) = index.held.get(host) else {
        return Ok(());
    };
    let initiators = loose_among(alloc, view, fabric, ports)?;
    let offered = targets_of(alloc, view.config.mapping(), groups)?;
    let targets = loose_among(alloc, view, fabric, &offered)?;
    add_product(pairs, &initiators, &targets)?;
    Ok(())
}

/// Adds the loose pairs that were offered.
fn add_loose_pairs<A: Allocator + Copy>(
    alloc: A,
    pairs: &mut BTreeSet<(Wwn, Wwn), A>,
    index: &Index<A>,
    view: &View<'_, A>,
    fabric: Fabric,
) -> Result<(), AllocError>
    requires { IsServing (seen view.now) × IsIndexOf (seen view.now) index.now }
    ensures { OnOk result (Adds (λ e. IsOffered (seen view.now) e.0 e.1 × IsLoose (seen view.now) fabric e.0 × IsLoose (seen view.now) fabric e.1) (HasPairIn pairs.old) (HasPairIn pairs.new)) }
{
    for (host, groups) in &index.groups {
        add_of_host(alloc, pairs, index, view, fabric, host, groups)?;
    }
    Ok(())
}

/// Adds the pairs of the fabric that were offered and have no zone, if the flag is set.
///
/// # Errors
/// `AllocError` where there is no memory for the pairs: some of them may be there.
pub fn add_if_flagged<A: Allocator + Copy>(
    alloc: A,
    pairs: &mut BTreeSet<(Wwn, Wwn), A>,
    index: &Index<A>,
    view: &View<'_, A>,
    fabric: Fabric,
    flag: bool,
) -> Result<(), AllocError>
    requires { IsServing (seen view.now) × IsIndexOf (seen view.now) index.now }
    ensures { OnOk result (Adds (λ e. (flag ≡ true) × IsOffered (seen view.now) e.0 e.1 × IsLoose (seen view.now) fabric e.0 × IsLoose (seen view.now) fabric e.1) (HasPairIn pairs.old) (HasPairIn pairs.new)) }
{
    if flag {
        add_loose_pairs(alloc, pairs, index, view, fabric)?;
    }
    Ok(())
}
