//! The pairs of storage groups that a step touches.
ghost use Rattle.std.specs.Prelude.{◌≡◌, ◌↔◌, ℕ, List, true, IsTrue, OnOk, IfOk};
ghost use Rattle.fab_reach_base.specs.Adding.{Adds};
ghost use Rattle.fab_reach_base.specs.Records.{Records};
ghost use Rattle.fab_reach_base.specs.Views.{seen};
ghost use Rattle.fab_reach_books.specs.Inner.Sets.{HasPairIn, HasName, HasPortIn};
ghost use Rattle.fab_reach_index.specs.Indexes.{IsHeldBy, IsIndexOf};
ghost use Rattle.fab_reach.specs.Inner.Regrouping.{IsPortOf, AreOffered, IsOfferedOtherwise};
ghost use Rattle.fab_reach_moves.specs.Inner.Telling.{IsTold};

use fab_names::{Name, Wwn};
use fab_reach_base::View;
use fab_reach_index::Index;
use fab_reach_moves::{
    Told, add_held_after, has_same_units, hosts_after, is_exposed_after, targets_after,
    targets_before,
};
use fab_reach_pairs::served_ports;
use std::alloc::{AllocError, Allocator};
use std::collections::BTreeSet;

/// The initiators and the targets of the pairs that a storage group offers, if it is exposed.
#[derive(Drop)]
struct Offering<A: Allocator + Copy> {
    ports: BTreeSet<Wwn, A>,
    targets: BTreeSet<Wwn, A>,
}

/// Adds the ports that the hosts hold after the step.
fn add_ports_after<A: Allocator + Copy>(
    ports: &mut BTreeSet<Wwn, A>,
    index: &Index<A>,
    told: &Told<A>,
    hosts: &BTreeSet<Name, A>,
) -> Result<(), AllocError>
    ensures { (w v : Records) → IsIndexOf w index.now → IsTold w v told.now
        → OnOk result (Adds (λ p. (h : List ℕ) × HasName hosts.now h × IsHeldBy v h p) (HasPortIn ports.old) (HasPortIn ports.new)) }
{
    for host in hosts {
        add_held_after(ports, index, told, host)?;
    }
    Ok(())
}

/// The ports that the storage group serves after the step.
fn served_after<A: Allocator + Copy>(
    alloc: A,
    index: &Index<A>,
    before: &View<'_, A>,
    told: &Told<A>,
    name: &Name,
) -> Result<BTreeSet<Wwn, A>, AllocError>
    requires { IsIndexOf (seen before.now) index.now }
    ensures { (v : Records) → IsTold (seen before.now) v told.now
        → IfOk result (λ ports. (p : ℕ) → HasPortIn ports p ↔ IsPortOf v name.now p) }
{
    let hosts = hosts_after(alloc, before, told, name)?;
    let mut ports = BTreeSet::new(alloc);
    add_ports_after(&mut ports, index, told, &hosts)?;
    Ok(ports)
}

/// What a storage group offers before the step.
fn offering_before<A: Allocator + Copy>(
    alloc: A,
    index: &Index<A>,
    before: &View<'_, A>,
    name: &Name,
) -> Result<Offering<A>, AllocError>
    requires { IsIndexOf (seen before.now) index.now }
    ensures { IfOk result (λ o. AreOffered (seen before.now) name.now o.ports o.targets) }
{
    let targets = targets_before(alloc, before, name)?;
    let mapping = before.config.mapping();
    let Some(group) = mapping.group(name) else {
        let ports = BTreeSet::new(alloc);
        return Ok(Offering { ports, targets });
    };
    if !group.is_exposed() {
        let ports = BTreeSet::new(alloc);
        return Ok(Offering { ports, targets });
    }
    let ports = served_ports(alloc, &index.held, mapping, group)?;
    Ok(Offering { ports, targets })
}

/// What it offers after the step.
fn offering_after<A: Allocator + Copy>(
    alloc: A,
    index: &Index<A>,
    before: &View<'_, A>,
    told: &Told<A>,
    name: &Name,
) -> Result<Offering<A>, AllocError>
    requires { IsIndexOf (seen before.now) index.now }
    ensures { (v : Records) → IsTold (seen before.now) v told.now → IfOk result (λ o. AreOffered v name.now o.ports o.targets) }
{
    let targets = targets_after(alloc, before, told, name)?;
    if !is_exposed_after(before, told, name) {
        let ports = BTreeSet::new(alloc);
        return Ok(Offering { ports, targets });
    }
    let ports = served_after(alloc, index, before, told, name)?;
    Ok(Offering { ports, targets })
}

/// Whether the pair is offered in the same way.
fn is_alike<A: Allocator + Copy>(
    other: &Offering<A>,
    same_units: bool,
    initiator: &Wwn,
    target: &Wwn,
) -> bool
    ensures { IsTrue result ↔ ((same_units ≡ true) × HasPortIn other.now.ports initiator.now × HasPortIn other.now.targets target.now) }
{
    if !same_units {
        return false;
    }
    if !other.ports.contains(initiator) {
        return false;
    }
    other.targets.contains(target)
}

/// Adds the pair, unless it is offered in the same way.
fn add_unless_alike<A: Allocator + Copy>(
    pairs: &mut BTreeSet<(Wwn, Wwn), A>,
    other: &Offering<A>,
    same_units: bool,
    initiator: &Wwn,
    target: &Wwn,
) -> Result<(), AllocError>
    ensures { OnOk result (Adds (λ e. ¬ ((same_units ≡ true) × HasPortIn other.now.ports e.0 × HasPortIn other.now.targets e.1) × (e ≡ (initiator.now, target.now))) (HasPairIn pairs.old) (HasPairIn pairs.new)) }
{
    if !is_alike(other, same_units, initiator, target) {
        pairs.insert((*initiator, *target))?;
    }
    Ok(())
}

/// Adds the pairs of the initiator with the targets, unless they are offered in the same way.
fn add_targets_unless<A: Allocator + Copy>(
    pairs: &mut BTreeSet<(Wwn, Wwn), A>,
    other: &Offering<A>,
    same_units: bool,
    initiator: &Wwn,
    targets: &BTreeSet<Wwn, A>,
) -> Result<(), AllocError>
    ensures { OnOk result (Adds (λ e. HasPortIn targets.now e.1 × ¬ ((same_units ≡ true) × HasPortIn other.now.ports e.0 × HasPortIn other.now.targets e.1) × (e.0 ≡ initiator.now)) (HasPairIn pairs.old) (HasPairIn pairs.new)) }
{
    for target in targets {
        add_unless_alike(pairs, other, same_units, initiator, target)?;
    }
    Ok(())
}

/// Adds the pairs that are offered, unless they are offered in the same way.
fn add_unless<A: Allocator + Copy>(
    pairs: &mut BTreeSet<(Wwn, Wwn), A>,
    other: &Offering<A>,
    same_units: bool,
    initiators: &BTreeSet<Wwn, A>,
    targets: &BTreeSet<Wwn, A>,
) -> Result<(), AllocError>
    ensures { OnOk result (Adds (λ e. HasPortIn initiators.now e.0 × HasPortIn targets.now e.1 × ¬ ((same_units ≡ true) × HasPortIn other.now.ports e.0 × HasPortIn other.now.targets e.1)) (HasPairIn pairs.old) (HasPairIn pairs.new)) }
{
    for initiator in initiators {
        add_targets_unless(pairs, other, same_units, initiator, targets)?;
    }
    Ok(())
}

/// Adds the pairs that the storage group offers in one world, and not so in the other.
fn add_of_group<A: Allocator + Copy>(
    alloc: A,
    pairs: &mut BTreeSet<(Wwn, Wwn), A>,
    index: &Index<A>,
    before: &View<'_, A>,
    told: &Told<A>,
    name: &Name,
) -> Result<(), AllocError>
    requires { IsIndexOf (seen before.now) index.now }
    ensures { (v : Records) → IsTold (seen before.now) v told.now
        → OnOk result (Adds (λ e. IsOfferedOtherwise (seen before.now) v name.now e.0 e.1) (HasPairIn pairs.old) (HasPairIn pairs.new)) }
{
    let here = offering_before(alloc, index, before, name)?;
    let there = offering_after(alloc, index, before, told, name)?;
    let same_units = has_same_units(told, name);
    add_unless(pairs, &there, same_units, &here.ports, &here.targets)?;
    add_unless(pairs, &here, same_units, &there.ports, &there.targets)?;
    Ok(())
}

/// The same of each of the storage groups.
pub fn add_of_groups<A: Allocator + Copy>(
    alloc: A,
    pairs: &mut BTreeSet<(Wwn, Wwn), A>,
    index: &Index<A>,
    before: &View<'_, A>,
    told: &Told<A>,
    names: &BTreeSet<Name, A>,
) -> Result<(), AllocError>
    requires { IsIndexOf (seen before.now) index.now }
    ensures { (v : Records) → IsTold (seen before.now) v told.now
        → OnOk result (Adds (λ e. (n : List ℕ) × HasName names.now n × IsOfferedOtherwise (seen before.now) v n e.0 e.1) (HasPairIn pairs.old) (HasPairIn pairs.new)) }
{
    for name in names {
        add_of_group(alloc, pairs, index, before, told, name)?;
    }
    Ok(())
}
