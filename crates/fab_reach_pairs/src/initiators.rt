//! The pairs of initiators that a step moves.
ghost use Rattle.std.specs.Prelude.{◌≡◌, ◌↔◌, ◌⊎◌, ℕ, List, true, false, IsTrue, OnOk, IfOk};
ghost use Rattle.std.specs.BTreeSet.{contains};
ghost use Rattle.fab_names.specs.Orders.{name_cmp};
ghost use Rattle.fab_reach_base.specs.Adding.{Adds};
ghost use Rattle.fab_reach_base.specs.Gathering.{HasTarget};
ghost use Rattle.fab_reach_base.specs.Records.{Records};
ghost use Rattle.fab_reach_base.specs.Views.{seen};
ghost use Rattle.fab_reach_moves.specs.Moves.{AreTouched};
ghost use Rattle.fab_reach_books.specs.Inner.Sets.{HasPairIn, HasPortIn};
ghost use Rattle.fab_reach_index.specs.Indexes.{IsIndexOf};
ghost use Rattle.fab_reach_books.specs.Inner.Moving.{IsOffered};
ghost use Rattle.fab_reach_pairs.specs.Inner.Offering.{IsTargetAt, IsKeptAt, IsOfferedByKept};
ghost use Rattle.fab_reach_moves.specs.Inner.Telling.{IsTold};

use crate::offers::add_with_initiator;
use fab_mapping::Mapping;
use fab_names::{Name, Wwn};
use fab_reach_base::{View, targets_of};
use fab_reach_index::Index;
use fab_reach_moves::{Told, holder_after, holder_before};
use std::alloc::{AllocError, Allocator};
use std::collections::BTreeSet;

/// Adds the name if it is not among these.
fn add_if_kept<A: Allocator + Copy>(
    names: &mut BTreeSet<Name, A>,
    touched: &BTreeSet<Name, A>,
    name: &Name,
) -> Result<(), AllocError>
    ensures { OnOk result (Adds (λ n. (n ≡ name.now) × (contains name_cmp touched.now n ≡ false)) (λ n. IsTrue (contains name_cmp names.old n)) (λ n. IsTrue (contains name_cmp names.new n))) }
{
    if !touched.contains(name) {
        names.insert(*name)?;
    }
    Ok(())
}

/// Adds those of the storage groups that are not touched.
fn add_kept<A: Allocator + Copy>(
    names: &mut BTreeSet<Name, A>,
    groups: &BTreeSet<Name, A>,
    touched: &BTreeSet<Name, A>,
) -> Result<(), AllocError>
    ensures { OnOk result (Adds (λ n. (contains name_cmp groups.now n ≡ true) × (contains name_cmp touched.now n ≡ false)) (λ n. IsTrue (contains name_cmp names.old n)) (λ n. IsTrue (contains name_cmp names.new n))) }
{
    for name in groups {
        add_if_kept(names, touched, name)?;
    }
    Ok(())
}

/// The targets of those of the storage groups that are not touched.
fn kept_targets<A: Allocator + Copy>(
    alloc: A,
    mapping: &Mapping<A>,
    groups: &BTreeSet<Name, A>,
    touched: &BTreeSet<Name, A>,
) -> Result<BTreeSet<Wwn, A>, AllocError>
    ensures { IfOk result (λ targets. (q : ℕ) → HasPortIn targets q ↔ ((n : List ℕ) × (contains name_cmp groups.now n ≡ true) × (contains name_cmp touched.now n ≡ false) × HasTarget mapping.now n q)) }
{
    let mut kept = BTreeSet::new(alloc);
    add_kept(&mut kept, groups, touched)?;
    let targets = targets_of(alloc, mapping, &kept)?;
    Ok(targets)
}

/// Adds the pairs of the initiator with the targets that are offered to the holder.
fn add_offered_at<A: Allocator + Copy>(
    alloc: A,
    pairs: &mut BTreeSet<(Wwn, Wwn), A>,
    index: &Index<A>,
    mapping: &Mapping<A>,
    initiator: Wwn,
    holder: &Name,
) -> Result<(), AllocError>
    ensures { OnOk result (Adds (λ e. IsTargetAt mapping.now index.now.groups holder.now e.1 × (e.0 ≡ initiator)) (HasPairIn pairs.old) (HasPairIn pairs.new)) }
{
    let Some(groups) = index.groups.get(holder) else {
        return Ok(());
    };
    let targets = targets_of(alloc, mapping, groups)?;
    add_with_initiator(pairs, initiator, &targets)?;
    Ok(())
}

/// Adds the same pairs, but for those of touched storage groups.
fn add_kept_at<A: Allocator + Copy>(
    alloc: A,
    pairs: &mut BTreeSet<(Wwn, Wwn), A>,
    index: &Index<A>,
    mapping: &Mapping<A>,
    touched: &BTreeSet<Name, A>,
    initiator: Wwn,
    holder: &Name,
) -> Result<(), AllocError>
    ensures { OnOk result (Adds (λ e. IsKeptAt mapping.now index.now.groups touched.now holder.now e.1 × (e.0 ≡ initiator)) (HasPairIn pairs.old) (HasPairIn pairs.new)) }
{
    let Some(groups) = index.groups.get(holder) else {
        return Ok(());
    };
    let targets = kept_targets(alloc, mapping, groups, touched)?;
    add_with_initiator(pairs, initiator, &targets)?;
    Ok(())
}

/// Adds the pairs that the initiator was offered in.
fn add_offered_before<A: Allocator + Copy>(
    alloc: A,
    pairs: &mut BTreeSet<(Wwn, Wwn), A>,
    index: &Index<A>,
    before: &View<'_, A>,
    name: &Wwn,
) -> Result<(), AllocError>
    requires { IsIndexOf (seen before.now) index.now }
    ensures { OnOk result (Adds (λ e. IsOffered (seen before.now) e.0 e.1 × (e.0 ≡ name.now)) (HasPairIn pairs.old) (HasPairIn pairs.new)) }
{
    let Some(holder) = holder_before(before, name) else {
        return Ok(());
    };
    add_offered_at(alloc, pairs, index, before.config.mapping(), *name, &holder)?;
    Ok(())
}

/// Adds the pairs that storage groups which are not touched offer the initiator in after the step.
fn add_offered_after<A: Allocator + Copy>(
    alloc: A,
    pairs: &mut BTreeSet<(Wwn, Wwn), A>,
    index: &Index<A>,
    before: &View<'_, A>,
    told: &Told<A>,
    touched: &BTreeSet<Name, A>,
    name: &Wwn,
) -> Result<(), AllocError>
    requires { IsIndexOf (seen before.now) index.now }
    ensures { (v : Records) → IsTold (seen before.now) v told.now → AreTouched (seen before.now) v touched.now
        → OnOk result (Adds (λ e. IsOfferedByKept v touched.now e.0 e.1 × (e.0 ≡ name.now)) (HasPairIn pairs.old) (HasPairIn pairs.new)) }
{
    let Some(holder) = holder_after(before, told, name) else {
        return Ok(());
    };
    add_kept_at(
        alloc,
        pairs,
        index,
        before.config.mapping(),
        touched,
        *name,
        &holder,
    )?;
    Ok(())
}

/// Adds both.
fn add_of_initiator<A: Allocator + Copy>(
    alloc: A,
    pairs: &mut BTreeSet<(Wwn, Wwn), A>,
    index: &Index<A>,
    before: &View<'_, A>,
    told: &Told<A>,
    touched: &BTreeSet<Name, A>,
    name: &Wwn,
) -> Result<(), AllocError>
    requires { IsIndexOf (seen before.now) index.now }
    ensures { (v : Records) → IsTold (seen before.now) v told.now → AreTouched (seen before.now) v touched.now
        → OnOk result (Adds (λ e. (IsOffered (seen before.now) e.0 e.1 ⊎ IsOfferedByKept v touched.now e.0 e.1) × (e.0 ≡ name.now)) (HasPairIn pairs.old) (HasPairIn pairs.new)) }
{
    add_offered_before(alloc, pairs, index, before, name)?;
    add_offered_after(alloc, pairs, index, before, told, touched, name)?;
    Ok(())
}

/// Adds the pairs of each of these initiators: those in which it was offered a target, and those in which
/// one of the touched storage groups that is kept offers it one since.
///
/// # Errors
/// `AllocError` where there is no memory for the pairs: some of them may be there.
pub fn add_of_initiators<A: Allocator + Copy>(
    alloc: A,
    pairs: &mut BTreeSet<(Wwn, Wwn), A>,
    index: &Index<A>,
    before: &View<'_, A>,
    told: &Told<A>,
    touched: &BTreeSet<Name, A>,
    names: &BTreeSet<Wwn, A>,
) -> Result<(), AllocError>
    requires { IsIndexOf (seen before.now) index.now }
    ensures { (v : Records) → IsTold (seen before.now) v told.now → AreTouched (seen before.now) v touched.now
        → OnOk result (Adds (λ e. HasPortIn names.now e.0 × (IsOffered (seen before.now) e.0 e.1 ⊎ IsOfferedByKept v touched.now e.0 e.1)) (HasPairIn pairs.old) (HasPairIn pairs.new)) }
{
    for name in names {
        add_of_initiator(alloc, pairs, index, before, told, touched, name)?;
    }
    Ok(())
}
