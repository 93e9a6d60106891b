//! The pairs to ask about.
ghost use Rattle.std.specs.Prelude.{◌≡◌, ◌↔◌, IfOk, OnOk};
ghost use Rattle.fab_reach_base.specs.Adding.{Adds};
ghost use Rattle.fab_reach_base.specs.Records.{Records};
ghost use Rattle.fab_reach_base.specs.Serving.{IsServing};
ghost use Rattle.fab_reach_base.specs.Views.{seen};
ghost use Rattle.fab_reach_moves.specs.Moves.{AreTouched, flagged_at};
ghost use Rattle.fab_reach_moves.specs.Inner.Moved.{IsMovedBy};
ghost use Rattle.fab_reach_pairs.specs.Inner.Finding.{ByInitiator, ByTarget, ByFlag, ByGroup, IsFound};
ghost use Rattle.fab_reach_books.specs.Inner.Sets.{HasPairIn};
ghost use Rattle.fab_reach_index.specs.Indexes.{IsIndexOf};
ghost use Rattle.fab_reach_books.specs.Pairs.{Pair, AreChanged};
ghost use Rattle.fab_reach_moves.specs.Inner.Telling.{IsTold};

use crate::regrouped::add_of_groups;
use fab_names::{Fabric, Wwn};
use fab_reach_base::View;
use fab_reach_index::Index;
use fab_reach_moves::{Moved, Told};
use fab_reach_pairs::{add_if_flagged, add_of_initiators, add_offered_to_all};
use std::alloc::{AllocError, Allocator};
use std::collections::BTreeSet;

/// Adds the pairs of the initiators that are not as they were.
fn add_by_initiators<A: Allocator + Copy>(
    alloc: A,
    pairs: &mut BTreeSet<(Wwn, Wwn), A>,
    index: &Index<A>,
    before: &View<'_, A>,
    told: &Told<A>,
    moved: &Moved<A>,
) -> Result<(), AllocError>
    requires { IsServing (seen before.now) × IsIndexOf (seen before.now) index.now }
    ensures { (v : Records) → IsTold (seen before.now) v told.now → AreTouched (seen before.now) v moved.now.groups
        → OnOk result (Adds (λ e. ByInitiator (seen before.now) v moved.now.ports moved.now.groups (flagged_at moved.now.flags) e.0 e.1) (HasPairIn pairs.old) (HasPairIn pairs.new)) }
{
    add_of_initiators(
        alloc,
        pairs,
        index,
        before,
        told,
        &moved.groups,
        &moved.ports,
    )?;
    Ok(())
}

/// Adds the pairs of the targets that are not as they were.
fn add_by_targets<A: Allocator + Copy>(
    alloc: A,
    pairs: &mut BTreeSet<(Wwn, Wwn), A>,
    index: &Index<A>,
    before: &View<'_, A>,
    moved: &Moved<A>,
) -> Result<(), AllocError>
    requires { IsServing (seen before.now) × IsIndexOf (seen before.now) index.now }
    ensures { (v : Records) → OnOk result (Adds (λ e. ByTarget (seen before.now) v moved.now.ports moved.now.groups (flagged_at moved.now.flags) e.0 e.1) (HasPairIn pairs.old) (HasPairIn pairs.new)) }
{
    add_offered_to_all(alloc, pairs, index, before.config.mapping(), &moved.ports)?;
    Ok(())
}

/// Adds the pairs of the default zones that permit otherwise.
fn add_by_flags<A: Allocator + Copy>(
    alloc: A,
    pairs: &mut BTreeSet<(Wwn, Wwn), A>,
    index: &Index<A>,
    before: &View<'_, A>,
    moved: &Moved<A>,
) -> Result<(), AllocError>
    requires { IsServing (seen before.now) × IsIndexOf (seen before.now) index.now }
    ensures { (v : Records) → OnOk result (Adds (λ e. ByFlag (seen before.now) v moved.now.ports moved.now.groups (flagged_at moved.now.flags) e.0 e.1) (HasPairIn pairs.old) (HasPairIn pairs.new)) }
{
    add_if_flagged(alloc, pairs, index, before, Fabric::A, moved.flags.0)?;
    add_if_flagged(alloc, pairs, index, before, Fabric::B, moved.flags.1)?;
    Ok(())
}

/// Adds the pairs of the storage groups that are not as they were.
fn add_by_groups<A: Allocator + Copy>(
    alloc: A,
    pairs: &mut BTreeSet<(Wwn, Wwn), A>,
    index: &Index<A>,
    before: &View<'_, A>,
    told: &Told<A>,
    moved: &Moved<A>,
) -> Result<(), AllocError>
    requires { IsServing (seen before.now) × IsIndexOf (seen before.now) index.now }
    ensures { (v : Records) → IsTold (seen before.now) v told.now
        → OnOk result (Adds (λ e. ByGroup (seen before.now) v moved.now.ports moved.now.groups (flagged_at moved.now.flags) e.0 e.1) (HasPairIn pairs.old) (HasPairIn pairs.new)) }
{
    add_of_groups(alloc, pairs, index, before, told, &moved.groups)?;
    Ok(())
}

/// The pairs that a difference finds.
fn found<A: Allocator + Copy>(
    alloc: A,
    index: &Index<A>,
    before: &View<'_, A>,
    told: &Told<A>,
    moved: &Moved<A>,
) -> Result<BTreeSet<(Wwn, Wwn), A>, AllocError>
    requires { IsServing (seen before.now) × IsIndexOf (seen before.now) index.now }
    ensures { (v : Records) → IsServing v → IsTold (seen before.now) v told.now → AreTouched (seen before.now) v moved.now.groups
        → IfOk result (λ pairs. (e : Pair) → HasPairIn pairs e ↔ IsFound (seen before.now) v moved.now.ports moved.now.groups (flagged_at moved.now.flags) e.0 e.1) }
{
    let mut pairs = BTreeSet::new(alloc);
    add_by_initiators(alloc, &mut pairs, index, before, told, moved)?;
    add_by_targets(alloc, &mut pairs, index, before, moved)?;
    add_by_flags(alloc, &mut pairs, index, before, moved)?;
    add_by_groups(alloc, &mut pairs, index, before, told, moved)?;
    Ok(pairs)
}

/// The pairs of a set, in order.
fn listed<A: Allocator + Copy>(
    alloc: A,
    pairs: &BTreeSet<(Wwn, Wwn), A>,
) -> Result<Vec<(Wwn, Wwn), A>, AllocError>
    ensures { IfOk result (λ items. items.items ≡ pairs.now.keys) }
{
    pairs.iter().copied().collect(alloc)
}

/// The pairs to ask about, each once, by what a difference moves: affected ones, and all whose paths
/// differ.
///
/// # Errors
/// `AllocError` where there is no memory.
pub fn told_pairs<A: Allocator + Copy>(
    alloc: A,
    index: &Index<A>,
    before: &View<'_, A>,
    told: &Told<A>,
    moved: &Moved<A>,
) -> Result<Vec<(Wwn, Wwn), A>, AllocError>
    requires { IsServing (seen before.now) × IsIndexOf (seen before.now) index.now }
    ensures { (v : Records) → IsServing v → IsTold (seen before.now) v told.now → IsMovedBy (seen before.now) v moved.now → IfOk result (λ pairs. AreChanged (seen before.now) v pairs.items) }
{
    let pairs = found(alloc, index, before, told, moved)?;
    let _count = pairs.len();
    let items = listed(alloc, &pairs)?;
    Ok(items)
}
