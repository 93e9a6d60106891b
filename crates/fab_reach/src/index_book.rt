//! A book that asks about affected pairs alone.
ghost use Rattle.std.specs.Prelude.{◌≡◌, ◌↔◌, None, true, false, IsTrue, IfOk, OnOk, ◌≤◌, ◌+◌, ◌<◌, length};
ghost use Rattle.fab_reach_base.specs.Books.{IsDelta};
ghost use Rattle.fab_reach_base.specs.Orders.{path_cmp};
ghost use Rattle.fab_reach_base.specs.Records.{Records};
ghost use Rattle.fab_reach_base.specs.Serving.{IsServing};
ghost use Rattle.fab_reach_base.specs.Views.{seen};
ghost use Rattle.fab_reach_base.specs.Limits.{most_paths};
ghost use Rattle.fab_reach_books.specs.Counts.{most_asked, IsAtMost};
ghost use Rattle.fab_reach_books.specs.Numbers.{IsNumberOf};
ghost use Rattle.fab_reach_books.specs.Pairs.{AreChanged};
ghost use Rattle.fab_reach_books.specs.Rows.{IsRowDiff};
ghost use Rattle.fab_names.specs.Orders.{name_cmp};
ghost use Rattle.fab_reach_index.specs.Indexes.{IsHostServed, IsIndexOf};
ghost use Rattle.fab_reach_index.specs.Patches.{HasRoom, HaveSame, IsPatchTo, LeadsTo};
ghost use Rattle.fab_reach_moves.specs.Inner.Moved.{IsMovedBy};
ghost use Rattle.fab_reach_moves.specs.Inner.Telling.{IsTold};
ghost use Rattle.fab_reach.specs.Inner.Asked.{IsAsked};

use crate::asked::delta_by;
use crate::finding::told_pairs;
use crate::own_rows::own_rows;
use fab_names::{Name, Wwn};
use fab_reach_base::{Delta, MOST_PATHS, Path, View, all_paths};
use fab_reach_books::{Meter, PathBook, RenewedGroups, RowDiff, Sight};
use fab_reach_index::Index;
use fab_reach_moves::{Moved, Told, told_moved};
use fab_reach_pairs::{group_patch, patch_of};
use std::alloc::{AllocError, Allocator};
use std::collections::{BTreeMap, BTreeSet};

/// A book that keeps the paths of each pair, and what tells which pairs a change may touch.
#[derive(Drop)]
pub struct IndexBook<A: Allocator + Copy> {
    alloc: A,
    index: Index<A>,
    noted: Index<A>,
    paths: usize,
    meter: Meter,
}

/// A step: its lists, and what it changes in the index.
#[derive(Drop)]
pub struct IndexStep<A: Allocator + Copy> {
    delta: Delta<A>,
    patch: Index<A>,
    paths: usize,
}

/// How many paths there are after a step.
///
/// # Errors
/// `AllocError` where there are more than a number tells: no memory holds so many.
fn paths_after<A: Allocator + Copy>(before: usize, delta: &Delta<A>) -> Result<usize, AllocError>
    ensures { (w v : Records) → IsNumberOf w before → IsDelta w v delta.now.gained.items delta.now.lost.items → IfOk result (IsNumberOf v) }
{
    let kept = before.saturating_sub(delta.lost.len());
    match kept.checked_add(delta.gained.len()) {
        Some(count) => Ok(count),
        None => Err(AllocError),
    }
}

/// Whether so many paths are no more than there may be.
fn is_few(count: usize) -> bool
    ensures few { IsTrue result ↔ (count ≤ most_paths) }
    ensures many { result ≡ false → most_paths < count }
{
    count <= MOST_PATHS
}

/// No groups, where none are told: they would live as long as the index.
fn untold<'a, A: Allocator + Copy>(index: &'a Index<A>) -> Option<RenewedGroups<'a, A>>
    ensures { result ≡ None }
{
    let _index = index;
    None
}

impl<A: Allocator + Copy> IndexBook<A> {
    /// How many questions its steps have asked.
    pub fn meter(&self) -> &Meter
        ensures { result.now ≡ self.now.meter }
    {
        &self.meter
    }

    /// The pairs that a change to the world before may touch, each once, in order: affected ones, and all
    /// whose paths differ. The book stands at that world, and the difference is from it.
    ///
    /// # Errors
    /// `AllocError` where there is no memory.
    pub fn changed_pairs(
        &self,
        before: &View<'_, A>,
        diff: &RowDiff<A>,
    ) -> Result<Vec<(Wwn, Wwn), A>, AllocError>
        requires { IsServing (seen before.now) × IsIndexOf (seen before.now) self.now.index }
        ensures { (v : Records) → IsServing v → IsRowDiff (seen before.now) v diff.now.gone.items diff.now.come.items → IfOk result (λ pairs. AreChanged (seen before.now) v pairs.items) }
    {
        let told = Told::of(self.alloc, diff)?;
        let moved = told_moved(self.alloc, &self.index, before, diff)?;
        let pairs = told_pairs(self.alloc, &self.index, before, &told, &moved)?;
        Ok(pairs)
    }

    /// What a step gains and loses, by asking about each of these pairs once: they are affected ones, and
    /// all whose paths differ, between the book's world and the one that is seen.
    ///
    /// # Errors
    /// `AllocError` where there is no memory.
    pub fn prepare_by<S: Sight<A>>(
        &self,
        pairs: &[(Wwn, Wwn)],
        sight: &mut S,
    ) -> Result<Delta<A>, AllocError>
        requires { (w : Records) × IsIndexOf w self.now.index × AreChanged w (S.world sight.old) pairs.now }
        ensures delta { (w : Records) → IsIndexOf w self.now.index → AreChanged w (S.world sight.old) pairs.now → IfOk result (λ delta. IsDelta w (S.world sight.old) delta.gained.items delta.lost.items) }
        ensures most { S.count sight.new ≤ S.count sight.old + length pairs.now }
        ensures least { OnOk result (S.count sight.new < most_asked → S.count sight.old + length pairs.now ≤ S.count sight.new) }
        ensures same { S.world sight.new ≡ S.world sight.old }
    {
        let groups = untold(&self.index);
        delta_by(self.alloc, &self.index.rows, pairs, groups, sight)
    }

    /// What a step gains and loses, by what its difference moves, where the new sets of hosts' storage
    /// groups are known.
    fn lists<S: Sight<A>>(
        &self,
        before: &View<'_, A>,
        told: &Told<A>,
        moved: &Moved<A>,
        groups: &BTreeMap<Name, BTreeSet<Name, A>, A>,
        sight: &mut S,
    ) -> Result<Delta<A>, AllocError>
        requires stands { IsServing (seen before.now) × IsIndexOf (seen before.now) self.now.index }
        requires sound { IsServing (S.world sight.old) }
        requires told { IsTold (seen before.now) (S.world sight.old) told.now }
        requires moved { IsMovedBy (seen before.now) (S.world sight.old) moved.now }
        requires groups { LeadsTo name_cmp name_cmp (IsHostServed (S.world sight.old)) groups.now self.now.index.groups }
        ensures delta { IfOk result (λ delta. IsDelta (seen before.now) (S.world sight.old) delta.gained.items delta.lost.items) }
        ensures asked { OnOk result (IsAsked (seen before.now) (S.world sight.old) (S.count sight.old) (S.count sight.new)) }
        ensures limits { IsAtMost (seen before.now) (S.world sight.old) (S.count sight.old) (S.count sight.new) }
        ensures same { S.world sight.new ≡ S.world sight.old }
    {
        let pairs = told_pairs(self.alloc, &self.index, before, told, moved)?;
        let _count = pairs.len();
        let known = RenewedGroups {
            new: groups,
            old: &self.index.groups,
        };
        let delta = delta_by(
            self.alloc,
            &self.index.rows,
            pairs.as_slice(),
            Some(known),
            sight,
        )?;
        Ok(delta)
    }

    /// Makes room for the new sets of a step, and takes out what the step before left empty.
    ///
    /// # Errors
    /// `AllocError` where there is no memory.
    fn make_room(&mut self, patch: &Index<A>) -> Result<(), AllocError>
        ensures kept { HaveSame self.old.index self.new.index }
        ensures room { OnOk result (HasRoom patch.now self.new.index) }
        ensures paths { self.new.paths ≡ self.old.paths }
        ensures meter { self.new.meter ≡ self.old.meter }
    {
        self.index.clear(&self.noted);
        self.noted = Index::empty(self.alloc);
        self.index.make_room(self.alloc, &mut self.noted, patch)
    }

    /// A step, for which there is no room in the index yet.
    fn step<S: Sight<A>>(
        &self,
        before: &View<'_, A>,
        diff: &RowDiff<A>,
        sight: &mut S,
    ) -> Result<IndexStep<A>, AllocError>
        requires stands { IsServing (seen before.now) × IsIndexOf (seen before.now) self.now.index × IsNumberOf (seen before.now) self.now.paths }
        requires sound { IsServing (S.world sight.old) }
        requires diff { IsRowDiff (seen before.now) (S.world sight.old) diff.now.gone.items diff.now.come.items }
        ensures delta { IfOk result (λ step. IsDelta (seen before.now) (S.world sight.old) step.delta.gained.items step.delta.lost.items) }
        ensures patch { IfOk result (λ step. IsPatchTo (S.world sight.old) step.patch self.now.index) }
        ensures paths { IfOk result (λ step. IsNumberOf (S.world sight.old) step.paths) }
        ensures asked { OnOk result (IsAsked (seen before.now) (S.world sight.old) (S.count sight.old) (S.count sight.new)) }
        ensures limits { IsAtMost (seen before.now) (S.world sight.old) (S.count sight.old) (S.count sight.new) }
        ensures same { S.world sight.new ≡ S.world sight.old }
    {
        let told = Told::of(self.alloc, diff)?;
        let moved = told_moved(self.alloc, &self.index, before, diff)?;
        let groups = group_patch(self.alloc, &self.index, before, &told, &moved.groups)?;
        let delta = self.lists(before, &told, &moved, &groups, sight)?;
        let patch = patch_of(
            self.alloc,
            &self.index,
            before,
            &told,
            &moved,
            groups,
            &delta,
        )?;
        let paths = paths_after(self.paths, &delta)?;
        Ok(IndexStep {
            delta,
            patch,
            paths,
        })
    }
}

impl<A: Allocator + Copy> PathBook<A> for IndexBook<A> {
    ghost use Rattle.std.specs.Prelude.{◌≡◌, true};
    ghost use Rattle.fab_lemmas.specs.MapsOfSets.{tree_has};
    ghost use Rattle.fab_reach_base.specs.Books.{IsDelta};
    ghost use Rattle.fab_reach_base.specs.Orders.{path_cmp};
    ghost use Rattle.fab_reach_base.specs.Serving.{IsServing};
    ghost use Rattle.fab_reach_books.specs.CountLaws.{metered, still};
    ghost use Rattle.fab_reach_books.specs.Counts.{IsAtMost, IsBounded, IsMetered};
    ghost use Rattle.fab_reach_books.specs.Numbers.{IsNumberOf};
    ghost use Rattle.fab_reach_books.specs.Pairs.{pair_cmp};
    ghost use Rattle.fab_reach_index.specs.Indexes.{IsIndexOf};
    ghost use Rattle.fab_reach_index.specs.Patches.{HasRoom, IsPatchTo};

    type Ready = IndexStep<A>;

    ghost stands = { λ book w. IsServing w × IsIndexOf w book.index × IsNumberOf w book.paths };

    ghost content = { λ book x. tree_has pair_cmp path_cmp book.index.rows (x.initiator, x.target) x ≡ true };

    ghost leads = { λ book ready w v. IsDelta w v ready.delta.gained.items ready.delta.lost.items × IsServing v × IsPatchTo v ready.patch book.index × HasRoom ready.patch book.index × IsNumberOf v ready.paths };

    ghost count = { λ book. book.meter };

    ghost counts = { IsMetered };

    ghost limits = { IsAtMost };

    ghost bounds = { IsBounded };

    ghost metered = { metered };

    ghost still = { still };

    ghost reached = { λ book w h x. h.1.rows (x.initiator, x.target) x };

    fn open(alloc: A, view: &View<'_, A>) -> Result<Self, AllocError> {
        let paths = all_paths(alloc, view)?;
        let index = Index::of(alloc, view, &paths)?;
        Ok(IndexBook {
            alloc,
            index,
            noted: Index::empty(alloc),
            paths: paths.len(),
            meter: Meter::new(),
        })
    }

    fn allocator(&self) -> A {
        self.alloc
    }

    fn asked(&self) -> u64 {
        self.meter.count()
    }

    fn prepare<S: Sight<A>>(
        &mut self,
        before: &View<'_, A>,
        diff: &RowDiff<A>,
        sight: &mut S,
    ) -> Result<IndexStep<A>, AllocError> {
        let asked = sight.asked();
        let step = self.step(before, diff, sight)?;
        self.make_room(&step.patch)?;
        self.meter.add(asked, sight.asked());
        Ok(step)
    }

    fn delta<'a>(&self, ready: &'a IndexStep<A>) -> &'a Delta<A> {
        &ready.delta
    }

    fn has_few(&self, ready: &IndexStep<A>) -> bool {
        is_few(ready.paths)
    }

    fn adopt(&mut self, ready: IndexStep<A>) -> Delta<A> {
        self.index.take(ready.patch);
        self.paths = ready.paths;
        ready.delta
    }

    fn of_host(&self, host: &Name) -> Result<Vec<Path, A>, AllocError> {
        let paths = own_rows(self.alloc, &self.index, host)?;
        Ok(paths)
    }
}
