//! A book that asks about every pair of known ports.
ghost use Rattle.std.specs.Prelude.{◌≡◌, IfOk};
ghost use Rattle.std.specs.BTreeSet.{difference};
ghost use Rattle.fab_reach_base.specs.Orders.{Has, IsListOf, path_cmp};

use crate::asking::all_pairs;
use crate::ports::{holders_of, no_diff, paths_of, ports_of};
use fab_names::{Name, Wwn};
use fab_reach_base::{Delta, MOST_PATHS, Path, View, all_paths};
use fab_reach_books::{PathBook, RowDiff, Sight};
use fab_reach_moves::Told;
use std::alloc::{AllocError, Allocator};
use std::collections::BTreeSet;

/// The paths of a world, and who holds each port.
#[derive(Drop)]
pub struct PlainBook<A: Allocator + Copy> {
    alloc: A,
    paths: BTreeSet<Path, A>,
    owners: BTreeSet<(Wwn, Name), A>,
}

/// A step: its lists, and the book after it.
#[derive(Drop)]
pub struct PlainStep<A: Allocator + Copy> {
    delta: Delta<A>,
    next: PlainBook<A>,
}

/// The keys of one set that are not in the other.
fn kept<A: Allocator + Copy>(
    alloc: A,
    these: &BTreeSet<Path, A>,
    those: &BTreeSet<Path, A>,
) -> Result<Vec<Path, A>, AllocError>
    ensures { IfOk result (λ items. items.items ≡ difference path_cmp these.now those.now) }
{
    these.difference(those).copied().collect(alloc)
}

/// The paths of one set that are not in the other, in order.
///
/// # Errors
/// `AllocError` where there is no memory.
fn without<A: Allocator + Copy>(
    alloc: A,
    these: &BTreeSet<Path, A>,
    those: &BTreeSet<Path, A>,
) -> Result<Vec<Path, A>, AllocError>
    ensures { IfOk result (λ items. IsListOf (λ x. Has these.now x × ¬ Has those.now x) items.items) }
{
    let _all = these.difference(those);
    let items = kept(alloc, these, those)?;
    Ok(items)
}

impl<A: Allocator + Copy> PathBook<A> for PlainBook<A> {
    ghost use Rattle.std.specs.Prelude.{◌≡◌};
    ghost use Rattle.fab_reach_base.specs.Orders.{Has};
    ghost use Rattle.fab_reach_base.specs.Books.{IsDelta};
    ghost use Rattle.fab_reach_pairs.specs.Owning.{IsBookOf};

    type Ready = PlainStep<A>;

    ghost stands = { λ book w. IsBookOf w book.paths book.owners };

    ghost content = { λ book. Has book.paths };

    ghost leads = { λ book ready w v. IsDelta w v ready.delta.gained.items ready.delta.lost.items × IsBookOf v ready.next.paths ready.next.owners };

    ghost count = { λ book. 0 };

    ghost counts = { λ w v s t m n. m ≡ n };

    ghost limits = { λ w v s t. Unit {0} };

    ghost bounds = { λ w v m n. m ≡ n };

    ghost metered = { λ w v n a b h. h };

    ghost still = { λ w n i. n };

    ghost reached = { λ book w h. h.paths_are };

    fn open(alloc: A, view: &View<'_, A>) -> Result<Self, AllocError> {
        let diff = no_diff(alloc);
        let told = Told::of(alloc, &diff)?;
        let ports = ports_of(alloc, view, diff.come.as_slice())?;
        let owners = holders_of(alloc, view, &told, &ports)?;
        let paths = all_paths(alloc, view)?;
        Ok(PlainBook {
            alloc,
            paths,
            owners,
        })
    }

    fn allocator(&self) -> A {
        self.alloc
    }

    fn asked(&self) -> u64 {
        0
    }

    fn prepare<S: Sight<A>>(
        &mut self,
        before: &View<'_, A>,
        diff: &RowDiff<A>,
        sight: &mut S,
    ) -> Result<PlainStep<A>, AllocError> {
        let alloc = self.alloc;
        let told = Told::of(alloc, diff)?;
        let ports = ports_of(alloc, before, diff.come.as_slice())?;
        let owners = holders_of(alloc, before, &told, &ports)?;
        let paths = all_pairs(alloc, sight, &ports)?;
        let gained = without(alloc, &paths, &self.paths)?;
        let lost = without(alloc, &self.paths, &paths)?;
        Ok(PlainStep {
            delta: Delta { gained, lost },
            next: PlainBook {
                alloc,
                paths,
                owners,
            },
        })
    }

    fn delta<'a>(&self, ready: &'a PlainStep<A>) -> &'a Delta<A> {
        &ready.delta
    }

    fn has_few(&self, ready: &PlainStep<A>) -> bool {
        ready.next.paths.len() <= MOST_PATHS
    }

    fn adopt(&mut self, ready: PlainStep<A>) -> Delta<A> {
        self.paths = ready.next.paths;
        self.owners = ready.next.owners;
        ready.delta
    }

    fn of_host(&self, host: &Name) -> Result<Vec<Path, A>, AllocError> {
        let own = paths_of(self.alloc, &self.paths, &self.owners, host)?;
        Ok(own)
    }
}
