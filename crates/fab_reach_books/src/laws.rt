//! Books over many worlds, and laws of affected pairs: a law is the contract of a function that does
//! nothing.
ghost use Rattle.std.specs.Prelude.{◌<◌, ◌∷◌, ℕ, List, length, All, slice_index_or, Contains, IfErr, OnOk};
ghost use Rattle.std.specs.List.Sorted.{IsStrictlySortedBy};
ghost use Rattle.fab_reach_base.specs.Records.{Records};
ghost use Rattle.fab_reach_base.specs.Serving.{IsServing};
ghost use Rattle.fab_reach_base.specs.Views.{seen};
ghost use Rattle.fab_reach_books.specs.Affected.{Affected, PathsDiffer};
ghost use Rattle.fab_reach_books.specs.Inner.Moving.{IsMoving};
ghost use Rattle.fab_reach_books.specs.Pairs.{AreChanged, Pair, pair_cmp};
ghost use Rattle.fab_reach_books.specs.Counts.{IsBounded};

use crate::book::PathBook;
use fab_reach_base::View;
use std::alloc::Allocator;

/// A pair whose paths differ is affected.
pub fn paths_differ_where_affected()
    ensures { (w v : Records) (p q : ℕ) → IsServing w → IsServing v → PathsDiffer w v p q → Affected w v p q }
{}

/// The pairs to ask about are affected ones, and all whose paths differ.
pub fn moving_pairs_are_changed()
    ensures { (w v : Records) (pairs : List Pair) → IsServing w → IsServing v → IsStrictlySortedBy pair_cmp pairs
        → ((p q : ℕ) → Contains pairs (p, q) → IsMoving w v p q) → ((p q : ℕ) → IsMoving w v p q → Contains pairs (p, q)) → AreChanged w v pairs }
{}

/// Nothing is asked where no row differs.
pub fn no_step_is_bounded()
    ensures { (w : Records) (n : ℕ) → IsBounded w w n n }
{}

/// Advances a book through worlds, from the first on.
///
/// # Errors
/// Where there is no memory, how many worlds it has gone through: the book stands at the last of
/// them.
pub fn advance_all<A: Allocator + Copy, B: PathBook<A>>(
    book: &mut B,
    first: &View<'_, A>,
    rest: &[View<'_, A>],
) -> Result<(), usize>
    requires stands { B.stands book.old (seen first.now) }
    requires sound { All (λ world. IsServing (seen world)) rest.now }
    ensures ok { OnOk result (B.stands book.new (seen (slice_index_or (first.now ∷ rest.now) (length rest.now) first.now))) }
    ensures err { IfErr result (λ gone. B.stands book.new (seen (slice_index_or (first.now ∷ rest.now) gone first.now))) }
    ensures fewer { IfErr result (λ gone. gone < length rest.now) }
{
    let mut before = *first;
    for (i, after) in rest.iter().enumerate() {
        if book.advance(&before, after).is_err() {
            return Err(i);
        }
        before = *after;
    }
    Ok(())
}
