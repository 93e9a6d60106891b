//! Pairs that were looked at already.
ghost use Rattle.std.specs.Prelude.{◌≡◌, ◌<◌, ◌+◌, ◌*◌, ◌⊎◌, ℕ, IfOk, IfSome};
ghost use Rattle.std.specs.Bool.{OnTrue};
ghost use Rattle.fab_mapping_base.specs.ClashSearch.{IsKnown};
ghost use Rattle.fab_mapping_base.specs.Limits.{most_storage_groups};

use crate::limits::MOST_STORAGE_GROUPS;
use std::alloc::{AllocError, Allocator};

/// Pairs of places in a list of storage groups: which of them are known.
///
/// Each of the first places has a row of as many marks as there may be storage groups.
#[derive(Drop)]
pub struct KnownPairs<A: Allocator + Copy> {
    marks: Vec<bool, A>,
}

/// Where the mark of a pair is, if it has one.
fn mark_of(first: usize, second: usize) -> Option<usize>
    ensures { IfSome result (λ at. (first < most_storage_groups) × (second < most_storage_groups) × (at ≡ first * most_storage_groups + second)) }
{
    if first < MOST_STORAGE_GROUPS && second < MOST_STORAGE_GROUPS {
        Some(first * MOST_STORAGE_GROUPS + second)
    } else {
        None
    }
}

impl<A: Allocator + Copy> KnownPairs<A> {
    /// No pair of so many places.
    ///
    /// # Errors
    /// `AllocError` where there is no memory.
    pub fn new(alloc: A, places: usize) -> Result<Self, AllocError>
        ensures { IfOk result (λ pairs. (i j : ℕ) → ¬ IsKnown pairs.marks.items i j) }
    {
        let rows = if places < MOST_STORAGE_GROUPS {
            places
        } else {
            MOST_STORAGE_GROUPS
        };
        let marks = vec![in alloc; false; rows * MOST_STORAGE_GROUPS]?;
        Ok(KnownPairs { marks })
    }

    /// Whether the pair is known for sure.
    pub fn has(&self, first: usize, second: usize) -> bool
        ensures { OnTrue result (IsKnown self.now.marks.items first second) }
    {
        let Some(at) = mark_of(first, second) else {
            return false;
        };
        match self.marks.get(at) {
            Some(mark) => *mark,
            None => false,
        }
    }

    /// Marks a pair, where there is room for it.
    pub fn insert(&mut self, first: usize, second: usize)
        ensures { (i j : ℕ) → IsKnown self.new.marks.items i j → IsKnown self.old.marks.items i j ⊎ ((i ≡ first) × (j ≡ second)) }
    {
        if let Some(at) = mark_of(first, second) {
            if at < self.marks.len() {
                self.marks[at] = true;
            }
        }
    }
}
