//! Sets and lists.
ghost use Rattle.std.specs.Prelude.{◌≡◌, IfOk};
ghost use Rattle.std.specs.List.{list_any};
ghost use Rattle.std.specs.Ordering.{eq_by_cmp};
ghost use Rattle.std.specs.BTreeSet.{contains};

use std::alloc::{AllocError, Allocator};
use std::collections::BTreeSet;

/// The set of the listed keys. Keys listed twice count once.
///
/// # Errors
/// `AllocError` where there is no memory.
pub fn set_of<K: Ord + Copy + Drop, A: Allocator + Copy>(
    alloc: A,
    keys: &[K],
) -> Result<BTreeSet<K, A>, AllocError>
    ensures { IfOk result (λ set. (x : K) → contains K.cmp set x ≡ list_any (eq_by_cmp K.cmp x) keys.now) }
{
    let mut set = BTreeSet::new(alloc);
    for key in keys {
        set.insert(*key)?;
    }
    Ok(set)
}

/// The keys of a set, in their order.
///
/// # Errors
/// `AllocError` where there is no memory.
pub fn keys_listed<K: Copy + Ord, A: Allocator + Copy>(
    alloc: A,
    keys: &BTreeSet<K, A>,
) -> Result<Vec<K, A>, AllocError>
    ensures { IfOk result (λ items. items.items ≡ keys.now.keys) }
{
    keys.iter().copied().collect(alloc)
}
