//! Sets as lists.
ghost use Rattle.std.specs.Prelude.{◌≡◌, IfOk};
ghost use Rattle.std.specs.List.Sorted.{IsStrictlySortedBy};

use std::alloc::{AllocError, Allocator};
use std::collections::BTreeSet;

/// The keys of a set, in order.
///
/// # Errors
/// `AllocError` where there is no memory.
pub fn in_order<K: Ord + Copy + Drop, A: Allocator + Copy>(
    alloc: A,
    set: &BTreeSet<K, A>,
) -> Result<Vec<K, A>, AllocError>
    ensures keys { IfOk result (λ list. list.items ≡ set.now.keys) }
    ensures sorted { IfOk result (λ list. IsStrictlySortedBy K.cmp list.items) }
{
    let _count = set.len();
    let mut list = Vec::new(alloc);
    for key in set {
        list.push(*key)?;
    }
    Ok(list)
}
