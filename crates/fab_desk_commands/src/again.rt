//! Rows of a change once more.
ghost use Rattle.std.specs.Prelude.{◌≡◌, IfOk};

use fab_store_rows::{ConfigRow, RowDifference};
use std::alloc::{AllocError, Allocator};

/// Rows once more, in a list of this allocator.
///
/// # Errors
/// `AllocError` where there is no memory.
pub fn copied<A: Allocator + Copy, R: Copy + Drop>(
    alloc: A,
    rows: &[R],
) -> Result<Vec<R, A>, AllocError>
    ensures { IfOk result (λ copy. copy.items ≡ rows.now) }
{
    rows.iter().copied().collect(alloc)
}

/// The way back from a change: it takes away what the change added, and adds what the change took.
///
/// # Errors
/// `AllocError` where there is no memory.
pub fn turned_round<A: Allocator + Copy>(
    alloc: A,
    change: &RowDifference<A>,
) -> Result<RowDifference<A>, AllocError>
    ensures { IfOk result (λ back. (back.taken.items ≡ change.now.added.items) × (back.added.items ≡ change.now.taken.items)) }
{
    let taken = copied::<A, ConfigRow>(alloc, change.added.as_slice())?;
    let added = copied::<A, ConfigRow>(alloc, change.taken.as_slice())?;
    Ok(RowDifference { taken, added })
}
