//! The lines in which two worlds differ.
ghost use Rattle.std.specs.Prelude.{IfOk};
ghost use Rattle.fab_store_world.specs.Tables.{AreChanges};
ghost use Rattle.fab_store_base.specs.Moves.{AreMoves};
ghost use Rattle.fab_world.specs.Soundness.{IsSound};
ghost use Rattle.fab_world.specs.Worlds.{WorldRows};

use fab_store_tables::{LineChanges, lines_of_rows};
use fab_store_world::Changes;
use std::alloc::{AllocError, Allocator};

/// The lines in which two sound worlds differ, of the rows in which they do: the lines of the rows
/// that stand before and not after are removed, those of the rows that stand after and not before are
/// added, each once, and no others. A row that stands in both is left where it is, and where each row
/// before was shown by a line, each row after is.
///
/// # Errors
/// `AllocError` where there is no memory.
pub fn change_lines<A: Allocator + Copy>(
    alloc: A,
    changes: &Changes<A>,
) -> Result<LineChanges<A>, AllocError>
    ensures { IfOk result (λ lines. (before after : WorldRows) → IsSound before → IsSound after → AreChanges before after changes.now → AreMoves before after lines) }
{
    let removed = lines_of_rows(alloc, &changes.removed)?;
    let added = lines_of_rows(alloc, &changes.added)?;
    Ok(LineChanges { removed, added })
}
