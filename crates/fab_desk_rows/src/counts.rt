//! The row that tells the revision.
ghost use Rattle.std.specs.Prelude.{◌≡◌, [], ◌∷◌, nat_eq, cond, IfOk};
ghost use Rattle.fab_store_rows.specs.declared.table_rows.CountRow.TheVariants as count;
ghost use Rattle.fab_store_world.specs.Tables.{IsCountRow, count_order};
ghost use Rattle.fab_desk_commands.specs.Nexts.{next_world, Suits};
ghost use Rattle.fab_desk_rows.specs.Moves.{AreMoved};

use crate::moved::Moved;
use fab_desk_commands::Next;
use fab_store_rows::CountRow;
use fab_world::World;
use std::alloc::{AllocError, Allocator};

/// The revision of the next world.
fn revision_after<A: Allocator + Copy>(world: &World<A>, next: &Next<A>) -> u64
    requires { Suits world.now next.now }
    ensures { result ≡ (next_world world.now next.now).revision }
{
    match next {
        Next::Stock { .. } | Next::Reconfigured { .. } => world.revision + 1,
        Next::Same | Next::Staged { .. } | Next::Turned { .. } => world.revision,
    }
}

/// The row of a revision, unless it is the other.
fn revision_row<A: Allocator + Copy>(
    alloc: A,
    revision: u64,
    other: u64,
) -> Result<Vec<CountRow, A>, AllocError>
    ensures { IfOk result (λ rows. rows.items ≡ cond (nat_eq revision other) [] (count.Revision revision ∷ [])) }
{
    let mut rows = Vec::new(alloc);
    if revision == other {
        return Ok(rows);
    }
    rows.push(CountRow::Revision(revision))?;
    Ok(rows)
}

/// The rows of the revision in which the next world differs. The schema never changes.
///
/// # Errors
/// `AllocError` where there is no memory.
pub fn counts_moved<A: Allocator + Copy>(
    alloc: A,
    world: &World<A>,
    next: &Next<A>,
) -> Result<Moved<CountRow, A>, AllocError>
    requires { Suits world.now next.now }
    ensures { IfOk result (λ m. AreMoved count_order IsCountRow world.now (next_world world.now next.now) m.removed.items m.added.items) }
{
    let revision = revision_after(world, next);
    let removed = revision_row(alloc, world.revision, revision)?;
    let added = revision_row(alloc, revision, world.revision)?;
    Ok(Moved { removed, added })
}
