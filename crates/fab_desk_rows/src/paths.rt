//! The rows of the paths that a change gains and loses.
ghost use Rattle.std.specs.Prelude.{IfOk};
ghost use Rattle.fab_reach_base.specs.fab_lemmas.Lists.{IsListOf};
ghost use Rattle.fab_reach_base.specs.Books.{IsDelta};
ghost use Rattle.fab_reach_base.specs.Views.{seen};
ghost use Rattle.fab_store_world.specs.PathGathering.{IsRowOfSome};
ghost use Rattle.fab_store_world.specs.Paths.{ArePathChanges, path_row_order};
ghost use Rattle.fab_desk_base.specs.Keeping.{KeepsHosts};

use fab_reach_base::lemmas::keys_listed;
use fab_reach_base::{Delta, Path, View};
use fab_store_rows::PathRow;
use fab_store_world::{PathRowDifference, add_path_rows};
use std::alloc::{AllocError, Allocator};
use std::collections::BTreeSet;

/// The rows of paths, each with the host that holds its initiator, in their order.
fn rows_of<A: Allocator + Copy>(
    alloc: A,
    view: &View<'_, A>,
    paths: &[Path],
) -> Result<Vec<PathRow, A>, AllocError>
    ensures { IfOk result (λ rows. IsListOf path_row_order (IsRowOfSome (seen view.now) paths.now) rows.items) }
{
    let mut rows = BTreeSet::new(alloc);
    add_path_rows(&mut rows, view, paths)?;
    let _count = rows.len();
    let items = keys_listed(alloc, &rows)?;
    Ok(items)
}

/// The rows of the paths that are lost, each with its host before, and of those that are gained, each
/// with its host after. No path has one host before and another after, since no port passes straight
/// from one holder to another.
///
/// # Errors
/// `AllocError` where there is no memory.
pub fn path_rows_moved<A: Allocator + Copy>(
    alloc: A,
    before: &View<'_, A>,
    after: &View<'_, A>,
    delta: &Delta<A>,
) -> Result<PathRowDifference<A>, AllocError>
    requires delta { IsDelta (seen before.now) (seen after.now) delta.now.gained.items delta.now.lost.items }
    requires keeps { KeepsHosts (seen before.now) (seen after.now) }
    ensures { IfOk result (λ d. ArePathChanges (seen before.now) (seen after.now) d.taken.items d.added.items) }
{
    let taken = rows_of(alloc, before, delta.lost.as_slice())?;
    let added = rows_of(alloc, after, delta.gained.as_slice())?;
    Ok(PathRowDifference { taken, added })
}
