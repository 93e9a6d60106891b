//! The rows that the activation of one plan changed.
ghost use Rattle.std.specs.Prelude.{◌≡◌, ◌++◌, [], map, Some, OnOk, IfOk};
ghost use Rattle.fab_reach_base.specs.fab_lemmas.Lists.{IsListOf};
ghost use Rattle.fab_store_world.specs.Keys.{undo_order};
ghost use Rattle.fab_store_world.specs.PlanRows.{IsInOrder, ChangesInOrder};
ghost use Rattle.fab_world.specs.PlanRecords.{rolled_back};
ghost use Rattle.fab_desk_commands.specs.Nexts.{turned, Leads};
ghost use Rattle.fab_desk_rows.specs.PlanMoves.{undo_row, IsUndoOf, AreUndoMoved};

use crate::moved::{Moved, none_moved};
use fab_desk_commands::Turn;
use fab_reach_base::names::Name;
use fab_store_rows::{ConfigRow, RowDifference, Sign, UndoRow};
use fab_world::KeptPlan;
use std::alloc::{AllocError, Allocator};

/// Puts the rows behind the others, as taken away or as added by the activation of this plan.
fn push_changed<A: Allocator + Copy>(
    rows: &mut Vec<UndoRow, A>,
    plan: &Name,
    sign: Sign,
    changed: &[ConfigRow],
) -> Result<(), AllocError>
    ensures { OnOk result (rows.new.items ≡ rows.old.items ++ map (undo_row plan.now sign) changed.now) }
{
    for row in changed {
        rows.push(UndoRow {
            plan: *plan,
            sign,
            row: *row,
        })?;
    }
    Ok(())
}

/// The rows of the change that the activation of a plan made, where its lists are in order: what was
/// taken away before what was added.
fn rows_of<A: Allocator + Copy>(
    alloc: A,
    plan: &Name,
    change: &RowDifference<A>,
) -> Result<Vec<UndoRow, A>, AllocError>
    ensures { IfOk result (λ rows. IsInOrder change.now.taken.items → IsInOrder change.now.added.items → IsListOf undo_order (IsUndoOf plan.now change.now.taken.items change.now.added.items) rows.items) }
{
    let mut rows = Vec::new(alloc);
    push_changed(&mut rows, plan, Sign::Taken, change.taken.as_slice())?;
    push_changed(&mut rows, plan, Sign::Added, change.added.as_slice())?;
    Ok(rows)
}

/// The rows that come with the activation of a plan.
fn rows_added<A: Allocator + Copy>(
    alloc: A,
    plan: &Name,
    change: &RowDifference<A>,
) -> Result<Moved<UndoRow, A>, AllocError>
    ensures { IfOk result (λ m. IsInOrder change.now.taken.items → IsInOrder change.now.added.items → (m.removed.items ≡ []) × IsListOf undo_order (IsUndoOf plan.now change.now.taken.items change.now.added.items) m.added.items) }
{
    let added = rows_of(alloc, plan, change)?;
    Ok(Moved {
        removed: Vec::new(alloc),
        added,
    })
}

/// The rows that go with the activation of a plan.
fn rows_removed<A: Allocator + Copy>(
    alloc: A,
    plan: &Name,
    change: &RowDifference<A>,
) -> Result<Moved<UndoRow, A>, AllocError>
    ensures { IfOk result (λ m. IsInOrder change.now.taken.items → IsInOrder change.now.added.items → (m.added.items ≡ []) × IsListOf undo_order (IsUndoOf plan.now change.now.taken.items change.now.added.items) m.removed.items) }
{
    let removed = rows_of(alloc, plan, change)?;
    Ok(Moved {
        removed,
        added: Vec::new(alloc),
    })
}

/// The rows of a plan that is rolled back: what undid it is no longer kept.
fn undone<A: Allocator + Copy>(
    alloc: A,
    plan: &Name,
    kept: &KeptPlan<A>,
) -> Result<Moved<UndoRow, A>, AllocError>
    ensures { IfOk result (λ m. ChangesInOrder kept.now.standing → AreUndoMoved plan.now (Some kept.now) (Some (record kept.now { standing = rolled_back })) m.removed.items m.added.items) }
{
    match kept.undo() {
        Some(change) => rows_removed(alloc, plan, change),
        None => Ok(none_moved(alloc)),
    }
}

/// The rows that activations in force changed, of a plan that takes a turn from the state that the
/// turn leads from.
///
/// # Errors
/// `AllocError` where there is no memory.
pub fn turned_undo<A: Allocator + Copy>(
    alloc: A,
    name: &Name,
    kept: &KeptPlan<A>,
    turn: &Turn<A>,
) -> Result<Moved<UndoRow, A>, AllocError>
    requires { Leads turn.now kept.now }
    ensures { IfOk result (λ m. ChangesInOrder kept.now.standing → ChangesInOrder (turned turn.now kept.now).standing → AreUndoMoved name.now (Some kept.now) (Some (turned turn.now kept.now)) m.removed.items m.added.items) }
{
    match turn {
        Turn::Activated(change) => rows_added(alloc, name, change),
        Turn::RolledBack(_change) => undone(alloc, name, kept),
        Turn::Withdrawn | Turn::Approved(_) => Ok(none_moved(alloc)),
    }
}
