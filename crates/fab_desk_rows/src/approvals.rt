//! The rows of the approvals of one plan.
ghost use Rattle.std.specs.Prelude.{◌≡◌, ◌↔◌, None, Some, IsTrue, OnOk, IfOk};
ghost use Rattle.std.specs.BTreeMap.{get};
ghost use Rattle.std.specs.FinMap as map;
ghost use Rattle.fab_reach_base.specs.fab_lemmas.Lists.{IsListOf};
ghost use Rattle.fab_reach_base.specs.fab_names.Orders.{name_cmp};
ghost use Rattle.fab_store_world.specs.Keys.{approval_order};
ghost use Rattle.fab_desk_commands.specs.Nexts.{turned};
ghost use Rattle.fab_desk_rows.specs.PlanMoves.{IsPushed, IsGivenOnlyIn, AreApprovalsMoved};

use crate::moved::{Moved, none_moved};
use fab_desk_commands::Turn;
use fab_reach_base::names::Name;
use fab_store_rows::ApprovalRow;
use fab_world::KeptPlan;
use std::alloc::{AllocError, Allocator};
use std::collections::BTreeMap;

/// Whether this approval is among them.
fn is_among<A: Allocator + Copy>(
    approvals: &BTreeMap<Name, u64, A>,
    caller: &Name,
    revision: u64,
) -> bool
    ensures { IsTrue result ↔ (get name_cmp approvals.now caller.now ≡ Some revision) }
{
    match approvals.get(caller) {
        Some(given) => *given == revision,
        None => false,
    }
}

/// Puts the row of an approval behind the others, unless the approval is among these.
fn push_approval<A: Allocator + Copy>(
    rows: &mut Vec<ApprovalRow, A>,
    others: &BTreeMap<Name, u64, A>,
    row: ApprovalRow,
) -> Result<(), AllocError>
    ensures { OnOk result (IsPushed (¬ (get name_cmp others.now row.caller ≡ Some row.revision)) row rows.old.items rows.new.items) }
{
    if is_among(others, &row.caller, row.revision) {
        return Ok(());
    }
    rows.push(row)?;
    Ok(())
}

/// The rows of a plan's approvals that are not among others, by caller.
fn rows_only_in<A: Allocator + Copy>(
    alloc: A,
    plan: &Name,
    given: &BTreeMap<Name, u64, A>,
    others: &BTreeMap<Name, u64, A>,
) -> Result<Vec<ApprovalRow, A>, AllocError>
    ensures { IfOk result (λ rows. IsListOf approval_order (IsGivenOnlyIn plan.now (get name_cmp given.now) (get name_cmp others.now)) rows.items) }
{
    let mut rows = Vec::new(alloc);
    for (caller, revision) in given {
        let row = ApprovalRow {
            plan: *plan,
            caller: *caller,
            revision: *revision,
        };
        push_approval(&mut rows, others, row)?;
    }
    Ok(rows)
}

/// The rows of the approvals of a plan that is new.
///
/// # Errors
/// `AllocError` where there is no memory.
pub fn staged_approvals<A: Allocator + Copy>(
    alloc: A,
    name: &Name,
    kept: &KeptPlan<A>,
) -> Result<Moved<ApprovalRow, A>, AllocError>
    ensures { IfOk result (λ m. AreApprovalsMoved name.now None (Some kept.now) m.removed.items m.added.items) }
{
    let plan = kept.plan();
    let none = BTreeMap::new(alloc);
    let added = rows_only_in(alloc, name, &plan.approvals, &none)?;
    Ok(Moved {
        removed: Vec::new(alloc),
        added,
    })
}

/// The rows of approvals of a plan that has others than before.
fn approvals_moved<A: Allocator + Copy>(
    alloc: A,
    name: &Name,
    kept: &KeptPlan<A>,
    approvals: &BTreeMap<Name, u64, A>,
) -> Result<Moved<ApprovalRow, A>, AllocError>
    ensures { IfOk result (λ m. AreApprovalsMoved name.now (Some kept.now) (Some (record kept.now { approvals = map.from_entries approvals.now.entries })) m.removed.items m.added.items) }
{
    let plan = kept.plan();
    let removed = rows_only_in(alloc, name, &plan.approvals, approvals)?;
    let added = rows_only_in(alloc, name, approvals, &plan.approvals)?;
    Ok(Moved { removed, added })
}

/// The rows of approvals of a plan that takes a turn.
///
/// # Errors
/// `AllocError` where there is no memory.
pub fn turned_approvals<A: Allocator + Copy>(
    alloc: A,
    name: &Name,
    kept: &KeptPlan<A>,
    turn: &Turn<A>,
) -> Result<Moved<ApprovalRow, A>, AllocError>
    ensures { IfOk result (λ m. AreApprovalsMoved name.now (Some kept.now) (Some (turned turn.now kept.now)) m.removed.items m.added.items) }
{
    match turn {
        Turn::Approved(approvals) => approvals_moved(alloc, name, kept, approvals),
        Turn::Withdrawn | Turn::Activated(_) | Turn::RolledBack(_) => Ok(none_moved(alloc)),
    }
}
