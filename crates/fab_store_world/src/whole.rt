//! All plans from their rows, their approvals and their changes.
ghost use Rattle.std.specs.Prelude.{◌↔◌, ℕ, List, Option, All, IsSome, IsTrue, MatchOption, IfOk, IfErr};
ghost use Rattle.std.specs.BTreeMap.{get};
ghost use Rattle.fab_reach_base.specs.fab_names.Orders.{name_cmp};
ghost use Rattle.fab_reach_base.specs.fab_lemmas.Firsts.{HasAt};
ghost use Rattle.fab_world.specs.fab_store_load.Rows.{HasRepeat};
ghost use Rattle.fab_world.specs.fab_store_load.Faults.{OfTable};
ghost use Rattle.fab_world.specs.PlanRecords.{PlanRecord};
ghost use Rattle.fab_world.specs.Plans.{IsActive};
ghost use Rattle.fab_store_world.specs.Kinds.{approval_row};
ghost use Rattle.fab_store_world.specs.Parts.{HaveParts};
ghost use Rattle.fab_store_world.specs.PlanRows.{ArePlans, ListInOrder};

use crate::kinds::{AddedRows, Approvals, TakenRows};
use crate::order::order_of;
use crate::plans::{PlanParts, plans_from};
use fab_reach_base::names::Name;
use fab_world::load::rows::{ApprovalRow, PlanRow, UndoRow};
use fab_world::load::{LoadFault, Table, maps_of, sets_of};
use fab_world::{KeptPlan, is_active_at};
use std::alloc::{AllocError, Allocator};
use std::collections::BTreeMap;

/// The plans of a world, and which activations are in force.
#[derive(Drop)]
pub struct Plans<A: Allocator + Copy> {
    /// The plans, in whatever state, by name.
    pub plans: BTreeMap<Name, KeptPlan<A>, A>,
    /// The plans whose activation is in force, the oldest first.
    pub order: Vec<Name, A>,
}

/// What the rows say of plans beside the plans' own rows; none where two approvals of one plan by
/// one caller differ.
fn parts_of<A: Allocator + Copy>(
    alloc: A,
    approvals: &[ApprovalRow],
    undo: &[UndoRow],
) -> Result<Option<PlanParts<A>>, AllocError>
    ensures { IfOk result (λ found. MatchOption found (HasRepeat approval_row approvals.now) (HaveParts approvals.now undo.now)) }
{
    let Some(approvals) = maps_of(alloc, &Approvals, approvals)? else {
        return Ok(None);
    };
    let taken = sets_of(alloc, &TakenRows, undo)?;
    let added = sets_of(alloc, &AddedRows, undo)?;
    Ok(Some(PlanParts {
        approvals,
        taken,
        added,
    }))
}

/// Whether each approval is of a plan that is there.
fn have_plans<A: Allocator + Copy>(
    plans: &BTreeMap<Name, KeptPlan<A>, A>,
    rows: &[ApprovalRow],
) -> bool
    ensures { IsTrue result ↔ All (λ r. IsSome (get name_cmp plans.now r.plan)) rows.now }
{
    for row in rows {
        if !plans.contains_key(&row.plan) {
            return false;
        }
    }
    true
}

/// Whether each changed row is of a plan that is there, and active.
fn have_active<A: Allocator + Copy>(
    plans: &BTreeMap<Name, KeptPlan<A>, A>,
    rows: &[UndoRow],
) -> bool
    ensures { IsTrue result ↔ All (λ r. HasAt (get name_cmp plans.now) IsActive r.plan) rows.now }
{
    for row in rows {
        if !is_active_at(plans, &row.plan) {
            return false;
        }
    }
    true
}

/// The plans that have exactly these rows, approvals and changes, and the order of the activations
/// in force. Whether the plans are within their limits, and whether the changes lead back through
/// sound configurations, is not looked at.
///
/// # Errors
/// `Damaged` where no plans have just these rows: `Plans` where a text is no plan's printed form,
/// two rows have one name, or the positions are no order; `Approvals` where one is of no plan, or
/// two of one plan by one caller differ; `Undo` where a changed row is of no active plan. `Memory`
/// where there is none.
pub fn plans_of<A: Allocator + Copy>(
    alloc: A,
    rows: &[PlanRow<A>],
    approvals: &[ApprovalRow],
    undo: &[UndoRow],
) -> Result<Plans<A>, LoadFault>
    ensures ok { IfOk result (λ found. ArePlans rows.now approvals.now undo.now (get name_cmp found.plans) found.order.items) }
    ensures in_order { IfOk result (λ found. ListInOrder (get name_cmp found.plans)) }
    ensures err { IfErr result (OfTable (λ table. (plans : List ℕ → Option PlanRecord) (order : List (List ℕ)) → ¬ ArePlans rows.now approvals.now undo.now plans order)) }
{
    let Some(order) = order_of(alloc, rows)? else {
        return Err(LoadFault::Damaged(Table::Plans));
    };
    let Some(parts) = parts_of(alloc, approvals, undo)? else {
        return Err(LoadFault::Damaged(Table::Approvals));
    };
    let Some(plans) = plans_from(alloc, rows, &parts)? else {
        return Err(LoadFault::Damaged(Table::Plans));
    };
    if !have_plans(&plans, approvals) {
        return Err(LoadFault::Damaged(Table::Approvals));
    }
    if !have_active(&plans, undo) {
        return Err(LoadFault::Damaged(Table::Undo));
    }
    Ok(Plans { plans, order })
}
