//! Plans, put together from their rows.
ghost use Rattle.std.specs.Prelude.{◌≡◌, ℕ, List, Option, Some, cond, MatchOption, IfOk, OnOk};
ghost use Rattle.std.specs.BTreeMap.{get, is_at};
ghost use Rattle.std.specs.FinMap as map;
ghost use Rattle.fab_reach_base.specs.fab_names.Orders.{name_cmp};
ghost use Rattle.fab_world.specs.PlanRecords.{PlanRecord};
ghost use Rattle.fab_store_world.specs.Parts.{rows_at, approvals_at, standing_in, IsMadeOf, AreMadeOf};
ghost use Rattle.fab_world.specs.fab_plans_text.KeptTexts.{IsTextOf};
ghost use Rattle.fab_store_world.specs.PlanRows.{IsInOrder, ChangesInOrder, ArePlanRows};

use fab_reach_base::lemmas::keys_listed;
use fab_reach_base::names::Name;
use fab_world::load::rows::{ConfigRow, PlanRow, PlanState, RowDifference};
use fab_world::plans::{Active, Plan, PlanText, RolledBack, Staged, Withdrawn};
use fab_world::{AnyPlan, KeptPlan};
use std::alloc::{AllocError, Allocator};
use std::collections::{BTreeMap, BTreeSet};

/// What rows say of plans beside the plans' own rows, by the plans' names.
#[derive(Drop)]
pub struct PlanParts<A: Allocator + Copy> {
    /// The revisions at which callers approved them.
    pub approvals: BTreeMap<Name, BTreeMap<Name, u64, A>, A>,
    /// The rows that activations took away.
    pub taken: BTreeMap<Name, BTreeSet<ConfigRow, A>, A>,
    /// The rows that activations added.
    pub added: BTreeMap<Name, BTreeSet<ConfigRow, A>, A>,
}

/// The rows of a set, in order.
fn listed<A: Allocator + Copy>(
    alloc: A,
    rows: &BTreeSet<ConfigRow, A>,
) -> Result<Vec<ConfigRow, A>, AllocError>
    ensures keys { IfOk result (λ items. items.items ≡ rows.now.keys) }
    ensures in_order { IfOk result (λ items. IsInOrder items.items) }
{
    // The length tells that the set is in order.
    let _count = rows.len();
    let items = keys_listed(alloc, rows)?;
    Ok(items)
}

/// The rows under a name, in order; none where there is no such name.
fn rows_under<A: Allocator + Copy>(
    alloc: A,
    sets: &BTreeMap<Name, BTreeSet<ConfigRow, A>, A>,
    name: &Name,
) -> Result<Vec<ConfigRow, A>, AllocError>
    ensures rows { IfOk result (λ rows. rows.items ≡ rows_at (get name_cmp sets.now name.now)) }
    ensures in_order { IfOk result (λ rows. IsInOrder rows.items) }
{
    match sets.get(name) {
        Some(rows) => listed(alloc, rows),
        None => Ok(Vec::new(alloc)),
    }
}

/// The approvals under a name; none where there is no such name.
fn approvals_under<A: Allocator + Copy>(
    alloc: A,
    approvals: &BTreeMap<Name, BTreeMap<Name, u64, A>, A>,
    name: &Name,
) -> Result<BTreeMap<Name, u64, A>, AllocError>
    ensures { IfOk result (λ own. map.from_entries {R = name_cmp} own.entries ≡ approvals_at (get name_cmp approvals.now name.now)) }
{
    match approvals.get(name) {
        Some(own) => own.clone(),
        None => Ok(BTreeMap::new(alloc)),
    }
}

/// The plan in its state, with what its activation changed where it is active.
fn kept<A: Allocator + Copy>(plan: Plan<A>, state: PlanState, undo: RowDifference<A>) -> KeptPlan<A>
    ensures plan { result ≡ record {
      author = plan.author;
      steps = plan.text;
      approvals = map.from_entries plan.approvals.entries;
      standing = standing_in state undo.taken.items undo.added.items;
    } }
    ensures in_order { IsInOrder undo.taken.items → IsInOrder undo.added.items → ChangesInOrder result.standing }
{
    let inner = match state {
        PlanState::Staged => AnyPlan::Staged(Staged { plan }),
        PlanState::Active => AnyPlan::Active(Active { plan, undo }),
        PlanState::RolledBack => AnyPlan::RolledBack(RolledBack { plan }),
        PlanState::Withdrawn => AnyPlan::Withdrawn(Withdrawn { plan }),
    };
    KeptPlan { inner }
}

/// The plan of a row, with its approvals and changes; none where the row's text is no plan's.
///
/// # Errors
/// `AllocError` where there is no memory.
pub fn plan_of<A: Allocator + Copy>(
    alloc: A,
    row: &PlanRow<A>,
    parts: &PlanParts<A>,
) -> Result<Option<KeptPlan<A>>, AllocError>
    ensures { IfOk result (λ found. MatchOption found ((p : PlanRecord) → ¬ IsTextOf row.now.text p.steps) (IsMadeOf row.now parts.now)) }
{
    let Some(text) = PlanText::read(alloc, row.text.as_str())? else {
        return Ok(None);
    };
    let approvals = approvals_under(alloc, &parts.approvals, &row.name)?;
    let taken = rows_under(alloc, &parts.taken, &row.name)?;
    let added = rows_under(alloc, &parts.added, &row.name)?;
    let plan = Plan {
        author: row.author,
        text,
        approvals,
    };
    Ok(Some(kept(plan, row.state, RowDifference { taken, added })))
}

/// Keeps a plan under a name.
fn put_plan<A: Allocator + Copy>(
    plans: &mut BTreeMap<Name, KeptPlan<A>, A>,
    name: Name,
    plan: KeptPlan<A>,
) -> Result<(), AllocError>
    ensures { OnOk result ((q : List ℕ) → get name_cmp plans.new q ≡ cond (is_at (name_cmp name) q) (Some plan) (get name_cmp plans.old q)) }
{
    plans.insert(name, plan)?;
    Ok(())
}

/// The plans of the rows, by name, with their approvals and changes; none where a row's text is no
/// plan's, or two rows have one name.
///
/// # Errors
/// `AllocError` where there is no memory.
pub fn plans_from<A: Allocator + Copy>(
    alloc: A,
    rows: &[PlanRow<A>],
    parts: &PlanParts<A>,
) -> Result<Option<BTreeMap<Name, KeptPlan<A>, A>>, AllocError>
    ensures { IfOk result (λ found. MatchOption found ((plans : List ℕ → Option PlanRecord) → ¬ ArePlanRows rows.now plans) (λ plans. AreMadeOf rows.now parts.now (get name_cmp plans))) }
{
    let mut plans = BTreeMap::new(alloc);
    for row in rows {
        if plans.contains_key(&row.name) {
            return Ok(None);
        }
        let Some(plan) = plan_of(alloc, row, parts)? else {
            return Ok(None);
        };
        put_plan(&mut plans, row.name, plan)?;
    }
    Ok(Some(plans))
}
