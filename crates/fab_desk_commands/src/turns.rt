//! What becomes of a plan: from one state to another, in its place.
ghost use Rattle.std.specs.Prelude.{◌≡◌, Some};
ghost use Rattle.std.specs.FinMap as map;
ghost use Rattle.std.specs.BTreeMap.{get};
ghost use Rattle.fab_reach_base.specs.fab_names.Orders.{name_cmp};
ghost use Rattle.fab_store_rows.specs.declared.record_row.PlanState.TheVariants as state;
ghost use Rattle.fab_world.specs.PlanRecords.{PlanRecord, active, rolled_back, withdrawn};
ghost use Rattle.fab_world.specs.Plans.{plan_record, state_of};
ghost use Rattle.fab_desk_commands.specs.Nexts.{turned, plans_turned, Leads};

use crate::Turn;
use crate::rooms::blank;
use fab_reach_base::names::Name;
use fab_store_rows::RowDifference;
use fab_world::{AnyPlan, KeptPlan};
use std::alloc::Allocator;
use std::collections::BTreeMap;
use std::mem::replace;

/// The staged plan, withdrawn.
fn to_withdrawn<A: Allocator + Copy>(was: AnyPlan<A>) -> AnyPlan<A>
    requires { state_of (plan_record was).standing ≡ state.Staged }
    ensures { plan_record result ≡ record (plan_record was) { standing = withdrawn } }
{
    match was {
        AnyPlan::Staged(staged) => AnyPlan::Withdrawn(staged.withdrawn()),
        other => other,
    }
}

/// The staged plan with these approvals.
fn to_approved<A: Allocator + Copy>(
    was: AnyPlan<A>,
    approvals: BTreeMap<Name, u64, A>,
) -> AnyPlan<A>
    requires { state_of (plan_record was).standing ≡ state.Staged }
    ensures { plan_record result ≡ record (plan_record was) { approvals = map.from_entries approvals.entries } }
{
    match was {
        AnyPlan::Staged(staged) => {
            let mut staged = staged;
            staged.plan.approvals = approvals;
            AnyPlan::Staged(staged)
        }
        other => other,
    }
}

/// The staged plan, active, with the difference that its activation made.
fn to_active<A: Allocator + Copy>(was: AnyPlan<A>, change: RowDifference<A>) -> AnyPlan<A>
    requires { state_of (plan_record was).standing ≡ state.Staged }
    ensures { plan_record result ≡ record (plan_record was) { standing = active change.taken.items change.added.items } }
{
    match was {
        AnyPlan::Staged(staged) => AnyPlan::Active(staged.activated(change)),
        other => other,
    }
}

/// The active plan, rolled back.
fn to_rolled_back<A: Allocator + Copy>(was: AnyPlan<A>) -> AnyPlan<A>
    requires { state_of (plan_record was).standing ≡ state.Active }
    ensures { plan_record result ≡ record (plan_record was) { standing = rolled_back } }
{
    match was {
        AnyPlan::Active(active) => {
            let (plan, _undo) = active.rolled_back();
            AnyPlan::RolledBack(plan)
        }
        other => other,
    }
}

/// The plan after the turn, which leads from its state.
fn to_turned<A: Allocator + Copy>(was: AnyPlan<A>, turn: Turn<A>) -> AnyPlan<A>
    requires { Leads turn (plan_record was) }
    ensures { plan_record result ≡ turned turn (plan_record was) }
{
    match turn {
        Turn::Withdrawn => to_withdrawn(was),
        Turn::Approved(approvals) => to_approved(was, approvals),
        Turn::Activated(change) => to_active(was, change),
        Turn::RolledBack(_change) => to_rolled_back(was),
    }
}

/// Turns the plan in its place. It takes no memory.
fn turn_plan<A: Allocator + Copy>(kept: &mut KeptPlan<A>, blank: KeptPlan<A>, turn: Turn<A>)
    requires { Leads turn kept.old }
    ensures { kept.new ≡ turned turn kept.old }
{
    let was = replace(kept, blank);
    kept.inner = to_turned(was.inner, turn);
}

/// Turns the plan of this name, which is in the state that the turn leads from. It takes no memory.
pub fn turn_at<A: Allocator + Copy>(
    alloc: A,
    plans: &mut BTreeMap<Name, KeptPlan<A>, A>,
    name: &Name,
    turn: Turn<A>,
)
    requires { (p : PlanRecord) × (get name_cmp plans.old name.now ≡ Some p) × Leads turn p }
    ensures { map.from_entries {R = name_cmp} plans.new.entries ≡ plans_turned name.now turn (get name_cmp plans.old name.now) (map.from_entries {R = name_cmp} plans.old.entries) }
{
    let Some(kept) = plans.get_mut(name) else {
        return;
    };
    turn_plan(kept, blank(alloc, *name), turn);
}
