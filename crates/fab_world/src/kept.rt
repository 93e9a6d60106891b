//! Whether the plans of a world are sound, and which of them are listed as active.
ghost use Rattle.std.specs.Prelude.{◌≡◌, ◌≤◌, ◌↔◌, ℕ, List, All, IsTrue, true, IfOk};
ghost use Rattle.std.specs.BTreeMap.{get};
ghost use Rattle.std.specs.BTreeSet.{contains};
ghost use Rattle.fab_reach_base.specs.fab_lemmas.Firsts.{HasAt};
ghost use Rattle.fab_reach_base.specs.fab_names.Orders.{name_cmp};
ghost use Rattle.fab_reach_base.specs.fab_mapping.Soundness.{Each};
ghost use Rattle.fab_world.specs.Plans.{IsActive};
ghost use Rattle.fab_world.specs.Soundness.{IsSoundPlan, ListsActive};
ghost use Rattle.fab_world.specs.Limits.{most_changes};

use crate::{KeptPlan, MOST_CHANGES};
use fab_reach_base::lemmas::set_of;
use fab_reach_base::names::Name;
use std::alloc::{AllocError, Allocator};
use std::collections::{BTreeMap, BTreeSet};

/// Whether no approval is at a revision above the greatest that there may be.
fn are_sound_approvals<A: Allocator>(approvals: &BTreeMap<Name, u64, A>) -> bool
    ensures { IsTrue result ↔ Each (get name_cmp approvals.now) (λ revision. revision ≤ most_changes) }
{
    approvals.values().all(|revision| *revision <= MOST_CHANGES)
}

/// Whether the plan is sound.
fn is_sound_plan<A: Allocator + Copy>(kept: &KeptPlan<A>) -> bool
    ensures { IsTrue result ↔ IsSoundPlan kept.now }
{
    let plan = kept.plan();
    if !plan.text.is_within_limits() {
        return false;
    }
    are_sound_approvals(&plan.approvals)
}

/// Whether each plan is sound.
pub fn are_sound_plans<A: Allocator + Copy>(plans: &BTreeMap<Name, KeptPlan<A>, A>) -> bool
    ensures { IsTrue result ↔ Each (get name_cmp plans.now) IsSoundPlan }
{
    plans.values().all(|plan| is_sound_plan(plan))
}

/// Whether the plan of this name is there and active: its activation is in force.
pub fn is_active_at<A: Allocator + Copy>(
    plans: &BTreeMap<Name, KeptPlan<A>, A>,
    name: &Name,
) -> bool
    ensures { IsTrue result ↔ HasAt (get name_cmp plans.now) IsActive name.now }
{
    let Some(plan) = plans.get(name) else {
        return false;
    };
    plan.is_active()
}

/// Whether the plan of each of these names is there and active.
fn are_active<A: Allocator + Copy>(plans: &BTreeMap<Name, KeptPlan<A>, A>, order: &[Name]) -> bool
    ensures { IsTrue result ↔ All (HasAt (get name_cmp plans.now) IsActive) order.now }
{
    for name in order {
        if !is_active_at(plans, name) {
            return false;
        }
    }
    true
}

/// Whether the name is one of these, if the plan is active.
fn is_listed<A: Allocator + Copy>(
    names: &BTreeSet<Name, A>,
    name: &Name,
    plan: &KeptPlan<A>,
) -> bool
    ensures { IsTrue result ↔ (IsActive plan.now → contains name_cmp names.now name.now ≡ true) }
{
    if !plan.is_active() {
        return true;
    }
    names.contains(name)
}

/// Whether the name of each active plan is one of these.
fn are_listed<A: Allocator + Copy>(
    plans: &BTreeMap<Name, KeptPlan<A>, A>,
    names: &BTreeSet<Name, A>,
) -> bool
    ensures { IsTrue result ↔ ((name : List ℕ) → HasAt (get name_cmp plans.now) IsActive name → contains name_cmp names.now name ≡ true) }
{
    for (name, plan) in plans {
        if !is_listed(names, name, plan) {
            return false;
        }
    }
    true
}

/// Whether just the active plans are listed, each once.
pub fn lists_active<A: Allocator + Copy>(
    alloc: A,
    plans: &BTreeMap<Name, KeptPlan<A>, A>,
    order: &[Name],
) -> Result<bool, AllocError>
    ensures { IfOk result (λ is. IsTrue is ↔ ListsActive (get name_cmp plans.now) order.now) }
{
    let names = set_of(alloc, order)?;
    if names.len() != order.len() {
        return Ok(false);
    }
    if !are_active(plans, order) {
        return Ok(false);
    }
    Ok(are_listed(plans, &names))
}
