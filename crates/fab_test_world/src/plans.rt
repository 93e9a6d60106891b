//! Plans by name, with all that is kept of them.

use fab_names::Name;
use fab_plans::Plan;
use fab_store_rows::RowDifference;
use fab_world::KeptPlan;
use std::alloc::Allocator;
use std::collections::BTreeMap;

/// Whether the same callers approved, the last time at the same revisions.
fn are_same_approvals<A: Allocator>(
    approvals: &BTreeMap<Name, u64, A>,
    others: &BTreeMap<Name, u64, A>,
) -> bool {
    for (caller, revision) in approvals {
        if others.get(caller) != Some(revision) {
            return false;
        }
    }
    approvals.len() == others.len()
}

/// Whether the plans have the same author, steps and approvals.
fn is_same_text<A: Allocator + Copy>(plan: &Plan<A>, other: &Plan<A>) -> bool {
    plan.author == other.author
        && plan.text.is_same(&other.text)
        && are_same_approvals(&plan.approvals, &other.approvals)
}

/// Whether the activations, if there are any, changed the same rows.
fn is_same_undo<A: Allocator + Copy>(
    undo: Option<&RowDifference<A>>,
    other: Option<&RowDifference<A>>,
) -> bool {
    match (undo, other) {
        (None, None) => true,
        (Some(undo), Some(other)) => {
            undo.taken.as_slice() == other.taken.as_slice()
                && undo.added.as_slice() == other.added.as_slice()
        }
        _ => false,
    }
}

/// Whether the plans are the same, in the same state.
fn is_same_plan<A: Allocator + Copy>(kept: &KeptPlan<A>, other: &KeptPlan<A>) -> bool {
    kept.state() == other.state()
        && is_same_text(kept.plan(), other.plan())
        && is_same_undo(kept.undo(), other.undo())
}

/// Whether a plan of this name is there, and is the same.
fn has_plan<A: Allocator + Copy>(
    plans: &BTreeMap<Name, KeptPlan<A>, A>,
    name: &Name,
    kept: &KeptPlan<A>,
) -> bool {
    match plans.get(name) {
        Some(other) => is_same_plan(kept, other),
        None => false,
    }
}

/// Whether the same plans are there, under the same names.
pub fn are_same_plans<A: Allocator + Copy>(
    plans: &BTreeMap<Name, KeptPlan<A>, A>,
    others: &BTreeMap<Name, KeptPlan<A>, A>,
) -> bool {
    for (name, kept) in plans {
        if !has_plan(others, name, kept) {
            return false;
        }
    }
    plans.len() == others.len()
}
