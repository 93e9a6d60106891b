//! Plans, in whatever state they are.
ghost use Rattle.std.specs.Prelude.{◌≡◌, ◌↔◌, IsTrue, MatchOption, None, Some};
ghost use Rattle.fab_plans.specs.Plans.{seen_plan};
ghost use Rattle.fab_world.specs.Plans.{plan_record, plan_rows, state_of, undo_of, change_in, IsActive};

use fab_plans::{Active, Plan, RolledBack, Staged, Withdrawn};
use fab_store_load::rows::{PlanState, RowDifference};
use std::alloc::Allocator;
use std::marker::Model;

/// A plan in one of its states. What undoes an active plan is the difference of rows that its
/// activation made.
#[derive(Drop)]
pub enum AnyPlan<A: Allocator + Copy> {
    /// It waits for its activation.
    Staged(Staged<A>),
    /// It was activated, and its activation is in force.
    Active(Active<A, RowDifference<A>>),
    /// Its activation was undone.
    RolledBack(RolledBack<A>),
    /// It was withdrawn before it was activated.
    Withdrawn(Withdrawn<A>),
}

impl<A: Allocator + Copy> AnyPlan<A> {
    /// What the plan has in whatever state: author, steps and approvals.
    pub fn plan(&self) -> &Plan<A>
        ensures { seen_plan result.now ≡ plan_rows (plan_record self.now) }
    {
        match self {
            AnyPlan::Staged(staged) => &staged.plan,
            AnyPlan::Active(active) => &active.plan,
            AnyPlan::RolledBack(rolled_back) => &rolled_back.plan,
            AnyPlan::Withdrawn(withdrawn) => &withdrawn.plan,
        }
    }

    /// The state that the plan is in.
    pub fn state(&self) -> PlanState
        ensures { result ≡ state_of (plan_record self.now).standing }
    {
        match self {
            AnyPlan::Staged(_) => PlanState::Staged,
            AnyPlan::Active(_) => PlanState::Active,
            AnyPlan::RolledBack(_) => PlanState::RolledBack,
            AnyPlan::Withdrawn(_) => PlanState::Withdrawn,
        }
    }

    /// What undoes the plan's activation, where it is active.
    pub fn undo(&self) -> Option<&RowDifference<A>>
        ensures { MatchOption result (undo_of (plan_record self.now).standing ≡ None) (λ change. undo_of (plan_record self.now).standing ≡ Some (change_in change.now)) }
    {
        match self {
            AnyPlan::Active(active) => Some(&active.undo),
            AnyPlan::Staged(_) | AnyPlan::RolledBack(_) | AnyPlan::Withdrawn(_) => None,
        }
    }
}

/// A plan as a world keeps it.
///
/// A contract sees it as a `PlanRecord`.
#[derive(Drop)]
pub struct KeptPlan<A: Allocator + Copy> {
    /// The plan, in its state.
    pub inner: AnyPlan<A>,
}

impl<A: Allocator + Copy> Model for KeptPlan<A> {
    ghost use Rattle.fab_world.specs.PlanRecords.{PlanRecord};
    ghost use Rattle.fab_world.specs.Codes.{plan_code};

    ghost Value = { PlanRecord };

    ghost coded = { plan_code };

    ghost use Rattle.fab_world.specs.Plans.{plan_record};

    ghost view = { λ k. plan_record k.inner };
}

impl<A: Allocator + Copy> KeptPlan<A> {
    /// What the plan has in whatever state: author, steps and approvals.
    pub fn plan(&self) -> &Plan<A>
        ensures { seen_plan result.now ≡ plan_rows self.now }
    {
        self.inner.plan()
    }

    /// The state that the plan is in.
    pub fn state(&self) -> PlanState
        ensures { result ≡ state_of self.now.standing }
    {
        self.inner.state()
    }

    /// What undoes the plan's activation, where it is active.
    pub fn undo(&self) -> Option<&RowDifference<A>>
        ensures { MatchOption result (undo_of self.now.standing ≡ None) (λ change. undo_of self.now.standing ≡ Some (change_in change.now)) }
    {
        self.inner.undo()
    }

    /// Whether the plan is active: its activation is in force.
    pub fn is_active(&self) -> bool
        ensures { IsTrue result ↔ IsActive self.now }
    {
        self.inner.undo().is_some()
    }
}
