//! The states of a plan. A call that leads from one state to another takes the plan, so that a plan
//! is in one state alone.
ghost use Rattle.std.specs.Prelude.{◌≡◌, ◌≢◌, OnOk, OnErr, IfOk, IfErr};
ghost use Rattle.fab_plans.specs.Outcomes.{IsOutcome, IsTrialFault};
ghost use Rattle.fab_plans.specs.Plans.{seen_plan, new_plan, approved_by, IsApprovalFault};
ghost use Rattle.fab_reach_base.specs.Soundness.{IsSoundBeside};

use crate::{ApprovalFault, Plan, TrialFault, trial};
use fab_plans_text::PlanText;
use fab_reach_base::Config;
use fab_reach_base::inventory::Inventory;
use fab_reach_base::names::Name;
use std::alloc::Allocator;

/// A plan that is staged: it may be approved, tried, activated or withdrawn.
#[derive(Drop)]
pub struct Staged<A: Allocator + Copy> {
    /// The plan.
    pub plan: Plan<A>,
}

/// A plan that is active, with what undoes it.
#[derive(Drop)]
pub struct Active<A: Allocator + Copy, U> {
    /// The plan.
    pub plan: Plan<A>,
    /// What its activation changed.
    pub undo: U,
}

/// A plan that was active and was rolled back.
#[derive(Drop)]
pub struct RolledBack<A: Allocator + Copy> {
    /// The plan.
    pub plan: Plan<A>,
}

/// A plan that was staged and was withdrawn.
#[derive(Drop)]
pub struct Withdrawn<A: Allocator + Copy> {
    /// The plan.
    pub plan: Plan<A>,
}

impl<A: Allocator + Copy> Staged<A> {
    /// The plan of an author, with these steps, which nobody approved yet. It takes no memory.
    pub fn new(alloc: A, author: Name, text: PlanText<A>) -> Self
        ensures { seen_plan result.plan ≡ new_plan author text }
    {
        Staged {
            plan: Plan::new(alloc, author, text),
        }
    }

    /// Keeps the approval of a caller at a revision, in place of an earlier one of that caller.
    ///
    /// # Errors
    /// `OwnPlan` where the caller is the author; `Memory`. The plan is then as it was.
    pub fn approve(&mut self, caller: Name, revision: u64) -> Result<(), ApprovalFault>
        ensures other { OnOk result (caller ≢ self.old.plan.author) }
        ensures ok { OnOk result (seen_plan self.new.plan ≡ approved_by caller revision (seen_plan self.old.plan)) }
        ensures refused { IfErr result (IsApprovalFault (seen_plan self.old.plan) caller) }
        ensures err { OnErr result (seen_plan self.new.plan ≡ seen_plan self.old.plan) }
    {
        self.plan.approve(caller, revision)
    }

    /// What the plan would make of a configuration beside an inventory. The plan and the
    /// configuration stay as they are.
    ///
    /// # Errors
    /// Those of `trial`.
    pub fn outcome(
        &self,
        alloc: A,
        config: &Config<A>,
        inventory: &Inventory<A>,
    ) -> Result<Config<A>, TrialFault>
        ensures ok { IfOk result (IsOutcome inventory.now self.now.plan.text config.now) }
        ensures sound { IfOk result (λ after. IsSoundBeside inventory.now config.now → IsSoundBeside inventory.now after) }
        ensures refused { IfErr result (IsTrialFault inventory.now self.now.plan.text config.now) }
    {
        let Ok(steps) = self.plan.text.steps(alloc) else {
            return Err(TrialFault::Memory);
        };
        trial(config, inventory, &steps)
    }

    /// The plan as an active one, with what undoes it. It takes no memory.
    pub fn activated<U>(self, undo: U) -> Active<A, U>
        ensures plan { result.plan ≡ self.plan }
        ensures undo { result.undo ≡ undo }
    {
        Active {
            plan: self.plan,
            undo,
        }
    }

    /// The plan as a withdrawn one. It takes no memory.
    pub fn withdrawn(self) -> Withdrawn<A>
        ensures { result.plan ≡ self.plan }
    {
        Withdrawn { plan: self.plan }
    }
}

impl<A: Allocator + Copy, U> Active<A, U> {
    /// The plan as one that was rolled back, and what undoes it. It takes no memory.
    pub fn rolled_back(self) -> (RolledBack<A>, U)
        ensures plan { result.0.plan ≡ self.plan }
        ensures undo { result.1 ≡ self.undo }
    {
        (RolledBack { plan: self.plan }, self.undo)
    }
}
