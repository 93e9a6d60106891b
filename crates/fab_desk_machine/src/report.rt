//! What is answered once a change is taken over.
ghost use Rattle.std.specs.Prelude.{◌≡◌, ℕ};
ghost use Rattle.std.specs.FinMap as map;
ghost use Rattle.fab_world.specs.PlanRecords.{PlanRecord};
ghost use Rattle.fab_world.specs.Soundness.{IsSound};
ghost use Rattle.fab_desk_base.specs.Commands.{IsPlan};
ghost use Rattle.fab_desk_machine.specs.Reports.{reply_of, Tells};

use fab_desk_base::{Command, Reply};
use fab_reach_base::Delta;
use fab_reach_base::names::Name;
use fab_world::{KeptPlan, World};
use std::alloc::Allocator;

/// What is answered once a change is taken over, but for the lists of paths.
#[derive(Clone, Copy, Drop)]
pub enum Report {
    /// An import, a put or a drop was done: the revision after it.
    Changed {
        /// The revision after it.
        revision: u64,
    },
    /// The plan is staged, with so many steps.
    Staged {
        /// The name of the plan.
        plan: Name,
        /// How many steps it has, 1 to 200.
        steps: usize,
    },
    /// The plan is withdrawn.
    Withdrawn {
        /// The name of the plan.
        plan: Name,
    },
    /// The plan has approvals of so many callers; the present revision.
    Approved {
        /// The name of the plan.
        plan: Name,
        /// How many callers approved it.
        approvals: usize,
        /// The present revision.
        revision: u64,
    },
    /// The plan was activated or rolled back: the revision after it.
    Reconfigured {
        /// The name of the plan.
        plan: Name,
        /// The revision after it.
        revision: u64,
    },
}

/// The reply, with the lists of paths that the change gained and lost. It takes no memory.
pub fn reply_with<A: Allocator + Copy>(report: Report, delta: Delta<A>) -> Reply<A>
    ensures { result ≡ reply_of report delta }
{
    match report {
        Report::Changed { revision } => Reply::Changed { revision },
        Report::Staged { plan, steps } => Reply::Staged { plan, steps },
        Report::Withdrawn { plan } => Reply::Withdrawn { plan },
        Report::Approved {
            plan,
            approvals,
            revision,
        } => Reply::Approved {
            plan,
            approvals,
            revision,
        },
        Report::Reconfigured { plan, revision } => Reply::Reconfigured {
            plan,
            delta,
            revision,
        },
    }
}

/// Of how many callers the plan has approvals once this one has approved it.
fn approvals_with<A: Allocator + Copy>(kept: &KeptPlan<A>, caller: &Name) -> usize
    ensures { (revision : ℕ) → result ≡ map.len (map.insert kept.now.approvals caller.now revision) }
{
    let plan = kept.plan();
    let count = plan.approvals.len();
    if plan.approvals.contains_key(caller) {
        return count;
    }
    count + 1
}

/// Of how many callers the plan of this name, if there is one, has approvals once this one has
/// approved it.
fn approvals_after<A: Allocator + Copy>(world: &World<A>, plan: &Name, caller: &Name) -> usize
    ensures { (p : PlanRecord) → IsPlan world.now plan.now p → (revision : ℕ) → result ≡ map.len (map.insert p.approvals caller.now revision) }
{
    match world.plan(plan) {
        Some(kept) => approvals_with(kept, caller),
        None => 0,
    }
}

/// What is answered once the command's effect is taken over. A dry run and a read have none.
pub fn report_of<A: Allocator + Copy>(
    world: &World<A>,
    caller: &Name,
    command: &Command<A>,
) -> Report
    requires { IsSound world.now }
    ensures { Tells world.now caller.now command.now result }
{
    let revision = world.revision + 1;
    match command {
        Command::Stage { plan, steps } => Report::Staged {
            plan: *plan,
            steps: steps.len(),
        },
        Command::Withdraw { plan } => Report::Withdrawn { plan: *plan },
        Command::Approve { plan } => Report::Approved {
            plan: *plan,
            approvals: approvals_after(world, plan, caller),
            revision: world.revision,
        },
        Command::Activate { plan } => Report::Reconfigured {
            plan: *plan,
            revision,
        },
        Command::Rollback { plan } => Report::Reconfigured {
            plan: *plan,
            revision,
        },
        _ => Report::Changed { revision },
    }
}
