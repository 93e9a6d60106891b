//! The verdict of a policy on a command.
ghost use Rattle.std.specs.Prelude.{◌≡◌, ◌↔◌, ℕ, List, Contains, IfOk, IsSome};
ghost use Rattle.fab_desk_base.specs.Acts.{IsJudged};
ghost use Rattle.fab_desk_base.specs.Answers.{HasPlan};
ghost use Rattle.fab_desk_base.specs.Commands as commands;
ghost use Rattle.fab_desk_base.specs.Tenants.{Has};
ghost use Rattle.fab_desk_base.specs.Touching.{MovesTenant, Touches};
ghost use Rattle.fab_desk_trials.specs.Made.{IsDecided};
ghost use Rattle.fab_desk_trials.specs.Named.{plan_named, AreListed, AreSteps};

use crate::approvals::{approvals_of, author_of};
use crate::fabrics::fabrics_of;
use crate::named::{action_of, steps_kept, steps_of};
use crate::touched::touched;
use fab_desk_base::Command;
use fab_policy::{Act, Action, Approval, CallerId, PlanApprovals, Policy, Verdict, decide};
use fab_reach_base::names::{Fabric, Name};
use fab_world::World;
use fab_world::plans::base::Step;
use std::alloc::{AllocError, Allocator};
use std::collections::BTreeSet;

/// The lists that were found of a command, which an act is lent together.
#[derive(Drop)]
struct Lists<A: Allocator + Copy> {
    /// The tenants whose things it touches.
    touched: Vec<Name, A>,
    /// The approvals of its plan.
    approvals: Vec<Approval, A>,
}

/// The verdict on an act of these parts: of one without an author as on one without a plan.
fn decided<'a>(
    policy: &Policy,
    id: CallerId,
    action: Action,
    fabrics: &'a [Fabric],
    touched: &'a [Name],
    moment: u64,
    author: Option<Name>,
    approvals: &'a [Approval],
    revision: u64,
) -> Verdict
    ensures { IsDecided policy.now id action fabrics.now touched.now moment author approvals.now revision result }
{
    let Some(author) = author else {
        return decide(
            policy,
            &Act {
                caller: id,
                action,
                fabrics,
                touched,
                moment,
                plan: None,
                revision,
            },
        );
    };
    let plan = Some(PlanApprovals { author, approvals });
    let act = Act {
        caller: id,
        action,
        fabrics,
        touched,
        moment,
        plan,
        revision,
    };
    decide(policy, &act)
}

/// The verdict on the command of this caller, whose plan has these steps, with the lists that were
/// found of it.
fn judged_by<A: Allocator + Copy>(
    policy: &Policy,
    world: &World<A>,
    id: CallerId,
    caller: &Name,
    moment: u64,
    command: &Command<A>,
    action: Action,
    steps: &[Step<A>],
    lists: &Lists<A>,
) -> Verdict
    requires steps { AreSteps world.now command.now steps.now }
    requires there { (n : List ℕ) → commands.plan_of command.now ≡ Some n → HasPlan world.now n }
    requires action { commands.action_of command.now ≡ Some action }
    requires touched { (t : List ℕ) → Contains lists.now.touched.items t ↔ Touches world.now caller.now command.now t }
    requires approvals { AreListed world.now (plan_named command.now) lists.now.approvals.items }
    ensures { IsJudged policy.now world.now id caller.now moment command.now result }
{
    let fabrics = fabrics_of(command, steps);
    let touched = lists.touched.as_slice();
    let author = author_of(world, caller, command);
    let approvals = lists.approvals.as_slice();
    decided(
        policy,
        id,
        action,
        fabrics,
        touched,
        moment,
        author,
        approvals,
        world.revision,
    )
}

/// The verdict of the policy on the command of this caller, who stands at that place of the policy
/// and has this name. The moved tenants are those of the paths that its effect gains or loses.
///
/// Its work is in step with the command's lists, its plan's steps and approvals, and the moved
/// tenants.
///
/// # Errors
/// `AllocError` where there is no memory.
pub fn judged<A: Allocator + Copy>(
    alloc: A,
    policy: &Policy,
    world: &World<A>,
    id: CallerId,
    caller: &Name,
    moment: u64,
    command: &Command<A>,
    moved: &BTreeSet<Name, A>,
) -> Result<Verdict, AllocError>
    requires moved { (t : List ℕ) → Has moved.now t ↔ MovesTenant world.now caller.now command.now t }
    requires there { (n : List ℕ) → commands.plan_of command.now ≡ Some n → HasPlan world.now n }
    requires changes { IsSome (commands.action_of command.now) }
    ensures { IfOk result (IsJudged policy.now world.now id caller.now moment command.now) }
{
    let Some(action) = action_of(command) else {
        unreachable!();
    };
    let kept = steps_kept(alloc, world, command)?;
    let steps = steps_of(command, kept.as_slice());
    let touched = touched(alloc, world, caller, command, steps, moved)?;
    let approvals = approvals_of(alloc, world, command)?;
    let lists = Lists { touched, approvals };
    Ok(judged_by(
        policy, world, id, caller, moment, command, action, steps, &lists,
    ))
}
