//! The activation of a staged plan.
ghost use Rattle.std.specs.Prelude.{◌≡◌, ◌<◌, ℕ, List, IfOk, IfErr, IfSome};
ghost use Rattle.fab_reach_base.specs.Soundness.{IsSoundBeside};
ghost use Rattle.fab_store_rows.specs.Differences.{IsDifference};
ghost use Rattle.fab_world.specs.fab_plans.Outcomes.{IsOutcome};
ghost use Rattle.fab_world.specs.Soundness.{IsSound};
ghost use Rattle.fab_world.specs.Limits.{most_changes};
ghost use Rattle.fab_desk_base.specs.Answers.{HasPlan};
ghost use Rattle.fab_desk_base.specs.Trying.{IsMade, IsTryFault};
ghost use Rattle.fab_desk_base.specs.declared.command.Command.TheVariants.{Activate};
ghost use Rattle.fab_desk_commands.specs.Nexts.{next_world, Suits, TellsRows};
ghost use Rattle.fab_desk_commands.specs.Kinds.{IsReconfiguration};
ghost use Rattle.fab_desk_commands.specs.Trials.{IsOutcomeFault, IsSoundAfter};

use crate::found::staged_at;
use crate::{Next, Turn};
use fab_desk_base::DeskFault;
use fab_plans_rows::outcome_of;
use fab_reach_base::Config;
use fab_reach_base::names::Name;
use fab_store_rows::RowDifference;
use fab_world::plans::TrialFault;
use fab_world::{KeptPlan, World};
use std::alloc::Allocator;

/// The configuration that the plan's steps make of the world's, and the rows that they change. The
/// spare configuration is taken for it, if there is one.
///
/// # Errors
/// `Plan` with the number and the refusal of the first step that is refused, or 0 and the least
/// clash; `Memory`.
fn outcome<A: Allocator + Copy>(
    alloc: A,
    world: &World<A>,
    spare: &mut Option<Config<A>>,
    kept: &KeptPlan<A>,
) -> Result<(Config<A>, RowDifference<A>), DeskFault>
    requires sound { IsSound world.now }
    requires spare { IfSome spare.old (λ s. s ≡ world.now.config) }
    ensures ok { IfOk result (λ made. IsOutcome world.now.inventory kept.now.steps world.now.config made.0) }
    ensures differs { IfOk result (λ made. IsDifference world.now.config made.0 made.1.taken.items made.1.added.items) }
    ensures sound { IfOk result (λ made. IsSoundBeside world.now.inventory world.now.config → IsSoundBeside world.now.inventory made.0) }
    ensures err { IfErr result (IsOutcomeFault world.now kept.now.steps) }
    ensures spare { IfSome spare.new (λ s. s ≡ world.now.config) }
{
    let plan = kept.plan();
    let Ok(steps) = plan.text.steps(alloc) else {
        return Err(DeskFault::Memory);
    };
    let steps = steps.as_slice();
    match outcome_of(alloc, &world.config, spare, &world.inventory, steps) {
        Ok(made) => Ok(made),
        Err(TrialFault::Refused { step, refusal }) => Err(DeskFault::Plan { step, refusal }),
        Err(TrialFault::Memory) => Err(DeskFault::Memory),
    }
}

/// What the activation of the plan would make: the configuration that its steps make, the plan,
/// active, with what it changes, and the plan as the last in force. The spare configuration is taken
/// for it, if there is one.
///
/// # Errors
/// `WrongState` with its state, where the plan is not staged; `Plan` with the number and the refusal
/// of the first step that is refused, or 0 and the least clash; `Memory`. The world stays as it is.
pub fn activated<A: Allocator + Copy>(
    alloc: A,
    world: &World<A>,
    spare: &mut Option<Config<A>>,
    plan: &Name,
) -> Result<Next<A>, DeskFault>
    requires there { HasPlan world.now plan.now }
    requires sound { IsSound world.now }
    requires spare { IfSome spare.old (λ s. s ≡ world.now.config) }
    ensures ok { (caller : List ℕ) → IfOk result (λ next. IsMade {A = A.row.Denot} world.now caller (Activate plan.now) (next_world world.now next)) }
    ensures kind { IfOk result (IsReconfiguration plan.now) }
    ensures suits { IfOk result (λ next. world.now.revision < most_changes → Suits world.now next) }
    ensures tells { IfOk result (TellsRows world.now) }
    ensures sound { IfOk result (λ next. IsSoundAfter {A = A.row.Denot} world.now (Activate plan.now) (next_world world.now next)) }
    ensures err { (caller : List ℕ) → IfErr result (IsTryFault {A = A.row.Denot} world.now caller (Activate plan.now)) }
    ensures spare { IfSome spare.new (λ s. s ≡ world.now.config) }
{
    let kept = match staged_at(world, plan) {
        Ok(kept) => kept,
        Err(fault) => return Err(fault),
    };
    match outcome(alloc, world, spare, kept) {
        Ok((config, change)) => Ok(Next::Reconfigured {
            config,
            name: *plan,
            turn: Turn::Activated(change),
        }),
        Err(fault) => Err(fault),
    }
}
