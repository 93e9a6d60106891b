//! What a command says of itself, and the plan that it names.
ghost use Rattle.std.specs.Prelude.{◌≡◌, ◌↔◌, Contains, IfOk};
ghost use Rattle.fab_reach_base.specs.Views.{seen};
ghost use Rattle.fab_world.specs.fab_plans_base.Steps.{PlanStep};
ghost use Rattle.fab_world.specs.Worlds.{WorldRows, records_of};
ghost use Rattle.fab_desk_base.specs.Commands as commands;
ghost use Rattle.fab_desk_trials.specs.Named.{plan_named, AreKept, AreSteps};

use fab_desk_base::Command;
use fab_policy::Action;
use fab_reach_base::View;
use fab_reach_base::names::Name;
use fab_world::World;
use fab_world::plans::base::Step;
use std::alloc::{AllocError, Allocator};

/// What the command does, as a policy names it; a read has no action.
pub fn action_of<A: Allocator + Copy>(command: &Command<A>) -> Option<Action>
    ensures { result ≡ commands.action_of command.now }
{
    match command {
        Command::Import { .. } => Some(Action::Import),
        Command::PutHolder { .. }
        | Command::PutVolume { .. }
        | Command::DropHolder { .. }
        | Command::DropVolume { .. } => Some(Action::Inventory),
        Command::Stage { .. } => Some(Action::Stage),
        Command::Withdraw { .. } => Some(Action::Withdraw),
        Command::Approve { .. } => Some(Action::Approve),
        Command::DryRun { .. } => Some(Action::DryRun),
        Command::Activate { .. } => Some(Action::Activate),
        Command::Rollback { .. } => Some(Action::Rollback),
        Command::Show(_) => None,
    }
}

/// The plan that the command is about, which has to be there.
pub fn plan_of<A: Allocator + Copy>(command: &Command<A>) -> Option<Name>
    ensures { result ≡ commands.plan_of command.now }
{
    match command {
        Command::Withdraw { plan }
        | Command::Approve { plan }
        | Command::DryRun { plan }
        | Command::Activate { plan }
        | Command::Rollback { plan } => Some(*plan),
        _ => None,
    }
}

/// The plan that the command is about, or that it stages.
pub fn named_plan<A: Allocator + Copy>(command: &Command<A>) -> Option<Name>
    ensures { result ≡ plan_named command.now }
{
    match command {
        Command::Stage { plan, .. } => Some(*plan),
        _ => plan_of(command),
    }
}

/// What paths follow from in the world.
pub fn view_of<A: Allocator + Copy>(world: &World<A>) -> View<'_, A>
    ensures { seen result ≡ records_of world.now }
{
    View::of(&world.inventory, &world.config)
}

/// The steps of the plan of this name, read from its text; none where there is no such plan.
///
/// # Errors
/// `AllocError` where there is no memory.
fn steps_under<A: Allocator + Copy>(
    alloc: A,
    world: &World<A>,
    name: &Name,
) -> Result<Vec<Step<A>, A>, AllocError>
    ensures { IfOk result (λ steps. (s : PlanStep) → Contains steps.items s ↔ commands.PlanHasStep world.now (Some name.now) s) }
{
    let Some(kept) = world.plan(name) else {
        return Ok(Vec::new(alloc));
    };
    let plan = kept.plan();
    let steps = plan.text.steps(alloc)?;
    Ok(steps)
}

/// The steps of the plan that the command is about, read from its text; none where it is about no
/// plan.
///
/// # Errors
/// `AllocError` where there is no memory.
pub fn steps_kept<A: Allocator + Copy>(
    alloc: A,
    world: &World<A>,
    command: &Command<A>,
) -> Result<Vec<Step<A>, A>, AllocError>
    ensures { IfOk result (λ steps. AreKept world.now command.now steps.items) }
{
    match plan_of(command) {
        Some(name) => steps_under(alloc, world, &name),
        None => Ok(Vec::new(alloc)),
    }
}

/// The steps of the command's plan: of the one that it stages, or else those that are kept of the one
/// that it is about.
pub fn steps_of<'a, A: Allocator + Copy>(
    command: &'a Command<A>,
    kept: &'a [Step<A>],
) -> &'a [Step<A>]
    ensures { (w : WorldRows) → AreKept w command.now kept.now → AreSteps w command.now result.now }
{
    if let Command::Stage { steps, .. } = command {
        return steps.as_slice();
    }
    kept
}
