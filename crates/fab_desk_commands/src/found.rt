//! The plan that a command is about.
ghost use Rattle.std.specs.Prelude.{◌≡◌, ◌↔◌, IsTrue, IfOk, IfErr};
ghost use Rattle.fab_store_rows.specs.declared.record_row.PlanState.{PlanState as StateOfPlan};
ghost use Rattle.fab_store_rows.specs.declared.record_row.PlanState.TheVariants as states;
ghost use Rattle.fab_world.specs.Plans.{state_of};
ghost use Rattle.fab_desk_base.specs.Answers.{HasPlan};
ghost use Rattle.fab_desk_base.specs.Commands.{IsPlan};
ghost use Rattle.fab_desk_base.specs.Refusals.{FailsWith, IsInOtherState};
ghost use Rattle.fab_desk_base.specs.declared.fault.DeskFault.TheVariants as fault;

use fab_desk_base::DeskFault;
use fab_reach_base::names::Name;
use fab_store_rows::PlanState;
use fab_world::{KeptPlan, World};
use std::alloc::Allocator;

/// The plan of this name, which is there.
fn plan_at<'a, A: Allocator + Copy>(world: &'a World<A>, name: &Name) -> &'a KeptPlan<A>
    requires { HasPlan world.now name.now }
    ensures { IsPlan world.now name.now result.now }
{
    match world.plans.get(name) {
        Some(plan) => plan,
        None => unreachable!(),
    }
}

/// Whether the state is this one.
fn is_state(state: PlanState, wanted: PlanState) -> bool
    ensures { IsTrue result ↔ (state ≡ wanted) }
{
    state == wanted
}

/// The plan of this name, which is there, where it is in this state.
///
/// # Errors
/// `WrongState` with its state, where it is in another one.
fn plan_in_state<'a, A: Allocator + Copy>(
    world: &'a World<A>,
    name: &Name,
    wanted: PlanState,
) -> Result<&'a KeptPlan<A>, DeskFault>
    requires { HasPlan world.now name.now }
    ensures ok { IfOk result (λ plan. IsPlan world.now name.now plan.now × (state_of plan.now.standing ≡ wanted)) }
    ensures err { IfErr result (λ r. (s : StateOfPlan) × FailsWith (fault.WrongState s) (IsInOtherState world.now name.now wanted s) r) }
{
    let plan = plan_at(world, name);
    let state = plan.state();
    if !is_state(state, wanted) {
        return Err(DeskFault::WrongState(state));
    }
    Ok(plan)
}

/// The plan of this name, which is there, where it is staged.
///
/// # Errors
/// `WrongState` with its state, where it is not.
pub fn staged_at<'a, A: Allocator + Copy>(
    world: &'a World<A>,
    name: &Name,
) -> Result<&'a KeptPlan<A>, DeskFault>
    requires { HasPlan world.now name.now }
    ensures ok { IfOk result (λ plan. IsPlan world.now name.now plan.now × (state_of plan.now.standing ≡ states.Staged)) }
    ensures err { IfErr result (λ r. (s : StateOfPlan) × FailsWith (fault.WrongState s) (IsInOtherState world.now name.now states.Staged s) r) }
{
    plan_in_state(world, name, PlanState::Staged)
}

/// The plan of this name, which is there, where it is active.
///
/// # Errors
/// `WrongState` with its state, where it is not.
pub fn active_at<'a, A: Allocator + Copy>(
    world: &'a World<A>,
    name: &Name,
) -> Result<&'a KeptPlan<A>, DeskFault>
    requires { HasPlan world.now name.now }
    ensures ok { IfOk result (λ plan. IsPlan world.now name.now plan.now × (state_of plan.now.standing ≡ states.Active)) }
    ensures err { IfErr result (λ r. (s : StateOfPlan) × FailsWith (fault.WrongState s) (IsInOtherState world.now name.now states.Active s) r) }
{
    plan_in_state(world, name, PlanState::Active)
}

/// Whether this caller staged the plan.
pub fn is_author<A: Allocator + Copy>(kept: &KeptPlan<A>, caller: &Name) -> bool
    ensures { IsTrue result ↔ (caller.now ≡ kept.now.author) }
{
    let plan = kept.plan();
    *caller == plan.author
}
