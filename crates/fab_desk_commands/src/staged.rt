//! The staging of a plan.
ghost use Rattle.std.specs.Prelude.{◌≡◌, ◌↔◌, IsTrue, IfOk, IfErr, false};
ghost use Rattle.std.specs.Bool.{OnTrue, OnFalse};
ghost use Rattle.std.specs.FinMap as map;
ghost use Rattle.fab_reach_base.specs.fab_lemmas.Room.{IsFull, HasRoom};
ghost use Rattle.fab_world.specs.Limits.{most_plans};
ghost use Rattle.fab_world.specs.fab_plans_base.Plans.{IsWithinLimits};
ghost use Rattle.fab_desk_base.specs.Commands.{IsGiven};
ghost use Rattle.fab_desk_base.specs.Effects.{with_plan, staged_plan};
ghost use Rattle.fab_desk_base.specs.Trying.{IsMade, IsTryFault};
ghost use Rattle.fab_desk_base.specs.declared.command.Command.TheVariants.{Stage};
ghost use Rattle.fab_desk_commands.specs.Trials.{IsSoundAfter};

use crate::found::is_author;
use fab_desk_base::{DeskFault, DeskLimit};
use fab_reach_base::lemmas::is_full;
use fab_reach_base::names::Name;
use fab_world::plans::PlanText;
use fab_world::plans::base::Step;
use fab_world::{KeptPlan, MOST_PLANS, World};
use std::alloc::{AllocError, Allocator};

/// Whether the plan has these steps: whether their printed form is the text that is kept.
///
/// # Errors
/// `AllocError` where there is no memory.
fn has_steps<A: Allocator + Copy>(
    alloc: A,
    kept: &KeptPlan<A>,
    steps: &[Step<A>],
) -> Result<bool, AllocError>
    requires { IsWithinLimits steps.now }
    ensures { IfOk result (λ same. IsTrue same ↔ (kept.now.steps ≡ steps.now)) }
{
    let plan = kept.plan();
    let text = PlanText::of(alloc, steps)?;
    Ok(plan.text.is_same(&text))
}

/// Whether this caller staged the plan, with these steps.
///
/// # Errors
/// `AllocError` where there is no memory.
fn is_same_plan<A: Allocator + Copy>(
    alloc: A,
    kept: &KeptPlan<A>,
    caller: &Name,
    steps: &[Step<A>],
) -> Result<bool, AllocError>
    requires { IsWithinLimits steps.now }
    ensures { IfOk result (λ same. IsTrue same ↔ (caller.now ≡ kept.now.author) × (kept.now.steps ≡ steps.now)) }
{
    if !is_author(kept, caller) {
        return Ok(false);
    }
    has_steps(alloc, kept, steps)
}

/// Whether the name is new, and there are as many plans as there may be.
fn has_no_room<A: Allocator + Copy>(world: &World<A>, name: &Name) -> bool
    ensures full { OnTrue result (IsFull world.now.plans name.now most_plans) }
    ensures room { OnFalse result (HasRoom world.now.plans name.now most_plans) }
{
    is_full(&world.plans, name, MOST_PLANS)
}

/// Whether the caller staged just this plan before, and nothing is to do. Else the name is free, and
/// there is room for one plan more.
///
/// # Errors
/// `Exists` with the name, where it is another plan's, of another author or with other steps;
/// `Limit` where there are 100000 plans; `Memory`. The world stays as it is.
pub fn is_staged_already<A: Allocator + Copy>(
    alloc: A,
    world: &World<A>,
    caller: &Name,
    plan: &Name,
    steps: &Vec<Step<A>, A>,
) -> Result<bool, DeskFault>
    requires { IsGiven (Stage plan.now steps.now) }
    ensures same { IfOk result (λ b. IsTrue b → IsMade world.now caller.now (Stage plan.now steps.now) world.now) }
    ensures new { IfOk result (λ b. b ≡ false → (map.contains_key world.now.plans plan.now ≡ false) × IsMade world.now caller.now (Stage plan.now steps.now) (with_plan plan.now (staged_plan caller.now steps.now.items) world.now)) }
    ensures sound { IfOk result (λ b. b ≡ false → IsSoundAfter world.now (Stage plan.now steps.now) (with_plan plan.now (staged_plan caller.now steps.now.items) world.now)) }
    ensures err { IfErr result (IsTryFault world.now caller.now (Stage plan.now steps.now)) }
{
    if let Some(kept) = world.plans.get(plan) {
        let Ok(same) = is_same_plan(alloc, kept, caller, steps.as_slice()) else {
            return Err(DeskFault::Memory);
        };
        if same {
            return Ok(true);
        }
        return Err(DeskFault::Exists(*plan));
    }
    if has_no_room(world, plan) {
        return Err(DeskFault::Limit(DeskLimit::Plans));
    }
    Ok(false)
}
