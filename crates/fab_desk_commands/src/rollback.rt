//! The rollback of the last plan in force.
ghost use Rattle.std.specs.Prelude.{◌≡◌, ◌<◌, ℕ, List, length, IfOk, IfErr, IfSome, OnOk, MatchOption};
ghost use Rattle.fab_reach_base.specs.Records.{ConfigRows};
ghost use Rattle.fab_store_rows.specs.Differences.{IsDifference};
ghost use Rattle.fab_reach_base.specs.fab_mapping.Gone.{IsFirstGone};
ghost use Rattle.fab_reach_base.specs.fab_mapping.Soundness.{Fits};
ghost use Rattle.fab_world.specs.Soundness.{IsSound};
ghost use Rattle.fab_world.specs.Limits.{most_changes};
ghost use Rattle.fab_desk_base.specs.Answers.{HasPlan};
ghost use Rattle.fab_desk_base.specs.Effects.{IsLastAfter};
ghost use Rattle.fab_desk_base.specs.Refusals.{FailsWith, IsOtherLast};
ghost use Rattle.fab_desk_base.specs.Trying.{IsMade, IsTryFault};
ghost use Rattle.fab_desk_base.specs.declared.command.Command.TheVariants.{Rollback};
ghost use Rattle.fab_desk_base.specs.declared.fault.DeskFault.TheVariants as fault;
ghost use Rattle.fab_desk_commands.specs.Nexts.{next_world, Suits, TellsRows};
ghost use Rattle.fab_desk_commands.specs.Kinds.{IsReconfiguration};
ghost use Rattle.fab_desk_commands.specs.Trials.{HasEarlier, IsBeforePlan, IsRollback, IsRestoreFault, IsSoundAfter};

use crate::again::turned_round;
use crate::found::active_at;
use crate::{Next, Turn};
use fab_desk_base::DeskFault;
use fab_plans_rows::{gone_there, take_spare};
use fab_reach_base::Config;
use fab_reach_base::mapping::Gone;
use fab_reach_base::names::Name;
use fab_store_edits::lead;
use fab_store_rows::RowDifference;
use fab_world::{KeptPlan, World};
use std::alloc::{AllocError, Allocator};

/// Sees that the plan is the last in force; some plan is.
///
/// # Errors
/// `NotLast` with the last one, where it is another.
fn judge_last<A: Allocator + Copy>(world: &World<A>, plan: &Name) -> Result<(), DeskFault>
    requires { 0 < length world.now.order }
    ensures ok { OnOk result ((rest : List (List ℕ)) × IsLastAfter world.now rest plan.now) }
    ensures err { IfErr result (λ r. (last : List ℕ) × FailsWith (fault.NotLast last) (IsOtherLast world.now plan.now last) r) }
{
    let Some(pair) = world.order.as_slice().split_last() else {
        unreachable!();
    };
    let (last, _rest) = pair;
    if last != plan {
        return Err(DeskFault::NotLast(*last));
    }
    Ok(())
}

/// The configuration from before the activation of the plan, which is there: the rows that it took
/// come back, and those that it added go, on the spare configuration, which is taken, or on a copy. The
/// world is sound, so this one needs no test.
///
/// # Errors
/// `AllocError` where there is no memory.
fn config_before<A: Allocator + Copy>(
    alloc: A,
    world: &World<A>,
    spare: &mut Option<Config<A>>,
    kept: &KeptPlan<A>,
) -> Result<Config<A>, AllocError>
    requires sound { IsSound world.now }
    requires earlier { HasEarlier world.now kept.now }
    requires spare { IfSome spare.old (λ s. s ≡ world.now.config) }
    ensures before { IfOk result (IsBeforePlan world.now kept.now) }
    ensures spare { IfSome spare.new (λ s. s ≡ world.now.config) }
{
    let Some(undo) = kept.undo() else {
        unreachable!();
    };
    let mut config = take_spare(&world.config, spare)?;
    if !lead(
        alloc,
        &mut config,
        undo.added.as_slice(),
        undo.taken.as_slice(),
    )? {
        unreachable!();
    }
    Ok(config)
}

/// The first that the configuration from before the activation of the plan names and the inventory
/// has not, if there is any. Only what the activation took can be gone.
fn gone_before<A: Allocator + Copy>(
    world: &World<A>,
    kept: &KeptPlan<A>,
    config: &Config<A>,
) -> Option<Gone>
    requires sound { IsSound world.now }
    requires before { IsBeforePlan world.now kept.now config.now }
    ensures { MatchOption result (Fits world.now.inventory config.now.mapping) (IsFirstGone world.now.inventory config.now.mapping) }
{
    let Some(undo) = kept.undo() else {
        unreachable!();
    };
    gone_there(config, &world.inventory, undo.taken.as_slice())
}

/// The configuration from before the activation of the plan, where all is there that it names.
///
/// # Errors
/// `Gone` with the first that it names and the inventory has not; `Memory`.
fn restored<A: Allocator + Copy>(
    alloc: A,
    world: &World<A>,
    spare: &mut Option<Config<A>>,
    kept: &KeptPlan<A>,
) -> Result<Config<A>, DeskFault>
    requires sound { IsSound world.now }
    requires earlier { HasEarlier world.now kept.now }
    requires spare { IfSome spare.old (λ s. s ≡ world.now.config) }
    ensures ok { IfOk result (λ before. IsBeforePlan world.now kept.now before × Fits world.now.inventory before.mapping) }
    ensures err { IfErr result (IsRestoreFault world.now kept.now) }
    ensures spare { IfSome spare.new (λ s. s ≡ world.now.config) }
{
    let Ok(before) = config_before(alloc, world, spare, kept) else {
        return Err(DeskFault::Memory);
    };
    match gone_before(world, kept, &before) {
        Some(gone) => Err(DeskFault::Gone(gone)),
        None => Ok(before),
    }
}

/// What the rollback of the plan changes, which is there: what its activation changed, turned round.
fn change_back<A: Allocator + Copy>(
    alloc: A,
    world: &World<A>,
    kept: &KeptPlan<A>,
) -> Result<RowDifference<A>, AllocError>
    requires { HasEarlier world.now kept.now }
    ensures { (before : ConfigRows) → IsBeforePlan world.now kept.now before → IfOk result (λ d. IsDifference world.now.config before d.taken.items d.added.items) }
{
    let _world = world;
    let Some(undo) = kept.undo() else {
        unreachable!();
    };
    turned_round(alloc, undo)
}

/// The parts of the world after the rollback of the plan, which leads to this configuration.
fn parts_before<A: Allocator + Copy>(
    alloc: A,
    world: &World<A>,
    kept: &KeptPlan<A>,
    plan: &Name,
    config: Config<A>,
) -> Result<Next<A>, AllocError>
    requires earlier { HasEarlier world.now kept.now }
    requires before { IsBeforePlan world.now kept.now config }
    ensures { IfOk result (IsRollback world.now plan.now config) }
{
    let change = change_back(alloc, world, kept)?;
    Ok(Next::Reconfigured {
        config,
        name: *plan,
        turn: Turn::RolledBack(change),
    })
}

/// What the rollback of the plan would make: the configuration from before its activation, the
/// plan, rolled back, and the plans in force without it. The inventory stays. The spare configuration is
/// taken for it, if there is one.
///
/// # Errors
/// `WrongState` with its state, where the plan is not active; `NotLast` with the last plan in
/// force, where it is another; `Gone` with the first that the earlier configuration names and the
/// inventory has not; `Memory`. The world stays as it is.
pub fn rolled_back<A: Allocator + Copy>(
    alloc: A,
    world: &World<A>,
    spare: &mut Option<Config<A>>,
    plan: &Name,
) -> Result<Next<A>, DeskFault>
    requires there { HasPlan world.now plan.now }
    requires sound { IsSound world.now }
    requires spare { IfSome spare.old (λ s. s ≡ world.now.config) }
    ensures ok { (caller : List ℕ) → IfOk result (λ next. IsMade {A = A.row.Denot} world.now caller (Rollback plan.now) (next_world world.now next)) }
    ensures kind { IfOk result (IsReconfiguration plan.now) }
    ensures suits { IfOk result (λ next. world.now.revision < most_changes → Suits world.now next) }
    ensures tells { IfOk result (TellsRows world.now) }
    ensures sound { IfOk result (λ next. IsSoundAfter {A = A.row.Denot} world.now (Rollback plan.now) (next_world world.now next)) }
    ensures err { (caller : List ℕ) → IfErr result (IsTryFault {A = A.row.Denot} world.now caller (Rollback plan.now)) }
    ensures spare { IfSome spare.new (λ s. s ≡ world.now.config) }
{
    let kept = match active_at(world, plan) {
        Ok(kept) => kept,
        Err(fault) => return Err(fault),
    };
    if let Err(fault) = judge_last(world, plan) {
        return Err(fault);
    }
    let config = match restored(alloc, world, spare, kept) {
        Ok(config) => config,
        Err(fault) => return Err(fault),
    };
    match parts_before(alloc, world, kept, plan, config) {
        Ok(next) => Ok(next),
        Err(_) => Err(DeskFault::Memory),
    }
}
