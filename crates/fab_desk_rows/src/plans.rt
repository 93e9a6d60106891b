//! The rows of the three tables of plans in which the next world differs.
ghost use Rattle.std.specs.Prelude.{◌≡◌, false, IfOk};
ghost use Rattle.std.specs.FinMap as map;
ghost use Rattle.fab_world.specs.PlanRecords.{PlanRecord};
ghost use Rattle.fab_world.specs.Plans.{state_of};
ghost use Rattle.fab_world.specs.Soundness.{IsSound};
ghost use Rattle.fab_world.specs.Worlds.{WorldRows};
ghost use Rattle.fab_store_world.specs.Keys.{plan_order};
ghost use Rattle.fab_store_world.specs.Standing.{IsPlanRow};
ghost use Rattle.fab_desk_base.specs.Commands.{IsPlan};
ghost use Rattle.fab_desk_commands.specs.Nexts.{next_world, turned, Leads, LeadsAt, Suits};
ghost use Rattle.fab_desk_rows.specs.Moves.{AreMoved, ArePlanTablesMoved, IsStagedTo, IsTurnedTo, HaveOnePlans};

use crate::approvals::{staged_approvals, turned_approvals};
use crate::moved::{Moved, none_moved};
use crate::plan_rows::{Place, one_row, place_in, row_moved};
use crate::undo::turned_undo;
use fab_desk_commands::{Next, Turn};
use fab_reach_base::names::Name;
use fab_store_rows::{ApprovalRow, PlanRow, PlanState, UndoRow};
use fab_world::{KeptPlan, World};
use std::alloc::{AllocError, Allocator};

/// Rows of the three tables of plans.
#[derive(Drop)]
pub struct PlanTables<A: Allocator + Copy> {
    pub plans: Moved<PlanRow<A>, A>,
    pub approvals: Moved<ApprovalRow, A>,
    pub undo: Moved<UndoRow, A>,
}

/// No rows of plans. It takes no memory.
fn no_tables<A: Allocator + Copy>(alloc: A) -> PlanTables<A>
    ensures { (w v : WorldRows) → HaveOnePlans w v → ArePlanTablesMoved w v result }
{
    PlanTables {
        plans: none_moved(alloc),
        approvals: none_moved(alloc),
        undo: none_moved(alloc),
    }
}

/// The row of a plan that is new.
fn staged_rows<A: Allocator + Copy>(
    alloc: A,
    world: &World<A>,
    name: &Name,
    kept: &KeptPlan<A>,
) -> Result<Moved<PlanRow<A>, A>, AllocError>
    requires { map.contains_key world.now.plans name.now ≡ false }
    ensures { IfOk result (λ m. (v : WorldRows) → IsStagedTo world.now name.now kept.now v → IsSound world.now → IsSound v → AreMoved plan_order IsPlanRow world.now v m.removed.items m.added.items) }
{
    let _world = world;
    let place = Place {
        state: kept.state(),
        position: 0,
    };
    let added = one_row(alloc, name, kept, place)?;
    Ok(Moved {
        removed: Vec::new(alloc),
        added,
    })
}

/// The rows of the three tables of a plan that is new.
fn staged_tables<A: Allocator + Copy>(
    alloc: A,
    world: &World<A>,
    name: &Name,
    kept: &KeptPlan<A>,
) -> Result<PlanTables<A>, AllocError>
    requires { map.contains_key world.now.plans name.now ≡ false }
    ensures { IfOk result (λ t. (v : WorldRows) → IsStagedTo world.now name.now kept.now v → IsSound world.now → IsSound v → ArePlanTablesMoved world.now v t) }
{
    let plans = staged_rows(alloc, world, name, kept)?;
    let approvals = staged_approvals(alloc, name, kept)?;
    Ok(PlanTables {
        plans,
        approvals,
        undo: none_moved(alloc),
    })
}

/// The plan that takes a turn: it is there, in the state that the turn leads from.
fn plan_at<'a, A: Allocator + Copy>(
    world: &'a World<A>,
    name: &Name,
    turn: &Turn<A>,
) -> &'a KeptPlan<A>
    requires { LeadsAt world.now name.now turn.now }
    ensures plan { IsPlan world.now name.now result.now }
    ensures leads { Leads turn.now result.now }
{
    match world.plans.get(name) {
        Some(plan) => plan,
        None => unreachable!(),
    }
}

/// The state that a turn leads to.
fn state_after<A: Allocator + Copy>(turn: &Turn<A>) -> PlanState
    ensures { (p : PlanRecord) → Leads turn.now p → result ≡ state_of (turned turn.now p).standing }
{
    match turn {
        Turn::Withdrawn => PlanState::Withdrawn,
        Turn::Approved(_) => PlanState::Staged,
        Turn::Activated(_) => PlanState::Active,
        Turn::RolledBack(_) => PlanState::RolledBack,
    }
}

/// The rows of plans where one takes a turn. An activated one is the last in force then, and it was
/// the last that is rolled back.
fn turned_rows<A: Allocator + Copy>(
    alloc: A,
    world: &World<A>,
    name: &Name,
    turn: &Turn<A>,
) -> Result<Moved<PlanRow<A>, A>, AllocError>
    requires { LeadsAt world.now name.now turn.now }
    ensures { IfOk result (λ m. (v : WorldRows) → IsTurnedTo world.now name.now turn.now v → IsSound world.now → IsSound v → AreMoved plan_order IsPlanRow world.now v m.removed.items m.added.items) }
{
    let kept = plan_at(world, name, turn);
    let in_force = world.order.len() as u64;
    let before = place_in(kept.state(), in_force);
    let after = place_in(state_after(turn), in_force + 1);
    row_moved(alloc, name, kept, before, after)
}

/// The rows of the three tables where a plan takes a turn.
fn turned_tables<A: Allocator + Copy>(
    alloc: A,
    world: &World<A>,
    name: &Name,
    turn: &Turn<A>,
) -> Result<PlanTables<A>, AllocError>
    requires { LeadsAt world.now name.now turn.now }
    ensures { IfOk result (λ t. (v : WorldRows) → IsTurnedTo world.now name.now turn.now v → IsSound world.now → IsSound v → ArePlanTablesMoved world.now v t) }
{
    let kept = plan_at(world, name, turn);
    let plans = turned_rows(alloc, world, name, turn)?;
    let approvals = turned_approvals(alloc, name, kept, turn)?;
    let undo = turned_undo(alloc, name, kept, turn)?;
    Ok(PlanTables {
        plans,
        approvals,
        undo,
    })
}

/// The rows of the three tables of plans in which the next world differs.
///
/// # Errors
/// `AllocError` where there is no memory.
pub fn plan_tables_moved<A: Allocator + Copy>(
    alloc: A,
    world: &World<A>,
    next: &Next<A>,
) -> Result<PlanTables<A>, AllocError>
    requires suits { Suits world.now next.now }
    requires sound { IsSound world.now }
    requires next_sound { IsSound (next_world world.now next.now) }
    ensures { IfOk result (ArePlanTablesMoved world.now (next_world world.now next.now)) }
{
    match next {
        Next::Same | Next::Stock { .. } => Ok(no_tables(alloc)),
        Next::Staged { name, plan, .. } => staged_tables(alloc, world, name, plan),
        Next::Turned { name, turn } => turned_tables(alloc, world, name, turn),
        Next::Reconfigured { name, turn, .. } => turned_tables(alloc, world, name, turn),
    }
}
