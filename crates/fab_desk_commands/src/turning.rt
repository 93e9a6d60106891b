//! The withdrawal and the approval of a staged plan.
ghost use Rattle.std.specs.Prelude.{◌≡◌, ℕ, List, IfOk, IfErr};
ghost use Rattle.std.specs.FinMap as map;
ghost use Rattle.fab_reach_base.specs.fab_names.Orders.{name_cmp};
ghost use Rattle.fab_desk_base.specs.Answers.{HasPlan};
ghost use Rattle.fab_desk_base.specs.Trying.{IsMade, IsTryFault};
ghost use Rattle.fab_desk_base.specs.declared.command.Command.TheVariants.{Withdraw, Approve};
ghost use Rattle.fab_desk_commands.specs.Nexts.{next_world, Suits};
ghost use Rattle.fab_desk_commands.specs.Kinds.{IsTurn};
ghost use Rattle.fab_desk_commands.specs.Trials.{IsSoundAfter};

use crate::found::{is_author, staged_at};
use crate::{Next, Turn};
use fab_desk_base::DeskFault;
use fab_reach_base::names::Name;
use fab_world::{KeptPlan, World};
use std::alloc::{AllocError, Allocator};
use std::collections::BTreeMap;

/// What the withdrawal of the plan would make: the plan, withdrawn. It takes no memory.
///
/// # Errors
/// `WrongState` with its state, where the plan is not staged. The world stays as it is.
pub fn withdrawn<A: Allocator + Copy>(world: &World<A>, plan: &Name) -> Result<Next<A>, DeskFault>
    requires there { HasPlan world.now plan.now }
    ensures ok { (caller : List ℕ) → IfOk result (λ next. IsMade {A = A.row.Denot} world.now caller (Withdraw plan.now) (next_world world.now next)) }
    ensures kind { IfOk result (IsTurn plan.now) }
    ensures suits { IfOk result (Suits world.now) }
    ensures sound { IfOk result (λ next. IsSoundAfter {A = A.row.Denot} world.now (Withdraw plan.now) (next_world world.now next)) }
    ensures err { (caller : List ℕ) → IfErr result (IsTryFault {A = A.row.Denot} world.now caller (Withdraw plan.now)) }
{
    match staged_at(world, plan) {
        Ok(_staged) => Ok(Next::Turned {
            name: *plan,
            turn: Turn::Withdrawn,
        }),
        Err(fault) => Err(fault),
    }
}

/// The same approvals in a map of this allocator.
fn copied<A: Allocator + Copy>(
    alloc: A,
    approvals: &BTreeMap<Name, u64, A>,
) -> Result<BTreeMap<Name, u64, A>, AllocError>
    ensures { IfOk result (λ copy. map.from_entries {R = name_cmp} copy.entries ≡ map.from_entries approvals.now.entries) }
{
    let mut copy = BTreeMap::new(alloc);
    for (caller, revision) in approvals {
        copy.insert(*caller, *revision)?;
    }
    Ok(copy)
}

/// The approvals of the plan, with this one in place of an earlier one of the caller.
fn approvals_with<A: Allocator + Copy>(
    alloc: A,
    kept: &KeptPlan<A>,
    caller: &Name,
    revision: u64,
) -> Result<BTreeMap<Name, u64, A>, AllocError>
    ensures { IfOk result (λ approvals. map.from_entries {R = name_cmp} approvals.entries ≡ map.insert kept.now.approvals caller.now revision) }
{
    let plan = kept.plan();
    let mut approvals = copied(alloc, &plan.approvals)?;
    approvals.insert(*caller, revision)?;
    Ok(approvals)
}

/// The same at the present revision.
fn approvals_now<A: Allocator + Copy>(
    alloc: A,
    world: &World<A>,
    kept: &KeptPlan<A>,
    caller: &Name,
) -> Result<BTreeMap<Name, u64, A>, AllocError>
    ensures { IfOk result (λ approvals. map.from_entries {R = name_cmp} approvals.entries ≡ map.insert kept.now.approvals caller.now world.now.revision) }
{
    approvals_with(alloc, kept, caller, world.revision)
}

/// What the approval of the plan by the caller would make: the plan, with all its approvals then.
///
/// # Errors
/// `WrongState` with its state, where the plan is not staged; `OwnPlan` where the caller is its
/// author; `Memory`. The world stays as it is.
pub fn approved<A: Allocator + Copy>(
    alloc: A,
    world: &World<A>,
    caller: &Name,
    plan: &Name,
) -> Result<Next<A>, DeskFault>
    requires there { HasPlan world.now plan.now }
    ensures ok { IfOk result (λ next. IsMade {A = A.row.Denot} world.now caller.now (Approve plan.now) (next_world world.now next)) }
    ensures kind { IfOk result (IsTurn plan.now) }
    ensures suits { IfOk result (Suits world.now) }
    ensures sound { IfOk result (λ next. IsSoundAfter {A = A.row.Denot} world.now (Approve plan.now) (next_world world.now next)) }
    ensures err { IfErr result (IsTryFault {A = A.row.Denot} world.now caller.now (Approve plan.now)) }
{
    let kept = match staged_at(world, plan) {
        Ok(kept) => kept,
        Err(fault) => return Err(fault),
    };
    if is_author(kept, caller) {
        return Err(DeskFault::OwnPlan);
    }
    let Ok(approvals) = approvals_now(alloc, world, kept, caller) else {
        return Err(DeskFault::Memory);
    };
    Ok(Next::Turned {
        name: *plan,
        turn: Turn::Approved(approvals),
    })
}
