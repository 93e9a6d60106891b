//! What was said of a command's plan.
ghost use Rattle.std.specs.Prelude.{◌≡◌, ◌↔◌, map, Contains, IfOk};
ghost use Rattle.std.specs.BTreeMap.{get};
ghost use Rattle.fab_reach_base.specs.fab_names.Orders.{name_cmp};
ghost use Rattle.fab_policy.specs.declared.act.Approval.{Approval};
ghost use Rattle.fab_desk_base.specs.Acts.{IsApprovalOf};
ghost use Rattle.fab_desk_trials.specs.Named.{plan_named, approval_of, author_at, plan_author, AreListed};

use crate::named::{named_plan, plan_of};
use fab_desk_base::Command;
use fab_policy::Approval;
use fab_reach_base::names::Name;
use fab_world::World;
use std::alloc::{AllocError, Allocator};
use std::collections::BTreeMap;

/// The approvals of a plan, by caller.
fn listed<A: Allocator + Copy>(
    alloc: A,
    given: &BTreeMap<Name, u64, A>,
) -> Result<Vec<Approval, A>, AllocError>
    ensures { IfOk result (λ list. list.items ≡ map approval_of given.now.entries) }
{
    given
        .iter()
        .map(|(caller, revision)| Approval {
            caller: *caller,
            revision: *revision,
        })
        .collect(alloc)
}

/// The approvals of a plan, by caller, as look-ups find them.
fn given_in<A: Allocator + Copy>(
    alloc: A,
    given: &BTreeMap<Name, u64, A>,
) -> Result<Vec<Approval, A>, AllocError>
    ensures { IfOk result (λ list. (x : Approval) → Contains list.items x ↔ (get name_cmp given.now x.caller ≡ Some x.revision)) }
{
    let _count = given.len();
    let list = listed(alloc, given)?;
    Ok(list)
}

/// The approvals of the plan of this name; none where there is no such plan.
fn approvals_under<A: Allocator + Copy>(
    alloc: A,
    world: &World<A>,
    name: &Name,
) -> Result<Vec<Approval, A>, AllocError>
    ensures { IfOk result (λ list. (x : Approval) → Contains list.items x ↔ IsApprovalOf world.now name.now x) }
{
    let Some(kept) = world.plan(name) else {
        return Ok(Vec::new(alloc));
    };
    let plan = kept.plan();
    let list = given_in(alloc, &plan.approvals)?;
    Ok(list)
}

/// The approvals of the plan that the command is about or stages; none where it names no plan, or
/// one that is not there.
///
/// # Errors
/// `AllocError` where there is no memory.
pub fn approvals_of<A: Allocator + Copy>(
    alloc: A,
    world: &World<A>,
    command: &Command<A>,
) -> Result<Vec<Approval, A>, AllocError>
    ensures { IfOk result (λ list. AreListed world.now (plan_named command.now) list.items) }
{
    let Some(name) = named_plan(command) else {
        return Ok(Vec::new(alloc));
    };
    let list = approvals_under(alloc, world, &name)?;
    Ok(list)
}

/// The author of the plan of this name.
fn author_under<A: Allocator + Copy>(world: &World<A>, name: &Name) -> Option<Name>
    ensures { result ≡ author_at world.now name.now }
{
    let Some(kept) = world.plan(name) else {
        return None;
    };
    let plan = kept.plan();
    Some(plan.author)
}

/// The author of the command's plan, where it names one that is there: of a plan that it stages the
/// caller is the author.
pub fn author_of<A: Allocator + Copy>(
    world: &World<A>,
    caller: &Name,
    command: &Command<A>,
) -> Option<Name>
    ensures { result ≡ plan_author world.now caller.now command.now }
{
    if let Command::Stage { .. } = command {
        return Some(*caller);
    }
    let Some(name) = plan_of(command) else {
        return None;
    };
    author_under(world, &name)
}
