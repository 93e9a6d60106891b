//! Plans, as they are shown.
ghost use Rattle.std.specs.Prelude.{IfOk};
ghost use Rattle.fab_desk_base.specs.declared.command.Query.TheVariants as query;
ghost use Rattle.fab_desk_base.specs.Recorded.{IsFound};

use crate::listed::approvals_listed;
use crate::{Shown, ShownPlan};
use fab_reach_base::names::Name;
use fab_world::World;
use std::alloc::{AllocError, Allocator};

/// The plan of this name, with its approvals and the printed form of its steps, if it is there.
///
/// # Errors
/// `AllocError` where there is no memory.
pub fn plan_shown<A: Allocator + Copy>(
    alloc: A,
    world: &World<A>,
    name: &Name,
) -> Result<Option<Shown<A>>, AllocError>
    ensures { IfOk result (IsFound world.now (query.Plan name.now)) }
{
    let Some(kept) = world.plan(name) else {
        return Ok(None);
    };
    let plan = kept.plan();
    let text = String::from_str(alloc, plan.text.as_str())?;
    let approvals = approvals_listed(alloc, &plan.approvals)?;
    Ok(Some(Shown::Plan(ShownPlan {
        name: *name,
        author: plan.author,
        state: kept.state(),
        approvals,
        text,
    })))
}
