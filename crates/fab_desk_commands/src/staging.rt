//! One plan more.
ghost use Rattle.std.specs.Prelude.{◌≡◌, false};
ghost use Rattle.std.specs.FinMap as map;
ghost use Rattle.fab_desk_base.specs.Effects.{staged_plan, with_plan};
ghost use Rattle.fab_desk_commands.specs.Nexts.{next_world, Suits};

use crate::Next;
use fab_reach_base::names::Name;
use fab_world::plans::{PlanText, Staged};
use fab_world::{AnyPlan, KeptPlan, World};
use std::alloc::Allocator;

/// The plan of an author, with the steps of this text, staged. It takes no memory.
fn new_plan<A: Allocator + Copy>(alloc: A, author: Name, text: PlanText<A>) -> KeptPlan<A>
    ensures { result ≡ staged_plan author text }
{
    KeptPlan {
        inner: AnyPlan::Staged(Staged::new(alloc, author, text)),
    }
}

/// The parts of the world after a plan is staged: with one plan more, of this author and with the
/// steps of this text, under a name that no plan has. It takes no memory.
pub fn staged_next<A: Allocator + Copy>(
    alloc: A,
    world: &World<A>,
    author: Name,
    name: Name,
    text: PlanText<A>,
) -> Next<A>
    requires { map.contains_key world.now.plans name ≡ false }
    ensures world { next_world world.now result ≡ with_plan name (staged_plan author text) world.now }
    ensures suits { Suits world.now result }
{
    let _world = world;
    Next::Staged {
        name,
        plan: new_plan(alloc, author, text),
    }
}
