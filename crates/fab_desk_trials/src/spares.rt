//! Spare configurations: what a command that was tried leaves for the next one.
ghost use Rattle.std.specs.Prelude.{◌≡◌, IfSome};
ghost use Rattle.fab_reach_base.specs.Soundness.{IsSoundAlone};
ghost use Rattle.fab_world.specs.Soundness.{IsSound};
ghost use Rattle.fab_desk_commands.specs.Nexts.{Suits, TellsChange, next_world};
ghost use Rattle.fab_desk_trials.specs.Trials.{HasEffect};

use crate::effects::Effect;
use fab_desk_base::Command;
use fab_desk_commands::{Next, Turn, spare_after};
use fab_reach_base::Config;
use fab_reach_base::names::Name;
use fab_world::World;
use std::alloc::Allocator;

/// The configuration from before a turn, led back to from the one after it. None where there is no
/// memory for the way back.
fn before_turn<A: Allocator + Copy>(
    alloc: A,
    before: &Config<A>,
    after: Config<A>,
    turn: &Turn<A>,
) -> Option<Config<A>>
    requires before { IsSoundAlone before.now }
    requires after { IsSoundAlone after }
    requires tells { TellsChange before.now after turn.now }
    ensures { IfSome result (λ s. s ≡ before.now) }
{
    match turn {
        Turn::Activated(change) => spare_after(alloc, before, after, change),
        Turn::RolledBack(change) => spare_after(alloc, before, after, change),
        Turn::Withdrawn | Turn::Approved(_) => None,
    }
}

/// A spare configuration, made of another one that the parts have. None where they have no other.
fn of_parts<A: Allocator + Copy>(alloc: A, world: &World<A>, next: Next<A>) -> Option<Config<A>>
    requires sound { IsSound world.now }
    requires suits { Suits world.now next }
    requires after { IsSound (next_world world.now next) }
    ensures { IfSome result (λ s. s ≡ world.now.config) }
{
    match next.into_config() {
        Some((config, turn)) => before_turn(alloc, &world.config, config, &turn),
        None => None,
    }
}

/// A spare configuration for the world, which is equal to its own: the one that a command would have
/// made that was tried, and is not done, led back by the rows in which it differs. None where the command
/// makes no other, or where there is no memory for the way back.
pub fn spare_of<A: Allocator + Copy>(
    alloc: A,
    world: &World<A>,
    caller: &Name,
    command: &Command<A>,
    effect: Effect<A>,
) -> Option<Config<A>>
    requires sound { IsSound world.now }
    requires effect { HasEffect world.now caller.now command.now effect }
    ensures { IfSome result (λ s. s ≡ world.now.config) }
{
    let _caller = caller;
    let _command = command;
    match effect {
        Effect::Parts(next) => of_parts(alloc, world, next),
        Effect::NewPlan => None,
    }
}
