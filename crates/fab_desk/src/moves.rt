//! The lines that a change removes and adds.
ghost use Rattle.std.specs.Prelude.{IfOk};
ghost use Rattle.fab_desk_machine.specs.fab_desk_base.Answers.{IsMove};
ghost use Rattle.fab_desk_machine.specs.fab_desk_base.Keeping.{KeepsHosts};
ghost use Rattle.fab_desk_machine.specs.fab_desk_commands.Nexts.{next_world, Suits};
ghost use Rattle.fab_store_base.specs.Moves.{AreMoves};
ghost use Rattle.fab_world.specs.Soundness.{IsSound};
ghost use Rattle.fab_world.specs.Worlds.{records_of};

use fab_desk_machine::commands::Next;
use fab_desk_rows::next_changes;
use fab_reach_base::Delta;
use fab_store_base::{LineChanges, change_lines};
use fab_world::World;
use std::alloc::{AllocError, Allocator};

/// The lines in which the world and the next one differ, where the lists are the paths gained and
/// lost.
///
/// # Errors
/// `AllocError` where there is no memory.
pub fn moves<A: Allocator + Copy>(
    alloc: A,
    world: &World<A>,
    next: &Next<A>,
    delta: &Delta<A>,
) -> Result<LineChanges<A>, AllocError>
    requires suits { Suits world.now next.now }
    requires sound { IsSound world.now }
    requires next_sound { IsSound (next_world world.now next.now) }
    requires paths { IsMove world.now (next_world world.now next.now) delta.now }
    requires hosts { KeepsHosts (records_of world.now) (records_of (next_world world.now next.now)) }
    ensures { IfOk result (AreMoves world.now (next_world world.now next.now)) }
{
    let changes = next_changes(alloc, world, next, delta)?;
    change_lines(alloc, &changes)
}
