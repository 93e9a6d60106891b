//! The world that the lines of all tables show.
ghost use Rattle.std.specs.Prelude.{IfOk, IfErr};
ghost use Rattle.fab_store_load.specs.Faults.{OfTable};
ghost use Rattle.fab_store_base.specs.Opened.{tables_of, HasLines, HasNoWorld, IsOnlyWorld};
ghost use Rattle.fab_store_base.specs.Worlds.{HoldsWorld};
ghost use Rattle.fab_world.specs.Soundness.{IsSound};

use fab_store_load::LoadFault;
use fab_store_tables::{TableLines, rows_of_lines};
use fab_store_world::world_of;
use fab_world::World;
use std::alloc::Allocator;

/// The sound world that has just the columns of these lines: there is one at most. No line of a plan
/// may stand twice.
///
/// # Errors
/// `Damaged` where no sound world has just these columns: with a table of which a line shows no row,
/// or with the first table that has a fault. `Memory` where there is none.
pub fn world_of_lines<A: Allocator + Copy>(
    alloc: A,
    lines: &TableLines,
) -> Result<World<A>, LoadFault>
    ensures sound { IfOk result IsSound }
    ensures rows { IfOk result (HoldsWorld (tables_of lines.now)) }
    ensures lined { IfOk result (HasLines A) }
    ensures only { IfOk result (IsOnlyWorld A lines.now) }
    ensures err { IfErr result (OfTable (λ table. HasNoWorld A lines.now)) }
{
    let rows = match rows_of_lines(alloc, lines) {
        Ok(rows) => rows,
        Err(fault) => return Err(fault),
    };
    match world_of(alloc, &rows) {
        Ok(world) => Ok(world),
        Err(fault) => Err(fault),
    }
}
