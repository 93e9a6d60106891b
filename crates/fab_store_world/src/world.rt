//! The world from the rows of all tables.
ghost use Rattle.std.specs.Prelude.{◌↔◌, IsTrue, IfOk, IfErr};
ghost use Rattle.fab_world.specs.fab_store_load.Faults.{OfTable};
ghost use Rattle.fab_reach_base.specs.Limits.{MoreThan, most_paths};
ghost use Rattle.fab_reach_base.specs.Reach.{Reaches};
ghost use Rattle.fab_store_world.specs.Paths.{ArePathRows};
ghost use Rattle.fab_store_world.specs.OpenedTables.{AreTableRows, HasNoWorld};
ghost use Rattle.fab_world.specs.Soundness.{IsSound};
ghost use Rattle.fab_world.specs.Worlds.{records_of};

use crate::are_path_rows;
use crate::faulty::first_faulty;
use crate::made::made_of;
use fab_reach_base::PathsFault;
use fab_world::World;
use fab_world::load::rows::{PathRow, TableRows};
use fab_world::load::{LoadFault, Table};
use std::alloc::{AllocError, Allocator};

/// Whether the rows are those of the world's paths, where it has not too many.
fn has_paths<A: Allocator + Copy>(
    alloc: A,
    world: &World<A>,
    rows: &[PathRow],
) -> Result<bool, AllocError>
    ensures { IfOk result (λ has. ¬ MoreThan most_paths (Reaches (records_of world.now)) → IsTrue has ↔ ArePathRows (records_of world.now) rows.now) }
{
    match are_path_rows(alloc, &world.inventory, &world.config, rows) {
        Ok(are) => Ok(are),
        Err(PathsFault::TooMany) => Ok(false),
        Err(PathsFault::Memory) => Err(AllocError),
    }
}

/// The sound world that has just these rows; else a table.
fn world_from<A: Allocator + Copy>(alloc: A, tables: &TableRows<A>) -> Result<World<A>, LoadFault>
    ensures rows { IfOk result (AreTableRows tables.now) }
    ensures sound { IfOk result IsSound }
    ensures err { IfErr result (OfTable (λ table. HasNoWorld tables.now)) }
{
    let world = made_of(alloc, tables)?;
    if !world.is_sound(alloc)? {
        return Err(LoadFault::Damaged(Table::Undo));
    }
    if !has_paths(alloc, &world, tables.paths.as_slice())? {
        return Err(LoadFault::Damaged(Table::Paths));
    }
    Ok(world)
}

/// The world that has exactly these rows, and is sound: there is one at most. Equal rows count once,
/// but for those of plans, of which each name has one.
///
/// # Errors
/// `Damaged` where no sound world has just these rows, with the first table that has a fault, in the
/// order of `Table`. `Memory` where there is none.
pub fn world_of<A: Allocator + Copy>(alloc: A, tables: &TableRows<A>) -> Result<World<A>, LoadFault>
    ensures rows { IfOk result (AreTableRows tables.now) }
    ensures sound { IfOk result IsSound }
    ensures err { IfErr result (OfTable (λ table. HasNoWorld tables.now)) }
{
    match world_from(alloc, tables) {
        Ok(world) => Ok(world),
        Err(LoadFault::Damaged(_)) => Err(LoadFault::Damaged(first_faulty(alloc, tables)?)),
        Err(LoadFault::Memory) => Err(LoadFault::Memory),
    }
}
