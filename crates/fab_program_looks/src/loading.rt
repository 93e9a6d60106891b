//! The world of a store, which is read once, and of which nothing is changed.
ghost use Rattle.fab_program_looks.specs.Loading.{IsLoaded};

use fab_program_outside::{Fault, of_opening};
use fab_store_base::Store;
use fab_world::World;
use std::alloc::Global;

/// The world that the tables of a store have. Nothing of the store is changed.
///
/// # Errors
/// `Damaged`, `NewerSchema`, `Store` or `Memory`: why its tables are not those of a desk.
pub fn world_of<S: Store<Global>>(alloc: Global, store: &mut S) -> Result<World<Global>, Fault>
    ensures { IsLoaded S.Store store.old store.new result }
{
    match store.load(alloc) {
        Ok(world) => Ok(world),
        Err(fault) => Err(of_opening(fault)),
    }
}
