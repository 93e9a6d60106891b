//! A book of the paths of a world.
ghost use Rattle.std.specs.Prelude.{IfOk};
ghost use Rattle.fab_world.specs.Soundness.{IsSound};
ghost use Rattle.fab_world.specs.Worlds.{records_of};

use fab_reach_base::View;
use fab_reach_books::PathBook;
use fab_world::World;
use std::alloc::{AllocError, Global};

/// A book that stands at a sound world.
///
/// # Errors
/// `AllocError` where there is no memory.
pub fn book_of<B: PathBook<Global>>(alloc: Global, world: &World<Global>) -> Result<B, AllocError>
    requires { IsSound world.now }
    ensures { IfOk result (λ book. B.stands book (records_of world.now)) }
{
    B::open(alloc, &View::of(&world.inventory, &world.config))
}
