//! Laws of the store. Nothing runs here.
ghost use Rattle.fab_store_base.specs.Worlds.{HoldsWorld, IsWritten};
ghost use Rattle.fab_store_sql.specs.NewDesk.{IsNewDesk};
ghost use Rattle.fab_store_tables.specs.Tables.{Tables};
ghost use Rattle.fab_world.specs.Soundness.{IsSound};
ghost use Rattle.fab_world.specs.Worlds.{new_world};

/// The tables of a new desk have just the rows of the new world, in which nothing is known or
/// configured; and that world is sound.
pub fn new_desk_has_the_new_world()
    ensures holds { (t : Tables) → IsNewDesk t → HoldsWorld t new_world }
    ensures written { IsWritten new_world }
    ensures sound { IsSound new_world }
{}
