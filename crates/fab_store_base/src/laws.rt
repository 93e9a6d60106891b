//! Laws of rows and worlds: each is the contract of a function that does nothing.
ghost use Rattle.fab_store_base.specs.Worlds.{HoldsWorld};
ghost use Rattle.fab_store_tables.specs.Tables.{Tables, HaveKeys};
ghost use Rattle.fab_world.specs.Soundness.{IsSound};
ghost use Rattle.fab_world.specs.Worlds.{WorldRows};

/// No two rows of a table have one key, where the tables have the rows of a sound world.
pub fn holds_keys()
    ensures { (tables : Tables) (w : WorldRows) → IsSound w → HoldsWorld tables w → HaveKeys tables }
{}
