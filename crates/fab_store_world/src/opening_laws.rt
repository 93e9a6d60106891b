//! A law of rows of worlds: the contract of a function that does nothing.
ghost use Rattle.std.specs.Prelude.{◌≡◌};
ghost use Rattle.fab_store_world.specs.OpenedTables.{AreTableRows};
ghost use Rattle.fab_world.specs.Soundness.{IsSound};
ghost use Rattle.fab_world.specs.Worlds.{WorldRows};

use fab_world::load::rows::TableRows;
use std::alloc::Allocator;

/// Sound worlds with equal rows are equal.
pub fn one_world<A: Allocator + Copy>(tables: &TableRows<A>)
    ensures { (v w : WorldRows) → AreTableRows tables.now v → AreTableRows tables.now w → IsSound v → IsSound w → v ≡ w }
{}
