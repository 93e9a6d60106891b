//! The parts of a world.
ghost use Rattle.std.specs.Prelude.{◌≡◌};
ghost use Rattle.fab_reach_base.specs.Records.{zoning_at};

use fab_reach_base::Config;
use fab_reach_base::inventory::Inventory;
use fab_reach_base::mapping::Mapping;
use fab_reach_base::names::Fabric;
use fab_reach_base::zoning::Zoning;
use fab_world::World;
use std::alloc::Allocator;

/// The inventory of a world.
pub fn inventory_in<A: Allocator + Copy>(world: &World<A>) -> &Inventory<A>
    ensures { result.now ≡ world.now.inventory }
{
    &world.inventory
}

/// The configuration of a world.
pub fn config_in<A: Allocator + Copy>(world: &World<A>) -> &Config<A>
    ensures { result.now ≡ world.now.config }
{
    &world.config
}

/// The mapping of a world.
pub fn mapping_in<A: Allocator + Copy>(world: &World<A>) -> &Mapping<A>
    ensures { result.now ≡ world.now.config.mapping }
{
    config_in(world).mapping()
}

/// The zoning of a fabric in a world.
pub fn zoning_in<A: Allocator + Copy>(world: &World<A>, fabric: Fabric) -> &Zoning<A>
    ensures { result.now ≡ zoning_at world.now.config fabric }
{
    config_in(world).zoning(fabric)
}
