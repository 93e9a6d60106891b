//! What a world has of each kind, by name.
ghost use Rattle.fab_reach_base.specs.Records.{zoning_at};
ghost use Rattle.fab_looks.specs.Inner.Entries.{HasKeys};

use fab_reach_base::inventory::{Holder, Volume};
use fab_reach_base::mapping::{HostGroup, StorageGroup};
use fab_reach_base::names::{Fabric, Member, Name};
use fab_world::{KeptPlan, World};
use std::alloc::Allocator;
use std::collections::BTreeSet;
use std::collections::btree_map::Iter;

/// The hosts and the arrays.
pub fn holders_of<A: Allocator + Copy>(world: &World<A>) -> Iter<'_, Name, Holder>
    ensures { HasKeys result world.now.inventory.holders }
{
    world.inventory.holders()
}

/// The volumes.
pub fn volumes_of<A: Allocator + Copy>(world: &World<A>) -> Iter<'_, Name, Volume>
    ensures { HasKeys result world.now.inventory.volumes }
{
    world.inventory.volumes()
}

/// The host groups.
pub fn host_groups_of<A: Allocator + Copy>(world: &World<A>) -> Iter<'_, Name, HostGroup<A>>
    ensures { HasKeys result world.now.config.mapping.host_groups }
{
    world.config.mapping().host_groups()
}

/// The storage groups.
pub fn groups_of<A: Allocator + Copy>(world: &World<A>) -> Iter<'_, Name, StorageGroup<A>>
    ensures { HasKeys result world.now.config.mapping.groups }
{
    world.config.mapping().groups()
}

/// The plans, in whatever state.
pub fn plans_of<A: Allocator + Copy>(world: &World<A>) -> Iter<'_, Name, KeptPlan<A>>
    ensures { HasKeys result world.now.plans }
{
    world.plans.iter()
}

/// The aliases of a fabric.
pub fn aliases_of<A: Allocator + Copy>(
    world: &World<A>,
    fabric: Fabric,
) -> Iter<'_, Name, BTreeSet<Member, A>>
    ensures { HasKeys result (zoning_at world.now.config fabric).aliases }
{
    world.config.zoning(fabric).aliases()
}

/// The zones of a fabric.
pub fn zones_of<A: Allocator + Copy>(
    world: &World<A>,
    fabric: Fabric,
) -> Iter<'_, Name, BTreeSet<Member, A>>
    ensures { HasKeys result (zoning_at world.now.config fabric).zones }
{
    world.config.zoning(fabric).zones()
}

/// The zone sets of a fabric.
pub fn sets_of<A: Allocator + Copy>(
    world: &World<A>,
    fabric: Fabric,
) -> Iter<'_, Name, BTreeSet<Name, A>>
    ensures { HasKeys result (zoning_at world.now.config fabric).sets }
{
    world.config.zoning(fabric).zone_sets()
}
