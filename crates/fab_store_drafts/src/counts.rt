//! Whether there is not too much of anything, and a name is active just where there are rows.
ghost use Rattle.std.specs.Prelude.{◌↔◌, IsTrue};
ghost use Rattle.fab_reach_base.specs.fab_names.declared.fabric.Fabric.{Fabric as AnyFabric};
ghost use Rattle.fab_reach_base.specs.Records.{zoning_at};
ghost use Rattle.fab_store_drafts.specs.There.{HasSoundCounts, HasFewGroups};
ghost use Rattle.fab_store_drafts.specs.Inner.Counting.{HasFewSets, IsActiveCounted};

use fab_reach_base::Config;
use fab_reach_base::mapping::{MOST_HOST_GROUPS, MOST_STORAGE_GROUPS, Mapping};
use fab_reach_base::names::Fabric;
use fab_reach_base::zoning::rows::MOST_ROWS;
use fab_reach_base::zoning::{MOST_ALIASES, MOST_SETS, MOST_ZONES, Zoning};
use std::alloc::Allocator;

/// Whether there are not too many aliases, zones and zone sets.
fn has_few_sets<A: Allocator + Copy>(zoning: &Zoning<A>) -> bool
    ensures { IsTrue result ↔ HasFewSets zoning.now }
{
    if zoning.aliases().len() > MOST_ALIASES {
        return false;
    }
    if zoning.zones().len() > MOST_ZONES {
        return false;
    }
    zoning.zone_sets().len() <= MOST_SETS
}

/// Whether a name is active just where there are rows, and not too many of them.
fn is_active_counted<A: Allocator + Copy>(zoning: &Zoning<A>) -> bool
    ensures { IsTrue result ↔ IsActiveCounted zoning.now }
{
    let count = zoning.active_count();
    match zoning.active() {
        Some(_) => 0 < count && count <= MOST_ROWS,
        None => count == 0,
    }
}

/// Whether there is not too much in the zoning of a fabric.
fn has_sound_counts<A: Allocator + Copy>(zoning: &Zoning<A>) -> bool
    ensures { IsTrue result ↔ HasSoundCounts zoning.now }
{
    if !has_few_sets(zoning) {
        return false;
    }
    is_active_counted(zoning)
}

/// Whether there are not too many host groups and storage groups.
pub fn has_few_groups<A: Allocator + Copy>(mapping: &Mapping<A>) -> bool
    ensures { IsTrue result ↔ HasFewGroups mapping.now }
{
    if mapping.host_groups().len() > MOST_HOST_GROUPS {
        return false;
    }
    mapping.groups().len() <= MOST_STORAGE_GROUPS
}

/// Whether there is not too much in the zoning of either fabric.
pub fn have_sound_counts<A: Allocator + Copy>(config: &Config<A>) -> bool
    ensures { IsTrue result ↔ ((f : AnyFabric) → HasSoundCounts (zoning_at config.now f)) }
{
    if !has_sound_counts(config.zoning(Fabric::A)) {
        return false;
    }
    has_sound_counts(config.zoning(Fabric::B))
}
