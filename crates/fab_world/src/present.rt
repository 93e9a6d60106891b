//! Whether an inventory and a configuration are sound together.
ghost use Rattle.std.specs.Prelude.{◌≡◌, ◌↔◌, false, IsTrue, IfOk};
ghost use Rattle.fab_reach_base.specs.fab_zoning.Soundness.{IsSound as IsSoundZoning};
ghost use Rattle.fab_reach_base.specs.Limits.{MoreThan, most_paths};
ghost use Rattle.fab_reach_base.specs.Reach.{Reaches};
ghost use Rattle.fab_reach_base.specs.Records.{zoning_at};
ghost use Rattle.fab_reach_base.specs.Soundness.{HasSoundZonings, IsSoundAlone};
ghost use Rattle.fab_world.specs.Soundness.{IsSoundNow};

use fab_reach_base::inventory::Inventory;
use fab_reach_base::names::{Fabric, Wwn};
use fab_reach_base::{Config, PathsFault, few_paths};
use std::alloc::{AllocError, Allocator};

/// Whether the zoning of a fabric is its own, and sound.
fn has_sound_zoning<A: Allocator + Copy>(config: &Config<A>, fabric: Fabric) -> bool
    ensures { IsTrue result ↔ ((zoning_at config.now fabric).fabric ≡ fabric) × IsSoundZoning (zoning_at config.now fabric) }
{
    let zoning = config.zoning(fabric);
    if zoning.fabric() != fabric {
        return false;
    }
    zoning.is_sound()
}

/// Whether the zoning of each fabric is its own, and sound.
fn has_sound_zonings<A: Allocator + Copy>(config: &Config<A>) -> bool
    ensures { IsTrue result ↔ HasSoundZonings config.now }
{
    if !has_sound_zoning(config, Fabric::A) {
        return false;
    }
    has_sound_zoning(config, Fabric::B)
}

/// Whether a configuration is sound of itself.
fn is_sound_alone<A: Allocator + Copy>(config: &Config<A>) -> Result<bool, AllocError>
    ensures { IfOk result (λ sound. IsTrue sound ↔ IsSoundAlone config.now) }
{
    if !has_sound_zonings(config) {
        return Ok(false);
    }
    let mapping = config.mapping();
    if !mapping.is_sound() {
        return Ok(false);
    }
    let clash = mapping.clash()?;
    Ok(clash.is_none())
}

/// Whether there are no more paths than there may be. They are listed, at most one pair's past the
/// limit, and it takes memory for these.
///
/// # Errors
/// `AllocError` where there is no memory.
pub fn has_few_paths<A: Allocator + Copy>(
    alloc: A,
    inventory: &Inventory<A>,
    config: &Config<A>,
) -> Result<bool, AllocError>
    ensures few { IfOk result (λ few. IsTrue few ↔ ¬ MoreThan most_paths (Reaches (record { inventory = inventory.now; config = config.now }))) }
    ensures many { IfOk result (λ few. few ≡ false → MoreThan most_paths (Reaches (record { inventory = inventory.now; config = config.now }))) }
{
    match few_paths(alloc, inventory, config) {
        Ok(_paths) => Ok(true),
        Err(PathsFault::TooMany) => Ok(false),
        Err(PathsFault::Memory) => Err(AllocError),
    }
}

/// Whether the inventory and the configuration are sound, the one beside the other.
pub fn is_sound_now<A: Allocator + Copy>(
    alloc: A,
    inventory: &Inventory<A>,
    config: &Config<A>,
) -> Result<bool, AllocError>
    ensures { IfOk result (λ sound. IsTrue sound ↔ IsSoundNow inventory.now config.now) }
{
    // Any look-up tells that the inventory is sound.
    let _port = inventory.port(&Wwn::new(1));
    if !is_sound_alone(config)? {
        return Ok(false);
    }
    if !config.mapping().fits(inventory) {
        return Ok(false);
    }
    has_few_paths(alloc, inventory, config)
}
