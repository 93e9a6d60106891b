//! Volumes that are put and dropped.
ghost use Rattle.std.specs.Prelude.{ℕ, ◌≡◌, List, IfOk, IfErr, OnOk, true};
ghost use Rattle.std.specs.FinMap as map;
ghost use Rattle.fab_world.specs.Soundness.{IsSound};
ghost use Rattle.fab_desk_base.specs.Commands.{IsGiven};
ghost use Rattle.fab_desk_base.specs.declared.command.Command.TheVariants.{PutVolume, DropVolume};
ghost use Rattle.fab_desk_base.specs.Effects.{counted, with_inventory};
ghost use Rattle.fab_desk_base.specs.Trying.{IsMade, IsTryFault};
ghost use Rattle.fab_desk_base.specs.Users.{IsVolumeUser};
ghost use Rattle.fab_desk_commands.specs.Keeping.{IsMappedBy};
ghost use Rattle.fab_desk_commands.specs.Trials.{IsSoundAfter};

use crate::refusal::refusal;
use fab_desk_base::{DeskFault, moved_volume_user, volume_user};
use fab_reach_base::inventory::{Inventory, Volume};
use fab_reach_base::mapping::Mapping;
use fab_reach_base::names::Name;
use fab_world::World;
use fab_world::plans::Item;
use std::alloc::Allocator;

/// What putting the volume would make of the inventory: the volume is there, and all else is as it
/// was.
///
/// # Errors
/// In this order: `Unknown` with the array's name, where there is no such array; `InUse` with the
/// volume's name and the first storage group by name that maps it, where it would move to another
/// array; `Limit(Volumes)` where there would be more than 4096 volumes; or `Memory`.
pub fn volume_put<A: Allocator + Copy>(
    world: &World<A>,
    name: &Name,
    volume: &Volume,
) -> Result<Inventory<A>, DeskFault>
    requires sound { IsSound world.now }
    requires given { IsGiven {A = A} (PutVolume name.now volume.now) }
    ensures ok { (caller : List ℕ) → IfOk result (λ v. IsMade {A = A} world.now caller (PutVolume name.now volume.now) (counted (with_inventory v world.now))) }
    ensures sound { IfOk result (λ v. IsSoundAfter {A = A} world.now (PutVolume name.now volume.now) (counted (with_inventory v world.now))) }
    ensures err { (caller : List ℕ) → IfErr result (IsTryFault {A = A} world.now caller (PutVolume name.now volume.now)) }
{
    let Ok(mut next) = world.inventory.copy() else {
        return Err(DeskFault::Memory);
    };
    match next.put_volume(*name, volume.array, volume.tenant, volume.bytes) {
        Ok(()) => {}
        Err(fault) => return Err(refusal(fault)),
    }
    // A volume that is there needs no room, so no user was passed over for want of it.
    match moved_volume_user(
        &world.inventory,
        world.config.mapping(),
        name,
        &volume.array,
    ) {
        None => Ok(next),
        Some(by) => Err(DeskFault::InUse {
            item: Item::Name(*name),
            by,
        }),
    }
}

/// Refuses to take a volume from a storage group that maps it: `InUse` with the volume's name and
/// the first such group by name.
fn unmapped<A: Allocator + Copy>(mapping: &Mapping<A>, name: &Name) -> Result<(), DeskFault>
    ensures ok { OnOk result ((user : List ℕ) → ¬ IsVolumeUser mapping.now name.now user) }
    ensures err { IfErr result (IsMappedBy mapping.now name.now) }
{
    match volume_user(mapping, name) {
        None => Ok(()),
        Some(by) => Err(DeskFault::InUse {
            item: Item::Name(*name),
            by,
        }),
    }
}

/// What dropping the volume would make of the inventory: it is gone, and all else is as it was.
///
/// # Errors
/// `InUse` with the volume's name and the first storage group by name that maps it, or `Memory`.
pub fn volume_dropped<A: Allocator + Copy>(
    world: &World<A>,
    name: &Name,
) -> Result<Inventory<A>, DeskFault>
    requires sound { IsSound world.now }
    requires there { map.contains_key world.now.inventory.volumes name.now ≡ true }
    ensures ok { (caller : List ℕ) → IfOk result (λ v. IsMade {A = A} world.now caller (DropVolume name.now) (counted (with_inventory v world.now))) }
    ensures sound { IfOk result (λ v. IsSoundAfter {A = A} world.now (DropVolume name.now) (counted (with_inventory v world.now))) }
    ensures err { (caller : List ℕ) → IfErr result (IsTryFault {A = A} world.now caller (DropVolume name.now)) }
{
    if let Err(fault) = unmapped(world.config.mapping(), name) {
        return Err(fault);
    }
    let Ok(mut next) = world.inventory.copy() else {
        return Err(DeskFault::Memory);
    };
    match next.drop_volume(name) {
        Ok(()) => Ok(next),
        Err(fault) => Err(refusal(fault)),
    }
}
