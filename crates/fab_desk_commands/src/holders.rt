//! Hosts and arrays that are put and dropped.
ghost use Rattle.std.specs.Prelude.{ℕ, ◌≡◌, List, Some, IfOk, IfErr, OnOk, MatchOption};
ghost use Rattle.fab_reach_base.specs.fab_inventory.Inventories.{kind_of};
ghost use Rattle.fab_world.specs.Soundness.{IsSound};
ghost use Rattle.fab_desk_base.specs.Commands.{IsGiven};
ghost use Rattle.fab_desk_base.specs.declared.command.Command.TheVariants.{PutHolder, DropHolder};
ghost use Rattle.fab_desk_base.specs.Effects.{counted, with_inventory};
ghost use Rattle.fab_desk_base.specs.Trying.{IsMade, IsTryFault};
ghost use Rattle.fab_desk_base.specs.Users.{IsHolderUser};
ghost use Rattle.fab_desk_commands.specs.Keeping.{IsKeptTarget, IsUsedBy};
ghost use Rattle.fab_desk_commands.specs.Trials.{IsSoundAfter};

use crate::refusal::refusal;
use fab_desk_base::{DeskFault, holder_user, leaving_target};
use fab_reach_base::inventory::{HolderKind, Inventory};
use fab_reach_base::mapping::Mapping;
use fab_reach_base::names::{Name, Wwn};
use fab_world::World;
use fab_world::plans::Item;
use std::alloc::{AllocError, Allocator};

/// What keeps a host or an array from having just these ports: of an array the least port that
/// would leave it and that a storage group targets, with the first such group by name; of a host
/// nothing.
fn kept_target<A: Allocator + Copy>(
    inventory: &Inventory<A>,
    mapping: &Mapping<A>,
    kind: HolderKind,
    name: &Name,
    ports: &[Wwn],
) -> Result<Option<(Wwn, Name)>, AllocError>
    ensures { IfOk result (λ found. MatchOption found
        ((e : ℕ × List ℕ) → ¬ IsKeptTarget inventory.now mapping.now kind name.now ports.now e)
        (IsKeptTarget inventory.now mapping.now kind name.now ports.now)) }
{
    match kind {
        HolderKind::Host => Ok(None),
        HolderKind::Array => leaving_target(inventory, mapping, name, ports),
    }
}

/// What putting the host or the array would make of the inventory: it is there and holds just
/// these ports, and all else is as it was.
///
/// # Errors
/// In this order: `Exists` where the name is of the other kind; `Unknown` with the least listed
/// port that is not known; `InUse` with the least listed port that another holder holds, and that
/// holder; `InUse` with the least port that would leave an array and that a storage group targets,
/// and the first such group by name; `Limit(Holders)` where there would be more than 2048 hosts
/// and arrays; or `Memory`.
pub fn holder_put<A: Allocator + Copy>(
    world: &World<A>,
    kind: HolderKind,
    name: &Name,
    tenant: &Name,
    ports: &Vec<Wwn, A>,
) -> Result<Inventory<A>, DeskFault>
    requires sound { IsSound world.now }
    requires given { IsGiven (PutHolder kind name.now tenant.now ports.now) }
    ensures ok { (caller : List ℕ) → IfOk result (λ v. IsMade world.now caller (PutHolder kind name.now tenant.now ports.now) (counted (with_inventory v world.now))) }
    ensures sound { IfOk result (λ v. IsSoundAfter world.now (PutHolder kind name.now tenant.now ports.now) (counted (with_inventory v world.now))) }
    ensures err { (caller : List ℕ) → IfErr result (IsTryFault world.now caller (PutHolder kind name.now tenant.now ports.now)) }
{
    let Ok(mut next) = world.inventory.copy() else {
        return Err(DeskFault::Memory);
    };
    match next.put_holder(*name, kind, *tenant, ports.as_slice()) {
        Ok(()) => {}
        Err(fault) => return Err(refusal(fault)),
    }
    // A holder that is there needs no room, and no other holds a port: so no target was passed over.
    let Ok(kept) = kept_target(
        &world.inventory,
        world.config.mapping(),
        kind,
        name,
        ports.as_slice(),
    ) else {
        return Err(DeskFault::Memory);
    };
    match kept {
        None => Ok(next),
        Some(target) => Err(DeskFault::InUse {
            item: Item::Port(target.0),
            by: target.1,
        }),
    }
}

/// Refuses to take a host or an array from a group that uses it: `InUse` with its name and the
/// first group by name that has the host or is of the array.
fn unused<A: Allocator + Copy>(
    mapping: &Mapping<A>,
    kind: HolderKind,
    name: &Name,
) -> Result<(), DeskFault>
    ensures ok { OnOk result ((user : List ℕ) → ¬ IsHolderUser mapping.now kind name.now user) }
    ensures err { IfErr result (IsUsedBy mapping.now kind name.now) }
{
    match holder_user(mapping, kind, name) {
        None => Ok(()),
        Some(by) => Err(DeskFault::InUse {
            item: Item::Name(*name),
            by,
        }),
    }
}

/// What dropping the host or the array would make of the inventory: it is gone, nobody holds the
/// ports that it held, and all else is as it was.
///
/// # Errors
/// In this order: `InUse` with the name and the first group by name that has the host or is of the
/// array; `InUse` with the name and the least volume by name that is on it; or `Memory`.
pub fn holder_dropped<A: Allocator + Copy>(
    world: &World<A>,
    kind: HolderKind,
    name: &Name,
) -> Result<Inventory<A>, DeskFault>
    requires sound { IsSound world.now }
    requires there { kind_of world.now.inventory.holders name.now ≡ Some kind }
    ensures ok { (caller : List ℕ) → IfOk result (λ v. IsMade {A = A} world.now caller (DropHolder kind name.now) (counted (with_inventory v world.now))) }
    ensures sound { IfOk result (λ v. IsSoundAfter {A = A} world.now (DropHolder kind name.now) (counted (with_inventory v world.now))) }
    ensures err { (caller : List ℕ) → IfErr result (IsTryFault {A = A} world.now caller (DropHolder kind name.now)) }
{
    if let Err(fault) = unused(world.config.mapping(), kind, name) {
        return Err(fault);
    }
    let Ok(mut next) = world.inventory.copy() else {
        return Err(DeskFault::Memory);
    };
    match next.drop_holder(name) {
        Ok(()) => Ok(next),
        Err(fault) => Err(refusal(fault)),
    }
}
