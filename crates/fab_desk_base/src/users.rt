//! What the configuration uses, so that it can't be dropped or moved.
ghost use Rattle.std.specs.Prelude.{ℕ, List, IfOk, MatchOption};
ghost use Rattle.fab_desk_base.specs.Users as users;
ghost use Rattle.fab_desk_base.specs.UserSearch as search;

use fab_reach_base::inventory::{HolderKind, Inventory};
use fab_reach_base::mapping::Mapping;
use fab_reach_base::names::{Name, Wwn};
use std::alloc::{AllocError, Allocator};

/// The user that keeps a host or an array from being dropped: the first host group by name that
/// has the host, or the first storage group by name that is of the array. It takes no memory.
pub fn holder_user<A: Allocator + Copy>(
    mapping: &Mapping<A>,
    kind: HolderKind,
    name: &Name,
) -> Option<Name>
    ensures { MatchOption result ((user : List ℕ) → ¬ users.IsHolderUser mapping.now kind name.now user) (users.IsHolderUser mapping.now kind name.now) }
{
    match kind {
        HolderKind::Host => mapping.host_group_with(name),
        HolderKind::Array => mapping.group_of_array(name),
    }
}

/// The user that keeps a volume from being dropped: the first storage group by name that maps it.
/// It takes no memory.
pub fn volume_user<A: Allocator + Copy>(mapping: &Mapping<A>, name: &Name) -> Option<Name>
    ensures { MatchOption result ((user : List ℕ) → ¬ users.IsVolumeUser mapping.now name.now user) (users.IsVolumeUser mapping.now name.now) }
{
    mapping.group_with_volume(name)
}

/// The user that keeps a volume from being put on this array: where the volume is there and on
/// another array, the first storage group by name that maps it. It takes no memory.
pub fn moved_volume_user<A: Allocator + Copy>(
    inventory: &Inventory<A>,
    mapping: &Mapping<A>,
    name: &Name,
    array: &Name,
) -> Option<Name>
    ensures { MatchOption result ((user : List ℕ) → ¬ users.IsMovedUser inventory.now mapping.now name.now array.now user) (users.IsMovedUser inventory.now mapping.now name.now array.now) }
{
    let Some(volume) = inventory.volume(name) else {
        return None;
    };
    if volume.array == *array {
        return None;
    }
    volume_user(mapping, name)
}

/// The first of the ports that a storage group targets, with the first such group by name.
fn first_targeted<A: Allocator + Copy>(mapping: &Mapping<A>, ports: &[Wwn]) -> Option<(Wwn, Name)>
    ensures { MatchOption result (search.AreUntargeted mapping.now ports.now) (search.IsFirstTargeted mapping.now ports.now) }
{
    for port in ports {
        if let Some(group) = mapping.group_with_target(port) {
            return Some((*port, group));
        }
    }
    None
}

/// What keeps an array from having just these ports: the least port that would leave it and that a
/// storage group targets, with the first such group by name. It takes memory for the ports that
/// would leave: at most 64.
///
/// # Errors
/// `AllocError` where there is no memory.
pub fn leaving_target<A: Allocator + Copy>(
    inventory: &Inventory<A>,
    mapping: &Mapping<A>,
    array: &Name,
    ports: &[Wwn],
) -> Result<Option<(Wwn, Name)>, AllocError>
    ensures { IfOk result (λ found. MatchOption found
        ((e : ℕ × List ℕ) → ¬ users.IsLeavingTarget inventory.now mapping.now array.now ports.now e)
        (users.IsLeavingTarget inventory.now mapping.now array.now ports.now)) }
{
    let leaving = inventory.ports_leaving(array, ports)?;
    Ok(first_targeted(mapping, leaving.as_slice()))
}
