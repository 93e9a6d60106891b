//! The storage groups of a volume that a caller may read of.
ghost use Rattle.std.specs.Prelude.{◌↔◌, ℕ, List, OnOk, IfOk};
ghost use Rattle.fab_desk_base.specs.Tenants.{Has};
ghost use Rattle.fab_looks_ways.specs.Inner.Gathering.{IsOwnEntry};
ghost use Rattle.fab_looks.specs.Ways.{IsOwnMapping};
ghost use Rattle.fab_reach_base.specs.Adding.{Adds};

use fab_desk_base::{Query, is_open_to};
use fab_policy::{CallerId, Policy};
use fab_reach_base::mapping::StorageGroup;
use fab_reach_base::names::Name;
use fab_world::World;
use std::alloc::{AllocError, Allocator};
use std::collections::BTreeSet;

/// Adds the name of the storage group, if it maps the volume and its read is open to the caller.
fn add_group<A: Allocator + Copy>(
    names: &mut BTreeSet<Name, A>,
    policy: &Policy,
    world: &World<A>,
    id: CallerId,
    volume: &Name,
    name: &Name,
    group: &StorageGroup<A>,
) -> Result<(), AllocError>
    ensures { OnOk result (Adds (IsOwnEntry policy.now world.now id volume.now (name.now, group.now)) (Has names.old) (Has names.new)) }
{
    if !group.has_volume(volume) {
        return Ok(());
    }
    if !is_open_to(policy, world, id, &Query::Group { name: *name }) {
        return Ok(());
    }
    names.insert(*name)?;
    Ok(())
}

/// Adds the names of the storage groups that map the volume and whose reads are open to the caller.
fn add_groups<A: Allocator + Copy>(
    names: &mut BTreeSet<Name, A>,
    policy: &Policy,
    world: &World<A>,
    id: CallerId,
    volume: &Name,
) -> Result<(), AllocError>
    ensures { OnOk result (Adds (IsOwnMapping policy.now world.now id volume.now) (Has names.old) (Has names.new)) }
{
    for (name, group) in world.config.mapping().groups() {
        add_group(names, policy, world, id, volume, name, group)?;
    }
    Ok(())
}

/// The names of the storage groups that map the volume and whose reads are open to the caller.
///
/// # Errors
/// `AllocError` where there is no memory.
pub fn own_groups<A: Allocator + Copy>(
    alloc: A,
    policy: &Policy,
    world: &World<A>,
    id: CallerId,
    volume: &Name,
) -> Result<BTreeSet<Name, A>, AllocError>
    ensures { IfOk result (λ names. (n : List ℕ) → Has names n ↔ IsOwnMapping policy.now world.now id volume.now n) }
{
    let mut names = BTreeSet::new(alloc);
    add_groups(&mut names, policy, world, id, volume)?;
    Ok(names)
}
