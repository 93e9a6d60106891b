//! Rows of a mapping put in and taken out.
ghost use Rattle.std.specs.Prelude.{◌≡◌, ◌⊎◌, None, Some, true, false, OnOk, IfOk};
ghost use Rattle.std.specs.FinMap as map;
ghost use Rattle.fab_reach_base.specs.fab_lemmas.Firsts.{HasAt};
ghost use Rattle.fab_store_rows.specs.declared.config_row.StoragePart.TheVariants as part;
ghost use Rattle.fab_store_edits.specs.Inner.MappingEdits.{HostsBecome, StorageBecomes, PutsHost, TakesHost, hosts_headed, PutsPart, TakesPart, IsTakenUnit, PutsIn, TakesOf, storage_headed};

use fab_reach_base::mapping::{HostGroup, Mapping, StorageGroup};
use fab_reach_base::names::Name;
use fab_store_rows::{HostGroupRow, StorageGroupRow, StoragePart};
use std::alloc::{AllocError, Allocator};
use std::collections::BTreeSet;

/// Puts a host into a host group, if there is one of this name. Where it has not, the group may be
/// gone.
///
/// # Errors
/// `AllocError` where there is no memory.
pub fn put_host<A: Allocator + Copy>(
    mapping: &mut Mapping<A>,
    name: &Name,
    host: &Name,
) -> Result<bool, AllocError>
    ensures put { IfOk result (λ is. is ≡ true → PutsHost name.now host.now mapping.old mapping.new) }
    ensures none { IfOk result (λ is. is ≡ false → map.get mapping.old.host_groups name.now ≡ None) }
{
    let Some(own) = mapping.take_host_group(name) else {
        return Ok(false);
    };
    let mut group = own;
    group.put_host(*host)?;
    mapping.restore_host_group(*name, group)?;
    Ok(true)
}

/// Takes a host out of a host group, if there is one of this name.
///
/// # Errors
/// `AllocError` where there is no memory.
pub fn take_host<A: Allocator + Copy>(
    mapping: &mut Mapping<A>,
    name: &Name,
    host: &Name,
) -> Result<(), AllocError>
    ensures { OnOk result (TakesHost name.now host.now mapping.old mapping.new) }
{
    let Some(own) = mapping.take_host_group(name) else {
        return Ok(());
    };
    let mut group = own;
    group.take_host(host);
    mapping.restore_host_group(*name, group)?;
    Ok(())
}

/// Takes the host group of a row out, or makes one with no host.
fn hosts_of<A: Allocator + Copy>(
    alloc: A,
    mapping: &mut Mapping<A>,
    row: &HostGroupRow,
) -> HostGroup<A>
    ensures group { hosts_headed row.now (Some result) ≡ hosts_headed row.now (map.get mapping.old.host_groups row.now.name) }
    ensures rest { mapping.new ≡ record mapping.old { host_groups = map.remove mapping.old.host_groups row.now.name } }
{
    match mapping.take_host_group(&row.name) {
        Some(group) => group,
        None => HostGroup::from_parts(row.tenant, BTreeSet::new(alloc)),
    }
}

/// Gives a host group the head that a row says, and makes it where there is none.
///
/// # Errors
/// `AllocError` where there is no memory.
pub fn put_host_head<A: Allocator + Copy>(
    alloc: A,
    mapping: &mut Mapping<A>,
    row: &HostGroupRow,
) -> Result<(), AllocError>
    ensures { OnOk result (HostsBecome row.now.name (map.get mapping.old.host_groups row.now.name) (Some (hosts_headed row.now (map.get mapping.old.host_groups row.now.name))) mapping.old mapping.new) }
{
    let mut group = hosts_of(alloc, mapping, row);
    group.set_tenant(row.tenant);
    mapping.restore_host_group(row.name, group)
}

/// Puts a volume at a unit of a storage group, if no other is there.
fn put_unit<A: Allocator + Copy>(
    group: &mut StorageGroup<A>,
    unit: u16,
    volume: &Name,
) -> Result<bool, AllocError>
    ensures put { IfOk result (λ is. is ≡ true → PutsPart (part.Unit unit volume.now) group.old group.new) }
    ensures taken { IfOk result (λ is. is ≡ false → IsTakenUnit (part.Unit unit volume.now) group.old) }
{
    match group.unit(unit) {
        Some(there) => Ok(there == *volume),
        None => {
            group.put_unit(unit, *volume)?;
            Ok(true)
        }
    }
}

/// Puts a part into a storage group, if no other volume is at its unit.
fn put_part_in<A: Allocator + Copy>(
    group: &mut StorageGroup<A>,
    part: &StoragePart,
) -> Result<bool, AllocError>
    ensures put { IfOk result (λ is. is ≡ true → PutsPart part.now group.old group.new) }
    ensures taken { IfOk result (λ is. is ≡ false → IsTakenUnit part.now group.old) }
{
    match part {
        StoragePart::HostGroup(hosts) => {
            group.put_hosts(*hosts)?;
            Ok(true)
        }
        StoragePart::Target(target) => {
            group.put_target(*target)?;
            Ok(true)
        }
        StoragePart::Unit(unit, volume) => put_unit(group, *unit, volume),
    }
}

/// Takes a volume out of a unit of a storage group, if it is there.
fn take_unit<A: Allocator + Copy>(group: &mut StorageGroup<A>, unit: u16, volume: &Name)
    ensures { TakesPart (part.Unit unit volume.now) group.old group.new }
{
    if group.unit(unit) == Some(*volume) {
        group.unmap(unit);
    }
}

/// Takes a part out of a storage group, if it is there.
fn take_part_of<A: Allocator + Copy>(group: &mut StorageGroup<A>, part: &StoragePart)
    ensures { TakesPart part.now group.old group.new }
{
    match part {
        StoragePart::HostGroup(hosts) => group.remove_hosts(hosts),
        StoragePart::Target(target) => group.remove_target(target),
        StoragePart::Unit(unit, volume) => take_unit(group, *unit, volume),
    }
}

/// Puts a part into the storage group of a name, if there is one and no other volume is at its unit.
/// Where it has not, the group may be gone.
///
/// # Errors
/// `AllocError` where there is no memory.
pub fn put_part<A: Allocator + Copy>(
    mapping: &mut Mapping<A>,
    name: &Name,
    part: &StoragePart,
) -> Result<bool, AllocError>
    ensures put { IfOk result (λ is. is ≡ true → PutsIn name.now part.now mapping.old mapping.new) }
    ensures refused { IfOk result (λ is. is ≡ false → (map.get mapping.old.groups name.now ≡ None) ⊎ HasAt (map.get mapping.old.groups) (IsTakenUnit part.now) name.now) }
{
    let Some(own) = mapping.take_group(name) else {
        return Ok(false);
    };
    let mut group = own;
    if !put_part_in(&mut group, part)? {
        return Ok(false);
    }
    mapping.restore_group(*name, group)?;
    Ok(true)
}

/// Takes a part out of the storage group of a name, if there is one.
///
/// # Errors
/// `AllocError` where there is no memory.
pub fn take_part<A: Allocator + Copy>(
    mapping: &mut Mapping<A>,
    name: &Name,
    part: &StoragePart,
) -> Result<(), AllocError>
    ensures { OnOk result (TakesOf name.now part.now mapping.old mapping.new ⊎ StorageBecomes name.now None None mapping.old mapping.new) }
{
    let Some(own) = mapping.take_group(name) else {
        return Ok(());
    };
    let mut group = own;
    take_part_of(&mut group, part);
    mapping.restore_group(*name, group)?;
    Ok(())
}

/// Takes the storage group of a row out, or makes one with no part.
fn group_of<A: Allocator + Copy>(
    alloc: A,
    mapping: &mut Mapping<A>,
    row: &StorageGroupRow,
) -> StorageGroup<A>
    ensures group { storage_headed row.now (Some result) ≡ storage_headed row.now (map.get mapping.old.groups row.now.name) }
    ensures rest { mapping.new ≡ record mapping.old { groups = map.remove mapping.old.groups row.now.name } }
{
    match mapping.take_group(&row.name) {
        Some(group) => group,
        None => StorageGroup::new(alloc, row.tenant, row.array),
    }
}

/// Gives a storage group the head that a row says, and makes it where there is none.
///
/// # Errors
/// `AllocError` where there is no memory.
pub fn put_storage_head<A: Allocator + Copy>(
    alloc: A,
    mapping: &mut Mapping<A>,
    row: &StorageGroupRow,
) -> Result<(), AllocError>
    ensures { OnOk result (StorageBecomes row.now.name (map.get mapping.old.groups row.now.name) (Some (storage_headed row.now (map.get mapping.old.groups row.now.name))) mapping.old mapping.new) }
{
    let mut group = group_of(alloc, mapping, row);
    group.set_head(row.tenant, row.array, row.exposed);
    mapping.restore_group(row.name, group)
}
