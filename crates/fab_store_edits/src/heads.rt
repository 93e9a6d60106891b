//! Heads of groups put in place of those that go.
ghost use Rattle.std.specs.Prelude.{◌≡◌, true, false, Some, IfOk};
ghost use Rattle.std.specs.FinMap as map;
ghost use Rattle.fab_reach_base.specs.fab_mapping_base.Groups.{HostGroupRows, StorageGroupRows};
ghost use Rattle.fab_store_rows.specs.declared.config_row.ConfigRow.TheVariants as config_row;
ghost use Rattle.fab_store_rows.specs.declared.config_row.GroupRow.TheVariants as group;
ghost use Rattle.fab_store_rows.specs.Gathering.{Has};
ghost use Rattle.fab_store_rows.specs.Standing.{IsGroup};
ghost use Rattle.fab_store_edits.specs.Rows.{host_head, storage_row};
ghost use Rattle.fab_store_rows.specs.Tidy.{IsTidy};
ghost use Rattle.fab_store_edits.specs.Inner.Edits.{IsPut, HasRival};

use crate::mapping_rows::{put_host_head, put_storage_head};
use fab_reach_base::Config;
use fab_reach_base::mapping::Mapping;
use fab_reach_base::names::Name;
use fab_store_rows::{ConfigRow, GroupRow, HostGroupRow, StorageGroupRow};
use std::alloc::{AllocError, Allocator};
use std::collections::BTreeSet;

/// Whether there is no host group of this name, or its head goes.
fn may_head_hosts<A: Allocator + Copy>(
    mapping: &Mapping<A>,
    going: &BTreeSet<ConfigRow, A>,
    name: &Name,
) -> bool
    ensures may { result ≡ true → (g : HostGroupRows) → map.get mapping.now.host_groups name.now ≡ Some g → Has going.now (host_head name.now g.tenant) }
    ensures not { result ≡ false → (g : HostGroupRows) × (map.get mapping.now.host_groups name.now ≡ Some g) × ¬ Has going.now (host_head name.now g.tenant) }
{
    match mapping.host_group(name) {
        Some(group) => {
            let head = HostGroupRow {
                name: *name,
                tenant: group.tenant(),
            };
            going.contains(&ConfigRow::Group(GroupRow::Host(head)))
        }
        None => true,
    }
}

/// Whether there is no storage group of this name, or its head goes.
fn may_head<A: Allocator + Copy>(
    mapping: &Mapping<A>,
    going: &BTreeSet<ConfigRow, A>,
    name: &Name,
) -> bool
    ensures may { result ≡ true → (g : StorageGroupRows) → map.get mapping.now.groups name.now ≡ Some g → Has going.now (storage_row name.now g) }
    ensures not { result ≡ false → (g : StorageGroupRows) × (map.get mapping.now.groups name.now ≡ Some g) × ¬ Has going.now (storage_row name.now g) }
{
    match mapping.group(name) {
        Some(group) => {
            let head = StorageGroupRow {
                name: *name,
                tenant: group.tenant(),
                array: group.array(),
                exposed: group.is_exposed(),
            };
            going.contains(&ConfigRow::Group(GroupRow::Storage(head)))
        }
        None => true,
    }
}

/// Puts the head of a host group in, in place of the one that goes.
///
/// # Errors
/// `AllocError` where there is no memory.
fn put_hosts_head<A: Allocator + Copy>(
    alloc: A,
    config: &mut Config<A>,
    going: &BTreeSet<ConfigRow, A>,
    row: &HostGroupRow,
) -> Result<bool, AllocError>
    requires fresh { ¬ IsGroup config.old.mapping (group.Host row.now) }
    ensures put { IfOk result (λ is. is ≡ true → IsPut (Has going.now) (config_row.Group (group.Host row.now)) config.old config.new) }
    ensures refused { IfOk result (λ is. is ≡ false → HasRival (Has going.now) config.old (config_row.Group (group.Host row.now))) }
    ensures tidy { IsTidy config.old → IsTidy config.new }
{
    if !may_head_hosts(config.mapping(), going, &row.name) {
        return Ok(false);
    }
    put_host_head(alloc, &mut config.mapping, row)?;
    Ok(true)
}

/// Puts the head of a storage group in, in place of the one that goes.
///
/// # Errors
/// `AllocError` where there is no memory.
fn put_group_head<A: Allocator + Copy>(
    alloc: A,
    config: &mut Config<A>,
    going: &BTreeSet<ConfigRow, A>,
    row: &StorageGroupRow,
) -> Result<bool, AllocError>
    requires fresh { ¬ IsGroup config.old.mapping (group.Storage row.now) }
    ensures put { IfOk result (λ is. is ≡ true → IsPut (Has going.now) (config_row.Group (group.Storage row.now)) config.old config.new) }
    ensures refused { IfOk result (λ is. is ≡ false → HasRival (Has going.now) config.old (config_row.Group (group.Storage row.now))) }
    ensures tidy { IsTidy config.old → IsTidy config.new }
{
    if !may_head(config.mapping(), going, &row.name) {
        return Ok(false);
    }
    put_storage_head(alloc, &mut config.mapping, row)?;
    Ok(true)
}

/// Puts the head of a group in, in place of the one that goes.
///
/// # Errors
/// `AllocError` where there is no memory.
pub fn put_group<A: Allocator + Copy>(
    alloc: A,
    config: &mut Config<A>,
    going: &BTreeSet<ConfigRow, A>,
    row: &GroupRow,
) -> Result<bool, AllocError>
    requires fresh { ¬ IsGroup config.old.mapping row.now }
    ensures put { IfOk result (λ is. is ≡ true → IsPut (Has going.now) (config_row.Group row.now) config.old config.new) }
    ensures refused { IfOk result (λ is. is ≡ false → HasRival (Has going.now) config.old (config_row.Group row.now)) }
    ensures tidy { IsTidy config.old → IsTidy config.new }
{
    match row {
        GroupRow::Host(head) => put_hosts_head(alloc, config, going, head),
        GroupRow::Storage(head) => put_group_head(alloc, config, going, head),
    }
}
