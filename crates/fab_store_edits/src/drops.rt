//! Sole rows taken out: heads of groups that have no part.
ghost use Rattle.std.specs.Prelude.{◌≡◌, ℕ, List, true, false, Some};
ghost use Rattle.std.specs.FinMap as map;
ghost use Rattle.std.specs.FinSet as set;
ghost use Rattle.fab_reach_base.specs.fab_mapping_base.Bare.{HasNoPart};
ghost use Rattle.fab_reach_base.specs.fab_mapping_base.Groups.{HostGroupRows, StorageGroupRows};
ghost use Rattle.fab_store_rows.specs.declared.config_row.ConfigRow.TheVariants as config_row;
ghost use Rattle.fab_store_rows.specs.declared.config_row.GroupRow.TheVariants as group;
ghost use Rattle.fab_store_rows.specs.Standing.{IsGroup, Stands};
ghost use Rattle.fab_store_rows.specs.Tidy.{IsTidy};
ghost use Rattle.fab_store_edits.specs.Inner.Edits as edits;
ghost use Rattle.fab_store_edits.specs.Inner.Edits.{IsTaken, IsHeld};

use fab_reach_base::Config;
use fab_reach_base::mapping::Mapping;
use fab_reach_base::names::Name;
use fab_store_rows::{ConfigRow, GroupRow, HostGroupRow, StorageGroupRow};
use std::alloc::Allocator;

/// Whether there is no host group of this name, or it has no host.
fn has_no_host<A: Allocator + Copy>(mapping: &Mapping<A>, name: &Name) -> bool
    ensures none { result ≡ true → (g : HostGroupRows) → map.get mapping.now.host_groups name.now ≡ Some g → (h : List ℕ) → set.contains g.hosts h ≡ false }
    ensures some { result ≡ false → (g : HostGroupRows) × (map.get mapping.now.host_groups name.now ≡ Some g) × ¬ ((h : List ℕ) → set.contains g.hosts h ≡ false) }
{
    match mapping.host_group(name) {
        Some(group) => group.is_bare(),
        None => true,
    }
}

/// Whether there is no storage group of this name, or it has no part.
fn has_no_part<A: Allocator + Copy>(mapping: &Mapping<A>, name: &Name) -> bool
    ensures none { result ≡ true → (g : StorageGroupRows) → map.get mapping.now.groups name.now ≡ Some g → HasNoPart g }
    ensures some { result ≡ false → (g : StorageGroupRows) × (map.get mapping.now.groups name.now ≡ Some g) × ¬ HasNoPart g }
{
    match mapping.group(name) {
        Some(group) => group.is_bare(),
        None => true,
    }
}

/// Drops the host group of a row, if it has no host.
fn drop_hosts<A: Allocator + Copy>(config: &mut Config<A>, row: &HostGroupRow) -> bool
    requires stands { IsGroup config.old.mapping (group.Host row.now) }
    ensures taken { result ≡ true → IsTaken (config_row.Group (group.Host row.now)) config.old config.new }
    ensures held { result ≡ false → IsHeld config.old (config_row.Group (group.Host row.now)) }
    ensures tidy { IsTidy config.old → IsTidy config.new }
{
    if !has_no_host(config.mapping(), &row.name) {
        return false;
    }
    let _own = config.mapping.take_host_group(&row.name);
    true
}

/// Drops the storage group of a row, if it has no part.
fn drop_storage<A: Allocator + Copy>(config: &mut Config<A>, row: &StorageGroupRow) -> bool
    requires stands { IsGroup config.old.mapping (group.Storage row.now) }
    ensures taken { result ≡ true → IsTaken (config_row.Group (group.Storage row.now)) config.old config.new }
    ensures held { result ≡ false → IsHeld config.old (config_row.Group (group.Storage row.now)) }
    ensures tidy { IsTidy config.old → IsTidy config.new }
{
    if !has_no_part(config.mapping(), &row.name) {
        return false;
    }
    let _own = config.mapping.take_group(&row.name);
    true
}

/// Drops the group of a row, if it has no part.
fn drop_group<A: Allocator + Copy>(config: &mut Config<A>, row: &GroupRow) -> bool
    requires stands { IsGroup config.old.mapping row.now }
    ensures taken { result ≡ true → IsTaken (config_row.Group row.now) config.old config.new }
    ensures held { result ≡ false → IsHeld config.old (config_row.Group row.now) }
    ensures tidy { IsTidy config.old → IsTidy config.new }
{
    match row {
        GroupRow::Host(head) => drop_hosts(config, head),
        GroupRow::Storage(head) => drop_storage(config, head),
    }
}

/// Drops a sole row that stands: the head of a group that has no part. A setting is never dropped.
pub fn drop_sole<A: Allocator + Copy>(config: &mut Config<A>, row: &ConfigRow) -> bool
    requires stands { Stands config.old row.now }
    requires sole { edits.is_sole row.now ≡ true }
    ensures taken { result ≡ true → IsTaken row.now config.old config.new }
    ensures held { result ≡ false → IsHeld config.old row.now }
    ensures tidy { IsTidy config.old → IsTidy config.new }
{
    match row {
        ConfigRow::Group(head) => drop_group(config, head),
        _ => false,
    }
}
