//! How the rows of a configuration are gathered, table by table.
ghost use Rattle.std.specs.Prelude.{◌≡◌, ◌↔◌, OnOk, IsTrue};
ghost use Rattle.std.specs.Option.{option_copied};
ghost use Rattle.fab_reach_base.specs.Adding.{Adds};
ghost use Rattle.fab_store_rows.specs.Standing.{Stands};
ghost use Rattle.fab_store_rows.specs.Gathering.{Has, Misses, Lacking, HasHostGroup, HasStorageGroup, RowOfSome, RowOfSets, unit_row, storage_head_row, IsDefinitionRow, IsActiveRow, IsSettingRow, IsFabricRow, IsHostGroupRow, IsStorageGroupRow, IsHostGroupsRow, IsStorageGroupsRow};
ghost use Rattle.fab_store_rows.specs.declared.config_row.ConfigRow.{ConfigRow};

use crate::makers::{ActiveZones, Aliases, HostGroups, Hosts, Maker, Targets, ZoneSets, Zones};
use crate::standing::has_row;
use crate::{ConfigRow, GroupRow, HostGroupRow, PartRow, SettingRow, StorageGroupRow, StoragePart};
use fab_reach_base::Config;
use fab_reach_base::mapping::{HostGroup, Mapping, StorageGroup};
use fab_reach_base::names::{Fabric, Name};
use fab_reach_base::zoning::Zoning;
use std::alloc::{AllocError, Allocator};
use std::collections::{BTreeSet, btree_map, btree_set};

/// Whether the row does not stand in the configuration, if one is given.
fn is_missing<A: Allocator + Copy>(without: Option<&Config<A>>, row: &ConfigRow) -> bool
    ensures { IsTrue result ↔ Misses (option_copied without.entry) row.now }
{
    match without {
        Some(config) => !has_row(config, row),
        None => true,
    }
}

/// Adds the row, unless it stands in the configuration that is given.
pub fn add_row<A: Allocator + Copy>(
    rows: &mut BTreeSet<ConfigRow, A>,
    without: Option<&Config<A>>,
    row: ConfigRow,
) -> Result<(), AllocError>
    ensures { OnOk result (Adds (Lacking (option_copied without.entry) (λ r. r ≡ row)) (Has rows.old) (Has rows.new)) }
{
    if is_missing(without, &row) {
        rows.insert(row)?;
    }
    Ok(())
}

/// Adds the rows of a key and each item of its set.
fn add_set<Q, K: Ord, M: Maker<Q, K>, A: Allocator + Copy>(
    rows: &mut BTreeSet<ConfigRow, A>,
    without: Option<&Config<A>>,
    maker: &M,
    key: &Q,
    items: btree_set::Iter<'_, K>,
) -> Result<(), AllocError>
    ensures { OnOk result (Adds (Lacking (option_copied without.entry) (RowOfSome (M.row_of maker.now key.now) items.entry)) (Has rows.old) (Has rows.new)) }
{
    for item in items {
        add_row(rows, without, maker.row(key, item))?;
    }
    Ok(())
}

/// Whether the rows of the key and all these items stand in the configuration, if one is given. No
/// tells nothing.
fn are_kept<Q, K: Ord, M: Maker<Q, K>, A: Allocator + Copy>(
    without: Option<&Config<A>>,
    maker: &M,
    key: &Q,
    items: &BTreeSet<K, A>,
) -> bool
    ensures { IsTrue result → (r : ConfigRow) → RowOfSome (M.row_of maker.now key.now) items.now.keys r → ¬ Misses (option_copied without.entry) r }
{
    match without {
        Some(config) => maker.stand(config, key, items),
        None => false,
    }
}

/// Adds the rows of a key and each item of its set, without looking for each where they are kept.
pub fn add_set_lacking<Q, K: Ord, M: Maker<Q, K>, A: Allocator + Copy>(
    rows: &mut BTreeSet<ConfigRow, A>,
    without: Option<&Config<A>>,
    maker: &M,
    key: &Q,
    items: &BTreeSet<K, A>,
) -> Result<(), AllocError>
    ensures { OnOk result (Adds (Lacking (option_copied without.entry) (RowOfSome (M.row_of maker.now key.now) items.now.keys)) (Has rows.old) (Has rows.new)) }
{
    if are_kept(without, maker, key, items) {
        return Ok(());
    }
    add_set(rows, without, maker, key, items.iter())
}

/// Adds the rows of each key and each item of its set.
fn add_sets<Q, K: Ord, M: Maker<Q, K>, A: Allocator + Copy>(
    rows: &mut BTreeSet<ConfigRow, A>,
    without: Option<&Config<A>>,
    maker: &M,
    sets: btree_map::Iter<'_, Q, BTreeSet<K, A>>,
) -> Result<(), AllocError>
    ensures { OnOk result (Adds (Lacking (option_copied without.entry) (RowOfSets (M.row_of maker.now) sets.entry)) (Has rows.old) (Has rows.new)) }
{
    for (key, items) in sets {
        add_set_lacking(rows, without, maker, key, items)?;
    }
    Ok(())
}

/// Adds the rows of a fabric's aliases, zones and zone sets.
fn add_definitions<A: Allocator + Copy>(
    rows: &mut BTreeSet<ConfigRow, A>,
    without: Option<&Config<A>>,
    fabric: Fabric,
    zoning: &Zoning<A>,
) -> Result<(), AllocError>
    ensures { OnOk result (Adds (Lacking (option_copied without.entry) (IsDefinitionRow fabric zoning.now)) (Has rows.old) (Has rows.new)) }
{
    add_sets(rows, without, &Aliases(fabric), zoning.aliases())?;
    add_sets(rows, without, &Zones(fabric), zoning.zones())?;
    add_sets(rows, without, &ZoneSets(fabric), zoning.zone_sets())?;
    Ok(())
}

/// Adds the rows of a fabric's active zone set.
pub fn add_active<A: Allocator + Copy>(
    rows: &mut BTreeSet<ConfigRow, A>,
    without: Option<&Config<A>>,
    fabric: Fabric,
    zoning: &Zoning<A>,
) -> Result<(), AllocError>
    ensures { OnOk result (Adds (Lacking (option_copied without.entry) (IsActiveRow fabric zoning.now)) (Has rows.old) (Has rows.new)) }
{
    add_sets(rows, without, &ActiveZones(fabric), zoning.active_zones())?;
    Ok(())
}

/// Adds the rows of a fabric's settings: the name of its active zone set, and what its default zone
/// permits.
fn add_settings<A: Allocator + Copy>(
    rows: &mut BTreeSet<ConfigRow, A>,
    without: Option<&Config<A>>,
    fabric: Fabric,
    zoning: &Zoning<A>,
) -> Result<(), AllocError>
    ensures { OnOk result (Adds (Lacking (option_copied without.entry) (IsSettingRow fabric zoning.now)) (Has rows.old) (Has rows.new)) }
{
    let active = SettingRow::ActiveSet(fabric, zoning.active());
    add_row(rows, without, ConfigRow::Setting(active))?;
    let default = SettingRow::DefaultZone(fabric, zoning.flag().permits());
    add_row(rows, without, ConfigRow::Setting(default))?;
    Ok(())
}

/// Adds the rows of a fabric's zoning.
fn add_fabric<A: Allocator + Copy>(
    rows: &mut BTreeSet<ConfigRow, A>,
    without: Option<&Config<A>>,
    fabric: Fabric,
    zoning: &Zoning<A>,
) -> Result<(), AllocError>
    ensures { OnOk result (Adds (Lacking (option_copied without.entry) (IsFabricRow fabric zoning.now)) (Has rows.old) (Has rows.new)) }
{
    add_definitions(rows, without, fabric, zoning)?;
    add_active(rows, without, fabric, zoning)?;
    add_settings(rows, without, fabric, zoning)?;
    Ok(())
}

/// Adds the rows of a host group: its own, and one for each host.
fn add_host_group<A: Allocator + Copy>(
    rows: &mut BTreeSet<ConfigRow, A>,
    without: Option<&Config<A>>,
    name: &Name,
    group: &HostGroup<A>,
) -> Result<(), AllocError>
    ensures { OnOk result (Adds (Lacking (option_copied without.entry) (IsHostGroupRow name.now group.now)) (Has rows.old) (Has rows.new)) }
{
    let head = HostGroupRow {
        name: *name,
        tenant: group.tenant(),
    };
    add_row(rows, without, ConfigRow::Group(GroupRow::Host(head)))?;
    add_set(rows, without, &Hosts, name, group.hosts())?;
    Ok(())
}

/// Whether the configuration, if one is given, has this very host group under the name.
fn has_host_group<A: Allocator + Copy>(
    config: Option<&Config<A>>,
    name: &Name,
    group: &HostGroup<A>,
) -> bool
    ensures { IsTrue result ↔ HasHostGroup (option_copied config.entry) name.now group.now }
{
    let Some(config) = config else {
        return false;
    };
    match config.mapping().host_group(name) {
        Some(other) => other.is_same(group),
        None => false,
    }
}

/// The same, without looking for each row where the configuration has this very host group.
pub fn add_host_group_lacking<A: Allocator + Copy>(
    rows: &mut BTreeSet<ConfigRow, A>,
    without: Option<&Config<A>>,
    name: &Name,
    group: &HostGroup<A>,
) -> Result<(), AllocError>
    ensures { OnOk result (Adds (Lacking (option_copied without.entry) (IsHostGroupRow name.now group.now)) (Has rows.old) (Has rows.new)) }
{
    if has_host_group(without, name, group) {
        return Ok(());
    }
    add_host_group(rows, without, name, group)
}

/// Adds the rows of each host group.
fn add_host_groups<A: Allocator + Copy>(
    rows: &mut BTreeSet<ConfigRow, A>,
    without: Option<&Config<A>>,
    mapping: &Mapping<A>,
) -> Result<(), AllocError>
    ensures { OnOk result (Adds (Lacking (option_copied without.entry) (IsHostGroupsRow mapping.now)) (Has rows.old) (Has rows.new)) }
{
    for (name, group) in mapping.host_groups() {
        add_host_group_lacking(rows, without, name, group)?;
    }
    Ok(())
}

/// Adds the rows of a storage group's units with their volumes.
fn add_units<A: Allocator + Copy>(
    rows: &mut BTreeSet<ConfigRow, A>,
    without: Option<&Config<A>>,
    name: &Name,
    units: btree_map::Iter<'_, u16, Name>,
) -> Result<(), AllocError>
    ensures { OnOk result (Adds (Lacking (option_copied without.entry) (RowOfSome (unit_row name.now) units.entry)) (Has rows.old) (Has rows.new)) }
{
    for (unit, volume) in units {
        let part = StoragePart::Unit(*unit, *volume);
        add_row(
            rows,
            without,
            ConfigRow::Part(PartRow::Storage(*name, part)),
        )?;
    }
    Ok(())
}

/// Adds the row of a storage group itself.
fn add_head<A: Allocator + Copy>(
    rows: &mut BTreeSet<ConfigRow, A>,
    without: Option<&Config<A>>,
    name: &Name,
    group: &StorageGroup<A>,
) -> Result<(), AllocError>
    ensures { OnOk result (Adds (Lacking (option_copied without.entry) (λ r. r ≡ storage_head_row name.now group.now)) (Has rows.old) (Has rows.new)) }
{
    let head = StorageGroupRow {
        name: *name,
        tenant: group.tenant(),
        array: group.array(),
        exposed: group.is_exposed(),
    };
    add_row(rows, without, ConfigRow::Group(GroupRow::Storage(head)))
}

/// Adds the rows of a storage group: its own, and one for each host group, target and unit.
fn add_group<A: Allocator + Copy>(
    rows: &mut BTreeSet<ConfigRow, A>,
    without: Option<&Config<A>>,
    name: &Name,
    group: &StorageGroup<A>,
) -> Result<(), AllocError>
    ensures { OnOk result (Adds (Lacking (option_copied without.entry) (IsStorageGroupRow name.now group.now)) (Has rows.old) (Has rows.new)) }
{
    add_head(rows, without, name, group)?;
    add_set(rows, without, &HostGroups, name, group.host_groups())?;
    add_set(rows, without, &Targets, name, group.targets())?;
    add_units(rows, without, name, group.units())?;
    Ok(())
}

/// Whether the configuration, if one is given, has this very storage group under the name.
fn has_storage_group<A: Allocator + Copy>(
    config: Option<&Config<A>>,
    name: &Name,
    group: &StorageGroup<A>,
) -> bool
    ensures { IsTrue result ↔ HasStorageGroup (option_copied config.entry) name.now group.now }
{
    let Some(config) = config else {
        return false;
    };
    match config.mapping().group(name) {
        Some(other) => other.is_same(group),
        None => false,
    }
}

/// The same, without looking for each row where the configuration has this very storage group.
pub fn add_group_lacking<A: Allocator + Copy>(
    rows: &mut BTreeSet<ConfigRow, A>,
    without: Option<&Config<A>>,
    name: &Name,
    group: &StorageGroup<A>,
) -> Result<(), AllocError>
    ensures { OnOk result (Adds (Lacking (option_copied without.entry) (IsStorageGroupRow name.now group.now)) (Has rows.old) (Has rows.new)) }
{
    if has_storage_group(without, name, group) {
        return Ok(());
    }
    add_group(rows, without, name, group)
}

/// Adds the rows of each storage group.
fn add_groups<A: Allocator + Copy>(
    rows: &mut BTreeSet<ConfigRow, A>,
    without: Option<&Config<A>>,
    mapping: &Mapping<A>,
) -> Result<(), AllocError>
    ensures { OnOk result (Adds (Lacking (option_copied without.entry) (IsStorageGroupsRow mapping.now)) (Has rows.old) (Has rows.new)) }
{
    for (name, group) in mapping.groups() {
        add_group_lacking(rows, without, name, group)?;
    }
    Ok(())
}

/// Adds the rows of a configuration, but for those that stand in another that is given.
pub fn add_all<A: Allocator + Copy>(
    rows: &mut BTreeSet<ConfigRow, A>,
    without: Option<&Config<A>>,
    config: &Config<A>,
) -> Result<(), AllocError>
    ensures { OnOk result (Adds (Lacking (option_copied without.entry) (Stands config.now)) (Has rows.old) (Has rows.new)) }
{
    add_fabric(rows, without, Fabric::A, config.zoning(Fabric::A))?;
    add_fabric(rows, without, Fabric::B, config.zoning(Fabric::B))?;
    add_host_groups(rows, without, config.mapping())?;
    add_groups(rows, without, config.mapping())?;
    Ok(())
}
