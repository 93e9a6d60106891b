//! Whether a row stands in a configuration.
ghost use Rattle.std.specs.Prelude.{◌≡◌, ◌↔◌, IsTrue};
ghost use Rattle.fab_reach_base.specs.fab_lemmas.MapsOfSets.{has};
ghost use Rattle.fab_reach_base.specs.fab_zoning.Zonings.{permits};
ghost use Rattle.fab_store_rows.specs.Standing.{IsSetting, HasItem, IsStorageHead, IsGroup, HasPart, IsPart, Stands};
ghost use Rattle.fab_store_rows.specs.declared.config_row.GroupRow.TheVariants as group;
ghost use Rattle.fab_store_rows.specs.declared.config_row.PartRow.TheVariants as parts;

use crate::{
    ConfigRow, GroupRow, HostGroupRow, PartRow, SettingRow, StorageGroupRow, StoragePart,
    ZoningItem,
};
use fab_reach_base::Config;
use fab_reach_base::mapping::{Mapping, StorageGroup};
use fab_reach_base::names::{Member, Name};
use fab_reach_base::zoning::Zoning;
use std::alloc::Allocator;

/// Whether the fabric has this setting.
fn is_setting<A: Allocator + Copy>(config: &Config<A>, row: &SettingRow) -> bool
    ensures { IsTrue result ↔ IsSetting config.now row.now }
{
    match row {
        SettingRow::ActiveSet(fabric, name) => config.zoning(*fabric).active() == *name,
        SettingRow::DefaultZone(fabric, permit) => {
            config.zoning(*fabric).flag().permits() == *permit
        }
    }
}

/// Whether the alias has the member.
fn is_in_alias<A: Allocator + Copy>(zoning: &Zoning<A>, name: &Name, member: &Member) -> bool
    ensures { result ≡ has zoning.now.aliases name.now member.now }
{
    match zoning.alias(name) {
        Some(members) => members.contains(member),
        None => false,
    }
}

/// Whether the zone has the member.
fn is_in_zone<A: Allocator + Copy>(zoning: &Zoning<A>, name: &Name, member: &Member) -> bool
    ensures { result ≡ has zoning.now.zones name.now member.now }
{
    match zoning.zone(name) {
        Some(members) => members.contains(member),
        None => false,
    }
}

/// Whether the zone set has the zone.
fn is_in_set<A: Allocator + Copy>(zoning: &Zoning<A>, name: &Name, zone: &Name) -> bool
    ensures { result ≡ has zoning.now.sets name.now zone.now }
{
    match zoning.zone_set(name) {
        Some(zones) => zones.contains(zone),
        None => false,
    }
}

/// Whether the zoning has this item.
fn has_item<A: Allocator + Copy>(zoning: &Zoning<A>, item: &ZoningItem) -> bool
    ensures { IsTrue result ↔ HasItem zoning.now item.now }
{
    match item {
        ZoningItem::Alias(name, member) => is_in_alias(zoning, name, member),
        ZoningItem::Zone(name, member) => is_in_zone(zoning, name, member),
        ZoningItem::Set(name, zone) => is_in_set(zoning, name, zone),
    }
}

/// Whether there is this host group, of this tenant.
fn has_host_group<A: Allocator + Copy>(mapping: &Mapping<A>, row: &HostGroupRow) -> bool
    ensures { IsTrue result ↔ IsGroup mapping.now (group.Host row.now) }
{
    match mapping.host_group(&row.name) {
        Some(group) => group.tenant() == row.tenant,
        None => false,
    }
}

/// Whether the storage group has this tenant, this array and this flag.
fn is_headed<A: Allocator + Copy>(group: &StorageGroup<A>, row: &StorageGroupRow) -> bool
    ensures { IsTrue result ↔ IsStorageHead row.now group.now }
{
    if group.tenant() != row.tenant {
        return false;
    }
    if group.array() != row.array {
        return false;
    }
    group.is_exposed() == row.exposed
}

/// Whether there is this storage group, of this tenant, on this array, exposed or hidden.
fn has_storage_group<A: Allocator + Copy>(mapping: &Mapping<A>, row: &StorageGroupRow) -> bool
    ensures { IsTrue result ↔ IsGroup mapping.now (group.Storage row.now) }
{
    match mapping.group(&row.name) {
        Some(group) => is_headed(group, row),
        None => false,
    }
}

/// Whether the mapping has this group.
fn has_group<A: Allocator + Copy>(mapping: &Mapping<A>, row: &GroupRow) -> bool
    ensures { IsTrue result ↔ IsGroup mapping.now row.now }
{
    match row {
        GroupRow::Host(row) => has_host_group(mapping, row),
        GroupRow::Storage(row) => has_storage_group(mapping, row),
    }
}

/// Whether the storage group has this part.
fn has_storage_part<A: Allocator + Copy>(group: &StorageGroup<A>, part: &StoragePart) -> bool
    ensures { IsTrue result ↔ HasPart part.now group.now }
{
    match part {
        StoragePart::HostGroup(hosts) => group.has_hosts(hosts),
        StoragePart::Target(target) => group.has_target(target),
        StoragePart::Unit(unit, volume) => group.unit(*unit) == Some(*volume),
    }
}

/// Whether there is a host group of this name that has the host.
fn has_host<A: Allocator + Copy>(mapping: &Mapping<A>, name: &Name, host: &Name) -> bool
    ensures { IsTrue result ↔ IsPart mapping.now (parts.Host name.now host.now) }
{
    match mapping.host_group(name) {
        Some(group) => group.has_host(host),
        None => false,
    }
}

/// Whether there is a storage group of this name that has the part.
fn has_part_of<A: Allocator + Copy>(mapping: &Mapping<A>, name: &Name, part: &StoragePart) -> bool
    ensures { IsTrue result ↔ IsPart mapping.now (parts.Storage name.now part.now) }
{
    match mapping.group(name) {
        Some(group) => has_storage_part(group, part),
        None => false,
    }
}

/// Whether the mapping has this part.
fn has_part<A: Allocator + Copy>(mapping: &Mapping<A>, row: &PartRow) -> bool
    ensures { IsTrue result ↔ IsPart mapping.now row.now }
{
    match row {
        PartRow::Host(name, host) => has_host(mapping, name, host),
        PartRow::Storage(name, part) => has_part_of(mapping, name, part),
    }
}

/// Whether the row stands in the configuration: the fabric has the setting, the item or the active
/// row, or the mapping has the group or the part. It takes no memory.
pub fn has_row<A: Allocator + Copy>(config: &Config<A>, row: &ConfigRow) -> bool
    ensures { IsTrue result ↔ Stands config.now row.now }
{
    match row {
        ConfigRow::Setting(row) => is_setting(config, row),
        ConfigRow::Zoning(row) => has_item(config.zoning(row.fabric), &row.item),
        ConfigRow::Active(row) => config.zoning(row.fabric).has_active(&row.zone, &row.member),
        ConfigRow::Group(row) => has_group(config.mapping(), row),
        ConfigRow::Part(row) => has_part(config.mapping(), row),
    }
}
