//! Whether a row may come.
ghost use Rattle.std.specs.Prelude.{◌↔◌, Contains, IfSome, IsTrue};
ghost use Rattle.std.specs.Option.{option_copied, option_map};
ghost use Rattle.std.specs.FinMap as map;
ghost use Rattle.fab_reach_base.specs.fab_lemmas.MapsOfSets.{seen_set};
ghost use Rattle.fab_reach_base.specs.fab_zoning_rows.Rows.{IsPlain};
ghost use Rattle.fab_reach_base.specs.fab_zoning.Steps.{HasAlias, HasZone};
ghost use Rattle.fab_store_rows.specs.declared.config_row.ConfigRow.{ConfigRow as Row};
ghost use Rattle.fab_store_rows.specs.declared.config_row.ZoningItem.TheVariants as item;
ghost use Rattle.fab_store_rows.specs.declared.config_row.PartRow.TheVariants as parts;
ghost use Rattle.fab_store_drafts.specs.There.{IsListable, HasSomeHost, HasFewHosts, HasFewLike, ItemMayCome, IsNameable, GroupMayCome, PartMayCome, MayCome};

use fab_reach_base::Config;
use fab_reach_base::mapping::{
    HostGroup, LAST_UNIT, MOST_GROUPS_SERVED, MOST_HOSTS, MOST_TARGETS, MOST_UNITS, Mapping,
    StorageGroup,
};
use fab_reach_base::names::{Member, Name};
use fab_reach_base::zoning::{MOST_MEMBERS, Zoning};
use fab_store_rows::{ConfigRow, GroupRow, PartRow, StoragePart, ZoningItem};
use std::alloc::Allocator;
use std::collections::BTreeSet;

/// Whether an alias, zone or zone set is not too large, if it is there.
fn is_listable<K: Ord, A: Allocator>(set: Option<&BTreeSet<K, A>>) -> bool
    ensures { IsTrue result ↔ IfSome (option_map (seen_set K.cmp) (option_copied set.entry)) IsListable }
{
    match set {
        Some(set) => set.len() <= MOST_MEMBERS,
        None => true,
    }
}

/// Whether the member is no alias.
fn is_plain(member: &Member) -> bool
    ensures { IsTrue result ↔ IsPlain member.now }
{
    match member {
        Member::Alias(_) => false,
        _ => true,
    }
}

/// Whether the alias that the member names, if it names one, is there.
fn has_alias<A: Allocator + Copy>(zoning: &Zoning<A>, member: &Member) -> bool
    ensures { IsTrue result ↔ HasAlias zoning.now member.now }
{
    match member {
        Member::Alias(alias) => zoning.alias(alias).is_some(),
        _ => true,
    }
}

/// Whether the zone is there.
fn has_zone<A: Allocator + Copy>(zoning: &Zoning<A>, zone: &Name) -> bool
    ensures { IsTrue result ↔ HasZone zoning.now zone.now }
{
    zoning.zone(zone).is_some()
}

/// Whether the member may come to the alias.
fn alias_may_have<A: Allocator + Copy>(zoning: &Zoning<A>, name: &Name, member: &Member) -> bool
    ensures { IsTrue result ↔ ItemMayCome zoning.now (item.Alias name.now member.now) }
{
    if !is_plain(member) {
        return false;
    }
    is_listable(zoning.alias(name))
}

/// Whether the member may come to the zone.
fn zone_may_have<A: Allocator + Copy>(zoning: &Zoning<A>, name: &Name, member: &Member) -> bool
    ensures { IsTrue result ↔ ItemMayCome zoning.now (item.Zone name.now member.now) }
{
    if !has_alias(zoning, member) {
        return false;
    }
    is_listable(zoning.zone(name))
}

/// Whether the zone may come to the zone set.
fn set_may_have<A: Allocator + Copy>(zoning: &Zoning<A>, name: &Name, zone: &Name) -> bool
    ensures { IsTrue result ↔ ItemMayCome zoning.now (item.Set name.now zone.now) }
{
    if !has_zone(zoning, zone) {
        return false;
    }
    is_listable(zoning.zone_set(name))
}

/// Whether the item may come to the zoning.
fn item_may_come<A: Allocator + Copy>(zoning: &Zoning<A>, item: &ZoningItem) -> bool
    ensures { IsTrue result ↔ ItemMayCome zoning.now item.now }
{
    match item {
        ZoningItem::Alias(name, member) => alias_may_have(zoning, name, member),
        ZoningItem::Zone(name, member) => zone_may_have(zoning, name, member),
        ZoningItem::Set(name, zone) => set_may_have(zoning, name, zone),
    }
}

/// Whether the host group has a host, if it is there.
pub fn has_some_host<A: Allocator + Copy>(group: Option<&HostGroup<A>>) -> bool
    ensures { IsTrue result ↔ IfSome (option_copied group.entry) HasSomeHost }
{
    match group {
        Some(group) => group.hosts().len() > 0,
        None => true,
    }
}

/// Whether the host group has no more hosts than it may have, if it is there.
fn has_few_hosts<A: Allocator + Copy>(group: Option<&HostGroup<A>>) -> bool
    ensures { IsTrue result ↔ IfSome (option_copied group.entry) HasFewHosts }
{
    match group {
        Some(group) => group.hosts().len() <= MOST_HOSTS,
        None => true,
    }
}

/// Whether the storage group has no more parts of the part's kind than it may have.
fn has_few_like<A: Allocator + Copy>(group: &StorageGroup<A>, part: &StoragePart) -> bool
    ensures { IsTrue result ↔ HasFewLike part.now group.now }
{
    match part {
        StoragePart::HostGroup(_) => group.host_groups().len() <= MOST_GROUPS_SERVED,
        StoragePart::Target(_) => group.targets().len() <= MOST_TARGETS,
        StoragePart::Unit(_, _) => group.units().len() <= MOST_UNITS,
    }
}

/// Whether the host group that the part names is there, and its unit is none above the last.
fn is_nameable<A: Allocator + Copy>(mapping: &Mapping<A>, part: &StoragePart) -> bool
    ensures { IsTrue result ↔ IsNameable mapping.now part.now }
{
    match part {
        StoragePart::HostGroup(hosts) => mapping.host_group(hosts).is_some(),
        StoragePart::Target(_) => true,
        StoragePart::Unit(unit, _) => *unit <= LAST_UNIT,
    }
}

/// Whether the group may come.
fn group_may_come<A: Allocator + Copy>(mapping: &Mapping<A>, row: &GroupRow) -> bool
    ensures { IsTrue result ↔ GroupMayCome mapping.now row.now }
{
    match row {
        GroupRow::Host(row) => has_some_host(mapping.host_group(&row.name)),
        GroupRow::Storage(_) => true,
    }
}

/// Whether there are not too many of the part's kind in the storage group of this name, if it is there.
fn has_room_at<A: Allocator + Copy>(mapping: &Mapping<A>, name: &Name, part: &StoragePart) -> bool
    ensures { IsTrue result ↔ IfSome (map.get mapping.now.groups name.now) (HasFewLike part.now) }
{
    match mapping.group(name) {
        Some(group) => has_few_like(group, part),
        None => true,
    }
}

/// Whether the part may come to the storage group of this name.
fn storage_may_have<A: Allocator + Copy>(
    mapping: &Mapping<A>,
    name: &Name,
    part: &StoragePart,
) -> bool
    ensures { IsTrue result ↔ PartMayCome mapping.now (parts.Storage name.now part.now) }
{
    if !is_nameable(mapping, part) {
        return false;
    }
    has_room_at(mapping, name, part)
}

/// Whether the part may come.
fn part_may_come<A: Allocator + Copy>(mapping: &Mapping<A>, row: &PartRow) -> bool
    ensures { IsTrue result ↔ PartMayCome mapping.now row.now }
{
    match row {
        PartRow::Host(name, _) => has_few_hosts(mapping.host_group(name)),
        PartRow::Storage(name, part) => storage_may_have(mapping, name, part),
    }
}

/// Whether the row may come: what it names is there, and what has it is not too large.
fn may_come<A: Allocator + Copy>(config: &Config<A>, row: &ConfigRow) -> bool
    ensures { IsTrue result ↔ MayCome config.now row.now }
{
    match row {
        ConfigRow::Setting(_) => true,
        ConfigRow::Zoning(row) => item_may_come(config.zoning(row.fabric), &row.item),
        ConfigRow::Active(row) => is_plain(&row.member),
        ConfigRow::Group(row) => group_may_come(config.mapping(), row),
        ConfigRow::Part(row) => part_may_come(config.mapping(), row),
    }
}

/// Whether all the rows may come.
pub fn all_may_come<A: Allocator + Copy>(config: &Config<A>, rows: &[ConfigRow]) -> bool
    ensures { IsTrue result ↔ ((r : Row) → Contains rows.now r → MayCome config.now r) }
{
    for row in rows {
        if !may_come(config, row) {
            return false;
        }
    }
    true
}
