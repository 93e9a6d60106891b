//! Whether a row may go.
ghost use Rattle.std.specs.Prelude.{◌↔◌, Contains, IsTrue};
ghost use Rattle.fab_reach_base.specs.Records.{zoning_at};
ghost use Rattle.fab_store_rows.specs.declared.config_row.ConfigRow.{ConfigRow as Row};
ghost use Rattle.fab_store_rows.specs.declared.config_row.GroupRow.TheVariants as group;
ghost use Rattle.fab_store_rows.specs.declared.config_row.ZoningItem.TheVariants as item;
ghost use Rattle.fab_store_drafts.specs.There.{ItemMayGo, GroupMayGo, PartMayGo, MayGo};
ghost use Rattle.fab_store_drafts.specs.Users.{AreUsers};

use crate::comers::has_some_host;
use crate::users::Users;
use crate::uses::Used;
use fab_reach_base::Config;
use fab_reach_base::mapping::Mapping;
use fab_reach_base::names::{Fabric, Member, Name};
use fab_store_rows::{ConfigRow, GroupRow, HostGroupRow, PartRow, ZoningItem, ZoningRow};
use std::alloc::Allocator;

/// Whether the alias is there still, or nothing names it.
fn alias_may_lose<A: Allocator + Copy>(
    config: &Config<A>,
    users: &Users<A>,
    fabric: Fabric,
    name: &Name,
    member: &Member,
) -> bool
    requires { AreUsers config.now users.now }
    ensures { IsTrue result ↔ ItemMayGo (zoning_at config.now fabric) (item.Alias name.now member.now) }
{
    let _member = member;
    if config.zoning(fabric).alias(name).is_some() {
        return true;
    }
    !users.is_used(&Used::Alias(fabric, *name))
}

/// Whether the zone is there still, or nothing names it.
fn zone_may_lose<A: Allocator + Copy>(
    config: &Config<A>,
    users: &Users<A>,
    fabric: Fabric,
    name: &Name,
    member: &Member,
) -> bool
    requires { AreUsers config.now users.now }
    ensures { IsTrue result ↔ ItemMayGo (zoning_at config.now fabric) (item.Zone name.now member.now) }
{
    let _member = member;
    if config.zoning(fabric).zone(name).is_some() {
        return true;
    }
    !users.is_used(&Used::Zone(fabric, *name))
}

/// Whether the item may go.
fn item_may_go<A: Allocator + Copy>(config: &Config<A>, users: &Users<A>, row: &ZoningRow) -> bool
    requires { AreUsers config.now users.now }
    ensures { IsTrue result ↔ ItemMayGo (zoning_at config.now row.now.fabric) row.now.item }
{
    match &row.item {
        ZoningItem::Alias(name, member) => alias_may_lose(config, users, row.fabric, name, member),
        ZoningItem::Zone(name, member) => zone_may_lose(config, users, row.fabric, name, member),
        ZoningItem::Set(_, _) => true,
    }
}

/// Whether the host group is there still, or nothing names it.
fn hosts_may_go<A: Allocator + Copy>(
    config: &Config<A>,
    users: &Users<A>,
    row: &HostGroupRow,
) -> bool
    requires { AreUsers config.now users.now }
    ensures { IsTrue result ↔ GroupMayGo config.now.mapping (group.Host row.now) }
{
    if config.mapping().host_group(&row.name).is_some() {
        return true;
    }
    !users.is_used(&Used::HostGroup(row.name))
}

/// Whether the group may go.
fn group_may_go<A: Allocator + Copy>(config: &Config<A>, users: &Users<A>, row: &GroupRow) -> bool
    requires { AreUsers config.now users.now }
    ensures { IsTrue result ↔ GroupMayGo config.now.mapping row.now }
{
    match row {
        GroupRow::Host(row) => hosts_may_go(config, users, row),
        GroupRow::Storage(_) => true,
    }
}

/// Whether the part may go.
fn part_may_go<A: Allocator + Copy>(mapping: &Mapping<A>, row: &PartRow) -> bool
    ensures { IsTrue result ↔ PartMayGo mapping.now row.now }
{
    match row {
        PartRow::Host(name, _) => has_some_host(mapping.host_group(name)),
        PartRow::Storage(_, _) => true,
    }
}

/// Whether the row may go: what it told is there still, or nothing names it.
fn may_go<A: Allocator + Copy>(config: &Config<A>, users: &Users<A>, row: &ConfigRow) -> bool
    requires { AreUsers config.now users.now }
    ensures { IsTrue result ↔ MayGo config.now row.now }
{
    match row {
        ConfigRow::Setting(_) => true,
        ConfigRow::Zoning(row) => item_may_go(config, users, row),
        ConfigRow::Active(_) => true,
        ConfigRow::Group(row) => group_may_go(config, users, row),
        ConfigRow::Part(row) => part_may_go(config.mapping(), row),
    }
}

/// Whether all the rows may go.
pub fn all_may_go<A: Allocator + Copy>(
    config: &Config<A>,
    users: &Users<A>,
    rows: &[ConfigRow],
) -> bool
    requires { AreUsers config.now users.now }
    ensures { IsTrue result ↔ ((r : Row) → Contains rows.now r → MayGo config.now r) }
{
    for row in rows {
        if !may_go(config, users, row) {
            return false;
        }
    }
    true
}
