//! What rows of a configuration use.
ghost use Rattle.std.specs.Prelude.{◌≡◌};
ghost use Rattle.fab_store_drafts.specs.Uses.{member_use, item_use, storage_use, part_use, use_of};

use fab_reach_base::names::{Fabric, Member, Name};
use fab_reach_base::zoning::Key;
use fab_store_rows::{ConfigRow, PartRow, StoragePart, ZoningItem};

/// What rows of a configuration use by its name.
///
/// Ordered by kind as listed, then by fabric, then by name.
#[derive(Clone, Copy, PartialEq, Eq, PartialOrd, Ord)]
pub enum Used {
    /// The alias of this name: zones use it.
    Alias(Fabric, Name),
    /// The zone of this name: zone sets use it.
    Zone(Fabric, Name),
    /// The host group of this name: storage groups use it.
    HostGroup(Name),
    /// The host of this name: host groups use it.
    Host(Name),
}

impl Key for Used {
    ghost use Rattle.fab_store_drafts.specs.UsedKeys.{used_exact};

    ghost exact = { used_exact };
}

/// What a member of a zone uses, with the zone.
fn member_use(fabric: Fabric, zone: Name, member: &Member) -> Option<(Used, Name)>
    ensures { result ≡ member_use fabric zone member.now }
{
    match member {
        Member::Alias(alias) => Some((Used::Alias(fabric, *alias), zone)),
        _ => None,
    }
}

/// What an item of a fabric's zoning uses, with what has it.
fn item_use(fabric: Fabric, item: &ZoningItem) -> Option<(Used, Name)>
    ensures { result ≡ item_use fabric item.now }
{
    match item {
        ZoningItem::Alias(_, _) => None,
        ZoningItem::Zone(zone, member) => member_use(fabric, *zone, member),
        ZoningItem::Set(set, zone) => Some((Used::Zone(fabric, *zone), *set)),
    }
}

/// What a part of a storage group uses, with the storage group.
fn storage_use(group: Name, part: &StoragePart) -> Option<(Used, Name)>
    ensures { result ≡ storage_use group part.now }
{
    match part {
        StoragePart::HostGroup(hosts) => Some((Used::HostGroup(*hosts), group)),
        _ => None,
    }
}

/// What a part of a group uses, with the group.
fn part_use(row: &PartRow) -> Option<(Used, Name)>
    ensures { result ≡ part_use row.now }
{
    match row {
        PartRow::Host(group, host) => Some((Used::Host(*host), *group)),
        PartRow::Storage(group, part) => storage_use(*group, part),
    }
}

/// What a row uses, and the name of what uses it, where it uses something.
pub fn use_of(row: &ConfigRow) -> Option<(Used, Name)>
    ensures { result ≡ use_of row.now }
{
    match row {
        ConfigRow::Zoning(row) => item_use(row.fabric, &row.item),
        ConfigRow::Part(row) => part_use(row),
        _ => None,
    }
}
