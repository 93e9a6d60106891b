//! How the rows of tables are made that tell of sets under keys.
ghost use Rattle.std.specs.Prelude.{◌≡◌, IsTrue};
ghost use Rattle.std.specs.Option.{option_copied};
ghost use Rattle.fab_store_rows.specs.Gathering.{HasAll, alias_row, zone_row, set_row, active_row, host_row, host_group_row, target_row};

use crate::{ActiveRow, ConfigRow, PartRow, StoragePart, ZoningItem, ZoningRow};
use fab_reach_base::Config;
use fab_reach_base::names::{Fabric, Member, Name, Wwn};
use std::alloc::Allocator;
use std::collections::BTreeSet;

/// A table that tells, of sets under keys, of each key and each item of its set in a row.
pub trait Maker<Q, K: Ord> {
    ghost use Rattle.fab_store_rows.specs.declared.config_row.ConfigRow.{ConfigRow};
    ghost use Rattle.fab_store_rows.specs.Gathering.{RowOfSome};
    ghost use Rattle.fab_store_rows.specs.Standing.{Stands};

    ghost row_of: { Self → Q → K → ConfigRow };

    /// The row of a key and an item.
    fn row(&self, key: &Q, item: &K) -> ConfigRow
        ensures { result ≡ row_of self.now key.now item.now };

    /// Whether the rows of the key and all these items stand in the configuration, as one look-up of
    /// the key tells. No tells nothing.
    fn stand<A: Allocator + Copy>(
        &self,
        config: &Config<A>,
        key: &Q,
        items: &BTreeSet<K, A>,
    ) -> bool
        ensures { IsTrue result → (r : ConfigRow) → RowOfSome (row_of self.now key.now) items.now.keys r → Stands config.now r }
    {
        false
    }
}

/// Whether the other set, if there is one, has all these items.
fn has_all<K: Ord, A: Allocator + Copy>(
    other: Option<&BTreeSet<K, A>>,
    items: &BTreeSet<K, A>,
) -> bool
    ensures { IsTrue result → HasAll K.cmp (option_copied other.entry) items.now }
{
    match other {
        Some(other) => items.is_subset(other),
        None => false,
    }
}

/// The members of a fabric's aliases.
#[derive(Drop)]
pub struct Aliases(pub Fabric);

impl Maker<Name, Member> for Aliases {
    ghost row_of = { λ s name member. alias_row s.0 (name, member) };

    fn row(&self, key: &Name, item: &Member) -> ConfigRow {
        ConfigRow::Zoning(ZoningRow {
            fabric: self.0,
            item: ZoningItem::Alias(*key, *item),
        })
    }

    fn stand<A: Allocator + Copy>(
        &self,
        config: &Config<A>,
        key: &Name,
        items: &BTreeSet<Member, A>,
    ) -> bool {
        has_all(config.zoning(self.0).alias(key), items)
    }
}

/// The members of a fabric's zones.
#[derive(Drop)]
pub struct Zones(pub Fabric);

impl Maker<Name, Member> for Zones {
    ghost row_of = { λ s name member. zone_row s.0 (name, member) };

    fn row(&self, key: &Name, item: &Member) -> ConfigRow {
        ConfigRow::Zoning(ZoningRow {
            fabric: self.0,
            item: ZoningItem::Zone(*key, *item),
        })
    }

    fn stand<A: Allocator + Copy>(
        &self,
        config: &Config<A>,
        key: &Name,
        items: &BTreeSet<Member, A>,
    ) -> bool {
        has_all(config.zoning(self.0).zone(key), items)
    }
}

/// The zones of a fabric's zone sets.
#[derive(Drop)]
pub struct ZoneSets(pub Fabric);

impl Maker<Name, Name> for ZoneSets {
    ghost row_of = { λ s name zone. set_row s.0 (name, zone) };

    fn row(&self, key: &Name, item: &Name) -> ConfigRow {
        ConfigRow::Zoning(ZoningRow {
            fabric: self.0,
            item: ZoningItem::Set(*key, *item),
        })
    }

    fn stand<A: Allocator + Copy>(
        &self,
        config: &Config<A>,
        key: &Name,
        items: &BTreeSet<Name, A>,
    ) -> bool {
        has_all(config.zoning(self.0).zone_set(key), items)
    }
}

/// The zones of each member in a fabric's active zone set.
#[derive(Drop)]
pub struct ActiveZones(pub Fabric);

impl Maker<Member, Name> for ActiveZones {
    ghost row_of = { λ s member zone. active_row s.0 (zone, member) };

    fn row(&self, key: &Member, item: &Name) -> ConfigRow {
        ConfigRow::Active(ActiveRow {
            fabric: self.0,
            zone: *item,
            member: *key,
        })
    }

    fn stand<A: Allocator + Copy>(
        &self,
        config: &Config<A>,
        key: &Member,
        items: &BTreeSet<Name, A>,
    ) -> bool {
        has_all(config.zoning(self.0).active_zones_with(key), items)
    }
}

/// The hosts of host groups.
#[derive(Drop)]
pub struct Hosts;

impl Maker<Name, Name> for Hosts {
    ghost row_of = { λ s name host. host_row (name, host) };

    fn row(&self, key: &Name, item: &Name) -> ConfigRow {
        ConfigRow::Part(PartRow::Host(*key, *item))
    }
}

/// The host groups of storage groups.
#[derive(Drop)]
pub struct HostGroups;

impl Maker<Name, Name> for HostGroups {
    ghost row_of = { λ s name hosts. host_group_row (name, hosts) };

    fn row(&self, key: &Name, item: &Name) -> ConfigRow {
        ConfigRow::Part(PartRow::Storage(*key, StoragePart::HostGroup(*item)))
    }
}

/// The targets of storage groups.
#[derive(Drop)]
pub struct Targets;

impl Maker<Name, Wwn> for Targets {
    ghost row_of = { λ s name target. target_row (name, target) };

    fn row(&self, key: &Name, item: &Wwn) -> ConfigRow {
        ConfigRow::Part(PartRow::Storage(*key, StoragePart::Target(*item)))
    }
}
