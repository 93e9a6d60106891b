//! The kinds of rows of an inventory and of a configuration.
ghost use Rattle.std.specs.Prelude.{◌≡◌};
ghost use Rattle.fab_store_load.specs.Kinds as spec;

use crate::kind::Kind;
use fab_names::{Address, Fabric, Member, Name, Wwn};
use fab_reach_base::inventory::{Holder, Seat, Volume};
use fab_store_rows::{
    AddressRow, ConfigRow, GroupRow, HolderRow, PartRow, PortEntry, SettingRow, StoragePart,
    VolumeRow, ZoningItem,
};

/// What the row of a storage group has beside its name.
#[derive(Clone, Copy, PartialEq, Eq)]
pub struct Head {
    /// Whose it is.
    pub tenant: Name,
    /// The array that it is on.
    pub array: Name,
    /// Whether it is exposed.
    pub exposed: bool,
}

/// Ports without their addresses, by name.
#[derive(Clone, Copy)]
pub struct Ports;

impl Kind<PortEntry, (Wwn, Seat)> for Ports {
    ghost use Rattle.std.specs.Prelude.{refl};
    ghost use Rattle.fab_store_load.specs.Kinds.{port_said, port_row};
    ghost use Rattle.fab_store_load.specs.KindLaws.{port_only};

    ghost said = { λ k. port_said };

    ghost row_of = { λ k. port_row };

    fn entry(&self, row: &PortEntry) -> Option<(Wwn, Seat)> {
        let seat = Seat {
            node: row.node,
            at: row.at,
            holder: row.holder,
        };
        Some((row.name, seat))
    }

    ghost says = { λ k e. refl };

    ghost only = { λ k. port_only };
}

/// Addresses, by the names of their ports.
#[derive(Clone, Copy)]
pub struct Addresses;

impl Kind<AddressRow, (Wwn, Address)> for Addresses {
    ghost use Rattle.std.specs.Prelude.{refl};
    ghost use Rattle.fab_store_load.specs.Kinds.{address_said, address_row};
    ghost use Rattle.fab_store_load.specs.KindLaws.{address_only};

    ghost said = { λ k. address_said };

    ghost row_of = { λ k. address_row };

    fn entry(&self, row: &AddressRow) -> Option<(Wwn, Address)> {
        Some((row.port, row.address))
    }

    ghost says = { λ k e. refl };

    ghost only = { λ k. address_only };
}

/// Hosts and arrays, by name.
#[derive(Clone, Copy)]
pub struct Holders;

impl Kind<HolderRow, (Name, Holder)> for Holders {
    ghost use Rattle.std.specs.Prelude.{refl};
    ghost use Rattle.fab_store_load.specs.Kinds.{holder_said, holder_row};
    ghost use Rattle.fab_store_load.specs.KindLaws.{holder_only};

    ghost said = { λ k. holder_said };

    ghost row_of = { λ k. holder_row };

    fn entry(&self, row: &HolderRow) -> Option<(Name, Holder)> {
        let holder = Holder {
            kind: row.kind,
            tenant: row.tenant,
        };
        Some((row.name, holder))
    }

    ghost says = { λ k e. refl };

    ghost only = { λ k. holder_only };
}

/// Volumes, by name.
#[derive(Clone, Copy)]
pub struct Volumes;

impl Kind<VolumeRow, (Name, Volume)> for Volumes {
    ghost use Rattle.std.specs.Prelude.{refl};
    ghost use Rattle.fab_store_load.specs.Kinds.{volume_said, volume_row};
    ghost use Rattle.fab_store_load.specs.KindLaws.{volume_only};

    ghost said = { λ k. volume_said };

    ghost row_of = { λ k. volume_row };

    fn entry(&self, row: &VolumeRow) -> Option<(Name, Volume)> {
        let volume = Volume {
            array: row.array,
            tenant: row.tenant,
            bytes: row.bytes,
        };
        Some((row.name, volume))
    }

    ghost says = { λ k e. refl };

    ghost only = { λ k. volume_only };
}

/// The setting that a row is.
fn setting_in(row: &ConfigRow) -> Option<SettingRow>
    ensures { result ≡ spec.setting_in row.now }
{
    match row {
        ConfigRow::Setting(setting) => Some(*setting),
        _ => None,
    }
}

/// The item that a row is, where it is of the fabric.
fn item_in(fabric: Fabric, row: &ConfigRow) -> Option<ZoningItem>
    ensures { result ≡ spec.item_in fabric row.now }
{
    match row {
        ConfigRow::Zoning(row) => match (row.fabric, fabric) {
            (Fabric::A, Fabric::A) => Some(row.item),
            (Fabric::B, Fabric::B) => Some(row.item),
            _ => None,
        },
        _ => None,
    }
}

/// The group that a row is.
fn group_in(row: &ConfigRow) -> Option<GroupRow>
    ensures { result ≡ spec.group_in row.now }
{
    match row {
        ConfigRow::Group(group) => Some(*group),
        _ => None,
    }
}

/// The part of a group that a row is.
fn part_in(row: &ConfigRow) -> Option<PartRow>
    ensures { result ≡ spec.part_in row.now }
{
    match row {
        ConfigRow::Part(part) => Some(*part),
        _ => None,
    }
}

/// The names of active zone sets, by fabric.
#[derive(Clone, Copy)]
pub struct ActiveSets;

impl Kind<ConfigRow, (Fabric, Option<Name>)> for ActiveSets {
    ghost use Rattle.std.specs.Prelude.{refl};
    ghost use Rattle.fab_store_load.specs.Kinds.{active_set_said, active_set_row};
    ghost use Rattle.fab_store_load.specs.KindLaws.{active_set_only};

    ghost said = { λ k. active_set_said };

    ghost row_of = { λ k. active_set_row };

    fn entry(&self, row: &ConfigRow) -> Option<(Fabric, Option<Name>)> {
        match setting_in(row) {
            Some(SettingRow::ActiveSet(fabric, name)) => Some((fabric, name)),
            _ => None,
        }
    }

    ghost says = { λ k e. refl };

    ghost only = { λ k. active_set_only };
}

/// Whether default zones permit, by fabric.
#[derive(Clone, Copy)]
pub struct DefaultZones;

impl Kind<ConfigRow, (Fabric, bool)> for DefaultZones {
    ghost use Rattle.std.specs.Prelude.{refl};
    ghost use Rattle.fab_store_load.specs.Kinds.{default_zone_said, default_zone_row};
    ghost use Rattle.fab_store_load.specs.KindLaws.{default_zone_only};

    ghost said = { λ k. default_zone_said };

    ghost row_of = { λ k. default_zone_row };

    fn entry(&self, row: &ConfigRow) -> Option<(Fabric, bool)> {
        match setting_in(row) {
            Some(SettingRow::DefaultZone(fabric, permit)) => Some((fabric, permit)),
            _ => None,
        }
    }

    ghost says = { λ k e. refl };

    ghost only = { λ k. default_zone_only };
}

/// The members of the aliases of a fabric.
#[derive(Clone, Copy)]
pub struct Aliases(pub Fabric);

impl Kind<ConfigRow, (Name, Member)> for Aliases {
    ghost use Rattle.fab_store_load.specs.Kinds.{alias_said, alias_row};
    ghost use Rattle.fab_store_load.specs.KindLaws.{alias_says, alias_only};

    ghost said = { λ k. alias_said k.0 };

    ghost row_of = { λ k. alias_row k.0 };

    fn entry(&self, row: &ConfigRow) -> Option<(Name, Member)> {
        let Some(item) = item_in(self.0, row) else {
            return None;
        };
        match item {
            ZoningItem::Alias(name, member) => Some((name, member)),
            _ => None,
        }
    }

    ghost says = { λ k. alias_says k.0 };

    ghost only = { λ k. alias_only k.0 };
}

/// The members of the zones of a fabric.
#[derive(Clone, Copy)]
pub struct Zones(pub Fabric);

impl Kind<ConfigRow, (Name, Member)> for Zones {
    ghost use Rattle.fab_store_load.specs.Kinds.{zone_said, zone_row};
    ghost use Rattle.fab_store_load.specs.KindLaws.{zone_says, zone_only};

    ghost said = { λ k. zone_said k.0 };

    ghost row_of = { λ k. zone_row k.0 };

    fn entry(&self, row: &ConfigRow) -> Option<(Name, Member)> {
        let Some(item) = item_in(self.0, row) else {
            return None;
        };
        match item {
            ZoningItem::Zone(name, member) => Some((name, member)),
            _ => None,
        }
    }

    ghost says = { λ k. zone_says k.0 };

    ghost only = { λ k. zone_only k.0 };
}

/// The zones of the zone sets of a fabric.
#[derive(Clone, Copy)]
pub struct ZoneSets(pub Fabric);

impl Kind<ConfigRow, (Name, Name)> for ZoneSets {
    ghost use Rattle.fab_store_load.specs.Kinds.{set_said, set_row};
    ghost use Rattle.fab_store_load.specs.KindLaws.{set_says, set_only};

    ghost said = { λ k. set_said k.0 };

    ghost row_of = { λ k. set_row k.0 };

    fn entry(&self, row: &ConfigRow) -> Option<(Name, Name)> {
        let Some(item) = item_in(self.0, row) else {
            return None;
        };
        match item {
            ZoningItem::Set(name, zone) => Some((name, zone)),
            _ => None,
        }
    }

    ghost says = { λ k. set_says k.0 };

    ghost only = { λ k. set_only k.0 };
}

/// The zones of the active members of a fabric.
#[derive(Clone, Copy)]
pub struct ActiveRows(pub Fabric);

impl Kind<ConfigRow, (Member, Name)> for ActiveRows {
    ghost use Rattle.fab_store_load.specs.Kinds.{active_said, active_row};
    ghost use Rattle.fab_store_load.specs.KindLaws.{active_says, active_only};

    ghost said = { λ k. active_said k.0 };

    ghost row_of = { λ k. active_row k.0 };

    fn entry(&self, row: &ConfigRow) -> Option<(Member, Name)> {
        let ConfigRow::Active(row) = row else {
            return None;
        };
        match (row.fabric, self.0) {
            (Fabric::A, Fabric::A) => Some((row.member, row.zone)),
            (Fabric::B, Fabric::B) => Some((row.member, row.zone)),
            _ => None,
        }
    }

    ghost says = { λ k. active_says k.0 };

    ghost only = { λ k. active_only k.0 };
}

/// Whose the host groups are.
#[derive(Clone, Copy)]
pub struct HostGroups;

impl Kind<ConfigRow, (Name, Name)> for HostGroups {
    ghost use Rattle.std.specs.Prelude.{refl};
    ghost use Rattle.fab_store_load.specs.Kinds.{host_group_said, host_group_row};
    ghost use Rattle.fab_store_load.specs.KindLaws.{host_group_only};

    ghost said = { λ k. host_group_said };

    ghost row_of = { λ k. host_group_row };

    fn entry(&self, row: &ConfigRow) -> Option<(Name, Name)> {
        match group_in(row) {
            Some(GroupRow::Host(group)) => Some((group.name, group.tenant)),
            _ => None,
        }
    }

    ghost says = { λ k e. refl };

    ghost only = { λ k. host_group_only };
}

/// What the rows of storage groups have beside their names.
#[derive(Clone, Copy)]
pub struct StorageGroups;

impl Kind<ConfigRow, (Name, Head)> for StorageGroups {
    ghost use Rattle.std.specs.Prelude.{refl};
    ghost use Rattle.fab_store_load.specs.Kinds.{storage_group_said, storage_group_row};
    ghost use Rattle.fab_store_load.specs.KindLaws.{storage_group_only};

    ghost said = { λ k. storage_group_said };

    ghost row_of = { λ k. storage_group_row };

    fn entry(&self, row: &ConfigRow) -> Option<(Name, Head)> {
        let Some(GroupRow::Storage(group)) = group_in(row) else {
            return None;
        };
        let head = Head {
            tenant: group.tenant,
            array: group.array,
            exposed: group.exposed,
        };
        Some((group.name, head))
    }

    ghost says = { λ k e. refl };

    ghost only = { λ k. storage_group_only };
}

/// The hosts of host groups.
#[derive(Clone, Copy)]
pub struct Hosts;

impl Kind<ConfigRow, (Name, Name)> for Hosts {
    ghost use Rattle.std.specs.Prelude.{refl};
    ghost use Rattle.fab_store_load.specs.Kinds.{host_said, host_row};
    ghost use Rattle.fab_store_load.specs.KindLaws.{host_only};

    ghost said = { λ k. host_said };

    ghost row_of = { λ k. host_row };

    fn entry(&self, row: &ConfigRow) -> Option<(Name, Name)> {
        let Some(part) = part_in(row) else {
            return None;
        };
        match part {
            PartRow::Host(name, host) => Some((name, host)),
            _ => None,
        }
    }

    ghost says = { λ k e. refl };

    ghost only = { λ k. host_only };
}

/// The host groups that storage groups serve.
#[derive(Clone, Copy)]
pub struct ServedGroups;

impl Kind<ConfigRow, (Name, Name)> for ServedGroups {
    ghost use Rattle.std.specs.Prelude.{refl};
    ghost use Rattle.fab_store_load.specs.Kinds.{served_said, served_row};
    ghost use Rattle.fab_store_load.specs.KindLaws.{served_only};

    ghost said = { λ k. served_said };

    ghost row_of = { λ k. served_row };

    fn entry(&self, row: &ConfigRow) -> Option<(Name, Name)> {
        let Some(part) = part_in(row) else {
            return None;
        };
        let PartRow::Storage(name, part) = part else {
            return None;
        };
        match part {
            StoragePart::HostGroup(hosts) => Some((name, hosts)),
            _ => None,
        }
    }

    ghost says = { λ k e. refl };

    ghost only = { λ k. served_only };
}

/// The targets of storage groups.
#[derive(Clone, Copy)]
pub struct Targets;

impl Kind<ConfigRow, (Name, Wwn)> for Targets {
    ghost use Rattle.std.specs.Prelude.{refl};
    ghost use Rattle.fab_store_load.specs.Kinds.{target_said, target_row};
    ghost use Rattle.fab_store_load.specs.KindLaws.{target_only};

    ghost said = { λ k. target_said };

    ghost row_of = { λ k. target_row };

    fn entry(&self, row: &ConfigRow) -> Option<(Name, Wwn)> {
        let Some(part) = part_in(row) else {
            return None;
        };
        let PartRow::Storage(name, part) = part else {
            return None;
        };
        match part {
            StoragePart::Target(target) => Some((name, target)),
            _ => None,
        }
    }

    ghost says = { λ k e. refl };

    ghost only = { λ k. target_only };
}

/// The volumes of storage groups, by logical unit number.
#[derive(Clone, Copy)]
pub struct Units;

impl Kind<ConfigRow, ((Name, u16), Name)> for Units {
    ghost use Rattle.std.specs.Prelude.{refl};
    ghost use Rattle.fab_store_load.specs.Kinds.{unit_said, unit_row};
    ghost use Rattle.fab_store_load.specs.KindLaws.{unit_only};

    ghost said = { λ k. unit_said };

    ghost row_of = { λ k. unit_row };

    fn entry(&self, row: &ConfigRow) -> Option<((Name, u16), Name)> {
        let Some(part) = part_in(row) else {
            return None;
        };
        let PartRow::Storage(name, part) = part else {
            return None;
        };
        match part {
            StoragePart::Unit(unit, volume) => Some(((name, unit), volume)),
            _ => None,
        }
    }

    ghost says = { λ k e. refl };

    ghost only = { λ k. unit_only };
}
