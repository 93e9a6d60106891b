//! Rows of a configuration, one type a table.

use fab_reach_base::names::{Fabric, Member, Name, Wwn};
use fab_reach_base::zoning::Key;

/// A setting of a fabric's zoning: what the zone server has beside its zones (FC-GS, active zone
/// set and default zone).
///
/// Ordered by setting, then by fabric.
#[derive(Clone, Copy, PartialEq, Eq, PartialOrd, Ord)]
pub enum SettingRow {
    /// The name of the fabric's active zone set, or none.
    ActiveSet(Fabric, Option<Name>),
    /// Whether the fabric's default zone permits its members to communicate.
    DefaultZone(Fabric, bool),
}

/// An item of an alias, a zone or a zone set.
///
/// Ordered by kind as listed, then by name, then by item.
#[derive(Clone, Copy, PartialEq, Eq, PartialOrd, Ord)]
pub enum ZoningItem {
    /// The alias of this name has this member.
    Alias(Name, Member),
    /// The zone of this name has this member.
    Zone(Name, Member),
    /// The zone set of this name has the zone of this name.
    Set(Name, Name),
}

/// An item of an alias, a zone or a zone set of a fabric.
///
/// Ordered by fabric, then by item.
#[derive(Clone, Copy, PartialEq, Eq, PartialOrd, Ord)]
pub struct ZoningRow {
    /// The fabric whose zoning has it.
    pub fabric: Fabric,
    /// The item.
    pub item: ZoningItem,
}

/// A member of a zone of a fabric's active zone set.
///
/// Ordered by fabric, zone, member.
#[derive(Clone, Copy, PartialEq, Eq, PartialOrd, Ord)]
pub struct ActiveRow {
    /// The fabric.
    pub fabric: Fabric,
    /// The name of the zone.
    pub zone: Name,
    /// The member.
    pub member: Member,
}

/// A host group: its name, and whose it is.
///
/// Ordered by name, tenant.
#[derive(Clone, Copy, PartialEq, Eq, PartialOrd, Ord)]
pub struct HostGroupRow {
    /// Its name.
    pub name: Name,
    /// Whose it is.
    pub tenant: Name,
}

/// A storage group (SNIA Swordfish): its name, whose it is, the array that it is on, and whether it
/// is exposed.
///
/// Ordered by name, tenant, array, exposed.
#[derive(Clone, Copy, PartialEq, Eq, PartialOrd, Ord)]
pub struct StorageGroupRow {
    /// Its name.
    pub name: Name,
    /// Whose it is.
    pub tenant: Name,
    /// The array that it is on.
    pub array: Name,
    /// Whether it is exposed: a hidden one gives no path.
    pub exposed: bool,
}

/// A host group or a storage group.
///
/// Ordered by kind as listed, then by group.
#[derive(Clone, Copy, PartialEq, Eq, PartialOrd, Ord)]
pub enum GroupRow {
    /// A host group.
    Host(HostGroupRow),
    /// A storage group.
    Storage(StorageGroupRow),
}

/// A part of a storage group.
///
/// Ordered by kind as listed, then by part.
#[derive(Clone, Copy, PartialEq, Eq, PartialOrd, Ord)]
pub enum StoragePart {
    /// It serves the hosts of the host group of this name.
    HostGroup(Name),
    /// The port of this N_Port_Name is a target of it.
    Target(Wwn),
    /// At this logical unit number, 0 to 16383, it maps the volume of this name.
    Unit(u16, Name),
}

/// A part of a host group or of a storage group.
///
/// Ordered by kind as listed, then by name, then by part.
#[derive(Clone, Copy, PartialEq, Eq, PartialOrd, Ord)]
pub enum PartRow {
    /// The host group of this name has the host of this name.
    Host(Name, Name),
    /// The storage group of this name has this part.
    Storage(Name, StoragePart),
}

/// A row of a configuration: a variant a table.
///
/// Ordered by table as listed, then by row.
#[derive(Clone, Copy, PartialEq, Eq, PartialOrd, Ord)]
pub enum ConfigRow {
    /// A setting of a fabric's zoning.
    Setting(SettingRow),
    /// An item of an alias, a zone or a zone set.
    Zoning(ZoningRow),
    /// A member of a zone of an active zone set.
    Active(ActiveRow),
    /// A host group or a storage group.
    Group(GroupRow),
    /// A part of a host group or of a storage group.
    Part(PartRow),
}

impl Key for ConfigRow {
    ghost use Rattle.fab_store_rows.specs.OrderOfRows.{row_exact};

    ghost exact = { row_exact };
}
