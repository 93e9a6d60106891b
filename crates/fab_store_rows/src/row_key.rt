//! At which keys the rows of a configuration stand.

use fab_reach_base::names::{Fabric, Name};

/// Where rows of a configuration stand: under a name of a kind in a fabric, in a fabric's active zone
/// set, in what its default zone is (FC-GS), or under the name of a host group or of a storage group
/// (SNIA Swordfish). A step of a plan changes rows at one key.
///
/// Ordered by kind as listed, then by fabric, then by name.
#[derive(Clone, Copy, PartialEq, Eq, PartialOrd, Ord)]
pub enum RowKey {
    /// The members of the alias of this name.
    Alias(Fabric, Name),
    /// The members of the zone of this name.
    Zone(Fabric, Name),
    /// The zones of the zone set of this name.
    ZoneSet(Fabric, Name),
    /// The fabric's active zone set: its name, and its zones with their members.
    ActiveSet(Fabric),
    /// Whether the fabric's default zone permits.
    DefaultZone(Fabric),
    /// The host group of this name, and its hosts.
    HostGroup(Name),
    /// The storage group of this name, and its host groups, targets and units.
    StorageGroup(Name),
}
