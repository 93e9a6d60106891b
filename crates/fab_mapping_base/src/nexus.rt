//! Where a host meets a volume.

use fab_inventory::names::{Name, Wwn};

/// A host, a target port and a logical unit number: where the host meets a volume (the I_T_L nexus
/// of SCSI, with the host in the place of its initiator ports).
///
/// Ordered by host, then by target, then by number.
#[derive(Clone, Copy, Debug, PartialEq, Eq, PartialOrd, Ord)]
pub struct Nexus {
    /// The host.
    pub host: Name,
    /// The target port.
    pub target: Wwn,
    /// The logical unit number, 0 to 16383.
    pub unit: u16,
}
