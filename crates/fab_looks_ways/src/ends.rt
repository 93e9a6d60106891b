//! The ends of a way through a fabric.

use fab_reach_base::names::{Fabric, Wwn};

/// An initiator port and a target port, at a fabric.
///
/// Ordered by fabric, initiator, target.
#[derive(Clone, Copy, PartialEq, Eq, PartialOrd, Ord)]
pub struct Ends {
    /// The fabric.
    pub fabric: Fabric,
    /// The N_Port_Name of the initiator.
    pub initiator: Wwn,
    /// The N_Port_Name of the target.
    pub target: Wwn,
}
