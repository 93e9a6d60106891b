//! Why a change of the inventory is refused.
ghost use Rattle.std.specs.Prelude.{◌≡◌};
ghost use Rattle.fab_inventory.specs.declared.fault.InventoryFault.TheVariants.{Memory};

use fab_names::{Name, Wwn};
use std::alloc::{AllocError, AllocFailed};

/// Why a change is refused. The inventory is then as it was.
#[derive(Clone, Copy, Debug, Drop)]
pub enum InventoryFault {
    /// Two records of this port name differ.
    PortClash(Wwn),
    /// This port is not known.
    UnknownPort(Wwn),
    /// This port is held by this other holder.
    PortHeld(Wwn, Name),
    /// There is no such holder, array or volume.
    Unknown(Name),
    /// The holder of this name is of the other kind.
    WrongKind(Name),
    /// This array has this volume.
    InUse(Name, Name),
    /// There would be too many of something, or a number is out of its range.
    Limit(InventoryLimit),
    /// There was no memory.
    Memory,
}

/// What there would be too many of.
#[derive(Clone, Copy, Debug, Drop)]
pub enum InventoryLimit {
    /// More than 4096 known ports.
    Ports,
    /// More than 2048 holders.
    Holders,
    /// More than 64 ports listed for a holder, equal ones counted.
    PortsOfHolder,
    /// More than 4096 volumes.
    Volumes,
    /// A volume of no byte, or of more than 9223372036854775807.
    Bytes,
}

/// Why there is no inventory with given ports, holders and volumes.
#[derive(Clone, Copy, Debug, Drop)]
pub enum RestoreFault {
    /// There are too many ports, a port names a holder that is not there, or a holder holds too
    /// many ports.
    Ports,
    /// An address is of a port that is not there, or that is logged in nowhere.
    Addresses,
    /// There are too many holders.
    Holders,
    /// There are too many volumes, a volume is on no array, or its capacity is out of range.
    Volumes,
    /// There was no memory.
    Memory,
}

impl From<AllocError> for InventoryFault {
    ghost from_gives = { λ _ e. e ≡ Memory };

    fn from(_error: AllocError) -> InventoryFault {
        InventoryFault::Memory
    }
}

impl<T: Drop> From<AllocFailed<T>> for InventoryFault {
    ghost from_gives = { λ _ e. e ≡ Memory };

    fn from(_error: AllocFailed<T>) -> InventoryFault {
        InventoryFault::Memory
    }
}
