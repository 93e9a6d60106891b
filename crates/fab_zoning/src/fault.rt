//! Why a change of the zoning is refused.
ghost use Rattle.std.specs.Prelude.{◌≡◌};
ghost use Rattle.fab_zoning.specs.declared.fault.ZoningFault.TheVariants.{Memory};

use fab_names::Name;
use std::alloc::{AllocError, AllocFailed};

/// Why a change is refused. The zoning is then as it was.
#[derive(Clone, Copy, Debug, Drop)]
pub enum ZoningFault {
    /// Nothing has this name.
    Unknown(Name),
    /// The first is used by the second, the first user by name.
    InUse(Name, Name),
    /// The list of members is empty.
    Empty,
    /// There would be too many of something.
    Limit(ZoningLimit),
    /// There was no memory.
    Memory,
}

/// What there would be too many of.
#[derive(Clone, Copy, Debug, Drop)]
pub enum ZoningLimit {
    /// More than 2048 aliases.
    Aliases,
    /// More than 2048 zones.
    Zones,
    /// More than 64 zone sets.
    Sets,
    /// More than 255 members listed for an alias, a zone or a set.
    Members,
    /// More than 65536 active rows.
    Active,
}

impl From<AllocError> for ZoningFault {
    ghost from_gives = { λ _ e. e ≡ Memory };

    fn from(_error: AllocError) -> ZoningFault {
        ZoningFault::Memory
    }
}

impl<T: Drop> From<AllocFailed<T>> for ZoningFault {
    ghost from_gives = { λ _ e. e ≡ Memory };

    fn from(_error: AllocFailed<T>) -> ZoningFault {
        ZoningFault::Memory
    }
}
