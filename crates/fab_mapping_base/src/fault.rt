//! Why a change of the mapping is refused.
ghost use Rattle.std.specs.Prelude.{◌≡◌};
ghost use Rattle.fab_mapping_base.specs.declared.fault.MappingFault.TheVariants.{Memory};

use fab_inventory::names::{Name, Wwn};
use std::alloc::{AllocError, AllocFailed};

/// Why a change is refused. The mapping is then as it was.
#[derive(Clone, Copy, Debug, Drop)]
pub enum MappingFault {
    /// There is no such host, array, volume, host group or storage group, or the storage group
    /// does not have the host group.
    Unknown(Name),
    /// The port is not known, or it is no target of the storage group.
    UnknownPort(Wwn),
    /// There is a storage group of this name.
    Exists(Name),
    /// This host group is in this storage group.
    InUse(Name, Name),
    /// The port or the volume is not on the array of the storage group.
    WrongArray,
    /// Another volume is mapped at this logical unit number.
    UnitTaken(u16),
    /// No volume is mapped at this logical unit number.
    NotMapped(u16),
    /// There would be too many of something, or a number is out of its range.
    Limit(MappingLimit),
    /// There was no memory.
    Memory,
}

/// What there would be too many of.
#[derive(Clone, Copy, Debug, Drop)]
pub enum MappingLimit {
    /// More than 2048 host groups.
    HostGroups,
    /// More than 255 hosts listed for a host group, equal ones counted.
    Hosts,
    /// More than 2048 storage groups.
    Groups,
    /// More than 64 host groups, 32 targets or 256 units of a storage group.
    Parts,
    /// A logical unit number above 16383.
    UnitNumber,
}

impl From<AllocError> for MappingFault {
    ghost from_gives = { λ _ e. e ≡ Memory };

    fn from(_error: AllocError) -> MappingFault {
        MappingFault::Memory
    }
}

impl<T: Drop> From<AllocFailed<T>> for MappingFault {
    ghost from_gives = { λ _ e. e ≡ Memory };

    fn from(_error: AllocFailed<T>) -> MappingFault {
        MappingFault::Memory
    }
}
