//! How much of everything a mapping may hold.
ghost use Rattle.std.specs.Prelude.{◌≤◌, ◌↔◌, IsTrue};
ghost use Rattle.fab_mapping_base.specs.Limits.{last_unit};

/// How many hosts may be listed for a host group.
pub const MOST_HOSTS: usize = 255;

/// How many host groups a mapping may have.
pub const MOST_HOST_GROUPS: usize = 2048;

/// How many storage groups a mapping may have.
pub const MOST_STORAGE_GROUPS: usize = 2048;

/// How many host groups a storage group may have.
pub const MOST_GROUPS_SERVED: usize = 64;

/// How many target ports a storage group may have.
pub const MOST_TARGETS: usize = 32;

/// How many logical unit numbers of a storage group may have a volume.
pub const MOST_UNITS: usize = 256;

/// The greatest logical unit number: the last of 14 bits (the flat space addresses of SCSI
/// Architecture Model 5).
pub const LAST_UNIT: u16 = 16383;

/// Whether it is a logical unit number, 0 to 16383.
pub fn is_unit(number: u16) -> bool
    ensures { IsTrue result ↔ (number ≤ last_unit) }
{
    number <= LAST_UNIT
}
