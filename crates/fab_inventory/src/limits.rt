//! The limits of an inventory.

/// How many ports may be known.
pub const MOST_PORTS: usize = 4096;

/// How many holders there may be.
pub const MOST_HOLDERS: usize = 2048;

/// How many ports may be listed for a holder, and how many it holds at most.
pub const MOST_PORTS_OF_HOLDER: usize = 64;

/// How many volumes there may be.
pub const MOST_VOLUMES: usize = 4096;

/// How many bytes a volume has at most.
pub const MOST_BYTES: u64 = 9223372036854775807;
