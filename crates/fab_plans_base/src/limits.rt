//! The limits of plan texts, which are this project's own.

/// How many bytes a plan text has at most, and its printed form.
pub const MOST_BYTES: usize = 65536;

/// How many steps a plan has at most.
pub const MOST_STEPS: usize = 200;

/// How many items a list of a line has at most, equal ones counted.
pub const MOST_ITEMS: usize = 255;

/// The greatest logical unit number.
pub const LAST_UNIT: u16 = 16383;
