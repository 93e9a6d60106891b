//! Limits of numbers in the tables.

/// The greatest whole number that a database keeps.
pub const MOST_NUMBER: u64 = 9223372036854775807;
