//! The limits of a world.

/// How many plans a world has at most, in whatever state.
pub const MOST_PLANS: usize = 100000;

/// How many changes a world counts at most: the greatest revision.
pub const MOST_CHANGES: u64 = 1000000000;
