//! How much a policy may hold. Contracts name the same numbers by `specs/Limits.antt`.

/// The callers of a policy.
pub const MOST_CALLERS: usize = 256;
/// The windows of a policy.
pub const MOST_WINDOWS: usize = 64;
/// The rules of a policy.
pub const MOST_RULES: usize = 64;
/// The roles of a caller.
pub const MOST_ROLES: usize = 16;
/// The tenants in a caller's list.
pub const MOST_TENANTS: usize = 64;
/// The parts of the week of a window.
pub const MOST_WEEKLY: usize = 64;
/// The freezes of a window.
pub const MOST_FREEZES: usize = 256;
/// The approvals that a rule may ask for.
pub const MOST_APPROVALS: u64 = 16;
