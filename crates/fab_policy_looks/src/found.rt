//! What is found of a rule.
use fab_names::Name;

/// The need of a role.
#[derive(Clone, Copy)]
pub struct RoleNeed {
    /// The role.
    pub role: Name,
    /// Whether the caller has it.
    pub is_met: bool,
}

/// The need of a window.
#[derive(Clone, Copy)]
pub struct WindowNeed {
    /// The name of the window.
    pub window: Name,
    /// Whether it is open.
    pub is_met: bool,
    /// The first moment from the act's on at which it is open, in Unix seconds.
    pub opens: Option<u64>,
}

/// The need of approvals.
#[derive(Clone, Copy)]
pub struct QuorumNeed {
    /// From how many callers they are asked for.
    pub asked: usize,
    /// How many callers count for it.
    pub counted: usize,
    /// Whether so many do.
    pub is_met: bool,
    /// Whether each touched tenant is to be signed for too.
    pub each_tenant: bool,
    /// Whether each is, where that is asked for.
    pub is_each_signed: bool,
}

/// What is found of a rule that applies: which needs it has, and whether each of them is met.
#[derive(Clone, Copy)]
pub struct RuleFinding {
    /// Its number among the rules, from 1.
    pub number: usize,
    /// Its name.
    pub name: Name,
    /// The need of a role, where it has one.
    pub role: Option<RoleNeed>,
    /// Where each touched tenant is to be the caller's, whether it is.
    pub scope: Option<bool>,
    /// The need of a window, where it has one.
    pub window: Option<WindowNeed>,
    /// The need of approvals, where it has one.
    pub approvals: Option<QuorumNeed>,
}
