//! What is asked of a policy, and what it answers.
ghost use Rattle.std.specs.Prelude.{◌≡◌};
ghost use Rattle.fab_policy.specs.Needs as needs;

use fab_names::{Fabric, Name};
use fab_policy_base::{Action, CallerId};

/// An approval of a plan.
#[derive(Clone, Copy)]
pub struct Approval {
    /// The name of the caller who approved.
    pub caller: Name,
    /// The revision at which it was given.
    pub revision: u64,
}

/// What was said of a plan.
#[derive(Clone, Copy)]
pub struct PlanApprovals<'a> {
    /// The name of its author, whose own approval counts for nothing.
    pub author: Name,
    /// Its approvals, in any order; a caller may have several.
    pub approvals: &'a [Approval],
}

/// A command as a policy judges it.
#[derive(Clone, Copy)]
pub struct Act<'a> {
    /// Who sends it.
    pub caller: CallerId,
    /// What it does.
    pub action: Action,
    /// The fabrics that it names.
    pub fabrics: &'a [Fabric],
    /// The tenants whose things it touches.
    pub touched: &'a [Name],
    /// When it comes, in Unix seconds.
    pub moment: u64,
    /// The author and the approvals of its plan, where it has a plan.
    pub plan: Option<PlanApprovals<'a>>,
    /// The present revision.
    pub revision: u64,
}

/// What a rule asks for, in the order in which it is judged.
#[derive(Clone, Copy, Debug)]
pub enum Need {
    /// A rule at all.
    Rule,
    /// The caller has the role.
    Role,
    /// Every touched tenant is the caller's.
    Scope,
    /// The window is open.
    Window,
    /// Enough others approved.
    Approvals,
    /// Each touched tenant has an approval of somebody else who lists it.
    Tenants,
}

impl Need {
    /// The word for the need: `rule`, `role`, `scope`, `window`, `approvals` or `tenants`.
    pub fn word(self) -> &'static str
        ensures { result.now ≡ needs.need_word self }
    {
        match self {
            Need::Rule => "rule",
            Need::Role => "role",
            Need::Scope => "scope",
            Need::Window => "window",
            Need::Approvals => "approvals",
            Need::Tenants => "tenants",
        }
    }
}

/// What a policy says of an act.
#[derive(Clone, Copy)]
pub enum Verdict {
    /// Some rule applies, and each that applies holds.
    Allowed,
    /// A rule is in the way.
    Denied {
        /// Its number among the rules, from 1; 0 where no rule applies.
        rule: usize,
        /// Its name; `no-rule` where no rule applies.
        name: Name,
        /// The first of its needs that is not met.
        need: Need,
    },
}
