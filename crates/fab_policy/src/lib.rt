//! What a policy says of a command: `decide` gives the verdict on an act. It takes no memory and
//! cannot fail.
//!
//! The policy itself stands in `fab_policy_base` and is handed on here; its text is read in `fab_policy_text`.
#![tactic(auto)]

mod act;
mod approvals;
pub mod laws;
pub mod needs;
mod verdicts;
pub mod window;

pub use act::{Act, Approval, Need, PlanApprovals, Verdict};
pub use approvals::counts;
pub use fab_policy_base as base;
pub use fab_policy_base::{
    Action, Caller, CallerId, Freeze, Key, Policy, PolicyFault, Quorum, Rule, Scope, Tenants, Text,
    WEEK_MINUTES, WeekSpan, Window, limits,
};
pub use verdicts::decide;
