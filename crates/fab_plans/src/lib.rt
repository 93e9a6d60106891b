//! Plans from their trial on: what the steps of a plan make of a configuration, and what becomes of
//! a plan that is staged.
#![tactic(auto)]

mod fault;
pub mod laws;
mod mapping_steps;
mod outcome;
mod plan;
mod states;
mod zoning_steps;

pub use fab_plans_text as texts;
pub use fab_plans_text::{
    Action, Keyword, LAST_UNIT, MOST_BYTES, MOST_ITEMS, MOST_STEPS, MappingAction, MappingKeyword,
    PlanFault, PlanFaultKind, PlanText, Step, ZoningAction, ZoningKeyword, base, is_within_limits,
    print_plan, read_plan,
};
pub use fault::{Item, Refusal, StepLimit, TrialFault};
pub use outcome::{take_steps, trial};
pub use plan::{ApprovalFault, Plan};
pub use states::{Active, RolledBack, Staged, Withdrawn};
pub use zoning_steps::zoned;
