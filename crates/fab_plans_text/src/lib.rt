//! Plans: their steps, and the texts that spell them, read and printed.
//!
//! A plan text has 1 to 200 lines, each of which spells a step. `read_plan` accepts exactly these
//! texts, and `print_plan` gives a text that is read again as the same steps. A plan that is kept takes the
//! memory of its printed form: its steps are read where they are needed.
#![tactic(auto)]

mod fault;
mod kept;
pub mod laws;
mod line;
mod mapping_line;
mod measure;
mod plan;
mod print;
mod spelled;
mod word;
mod zoning_line;

pub use fab_plans_base as base;
pub use fab_plans_base::{
    Action, Keyword, LAST_UNIT, MOST_BYTES, MOST_ITEMS, MOST_STEPS, MappingAction, MappingKeyword,
    Step, ZoningAction, ZoningKeyword, zoning,
};
pub use fault::{PlanFault, PlanFaultKind};
pub use kept::PlanText;
pub use measure::is_within_limits;
pub use plan::read_plan;
pub use print::print_plan;
