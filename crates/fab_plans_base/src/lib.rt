//! The steps of plans, as values: what each does, the first word of its lines, and the limits of plan
//! texts. Its definitions are the grammar that says which texts spell which steps.
#![tactic(auto)]

mod keyword;
pub mod laws;
mod limits;
mod mapping_action;
mod mapping_keyword;
mod step;
pub mod words;
mod zoning_action;
mod zoning_keyword;

pub use fab_zoning as zoning;
pub use keyword::Keyword;
pub use limits::{LAST_UNIT, MOST_BYTES, MOST_ITEMS, MOST_STEPS};
pub use mapping_action::MappingAction;
pub use mapping_keyword::MappingKeyword;
pub use step::{Action, Step};
pub use zoning_action::ZoningAction;
pub use zoning_keyword::ZoningKeyword;
