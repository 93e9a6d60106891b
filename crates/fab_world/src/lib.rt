//! The desk's world as one value: what is known and configured, the plans, which activations are in
//! force, and how many changes there were; and when such a world is sound.
#![tactic(auto)]

mod any_plan;
mod history;
mod kept;
pub mod laws;
mod limits;
mod present;
mod sound;
mod world;

pub use any_plan::{AnyPlan, KeptPlan};
pub use fab_plans as plans;
pub use fab_store_load as load;
pub use history::{earlier, has_sound_history};
pub use kept::is_active_at;
pub use limits::{MOST_CHANGES, MOST_PLANS};
pub use world::World;
