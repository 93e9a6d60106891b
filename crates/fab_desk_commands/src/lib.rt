//! What each command makes of the world: imports, hosts and arrays, volumes, and plans that are
//! staged, withdrawn, approved, activated and rolled back. A command is tried first, and nothing of
//! the world changes; what it makes is taken over part by part, without memory, and whole.
#![tactic(auto)]

mod activation;
mod again;
mod found;
mod holders;
mod imports;
mod next;
mod refusal;
mod rollback;
mod rooms;
mod staged;
mod staging;
mod turning;
mod turns;
mod volumes;

pub use activation::activated;
pub use again::copied;
pub use fab_plans_rows::spare_after;
pub use holders::{holder_dropped, holder_put};
pub use imports::imported;
pub use next::{Next, Turn};
pub use rollback::rolled_back;
pub use staged::is_staged_already;
pub use staging::staged_next;
pub use turning::{approved, withdrawn};
pub use volumes::{volume_dropped, volume_put};
