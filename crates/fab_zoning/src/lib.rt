//! The zoning of one fabric: its aliases, zones and zone sets, the active set, and which ports it
//! lets communicate (FC-GS, Fabric Zone Server).
#![tactic(auto)]

mod fault;
mod flag;
mod items;
mod key;
pub mod laws;
mod named;
mod resolve;
mod sound;
mod why;
mod zoning;

pub use fab_zoning_rows as rows;
pub use fault::{ZoningFault, ZoningLimit};
pub use flag::DefaultFlag;
pub use items::{put_in_tree, take_from};
pub use key::Key;
pub use why::Why;
pub use zoning::{
    MOST_ALIASES, MOST_MEMBERS, MOST_SETS, MOST_ZONES, Zoning, ZoningParts, is_logged_in_at,
};
