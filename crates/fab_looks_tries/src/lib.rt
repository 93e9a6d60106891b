//! What a change would do, were it made: an import of a port list, and the activation of a plan. Which
//! ports, rows and paths differ, and which hosts lose paths and have them over one fabric alone, or
//! none, afterwards.
//!
//! The machine says it, as it says it of the command itself. Nothing is changed.
#![tactic(auto)]

mod hosts;
mod imports;
mod left;
mod order;
mod paths;
mod plans;
mod ports;
mod rows;

pub use fab_desk_machine as machine;
pub use imports::{TriedImport, try_import};
pub use paths::{LosingHosts, PathsMoved};
pub use plans::{TriedPlan, try_plan};
pub use ports::PortsMoved;
