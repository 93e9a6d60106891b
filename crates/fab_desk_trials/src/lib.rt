//! Commands that are tried: what a command would make of the world, the rows in which it differs, and
//! the step of a book of paths that is ready for it; or the first limit or refusal that stops it.
//!
//! Nothing is changed: the world is lent, and the book stands where it stood. A dry run is tried as
//! the activation. Where there is a spare configuration, equal to the world's, steps are done on that
//! one; what is not done leads back to it.
//!
//! And what a policy says of a command: the tenants whose things it touches, those of the paths that it
//! gains and loses too, and the verdict.
#![tactic(auto)]

mod approvals;
mod effects;
mod fabrics;
mod judge;
mod limits;
mod moved;
mod moves;
mod named;
mod plan_steps;
mod spares;
mod steps;
mod things;
mod touched;

pub use effects::Effect;
pub use fab_desk_commands as commands;
pub use judge::judged;
pub use moved::moved_tenants;
pub use moves::moved_view;
pub use spares::spare_of;
pub use steps::{Prepared, try_out};
