//! The desk as a machine over its world: what a caller may ask, what is answered, the definitions of
//! what each command does to the world, and their laws.
//!
//! A request leads to one world, and is refused or not, with one fault at most; a policy has one
//! verdict on a command; a dry run tells what activation does; where each action that moves paths
//! asks that what is touched is the caller's own, no request moves a path of another's; and no
//! request passes a port straight from one holder to another. Each law is the contract of a function
//! that does nothing. What reads show, and to whom, is told from the world alone, but for the paths of a
//! host, which a book tells. It knows no store and no wire.
#![tactic(auto)]

mod active;
mod answers;
mod command;
mod confinement;
mod dry_runs;
mod fault;
mod groups;
mod holders;
mod joined;
mod keeping;
mod listed;
mod open;
mod parts;
mod plans;
mod records;
mod reply;
mod users;
mod zonings;

pub use answers::{one_answer, one_denial, one_effect, one_refusal, one_report};
pub use command::{Command, Query};
pub use confinement::paths_are_confined;
pub use dry_runs::dry_run_tells_activation;
pub use fault::{DeskFault, DeskLimit};
pub use keeping::{holders_are_kept, steps_are_done};
pub use open::is_open_to;
pub use records::recorded;
pub use reply::{Joint, Reply, Shown, ShownGroup, ShownHolder, ShownPlan, ZoneMembers};
pub use users::{holder_user, leaving_target, moved_volume_user, volume_user};
