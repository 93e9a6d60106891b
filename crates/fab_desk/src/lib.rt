//! The desk over a store: each request is answered by the machine, and what it changes is in the store
//! before it is answered.
//!
//! While no change was refused by the store, the tables have just the rows of the desk's world. A
//! change that the store refuses halts the desk: it answers no request until it is opened again.
#![tactic(auto)]

mod answering;
mod carrying;
mod desk;
mod ledger;
mod moves;
mod opening;
mod reading;
mod run;

pub use desk::Desk;
pub use fab_desk_machine::base;
pub use fab_desk_machine::base::{
    Command, DeskFault, DeskLimit, Joint, Query, Reply, Shown, ShownGroup, ShownHolder, ShownPlan,
    ZoneMembers,
};
pub use fab_store_base as store_base;
pub use run::handle_all;
