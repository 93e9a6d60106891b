//! What a difference of two worlds says, by key: the ports, storage groups and default zones that it
//! moves, and what there is of them after the step, told by the world before it and the difference
//! alone.
#![tactic(auto)]

mod after;
mod changes;
mod groups;
mod heads;
mod lists_after;
mod moved;
mod saying;
mod told;

pub use after::{holder_after, holder_before, port_after};
pub use groups::add_names;
pub use heads::{has_same_units, is_exposed_after, is_exposed_before};
pub use lists_after::{add_held_after, hosts_after, hosts_before, targets_after, targets_before};
pub use moved::{Moved, told_moved};
pub use told::Told;
