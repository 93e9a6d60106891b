//! Pairs of ports that are offered: by what storage groups offer, of a port that moves, and of those that a
//! default zone joins. What a step changes in an index: the new sets of those keys whose sets differ, told
//! by the world before it, the difference and the paths that it gains and loses. And the plain book of
//! paths, which after each step asks about every pair of known ports: what another book says is held
//! against it.
#![tactic(auto)]

mod asking;
mod book;
mod group_maps;
mod initiators;
mod loose;
mod offers;
mod patching;
mod ports;
mod zone_maps;

pub use book::{PlainBook, PlainStep};
pub use initiators::add_of_initiators;
pub use loose::add_if_flagged;
pub use offers::{add_offered_to_all, served_ports};
pub use patching::{group_patch, held_patch, patch_of};
