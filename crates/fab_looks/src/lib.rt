//! Why a host reaches a volume, or does not: the links between the two, in their order, and the first that
//! is missing; and who reaches a volume. And what a caller is told of the world beside the desk's reads: the
//! same, and the names of each kind.
//!
//! A host or a volume that is not the caller's is told as if it was not there. Nothing is changed.
#![tactic(auto)]

mod around;
mod entries;
mod explaining;
mod finding;
mod holding;
mod joining;
pub mod laws;
mod link;
mod listing;
mod offering;
mod port_listing;
mod reaching;
mod rows;
mod seeing;
mod serving;
mod telling;
mod way;
mod zones;

pub use around::port_way;
pub use explaining::{Why, explain};
pub use finding::serves;
pub use link::Link;
pub use listing::{Kind, list, query_of};
pub use port_listing::list_ports;
pub use reaching::{Counts, count_at, who_reaches};
pub use rows::{answers_to, list_rows, port_rows};
pub use seeing::who_told;
pub use telling::told;
pub use way::way_rows;
