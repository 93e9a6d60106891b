//! The way between a host and a volume in its parts, as a caller is told: each pair of their ports and
//! why the two may communicate or may not; and who reaches a volume, with the storage groups and logical
//! unit numbers by which it is offered.
//!
//! What is another's is told as if it was not there. Nothing is changed.
#![tactic(auto)]

mod ends;
mod gathering;
mod groups;
pub mod laws;
mod offers;
mod pairing;
mod reachers;
mod ties;
mod zoned;

pub use ends::Ends;
pub use pairing::{Pair, pairs_told};
pub use reachers::{Reacher, reachers_told};
pub use ties::Tie;
pub use zoned::Zoned;
