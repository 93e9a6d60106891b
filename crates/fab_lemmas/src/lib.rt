//! Finite maps, finite maps to finite sets, and the trees that they are kept in: the words of the
//! crates above for them, and what several of them do with such trees.
//!
//! It knows nothing of storage networks: keys are of any type with an order.
#![tactic(auto)]

mod least;
mod listed;
mod room;

pub use least::lesser;
pub use listed::{keys_listed, set_of};
pub use room::is_full;
