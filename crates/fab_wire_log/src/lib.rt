//! What is told of connections: by which clock each is watched, for how long, and its line in a log.
//!
//! A `Watch` writes the line of a connection at once. Where connections end in another order than they
//! had their turns, their lines wait for each other, as `Pending` ones.
#![tactic(auto)]

pub mod line;
pub mod pending;
pub mod shown;
pub mod watch;

pub use shown::Shown;
pub use watch::Watch;
