//! A policy without its tokens, and what it finds of an act, as texts that a sink takes. It takes no
//! memory.
#![tactic(auto)]

mod findings;
pub mod laws;
mod shown;

pub use findings::put_explained;
pub use shown::put_policy;
