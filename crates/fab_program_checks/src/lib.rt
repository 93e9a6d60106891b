//! What is wrong with a file: a policy, a plan or a port list, in words, and what is worth a look there; what
//! a policy says of a command, rule by rule; and a policy without its tokens.
#![tactic(auto)]

mod checking;
mod deeds;
mod explaining;
mod findings;
mod lines;
mod modes;
mod notes;
mod parts;
mod words;

pub use checking::check;
pub use explaining::{explain, now_in};
pub use findings::{Finding, find_plan, find_policy, find_ports};
pub use lines::FindingText;
pub use modes::Modes;
