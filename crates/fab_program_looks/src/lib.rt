//! What a caller is told who only looks: why a host reaches a volume or does not, who reaches a volume,
//! and lists of what there is; and what an import or the activation of a plan would do. It is told over
//! any store.
//!
//! The store is read once, and nothing is changed.
#![tactic(auto)]

mod books;
mod importing;
mod lists;
mod loading;
pub mod looks;
mod planning;
mod printing;
mod told;
pub mod tries;
