//! Whether two worlds are the same, for tests. It is no part of the product.
#![tactic(auto)]

mod plans;
mod worlds;

pub use worlds::is_same;
