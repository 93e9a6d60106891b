//! Requests and their answers, for tests of the wire: the worked rows as tables tell them, their
//! bytes, and the streams that carry them and fail once. It is no part of the product.
#![tactic(auto)]

pub mod rows;
pub mod streams;
mod turns;

pub use turns::{Exchange, Turn, exchange_of, turn_of};
