//! Answers as bytes: what is answered to a request, as a response of HTTP/1.1 (RFC 9112) with a
//! body of JSON (RFC 8259).
//!
//! A body is an `object!` whose keys stand in the order of their bytes, each in a small function;
//! `codes` has the table of refusals.
#![tactic(auto)]

pub mod answers;
pub mod codes;
pub mod laws;
pub mod parts;
mod refusals;
mod replies;
mod showing;
