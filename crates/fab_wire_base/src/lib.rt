//! The wire of the change desk: the bytes of one connection as one request.
#![tactic(auto)]

pub mod bodies;
pub mod callers;
pub mod fields;
pub mod head;
pub mod hear;
pub mod kinds;
pub mod laws;
pub mod parts;
pub mod requests;
pub mod routes;
pub mod whole;
