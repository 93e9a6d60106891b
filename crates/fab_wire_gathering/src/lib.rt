//! Connections over sockets, of which none waits for another: requests that are gathered, and answers
//! that are sent, side by side in one thread.
//!
//! A connection that is there is a `Guest`. The `Gathering` has their seats, and goes on with those of
//! which `mio` says that they are ready. What tells where a request ends is a `Framing`. A connection
//! that is not gathered goes over a stream whose reads and writes end in time (`fab_wire_deadlines`).
#![tactic(auto)]

pub mod framing;
pub mod gathering;
pub mod guest;
pub mod pieces;
mod seats;
