//! Connections served in turn, none of which holds the server.
//!
//! `serve_on` takes up the connections of a listener. Their requests are gathered, and their answers
//! sent, side by side (`fab_wire_gathering`), and what they ask is done one after the other, by a
//! `Server`: it may halt, and is then opened anew before the next turn. A connection that sends or takes
//! its bytes too slowly is given up, and each one has its line in a log (`fab_wire_log`).
//!
//! Clocks, listeners and streams are small traits (`Ticks`, `Listens`, `Source`, `Sink`), so that contracts say
//! what a clock told, and for how long a stream was asked to wait.
#![tactic(auto)]

mod alone;
pub mod connection;
pub mod exchange;
pub mod listener;
mod room;
pub mod server;
pub mod serving;

pub use listener::{Listens, listen_at};
pub use server::{Forgets, Server};
pub use serving::{ServeFault, serve_on};
