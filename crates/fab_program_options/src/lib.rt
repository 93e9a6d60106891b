//! The command line of the program `sandesk`: its subcommands, which options each takes, and how a
//! line of words is read.
//!
//! ```
//! match read_words(alloc, words) {
//!     Ok(Words::Paths(asked)) => show_paths(asked.access, asked.host),
//!     ..
//! }
//! ```
#![tactic(auto)]

mod commands;
mod reading;
mod subcommands;

pub use reading::{WordsFault, read_words};
pub use subcommands::{SUBCOMMANDS, Subcommand};
