//! Where the program's desks are: databases in files and in memory, and the addresses at which connections
//! come in; what the subcommands do that ask a desk once: an import, a dry run, and what is shown; and what
//! a desk is asked in requests: by connections that it serves, or by one request of standard input.
#![tactic(auto)]

mod addresses;
mod asking;
mod commands;
mod connections;
mod database;
mod front;
mod machine;
mod serving;
mod tasks;

pub use addresses::Addresses;
pub use asking::once;
pub use commands::{dry_run, export, import, paths, report};
pub use database::{Databases, ProgramDesk, desk_over, make, tables_again};
pub use front::Front;
pub use machine::{FileTables, new_tables};
pub use serving::serve;
