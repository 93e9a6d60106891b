//! Texts that are printed: each goes to a writer whole, piece by piece, without being built in memory; how a
//! command ended that printed one; and columns of a fixed width.
#![tactic(auto)]

mod columns;
mod printing;

pub use columns::{COUNT_WIDTH, NAME_WIDTH, put_four, put_row, put_three, spaces_beside};
pub use printing::{End, PrintFault, Printable, buffered, finish, leave, print_text};
