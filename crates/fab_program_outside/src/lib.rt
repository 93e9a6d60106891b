//! What the program `sandesk` has of the outside: files and their contents, the clock, its own words,
//! the texts that go to standard output, and the lines on standard error that tell why it could not do
//! what was asked.
//!
//! What a file has, and what a clock tells, no contract of the system says. So small traits stand for
//! them, whose ghost members say what was opened and what was told, and the rest is proved over these.
#![tactic(auto)]

mod args;
mod contents;
mod descriptors;
mod faults;
mod files;
mod moments;
mod printing;
mod telling;

pub use args::{ArgsFault, words_of};
pub use contents::{bytes_of, is_too_large, policy_from, policy_of};
pub use descriptors::open_standard;
pub use faults::{Fault, of_opening};
pub use files::{Files, Machine, Size, is_free};
pub use moments::{moment_of, seconds};
pub use printing::{of_printing, print_as};
pub use telling::{fail, refuse_args, refuse_text};
