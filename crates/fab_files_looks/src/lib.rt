//! What a caller is told of the world beside the desk's reads, as texts for people and as JSON: lists
//! of what reads show, why a host reaches a volume with the pairs of ports between the two, and who reaches
//! a volume and by what.
//!
//! Each text is put piece by piece into a sink. Each line ends with a line feed.
#![tactic(auto)]

mod lines;
mod lists;
mod pairs;
mod pieces;
mod reachers;
mod ways;
mod words;

pub use lists::{RowsJson, RowsText, Table};
pub use reachers::{ReachersJson, ReachersText};
pub use ways::{FoundText, WayJson, WayText};
pub use words::{link_word, missing_words};
