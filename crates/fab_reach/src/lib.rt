//! Which host ports reach which volumes, and the book of paths that goes from world to world: it asks
//! about the pairs of ports that a step may touch alone, and counts its questions.
#![tactic(auto)]

mod asked;
mod finding;
mod index_book;
pub mod laws;
mod own_rows;
mod regrouped;

pub use fab_reach_base::{
    Config, Delta, MOST_PATHS, Path, PathsFault, View, all_paths, few_paths, plain_paths,
};
pub use fab_reach_books::{PathBook, RowDiff, Sight, ViewSight, row_diff};
pub use index_book::{IndexBook, IndexStep};
