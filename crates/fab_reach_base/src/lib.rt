//! Which host ports reach which volumes, as a definition and as a list.
#![tactic(auto)]

mod book;
mod config;
pub mod laws;
mod listing;
mod path;
mod served;
mod serving;
mod view;

pub use book::Delta;
pub use config::Config;
pub use fab_mapping as mapping;
pub use fab_mapping::base::{inventory, lemmas, names};
pub use fab_zoning as zoning;
pub use listing::{
    MOST_PATHS, PathsFault, add_pair, add_pair_of, all_paths, few_paths, host_of, is_target,
    listed, plain_paths, targets_of,
};
pub use path::Path;
pub use served::{serve_group, served_hosts};
pub use view::View;
