//! What a store of the desk's tables promises: it makes the changes of a command whole or not at all,
//! and counts each call that it refuses. And the columns in which two worlds differ, and the world that
//! columns show.
#![tactic(auto)]

mod changed;
mod faults;
pub mod laws;
mod opened;
mod refusing;
mod store;

pub use changed::change_lines;
pub use fab_store_load::OpenFault;
pub use fab_store_tables::{LineChanges, Table, TableLine, TableLines, paths_in, rows_of_lines};
pub use faults::StoreFault;
pub use opened::world_of_lines;
pub use refusing::RefusingStore;
pub use store::Store;
