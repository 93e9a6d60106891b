//! The thirteen tables as a schema of SQL: their shape, the texts of their statements, and what these
//! mean. SQL over them: changes within a transaction, reads of whole tables, and the tables of a new desk.
#![tactic(auto)]

mod changes;
mod line;
mod lines;
mod making;
mod read;
mod shape;
mod texts;
mod values;

pub use changes::{add_all, change_rows, remove_all};
pub use line::Line;
pub use making::{create, init};
pub use read::{ReadFault, lines_from, read_all, read_paths_of, rise};
pub use shape::{ALL, has_tables};
pub use texts::{create_text, delete_text, insert_text, paths_text, select_text};
