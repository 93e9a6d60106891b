//! The thirteen tables of a database: typed rows as columns and columns as typed rows, table by table;
//! the undo entries, each row of a configuration as one text; and what it is to change the tables.
//! No world is known here.
#![tactic(auto)]

mod changes;
pub mod laws;
mod lines;
mod listed_line;
mod paths;
mod printing;
mod read;
mod reading;
mod row;
mod stored_line;
mod undo_line;
mod versions;
mod words;
mod write;

pub use changes::LineChanges;
pub use fab_store_load::Table;
pub use lines::TableLines;
pub use listed_line::Line;
pub use paths::paths_in;
pub use printing::lines_of_rows;
pub use reading::rows_of_lines;
pub use row::Row;
pub use stored_line::TableLine;
pub use undo_line::UndoLine;
pub use versions::{MOST_SCHEMA, schema_in, schema_told};
