//! Texts of what the desk shows, for files and screens: an answer's JSON, a host's paths as CSV, the
//! report on its volumes, and the active set of a fabric.
//!
//! Each text is put piece by piece into a sink, so that it is written, or its bytes are counted,
//! without being built in memory. Each line ends with a line feed.
#![tactic(auto)]

mod active;
mod counts;
mod forms;
mod paths;
mod printing;
mod reports;

pub use active::active_text;
pub use fab_wire_requests::port_list::{FileFault, read_ports};
pub use forms::Form;
pub use paths::paths_csv;
pub use printing::print;
pub use reports::{ReportFault, report};
