//! What the words of a command line of `sandesk` ask for, its options, and the values in them.
//!
//! ```
//! match name_in(given, OptionKind::Host) {
//!     Some(host) => Some(Paths { access, host }),
//!     None => None,
//! }
//! ```
#![tactic(auto)]

mod lists;
mod options;
mod values;
mod words;

pub use lists::{Part, approval_of};
pub use options::{OptionKind, OptionShape};
pub use values::{
    action_in, fabric_in, fabrics_in, is_given, kind_in, list_in, maybe_name_in, name_in,
    number_in, state_in, text_in, token_in, wwn_in,
};
pub use words::{
    Access, ActionWord, Check, Deed, Diff, DryRun, Explain, ExplainOf, Export, Import, Init,
    ListKind, ListState, NamedFabrics, Names, Once, Over, Paths, Serve, TryImport, Who, WhoOf, Why,
    Words,
};
