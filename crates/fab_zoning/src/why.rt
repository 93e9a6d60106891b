//! Why two ports may communicate.

use fab_names::Name;

/// Why two ports may communicate.
#[derive(Clone, Copy)]
pub enum Why<'a> {
    /// A zone of the active set has both: the first such zone by name.
    Zone(&'a Name),
    /// Neither is in a zone of the active set, and the default zone permits it.
    Default,
}
