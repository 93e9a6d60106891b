//! Why a body is not read.

/// Why a body is not read.
#[derive(Clone, Copy, Debug, Drop)]
pub enum BodyFault {
    /// The body spells nothing of its form.
    Bad,
    /// There was no memory.
    Memory,
}
