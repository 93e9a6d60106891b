//! Why a call of a store gives nothing.

/// A refused call: the store counted it.
#[derive(Clone, Copy, Debug, Drop)]
pub struct StoreFault;
