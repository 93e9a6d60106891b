//! What a step from one world to the next gains and loses.

use crate::Path;
use std::alloc::Allocator;

/// The paths that a step gains, and those that it loses, each once, in order.
#[derive(Drop)]
pub struct Delta<A: Allocator + Copy> {
    /// The paths that are there behind it, and were not before.
    pub gained: Vec<Path, A>,
    /// Those that were there, and are not behind it.
    pub lost: Vec<Path, A>,
}
