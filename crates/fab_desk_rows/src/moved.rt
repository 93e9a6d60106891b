//! Rows of one kind that a change moves.
ghost use Rattle.std.specs.Prelude.{◌≡◌, []};

use std::alloc::Allocator;

/// Rows of one kind: those that a change removes, and those that it adds.
#[derive(Drop)]
pub struct Moved<R: Drop, A: Allocator> {
    pub removed: Vec<R, A>,
    pub added: Vec<R, A>,
}

/// No rows. It takes no memory.
pub fn none_moved<R: Drop, A: Allocator + Copy>(alloc: A) -> Moved<R, A>
    ensures { (result.removed.items ≡ []) × (result.added.items ≡ []) }
{
    Moved {
        removed: Vec::new(alloc),
        added: Vec::new(alloc),
    }
}
