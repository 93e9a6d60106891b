//! Changes of tables.

use crate::TableLine;
use std::alloc::Allocator;

/// Lines to remove and lines to add, each of its table. A row that is changed is removed and added.
#[derive(Drop)]
pub struct LineChanges<A: Allocator + Copy> {
    /// The lines to remove.
    pub removed: Vec<TableLine<A>, A>,
    /// The lines to add.
    pub added: Vec<TableLine<A>, A>,
}
