//! The rows of all tables in which two worlds differ.

use fab_world::load::rows::TableRows;
use std::alloc::Allocator;

/// What leads from one world to another, as rows of tables. A row that is changed is removed and
/// added.
#[derive(Drop)]
pub struct Changes<A: Allocator + Copy> {
    /// The rows that stand in the first world and not in the second.
    pub removed: TableRows<A>,
    /// The rows that stand in the second world and not in the first.
    pub added: TableRows<A>,
}
