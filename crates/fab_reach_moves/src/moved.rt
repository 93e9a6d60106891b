//! What a difference moves.
ghost use Rattle.std.specs.Prelude.{IfOk};
ghost use Rattle.fab_reach_base.specs.Records.{Records};
ghost use Rattle.fab_reach_base.specs.Serving.{IsServing};
ghost use Rattle.fab_reach_base.specs.Views.{seen};
ghost use Rattle.fab_reach_books.specs.Rows.{IsRowDiff};
ghost use Rattle.fab_reach_index.specs.Indexes.{IsIndexOf};
ghost use Rattle.fab_reach_moves.specs.Inner.Moved.{IsMovedBy};

use crate::changes::told_ports;
use crate::groups::{told_flags, told_groups};
use fab_names::{Name, Wwn};
use fab_reach_base::View;
use fab_reach_books::RowDiff;
use fab_reach_index::Index;
use std::alloc::{AllocError, Allocator};
use std::collections::BTreeSet;

/// What a difference moves, before any pair is looked at.
#[derive(Drop)]
pub struct Moved<A: Allocator + Copy> {
    /// The ports that are known otherwise, or in other zones.
    pub ports: BTreeSet<Wwn, A>,
    /// The storage groups that have other parts, other hosts, or are exposed otherwise.
    pub groups: BTreeSet<Name, A>,
    /// Whether the default zone of fabric A permits otherwise, and that of B.
    pub flags: (bool, bool),
}

/// What a difference moves.
///
/// # Errors
/// `AllocError` where there is no memory.
pub fn told_moved<A: Allocator + Copy>(
    alloc: A,
    index: &Index<A>,
    before: &View<'_, A>,
    diff: &RowDiff<A>,
) -> Result<Moved<A>, AllocError>
    requires { IsServing (seen before.now) × IsIndexOf (seen before.now) index.now }
    ensures { (v : Records) → IsServing v → IsRowDiff (seen before.now) v diff.now.gone.items diff.now.come.items → IfOk result (IsMovedBy (seen before.now) v) }
{
    let ports = told_ports(alloc, before, diff)?;
    let groups = told_groups(alloc, index, diff)?;
    let flags = told_flags(diff);
    Ok(Moved {
        ports,
        groups,
        flags,
    })
}
