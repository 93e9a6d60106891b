//! Sets under names from rows.
ghost use Rattle.std.specs.Prelude.{IfOk};
ghost use Rattle.fab_reach_base.specs.fab_zoning.Edits.{IsIn, HasItems};
ghost use Rattle.fab_store_load.specs.Rows.{AreRows};

use crate::kind::Kind;
use fab_reach_base::zoning::{Key, put_in_tree};
use std::alloc::{AllocError, Allocator};
use std::collections::{BTreeMap, BTreeSet};

/// The sets whose items, under their names, the rows of the kind say. None of them is empty.
///
/// # Errors
/// `AllocError` where there is no memory.
pub fn sets_of<R, Q: Key, X: Key, S: Kind<R, (Q, X)>, A: Allocator + Copy>(
    alloc: A,
    kind: &S,
    rows: &[R],
) -> Result<BTreeMap<Q, BTreeSet<X, A>, A>, AllocError>
    ensures rows { IfOk result (λ sets. AreRows (S.row_of kind.now) rows.now (IsIn Q.cmp X.cmp sets)) }
    ensures some { IfOk result (HasItems Q.cmp X.cmp) }
{
    let mut sets = BTreeMap::new(alloc);
    for row in rows {
        let Some(entry) = kind.entry(row) else {
            continue;
        };
        put_in_tree(alloc, &mut sets, entry.0, entry.1)?;
    }
    Ok(sets)
}
