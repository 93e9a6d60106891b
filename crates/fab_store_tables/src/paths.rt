//! The paths that lines of paths show.
ghost use Rattle.std.specs.Prelude.{◌↔◌, IfOk, MatchOption};
ghost use Rattle.fab_store_columns.specs.RecordLines.{ShowsPath};
ghost use Rattle.fab_reach_base.specs.Orders.{Has, IsListOf};
ghost use Rattle.fab_reach_base.specs.declared.path.Path.{Path};
ghost use Rattle.fab_store_tables.specs.Paths.{IsPathOf};
ghost use Rattle.fab_store_tables.specs.Reading.{HasOdd};

use fab_reach_base::Path;
use fab_reach_base::lemmas::keys_listed;
use fab_store_columns::PathLine;
use std::alloc::{AllocError, Allocator, Global};
use std::collections::BTreeSet;

/// The set of the paths that the lines show, or none where a line shows no row.
fn path_set<A: Allocator + Copy>(
    alloc: A,
    lines: &[PathLine<Global>],
) -> Result<Option<BTreeSet<Path, A>>, AllocError>
    ensures { IfOk result (λ found. MatchOption found (HasOdd ShowsPath lines.now) (λ paths. (x : Path) → Has paths x ↔ IsPathOf lines.now x)) }
{
    let mut paths = BTreeSet::new(alloc);
    for line in lines {
        let Some(row) = line.read() else {
            return Ok(None);
        };
        paths.insert(row.path)?;
    }
    Ok(Some(paths))
}

/// The paths that lines of paths show, each once and in order, or none where a line shows no row.
///
/// # Errors
/// `AllocError` where there is no memory.
pub fn paths_in<A: Allocator + Copy>(
    alloc: A,
    lines: &[PathLine<Global>],
) -> Result<Option<Vec<Path, A>>, AllocError>
    ensures { IfOk result (λ found. MatchOption found (HasOdd ShowsPath lines.now) (λ paths. IsListOf (IsPathOf lines.now) paths.items)) }
{
    let Some(set) = path_set(alloc, lines)? else {
        return Ok(None);
    };
    let _count = set.len();
    let paths = keys_listed(alloc, &set)?;
    Ok(Some(paths))
}
