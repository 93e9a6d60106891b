//! The paths of a host.
ghost use Rattle.std.specs.Prelude.{IfOk};
ghost use Rattle.sqlite.specs.Held.{state};
ghost use Rattle.sqlite.specs.State.{HasCleanDisk};
ghost use Rattle.fab_store_sql.specs.Trees.{tables_of};
ghost use Rattle.fab_store_base.specs.Worlds.{ArePathsIn};
ghost use Rattle.fab_store.specs.Reads.{OnlyReads, SeesSame};

use fab_names::Name;
use fab_reach_base::Path;
use fab_store_base::StoreFault;
use fab_store_sql::read_paths_of;
use fab_store_tables::paths_in;
use sqlite::{Alter, Connection};
use std::alloc::{Allocator, Global};

/// The paths of the host, in order, from their table. The database is as it was.
///
/// # Errors
/// `StoreFault` where the query was refused, a line shows no path, or there is no memory.
pub(crate) fn find_paths<A: Allocator + Copy, S: Alter>(
    alloc: A,
    heap: Global,
    conn: &mut Connection<S>,
    host: &Name,
) -> Result<Vec<Path, A>, StoreFault>
    ensures only { OnlyReads (state S.Store conn.old) (state S.Store conn.new) }
    ensures told { HasCleanDisk (state S.Store conn.new) → IfOk result (λ paths. ArePathsIn (tables_of (state S.Store conn.old).now.trees) host.now paths.items × SeesSame (state S.Store conn.old) (state S.Store conn.new)) }
{
    let lines = match read_paths_of(conn, heap, host.as_str()) {
        Ok(lines) => lines,
        Err(_) => return Err(StoreFault),
    };
    match paths_in(alloc, lines.as_slice()) {
        Ok(Some(paths)) => Ok(paths),
        _ => Err(StoreFault),
    }
}
