//! Tables read one behind the other.
ghost use Rattle.std.specs.Prelude.{IfOk};
ghost use Rattle.sqlite.specs.Effect.{Database};
ghost use Rattle.sqlite.specs.Held.{state};
ghost use Rattle.sqlite.specs.State.{HasCleanDisk};
ghost use Rattle.fab_store.specs.Reads.{OnlyReads, SeesSame, IsTableOf};

use fab_store_sql::{Line, ReadFault, read_all};
use sqlite::{Alter, Connection};
use std::alloc::Global;

/// What is read of a database in one go.
pub(crate) trait Lot: Sized + Drop {
    // It is what the database has of it.
    ghost is_of: { Self → Database → Type 0 };

    /// Reads it. The database is as it was.
    ///
    /// # Errors
    /// As for `read_all`.
    fn read<S: Alter>(conn: &mut Connection<S>, alloc: Global) -> Result<Self, ReadFault>
        ensures only { OnlyReads (state S.Store conn.old) (state S.Store conn.new) }
        ensures told { HasCleanDisk (state S.Store conn.new) → IfOk result (λ lot. is_of lot (state S.Store conn.old).now × SeesSame (state S.Store conn.old) (state S.Store conn.new)) };
}

impl<L: Line> Lot for Vec<L, Global> {
    ghost is_of = { λ lines db. IsTableOf L.Line.place L.Line.row lines.items db };

    fn read<S: Alter>(
        conn: &mut Connection<S>,
        alloc: Global,
    ) -> Result<Vec<L, Global>, ReadFault> {
        read_all(conn, alloc)
    }
}

/// One lot, and what is read behind it.
#[derive(Drop)]
pub(crate) struct Both<X: Drop, Y: Drop> {
    pub(crate) first: X,
    pub(crate) rest: Y,
}

impl<X: Lot, Y: Lot> Lot for Both<X, Y> {
    ghost is_of = { λ both db. X.is_of both.first db × Y.is_of both.rest db };

    fn read<S: Alter>(conn: &mut Connection<S>, alloc: Global) -> Result<Both<X, Y>, ReadFault> {
        let first = match X::read(conn, alloc) {
            Ok(first) => first,
            Err(fault) => return Err(fault),
        };
        match Y::read(conn, alloc) {
            Ok(rest) => Ok(Both { first, rest }),
            Err(fault) => Err(fault),
        }
    }
}
