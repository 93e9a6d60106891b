//! Tables in which a desk is kept: those of a new desk, in memory or not, and calls of them, each in one function.

use crate::desks::{Asked, Trial};
use fab_store::{OpenFault, SqlStore, Store};
use fab_world::World;
use sqlite::{Alter, Connection};
use std::alloc::{Allocator, Global};
use std::process::Abort;

/// What is done with the tables of a new desk. The types of the store and of a desk over it are long, so all is
/// done through one call of it.
pub trait Story<A: Allocator + Copy>: Sized {
    /// What it comes to.
    type Told;

    /// Does it with these tables, and with desks of this type.
    fn tell<R: Abort + AllocGlobal, S: Store<A>, D: Asked<A, S>>(
        self,
        rt: &R,
        heap: A,
        store: S,
    ) -> Self::Told;
}

/// The tables of a connection in which no transaction runs.
pub fn tables_of<S: Alter + Drop>(
    rt: &impl Abort,
    global: Global,
    conn: Connection<S>,
) -> SqlStore<S> {
    assert!(rt; conn.is_autocommit());
    SqlStore::new(conn, global)
}

/// Does it with the tables of a new desk, which are made over the connection.
fn tell_over<R: Abort + AllocGlobal, A: Allocator + Copy, S: Alter + Drop, T: Story<A>>(
    rt: &R,
    heap: A,
    conn: Connection<S>,
    story: T,
) -> T::Told {
    let mut tables = tables_of(rt, rt.alloc(), conn);
    assert!(rt; tables.init().is_ok());
    story.tell::<R, SqlStore<S>, Trial<A, SqlStore<S>>>(rt, heap, tables)
}

/// Does it with the tables of a new desk in memory.
pub fn tell_in_memory<R: Abort + AllocGlobal, A: Allocator + Copy, T: Story<A>>(
    rt: &R,
    heap: A,
    story: T,
) -> T::Told {
    match Connection::open_in_memory(rt.alloc()) {
        Ok(conn) => tell_over(rt, heap, conn, story),
        Err(_) => panic!(rt; "no connection"),
    }
}

/// The world of the tables, or why they are not loaded.
pub fn load<A: Allocator + Copy, S: Store<A>>(
    heap: A,
    tables: &mut S,
) -> Result<World<A>, OpenFault> {
    tables.load(heap)
}

/// Brings the tables to the present schema: whether they were changed, or why they were not.
pub fn migrate<A: Allocator + Copy, S: Store<A>>(
    heap: A,
    tables: &mut S,
) -> Result<bool, OpenFault> {
    let _heap = heap;
    Store::<A>::migrate(tables)
}

/// How many calls of the tables were refused.
pub fn refusals<A: Allocator + Copy, S: Store<A>>(heap: A, tables: &S) -> u64 {
    let _heap = heap;
    Store::<A>::refusals(tables)
}
