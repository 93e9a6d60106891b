//! The tables of a desk in files.

use crate::desks::{Asked, Trial};
use crate::playing::play;
use crate::tables::{load, migrate, tables_of};
use crate::worlds::{Tale, are_same, is_world_of, world_of};
use fab_store::{OpenFault, SqlStore, Store};
use fab_world::World;
use sqlite::{Alter, Connection, FileStore, Files, Options};
use sqlite_disk::Disk;
use std::alloc::{Allocator, Global};
use std::process::Abort;

/// Makes the tables of schema 1 of those of schema 2.
const EARLIER: &str = "DROP TABLE addresses; UPDATE meta SET value = '1' WHERE key = 'schema'";

/// A connection to the files, or what is left of them where they can not be opened.
fn connect<D: Disk + Drop>(
    alloc: Global,
    files: Files<D>,
) -> Result<Connection<FileStore<D>>, Files<D>> {
    if !files.may_be_used() {
        return Err(files);
    }
    let mut options = Options::new(1);
    options.checkpoint_frames = 20;
    match Connection::open_files(alloc, files, options) {
        Ok(conn) => Ok(conn),
        Err((_, left)) => Err(left.into_files()),
    }
}

/// What is done with tables.
#[derive(Clone, Copy)]
pub enum Work {
    /// A desk over them answers the requests: how many.
    Play,
    /// The same. Then they are made tables of schema 1.
    PlayEarlier,
    /// They are looked at, after so many requests were answered: they stand after these or one more. Then a
    /// desk over them answers the rest.
    Look(usize),
    /// They are brought to the present schema: 1 where a migration tells that it changed them, and 0 where it
    /// is refused.
    Migrate,
    /// They are looked at, after a migration told this of them: they are of schema 1 or of the present one,
    /// and another migration ends in that. They stand after all requests.
    LookMigrated(usize),
}

/// After how many requests the world stands: so many, or one more.
fn place_of<A: Allocator + Copy>(
    rt: &impl Abort,
    heap: A,
    world: &World<A>,
    tale: Tale<'_, A>,
    count: usize,
) -> usize {
    if are_same(rt, heap, tale.world(rt, count), world) {
        return count;
    }
    let after = count.saturating_add(1);
    assert!(rt; are_same(rt, heap, tale.world(rt, after), world));
    after
}

/// Whether the tables stand after all requests.
fn are_after<A: Allocator + Copy, S: Store<A>>(
    rt: &impl Abort,
    heap: A,
    tables: &mut S,
    tale: Tale<'_, A>,
) -> bool {
    is_world_of(rt, heap, tables, tale.world(rt, tale.lines.len()))
}

/// Has a desk over the tables answer the requests behind so many. They stand after all then.
fn finish<A: Allocator + Copy, S: Store<A>, D: Asked<A, S>>(
    rt: &(impl Abort + AllocGlobal),
    heap: A,
    tables: S,
    tale: Tale<'_, A>,
    count: usize,
) -> S {
    let rest = tale.lines.get(count..).unwrap_or(&[]);
    let (played, mut tables) = play::<A, S, D>(rt, heap, tables, rest);
    assert_eq!(rt; played, rest.len());
    assert!(rt; are_after(rt, heap, &mut tables, tale));
    tables
}

/// Looks at the tables, after so many requests were answered, and has the rest answered.
fn look<A: Allocator + Copy, S: Store<A>, D: Asked<A, S>>(
    rt: &(impl Abort + AllocGlobal),
    heap: A,
    tables: S,
    tale: Tale<'_, A>,
    count: usize,
) -> (usize, S) {
    let mut tables = tables;
    let stand = place_of(rt, heap, &world_of(rt, heap, &mut tables), tale, count);
    let tables = finish::<A, S, D>(rt, heap, tables, tale, stand);
    (stand, tables)
}

/// What a migration tells: 1 where it changed the tables, and 0 where it is refused.
fn migrated<A: Allocator + Copy, S: Store<A>>(rt: &impl Abort, heap: A, tables: &mut S) -> usize {
    match migrate(heap, tables) {
        Ok(true) => 1,
        Err(OpenFault::Store) => 0,
        _ => panic!(rt; "migration"),
    }
}

/// Whether the tables are of schema 1, and are not loaded.
fn is_earlier<A: Allocator + Copy, S: Store<A>>(heap: A, tables: &mut S) -> bool {
    matches!(load(heap, tables), Err(OpenFault::OldSchema(1)))
}

/// Looks at the tables, after a migration told this of them.
fn look_migrated<A: Allocator + Copy, S: Store<A>>(
    rt: &impl Abort,
    heap: A,
    tables: &mut S,
    tale: Tale<'_, A>,
    told: usize,
) {
    let is_left = is_earlier(heap, tables);
    assert!(rt; !is_left || told == 0);
    assert!(rt; matches!(migrate(heap, tables), Ok(done) if done == is_left));
    assert!(rt; are_after(rt, heap, tables, tale));
}

/// Does the work with the tables, which are given back, and with desks of this type.
fn work_with<A: Allocator + Copy, S: Store<A>, D: Asked<A, S>>(
    rt: &(impl Abort + AllocGlobal),
    heap: A,
    tables: S,
    tale: Tale<'_, A>,
    work: Work,
) -> (usize, S) {
    let mut tables = tables;
    match work {
        Work::Play | Work::PlayEarlier => play::<A, S, D>(rt, heap, tables, tale.lines),
        Work::Look(count) => look::<A, S, D>(rt, heap, tables, tale, count),
        Work::Migrate => (migrated(rt, heap, &mut tables), tables),
        Work::LookMigrated(told) => {
            look_migrated(rt, heap, &mut tables, tale, told);
            (told, tables)
        }
    }
}

/// What a connection was over after the work.
fn left<S: Alter + Drop>(rt: &impl Abort, conn: Connection<S>, work: Work) -> S {
    let mut conn = conn;
    if matches!(work, Work::PlayEarlier) {
        conn.execute_batch(EARLIER).expect(rt, "statements");
    }
    conn.into_store()
}

/// Does the work with the tables of a connection, and what that was over. They are made first, where none
/// are there.
fn work_over<A: Allocator + Copy, S: Alter + Drop>(
    rt: &(impl Abort + AllocGlobal),
    heap: A,
    conn: Connection<S>,
    tale: Tale<'_, A>,
    work: Work,
) -> (usize, S) {
    let mut tables = tables_of(rt, rt.alloc(), conn);
    let _made = tables.init();
    let (count, tables) = work_with::<A, SqlStore<S>, Trial<A, SqlStore<S>>>(
        rt, heap, tables, tale, work,
    );
    (count, left(rt, tables.into_connection(), work))
}

/// Does the work with the tables in files, which are given back as they are, if they can be opened. Ends the
/// test where there are other rows, or another answer.
pub fn run<A: Allocator + Copy, D: Disk + Drop>(
    rt: &(impl Abort + AllocGlobal),
    heap: A,
    files: Files<D>,
    tale: Tale<'_, A>,
    work: Work,
) -> (Option<usize>, Files<D>) {
    match connect(rt.alloc(), files) {
        Ok(conn) => {
            let (count, store) = work_over(rt, heap, conn, tale, work);
            (Some(count), store.close())
        }
        Err(files) => (None, files),
    }
}
