//! The tables of a desk in a SQLite database.
ghost use Rattle.std.specs.Prelude.{◌≡◌, ◌≢◌, ◌↔◌, ◌⊎◌, [], false, OnOk, OnErr, IsTrue};
ghost use Rattle.sqlite.specs.Held.{state};
ghost use Rattle.sqlite.specs.State.{HasCleanDisk};
ghost use Rattle.fab_store_sql.specs.NewDesk.{IsNewDesk};
ghost use Rattle.fab_store_sql.specs.States.{IsReady};
ghost use Rattle.fab_store_sql.specs.Trees.{tables_of};
ghost use Rattle.fab_store_base.specs.Calls as store;
ghost use Rattle.fab_store_base.specs.Calls.{IsCounted, Rises};
ghost use Rattle.fab_store_migration.specs.Judging.{MigratesNot};
ghost use Rattle.fab_store_migration.specs.Migrations.{IsKnown, IsOld};
ghost use Rattle.fab_store_tables.specs.Tables.{Tables};
ghost use Rattle.fab_store.specs.Laws.{Leaves};

use crate::changes::apply;
use crate::opening::load_world;
use crate::paths::find_paths;
use fab_names::Name;
use fab_reach_base::Path;
use fab_store_base::{LineChanges, OpenFault, Store, StoreFault};
use fab_store_migration::{MigrationFault, migrate};
use fab_store_sql::init;
use fab_store_tables::Table;
use fab_world::World;
use sqlite::{Alter, Connection};
use std::alloc::{Allocator, Global};

/// A store over a connection.
pub struct SqlStore<S: Alter> {
    conn: Connection<S>,
    /// Where lines are kept on their way.
    heap: Global,
    /// How many calls were refused.
    refusals: u64,
    ghost outside: { conn.in_transaction ≡ false },
}

/// Whether the database has no table.
fn has_no_table<S: Alter>(conn: &Connection<S>) -> bool
    ensures { IsTrue result ↔ ((state S.Store conn.now).now.schema.tables ≡ []) }
{
    conn.schema().tables.is_empty()
}

/// The count of refused calls, with one more. At its greatest value it stays.
fn raised(refusals: u64) -> u64
    ensures { Rises refusals result }
{
    refusals.saturating_add(1)
}

/// The count of refused calls after a `load` or a `migrate` that gave this fault.
fn counted(refusals: u64, fault: OpenFault) -> u64
    ensures { IsCounted refusals result fault }
{
    match fault {
        OpenFault::Store => raised(refusals),
        OpenFault::Damaged(_)
        | OpenFault::NewerSchema(_)
        | OpenFault::OldSchema(_)
        | OpenFault::Memory => refusals,
    }
}

/// Why tables are not brought to the schema, as a store tells it.
fn unmigrated(fault: MigrationFault) -> OpenFault
    ensures { (t : Tables) → MigratesNot t fault → store.MigratesNot t result }
{
    match fault {
        MigrationFault::NewerSchema(schema) => OpenFault::NewerSchema(schema),
        MigrationFault::NoSchema => OpenFault::Damaged(Table::Meta),
        MigrationFault::Store => OpenFault::Store,
        MigrationFault::Memory => OpenFault::Memory,
    }
}

// It is written out, so that a caller does not prove again how each part is dropped.
impl<S: Alter + Drop> Drop for SqlStore<S> {
    fn drop(self) {
        let SqlStore {
            conn: _,
            heap: _,
            refusals: _,
        } = self;
    }
}

impl<S: Alter> SqlStore<S> {
    /// A store over the connection, in which no transaction runs. No call is made.
    pub fn new(conn: Connection<S>, heap: Global) -> SqlStore<S>
        requires { conn.in_transaction ≡ false }
        ensures conn { result.conn ≡ conn }
        ensures none { result.refusals ≡ 0 }
    {
        SqlStore {
            conn,
            heap,
            refusals: 0,
        }
    }

    /// Its connection.
    pub fn into_connection(self) -> Connection<S>
        ensures { result ≡ self.conn }
    {
        let SqlStore {
            conn: inner,
            heap: _,
            refusals: _,
        } = self;
        inner
    }

    /// Makes the tables of a new desk, all or none, in a database that has no table.
    ///
    /// # Errors
    /// `StoreFault` where there is a table already, and then the database is not touched; or where the
    /// store refused: the tables are those before, if it is still open. Both are counted.
    pub fn init(&mut self) -> Result<(), StoreFault>
        ensures clean { HasCleanDisk (state S.Store self.new.conn) → HasCleanDisk (state S.Store self.old.conn) }
        ensures done { HasCleanDisk (state S.Store self.new.conn) → OnOk result (IsTrue (state S.Store self.new.conn).is_open × IsReady (state S.Store self.new.conn) × IsNewDesk (tables_of (state S.Store self.new.conn).now.trees)) }
        ensures failed { HasCleanDisk (state S.Store self.new.conn) → OnErr result (IsTrue (state S.Store self.new.conn).is_open → IsTrue (state S.Store self.old.conn).is_open × ((state S.Store self.new.conn).now ≡ (state S.Store self.old.conn).now)) }
        ensures fresh { OnOk result ((state S.Store self.old.conn).now.schema.tables ≡ []) }
        ensures filled { (state S.Store self.old.conn).now.schema.tables ≢ [] → self.new.conn ≡ self.old.conn }
        ensures counted { OnErr result (Rises self.old.refusals self.new.refusals) }
        ensures uncounted { OnOk result (self.new.refusals ≡ self.old.refusals) }
        ensures stop { HasCleanDisk (state S.Store self.new.conn) → (left : Tables) → Leaves (state S.Store self.new.conn).may_leave left → Leaves (state S.Store self.old.conn).may_leave left ⊎ IsNewDesk left }
    {
        let _outside = self.conn.is_autocommit();
        if !has_no_table(&self.conn) {
            self.refusals = raised(self.refusals);
            return Err(StoreFault);
        }
        match init(&mut self.conn, self.heap) {
            Ok(()) => Ok(()),
            Err(_) => {
                self.refusals = raised(self.refusals);
                Err(StoreFault)
            }
        }
    }
}

impl<A: Allocator + Copy, S: Alter + Drop> Store<A> for SqlStore<S> {
    ghost use Rattle.fab_store.specs.Laws.{settled_tables};

    ghost is_clean = { λ s. HasCleanDisk (state S.Store s.conn) };

    ghost is_open = { λ s. IsTrue (state S.Store s.conn).is_open };

    ghost is_ready = { λ s. IsReady (state S.Store s.conn) };

    ghost is_old = { λ s. IsOld (state S.Store s.conn) };

    ghost is_known = { λ s. IsKnown (state S.Store s.conn).now.schema };

    ghost tables = { λ s. tables_of (state S.Store s.conn).now.trees };

    ghost may_leave = { λ s. Leaves (state S.Store s.conn).may_leave };

    ghost refused = { λ s. s.refusals };

    ghost settled = { λ s left is_open ready may. settled_tables _ left is_open ready (λ db is leaves. S.Store.settled s.conn.store db is leaves) may };

    fn refusals(&self) -> u64 {
        self.refusals
    }

    fn load(&mut self, alloc: A) -> Result<World<A>, OpenFault> {
        let _outside = self.conn.is_autocommit();
        match load_world(alloc, self.heap, &mut self.conn) {
            Ok(world) => Ok(world),
            Err(fault) => {
                self.refusals = counted(self.refusals, fault);
                Err(fault)
            }
        }
    }

    fn migrate(&mut self) -> Result<bool, OpenFault> {
        let _outside = self.conn.is_autocommit();
        match migrate(&mut self.conn, self.heap) {
            Ok(changed) => Ok(changed),
            Err(fault) => {
                let fault = unmigrated(fault);
                self.refusals = counted(self.refusals, fault);
                Err(fault)
            }
        }
    }

    fn commit(&mut self, changes: &LineChanges<A>) -> Result<(), StoreFault> {
        match apply(&mut self.conn, changes) {
            Ok(()) => Ok(()),
            Err(_) => {
                self.refusals = raised(self.refusals);
                Err(StoreFault)
            }
        }
    }

    fn paths_of(&mut self, alloc: A, host: &Name) -> Result<Vec<Path, A>, StoreFault> {
        match find_paths(alloc, self.heap, &mut self.conn, host) {
            Ok(paths) => Ok(paths),
            Err(fault) => {
                self.refusals = raised(self.refusals);
                Err(fault)
            }
        }
    }
}
