//! Tables of schema 1 brought to schema 2, in one transaction.
ghost use Rattle.std.specs.Prelude.{◌≡◌, false, IfErr, IfOk, OnErr, IsTrue};
ghost use Rattle.sqlite.specs.State.{HasCleanDisk, KeepsCommit, Survives};
ghost use Rattle.sqlite.specs.Held.{state};
ghost use Rattle.fab_store_tables.specs.Versions.{TellsVersion, IsMigrated};
ghost use Rattle.fab_store_sql.specs.Reading.{Stays};
ghost use Rattle.fab_store_sql.specs.Trees.{tables_of};
ghost use Rattle.fab_store_migration.specs.Judging.{MigratesNot};
ghost use Rattle.fab_store_migration.specs.Migrations.{IsKnown, IsOld, IsPresent, IsRaised, IsSeenOld, IsShaped, old_schema};
ghost use Rattle.fab_store_migration.specs.declared.judging.Shape.TheVariants.{Present};
ghost use Rattle.fab_store_sql.specs.Schema.{desk_schema};

use crate::judging::{MigrationFault, Shape, judged};
use crate::raising::raise;
use crate::settings::settings_in;
use fab_store_sql::{ALL, ReadFault, has_tables};
use fab_store_tables::schema_told;
use sqlite::{Alter, Connection, Transaction};
use std::alloc::Global;

/// Which tables the connection has.
fn shape_of<S: Alter>(conn: &Connection<S>) -> Shape
    ensures { IsShaped (state S.Store conn.now).now.schema result }
{
    if has_tables(conn, &ALL) {
        return Shape::Present;
    }
    if has_old_tables(conn) {
        return Shape::Old;
    }
    Shape::Other
}

/// Whether the connection has the tables of schema 1, and nothing else: true only if it has.
fn has_old_tables<S: Alter>(conn: &Connection<S>) -> bool
    ensures { IsTrue result → (state S.Store conn.now).now.schema ≡ old_schema }
{
    has_tables(conn, &ALL[..12])
}

/// Brings the tables to the present schema in the transaction, if they are those of schema 1, and tells
/// whether it changed them.
fn try_raise<S: Alter>(
    tx: &mut Transaction<'_, S>,
    shape: Shape,
    heap: Global,
) -> Result<bool, MigrationFault>
    ensures same_reference { tx.new.conn.ghost_name ≡ tx.old.conn.ghost_name }
    ensures done { HasCleanDisk (state S.Store tx.new.conn.now) → IsTrue (state S.Store tx.old.conn.now).in_transaction → IsShaped (state S.Store tx.old.conn.now).now.schema shape → IfOk result (λ changed. IsTrue changed → IsSeenOld (state S.Store tx.old.conn.now) × IsRaised (state S.Store tx.old.conn.now) (state S.Store tx.new.conn.now)) }
    ensures kept { HasCleanDisk (state S.Store tx.new.conn.now) → IsTrue (state S.Store tx.old.conn.now).in_transaction → IsShaped (state S.Store tx.old.conn.now).now.schema shape → KeepsCommit (state S.Store tx.old.conn.now) (state S.Store tx.new.conn.now) }
    ensures present { IfOk result (λ changed. changed ≡ false → shape ≡ Present) }
    ensures fault { HasCleanDisk (state S.Store tx.new.conn.now) → IsKnown (state S.Store tx.old.conn.now).now.schema → IfErr result (MigratesNot (tables_of (state S.Store tx.old.conn.now).now.trees)) }
    ensures survives { Survives (state S.Store tx.old.conn.now) (state S.Store tx.new.conn.now) (λ _. ⊥) }
{
    let lines = match settings_in(tx, heap) {
        Ok(lines) => lines,
        Err(ReadFault::Memory) => return Err(MigrationFault::Memory),
        Err(_) => return Err(MigrationFault::Store),
    };
    let older = match judged(schema_told(lines.as_slice()), shape) {
        Ok(older) => older,
        Err(fault) => return Err(fault),
    };
    if !older {
        return Ok(false);
    }
    match raise(tx) {
        Ok(()) => Ok(true),
        Err(_) => Err(MigrationFault::Store),
    }
}

/// Brings the tables to the present schema, in one transaction, and tells whether it changed them: it
/// changes those of schema 1, and leaves those of the present schema.
///
/// # Errors
/// `NewerSchema` where the settings tell a newer schema; `NoSchema` where they tell none that ever was;
/// `Store` where there are no settings, the tables are not those of the schema that is told, or the
/// database refused a call; `Memory`. The database is as it was, if the connection is still open.
pub fn migrate<S: Alter>(conn: &mut Connection<S>, heap: Global) -> Result<bool, MigrationFault>
    requires outside { conn.old.in_transaction ≡ false }
    ensures outside { conn.new.in_transaction ≡ false }
    ensures unchanged { HasCleanDisk (state S.Store conn.new) → IfOk result (λ changed. changed ≡ false → Stays (state S.Store conn.old) (state S.Store conn.new)) }
    ensures done { HasCleanDisk (state S.Store conn.new) → IfOk result (λ changed. IsTrue changed → IsOld (state S.Store conn.old) × IsPresent (state S.Store conn.new) × IsMigrated (tables_of (state S.Store conn.old).now.trees) (tables_of (state S.Store conn.new).now.trees)) }
    ensures present { IfOk result (λ changed. changed ≡ false → (state S.Store conn.old).now.schema ≡ desk_schema) }
    ensures failed { HasCleanDisk (state S.Store conn.new) → OnErr result (Stays (state S.Store conn.old) (state S.Store conn.new)) }
    ensures fault { HasCleanDisk (state S.Store conn.new) → IsKnown (state S.Store conn.old).now.schema → IfErr result (MigratesNot (tables_of (state S.Store conn.old).now.trees)) }
    ensures crash { Survives (state S.Store conn.old) (state S.Store conn.new) (λ trees. IsOld (state S.Store conn.old) × IsMigrated (tables_of (state S.Store conn.old).now.trees) (tables_of trees)) }
{
    let shape = shape_of(conn);
    let _outside = conn.is_autocommit();
    let mut tx = conn.transaction();
    match try_raise(&mut tx, shape, heap) {
        Ok(true) => {}
        Ok(false) => return Ok(false),
        Err(fault) => return Err(fault),
    }
    match tx.commit() {
        Ok(()) => Ok(true),
        Err(_) => Err(MigrationFault::Store),
    }
}

/// Whether the database has the tables of schema 1, and these tell it: true only if so. It is as it was.
pub fn has_old_schema<S: Alter>(conn: &mut Connection<S>, heap: Global) -> bool
    requires outside { conn.old.in_transaction ≡ false }
    ensures outside { conn.new.in_transaction ≡ false }
    ensures told { HasCleanDisk (state S.Store conn.new) → IsTrue result → TellsVersion (tables_of (state S.Store conn.old).now.trees) 1 }
    ensures stays { HasCleanDisk (state S.Store conn.new) → Stays (state S.Store conn.old) (state S.Store conn.new) }
    ensures survives { Survives (state S.Store conn.old) (state S.Store conn.new) (λ _. ⊥) }
{
    if !has_old_tables(conn) {
        return false;
    }
    let mut tx = conn.transaction();
    match settings_in(&mut tx, heap) {
        Ok(lines) => schema_told(lines.as_slice()) == Some(1),
        Err(_) => false,
    }
}
