//! The tables of a new desk.
ghost use Rattle.std.specs.Prelude.{◌≡◌, false, IsTrue, IfOk, OnOk, OnErr};
ghost use Rattle.sqlite.specs.Effect.{IsDatabase};
ghost use Rattle.sqlite.specs.Held.{state};
ghost use Rattle.sqlite.specs.State.{HasCleanDisk, KeepsCommit, Survives};
ghost use Rattle.fab_store_sql.specs.Schema.{place_of};
ghost use Rattle.fab_store_sql.specs.Trees.{tables_of};
ghost use Rattle.fab_store_sql.specs.States.{IsInside, IsReady, IsServing};
ghost use Rattle.fab_store_sql.specs.Reading.{Stays};
ghost use Rattle.fab_store_sql.specs.NewDesk as spec;
ghost use Rattle.fab_store_sql.specs.NewDesk.{HasFirst, IsOneMore, HasMade, HaveJust, IsBlank, IsNewDesk};

use crate::changes::add_all;
use crate::{ALL, create_text};
use fab_store_columns::MetaLine;
use fab_store_tables::{Table, TableLine};
use sqlite::{Alter, Connection, Error, ErrorCode, Transaction};
use std::alloc::{AllocError, Global};

/// Makes the table, where those before it are there.
///
/// # Errors
/// Where the statement fails.
pub fn create<S: Alter>(tx: &mut Transaction<'_, S>, table: Table) -> Result<(), Error>
    ensures same_reference { tx.new.conn.ghost_name ≡ tx.old.conn.ghost_name }
    ensures made { HasCleanDisk (state S.Store tx.new.conn.now) → HasFirst (place_of table) (state S.Store tx.old.conn.now) → OnOk result (IsOneMore table (state S.Store tx.old.conn.now) (state S.Store tx.new.conn.now) × IsDatabase (state S.Store tx.new.conn.now).now) }
    ensures kept { HasCleanDisk (state S.Store tx.new.conn.now) → IsTrue (state S.Store tx.old.conn.now).in_transaction → KeepsCommit (state S.Store tx.old.conn.now) (state S.Store tx.new.conn.now) }
    ensures survives { Survives (state S.Store tx.old.conn.now) (state S.Store tx.new.conn.now) (λ _. ⊥) }
{
    let _count = tx.execute(create_text(table), &[])?;
    Ok(())
}

/// Makes the tables.
fn create_all<S: Alter>(tx: &mut Transaction<'_, S>) -> Result<(), Error>
    ensures same_reference { tx.new.conn.ghost_name ≡ tx.old.conn.ghost_name }
    ensures made { HasCleanDisk (state S.Store tx.new.conn.now) → HasMade 0 (state S.Store tx.old.conn.now) → OnOk result (HasMade 13 (state S.Store tx.new.conn.now) × IsDatabase (state S.Store tx.new.conn.now).now) }
    ensures kept { HasCleanDisk (state S.Store tx.new.conn.now) → HasMade 0 (state S.Store tx.old.conn.now) → KeepsCommit (state S.Store tx.old.conn.now) (state S.Store tx.new.conn.now) }
    ensures survives { Survives (state S.Store tx.old.conn.now) (state S.Store tx.new.conn.now) (λ _. ⊥) }
{
    for table in &ALL {
        create(tx, *table)?;
    }
    Ok(())
}

/// The line of a setting.
fn setting(alloc: Global, key: &str, value: &str) -> Result<TableLine<Global>, AllocError>
    ensures { IfOk result (λ line. line ≡ spec.setting key.now value.now) }
{
    Ok(TableLine::Meta(MetaLine {
        key: key.to_string(alloc)?,
        value: value.to_string(alloc)?,
    }))
}

/// The lines of a new desk.
fn new_lines(alloc: Global) -> Result<[TableLine<Global>; 6], AllocError>
    ensures { IfOk result (λ lines. lines ≡ spec.new_lines) }
{
    let schema = setting(alloc, "schema", "2")?;
    let revision = setting(alloc, "revision", "0")?;
    let active_a = setting(alloc, "active.A", "")?;
    let active_b = setting(alloc, "active.B", "")?;
    let default_a = setting(alloc, "default.A", "deny")?;
    let default_b = setting(alloc, "default.B", "deny")?;
    Ok([schema, revision, active_a, active_b, default_a, default_b])
}

/// Makes the tables, with these lines.
fn fill<S: Alter>(tx: &mut Transaction<'_, S>, lines: &[TableLine<Global>]) -> Result<(), Error>
    ensures same_reference { tx.new.conn.ghost_name ≡ tx.old.conn.ghost_name }
    ensures inside { HasCleanDisk (state S.Store tx.new.conn.now) → HasMade 0 (state S.Store tx.old.conn.now) → OnOk result (IsInside (state S.Store tx.new.conn.now)) }
    ensures done { HasCleanDisk (state S.Store tx.new.conn.now) → HasMade 0 (state S.Store tx.old.conn.now) → OnOk result (HaveJust lines.now (tables_of (state S.Store tx.new.conn.now).now.trees)) }
    ensures kept { HasCleanDisk (state S.Store tx.new.conn.now) → HasMade 0 (state S.Store tx.old.conn.now) → KeepsCommit (state S.Store tx.old.conn.now) (state S.Store tx.new.conn.now) }
    ensures survives { Survives (state S.Store tx.old.conn.now) (state S.Store tx.new.conn.now) (λ _. ⊥) }
{
    create_all(tx)?;
    add_all(tx, lines)
}

/// Makes the tables in one transaction, with these lines.
fn start<S: Alter>(conn: &mut Connection<S>, lines: &[TableLine<Global>]) -> Result<(), Error>
    requires outside { conn.old.in_transaction ≡ false }
    ensures outside { conn.new.in_transaction ≡ false }
    ensures done { HasCleanDisk (state S.Store conn.new) → IsBlank (state S.Store conn.old) → OnOk result (IsServing (state S.Store conn.new) × HaveJust lines.now (tables_of (state S.Store conn.new).now.trees)) }
    ensures failed { HasCleanDisk (state S.Store conn.new) → IsBlank (state S.Store conn.old) → OnErr result (Stays (state S.Store conn.old) (state S.Store conn.new)) }
    ensures crash { Survives (state S.Store conn.old) (state S.Store conn.new) (λ trees. IsBlank (state S.Store conn.old) → HaveJust lines.now (tables_of trees)) }
{
    let mut tx = conn.transaction();
    fill(&mut tx, lines)?;
    tx.commit()
}

/// Whether nothing is pending, and there is no table.
fn is_blank<S: Alter>(conn: &Connection<S>) -> bool
    ensures { IsTrue result → IsBlank (state S.Store conn.now) }
{
    let schema = conn.schema();
    conn.is_autocommit()
        && schema.tables.is_empty()
        && schema.indexes.is_empty()
        && schema.views.is_empty()
}

/// Makes the tables of a new desk in one transaction.
///
/// # Errors
/// Where there is a table already, a statement or the commit fails, or there is no memory: the
/// database is as it was, if the connection is still open.
pub fn init<S: Alter>(conn: &mut Connection<S>, alloc: Global) -> Result<(), Error>
    ensures outside { conn.old.in_transaction ≡ false → conn.new.in_transaction ≡ false }
    ensures fresh { OnOk result (IsBlank (state S.Store conn.old)) }
    ensures done { HasCleanDisk (state S.Store conn.new) → OnOk result (IsTrue (state S.Store conn.new).is_open × IsReady (state S.Store conn.new) × IsNewDesk (tables_of (state S.Store conn.new).now.trees)) }
    ensures failed { HasCleanDisk (state S.Store conn.new) → OnErr result (Stays (state S.Store conn.old) (state S.Store conn.new)) }
    ensures crash { Survives (state S.Store conn.old) (state S.Store conn.new) (λ trees. IsNewDesk (tables_of trees)) }
{
    let Ok(lines) = new_lines(alloc) else {
        return Err(Error::SqliteFailure(ErrorCode::OutOfMemory));
    };
    if !is_blank(conn) {
        return Err(Error::SqliteFailure(ErrorCode::NameTaken));
    }
    start(conn, &lines)
}
