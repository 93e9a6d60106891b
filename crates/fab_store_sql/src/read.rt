//! Reads of whole tables.
ghost use Rattle.std.specs.Prelude.{◌≡◌, [], ◌∷◌, ◌++◌, false, map, IfOk, OnOk, IsTrue};
ghost use Rattle.sqlite.specs.State.{HasCleanDisk, IsUnchanged, Shown, Survives};
ghost use Rattle.sqlite.specs.Given.{IsPlain};
ghost use Rattle.sqlite.specs.Listing.{understood};
ghost use Rattle.sqlite.specs.Values.{bound};
ghost use Rattle.fab_store_load.specs.declared.fault.Table.TheVariants as table;
ghost use Rattle.fab_store_tables.specs.Columns.{path_row};
ghost use Rattle.sqlite.specs.Held.{state};
ghost use Rattle.fab_store_sql.specs.Schema.{desk_schema};
ghost use Rattle.fab_store_sql.specs.Trees.{tree_of, show_of, tables_of};
ghost use Rattle.fab_store_sql.specs.Rows.{IsKeyed};
ghost use Rattle.fab_store_sql.specs.States.{IsReady};
ghost use Rattle.fab_store_sql.specs.Reading.{AreShown, AreStreamed, IsAny, IsOfHost, DoRise, AreLinesOf, Stays};

use crate::line::Line;
use crate::{ALL, has_tables, paths_text, select_text};
use fab_store_columns::PathLine;
use fab_store_tables::Table;
use sqlite::types::ValueRef;
use sqlite::{Alter, Connection, Error, Row, params};
use std::alloc::Global;

/// Why a table is not read.
#[derive(Debug, Drop)]
pub enum ReadFault {
    /// The database refused the query.
    Store(Error),
    /// There was no memory.
    Memory,
    /// The tables are not those of the schema, rowids do not rise, or a column is not of its type.
    Odd,
}

/// Whether the rowids rise.
pub fn rise(rows: &[Row]) -> bool
    ensures { IsTrue result → DoRise rows.now }
{
    let mut last = i64::MIN;
    for row in rows {
        let Ok(id) = row.get::<i64>(0) else {
            return false;
        };
        if id <= last {
            return false;
        }
        last = id;
    }
    true
}

/// The line that a row shows.
fn line_from<L: Line>(shown: &Row) -> Result<L, ReadFault>
    ensures { IfOk result (λ line. show_of L.Line.place shown.now ≡ L.Line.row line) }
{
    match L::read(shown) {
        Ok(line) => Ok(line),
        Err(Error::SqliteFailure(_)) => Err(ReadFault::Memory),
        Err(_) => Err(ReadFault::Odd),
    }
}

/// The lines that the rows show.
///
/// # Errors
/// `Odd` where a column is not of its type; `Memory`.
pub fn lines_from<L: Line>(alloc: Global, rows: &[Row]) -> Result<Vec<L>, ReadFault>
    ensures { IfOk result (λ lines. map L.Line.row lines.items ≡ map (show_of L.Line.place) rows.now) }
{
    let mut lines = Vec::new(alloc);
    for row in rows {
        let line = line_from(row)?;
        match lines.push(line) {
            Ok(()) => {}
            Err(_) => return Err(ReadFault::Memory),
        }
    }
    Ok(lines)
}

/// The answer of a query that only reads.
fn ask<S: Alter>(
    conn: &mut Connection<S>,
    text: &str,
    params: &[ValueRef<'_>],
) -> Result<Vec<Row>, ReadFault>
    ensures shown { HasCleanDisk (state S.Store conn.new) → IfOk result (λ rows. Shown text.now (bound params.now) (state S.Store conn.old) (state S.Store conn.new) rows.items) }
    ensures schema { OnOk result ((state S.Store conn.old).now.schema ≡ desk_schema) }
    ensures same { HasCleanDisk (state S.Store conn.new) → IsPlain (understood desk_schema text.now) → OnOk result (IsUnchanged (state S.Store conn.old) (state S.Store conn.new)) }
    ensures stays { HasCleanDisk (state S.Store conn.new) → IsPlain (understood desk_schema text.now) → Stays (state S.Store conn.old) (state S.Store conn.new) }
    ensures outside { conn.old.in_transaction ≡ false → conn.new.in_transaction ≡ false }
    ensures survives { IsPlain (understood desk_schema text.now) → Survives (state S.Store conn.old) (state S.Store conn.new) (λ _. ⊥) }
{
    if !has_tables(conn, &ALL) {
        return Err(ReadFault::Odd);
    }
    match conn.query_all(text, params) {
        Ok(rows) => Ok(rows),
        Err(error) => Err(ReadFault::Store(error)),
    }
}

/// The rows of the table, each behind its rowid.
fn query_rows<S: Alter>(conn: &mut Connection<S>, table: Table) -> Result<Vec<Row>, ReadFault>
    ensures shown { HasCleanDisk (state S.Store conn.new) → IfOk result (λ rows. AreShown table IsAny (state S.Store conn.old).now.trees rows.items) }
    ensures schema { OnOk result ((state S.Store conn.old).now.schema ≡ desk_schema) }
    ensures same { HasCleanDisk (state S.Store conn.new) → OnOk result (IsUnchanged (state S.Store conn.old) (state S.Store conn.new)) }
    ensures stays { HasCleanDisk (state S.Store conn.new) → Stays (state S.Store conn.old) (state S.Store conn.new) }
    ensures outside { conn.old.in_transaction ≡ false → conn.new.in_transaction ≡ false }
    ensures survives { Survives (state S.Store conn.old) (state S.Store conn.new) (λ _. ⊥) }
{
    ask(conn, select_text(table), &[])
}

/// Puts the line that a row shows behind the others.
fn take<L: Line>(lines: &mut Vec<L>, shown: &Row) -> Result<(), ReadFault>
    ensures { OnOk result (map L.Line.row lines.new.items ≡ map L.Line.row lines.old.items ++ show_of L.Line.place shown.now ∷ []) }
{
    let line = line_from(shown)?;
    match lines.push(line) {
        Ok(()) => Ok(()),
        Err(_) => Err(ReadFault::Memory),
    }
}

/// The lines that a query shows, each made of its row when that is read, so that no list of rows is
/// held.
fn stream<S: Alter, L: Line>(
    conn: &mut Connection<S>,
    alloc: Global,
    text: &str,
    params: &[ValueRef<'_>],
) -> Result<Vec<L>, ReadFault>
    requires plain { IsPlain (understood (state S.Store conn.old).now.schema text.now) }
    ensures shown { HasCleanDisk (state S.Store conn.new) → IfOk result (λ lines. AreStreamed L.Line.row (show_of L.Line.place) text.now (bound params.now) (state S.Store conn.old) (state S.Store conn.new) lines.items) }
    ensures same { HasCleanDisk (state S.Store conn.new) → OnOk result (IsUnchanged (state S.Store conn.old) (state S.Store conn.new)) }
    ensures stays { HasCleanDisk (state S.Store conn.new) → Stays (state S.Store conn.old) (state S.Store conn.new) }
    ensures outside { conn.old.in_transaction ≡ false → conn.new.in_transaction ≡ false }
    ensures survives { Survives (state S.Store conn.old) (state S.Store conn.new) (λ _. ⊥) }
{
    let mut lines = Vec::new(alloc);
    let mut rows = match conn.query(text, params) {
        Ok(rows) => rows,
        Err(error) => return Err(ReadFault::Store(error)),
    };
    'rows: for _ in 0..u64::MAX {
        match rows.advance() {
            Ok(()) => {}
            Err(error) => return Err(ReadFault::Store(error)),
        }
        let Some(row) = rows.get() else {
            return Ok(lines);
        };
        take(&mut lines, row)?;
    }
    Err(ReadFault::Memory)
}

/// All lines of a table. The database is as it was.
///
/// # Errors
/// `Store` where the query was refused; `Odd` where the tables are not those of the schema, rowids
/// do not rise, or a column is not of its type; `Memory`.
#[tactic(auto, using(crate::proofs::Showings::ready_still))]
pub fn read_all<S: Alter, L: Line>(
    conn: &mut Connection<S>,
    alloc: Global,
) -> Result<Vec<L>, ReadFault>
    ensures lines { HasCleanDisk (state S.Store conn.new) → IfOk result (λ lines. AreLinesOf L.Line.row IsAny (tables_of (state S.Store conn.old).now.trees L.Line.place) lines.items) }
    ensures keyed { HasCleanDisk (state S.Store conn.new) → OnOk result (IsKeyed (show_of L.Line.place) ((state S.Store conn.old).now.trees (tree_of L.Line.place))) }
    ensures schema { OnOk result ((state S.Store conn.old).now.schema ≡ desk_schema) }
    ensures same { HasCleanDisk (state S.Store conn.new) → OnOk result (IsUnchanged (state S.Store conn.old) (state S.Store conn.new)) }
    ensures stays { HasCleanDisk (state S.Store conn.new) → Stays (state S.Store conn.old) (state S.Store conn.new) }
    ensures ready { HasCleanDisk (state S.Store conn.new) → conn.old.in_transaction ≡ false → IsReady (state S.Store conn.old) → IsReady (state S.Store conn.new) }
    ensures outside { conn.old.in_transaction ≡ false → conn.new.in_transaction ≡ false }
    ensures survives { Survives (state S.Store conn.old) (state S.Store conn.new) (λ _. ⊥) }
{
    let rows = query_rows(conn, L::table())?;
    if !rise(rows.as_slice()) {
        return Err(ReadFault::Odd);
    }
    lines_from(alloc, rows.as_slice())
}

/// The lines of the paths of the host. The database is as it was.
///
/// # Errors
/// As for `read_all`, but that rowids are not looked at.
#[tactic(auto, using(crate::proofs::Showings::ready_still))]
pub fn read_paths_of<S: Alter>(
    conn: &mut Connection<S>,
    alloc: Global,
    host: &str,
) -> Result<Vec<PathLine<Global>>, ReadFault>
    ensures lines { HasCleanDisk (state S.Store conn.new) → IfOk result (λ lines. AreLinesOf path_row (IsOfHost host.now) (tables_of (state S.Store conn.old).now.trees table.Paths) lines.items) }
    ensures schema { OnOk result ((state S.Store conn.old).now.schema ≡ desk_schema) }
    ensures same { HasCleanDisk (state S.Store conn.new) → OnOk result (IsUnchanged (state S.Store conn.old) (state S.Store conn.new)) }
    ensures stays { HasCleanDisk (state S.Store conn.new) → Stays (state S.Store conn.old) (state S.Store conn.new) }
    ensures ready { HasCleanDisk (state S.Store conn.new) → conn.old.in_transaction ≡ false → IsReady (state S.Store conn.old) → IsReady (state S.Store conn.new) }
    ensures outside { conn.old.in_transaction ≡ false → conn.new.in_transaction ≡ false }
    ensures survives { Survives (state S.Store conn.old) (state S.Store conn.new) (λ _. ⊥) }
{
    if !has_tables(conn, &ALL) {
        return Err(ReadFault::Odd);
    }
    stream(conn, alloc, paths_text(), params![host])
}
