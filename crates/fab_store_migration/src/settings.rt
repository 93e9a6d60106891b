//! The settings of a database, whatever its schema.
ghost use Rattle.std.specs.Prelude.{◌≡◌, IfOk, OnOk, IsTrue};
ghost use Rattle.sqlite.specs.State.{HasCleanDisk, IsUnchanged, KeepsCommit, Survives};
ghost use Rattle.sqlite.specs.Held.{state};
ghost use Rattle.fab_store_load.specs.declared.fault.Table.TheVariants as table;
ghost use Rattle.fab_store_tables.specs.Columns.{meta_row};
ghost use Rattle.fab_store_sql.specs.Reading.{AreLinesOf, AreShown, IsAny};
ghost use Rattle.fab_store_sql.specs.Trees.{tables_of};
ghost use Rattle.fab_store_migration.specs.Migrations.{IsKnown, HasKeyedSettings};

use fab_store_columns::MetaLine;
use fab_store_sql::{ReadFault, lines_from, rise, select_text};
use fab_store_tables::Table;
use sqlite::{Alter, Row, Transaction};
use std::alloc::Global;

/// The rows of the settings, each behind its rowid.
fn rows_in<S: Alter>(tx: &mut Transaction<'_, S>) -> Result<Vec<Row>, ReadFault>
    ensures same_reference { tx.new.conn.ghost_name ≡ tx.old.conn.ghost_name }
    ensures shown { HasCleanDisk (state S.Store tx.new.conn.now) → IsKnown (state S.Store tx.old.conn.now).now.schema → IfOk result (λ rows. AreShown table.Meta IsAny (state S.Store tx.old.conn.now).now.trees rows.items) }
    ensures same { HasCleanDisk (state S.Store tx.new.conn.now) → IsKnown (state S.Store tx.old.conn.now).now.schema → OnOk result (IsUnchanged (state S.Store tx.old.conn.now) (state S.Store tx.new.conn.now)) }
    ensures kept { HasCleanDisk (state S.Store tx.new.conn.now) → IsTrue (state S.Store tx.old.conn.now).in_transaction → KeepsCommit (state S.Store tx.old.conn.now) (state S.Store tx.new.conn.now) }
    ensures survives { Survives (state S.Store tx.old.conn.now) (state S.Store tx.new.conn.now) (λ _. ⊥) }
{
    match tx.query_all(select_text(Table::Meta), &[]) {
        Ok(rows) => Ok(rows),
        Err(error) => Err(ReadFault::Store(error)),
    }
}

/// The settings, in the transaction.
///
/// # Errors
/// `Store` where there is no such table, or the query was refused; `Odd` where its rowids do not rise,
/// or a column is no text; `Memory`.
pub(crate) fn settings_in<S: Alter>(
    tx: &mut Transaction<'_, S>,
    heap: Global,
) -> Result<Vec<MetaLine<Global>>, ReadFault>
    ensures same_reference { tx.new.conn.ghost_name ≡ tx.old.conn.ghost_name }
    ensures lines { HasCleanDisk (state S.Store tx.new.conn.now) → IsKnown (state S.Store tx.old.conn.now).now.schema → IfOk result (λ lines. AreLinesOf meta_row IsAny (tables_of (state S.Store tx.old.conn.now).now.trees table.Meta) lines.items) }
    ensures keyed { HasCleanDisk (state S.Store tx.new.conn.now) → IsKnown (state S.Store tx.old.conn.now).now.schema → OnOk result (HasKeyedSettings (state S.Store tx.old.conn.now).now) }
    ensures same { HasCleanDisk (state S.Store tx.new.conn.now) → IsKnown (state S.Store tx.old.conn.now).now.schema → OnOk result (IsUnchanged (state S.Store tx.old.conn.now) (state S.Store tx.new.conn.now)) }
    ensures kept { HasCleanDisk (state S.Store tx.new.conn.now) → IsTrue (state S.Store tx.old.conn.now).in_transaction → KeepsCommit (state S.Store tx.old.conn.now) (state S.Store tx.new.conn.now) }
    ensures survives { Survives (state S.Store tx.old.conn.now) (state S.Store tx.new.conn.now) (λ _. ⊥) }
{
    let rows = rows_in(tx)?;
    if !rise(rows.as_slice()) {
        return Err(ReadFault::Odd);
    }
    lines_from(heap, rows.as_slice())
}
