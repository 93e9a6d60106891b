//! Tables of schema 1 brought to schema 2, inside a transaction.
ghost use Rattle.std.specs.Prelude.{◌≡◌, OnOk};
ghost use Rattle.sqlite.specs.declared.types.Value.TheVariants.{Text};
ghost use Rattle.sqlite.specs.State.{HasCleanDisk, KeepsCommit, Survives};
ghost use Rattle.sqlite.specs.Held.{state};
ghost use Rattle.fab_store_load.specs.declared.fault.Table.TheVariants as table;
ghost use Rattle.fab_store_tables.specs.Tables.{key_of};
ghost use Rattle.fab_store_tables.specs.Versions.{schema_key, schema_row};
ghost use Rattle.fab_store_sql.specs.Cells.{value_of};
ghost use Rattle.fab_store_sql.specs.Rows.{Adds, Removes};
ghost use Rattle.fab_store_sql.specs.Trees.{show_of};
ghost use Rattle.fab_store_migration.specs.Migrations.{IsBefore, IsRising, IsRaised, ChangesSettings};

use fab_store_sql::{create, delete_text, insert_text};
use fab_store_tables::Table;
use sqlite::types::ValueRef;
use sqlite::{Alter, Error, Transaction};

fn text<'a>(text: &'a str) -> ValueRef<'a>
    ensures { value_of result ≡ Text text.now }
{
    ValueRef::Text(text.as_bytes())
}

/// Takes out the setting that tells the schema.
fn forget_schema<S: Alter>(tx: &mut Transaction<'_, S>) -> Result<(), Error>
    ensures same_reference { tx.new.conn.ghost_name ≡ tx.old.conn.ghost_name }
    ensures done { HasCleanDisk (state S.Store tx.new.conn.now) → IsRising (state S.Store tx.old.conn.now) → OnOk result (ChangesSettings (Removes (show_of table.Meta) (λ c. key_of table.Meta c ≡ schema_key)) (state S.Store tx.old.conn.now) (state S.Store tx.new.conn.now)) }
    ensures kept { HasCleanDisk (state S.Store tx.new.conn.now) → IsRising (state S.Store tx.old.conn.now) → KeepsCommit (state S.Store tx.old.conn.now) (state S.Store tx.new.conn.now) }
    ensures survives { Survives (state S.Store tx.old.conn.now) (state S.Store tx.new.conn.now) (λ _. ⊥) }
{
    let key = [text("schema")];
    let _count = tx.execute(delete_text(Table::Meta), &key)?;
    Ok(())
}

/// Adds the setting that tells schema 2.
fn tell_schema<S: Alter>(tx: &mut Transaction<'_, S>) -> Result<(), Error>
    ensures same_reference { tx.new.conn.ghost_name ≡ tx.old.conn.ghost_name }
    ensures done { HasCleanDisk (state S.Store tx.new.conn.now) → IsRising (state S.Store tx.old.conn.now) → OnOk result (ChangesSettings (Adds (show_of table.Meta) schema_row) (state S.Store tx.old.conn.now) (state S.Store tx.new.conn.now)) }
    ensures kept { HasCleanDisk (state S.Store tx.new.conn.now) → IsRising (state S.Store tx.old.conn.now) → KeepsCommit (state S.Store tx.old.conn.now) (state S.Store tx.new.conn.now) }
    ensures survives { Survives (state S.Store tx.old.conn.now) (state S.Store tx.new.conn.now) (λ _. ⊥) }
{
    let row = [text("schema"), text("2")];
    let _count = tx.execute(insert_text(Table::Meta), &row)?;
    Ok(())
}

/// Makes the table of addresses, and has the settings tell schema 2.
///
/// # Errors
/// Where a statement fails.
pub(crate) fn raise<S: Alter>(tx: &mut Transaction<'_, S>) -> Result<(), Error>
    ensures same_reference { tx.new.conn.ghost_name ≡ tx.old.conn.ghost_name }
    ensures done { HasCleanDisk (state S.Store tx.new.conn.now) → IsBefore (state S.Store tx.old.conn.now) → OnOk result (IsRaised (state S.Store tx.old.conn.now) (state S.Store tx.new.conn.now)) }
    ensures kept { HasCleanDisk (state S.Store tx.new.conn.now) → IsBefore (state S.Store tx.old.conn.now) → KeepsCommit (state S.Store tx.old.conn.now) (state S.Store tx.new.conn.now) }
    ensures survives { Survives (state S.Store tx.old.conn.now) (state S.Store tx.new.conn.now) (λ _. ⊥) }
{
    create(tx, Table::Addresses)?;
    forget_schema(tx)?;
    tell_schema(tx)
}
