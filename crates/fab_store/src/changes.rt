//! Changes of the tables, in one transaction.
ghost use Rattle.std.specs.Prelude.{◌≡◌, ◌⊎◌, false, OnOk, OnErr, IsTrue};
ghost use Rattle.sqlite.specs.State.{HasCleanDisk, IsLive, IsUnchanged, IsRolledBack, Survives};
ghost use Rattle.sqlite.specs.Held.{state};
ghost use Rattle.fab_store_tables.specs.Tables.{CanChange, AreChanged};
ghost use Rattle.fab_store_sql.specs.Trees.{tables_of};
ghost use Rattle.fab_store_sql.specs.States.{IsReady, IsServing};

use fab_store_sql::{change_rows, delete_text};
use fab_store_tables::{LineChanges, Table};
use sqlite::{Alter, Connection, Error};
use std::alloc::Allocator;

/// Whether the connection is open: a fault where it is not.
fn check_open<S: Alter>(conn: &mut Connection<S>) -> Result<(), Error>
    ensures outside { conn.old.in_transaction ≡ false → conn.new.in_transaction ≡ false }
    ensures same { HasCleanDisk (state S.Store conn.new) → OnOk result (IsUnchanged (state S.Store conn.old) (state S.Store conn.new)) }
    ensures live { OnOk result (IsLive (state S.Store conn.new)) }
    ensures failed { HasCleanDisk (state S.Store conn.new) → OnErr result (IsUnchanged (state S.Store conn.old) (state S.Store conn.new) ⊎ IsRolledBack (state S.Store conn.old) (state S.Store conn.new)) }
    ensures survives { Survives (state S.Store conn.old) (state S.Store conn.new) (λ _. ⊥) }
{
    let _statement = conn.prepare(delete_text(Table::Meta))?;
    // It tells that the rows are of the kinds of their columns.
    let _schema = conn.schema();
    Ok(())
}

/// Makes the changes over an open connection.
fn change<S: Alter, A: Allocator + Copy>(
    conn: &mut Connection<S>,
    changes: &LineChanges<A>,
) -> Result<(), Error>
    requires outside { conn.old.in_transaction ≡ false }
    ensures outside { conn.new.in_transaction ≡ false }
    ensures done { HasCleanDisk (state S.Store conn.new) → IsServing (state S.Store conn.old) → CanChange changes.now (tables_of (state S.Store conn.old).now.trees) → OnOk result (IsServing (state S.Store conn.new) × AreChanged changes.now (tables_of (state S.Store conn.old).now.trees) (tables_of (state S.Store conn.new).now.trees)) }
    ensures failed { HasCleanDisk (state S.Store conn.new) → IsServing (state S.Store conn.old) → OnErr result (IsTrue (state S.Store conn.new).is_open → IsServing (state S.Store conn.new) × ((state S.Store conn.new).now ≡ (state S.Store conn.old).now)) }
    ensures crash { Survives (state S.Store conn.old) (state S.Store conn.new) (λ trees. IsServing (state S.Store conn.old) → CanChange changes.now (tables_of (state S.Store conn.old).now.trees) → AreChanged changes.now (tables_of (state S.Store conn.old).now.trees) (tables_of trees)) }
{
    let mut tx = conn.transaction();
    change_rows(&mut tx, changes)?;
    tx.commit()
}

/// Makes the changes in one transaction.
///
/// # Errors
/// Where a statement or the commit fails: the tables are those before, if the connection is still open.
pub(crate) fn apply<S: Alter, A: Allocator + Copy>(
    conn: &mut Connection<S>,
    changes: &LineChanges<A>,
) -> Result<(), Error>
    requires outside { conn.old.in_transaction ≡ false }
    ensures outside { conn.new.in_transaction ≡ false }
    ensures ready { HasCleanDisk (state S.Store conn.new) → IsReady (state S.Store conn.old) → (IsTrue (state S.Store conn.old).is_open → CanChange changes.now (tables_of (state S.Store conn.old).now.trees)) → IsReady (state S.Store conn.new) }
    ensures done { HasCleanDisk (state S.Store conn.new) → IsReady (state S.Store conn.old) → (IsTrue (state S.Store conn.old).is_open → CanChange changes.now (tables_of (state S.Store conn.old).now.trees)) → OnOk result (IsTrue (state S.Store conn.old).is_open × IsTrue (state S.Store conn.new).is_open × AreChanged changes.now (tables_of (state S.Store conn.old).now.trees) (tables_of (state S.Store conn.new).now.trees)) }
    ensures failed { HasCleanDisk (state S.Store conn.new) → IsReady (state S.Store conn.old) → OnErr result (IsTrue (state S.Store conn.new).is_open → IsTrue (state S.Store conn.old).is_open × ((state S.Store conn.new).now ≡ (state S.Store conn.old).now)) }
    ensures crash { Survives (state S.Store conn.old) (state S.Store conn.new) (λ trees. IsReady (state S.Store conn.old) → (IsTrue (state S.Store conn.old).is_open → CanChange changes.now (tables_of (state S.Store conn.old).now.trees)) → IsTrue (state S.Store conn.old).is_open × AreChanged changes.now (tables_of (state S.Store conn.old).now.trees) (tables_of trees)) }
{
    check_open(conn)?;
    change(conn, changes)
}
