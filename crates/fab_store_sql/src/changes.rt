//! Rows that are taken out and added within a transaction.
ghost use Rattle.std.specs.Prelude.{◌≡◌, OnOk};
ghost use Rattle.sqlite.specs.State.{HasCleanDisk, KeepsCommit, Survives};
ghost use Rattle.sqlite.specs.Held.{state};
ghost use Rattle.fab_store_tables.specs.Tables.{IsAmong, CanChange, AreChanged};
ghost use Rattle.fab_store_sql.specs.Trees.{tables_of};
ghost use Rattle.fab_store_sql.specs.States.{IsInside, HasKeyAmong, Gains, Loses, Walks};

use crate::lines::{delete_line, insert_line};
use fab_store_tables::{LineChanges, TableLine};
use sqlite::{Alter, Error, Transaction};
use std::alloc::Allocator;

/// Takes out the rows with the keys of the lines.
///
/// # Errors
/// Where a statement fails: some of them may be gone within the transaction.
pub fn remove_all<S: Alter, A: Allocator + Copy>(
    tx: &mut Transaction<'_, S>,
    lines: &[TableLine<A>],
) -> Result<(), Error>
    ensures same_reference { tx.new.conn.ghost_name ≡ tx.old.conn.ghost_name }
    ensures done { HasCleanDisk (state S.Store tx.new.conn.now) → IsInside (state S.Store tx.old.conn.now) → OnOk result (Walks (Loses (HasKeyAmong lines.now)) (state S.Store tx.old.conn.now) (state S.Store tx.new.conn.now)) }
    ensures kept { HasCleanDisk (state S.Store tx.new.conn.now) → IsInside (state S.Store tx.old.conn.now) → KeepsCommit (state S.Store tx.old.conn.now) (state S.Store tx.new.conn.now) }
    ensures survives { Survives (state S.Store tx.old.conn.now) (state S.Store tx.new.conn.now) (λ _. ⊥) }
{
    for line in lines {
        delete_line(tx, line)?;
    }
    Ok(())
}

/// Adds the rows of the lines.
///
/// # Errors
/// Where a statement fails: some of them may be there within the transaction.
pub fn add_all<S: Alter, A: Allocator + Copy>(
    tx: &mut Transaction<'_, S>,
    lines: &[TableLine<A>],
) -> Result<(), Error>
    ensures same_reference { tx.new.conn.ghost_name ≡ tx.old.conn.ghost_name }
    ensures done { HasCleanDisk (state S.Store tx.new.conn.now) → IsInside (state S.Store tx.old.conn.now) → OnOk result (Walks (Gains (IsAmong lines.now)) (state S.Store tx.old.conn.now) (state S.Store tx.new.conn.now)) }
    ensures kept { HasCleanDisk (state S.Store tx.new.conn.now) → IsInside (state S.Store tx.old.conn.now) → KeepsCommit (state S.Store tx.old.conn.now) (state S.Store tx.new.conn.now) }
    ensures survives { Survives (state S.Store tx.old.conn.now) (state S.Store tx.new.conn.now) (λ _. ⊥) }
{
    for line in lines {
        insert_line(tx, line)?;
    }
    Ok(())
}

/// Makes the changes in the transaction.
///
/// # Errors
/// Where a statement fails: some of them may be made within the transaction.
pub fn change_rows<S: Alter, A: Allocator + Copy>(
    tx: &mut Transaction<'_, S>,
    changes: &LineChanges<A>,
) -> Result<(), Error>
    ensures same_reference { tx.new.conn.ghost_name ≡ tx.old.conn.ghost_name }
    ensures inside { HasCleanDisk (state S.Store tx.new.conn.now) → IsInside (state S.Store tx.old.conn.now) → OnOk result (IsInside (state S.Store tx.new.conn.now)) }
    ensures done { HasCleanDisk (state S.Store tx.new.conn.now) → IsInside (state S.Store tx.old.conn.now) → CanChange changes.now (tables_of (state S.Store tx.old.conn.now).now.trees) → OnOk result (Walks (AreChanged changes.now) (state S.Store tx.old.conn.now) (state S.Store tx.new.conn.now)) }
    ensures kept { HasCleanDisk (state S.Store tx.new.conn.now) → IsInside (state S.Store tx.old.conn.now) → KeepsCommit (state S.Store tx.old.conn.now) (state S.Store tx.new.conn.now) }
    ensures survives { Survives (state S.Store tx.old.conn.now) (state S.Store tx.new.conn.now) (λ _. ⊥) }
{
    remove_all(tx, changes.removed.as_slice())?;
    add_all(tx, changes.added.as_slice())
}
