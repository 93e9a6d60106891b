//! One statement for a line.
ghost use Rattle.std.specs.Prelude.{◌≡◌, OnOk};
ghost use Rattle.sqlite.specs.State.{HasCleanDisk, KeepsCommit, Survives};
ghost use Rattle.sqlite.specs.Held.{state};
ghost use Rattle.fab_store_sql.specs.States.{IsInside, IsOf, HasKey, Gains, Loses, Walks};

use crate::values::{key_width, values_of};
use crate::{delete_text, insert_text};
use fab_store_tables::TableLine;
use sqlite::{Alter, Error, Transaction};
use std::alloc::Allocator;

/// Adds the row of the line to its table.
pub(crate) fn insert_line<S: Alter, A: Allocator + Copy>(
    tx: &mut Transaction<'_, S>,
    line: &TableLine<A>,
) -> Result<(), Error>
    ensures same_reference { tx.new.conn.ghost_name ≡ tx.old.conn.ghost_name }
    ensures done { HasCleanDisk (state S.Store tx.new.conn.now) → IsInside (state S.Store tx.old.conn.now) → OnOk result (Walks (Gains (IsOf line.now)) (state S.Store tx.old.conn.now) (state S.Store tx.new.conn.now)) }
    ensures kept { HasCleanDisk (state S.Store tx.new.conn.now) → IsInside (state S.Store tx.old.conn.now) → KeepsCommit (state S.Store tx.old.conn.now) (state S.Store tx.new.conn.now) }
    ensures survives { Survives (state S.Store tx.old.conn.now) (state S.Store tx.new.conn.now) (λ _. ⊥) }
{
    let values = values_of(line);
    let row = &values.cells[..values.count];
    let _count = tx.execute(insert_text(values.table), row)?;
    Ok(())
}

/// Takes the row with the key of the line out of its table.
pub(crate) fn delete_line<S: Alter, A: Allocator + Copy>(
    tx: &mut Transaction<'_, S>,
    line: &TableLine<A>,
) -> Result<(), Error>
    ensures same_reference { tx.new.conn.ghost_name ≡ tx.old.conn.ghost_name }
    ensures done { HasCleanDisk (state S.Store tx.new.conn.now) → IsInside (state S.Store tx.old.conn.now) → OnOk result (Walks (Loses (HasKey line.now)) (state S.Store tx.old.conn.now) (state S.Store tx.new.conn.now)) }
    ensures kept { HasCleanDisk (state S.Store tx.new.conn.now) → IsInside (state S.Store tx.old.conn.now) → KeepsCommit (state S.Store tx.old.conn.now) (state S.Store tx.new.conn.now) }
    ensures survives { Survives (state S.Store tx.old.conn.now) (state S.Store tx.new.conn.now) (λ _. ⊥) }
{
    let values = values_of(line);
    let key = &values.cells[..key_width(values.table)];
    let _count = tx.execute(delete_text(values.table), key)?;
    Ok(())
}
