//! A line shows one row at most, and a row is shown by one line: the contract of a function that
//! does nothing.
ghost use Rattle.std.specs.Prelude.{◌≡◌};
ghost use Rattle.fab_store_rows.specs.declared.record_row.UndoRow.{UndoRow};
ghost use Rattle.fab_store_tables.specs.UndoLines.{UndoColumns, ShowsUndo};

/// Lines of `undo`.
pub fn changes()
    ensures row { (l : UndoColumns) (p q : UndoRow) → ShowsUndo l p → ShowsUndo l q → p ≡ q }
    ensures line { (l m : UndoColumns) (r : UndoRow) → ShowsUndo l r → ShowsUndo m r → l ≡ m }
{}
