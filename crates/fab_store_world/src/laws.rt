//! Laws of rows of paths: each is the contract of a function that does nothing.
ghost use Rattle.std.specs.Prelude.{◌≡◌};
ghost use Rattle.fab_store_world.specs.Paths.{path_row_cmp, path_row_order};
ghost use Rattle.fab_world.specs.fab_store_rows.declared.record_row.PathRow.{PathRow};

/// Rows of paths are ordered by host, and then by path.
pub fn path_rows_in_order()
    ensures { (a b : PathRow) → path_row_cmp a b ≡ path_row_order a b }
{}
