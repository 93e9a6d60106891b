//! Laws of rows: each is the contract of a function that does nothing.
ghost use Rattle.std.specs.Prelude.{◌≡◌, List};
ghost use Rattle.fab_reach_base.specs.fab_inventory.Inventories.{InventoryRows};
ghost use Rattle.fab_reach_base.specs.fab_lemmas.Lists.{IsListOf};
ghost use Rattle.fab_reach_base.specs.Records.{ConfigRows};
ghost use Rattle.fab_reach_base.specs.Soundness.{HasSoundZonings};
ghost use Rattle.fab_store_rows.specs.RowOrder.{row_cmp, row_order};
ghost use Rattle.fab_store_rows.specs.Standing.{Stands};
ghost use Rattle.fab_store_rows.specs.Telling.{HaveSameRows, KnowSameRows};
ghost use Rattle.fab_store_rows.specs.declared.config_row.ConfigRow.{ConfigRow};

/// Rows of a configuration are ordered by table, and then by its columns.
pub fn rows_in_order()
    ensures { (a b : ConfigRow) → row_cmp a b ≡ row_order a b }
{}

/// Configurations in which the same rows stand are equal, where each zoning is its fabric's and
/// sound.
pub fn one_config()
    ensures { (c d : ConfigRows) → HasSoundZonings c → HasSoundZonings d → HaveSameRows c d → c ≡ d }
{}

/// Inventories in which the same rows of tables stand are equal.
pub fn one_inventory()
    ensures { (v w : InventoryRows) → KnowSameRows v w → v ≡ w }
{}

/// Two lists of all rows of one configuration are equal.
pub fn one_list_of_rows()
    ensures { (c : ConfigRows) (xs ys : List ConfigRow) → IsListOf row_order (Stands c) xs → IsListOf row_order (Stands c) ys → xs ≡ ys }
{}
