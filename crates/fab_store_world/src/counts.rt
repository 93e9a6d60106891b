//! The schema and the revision from their rows.
ghost use Rattle.std.specs.Prelude.{◌≡◌, ◌↔◌, ℕ, All, Contains, IsTrue, MatchOption};
ghost use Rattle.fab_world.specs.fab_store_load.Inventories.{AreAll};
ghost use Rattle.fab_world.specs.fab_store_rows.declared.table_rows.CountRow.TheVariants.{Schema, Revision};
ghost use Rattle.fab_world.specs.fab_store_rows.Schemas.{present_schema};
ghost use Rattle.fab_store_world.specs.OpenedTables.{IsCount};

use fab_world::load::rows::{CountRow, SCHEMA};

/// Whether the rows tell this schema of the tables.
fn has_schema(rows: &[CountRow]) -> bool
    ensures { IsTrue result ↔ Contains rows.now (Schema present_schema) }
{
    rows.contains(&CountRow::Schema(SCHEMA))
}

/// The number of changes of a row that tells it.
fn changes_in(row: &CountRow) -> Option<u64>
    ensures { MatchOption result ((n : ℕ) → ¬ (row.now ≡ Revision n)) (λ n. row.now ≡ Revision n) }
{
    match row {
        CountRow::Revision(changes) => Some(*changes),
        CountRow::Schema(_) => None,
    }
}

/// The number of changes of the first row that tells it.
fn first_changes(rows: &[CountRow]) -> Option<u64>
    ensures { MatchOption result ((n : ℕ) → ¬ Contains rows.now (Revision n)) (λ n. Contains rows.now (Revision n)) }
{
    for row in rows {
        if let Some(changes) = changes_in(row) {
            return Some(changes);
        }
    }
    None
}

/// Whether the row tells the schema, or that there were so many changes.
fn is_count(row: &CountRow, revision: u64) -> bool
    ensures { IsTrue result ↔ IsCount revision row.now }
{
    match row {
        CountRow::Schema(schema) => *schema == SCHEMA,
        CountRow::Revision(changes) => *changes == revision,
    }
}

/// Whether each row tells the schema, or that there were so many changes.
fn are_counts(rows: &[CountRow], revision: u64) -> bool
    ensures { IsTrue result ↔ All (IsCount revision) rows.now }
{
    rows.iter().all(|row| is_count(row, revision))
}

/// The revision that the rows tell, beside the schema; none where they tell no schema or another,
/// no revision, or two.
pub fn revision_of(rows: &[CountRow]) -> Option<u64>
    ensures { MatchOption result ((n : ℕ) → ¬ AreAll rows.now (IsCount n)) (λ n. AreAll rows.now (IsCount n)) }
{
    if !has_schema(rows) {
        return None;
    }
    let Some(revision) = first_changes(rows) else {
        return None;
    };
    if are_counts(rows, revision) {
        Some(revision)
    } else {
        None
    }
}
