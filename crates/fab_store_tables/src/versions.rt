//! The schema that settings tell, whatever schema it is.
ghost use Rattle.std.specs.Prelude.{ℕ, MatchOption};
ghost use Rattle.fab_store_columns.specs.MetaLines.{meta_line};
ghost use Rattle.fab_store_tables.specs.Versions.{TellsSchema, TellSchema};

use fab_store_columns::MetaLine;
use fab_store_columns_base::read_decimal;
use std::alloc::Global;

/// The greatest number of a schema that settings can tell.
pub const MOST_SCHEMA: u64 = 18446744073709551615;

/// The schema that two columns tell, if they tell one.
fn schema_at(key: &str, value: &str) -> Option<u64>
    ensures { MatchOption result ((n : ℕ) → ¬ TellsSchema (meta_line key.now value.now) n) (TellsSchema (meta_line key.now value.now)) }
{
    match key {
        "schema" => read_decimal(value, MOST_SCHEMA),
        _ => None,
    }
}

/// The schema that a setting tells, if it tells one. It takes no memory.
pub fn schema_in(line: &MetaLine<Global>) -> Option<u64>
    ensures { MatchOption result ((n : ℕ) → ¬ TellsSchema line.now n) (TellsSchema line.now) }
{
    schema_at(line.key.as_str(), line.value.as_str())
}

/// The schema that one of the settings tells, if one does. It takes no memory.
pub fn schema_told(lines: &[MetaLine<Global>]) -> Option<u64>
    ensures { MatchOption result ((n : ℕ) → ¬ TellSchema lines.now n) (TellSchema lines.now) }
{
    for line in lines {
        if let Some(schema) = schema_in(line) {
            return Some(schema);
        }
    }
    None
}
