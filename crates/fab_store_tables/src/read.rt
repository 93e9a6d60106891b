//! The row that an entry shows.
ghost use Rattle.std.specs.Prelude.{◌≡◌, Bool, MatchOption};
ghost use Rattle.fab_store_tables.specs.Words.{digit_text};
ghost use Rattle.fab_store_rows.specs.declared.config_row.SettingRow.{SettingRow};
ghost use Rattle.fab_store_rows.specs.declared.config_row.ZoningRow.{ZoningRow};
ghost use Rattle.fab_store_rows.specs.declared.config_row.ActiveRow.{ActiveRow};
ghost use Rattle.fab_store_rows.specs.declared.config_row.GroupRow.{GroupRow};
ghost use Rattle.fab_store_rows.specs.declared.config_row.PartRow.{PartRow};
ghost use Rattle.fab_store_rows.specs.declared.config_row.ConfigRow.{ConfigRow};
ghost use Rattle.fab_store_rows.specs.declared.config_row.ConfigRow.TheVariants as row;
ghost use Rattle.fab_store_columns_base.specs.Columns.{flag_number};
ghost use Rattle.fab_store_columns.specs.GroupLines.{ShowsGroup, group_line};
ghost use Rattle.fab_store_tables.specs.UndoLines.{ShowsColumns, ShowsEntry, table_text};
ghost use Rattle.fab_store_tables.specs.Words.{words_of};

use crate::words::{first_word, five_words, four_words, three_words, two_words};
use fab_store_columns::{read_active, read_group, read_part, read_setting, read_zoning};
use fab_store_rows::{ActiveRow, ConfigRow, GroupRow, PartRow, SettingRow, ZoningRow};

/// The setting that the columns of `meta` show, if they show one.
fn setting_in(columns: &str) -> Option<SettingRow>
    ensures { MatchOption result ((r : SettingRow) → ¬ ShowsColumns (words_of columns.now) (row.Setting r))
        (λ r. ShowsColumns (words_of columns.now) (row.Setting r)) }
{
    let Some(words) = two_words(columns) else {
        return None;
    };
    read_setting(words.0, words.1)
}

/// The item that the columns of `zoning` show, if they show one.
fn zoning_in(columns: &str) -> Option<ZoningRow>
    ensures { MatchOption result ((r : ZoningRow) → ¬ ShowsColumns (words_of columns.now) (row.Zoning r))
        (λ r. ShowsColumns (words_of columns.now) (row.Zoning r)) }
{
    let Some(words) = four_words(columns) else {
        return None;
    };
    read_zoning(words.0, words.1, words.2, words.3)
}

/// The row that the columns of `active` show, if they show one.
fn active_in(columns: &str) -> Option<ActiveRow>
    ensures { MatchOption result ((r : ActiveRow) → ¬ ShowsColumns (words_of columns.now) (row.Active r))
        (λ r. ShowsColumns (words_of columns.now) (row.Active r)) }
{
    let Some(words) = three_words(columns) else {
        return None;
    };
    read_active(words.0, words.1, words.2)
}

/// The answer that the digit of a column of 0 and 1 is.
fn read_digit(digit: &str) -> Option<bool>
    ensures { MatchOption result ((b : Bool) → ¬ (digit.now ≡ digit_text b)) (λ b. digit.now ≡ digit_text b) }
{
    match digit {
        "0" => Some(false),
        "1" => Some(true),
        _ => None,
    }
}

/// The group that four columns and whether it is exposed show, if they show one.
fn group_at(kind: &str, name: &str, tenant: &str, array: &str, exposed: bool) -> Option<GroupRow>
    ensures { MatchOption result ((r : GroupRow) → ¬ ShowsGroup (group_line kind.now name.now tenant.now array.now (flag_number exposed)) r)
        (ShowsGroup (group_line kind.now name.now tenant.now array.now (flag_number exposed))) }
{
    if exposed {
        read_group(kind, name, tenant, array, &1)
    } else {
        read_group(kind, name, tenant, array, &0)
    }
}

/// The group that the columns of `groups` show, if they show one.
fn group_in(columns: &str) -> Option<GroupRow>
    ensures { MatchOption result ((r : GroupRow) → ¬ ShowsColumns (words_of columns.now) (row.Group r))
        (λ r. ShowsColumns (words_of columns.now) (row.Group r)) }
{
    let Some(words) = five_words(columns) else {
        return None;
    };
    let Some(exposed) = read_digit(words.4) else {
        return None;
    };
    group_at(words.0, words.1, words.2, words.3, exposed)
}

/// The part that the columns of `group_parts` show, if they show one.
fn part_in(columns: &str) -> Option<PartRow>
    ensures { MatchOption result ((r : PartRow) → ¬ ShowsColumns (words_of columns.now) (row.Part r))
        (λ r. ShowsColumns (words_of columns.now) (row.Part r)) }
{
    let Some(words) = five_words(columns) else {
        return None;
    };
    read_part(words.0, words.1, words.2, words.3, words.4)
}

/// The row that the columns of the table of this name show, if they show one.
fn read_columns(table: &str, columns: &str) -> Option<ConfigRow>
    ensures { MatchOption result ((r : ConfigRow) → table.now ≡ table_text r → ¬ ShowsColumns (words_of columns.now) r)
        (λ r. (table.now ≡ table_text r) × ShowsColumns (words_of columns.now) r) }
{
    match table {
        "meta" => match setting_in(columns) {
            Some(row) => Some(ConfigRow::Setting(row)),
            None => None,
        },
        "zoning" => match zoning_in(columns) {
            Some(row) => Some(ConfigRow::Zoning(row)),
            None => None,
        },
        "active" => match active_in(columns) {
            Some(row) => Some(ConfigRow::Active(row)),
            None => None,
        },
        "groups" => match group_in(columns) {
            Some(row) => Some(ConfigRow::Group(row)),
            None => None,
        },
        "group_parts" => match part_in(columns) {
            Some(row) => Some(ConfigRow::Part(row)),
            None => None,
        },
        _ => None,
    }
}

/// The row that an entry shows, if it shows one.
pub fn read_entry(entry: &str) -> Option<ConfigRow>
    ensures { MatchOption result ((r : ConfigRow) → ¬ ShowsEntry entry.now r) (ShowsEntry entry.now) }
{
    let Some(parts) = first_word(entry) else {
        return None;
    };
    read_columns(parts.0, parts.1)
}
