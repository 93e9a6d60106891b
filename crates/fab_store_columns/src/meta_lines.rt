//! Lines of the table of settings.
ghost use Rattle.std.specs.Prelude.{◌≡◌, ℕ, List, Option, None, Bool, true, MatchOption, IfOk, decimal, string_bytes};
ghost use Rattle.fab_store_rows.specs.declared.config_row.SettingRow.{SettingRow};
ghost use Rattle.fab_store_rows.specs.declared.config_row.SettingRow.TheVariants as setting;
ghost use Rattle.fab_store_columns.specs.declared.meta_lines.MetaRow.{MetaRow};
ghost use Rattle.fab_store_columns.specs.MetaLines as spec;

use fab_names::{Fabric, Name};
use fab_reach_base::zoning::DefaultFlag;
use fab_store_columns_base::{MOST_NUMBER, name_text, read_decimal, read_name};
use fab_store_rows::SettingRow;
use std::alloc::{AllocError, Allocator};
use std::marker::Model;

/// A row of the table of settings.
#[derive(Clone, Copy)]
pub enum MetaRow {
    /// The number of the tables' schema.
    Schema(u64),
    /// The number of accepted changes.
    Revision(u64),
    /// A setting of a fabric.
    Setting(SettingRow),
}

/// A line of `meta`. A contract sees its columns.
#[derive(Drop)]
pub struct MetaLine<A: Allocator + Copy> {
    /// `schema`, `revision`, `active.A`, `active.B`, `default.A` or `default.B`.
    pub key: String<A>,
    /// Digits, a name or the empty text, or `permit` or `deny`.
    pub value: String<A>,
}

impl<A: Allocator + Copy> Model for MetaLine<A> {
    ghost use Rattle.std.specs.Prelude.{string_bytes};
    ghost use Rattle.fab_store_columns.specs.MetaLines.{MetaColumns};

    ghost Value = { MetaColumns };

    ghost view = { λ l. record { key = string_bytes l.key; value = string_bytes l.value } };
}

/// The active zone set in a text, which is empty where none is active.
fn read_active_name(text: &str) -> Option<Option<Name>>
    ensures { MatchOption result ((n : Option (List ℕ)) → ¬ spec.ShowsActiveName text.now n) (spec.ShowsActiveName text.now) }
{
    if text.is_empty() {
        return Some(None);
    }
    match read_name(text) {
        Some(name) => Some(Some(name)),
        None => None,
    }
}

/// Whether the default zone permits, in a text.
fn read_permit(text: &str) -> Option<bool>
    ensures { MatchOption result ((p : Bool) → ¬ (text.now ≡ spec.permit_text p)) (λ p. text.now ≡ spec.permit_text p) }
{
    match text {
        "permit" => Some(true),
        "deny" => Some(false),
        _ => None,
    }
}

/// The active zone set of a fabric, in a text.
fn read_active_set(fabric: Fabric, value: &str) -> Option<SettingRow>
    ensures { MatchOption result ((n : Option (List ℕ)) → ¬ spec.ShowsSettingValue value.now (setting.ActiveSet fabric n))
        (λ r. spec.ShowsSettingValue value.now r × (spec.setting_key r ≡ spec.setting_key (setting.ActiveSet fabric None))) }
{
    match read_active_name(value) {
        Some(name) => Some(SettingRow::ActiveSet(fabric, name)),
        None => None,
    }
}

/// The default zone of a fabric, in a text.
fn read_default_zone(fabric: Fabric, value: &str) -> Option<SettingRow>
    ensures { MatchOption result ((p : Bool) → ¬ spec.ShowsSettingValue value.now (setting.DefaultZone fabric p))
        (λ r. spec.ShowsSettingValue value.now r × (spec.setting_key r ≡ spec.setting_key (setting.DefaultZone fabric true))) }
{
    match read_permit(value) {
        Some(permit) => Some(SettingRow::DefaultZone(fabric, permit)),
        None => None,
    }
}

/// The setting that two columns show, if they show one. It takes no memory.
pub fn read_setting(key: &str, value: &str) -> Option<SettingRow>
    ensures { MatchOption result ((r : SettingRow) → ¬ spec.ShowsSetting (spec.meta_line key.now value.now) r)
        (spec.ShowsSetting (spec.meta_line key.now value.now)) }
{
    match key {
        "active.A" => read_active_set(Fabric::A, value),
        "active.B" => read_active_set(Fabric::B, value),
        "default.A" => read_default_zone(Fabric::A, value),
        "default.B" => read_default_zone(Fabric::B, value),
        _ => None,
    }
}

/// The row that two columns show, if they show one.
fn read_meta(key: &str, value: &str) -> Option<MetaRow>
    ensures { MatchOption result ((r : MetaRow) → ¬ spec.ShowsMeta (spec.meta_line key.now value.now) r)
        (spec.ShowsMeta (spec.meta_line key.now value.now)) }
{
    match key {
        "schema" => match read_decimal(value, MOST_NUMBER) {
            Some(number) => Some(MetaRow::Schema(number)),
            None => None,
        },
        "revision" => match read_decimal(value, MOST_NUMBER) {
            Some(number) => Some(MetaRow::Revision(number)),
            None => None,
        },
        _ => match read_setting(key, value) {
            Some(row) => Some(MetaRow::Setting(row)),
            None => None,
        },
    }
}

/// The key of a setting.
pub fn key_of_setting(row: &SettingRow) -> &'static str
    ensures { result.now ≡ spec.setting_key row.now }
{
    match row {
        SettingRow::ActiveSet(Fabric::A, _) => "active.A",
        SettingRow::ActiveSet(Fabric::B, _) => "active.B",
        SettingRow::DefaultZone(Fabric::A, _) => "default.A",
        SettingRow::DefaultZone(Fabric::B, _) => "default.B",
    }
}

/// The text of an active zone set, which is empty where none is active.
fn active_text<A: Allocator>(alloc: A, name: &Option<Name>) -> Result<String<A>, AllocError>
    ensures { IfOk result (λ text. spec.ShowsActiveName (string_bytes text) name.now) }
{
    match name {
        Some(name) => name_text(alloc, name),
        None => Ok(String::new(alloc)),
    }
}

/// The value of a setting.
pub fn setting_value<A: Allocator>(alloc: A, row: &SettingRow) -> Result<String<A>, AllocError>
    ensures { IfOk result (λ text. spec.ShowsSettingValue (string_bytes text) row.now) }
{
    match row {
        SettingRow::ActiveSet(_, name) => active_text(alloc, name),
        SettingRow::DefaultZone(_, permit) => {
            DefaultFlag::permitting(*permit).word().to_string(alloc)
        }
    }
}

impl<A: Allocator + Copy> MetaLine<A> {
    /// The row that the line shows, if it shows one. It takes no memory.
    pub fn read(&self) -> Option<MetaRow>
        ensures { MatchOption result ((r : MetaRow) → ¬ spec.ShowsMeta self.now r) (spec.ShowsMeta self.now) }
    {
        read_meta(self.key.as_str(), self.value.as_str())
    }

    /// The line that shows the setting.
    ///
    /// # Errors
    /// `AllocError` where there is no memory.
    pub fn of_setting(alloc: A, row: &SettingRow) -> Result<Self, AllocError>
        ensures { IfOk result (λ line. spec.ShowsSetting line row.now) }
    {
        Ok(MetaLine {
            key: key_of_setting(row).to_string(alloc)?,
            value: setting_value(alloc, row)?,
        })
    }

    /// The line that shows a number under a key.
    fn of_number(alloc: A, key: &'static str, number: u64) -> Result<Self, AllocError>
        ensures { IfOk result (λ line. (line.key ≡ key.now) × (line.value ≡ decimal number)) }
    {
        Ok(MetaLine {
            key: key.to_string(alloc)?,
            value: number.to_string(alloc)?,
        })
    }

    /// The line that shows the row.
    ///
    /// # Errors
    /// `AllocError` where there is no memory.
    pub fn print(alloc: A, row: &MetaRow) -> Result<Self, AllocError>
        requires { spec.IsKeptNumber row.now }
        ensures { IfOk result (λ line. spec.ShowsMeta line row.now) }
    {
        match row {
            MetaRow::Schema(number) => MetaLine::of_number(alloc, "schema", *number),
            MetaRow::Revision(number) => MetaLine::of_number(alloc, "revision", *number),
            MetaRow::Setting(row) => MetaLine::of_setting(alloc, row),
        }
    }
}
