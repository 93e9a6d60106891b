//! The entry that shows a row.
ghost use Rattle.std.specs.Prelude.{◌≡◌, ◌∷◌, IfOk, codes, string_bytes};
ghost use Rattle.std.specs.List.{join_with_byte};
ghost use Rattle.fab_store_rows.specs.declared.config_row.ConfigRow.TheVariants as config;
ghost use Rattle.fab_store_columns.specs.GroupLines.{HasUnitNumber};
ghost use Rattle.fab_store_tables.specs.UndoLines.{ShowsEntry, HasUnitInRange, meta_columns, zoning_columns, active_columns, group_columns, part_columns};

use fab_store_columns::{ActiveLine, GroupLine, MetaLine, PartLine, ZoningLine};
use fab_store_rows::{ActiveRow, ConfigRow, GroupRow, PartRow, SettingRow, ZoningRow};
use std::alloc::{AllocError, Allocator};

/// The words of a line of `meta`.
fn meta_text<A: Allocator + Copy>(alloc: A, line: &MetaLine<A>) -> Result<String<A>, AllocError>
    ensures { IfOk result (λ text. string_bytes text ≡ join_with_byte 32 (codes "meta" ∷ meta_columns line.now)) }
{
    let key = line.key.as_str();
    let value = line.value.as_str();
    format!(in alloc; "meta {key} {value}")
}

/// The words of a line of `zoning`.
fn zoning_text<A: Allocator + Copy>(alloc: A, line: &ZoningLine<A>) -> Result<String<A>, AllocError>
    ensures { IfOk result (λ text. string_bytes text ≡ join_with_byte 32 (codes "zoning" ∷ zoning_columns line.now)) }
{
    let fabric = line.fabric.as_str();
    let kind = line.kind.as_str();
    let name = line.name.as_str();
    let item = line.item.as_str();
    format!(in alloc; "zoning {fabric} {kind} {name} {item}")
}

/// The words of a line of `active`.
fn active_text<A: Allocator + Copy>(alloc: A, line: &ActiveLine<A>) -> Result<String<A>, AllocError>
    ensures { IfOk result (λ text. string_bytes text ≡ join_with_byte 32 (codes "active" ∷ active_columns line.now)) }
{
    let fabric = line.fabric.as_str();
    let zone = line.zone.as_str();
    let member = line.member.as_str();
    format!(in alloc; "active {fabric} {zone} {member}")
}

/// The words of a line of `groups`.
fn group_text<A: Allocator + Copy>(alloc: A, line: &GroupLine<A>) -> Result<String<A>, AllocError>
    ensures { IfOk result (λ text. string_bytes text ≡ join_with_byte 32 (codes "groups" ∷ group_columns line.now)) }
{
    let kind = line.kind.as_str();
    let name = line.name.as_str();
    let tenant = line.tenant.as_str();
    let array = line.array.as_str();
    let exposed = line.exposed;
    format!(in alloc; "groups {kind} {name} {tenant} {array} {exposed}")
}

/// The words of a line of `group_parts`.
fn part_text<A: Allocator + Copy>(alloc: A, line: &PartLine<A>) -> Result<String<A>, AllocError>
    ensures { IfOk result (λ text. string_bytes text ≡ join_with_byte 32 (codes "group_parts" ∷ part_columns line.now)) }
{
    let kind = line.kind.as_str();
    let name = line.name.as_str();
    let part = line.part.as_str();
    let item = line.item.as_str();
    let volume = line.volume.as_str();
    format!(in alloc; "group_parts {kind} {name} {part} {item} {volume}")
}

/// The entry of a setting.
#[tactic(auto, using(crate::proofs::Written::meta_entry))]
fn setting_entry<A: Allocator + Copy>(alloc: A, row: &SettingRow) -> Result<String<A>, AllocError>
    ensures { IfOk result (λ text. ShowsEntry (string_bytes text) (config.Setting row.now)) }
{
    let line = MetaLine::of_setting(alloc, row)?;
    let text = meta_text(alloc, &line)?;
    Ok(text)
}

/// The entry of a zoning item.
#[tactic(auto, using(crate::proofs::Written::zoning_entry))]
fn zoning_entry<A: Allocator + Copy>(alloc: A, row: &ZoningRow) -> Result<String<A>, AllocError>
    ensures { IfOk result (λ text. ShowsEntry (string_bytes text) (config.Zoning row.now)) }
{
    let line = ZoningLine::print(alloc, row)?;
    let text = zoning_text(alloc, &line)?;
    Ok(text)
}

/// The entry of an active row.
#[tactic(auto, using(crate::proofs::Written::active_entry))]
fn active_entry<A: Allocator + Copy>(alloc: A, row: &ActiveRow) -> Result<String<A>, AllocError>
    ensures { IfOk result (λ text. ShowsEntry (string_bytes text) (config.Active row.now)) }
{
    let line = ActiveLine::print(alloc, row)?;
    let text = active_text(alloc, &line)?;
    Ok(text)
}

/// The entry of a group.
#[tactic(auto, using(crate::proofs::Written::group_entry))]
fn group_entry<A: Allocator + Copy>(alloc: A, row: &GroupRow) -> Result<String<A>, AllocError>
    ensures { IfOk result (λ text. ShowsEntry (string_bytes text) (config.Group row.now)) }
{
    let line = GroupLine::print(alloc, row)?;
    let text = group_text(alloc, &line)?;
    Ok(text)
}

/// The entry of a part of a group.
#[tactic(auto, using(crate::proofs::Written::part_entry))]
fn part_entry<A: Allocator + Copy>(alloc: A, row: &PartRow) -> Result<String<A>, AllocError>
    requires { HasUnitNumber row.now }
    ensures { IfOk result (λ text. ShowsEntry (string_bytes text) (config.Part row.now)) }
{
    let line = PartLine::print(alloc, row)?;
    let text = part_text(alloc, &line)?;
    Ok(text)
}

/// The entry of a row.
pub fn print_entry<A: Allocator + Copy>(alloc: A, row: &ConfigRow) -> Result<String<A>, AllocError>
    requires { HasUnitInRange row.now }
    ensures { IfOk result (λ text. ShowsEntry (string_bytes text) row.now) }
{
    match row {
        ConfigRow::Setting(row) => setting_entry(alloc, row),
        ConfigRow::Zoning(row) => zoning_entry(alloc, row),
        ConfigRow::Active(row) => active_entry(alloc, row),
        ConfigRow::Group(row) => group_entry(alloc, row),
        ConfigRow::Part(row) => part_entry(alloc, row),
    }
}
