//! Lines of the table of the parts of groups.
ghost use Rattle.std.specs.Prelude.{◌≡◌, ℕ, List, [], MatchOption, IfOk, string_bytes};
ghost use Rattle.fab_names.specs.Names.{SpellsName};
ghost use Rattle.fab_names.specs.WorldWideNames.{SpellsPlain};
ghost use Rattle.fab_mapping_base.specs.Limits.{last_unit};
ghost use Rattle.fab_store_columns_base.specs.Columns.{ShowsDecimal};
ghost use Rattle.fab_store_rows.specs.declared.config_row.StoragePart.{StoragePart};
ghost use Rattle.fab_store_rows.specs.declared.config_row.PartRow.{PartRow};
ghost use Rattle.fab_store_rows.specs.declared.config_row.PartRow.TheVariants as parts;
ghost use Rattle.fab_store_columns.specs.GroupLines as spec;

use fab_mapping::LAST_UNIT;
use fab_names::{Name, Wwn};
use fab_store_columns_base::{name_text, plain_text, read_decimal, read_name};
use fab_store_rows::{PartRow, StoragePart};
use std::alloc::{AllocError, Allocator};
use std::marker::Model;

/// A line of `group_parts`. A contract sees its columns.
#[derive(Drop)]
pub struct PartLine<A: Allocator + Copy> {
    /// `host` or `storage`.
    pub kind: String<A>,
    /// The name of the group.
    pub name: String<A>,
    /// `host`, `hostgroup`, `target` or `unit`.
    pub part: String<A>,
    /// A name, the sixteen digits of a target, or the decimal digits of a unit.
    pub item: String<A>,
    /// The name of a unit's volume, or the empty text.
    pub volume: String<A>,
}

impl<A: Allocator + Copy> Model for PartLine<A> {
    ghost use Rattle.std.specs.Prelude.{string_bytes};
    ghost use Rattle.fab_store_columns.specs.GroupLines.{PartColumns};

    ghost Value = { PartColumns };

    ghost view = { λ l. record { kind = string_bytes l.kind; name = string_bytes l.name; part = string_bytes l.part; item = string_bytes l.item; volume = string_bytes l.volume } };
}

/// A name in a text, where the other text is empty.
fn read_lone_name(item: &str, volume: &str) -> Option<Name>
    ensures { MatchOption result ((n : List ℕ) → SpellsName item.now n → ¬ (volume.now ≡ []))
        (λ n. SpellsName item.now n × (volume.now ≡ [])) }
{
    if !volume.is_empty() {
        return None;
    }
    read_name(item)
}

/// The digits of a world-wide name in a text, where the other text is empty.
fn read_lone_target(item: &str, volume: &str) -> Option<Wwn>
    ensures { MatchOption result ((n : ℕ) → SpellsPlain item.now n → ¬ (volume.now ≡ []))
        (λ n. SpellsPlain item.now n × (volume.now ≡ [])) }
{
    if !volume.is_empty() {
        return None;
    }
    Wwn::read_plain(item)
}

/// A unit, and the name of its volume.
fn read_unit(item: &str, volume: &str) -> Option<(u16, Name)>
    ensures { MatchOption result ((u : ℕ) (v : List ℕ) → ShowsDecimal last_unit item.now u → ¬ SpellsName volume.now v)
        (λ found. ShowsDecimal last_unit item.now found.0 × SpellsName volume.now found.1) }
{
    let Some(unit) = read_decimal(item, LAST_UNIT as u64) else {
        return None;
    };
    let Some(volume) = read_name(volume) else {
        return None;
    };
    Some((unit as u16, volume))
}

/// The host that three columns show in a host group, if they show one.
fn read_host(part: &str, item: &str, volume: &str) -> Option<Name>
    ensures { MatchOption result ((name host : List ℕ) → ¬ spec.ShowsPartAt part.now item.now volume.now (parts.Host name host))
        (λ host. (name : List ℕ) → spec.ShowsPartAt part.now item.now volume.now (parts.Host name host)) }
{
    match part {
        "host" => read_lone_name(item, volume),
        _ => None,
    }
}

/// The part that three columns show in a storage group, if they show one.
fn read_storage_part(part: &str, item: &str, volume: &str) -> Option<StoragePart>
    ensures { MatchOption result ((name : List ℕ) (r : StoragePart) → ¬ spec.ShowsPartAt part.now item.now volume.now (parts.Storage name r))
        (λ r. (name : List ℕ) → spec.ShowsPartAt part.now item.now volume.now (parts.Storage name r)) }
{
    match part {
        "hostgroup" => match read_lone_name(item, volume) {
            Some(hosts) => Some(StoragePart::HostGroup(hosts)),
            None => None,
        },
        "target" => match read_lone_target(item, volume) {
            Some(target) => Some(StoragePart::Target(target)),
            None => None,
        },
        "unit" => match read_unit(item, volume) {
            Some(found) => Some(StoragePart::Unit(found.0, found.1)),
            None => None,
        },
        _ => None,
    }
}

/// The part that five columns show, if they show one. It takes no memory.
pub fn read_part(kind: &str, name: &str, part: &str, item: &str, volume: &str) -> Option<PartRow>
    ensures { MatchOption result ((r : PartRow) → ¬ spec.ShowsPart (spec.part_line kind.now name.now part.now item.now volume.now) r)
        (spec.ShowsPart (spec.part_line kind.now name.now part.now item.now volume.now)) }
{
    let Some(name) = read_name(name) else {
        return None;
    };
    match kind {
        "host" => match read_host(part, item, volume) {
            Some(host) => Some(PartRow::Host(name, host)),
            None => None,
        },
        "storage" => match read_storage_part(part, item, volume) {
            Some(part) => Some(PartRow::Storage(name, part)),
            None => None,
        },
        _ => None,
    }
}

/// The word of the kind of the group.
fn kind_of_owner(row: &PartRow) -> &'static str
    ensures { result.now ≡ spec.kind_of_owner row.now }
{
    match row {
        PartRow::Host(_, _) => "host",
        PartRow::Storage(_, _) => "storage",
    }
}

/// The name of the group.
fn name_of_owner<A: Allocator>(alloc: A, row: &PartRow) -> Result<String<A>, AllocError>
    ensures { IfOk result (λ text. SpellsName (string_bytes text) (spec.name_of_owner row.now)) }
{
    match row {
        PartRow::Host(name, _) => name_text(alloc, name),
        PartRow::Storage(name, _) => name_text(alloc, name),
    }
}

/// The word of the kind of part.
fn part_word(row: &PartRow) -> &'static str
    ensures { result.now ≡ spec.part_word row.now }
{
    match row {
        PartRow::Host(_, _) => "host",
        PartRow::Storage(_, StoragePart::HostGroup(_)) => "hostgroup",
        PartRow::Storage(_, StoragePart::Target(_)) => "target",
        PartRow::Storage(_, StoragePart::Unit(_, _)) => "unit",
    }
}

/// The text of the part.
fn print_part_item<A: Allocator>(alloc: A, row: &PartRow) -> Result<String<A>, AllocError>
    requires { spec.HasUnitNumber row.now }
    ensures { IfOk result (λ text. spec.ShowsPartItem (string_bytes text) row.now) }
{
    match row {
        PartRow::Host(_, host) => name_text(alloc, host),
        PartRow::Storage(_, StoragePart::HostGroup(hosts)) => name_text(alloc, hosts),
        PartRow::Storage(_, StoragePart::Target(target)) => plain_text(alloc, *target),
        PartRow::Storage(_, StoragePart::Unit(unit, _)) => unit.to_string(alloc),
    }
}

/// The name of a unit's volume, or the empty text.
fn print_part_volume<A: Allocator>(alloc: A, row: &PartRow) -> Result<String<A>, AllocError>
    ensures { IfOk result (λ text. spec.ShowsPartVolume (string_bytes text) row.now) }
{
    match row {
        PartRow::Storage(_, StoragePart::Unit(_, volume)) => name_text(alloc, volume),
        _ => Ok(String::new(alloc)),
    }
}

impl<A: Allocator + Copy> PartLine<A> {
    /// The row that the line shows, if it shows one. It takes no memory.
    pub fn read(&self) -> Option<PartRow>
        ensures { MatchOption result ((r : PartRow) → ¬ spec.ShowsPart self.now r) (spec.ShowsPart self.now) }
    {
        read_part(
            self.kind.as_str(),
            self.name.as_str(),
            self.part.as_str(),
            self.item.as_str(),
            self.volume.as_str(),
        )
    }

    /// The line that shows the row, whose unit, if it is one, is at most 16383.
    ///
    /// # Errors
    /// `AllocError` where there is no memory.
    pub fn print(alloc: A, row: &PartRow) -> Result<Self, AllocError>
        requires { spec.HasUnitNumber row.now }
        ensures { IfOk result (λ line. spec.ShowsPart line row.now) }
    {
        let item = print_part_item(alloc, row)?;
        let volume = print_part_volume(alloc, row)?;
        Ok(PartLine {
            kind: kind_of_owner(row).to_string(alloc)?,
            name: name_of_owner(alloc, row)?,
            part: part_word(row).to_string(alloc)?,
            item,
            volume,
        })
    }
}
