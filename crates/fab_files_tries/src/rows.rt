//! The text of a row of a configuration.
ghost use Rattle.std.specs.Prelude.{◌≡◌};
ghost use Rattle.std.specs.List.{flat_map};
ghost use Rattle.fab_files_tries.specs.Rows as rows;
ghost use Rattle.fab_files_tries.specs.Rows.{in_form, row_text};
ghost use Rattle.fab_wire_streams.specs.Taking.{Takes};

use crate::members::put_member;
use fab_names::{Fabric, Name};
use fab_store_rows::{
    ActiveRow, ConfigRow, GroupRow, HostGroupRow, PartRow, SettingRow, StorageGroupRow,
    StoragePart, ZoningItem, ZoningRow,
};
use fab_wire_streams::escapes::put_joined;
use fab_wire_streams::sink::{Sink, put_all};
use fab_wire_streams::streams::WriteFailed;
use itoa::Buffer;

/// In which form a text is put.
#[derive(Clone, Copy)]
pub enum TextForm {
    /// As it is.
    Plain,
    /// As a JSON string.
    Quoted,
}

/// Puts texts one after the other, as they are or as one JSON string.
pub fn put_pieces<S: Sink>(sink: &mut S, form: TextForm, texts: &[&[u8]]) -> Result<(), WriteFailed>
    ensures { Takes S.took S.cut sink.old (in_form form (flat_map (λ text. text.now) texts.now)) sink.new result }
{
    match form {
        TextForm::Plain => put_all(sink, texts),
        TextForm::Quoted => put_joined(sink, texts),
    }
}

/// Puts the text of a row: the name of its table, and its columns, with a space between.
pub fn put_row<S: Sink>(sink: &mut S, form: TextForm, row: &ConfigRow) -> Result<(), WriteFailed>
    ensures { Takes S.took S.cut sink.old (in_form form (row_text row.now)) sink.new result }
{
    match row {
        ConfigRow::Setting(setting) => put_setting(sink, form, setting),
        ConfigRow::Zoning(row) => put_zoning(sink, form, row),
        ConfigRow::Active(row) => put_active_row(sink, form, row),
        ConfigRow::Group(row) => put_group_row(sink, form, row),
        ConfigRow::Part(row) => put_part_row(sink, form, row),
    }
}

/// Puts the text of a member of an active zone.
fn put_active_row<S: Sink>(sink: &mut S, form: TextForm, row: &ActiveRow) -> Result<(), WriteFailed>
    ensures { Takes S.took S.cut sink.old (in_form form (rows.active_text row.now)) sink.new result }
{
    let letter = row.fabric.as_str();
    put_member(sink, form, "active ", letter, " ", &row.zone, &row.member)
}

/// Puts the text of a host group or of a storage group.
fn put_group_row<S: Sink>(sink: &mut S, form: TextForm, row: &GroupRow) -> Result<(), WriteFailed>
    ensures { Takes S.took S.cut sink.old (in_form form (rows.group_row_text row.now)) sink.new result }
{
    match row {
        GroupRow::Host(row) => put_host_group(sink, form, row),
        GroupRow::Storage(row) => put_group(sink, form, row, exposed_word(row.exposed)),
    }
}

/// Puts the text of a part of a host group or of a storage group.
fn put_part_row<S: Sink>(sink: &mut S, form: TextForm, row: &PartRow) -> Result<(), WriteFailed>
    ensures { Takes S.took S.cut sink.old (in_form form (rows.part_row_text row.now)) sink.new result }
{
    match row {
        PartRow::Host(name, host) => put_host(sink, form, name, host),
        PartRow::Storage(name, part) => put_part(sink, form, name, part),
    }
}

/// Puts the text of a setting of a fabric.
fn put_setting<S: Sink>(
    sink: &mut S,
    form: TextForm,
    setting: &SettingRow,
) -> Result<(), WriteFailed>
    ensures { Takes S.took S.cut sink.old (in_form form (rows.setting_text setting.now)) sink.new result }
{
    match setting {
        SettingRow::ActiveSet(fabric, name) => put_active(sink, form, *fabric, *name),
        SettingRow::DefaultZone(fabric, permit) => put_default(sink, form, *fabric, *permit),
    }
}

/// The name of an active set, or `-`.
fn name_or_none(name: &Option<Name>) -> &[u8]
    ensures { result.now ≡ rows.name_or_none name.now }
{
    match name {
        Some(name) => name.as_bytes(),
        None => b"-",
    }
}

/// Puts the name of the active set of a fabric.
fn put_active<S: Sink>(
    sink: &mut S,
    form: TextForm,
    fabric: Fabric,
    name: Option<Name>,
) -> Result<(), WriteFailed>
    ensures { Takes S.took S.cut sink.old (in_form form (rows.active_set_text fabric name)) sink.new result }
{
    let texts = [
        b"meta active.".as_slice(),
        fabric.as_str().as_bytes(),
        b" ".as_slice(),
        name_or_none(&name),
    ];
    put_pieces(sink, form, &texts)
}

/// What a default zone does, in a word.
fn permit_word(permit: bool) -> &'static str
    ensures { result.now ≡ rows.permit_word permit }
{
    if permit { "permit" } else { "deny" }
}

/// Puts what the default zone of a fabric does.
fn put_default<S: Sink>(
    sink: &mut S,
    form: TextForm,
    fabric: Fabric,
    permit: bool,
) -> Result<(), WriteFailed>
    ensures { Takes S.took S.cut sink.old (in_form form (rows.default_text fabric permit)) sink.new result }
{
    let texts = [
        b"meta default.".as_slice(),
        fabric.as_str().as_bytes(),
        b" ".as_slice(),
        permit_word(permit).as_bytes(),
    ];
    put_pieces(sink, form, &texts)
}

/// Puts the text of an item of an alias, a zone or a zone set.
fn put_zoning<S: Sink>(sink: &mut S, form: TextForm, row: &ZoningRow) -> Result<(), WriteFailed>
    ensures { Takes S.took S.cut sink.old (in_form form (rows.item_text row.now.fabric row.now.item)) sink.new result }
{
    let letter = row.fabric.as_str();
    match &row.item {
        ZoningItem::Alias(name, member) => {
            put_member(sink, form, "zoning ", letter, " alias ", name, member)
        }
        ZoningItem::Zone(name, member) => {
            put_member(sink, form, "zoning ", letter, " zone ", name, member)
        }
        ZoningItem::Set(name, zone) => put_set(sink, form, letter, name, zone),
    }
}

/// Puts the text of a zone of a zone set.
fn put_set<S: Sink>(
    sink: &mut S,
    form: TextForm,
    fabric: &str,
    name: &Name,
    zone: &Name,
) -> Result<(), WriteFailed>
    ensures { Takes S.took S.cut sink.old (in_form form (rows.set_text fabric.now name.now zone.now)) sink.new result }
{
    let texts = [
        b"zoning ".as_slice(),
        fabric.as_bytes(),
        b" set ".as_slice(),
        name.as_bytes(),
        b" ".as_slice(),
        zone.as_bytes(),
    ];
    put_pieces(sink, form, &texts)
}

/// Puts the text of a host group.
fn put_host_group<S: Sink>(
    sink: &mut S,
    form: TextForm,
    row: &HostGroupRow,
) -> Result<(), WriteFailed>
    ensures { Takes S.took S.cut sink.old (in_form form (rows.host_group_text row.now)) sink.new result }
{
    let texts = [
        b"groups host ".as_slice(),
        row.name.as_bytes(),
        b" ".as_slice(),
        row.tenant.as_bytes(),
    ];
    put_pieces(sink, form, &texts)
}

/// Whether a storage group is exposed, in a word.
fn exposed_word(exposed: bool) -> &'static str
    ensures { result.now ≡ rows.exposed_word exposed }
{
    if exposed { "exposed" } else { "hidden" }
}

/// Puts the text of a storage group.
fn put_group<S: Sink>(
    sink: &mut S,
    form: TextForm,
    row: &StorageGroupRow,
    exposed: &str,
) -> Result<(), WriteFailed>
    ensures { Takes S.took S.cut sink.old (in_form form (rows.group_text row.now exposed.now)) sink.new result }
{
    let texts = [
        b"groups storage ".as_slice(),
        row.name.as_bytes(),
        b" ".as_slice(),
        row.tenant.as_bytes(),
        b" ".as_slice(),
        row.array.as_bytes(),
        b" ".as_slice(),
        exposed.as_bytes(),
    ];
    put_pieces(sink, form, &texts)
}

/// Puts the text of a host of a host group.
fn put_host<S: Sink>(
    sink: &mut S,
    form: TextForm,
    name: &Name,
    host: &Name,
) -> Result<(), WriteFailed>
    ensures { Takes S.took S.cut sink.old (in_form form (rows.host_text name.now host.now)) sink.new result }
{
    let texts = [
        b"group_parts host ".as_slice(),
        name.as_bytes(),
        b" host ".as_slice(),
        host.as_bytes(),
    ];
    put_pieces(sink, form, &texts)
}

/// Puts the text of a part of a storage group.
fn put_part<S: Sink>(
    sink: &mut S,
    form: TextForm,
    name: &Name,
    part: &StoragePart,
) -> Result<(), WriteFailed>
    ensures { Takes S.took S.cut sink.old (in_form form (rows.part_text name.now part.now)) sink.new result }
{
    match part {
        StoragePart::HostGroup(hosts) => {
            put_part_of(sink, form, name, " hostgroup ", hosts.as_bytes())
        }
        StoragePart::Target(target) => {
            put_part_of(sink, form, name, " target ", &target.letters())
        }
        StoragePart::Unit(unit, volume) => put_unit(sink, form, name, *unit, volume),
    }
}

/// Puts a storage group, the kind of its part, and the part.
fn put_part_of<S: Sink>(
    sink: &mut S,
    form: TextForm,
    name: &Name,
    kind: &str,
    part: &[u8],
) -> Result<(), WriteFailed>
    ensures { Takes S.took S.cut sink.old (in_form form (rows.part_of_text name.now kind.now part.now)) sink.new result }
{
    let texts = [
        b"group_parts storage ".as_slice(),
        name.as_bytes(),
        kind.as_bytes(),
        part,
    ];
    put_pieces(sink, form, &texts)
}

/// Puts the text of a unit of a storage group, and of the volume there.
fn put_unit<S: Sink>(
    sink: &mut S,
    form: TextForm,
    name: &Name,
    unit: u16,
    volume: &Name,
) -> Result<(), WriteFailed>
    ensures { Takes S.took S.cut sink.old (in_form form (rows.unit_text name.now unit volume.now)) sink.new result }
{
    let mut digits = Buffer::new();
    let texts = [
        b"group_parts storage ".as_slice(),
        name.as_bytes(),
        b" unit ".as_slice(),
        digits.format(unit).as_bytes(),
        b" ".as_slice(),
        volume.as_bytes(),
    ];
    put_pieces(sink, form, &texts)
}
