//! The columns of a line as SQL values.
ghost use Rattle.std.specs.Prelude.{◌≡◌, ◌∷◌, [], ◌≤◌, take, string_bytes};
ghost use Rattle.std.specs.Option.{option_map};
ghost use Rattle.sqlite.specs.declared.types.Value.TheVariants.{Int, Text};
ghost use Rattle.sqlite.specs.Values.{bound};
ghost use Rattle.fab_store_load.specs.declared.fault.Table.TheVariants as table;
ghost use Rattle.fab_store_tables.specs.Columns as column;
ghost use Rattle.fab_store_tables.specs.Columns.{port_row, volume_row, zoning_row, group_row, part_row, plan_row, path_row};
ghost use Rattle.fab_store_tables.specs.Tables.{table_of, row_of};
ghost use Rattle.fab_store_sql.specs.Trees as spec;
ghost use Rattle.fab_store_sql.specs.Cells.{value_of};

use fab_store_columns::{
    GroupLine, PartLine, PathLine, PlanLine, PortLine, VolumeLine, ZoningLine,
};
use fab_store_tables::{Table, TableLine};
use sqlite::types::ValueRef;
use std::alloc::Allocator;

/// The values of a line, in the order of its table's columns.
#[derive(Drop)]
pub(crate) struct Values<'a> {
    pub(crate) table: Table,
    /// The values, and nulls behind them.
    pub(crate) cells: [ValueRef<'a>; 6],
    /// How many values there are.
    pub(crate) count: usize,
}

/// How many columns the key of the table has: its first ones.
pub(crate) fn key_width(table: Table) -> usize
    ensures width { result ≡ spec.key_width table }
    ensures few { result ≤ 6 }
{
    match table {
        Table::Meta
        | Table::Ports
        | Table::Addresses
        | Table::Holders
        | Table::Volumes
        | Table::Plans => 1,
        Table::Groups | Table::Approvals => 2,
        Table::Active | Table::Undo => 3,
        Table::Zoning | Table::GroupParts => 4,
        Table::Paths => 6,
    }
}

fn text<'a, A: Allocator>(text: &'a String<A>) -> ValueRef<'a>
    ensures { value_of result ≡ Text (string_bytes text.now) }
{
    ValueRef::Text(text.as_bytes())
}

fn number<'a>(number: i64) -> ValueRef<'a>
    ensures { value_of result ≡ Int number }
{
    ValueRef::Int(number)
}

fn text_or_null<'a, A: Allocator>(value: &'a Option<String<A>>) -> ValueRef<'a>
    ensures { value_of result ≡ column.text_or_null (option_map string_bytes value.now) }
{
    match value {
        Some(value) => text(value),
        None => ValueRef::Null,
    }
}

fn number_or_null<'a>(value: Option<i64>) -> ValueRef<'a>
    ensures { value_of result ≡ column.number_or_null value }
{
    match value {
        Some(value) => number(value),
        None => ValueRef::Null,
    }
}

fn two<'a>(table: Table, a: ValueRef<'a>, b: ValueRef<'a>) -> Values<'a>
    ensures table { result.table ≡ table }
    ensures few { result.count ≤ 6 }
    ensures row { bound (take result.count result.cells) ≡ value_of a.entry ∷ value_of b.entry ∷ [] }
{
    let null = ValueRef::Null;
    Values {
        table,
        cells: [a, b, null, null, null, null],
        count: 2,
    }
}

fn three<'a>(table: Table, a: ValueRef<'a>, b: ValueRef<'a>, c: ValueRef<'a>) -> Values<'a>
    ensures table { result.table ≡ table }
    ensures few { result.count ≤ 6 }
    ensures row { bound (take result.count result.cells) ≡ value_of a.entry ∷ value_of b.entry ∷ value_of c.entry ∷ [] }
{
    let null = ValueRef::Null;
    Values {
        table,
        cells: [a, b, c, null, null, null],
        count: 3,
    }
}

fn four<'a>(
    table: Table,
    a: ValueRef<'a>,
    b: ValueRef<'a>,
    c: ValueRef<'a>,
    d: ValueRef<'a>,
) -> Values<'a>
    ensures table { result.table ≡ table }
    ensures few { result.count ≤ 6 }
    ensures row { bound (take result.count result.cells) ≡ value_of a.entry ∷ value_of b.entry ∷ value_of c.entry ∷ value_of d.entry ∷ [] }
{
    let null = ValueRef::Null;
    Values {
        table,
        cells: [a, b, c, d, null, null],
        count: 4,
    }
}

fn five<'a>(
    table: Table,
    a: ValueRef<'a>,
    b: ValueRef<'a>,
    c: ValueRef<'a>,
    d: ValueRef<'a>,
    e: ValueRef<'a>,
) -> Values<'a>
    ensures table { result.table ≡ table }
    ensures few { result.count ≤ 6 }
    ensures row { bound (take result.count result.cells) ≡ value_of a.entry ∷ value_of b.entry ∷ value_of c.entry ∷ value_of d.entry ∷ value_of e.entry ∷ [] }
{
    let null = ValueRef::Null;
    Values {
        table,
        cells: [a, b, c, d, e, null],
        count: 5,
    }
}

fn six<'a>(
    table: Table,
    a: ValueRef<'a>,
    b: ValueRef<'a>,
    c: ValueRef<'a>,
    d: ValueRef<'a>,
    e: ValueRef<'a>,
    f: ValueRef<'a>,
) -> Values<'a>
    ensures table { result.table ≡ table }
    ensures few { result.count ≤ 6 }
    ensures row { bound (take result.count result.cells) ≡ value_of a.entry ∷ value_of b.entry ∷ value_of c.entry ∷ value_of d.entry ∷ value_of e.entry ∷ value_of f.entry ∷ [] }
{
    Values {
        table,
        cells: [a, b, c, d, e, f],
        count: 6,
    }
}

fn texts<'a, A: Allocator>(
    table: Table,
    a: &'a String<A>,
    b: &'a String<A>,
    c: &'a String<A>,
) -> Values<'a>
    ensures table { result.table ≡ table }
    ensures few { result.count ≤ 6 }
    ensures row { bound (take result.count result.cells) ≡ Text (string_bytes a.now) ∷ Text (string_bytes b.now) ∷ Text (string_bytes c.now) ∷ [] }
{
    three(table, text(a), text(b), text(c))
}

fn port_values<'a, A: Allocator + Copy>(l: &'a PortLine<A>) -> Values<'a>
    ensures table { result.table ≡ table.Ports }
    ensures few { result.count ≤ 6 }
    ensures row { bound (take result.count result.cells) ≡ port_row l.now }
{
    six(
        Table::Ports,
        text(&l.wwpn),
        text(&l.wwnn),
        text_or_null(&l.fabric),
        number_or_null(l.domain),
        number_or_null(l.slot),
        text_or_null(&l.holder),
    )
}

fn volume_values<'a, A: Allocator + Copy>(l: &'a VolumeLine<A>) -> Values<'a>
    ensures table { result.table ≡ table.Volumes }
    ensures few { result.count ≤ 6 }
    ensures row { bound (take result.count result.cells) ≡ volume_row l.now }
{
    four(
        Table::Volumes,
        text(&l.name),
        text(&l.array),
        text(&l.tenant),
        number(l.bytes),
    )
}

fn zoning_values<'a, A: Allocator + Copy>(l: &'a ZoningLine<A>) -> Values<'a>
    ensures table { result.table ≡ table.Zoning }
    ensures few { result.count ≤ 6 }
    ensures row { bound (take result.count result.cells) ≡ zoning_row l.now }
{
    four(
        Table::Zoning,
        text(&l.fabric),
        text(&l.kind),
        text(&l.name),
        text(&l.item),
    )
}

fn group_values<'a, A: Allocator + Copy>(l: &'a GroupLine<A>) -> Values<'a>
    ensures table { result.table ≡ table.Groups }
    ensures few { result.count ≤ 6 }
    ensures row { bound (take result.count result.cells) ≡ group_row l.now }
{
    five(
        Table::Groups,
        text(&l.kind),
        text(&l.name),
        text(&l.tenant),
        text(&l.array),
        number(l.exposed),
    )
}

fn part_values<'a, A: Allocator + Copy>(l: &'a PartLine<A>) -> Values<'a>
    ensures table { result.table ≡ table.GroupParts }
    ensures few { result.count ≤ 6 }
    ensures row { bound (take result.count result.cells) ≡ part_row l.now }
{
    five(
        Table::GroupParts,
        text(&l.kind),
        text(&l.name),
        text(&l.part),
        text(&l.item),
        text(&l.volume),
    )
}

fn plan_values<'a, A: Allocator + Copy>(l: &'a PlanLine<A>) -> Values<'a>
    ensures table { result.table ≡ table.Plans }
    ensures few { result.count ≤ 6 }
    ensures row { bound (take result.count result.cells) ≡ plan_row l.now }
{
    five(
        Table::Plans,
        text(&l.name),
        text(&l.author),
        text(&l.text),
        text(&l.state),
        number(l.position),
    )
}

fn path_values<'a, A: Allocator + Copy>(l: &'a PathLine<A>) -> Values<'a>
    ensures table { result.table ≡ table.Paths }
    ensures few { result.count ≤ 6 }
    ensures row { bound (take result.count result.cells) ≡ path_row l.now }
{
    six(
        Table::Paths,
        text(&l.host),
        text(&l.fabric),
        text(&l.initiator),
        text(&l.target),
        text(&l.volume),
        number(l.lun),
    )
}

/// The values of the line.
pub(crate) fn values_of<'a, A: Allocator + Copy>(line: &'a TableLine<A>) -> Values<'a>
    ensures table { result.table ≡ table_of line.now }
    ensures few { result.count ≤ 6 }
    ensures row { bound (take result.count result.cells) ≡ row_of line.now }
{
    match line {
        TableLine::Meta(l) => two(Table::Meta, text(&l.key), text(&l.value)),
        TableLine::Port(l) => port_values(l),
        TableLine::Address(l) => two(Table::Addresses, text(&l.wwpn), text(&l.address)),
        TableLine::Holder(l) => texts(Table::Holders, &l.name, &l.kind, &l.tenant),
        TableLine::Volume(l) => volume_values(l),
        TableLine::Zoning(l) => zoning_values(l),
        TableLine::Active(l) => texts(Table::Active, &l.fabric, &l.zone, &l.member),
        TableLine::Group(l) => group_values(l),
        TableLine::Part(l) => part_values(l),
        TableLine::Plan(l) => plan_values(l),
        TableLine::Approval(l) => {
            three(
                Table::Approvals,
                text(&l.plan),
                text(&l.caller),
                number(l.revision),
            )
        }
        TableLine::Undo(l) => texts(Table::Undo, &l.plan, &l.sign, &l.entry),
        TableLine::Path(l) => path_values(l),
    }
}
