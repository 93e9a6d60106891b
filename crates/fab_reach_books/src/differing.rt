//! The rows in which two worlds differ, by a walk through both.
ghost use Rattle.std.specs.Prelude.{◌≡◌, ◌↔◌, Contains, Some, IsTrue, IfOk, OnOk};
ghost use Rattle.fab_inventory.specs.Ports.{port_of};
ghost use Rattle.fab_lemmas.specs.Lists.{IsListOf};
ghost use Rattle.fab_reach_base.specs.Adding.{Adds};
ghost use Rattle.fab_reach_base.specs.Views.{seen};
ghost use Rattle.fab_reach_books.specs.Inner.Telling.{IsPushed, Tells, IsPortRow, IsHolderRow, holder_row, row_in, AreIn, AreOnlyIn};
ghost use Rattle.fab_reach_books.specs.Rows.{Stands, IsRowDiff};
ghost use Rattle.fab_reach_books.specs.declared.row.Row.TheVariants as row_of;
ghost use Rattle.fab_store_rows.specs.Differences.{StandsOnlyIn};
ghost use Rattle.fab_store_rows.specs.RowOrder.{row_order};

use crate::row::{Row, RowDiff};
use fab_inventory::{Holder, Known, Port};
use fab_names::{Name, Wwn};
use fab_reach_base::View;
use fab_store_rows::{ConfigRow, HolderRow, SettingRow, difference, has_port};
use std::alloc::{AllocError, Allocator};

/// What is known of a port, with its name.
fn port_row(name: &Wwn, known: &Known) -> Port
    ensures { result ≡ port_of name.now known.now }
{
    Port {
        name: *name,
        node: known.node,
        at: known.at,
        address: known.address,
        holder: known.holder,
    }
}

/// Whether the port is known, and is this.
fn is_port<A: Allocator + Copy>(view: &View<'_, A>, port: &Port) -> bool
    ensures { IsTrue result ↔ Stands (seen view.now) (row_of.Port port.now) }
{
    has_port(view.inventory, port)
}

/// Puts the row of a port at the end, unless it stands in the other world.
fn push_port<A: Allocator + Copy>(
    rows: &mut Vec<Row, A>,
    other: &View<'_, A>,
    port: &Port,
) -> Result<(), AllocError>
    ensures { OnOk result (IsPushed (Stands (seen other.now) (row_of.Port port.now)) (row_of.Port port.now) rows.old.items rows.new.items) }
{
    if !is_port(other, port) {
        rows.push(Row::Port(*port))?;
    }
    Ok(())
}

/// Puts the rows of the ports of a world at the end, but for those that stand in the other.
fn add_ports<A: Allocator + Copy>(
    rows: &mut Vec<Row, A>,
    view: &View<'_, A>,
    other: &View<'_, A>,
) -> Result<(), AllocError>
    ensures { OnOk result (Tells (seen other.now) (IsPortRow (seen view.now)) rows.old.items rows.new.items) }
{
    for (name, known) in view.inventory.ports() {
        push_port(rows, other, &port_row(name, known))?;
    }
    Ok(())
}

/// A holder, with its name.
fn named_holder(name: &Name, holder: &Holder) -> HolderRow
    ensures { result ≡ holder_row name.now holder.now }
{
    HolderRow {
        name: *name,
        kind: holder.kind,
        tenant: holder.tenant,
    }
}

/// Whether the holder is known, and is this.
fn is_holder<A: Allocator + Copy>(view: &View<'_, A>, row: &HolderRow) -> bool
    ensures { IsTrue result ↔ Stands (seen view.now) (row_of.Holder row.now) }
{
    let told = Holder {
        kind: row.kind,
        tenant: row.tenant,
    };
    view.inventory.holder(&row.name) == Some(told)
}

/// Puts the row of a holder at the end, unless it stands in the other world.
fn push_holder<A: Allocator + Copy>(
    rows: &mut Vec<Row, A>,
    other: &View<'_, A>,
    row: &HolderRow,
) -> Result<(), AllocError>
    ensures { OnOk result (IsPushed (Stands (seen other.now) (row_of.Holder row.now)) (row_of.Holder row.now) rows.old.items rows.new.items) }
{
    if !is_holder(other, row) {
        rows.push(Row::Holder(*row))?;
    }
    Ok(())
}

/// Puts the rows of the holders of a world at the end, but for those that stand in the other.
fn add_holders<A: Allocator + Copy>(
    rows: &mut Vec<Row, A>,
    view: &View<'_, A>,
    other: &View<'_, A>,
) -> Result<(), AllocError>
    ensures { OnOk result (Tells (seen other.now) (IsHolderRow (seen view.now)) rows.old.items rows.new.items) }
{
    for (name, holder) in view.inventory.holders() {
        push_holder(rows, other, &named_holder(name, holder))?;
    }
    Ok(())
}

/// The row of a configuration as one that paths follow from, if it is such.
fn kept_row(row: &ConfigRow) -> Option<Row>
    ensures { result ≡ row_in row.now }
{
    match row {
        ConfigRow::Setting(SettingRow::ActiveSet(_, _)) => None,
        ConfigRow::Setting(SettingRow::DefaultZone(fabric, permit)) => {
            Some(Row::DefaultZone(*fabric, *permit))
        }
        ConfigRow::Zoning(_) => None,
        ConfigRow::Active(active) => Some(Row::Active(*active)),
        ConfigRow::Group(group) => Some(Row::Group(*group)),
        ConfigRow::Part(part) => Some(Row::Part(*part)),
    }
}

/// Puts the row at the end, if it is one that paths follow from.
fn push_kept<A: Allocator + Copy>(rows: &mut Vec<Row, A>, row: &ConfigRow) -> Result<(), AllocError>
    ensures { OnOk result (Adds (λ r. row_in row.now ≡ Some r) (Contains rows.old.items) (Contains rows.new.items)) }
{
    if let Some(kept) = kept_row(row) {
        rows.push(kept)?;
    }
    Ok(())
}

/// Puts those of the rows that paths follow from at the end.
pub fn add_kept<A: Allocator + Copy>(
    rows: &mut Vec<Row, A>,
    these: &[ConfigRow],
) -> Result<(), AllocError>
    ensures { OnOk result (Adds (AreIn these.now) (Contains rows.old.items) (Contains rows.new.items)) }
{
    for row in these {
        push_kept(rows, row)?;
    }
    Ok(())
}

/// The rows that stand in a world and not in the other; of the configuration they are given.
fn only_in<A: Allocator + Copy>(
    alloc: A,
    view: &View<'_, A>,
    other: &View<'_, A>,
    config: &[ConfigRow],
) -> Result<Vec<Row, A>, AllocError>
    requires { IsListOf row_order (StandsOnlyIn (seen view.now).config (seen other.now).config) config.now }
    ensures { IfOk result (λ rows. AreOnlyIn (seen view.now) (seen other.now) rows.items) }
{
    let mut rows = Vec::new(alloc);
    add_ports(&mut rows, view, other)?;
    add_holders(&mut rows, view, other)?;
    add_kept(&mut rows, config)?;
    Ok(rows)
}

/// The rows in which two worlds differ. It walks through both; besides what differs it takes no memory.
///
/// # Errors
/// `AllocError` where there is no memory.
pub fn row_diff<A: Allocator + Copy>(
    alloc: A,
    before: &View<'_, A>,
    after: &View<'_, A>,
) -> Result<RowDiff<A>, AllocError>
    ensures { IfOk result (λ diff. IsRowDiff (seen before.now) (seen after.now) diff.gone.items diff.come.items) }
{
    let change = difference(alloc, before.config, after.config)?;
    let gone = only_in(alloc, before, after, change.taken.as_slice())?;
    let come = only_in(alloc, after, before, change.added.as_slice())?;
    Ok(RowDiff { gone, come })
}
