//! The rows that the lines of all tables show.
ghost use Rattle.std.specs.Prelude.{◌≡◌, IfOk, IfErr, OnOk, filter_map};
ghost use Rattle.std.specs.List.{AllZip};
ghost use Rattle.fab_store_columns.specs.MetaLines.{ShowsMeta};
ghost use Rattle.fab_store_columns.specs.PlanLines.{ShowsPlan};
ghost use Rattle.fab_store_load.specs.Faults.{OfTable};
ghost use Rattle.fab_store_load.specs.declared.fault.Table.TheVariants.{Plans};
ghost use Rattle.fab_store_tables.specs.Reading as spec;

use crate::lines::TableLines;
use crate::listed_line::Line;
use fab_store_columns::{MetaRow, PlanLine};
use fab_store_load::{LoadFault, Table};
use fab_store_rows::{
    AddressRow, ApprovalRow, ConfigRow, CountRow, HolderRow, PathRow, PlanRow, PortEntry,
    TableRows, UndoRow, VolumeRow,
};
use std::alloc::{AllocError, Allocator, Global};

/// The rows of an inventory.
#[derive(Drop)]
struct InventoryIn<A: Allocator + Copy> {
    ports: Vec<PortEntry, A>,
    addresses: Vec<AddressRow, A>,
    holders: Vec<HolderRow, A>,
    volumes: Vec<VolumeRow, A>,
}

/// The rows of plans, of approvals, of changes to undo, and of paths.
#[derive(Drop)]
struct RecordsIn<A: Allocator + Copy> {
    plans: Vec<PlanRow<A>, A>,
    approvals: Vec<ApprovalRow, A>,
    undo: Vec<UndoRow, A>,
    paths: Vec<PathRow, A>,
}

/// The schema and the revision, and the rows of a configuration.
#[derive(Drop)]
struct SettingsIn<A: Allocator + Copy> {
    counts: Vec<CountRow, A>,
    config: Vec<ConfigRow, A>,
}

/// Adds the rows that the lines of a table show.
fn add_rows<A: Allocator + Copy, R: Copy, L: Line<R>>(
    rows: &mut Vec<R, A>,
    lines: &[L],
    table: Table,
) -> Result<(), LoadFault>
    ensures ok { OnOk result (spec.AddsShown L.shows lines.now rows.old.items rows.new.items) }
    ensures err { IfErr result (OfTable (spec.IsOddAt L.shows lines.now table)) }
{
    for line in lines {
        let Some(row) = line.row() else {
            return Err(LoadFault::Damaged(table));
        };
        if rows.push(row).is_err() {
            return Err(LoadFault::Memory);
        }
    }
    Ok(())
}

/// The rows that the lines of a table show.
fn rows_in<A: Allocator + Copy, R: Copy, L: Line<R>>(
    alloc: A,
    lines: &[L],
    table: Table,
) -> Result<Vec<R, A>, LoadFault>
    ensures ok { IfOk result (λ rows. AllZip L.shows lines.now rows.items) }
    ensures err { IfErr result (OfTable (spec.IsOddAt L.shows lines.now table)) }
{
    let mut rows = Vec::new(alloc);
    match add_rows(&mut rows, lines, table) {
        Ok(()) => Ok(rows),
        Err(fault) => Err(fault),
    }
}

/// The schema or the revision that a row of settings tells, if it tells one.
fn count_in(row: &MetaRow) -> Option<CountRow>
    ensures { result ≡ spec.count_in row.now }
{
    match row {
        MetaRow::Schema(number) => Some(CountRow::Schema(*number)),
        MetaRow::Revision(number) => Some(CountRow::Revision(*number)),
        MetaRow::Setting(_) => None,
    }
}

/// The row of a configuration that a row of settings is, if it is one.
fn setting_in(row: &MetaRow) -> Option<ConfigRow>
    ensures { result ≡ spec.setting_in row.now }
{
    match row {
        MetaRow::Setting(row) => Some(ConfigRow::Setting(*row)),
        _ => None,
    }
}

/// The schema and the revision among rows of settings.
fn counts_in<A: Allocator + Copy>(
    alloc: A,
    rows: &[MetaRow],
) -> Result<Vec<CountRow, A>, AllocError>
    ensures { IfOk result (λ counts. counts.items ≡ filter_map spec.count_in rows.now) }
{
    rows.iter().filter_map(count_in).collect(alloc)
}

/// The rows of a configuration among rows of settings.
fn settings_in<A: Allocator + Copy>(
    alloc: A,
    rows: &[MetaRow],
) -> Result<Vec<ConfigRow, A>, AllocError>
    ensures { IfOk result (λ settings. settings.items ≡ filter_map spec.setting_in rows.now) }
{
    rows.iter().filter_map(setting_in).collect(alloc)
}

/// The line of a plan, in other memory.
fn copied<A: Allocator + Copy>(alloc: A, line: &PlanLine<Global>) -> Result<PlanLine<A>, AllocError>
    ensures { IfOk result (λ copy. copy ≡ line.now) }
{
    Ok(PlanLine {
        name: line.name.as_str().to_string(alloc)?,
        author: line.author.as_str().to_string(alloc)?,
        text: line.text.as_str().to_string(alloc)?,
        state: line.state.as_str().to_string(alloc)?,
        position: line.position,
    })
}

/// The rows that the lines of plans show.
fn plans_in<A: Allocator + Copy>(
    alloc: A,
    lines: &[PlanLine<Global>],
) -> Result<Vec<PlanRow<A>, A>, LoadFault>
    ensures ok { IfOk result (λ rows. AllZip ShowsPlan lines.now rows.items) }
    ensures err { IfErr result (OfTable (spec.IsOddAt ShowsPlan lines.now Plans)) }
{
    let mut rows = Vec::new(alloc);
    for line in lines {
        let line = copied(alloc, line)?;
        let Some(row) = line.read() else {
            return Err(LoadFault::Damaged(Table::Plans));
        };
        if rows.push(row).is_err() {
            return Err(LoadFault::Memory);
        }
    }
    Ok(rows)
}

/// The rows that the lines of the tables of a configuration show, behind those of its settings.
fn config_in<A: Allocator + Copy>(
    settings: Vec<ConfigRow, A>,
    lines: &TableLines,
) -> Result<Vec<ConfigRow, A>, LoadFault>
    ensures ok { IfOk result (λ rows. spec.AreConfigRowsOf A settings.items lines.now rows.items) }
    ensures err { IfErr result (OfTable (spec.HasOddLine A lines.now)) }
{
    let mut rows = settings;
    if let Err(fault) = add_rows(&mut rows, lines.zoning.as_slice(), Table::Zoning) {
        return Err(fault);
    }
    if let Err(fault) = add_rows(&mut rows, lines.active.as_slice(), Table::Active) {
        return Err(fault);
    }
    if let Err(fault) = add_rows(&mut rows, lines.groups.as_slice(), Table::Groups) {
        return Err(fault);
    }
    if let Err(fault) = add_rows(&mut rows, lines.parts.as_slice(), Table::GroupParts) {
        return Err(fault);
    }
    Ok(rows)
}

/// The rows that the lines of settings show.
fn meta_in<A: Allocator + Copy>(alloc: A, lines: &TableLines) -> Result<Vec<MetaRow, A>, LoadFault>
    ensures ok { IfOk result (λ rows. AllZip ShowsMeta lines.now.meta.items rows.items) }
    ensures err { IfErr result (OfTable (spec.HasOddLine A lines.now)) }
{
    match rows_in(alloc, lines.meta.as_slice(), Table::Meta) {
        Ok(rows) => Ok(rows),
        Err(fault) => Err(fault),
    }
}

/// The rows that the lines of settings, which show these, and of the tables of a configuration show.
fn settings_of<A: Allocator + Copy>(
    alloc: A,
    settings: &[MetaRow],
    lines: &TableLines,
) -> Result<SettingsIn<A>, LoadFault>
    ensures ok { AllZip ShowsMeta lines.now.meta.items settings.now → IfOk result (λ rows. spec.AreSettingsOf A lines.now rows.counts.items rows.config.items) }
    ensures err { IfErr result (OfTable (spec.HasOddLine A lines.now)) }
{
    let counts = counts_in(alloc, settings)?;
    let config = settings_in(alloc, settings)?;
    match config_in(config, lines) {
        Ok(config) => Ok(SettingsIn { counts, config }),
        Err(fault) => Err(fault),
    }
}

/// The rows that the lines of the tables of an inventory show.
fn inventory_of<A: Allocator + Copy>(
    alloc: A,
    lines: &TableLines,
) -> Result<InventoryIn<A>, LoadFault>
    ensures ok { IfOk result (spec.AreInventoryOf lines.now) }
    ensures err { IfErr result (OfTable (spec.HasOddLine A lines.now)) }
{
    let ports = match rows_in(alloc, lines.ports.as_slice(), Table::Ports) {
        Ok(rows) => rows,
        Err(fault) => return Err(fault),
    };
    let addresses = match rows_in(alloc, lines.addresses.as_slice(), Table::Addresses) {
        Ok(rows) => rows,
        Err(fault) => return Err(fault),
    };
    let holders = match rows_in(alloc, lines.holders.as_slice(), Table::Holders) {
        Ok(rows) => rows,
        Err(fault) => return Err(fault),
    };
    let volumes = match rows_in(alloc, lines.volumes.as_slice(), Table::Volumes) {
        Ok(rows) => rows,
        Err(fault) => return Err(fault),
    };
    Ok(InventoryIn {
        ports,
        addresses,
        holders,
        volumes,
    })
}

/// The rows that the lines of plans, of approvals, of changes to undo and of paths show.
fn records_of<A: Allocator + Copy>(alloc: A, lines: &TableLines) -> Result<RecordsIn<A>, LoadFault>
    ensures ok { IfOk result (spec.AreRecordsOf lines.now) }
    ensures err { IfErr result (OfTable (spec.HasOddLine A lines.now)) }
{
    let plans = match plans_in(alloc, lines.plans.as_slice()) {
        Ok(rows) => rows,
        Err(fault) => return Err(fault),
    };
    let approvals = match rows_in(alloc, lines.approvals.as_slice(), Table::Approvals) {
        Ok(rows) => rows,
        Err(fault) => return Err(fault),
    };
    let undo = match rows_in(alloc, lines.undo.as_slice(), Table::Undo) {
        Ok(rows) => rows,
        Err(fault) => return Err(fault),
    };
    let paths = match rows_in(alloc, lines.paths.as_slice(), Table::Paths) {
        Ok(rows) => rows,
        Err(fault) => return Err(fault),
    };
    Ok(RecordsIn {
        plans,
        approvals,
        undo,
        paths,
    })
}

/// The rows that the lines of all tables show: each line shows a row, and each row is shown by a
/// line.
///
/// # Errors
/// `Damaged` with the first table, in the order of `Table`, of which some line shows no row. `Memory`
/// where there is none.
pub fn rows_of_lines<A: Allocator + Copy>(
    alloc: A,
    lines: &TableLines,
) -> Result<TableRows<A>, LoadFault>
    ensures ok { IfOk result (spec.AreRowsOf lines.now) }
    ensures err { IfErr result (OfTable (spec.HasOddLine A lines.now)) }
{
    let settings = match meta_in(alloc, lines) {
        Ok(rows) => rows,
        Err(fault) => return Err(fault),
    };
    let InventoryIn {
        ports,
        addresses,
        holders,
        volumes,
    } = match inventory_of(alloc, lines) {
        Ok(rows) => rows,
        Err(fault) => return Err(fault),
    };
    let SettingsIn { counts, config } = match settings_of(alloc, settings.as_slice(), lines) {
        Ok(rows) => rows,
        Err(fault) => return Err(fault),
    };
    let RecordsIn {
        plans,
        approvals,
        undo,
        paths,
    } = match records_of(alloc, lines) {
        Ok(rows) => rows,
        Err(fault) => return Err(fault),
    };
    Ok(TableRows {
        counts,
        ports,
        addresses,
        holders,
        volumes,
        config,
        plans,
        approvals,
        undo,
        paths,
    })
}
