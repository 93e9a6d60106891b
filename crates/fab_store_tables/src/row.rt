//! The line that shows a row, for rows of each kind.
ghost use Rattle.std.specs.Prelude.{◌↔◌, MatchOption, IfOk, IsTrue};
ghost use Rattle.fab_store_columns.specs.GroupLines.{HasUnitNumber};
ghost use Rattle.fab_store_columns.specs.MetaLines.{ShowsMeta, IsKeptNumber};
ghost use Rattle.fab_store_tables.specs.UndoLines.{HasUnitInRange};
ghost use Rattle.fab_store_tables.specs.declared.stored_line.TableLine.TheVariants as line;
ghost use Rattle.fab_store_tables.specs.Rows.{AnyRow, IsInRange, IsLine, IsNumber, ShowsConfig, ShowsRow, count, port, address, holder, volume, config_row, plan, approval, undo, path};
ghost use Rattle.fab_store_tables.specs.declared.stored_line.TableLine.{TableLine};

use crate::{TableLine, UndoLine};
use fab_inventory::MOST_BYTES;
use fab_mapping::LAST_UNIT;
use fab_store_columns::{
    ActiveLine, AddressLine, ApprovalLine, GroupLine, HolderLine, MOST_NUMBER, MetaLine, MetaRow,
    PartLine, PathLine, PlanLine, PortLine, VolumeLine, ZoningLine,
};
use fab_store_rows::{
    AddressRow, ApprovalRow, ConfigRow, CountRow, HolderRow, PartRow, PathRow, PlanRow, PortEntry,
    StoragePart, UndoRow, VolumeRow,
};
use std::alloc::{AllocError, Allocator};

/// A row of some table.
pub trait Row<A: Allocator + Copy> {
    // the row, as one of any table
    ghost any: { Self → AnyRow };

    /// The line that shows the row, or none where one of its numbers is out of its range: no database
    /// keeps such a number, and no line shows it.
    ///
    /// # Errors
    /// `AllocError` where there is no memory.
    fn line(&self, alloc: A) -> Result<Option<TableLine<A>>, AllocError>
        ensures { IfOk result (λ found. MatchOption found (¬ IsInRange (any self.now)) (ShowsRow (any self.now))) };
}

/// Whether the row of a part is none of a unit, or of one that a database keeps.
fn has_unit_number(row: &PartRow) -> bool
    ensures { IsTrue result ↔ HasUnitNumber row.now }
{
    match row {
        PartRow::Storage(_, StoragePart::Unit(unit, _)) => *unit <= LAST_UNIT,
        _ => true,
    }
}

/// Whether the row of a configuration is none of a unit, or of one that a database keeps.
fn has_unit_in_range(row: &ConfigRow) -> bool
    ensures { IsTrue result ↔ HasUnitInRange row.now }
{
    match row {
        ConfigRow::Part(part) => has_unit_number(part),
        _ => true,
    }
}

/// The line of a number under a key of the table of settings, or none where it is out of its range.
fn number_line<A: Allocator + Copy>(
    alloc: A,
    row: &MetaRow,
    number: u64,
) -> Result<Option<TableLine<A>>, AllocError>
    requires { IsNumber row.now number }
    ensures { IfOk result (λ found. MatchOption found (¬ IsKeptNumber row.now) (IsLine line.Meta ShowsMeta row.now)) }
{
    if number > MOST_NUMBER {
        return Ok(None);
    }
    let line = MetaLine::print(alloc, row)?;
    Ok(Some(TableLine::Meta(line)))
}

impl<A: Allocator + Copy> Row<A> for CountRow {
    ghost any = { count };

    fn line(&self, alloc: A) -> Result<Option<TableLine<A>>, AllocError> {
        match self {
            CountRow::Schema(number) => number_line(alloc, &MetaRow::Schema(*number), *number),
            CountRow::Revision(number) => number_line(alloc, &MetaRow::Revision(*number), *number),
        }
    }
}

impl<A: Allocator + Copy> Row<A> for PortEntry {
    ghost any = { port };

    fn line(&self, alloc: A) -> Result<Option<TableLine<A>>, AllocError> {
        let line = PortLine::print(alloc, self)?;
        Ok(Some(TableLine::Port(line)))
    }
}

impl<A: Allocator + Copy> Row<A> for AddressRow {
    ghost any = { address };

    fn line(&self, alloc: A) -> Result<Option<TableLine<A>>, AllocError> {
        let line = AddressLine::print(alloc, self)?;
        Ok(Some(TableLine::Address(line)))
    }
}

impl<A: Allocator + Copy> Row<A> for HolderRow {
    ghost any = { holder };

    fn line(&self, alloc: A) -> Result<Option<TableLine<A>>, AllocError> {
        let line = HolderLine::print(alloc, self)?;
        Ok(Some(TableLine::Holder(line)))
    }
}

impl<A: Allocator + Copy> Row<A> for VolumeRow {
    ghost any = { volume };

    fn line(&self, alloc: A) -> Result<Option<TableLine<A>>, AllocError> {
        if self.bytes < 1 || self.bytes > MOST_BYTES {
            return Ok(None);
        }
        let line = VolumeLine::print(alloc, self)?;
        Ok(Some(TableLine::Volume(line)))
    }
}

/// The line of a row of a configuration.
fn config_line<A: Allocator + Copy>(alloc: A, row: &ConfigRow) -> Result<TableLine<A>, AllocError>
    requires { HasUnitInRange row.now }
    ensures { IfOk result (ShowsConfig row.now) }
{
    match row {
        ConfigRow::Setting(row) => Ok(TableLine::Meta(MetaLine::of_setting(alloc, row)?)),
        ConfigRow::Zoning(row) => Ok(TableLine::Zoning(ZoningLine::print(alloc, row)?)),
        ConfigRow::Active(row) => Ok(TableLine::Active(ActiveLine::print(alloc, row)?)),
        ConfigRow::Group(row) => Ok(TableLine::Group(GroupLine::print(alloc, row)?)),
        ConfigRow::Part(row) => Ok(TableLine::Part(PartLine::print(alloc, row)?)),
    }
}

impl<A: Allocator + Copy> Row<A> for ConfigRow {
    ghost any = { config_row };

    fn line(&self, alloc: A) -> Result<Option<TableLine<A>>, AllocError> {
        if !has_unit_in_range(self) {
            return Ok(None);
        }
        let line = config_line(alloc, self)?;
        Ok(Some(line))
    }
}

impl<A: Allocator + Copy> Row<A> for PlanRow<A> {
    ghost any = { plan };

    fn line(&self, alloc: A) -> Result<Option<TableLine<A>>, AllocError> {
        if self.position > MOST_NUMBER {
            return Ok(None);
        }
        let line = PlanLine::print(alloc, self)?;
        Ok(Some(TableLine::Plan(line)))
    }
}

impl<A: Allocator + Copy> Row<A> for ApprovalRow {
    ghost any = { approval };

    fn line(&self, alloc: A) -> Result<Option<TableLine<A>>, AllocError> {
        if self.revision > MOST_NUMBER {
            return Ok(None);
        }
        let line = ApprovalLine::print(alloc, self)?;
        Ok(Some(TableLine::Approval(line)))
    }
}

impl<A: Allocator + Copy> Row<A> for UndoRow {
    ghost any = { undo };

    fn line(&self, alloc: A) -> Result<Option<TableLine<A>>, AllocError> {
        if !has_unit_in_range(&self.row) {
            return Ok(None);
        }
        let line = UndoLine::print(alloc, self)?;
        Ok(Some(TableLine::Undo(line)))
    }
}

impl<A: Allocator + Copy> Row<A> for PathRow {
    ghost any = { path };

    fn line(&self, alloc: A) -> Result<Option<TableLine<A>>, AllocError> {
        if self.path.unit > LAST_UNIT {
            return Ok(None);
        }
        let line = PathLine::print(alloc, self)?;
        Ok(Some(TableLine::Path(line)))
    }
}
