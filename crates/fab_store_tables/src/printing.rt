//! The lines of the rows of all tables.
ghost use Rattle.std.specs.Prelude.{map, OnOk, IfOk};
ghost use Rattle.fab_store_tables.specs.Listing.{Adds, AreLinesOf, all_rows, inventory_rows, config_rows, record_rows};

use crate::TableLine;
use crate::row::Row;
use fab_store_rows::TableRows;
use std::alloc::{AllocError, Allocator};

/// Adds the lines of the rows.
fn add_lines<A: Allocator + Copy, R: Row<A>>(
    alloc: A,
    lines: &mut Vec<TableLine<A>, A>,
    rows: &[R],
) -> Result<(), AllocError>
    ensures { OnOk result (Adds (map R.any rows.now) lines.old.items lines.new.items) }
{
    for row in rows {
        let Some(line) = row.line(alloc)? else {
            continue;
        };
        lines.push(line)?;
    }
    Ok(())
}

/// Adds the lines of the schema and the revision, and of an inventory.
fn add_inventory<A: Allocator + Copy>(
    alloc: A,
    lines: &mut Vec<TableLine<A>, A>,
    rows: &TableRows<A>,
) -> Result<(), AllocError>
    ensures { OnOk result (Adds (inventory_rows rows.now) lines.old.items lines.new.items) }
{
    add_lines(alloc, lines, rows.counts.as_slice())?;
    add_lines(alloc, lines, rows.ports.as_slice())?;
    add_lines(alloc, lines, rows.addresses.as_slice())?;
    add_lines(alloc, lines, rows.holders.as_slice())?;
    add_lines(alloc, lines, rows.volumes.as_slice())?;
    Ok(())
}

/// Adds the lines of a configuration, and of plans and their approvals.
fn add_config<A: Allocator + Copy>(
    alloc: A,
    lines: &mut Vec<TableLine<A>, A>,
    rows: &TableRows<A>,
) -> Result<(), AllocError>
    ensures { OnOk result (Adds (config_rows rows.now) lines.old.items lines.new.items) }
{
    add_lines(alloc, lines, rows.config.as_slice())?;
    add_lines(alloc, lines, rows.plans.as_slice())?;
    add_lines(alloc, lines, rows.approvals.as_slice())?;
    Ok(())
}

/// Adds the lines of changes to undo, and of paths.
#[tactic(auto, using(crate::proofs::LinesAdded::adds_then))]
fn add_records<A: Allocator + Copy>(
    alloc: A,
    lines: &mut Vec<TableLine<A>, A>,
    rows: &TableRows<A>,
) -> Result<(), AllocError>
    ensures { OnOk result (Adds (record_rows rows.now) lines.old.items lines.new.items) }
{
    add_lines(alloc, lines, rows.undo.as_slice())?;
    add_lines(alloc, lines, rows.paths.as_slice())?;
    Ok(())
}

/// The lines that show the rows of all tables: each row whose numbers are within their range has its
/// line, and each line shows one of the rows.
///
/// # Errors
/// `AllocError` where there is no memory.
pub fn lines_of_rows<A: Allocator + Copy>(
    alloc: A,
    rows: &TableRows<A>,
) -> Result<Vec<TableLine<A>, A>, AllocError>
    ensures { IfOk result (λ lines. AreLinesOf (all_rows rows.now) lines.items) }
{
    let mut lines = Vec::new(alloc);
    add_inventory(alloc, &mut lines, rows)?;
    add_config(alloc, &mut lines, rows)?;
    add_records(alloc, &mut lines, rows)?;
    Ok(lines)
}
