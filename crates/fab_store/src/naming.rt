//! Which of several damaged tables is named: the first. No contract tells of it; tests do.
ghost use Rattle.std.specs.Prelude.{IfOk, IfErr};
ghost use Rattle.fab_store_base.specs.Calls.{OpensNot};
ghost use Rattle.fab_store_base.specs.Opened as opened;
ghost use Rattle.fab_store_base.specs.Worlds.{HoldsWorld, IsWritten};
ghost use Rattle.fab_store_tables.specs.Tables.{Tables};
ghost use Rattle.fab_world.specs.Soundness.{IsSound};

use crate::opening::open_lines;
use fab_store_base::{OpenFault, Table, TableLines, world_of_lines};
use fab_store_load::LoadFault;
use fab_world::World;
use std::alloc::{AllocError, Allocator, Global};

/// The tables, in the order in which a damaged one is named.
const ORDER: &[Table] = &[
    Table::Meta,
    Table::Ports,
    Table::Addresses,
    Table::Holders,
    Table::Volumes,
    Table::Zoning,
    Table::Active,
    Table::Groups,
    Table::GroupParts,
    Table::Plans,
    Table::Approvals,
    Table::Undo,
    Table::Paths,
];

/// Whether a table comes before another, in that order.
fn comes_before(table: Table, other: Table) -> bool {
    for found in ORDER {
        if *found == other {
            return false;
        }
        if *found == table {
            return true;
        }
    }
    false
}

/// Takes the lines of a table out, unless it comes before the other.
fn keep_if_before<L: Drop>(lines: &mut Vec<L, Global>, table: Table, other: Table) {
    if !comes_before(table, other) {
        lines.clear();
    }
}

/// Takes the lines of all tables out that do not come before this one.
fn keep_before(lines: &mut TableLines, table: Table) {
    keep_if_before(&mut lines.meta, Table::Meta, table);
    keep_if_before(&mut lines.ports, Table::Ports, table);
    keep_if_before(&mut lines.addresses, Table::Addresses, table);
    keep_if_before(&mut lines.holders, Table::Holders, table);
    keep_if_before(&mut lines.volumes, Table::Volumes, table);
    keep_if_before(&mut lines.zoning, Table::Zoning, table);
    keep_if_before(&mut lines.active, Table::Active, table);
    keep_if_before(&mut lines.groups, Table::Groups, table);
    keep_if_before(&mut lines.parts, Table::GroupParts, table);
    keep_if_before(&mut lines.plans, Table::Plans, table);
    keep_if_before(&mut lines.approvals, Table::Approvals, table);
    keep_if_before(&mut lines.undo, Table::Undo, table);
    keep_if_before(&mut lines.paths, Table::Paths, table);
}

/// Whether a fault that is found in one table is a fault, though the rows of the tables from another on
/// are left out. The rows of a table speak of tables before it alone, but for ports, which name holders.
fn is_known(found: Table, from: Table) -> bool {
    comes_before(found, from) && (found != Table::Ports || comes_before(Table::Holders, from))
}

/// The first table that has a fault, where a fault of this one is known.
///
/// # Errors
/// `AllocError` where there is no memory.
fn first_damaged<A: Allocator + Copy>(
    alloc: A,
    lines: &mut TableLines,
    table: Table,
) -> Result<Table, AllocError> {
    keep_before(lines, table);
    match world_of_lines(alloc, lines) {
        Err(LoadFault::Damaged(found)) if is_known(found, table) => Ok(found),
        Err(LoadFault::Memory) => Err(AllocError),
        _ => Ok(table),
    }
}

/// The fault of the lines, with the first damaged table where it names one.
fn told_first<A: Allocator + Copy>(alloc: A, lines: &mut TableLines, fault: OpenFault) -> OpenFault
    ensures { (t : Tables) → OpensNot t fault → OpensNot t result }
{
    let OpenFault::Damaged(table) = fault else {
        return fault;
    };
    match first_damaged(alloc, lines, table) {
        Ok(first) => OpenFault::Damaged(first),
        Err(AllocError) => OpenFault::Memory,
    }
}

/// The world that the lines show.
///
/// # Errors
/// As for a store's `load`, with the first table that has a fault.
pub(crate) fn open_tables<A: Allocator + Copy>(
    alloc: A,
    heap: Global,
    lines: TableLines,
) -> Result<World<A>, OpenFault>
    ensures world { IfOk result (λ w. IsSound w × IsWritten w) }
    ensures rows { IfOk result (HoldsWorld (opened.tables_of lines)) }
    ensures fault { IfErr result (OpensNot (opened.tables_of lines)) }
{
    let mut lines = lines;
    match open_lines(alloc, heap, &lines) {
        Ok(world) => Ok(world),
        Err(fault) => Err(told_first(alloc, &mut lines, fault)),
    }
}
