//! The world that the tables of a database have.
ghost use Rattle.std.specs.Prelude.{◌≡◌, ◌↔◌, ◌⊎◌, ◌<◌, ℕ, false, Err, IfOk, IfErr, MatchOption, OnOk, IsTrue};
ghost use Rattle.sqlite.specs.Held.{state};
ghost use Rattle.sqlite.specs.State.{HasCleanDisk};
ghost use Rattle.fab_store_base.specs.Opened as opened;
ghost use Rattle.fab_store_rows.specs.Schemas.{present_schema};
ghost use Rattle.fab_store_sql.specs.States.{IsDesk};
ghost use Rattle.fab_store_sql.specs.Trees.{tables_of};
ghost use Rattle.fab_store_base.specs.Calls.{IsOtherSchema, OpensNot};
ghost use Rattle.fab_store_base.specs.Worlds.{HoldsWorld, IsWritten};
ghost use Rattle.fab_store_load.specs.declared.fault.OpenFault.TheVariants as faults;
ghost use Rattle.fab_world.specs.Soundness.{IsSound};
ghost use Rattle.fab_store.specs.Loading.{HaveNamesOnce, TellsOther, TellOther};
ghost use Rattle.fab_store.specs.Reads.{OnlyReads, SeesSame};

use crate::naming::open_tables;
use crate::reading::read_tables;
use fab_store_base::{OpenFault, TableLines, world_of_lines};
use fab_store_columns::{MetaLine, PlanLine};
use fab_store_load::LoadFault;
use fab_store_migration::has_old_schema;
use fab_store_rows::SCHEMA;
use fab_store_sql::ReadFault;
use fab_store_tables::schema_in;
use fab_world::World;
use sqlite::{Alter, Connection};
use std::alloc::{AllocError, Allocator, Global};
use std::collections::BTreeSet;

/// The schema, if it is another than this one and ever was.
fn other(schema: u64) -> Option<u64>
    ensures { MatchOption result (¬ IsOtherSchema schema) (λ n. (n ≡ schema) × IsOtherSchema n) }
{
    (schema != 0 && schema != SCHEMA).then_some(schema)
}

/// The other schema that a setting tells.
fn other_in(line: &MetaLine<Global>) -> Option<u64>
    ensures { MatchOption result ((n : ℕ) → ¬ TellsOther line.now n) (TellsOther line.now) }
{
    match schema_in(line) {
        Some(schema) => other(schema),
        None => None,
    }
}

/// The other schema that one of the settings tells.
fn other_schema(lines: &[MetaLine<Global>]) -> Option<u64>
    ensures { MatchOption result ((n : ℕ) → ¬ TellOther lines.now n) (TellOther lines.now) }
{
    for line in lines {
        if let Some(schema) = other_in(line) {
            return Some(schema);
        }
    }
    None
}

/// Why tables that tell another schema are not opened.
fn schema_fault(schema: u64) -> OpenFault
    requires { IsOtherSchema schema }
    ensures { ((present_schema < schema) × (result ≡ faults.NewerSchema schema)) ⊎ ((schema < present_schema) × (result ≡ faults.OldSchema schema)) }
{
    if schema > SCHEMA {
        OpenFault::NewerSchema(schema)
    } else {
        OpenFault::OldSchema(schema)
    }
}

/// Whether no two lines have one name.
fn are_once(alloc: Global, lines: &[PlanLine<Global>]) -> Result<bool, AllocError>
    ensures { IfOk result (λ once. IsTrue once ↔ HaveNamesOnce lines.now) }
{
    let mut names = BTreeSet::new(alloc);
    for line in lines {
        if !names.insert(line.name.as_str())? {
            return Ok(false);
        }
    }
    Ok(true)
}

/// The world that the lines show.
///
/// # Errors
/// As for a store's `load`. `Store` where nothing sound has the rows, and a plan stands twice: no
/// table with its key has it so.
pub(crate) fn open_lines<A: Allocator + Copy>(
    alloc: A,
    heap: Global,
    lines: &TableLines,
) -> Result<World<A>, OpenFault>
    ensures world { IfOk result (λ w. IsSound w × IsWritten w) }
    ensures rows { IfOk result (HoldsWorld (opened.tables_of lines.now)) }
    ensures fault { IfErr result (OpensNot (opened.tables_of lines.now)) }
    ensures twice { result ≡ Err faults.Store → ¬ HaveNamesOnce lines.now.plans.items }
{
    if let Some(schema) = other_schema(lines.meta.as_slice()) {
        return Err(schema_fault(schema));
    }
    match world_of_lines(alloc, lines) {
        Ok(world) => Ok(world),
        Err(LoadFault::Memory) => Err(OpenFault::Memory),
        Err(LoadFault::Damaged(table)) => match are_once(heap, lines.plans.as_slice()) {
            Ok(true) => Err(OpenFault::Damaged(table)),
            Ok(false) => Err(OpenFault::Store),
            Err(AllocError) => Err(OpenFault::Memory),
        },
    }
}

/// The world that the tables have. The database is as it was.
///
/// # Errors
/// As for a store's `load`.
pub(crate) fn load_world<A: Allocator + Copy, S: Alter>(
    alloc: A,
    heap: Global,
    conn: &mut Connection<S>,
) -> Result<World<A>, OpenFault>
    requires outside { conn.old.in_transaction ≡ false }
    ensures only { OnlyReads (state S.Store conn.old) (state S.Store conn.new) }
    ensures same { HasCleanDisk (state S.Store conn.new) → OnOk result (SeesSame (state S.Store conn.old) (state S.Store conn.new)) }
    ensures desk { HasCleanDisk (state S.Store conn.new) → OnOk result (IsDesk (state S.Store conn.old).now) }
    ensures world { IfOk result (λ w. IsSound w × IsWritten w) }
    ensures rows { HasCleanDisk (state S.Store conn.new) → IfOk result (HoldsWorld (tables_of (state S.Store conn.old).now.trees)) }
    ensures fault { HasCleanDisk (state S.Store conn.new) → IfErr result (OpensNot (tables_of (state S.Store conn.old).now.trees)) }
{
    let _outside = conn.is_autocommit();
    if has_old_schema(conn, heap) {
        return Err(OpenFault::OldSchema(1));
    }
    match read_tables(conn, heap) {
        Ok(lines) => open_tables(alloc, heap, lines),
        Err(ReadFault::Memory) => Err(OpenFault::Memory),
        Err(_) => Err(OpenFault::Store),
    }
}
