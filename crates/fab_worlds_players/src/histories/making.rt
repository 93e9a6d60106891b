//! The rows of a world, line by line.

use fab_inventory::HolderKind;
use fab_names::{Name, Wwn};
use fab_store_rows::{
    ConfigRow, CountRow, HolderRow, PlanRow, PlanState, PortEntry, SCHEMA, Sign, TableRows,
    UndoRow, VolumeRow,
};
use fab_store_tables::UndoLine;
use std::alloc::{Allocator, Global};

/// The text of each plan.
const TEXT: &str = "deactivate A\n";

/// The bytes of each volume.
const BYTES: u64 = 512;

/// The name of this text.
fn name_of(text: &str) -> Option<Name> {
    Name::read(text).ok()
}

/// The row that an entry of the table of changes tells.
pub fn row_of(heap: Global, entry: &str) -> Option<ConfigRow> {
    let line = UndoLine {
        plan: String::from_str(heap, "p").ok()?,
        sign: String::from_str(heap, "+").ok()?,
        entry: String::from_str(heap, entry).ok()?,
    };
    let told = line.read()?;
    Some(told.row)
}

/// The row of this number.
fn numbered(known: &[ConfigRow], text: &str) -> Option<ConfigRow> {
    let number: usize = text.parse().ok()?;
    known.get(number).copied()
}

/// No rows but the schema and a revision.
pub fn no_rows<A: Allocator + Copy>(alloc: A) -> Option<TableRows<A>> {
    let mut counts = Vec::new(alloc);
    counts.push(CountRow::Schema(SCHEMA)).ok()?;
    counts.push(CountRow::Revision(1)).ok()?;
    Some(TableRows {
        counts,
        ports: Vec::new(alloc),
        addresses: Vec::new(alloc),
        holders: Vec::new(alloc),
        volumes: Vec::new(alloc),
        config: Vec::new(alloc),
        plans: Vec::new(alloc),
        approvals: Vec::new(alloc),
        undo: Vec::new(alloc),
        paths: Vec::new(alloc),
    })
}

/// Puts a port of a holder, which is logged in nowhere.
fn put_port<A: Allocator + Copy>(
    tables: &mut TableRows<A>,
    holder: Name,
    text: &str,
) -> Option<()> {
    let name = Wwn::read(text).ok()?;
    let port = PortEntry {
        name,
        node: name,
        at: None,
        holder: Some(holder),
    };
    tables.ports.push(port).ok()
}

/// Puts a host or an array with its ports.
pub fn hold<A: Allocator + Copy>(
    tables: &mut TableRows<A>,
    kind: HolderKind,
    text: &str,
) -> Option<()> {
    let (name, ports) = text.split_once(' ')?;
    let (name, tenant) = (name_of(name)?, name_of("blue")?);
    tables.holders.push(HolderRow { name, kind, tenant }).ok()?;
    for port in ports.split(' ') {
        put_port(tables, name, port)?;
    }
    Some(())
}

/// Puts a volume.
pub fn put_volume<A: Allocator + Copy>(tables: &mut TableRows<A>, text: &str) -> Option<()> {
    let (name, array) = text.split_once(' ')?;
    let volume = VolumeRow {
        name: name_of(name)?,
        array: name_of(array)?,
        tenant: name_of("blue")?,
        bytes: BYTES,
    };
    tables.volumes.push(volume).ok()
}

/// Puts the rows of the configuration.
pub fn put_config<A: Allocator + Copy>(
    tables: &mut TableRows<A>,
    known: &[ConfigRow],
    text: &str,
) -> Option<()> {
    for word in text.split(' ') {
        let row = numbered(known, word)?;
        tables.config.push(row).ok()?;
    }
    Some(())
}

/// The sign and the row of a word.
fn signed(known: &[ConfigRow], word: &str) -> Option<(Sign, ConfigRow)> {
    if let Some(number) = word.strip_prefix('+') {
        return Some((Sign::Added, numbered(known, number)?));
    }
    let number = word.strip_prefix('-')?;
    Some((Sign::Taken, numbered(known, number)?))
}

/// Puts an active plan, the next of those in force.
fn put_active<A: Allocator + Copy>(alloc: A, tables: &mut TableRows<A>, name: Name) -> Option<()> {
    let position = tables.plans.len() as u64;
    let plan = PlanRow {
        name,
        author: name_of("ada")?,
        text: String::from_str(alloc, TEXT).ok()?,
        state: PlanState::Active,
        position: position.saturating_add(1),
    };
    tables.plans.push(plan).ok()
}

/// Puts a plan and what its activation changed.
pub fn put_plan<A: Allocator + Copy>(
    alloc: A,
    tables: &mut TableRows<A>,
    known: &[ConfigRow],
    text: &str,
) -> Option<()> {
    let (name, words) = text.split_once(' ').unwrap_or((text, ""));
    let plan = name_of(name)?;
    put_active(alloc, tables, plan)?;
    if words.is_empty() {
        return Some(());
    }
    for word in words.split(' ') {
        let (sign, row) = signed(known, word)?;
        tables.undo.push(UndoRow { plan, sign, row }).ok()?;
    }
    Some(())
}

/// Takes away all but what is known.
pub fn begin<A: Allocator + Copy>(tables: &mut TableRows<A>) {
    tables.config.clear();
    tables.plans.clear();
    tables.undo.clear();
}
