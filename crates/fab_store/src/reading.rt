//! The lines of all tables of a database.
ghost use Rattle.std.specs.Prelude.{◌≡◌, IfOk};
ghost use Rattle.sqlite.specs.Held.{state};
ghost use Rattle.sqlite.specs.State.{HasCleanDisk};
ghost use Rattle.fab_store.specs.Reads.{OnlyReads, SeesSame, AreTablesOf};

use crate::lots::{Both, Lot};
use fab_store_base::TableLines;
use fab_store_columns::{
    ActiveLine, AddressLine, ApprovalLine, GroupLine, HolderLine, MetaLine, PartLine, PathLine,
    PlanLine, PortLine, VolumeLine, ZoningLine,
};
use fab_store_sql::ReadFault;
use fab_store_tables::UndoLine;
use sqlite::{Alter, Connection};
use std::alloc::Global;

type Lines<L> = Vec<L, Global>;

/// The settings, and the tables of the inventory.
type Known = Both<
    Lines<MetaLine<Global>>,
    Both<
        Lines<PortLine<Global>>,
        Both<
            Lines<AddressLine<Global>>,
            Both<Lines<HolderLine<Global>>, Lines<VolumeLine<Global>>>,
        >,
    >,
>;

/// The tables of the configuration.
type Configured = Both<
    Lines<ZoningLine<Global>>,
    Both<Lines<ActiveLine<Global>>, Both<Lines<GroupLine<Global>>, Lines<PartLine<Global>>>>,
>;

/// The plans, and what they led to.
type Planned = Both<
    Lines<PlanLine<Global>>,
    Both<Lines<ApprovalLine<Global>>, Both<Lines<UndoLine<Global>>, Lines<PathLine<Global>>>>,
>;

/// The lots as lines of tables.
fn gathered(known: Known, configured: Configured, planned: Planned) -> TableLines
    ensures meta { result.meta ≡ known.first }
    ensures ports { result.ports ≡ known.rest.first }
    ensures addresses { result.addresses ≡ known.rest.rest.first }
    ensures holders { result.holders ≡ known.rest.rest.rest.first }
    ensures volumes { result.volumes ≡ known.rest.rest.rest.rest }
    ensures zoning { result.zoning ≡ configured.first }
    ensures active { result.active ≡ configured.rest.first }
    ensures groups { result.groups ≡ configured.rest.rest.first }
    ensures parts { result.parts ≡ configured.rest.rest.rest }
    ensures plans { result.plans ≡ planned.first }
    ensures approvals { result.approvals ≡ planned.rest.first }
    ensures undo { result.undo ≡ planned.rest.rest.first }
    ensures paths { result.paths ≡ planned.rest.rest.rest }
{
    TableLines {
        meta: known.first,
        ports: known.rest.first,
        addresses: known.rest.rest.first,
        holders: known.rest.rest.rest.first,
        volumes: known.rest.rest.rest.rest,
        zoning: configured.first,
        active: configured.rest.first,
        groups: configured.rest.rest.first,
        parts: configured.rest.rest.rest,
        plans: planned.first,
        approvals: planned.rest.first,
        undo: planned.rest.rest.first,
        paths: planned.rest.rest.rest,
    }
}

/// The lines of all tables. The database is as it was.
///
/// # Errors
/// As for `read_all`.
pub(crate) fn read_tables<S: Alter>(
    conn: &mut Connection<S>,
    alloc: Global,
) -> Result<TableLines, ReadFault>
    ensures only { OnlyReads (state S.Store conn.old) (state S.Store conn.new) }
    ensures told { HasCleanDisk (state S.Store conn.new) → IfOk result (λ lines. AreTablesOf lines (state S.Store conn.old).now × SeesSame (state S.Store conn.old) (state S.Store conn.new)) }
{
    match <Both<Known, Both<Configured, Planned>> as Lot>::read(conn, alloc) {
        Ok(all) => Ok(gathered(all.first, all.rest.first, all.rest.rest)),
        Err(fault) => Err(fault),
    }
}
