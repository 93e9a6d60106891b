//! The rows of all tables in which the next world differs.
ghost use Rattle.std.specs.Prelude.{IfOk};
ghost use Rattle.fab_reach_base.specs.Books.{IsDelta};
ghost use Rattle.fab_world.specs.Soundness.{IsSound};
ghost use Rattle.fab_world.specs.Worlds.{WorldRows, records_of};
ghost use Rattle.fab_store_world.specs.Tables.{AreChanges, IsCountRow, count_order};
ghost use Rattle.fab_desk_base.specs.Keeping.{KeepsHosts};
ghost use Rattle.fab_desk_commands.specs.Nexts.{next_world, Suits};
ghost use Rattle.fab_desk_rows.specs.Moves.{AreMoved, ArePartsMoved, ArePlanTablesMoved};

use crate::counts::counts_moved;
use crate::moved::Moved;
use crate::parts::{Parts, parts_moved};
use crate::plans::{PlanTables, plan_tables_moved};
use fab_desk_commands::Next;
use fab_reach_base::Delta;
use fab_store_rows::{ApprovalRow, CountRow, PlanRow, TableRows, UndoRow};
use fab_store_world::{Changes, InventoryDifference};
use fab_world::World;
use std::alloc::{AllocError, Allocator};

/// The rows of all tables together. It takes no memory.
fn together<A: Allocator + Copy>(
    counts: Moved<CountRow, A>,
    parts: Parts<A>,
    plans: Moved<PlanRow<A>, A>,
    approvals: Moved<ApprovalRow, A>,
    undo: Moved<UndoRow, A>,
) -> Changes<A>
    ensures { (w v : WorldRows) → AreMoved count_order IsCountRow w v counts.removed.items counts.added.items → ArePartsMoved w v parts → ArePlanTablesMoved w v (record { plans = plans; approvals = approvals; undo = undo }) → AreChanges w v result }
{
    let Parts {
        inventory,
        config,
        paths,
    } = parts;
    let InventoryDifference { taken, added } = inventory;
    Changes {
        removed: TableRows {
            counts: counts.removed,
            ports: taken.entries,
            addresses: taken.addresses,
            holders: taken.holders,
            volumes: taken.volumes,
            config: config.taken,
            plans: plans.removed,
            approvals: approvals.removed,
            undo: undo.removed,
            paths: paths.taken,
        },
        added: TableRows {
            counts: counts.added,
            ports: added.entries,
            addresses: added.addresses,
            holders: added.holders,
            volumes: added.volumes,
            config: config.added,
            plans: plans.added,
            approvals: approvals.added,
            undo: undo.added,
            paths: paths.added,
        },
    }
}

/// The rows of all tables in which the world that the parts make of this one differs: those to
/// remove, which stand in this world and not in the next, and those to add, which stand in the next
/// and not in this. Each is listed once, and no other, in the order of its table. The lists of paths
/// that the change gains and loses are given. The next world is not made for that: what is told costs
/// by the parts that are new, and not by all that there is.
///
/// # Errors
/// `AllocError` where there is no memory.
pub fn next_changes<A: Allocator + Copy>(
    alloc: A,
    world: &World<A>,
    next: &Next<A>,
    delta: &Delta<A>,
) -> Result<Changes<A>, AllocError>
    requires suits { Suits world.now next.now }
    requires sound { IsSound world.now }
    requires next_sound { IsSound (next_world world.now next.now) }
    requires delta { IsDelta (records_of world.now) (records_of (next_world world.now next.now)) delta.now.gained.items delta.now.lost.items }
    requires keeps { KeepsHosts (records_of world.now) (records_of (next_world world.now next.now)) }
    ensures { IfOk result (AreChanges world.now (next_world world.now next.now)) }
{
    let counts = counts_moved(alloc, world, next)?;
    let parts = parts_moved(alloc, world, next, delta)?;
    let tables = plan_tables_moved(alloc, world, next)?;
    let PlanTables {
        plans,
        approvals,
        undo,
    } = tables;
    Ok(together(counts, parts, plans, approvals, undo))
}
