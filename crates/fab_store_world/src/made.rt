//! A world that is made of rows, sound or not.
ghost use Rattle.std.specs.Prelude.{IfOk, IfErr};
ghost use Rattle.fab_world.specs.fab_store_load.Faults.{OfTable};
ghost use Rattle.fab_store_world.specs.OpenedTables.{IsMadeOfTables, HasNoWorld};

use crate::counts::revision_of;
use crate::plans_of;
use fab_world::World;
use fab_world::load::rows::TableRows;
use fab_world::load::{LoadFault, Table, config_of, inventory_of};
use std::alloc::Allocator;

/// A world of the rows, but for those of paths; it may be unsound.
pub fn made_of<A: Allocator + Copy>(alloc: A, tables: &TableRows<A>) -> Result<World<A>, LoadFault>
    ensures ok { IfOk result (IsMadeOfTables tables.now) }
    ensures err { IfErr result (OfTable (λ table. HasNoWorld tables.now)) }
{
    let Some(revision) = revision_of(tables.counts.as_slice()) else {
        return Err(LoadFault::Damaged(Table::Meta));
    };
    let ports = tables.ports.as_slice();
    let addresses = tables.addresses.as_slice();
    let holders = tables.holders.as_slice();
    let volumes = tables.volumes.as_slice();
    let inventory = match inventory_of(alloc, ports, addresses, holders, volumes) {
        Ok(inventory) => inventory,
        Err(fault) => return Err(fault),
    };
    let config = match config_of(alloc, tables.config.as_slice()) {
        Ok(config) => config,
        Err(fault) => return Err(fault),
    };
    let rows = tables.plans.as_slice();
    let approvals = tables.approvals.as_slice();
    let plans = match plans_of(alloc, rows, approvals, tables.undo.as_slice()) {
        Ok(plans) => plans,
        Err(fault) => return Err(fault),
    };
    Ok(World {
        inventory,
        config,
        plans: plans.plans,
        order: plans.order,
        revision,
    })
}
