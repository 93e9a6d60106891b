//! The rows of inventories, configurations and paths in which the next world differs.
ghost use Rattle.std.specs.Prelude.{◌≡◌, IfOk};
ghost use Rattle.fab_reach_base.specs.fab_inventory.Inventories.{InventoryRows};
ghost use Rattle.fab_reach_base.specs.Books.{IsDelta};
ghost use Rattle.fab_reach_base.specs.Records.{ConfigRows};
ghost use Rattle.fab_reach_base.specs.Views.{seen};
ghost use Rattle.fab_store_rows.specs.Differences.{IsDifference};
ghost use Rattle.fab_store_world.specs.Inventories.{AreListsOf, IsKnownOnlyIn, IsInventoryDifference};
ghost use Rattle.fab_world.specs.Worlds.{records_of};
ghost use Rattle.fab_desk_base.specs.Keeping.{KeepsHosts};
ghost use Rattle.fab_desk_commands.specs.Nexts.{next_world, Suits, TellsChange};
ghost use Rattle.fab_desk_rows.specs.Moves.{ArePartsMoved};

use crate::paths::path_rows_moved;
use fab_desk_commands::{Next, Turn, copied};
use fab_reach_base::inventory::Port;
use fab_reach_base::{Config, Delta, View};
use fab_store_rows::{AddressRow, ConfigRow, HolderRow, PortEntry, RowDifference, VolumeRow};
use fab_store_world::{InventoryDifference, InventoryLists, PathRowDifference};
use fab_world::World;
use std::alloc::{AllocError, Allocator};

/// Rows of inventories, configurations and paths.
#[derive(Drop)]
pub struct Parts<A: Allocator + Copy> {
    pub inventory: InventoryDifference<A>,
    pub config: RowDifference<A>,
    pub paths: PathRowDifference<A>,
}

/// The inventory and the configuration of the next world.
fn view_after<'a, A: Allocator + Copy>(world: &'a World<A>, next: &'a Next<A>) -> View<'a, A>
    ensures { seen result ≡ records_of (next_world world.now next.now) }
{
    match next {
        Next::Stock { inventory, .. } => View::of(inventory, &world.config),
        Next::Reconfigured { config, .. } => View::of(&world.inventory, config),
        Next::Same | Next::Staged { .. } | Next::Turned { .. } => {
            View::of(&world.inventory, &world.config)
        }
    }
}

/// No rows of an inventory. It takes no memory.
fn no_lists<A: Allocator + Copy>(alloc: A) -> InventoryLists<A>
    ensures { (v : InventoryRows) → AreListsOf (IsKnownOnlyIn v v) result }
{
    InventoryLists {
        ports: Vec::new(alloc),
        entries: Vec::new(alloc),
        addresses: Vec::new(alloc),
        holders: Vec::new(alloc),
        volumes: Vec::new(alloc),
    }
}

/// The difference of an inventory from itself. It takes no memory.
fn same_inventory<A: Allocator + Copy>(alloc: A) -> InventoryDifference<A>
    ensures { (v : InventoryRows) → IsInventoryDifference v v result }
{
    InventoryDifference {
        taken: no_lists(alloc),
        added: no_lists(alloc),
    }
}

/// The difference of a configuration from itself. It takes no memory.
fn same_config<A: Allocator + Copy>(alloc: A) -> RowDifference<A>
    ensures { (c : ConfigRows) → IsDifference c c result.taken.items result.added.items }
{
    RowDifference {
        taken: Vec::new(alloc),
        added: Vec::new(alloc),
    }
}

/// Rows of an inventory once more.
fn lists_again<A: Allocator + Copy>(
    alloc: A,
    lists: &InventoryLists<A>,
) -> Result<InventoryLists<A>, AllocError>
    ensures { IfOk result (λ again. (again.ports.items ≡ lists.now.ports.items) × (again.entries.items ≡ lists.now.entries.items) × (again.addresses.items ≡ lists.now.addresses.items) × (again.holders.items ≡ lists.now.holders.items) × (again.volumes.items ≡ lists.now.volumes.items)) }
{
    let ports = copied::<A, Port>(alloc, lists.ports.as_slice())?;
    let entries = copied::<A, PortEntry>(alloc, lists.entries.as_slice())?;
    let addresses = copied::<A, AddressRow>(alloc, lists.addresses.as_slice())?;
    let holders = copied::<A, HolderRow>(alloc, lists.holders.as_slice())?;
    let volumes = copied::<A, VolumeRow>(alloc, lists.volumes.as_slice())?;
    Ok(InventoryLists {
        ports,
        entries,
        addresses,
        holders,
        volumes,
    })
}

/// The rows in which two inventories differ, once more.
fn inventory_told<A: Allocator + Copy>(
    alloc: A,
    change: &InventoryDifference<A>,
) -> Result<InventoryDifference<A>, AllocError>
    ensures { IfOk result (λ again. (v w : InventoryRows) → IsInventoryDifference v w change.now → IsInventoryDifference v w again) }
{
    let taken = lists_again(alloc, &change.taken)?;
    let added = lists_again(alloc, &change.added)?;
    Ok(InventoryDifference { taken, added })
}

/// The rows of the inventory in which the next world differs.
fn inventory_moved<A: Allocator + Copy>(
    alloc: A,
    world: &World<A>,
    next: &Next<A>,
) -> Result<InventoryDifference<A>, AllocError>
    requires { Suits world.now next.now }
    ensures { IfOk result (IsInventoryDifference world.now.inventory (next_world world.now next.now).inventory) }
{
    let _world = world;
    match next {
        Next::Stock { change, .. } => inventory_told(alloc, change),
        Next::Same | Next::Staged { .. } | Next::Turned { .. } | Next::Reconfigured { .. } => {
            Ok(same_inventory(alloc))
        }
    }
}

/// The rows in which a configuration differs to which a turn leads: the turn tells them.
fn rows_told<A: Allocator + Copy>(
    alloc: A,
    world: &World<A>,
    config: &Config<A>,
    turn: &Turn<A>,
) -> Result<RowDifference<A>, AllocError>
    requires { TellsChange world.now.config config.now turn.now }
    ensures { IfOk result (λ d. IsDifference world.now.config config.now d.taken.items d.added.items) }
{
    let _world = world;
    let _config = config;
    match turn {
        Turn::Activated(change) | Turn::RolledBack(change) => {
            let taken = copied::<A, ConfigRow>(alloc, change.taken.as_slice())?;
            let added = copied::<A, ConfigRow>(alloc, change.added.as_slice())?;
            Ok(RowDifference { taken, added })
        }
        Turn::Withdrawn | Turn::Approved(_) => unreachable!(),
    }
}

/// The rows of the configuration in which the next world differs.
fn config_moved<A: Allocator + Copy>(
    alloc: A,
    world: &World<A>,
    next: &Next<A>,
) -> Result<RowDifference<A>, AllocError>
    requires { Suits world.now next.now }
    ensures { IfOk result (λ d. IsDifference world.now.config (next_world world.now next.now).config d.taken.items d.added.items) }
{
    match next {
        Next::Reconfigured { config, turn, .. } => rows_told(alloc, world, config, turn),
        Next::Same | Next::Stock { .. } | Next::Staged { .. } | Next::Turned { .. } => {
            Ok(same_config(alloc))
        }
    }
}

/// The rows of inventories, configurations and paths in which the next world differs.
///
/// # Errors
/// `AllocError` where there is no memory.
pub fn parts_moved<A: Allocator + Copy>(
    alloc: A,
    world: &World<A>,
    next: &Next<A>,
    delta: &Delta<A>,
) -> Result<Parts<A>, AllocError>
    requires suits { Suits world.now next.now }
    requires delta { IsDelta (records_of world.now) (records_of (next_world world.now next.now)) delta.now.gained.items delta.now.lost.items }
    requires keeps { KeepsHosts (records_of world.now) (records_of (next_world world.now next.now)) }
    ensures { IfOk result (ArePartsMoved world.now (next_world world.now next.now)) }
{
    let before = View::of(&world.inventory, &world.config);
    let after = view_after(world, next);
    let inventory = inventory_moved(alloc, world, next)?;
    let config = config_moved(alloc, world, next)?;
    let paths = path_rows_moved(alloc, &before, &after, delta)?;
    Ok(Parts {
        inventory,
        config,
        paths,
    })
}
