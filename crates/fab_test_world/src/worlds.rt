//! Worlds, part by part.

use crate::plans::are_same_plans;
use fab_inventory::Inventory;
use fab_reach_base::Config;
use fab_store_rows::difference;
use fab_store_world::{InventoryLists, inventory_difference};
use fab_world::World;
use std::alloc::{AllocError, Allocator};

/// Whether there is no row.
fn is_empty<A: Allocator>(lists: &InventoryLists<A>) -> bool {
    lists.ports.is_empty() && lists.holders.is_empty() && lists.volumes.is_empty()
}

/// Whether the inventories have the same rows.
fn is_same_inventory<A: Allocator + Copy>(
    alloc: A,
    one: &Inventory<A>,
    other: &Inventory<A>,
) -> Result<bool, AllocError> {
    let found = inventory_difference(alloc, one, other)?;
    Ok(is_empty(&found.taken) && is_empty(&found.added))
}

/// Whether the configurations have the same rows.
fn is_same_config<A: Allocator + Copy>(
    alloc: A,
    one: &Config<A>,
    other: &Config<A>,
) -> Result<bool, AllocError> {
    let found = difference(alloc, one, other)?;
    Ok(found.taken.is_empty() && found.added.is_empty())
}

/// Whether the plans, their order and the revision are the same. It takes no memory.
fn has_same_history<A: Allocator + Copy>(one: &World<A>, other: &World<A>) -> bool {
    if one.revision != other.revision {
        return false;
    }
    if one.order.as_slice() != other.order.as_slice() {
        return false;
    }
    are_same_plans(&one.plans, &other.plans)
}

/// Whether the worlds are the same: the inventory, the configuration, the plans, the order of the
/// activations in force, and the revision. Their paths follow from the first two.
///
/// # Errors
/// `AllocError` where there is no memory.
pub fn is_same<A: Allocator + Copy>(
    alloc: A,
    one: &World<A>,
    other: &World<A>,
) -> Result<bool, AllocError> {
    if !has_same_history(one, other) {
        return Ok(false);
    }
    if !is_same_inventory(alloc, &one.inventory, &other.inventory)? {
        return Ok(false);
    }
    is_same_config(alloc, &one.config, &other.config)
}
