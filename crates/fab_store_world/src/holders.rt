//! What one inventory has and another has not, where they are one but for ports and a holder.
ghost use Rattle.std.specs.Prelude.{◌≡◌, List, ℕ, Option, IfOk};
ghost use Rattle.std.specs.FinMap as map;
ghost use Rattle.std.specs.Option.{option_and_then, option_copied, option_map};
ghost use Rattle.fab_store_world.specs.Inventories.{AreListsOf, AreOneButHolder, IsKnownOnlyIn, IsInventoryDifference, holder_row};

use crate::inventories::{InventoryDifference, InventoryLists, add_ports, push_lacking};
use crate::row_tables::{Holders, Table};
use fab_reach_base::inventory::Inventory;
use fab_reach_base::names::Name;
use fab_world::load::rows::HolderRow;
use std::alloc::{AllocError, Allocator};

/// The row of the holder of this name, if there is a name, and a holder of it.
fn row_at<A: Allocator + Copy>(inventory: &Inventory<A>, named: Option<&Name>) -> Option<HolderRow>
    ensures { result ≡ option_and_then (λ (n : List ℕ). option_map (holder_row n) (map.get inventory.now.holders n)) (option_copied named.entry) }
{
    let Some(name) = named else {
        return None;
    };
    match inventory.holder(name) {
        Some(holder) => Holders.row(name, &holder),
        None => None,
    }
}

/// The rows of an inventory that do not stand in the other: of ports, and at most that of the holder of
/// this name.
fn lists_only_at<A: Allocator + Copy>(
    alloc: A,
    inventory: &Inventory<A>,
    other: &Inventory<A>,
    named: Option<&Name>,
) -> Result<InventoryLists<A>, AllocError>
    requires { AreOneButHolder inventory.now other.now (option_copied named) }
    ensures { IfOk result (AreListsOf (IsKnownOnlyIn inventory.now other.now)) }
{
    let mut ports = Vec::new(alloc);
    let mut entries = Vec::new(alloc);
    let mut addresses = Vec::new(alloc);
    add_ports(&mut ports, &mut entries, &mut addresses, inventory, other)?;
    let mut holders = Vec::new(alloc);
    push_lacking(&mut holders, &Holders, other, row_at(inventory, named))?;
    Ok(InventoryLists {
        ports,
        entries,
        addresses,
        holders,
        volumes: Vec::new(alloc),
    })
}

/// What one inventory's rows have and another's have not, both ways, where they are one but for ports
/// and for the holder of this name, if there is a name. It walks through the ports of both once, looks the
/// holder up in both, and looks at nothing else.
///
/// # Errors
/// `AllocError` where there is no memory.
pub fn holder_difference<A: Allocator + Copy>(
    alloc: A,
    before: &Inventory<A>,
    after: &Inventory<A>,
    named: Option<&Name>,
) -> Result<InventoryDifference<A>, AllocError>
    requires { AreOneButHolder before.now after.now (option_copied named) }
    ensures { IfOk result (IsInventoryDifference before.now after.now) }
{
    let taken = lists_only_at(alloc, before, after, named)?;
    let added = lists_only_at(alloc, after, before, named)?;
    Ok(InventoryDifference { taken, added })
}
