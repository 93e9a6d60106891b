//! An inventory from its rows.
ghost use Rattle.std.specs.Prelude.{◌≡◌, IfOk, IfErr};
ghost use Rattle.fab_reach_base.specs.fab_inventory.Inventories.{InventoryRows, IsSound};
ghost use Rattle.fab_store_load.specs.Faults.{OfTable};
ghost use Rattle.fab_store_load.specs.Inventories.{AreInventoryRows, InventoryPartIsSound, load_fault};

use crate::kinds::{Addresses, Holders, Ports, Volumes};
use crate::maps::map_of;
use crate::{LoadFault, Table};
use fab_reach_base::inventory::{Inventory, RestoreFault};
use fab_store_rows::{AddressRow, HolderRow, PortEntry, VolumeRow};
use std::alloc::Allocator;

/// The fault of the rows of which no inventory is restored.
fn load_fault(fault: RestoreFault) -> LoadFault
    ensures { result ≡ load_fault fault }
{
    match fault {
        RestoreFault::Ports => LoadFault::Damaged(Table::Ports),
        RestoreFault::Addresses => LoadFault::Damaged(Table::Addresses),
        RestoreFault::Holders => LoadFault::Damaged(Table::Holders),
        RestoreFault::Volumes => LoadFault::Damaged(Table::Volumes),
        RestoreFault::Memory => LoadFault::Memory,
    }
}

/// The inventory that has exactly these rows. Equal rows count once.
///
/// # Errors
/// `Damaged` where no sound inventory has just these rows, with the first table that has a fault:
/// ports, addresses, holders, volumes. Rows of one name that differ are looked for in each table
/// before anything else. An address of a port that is not known, or that is logged in nowhere, is a
/// fault of the table of addresses. `Memory` where there is none.
pub fn inventory_of<A: Allocator + Copy>(
    alloc: A,
    ports: &[PortEntry],
    addresses: &[AddressRow],
    holders: &[HolderRow],
    volumes: &[VolumeRow],
) -> Result<Inventory<A>, LoadFault>
    ensures rows { IfOk result (λ v. AreInventoryRows ports.now addresses.now holders.now volumes.now v) }
    ensures sound { IfOk result IsSound }
    ensures damaged { IfErr result (OfTable (λ table. (v : InventoryRows) → AreInventoryRows ports.now addresses.now holders.now volumes.now v → ¬ InventoryPartIsSound table v)) }
    ensures exact { IfErr result (OfTable (λ table. (v : InventoryRows) → AreInventoryRows ports.now addresses.now holders.now volumes.now v → ¬ IsSound v)) }
{
    let Some(seats) = map_of(alloc, &Ports, ports)? else {
        return Err(LoadFault::Damaged(Table::Ports));
    };
    let Some(addresses) = map_of(alloc, &Addresses, addresses)? else {
        return Err(LoadFault::Damaged(Table::Addresses));
    };
    let Some(holders) = map_of(alloc, &Holders, holders)? else {
        return Err(LoadFault::Damaged(Table::Holders));
    };
    let Some(volumes) = map_of(alloc, &Volumes, volumes)? else {
        return Err(LoadFault::Damaged(Table::Volumes));
    };
    match Inventory::from_maps(alloc, seats, addresses, holders, volumes) {
        Ok(inventory) => Ok(inventory),
        Err(fault) => Err(load_fault(fault)),
    }
}
