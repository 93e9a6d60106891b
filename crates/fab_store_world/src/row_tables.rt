//! The tables of an inventory, and its whole ports: the row of each entry, and whether a row stands.
ghost use Rattle.std.specs.Prelude.{◌≡◌, ◌↔◌, IsTrue};

use fab_reach_base::inventory::{Holder, Inventory, Known, Port, Volume};
use fab_reach_base::names::{Name, Wwn};
use fab_world::load::rows::{
    AddressRow, HolderRow, PortEntry, VolumeRow, has_address, has_entry, has_port,
};
use std::alloc::Allocator;

/// A table whose rows tell what an inventory has under a name.
pub trait Table<K: Ord, V, R> {
    ghost use Rattle.std.specs.Prelude.{Option, Some};
    ghost use Rattle.std.specs.declared.cmp.Ordering.{Ordering};
    ghost use Rattle.fab_reach_base.specs.fab_inventory.Inventories.{InventoryRows};

    // the row of an entry, if it has one
    ghost row_of: { K → V → Option R };

    // the row stands in the inventory
    ghost knows: { InventoryRows → R → Type 0 };

    // rows by their names
    ghost order: { R → R → Ordering };

    /// The row of an entry, if it has one.
    fn row(&self, key: &K, value: &V) -> Option<R>
        ensures { result ≡ row_of key.now value.now };

    /// Whether the row stands in the inventory.
    fn is_known<A: Allocator + Copy>(&self, inventory: &Inventory<A>, row: &R) -> bool
        ensures { IsTrue result ↔ knows inventory.now row.now };

    ghost by_key: { (j k : K) (v w : V) (r s : R) → row_of j v ≡ Some r → row_of k w ≡ Some s → order r s ≡ K.cmp j k };
}

/// The whole ports, each with its address, by N_Port_Name.
#[derive(Drop)]
pub struct Ports;

impl Table<Wwn, Known, Port> for Ports {
    ghost use Rattle.fab_world.specs.fab_store_rows.declared.inventory_row.InventoryRow.TheVariants as row;
    ghost use Rattle.fab_world.specs.fab_store_rows.Standing.{IsKnown};
    ghost use Rattle.fab_store_world.specs.Inventories.{port_order, port_row};
    ghost use Rattle.fab_store_world.specs.InventoryKeys.{port_by_key};

    ghost row_of = { port_row };

    ghost knows = { λ v r. IsKnown v (row.Port r) };

    ghost order = { port_order };

    ghost by_key = { port_by_key };

    fn row(&self, key: &Wwn, value: &Known) -> Option<Port> {
        Some(Port {
            name: *key,
            node: value.node,
            at: value.at,
            address: value.address,
            holder: value.holder,
        })
    }

    fn is_known<A: Allocator + Copy>(&self, inventory: &Inventory<A>, row: &Port) -> bool {
        has_port(inventory, row)
    }
}

/// The ports without their addresses, by N_Port_Name.
#[derive(Drop)]
pub struct Entries;

impl Table<Wwn, Known, PortEntry> for Entries {
    ghost use Rattle.fab_world.specs.fab_store_rows.declared.inventory_row.InventoryRow.TheVariants as row;
    ghost use Rattle.fab_world.specs.fab_store_rows.Standing.{IsKnown};
    ghost use Rattle.fab_store_world.specs.Inventories.{entry_order, entry_row};
    ghost use Rattle.fab_store_world.specs.InventoryKeys.{entry_by_key};

    ghost row_of = { entry_row };

    ghost knows = { λ v r. IsKnown v (row.Entry r) };

    ghost order = { entry_order };

    ghost by_key = { entry_by_key };

    fn row(&self, key: &Wwn, value: &Known) -> Option<PortEntry> {
        Some(PortEntry {
            name: *key,
            node: value.node,
            at: value.at,
            holder: value.holder,
        })
    }

    fn is_known<A: Allocator + Copy>(&self, inventory: &Inventory<A>, row: &PortEntry) -> bool {
        has_entry(inventory, row)
    }
}

/// The addresses of the ports that have one, by N_Port_Name.
#[derive(Drop)]
pub struct Addresses;

impl Table<Wwn, Known, AddressRow> for Addresses {
    ghost use Rattle.fab_world.specs.fab_store_rows.declared.inventory_row.InventoryRow.TheVariants as row;
    ghost use Rattle.fab_world.specs.fab_store_rows.Standing.{IsKnown};
    ghost use Rattle.fab_store_world.specs.Inventories.{address_order, address_row};
    ghost use Rattle.fab_store_world.specs.InventoryKeys.{address_by_key};

    ghost row_of = { address_row };

    ghost knows = { λ v r. IsKnown v (row.Address r) };

    ghost order = { address_order };

    ghost by_key = { address_by_key };

    fn row(&self, key: &Wwn, value: &Known) -> Option<AddressRow> {
        match value.address {
            Some(address) => Some(AddressRow {
                port: *key,
                address,
            }),
            None => None,
        }
    }

    fn is_known<A: Allocator + Copy>(&self, inventory: &Inventory<A>, row: &AddressRow) -> bool {
        has_address(inventory, row)
    }
}

/// The hosts and arrays, by name.
#[derive(Drop)]
pub struct Holders;

impl Table<Name, Holder, HolderRow> for Holders {
    ghost use Rattle.std.specs.Prelude.{Some};
    ghost use Rattle.fab_world.specs.fab_store_rows.declared.inventory_row.InventoryRow.TheVariants as row;
    ghost use Rattle.fab_world.specs.fab_store_rows.Standing.{IsKnown};
    ghost use Rattle.fab_store_world.specs.Inventories.{holder_order, holder_row};
    ghost use Rattle.fab_store_world.specs.InventoryKeys.{holder_by_key};

    ghost row_of = { λ name h. Some (holder_row name h) };

    ghost knows = { λ v r. IsKnown v (row.Holder r) };

    ghost order = { holder_order };

    ghost by_key = { holder_by_key };

    fn row(&self, key: &Name, value: &Holder) -> Option<HolderRow> {
        Some(HolderRow {
            name: *key,
            kind: value.kind,
            tenant: value.tenant,
        })
    }

    fn is_known<A: Allocator + Copy>(&self, inventory: &Inventory<A>, row: &HolderRow) -> bool {
        let told = Holder {
            kind: row.kind,
            tenant: row.tenant,
        };
        inventory.holder(&row.name) == Some(told)
    }
}

/// The volumes, by name.
#[derive(Drop)]
pub struct Volumes;

impl Table<Name, Volume, VolumeRow> for Volumes {
    ghost use Rattle.std.specs.Prelude.{Some};
    ghost use Rattle.fab_world.specs.fab_store_rows.declared.inventory_row.InventoryRow.TheVariants as row;
    ghost use Rattle.fab_world.specs.fab_store_rows.Standing.{IsKnown};
    ghost use Rattle.fab_store_world.specs.Inventories.{volume_order, volume_row};
    ghost use Rattle.fab_store_world.specs.InventoryKeys.{volume_by_key};

    ghost row_of = { λ name x. Some (volume_row name x) };

    ghost knows = { λ v r. IsKnown v (row.Volume r) };

    ghost order = { volume_order };

    ghost by_key = { volume_by_key };

    fn row(&self, key: &Name, value: &Volume) -> Option<VolumeRow> {
        Some(VolumeRow {
            name: *key,
            array: value.array,
            tenant: value.tenant,
            bytes: value.bytes,
        })
    }

    fn is_known<A: Allocator + Copy>(&self, inventory: &Inventory<A>, row: &VolumeRow) -> bool {
        let told = Volume {
            array: row.array,
            tenant: row.tenant,
            bytes: row.bytes,
        };
        inventory.volume(&row.name) == Some(told)
    }
}
