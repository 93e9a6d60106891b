//! The inventory.
ghost use Rattle.std.specs.Prelude.{◌≡◌, OnOk, OnErr, IfOk, IfErr, true};
ghost use Rattle.std.specs.FinMap as map;
ghost use Rattle.fab_inventory.specs.Imports.{IsImported, ImportFails};
ghost use Rattle.fab_inventory.specs.Ports.{port_at};
ghost use Rattle.std.specs.Ordering.{nat_cmp};
ghost use Rattle.fab_lemmas.specs.Lists.{IsListOf};
ghost use Rattle.fab_inventory.specs.Holders.{HasNoVolume, Holds, Leaves};
ghost use Rattle.fab_inventory.specs.Restores.{AreSeated, IsRestored, RestoreFails};
ghost use Rattle.std.specs.BTreeMap.{get};
ghost use Rattle.fab_inventory.specs.Inventories.{no_rows, IsSound, CanPutHolder, IsHolderPut, PutHolderFails, IsHolderDropped, DropHolderFails, CanPutVolume, PutVolumeFails, DropVolumeFails};

use crate::holding::{
    first_on, hand_over_all, is_array, is_other_kind, kind_of, leaving, port_fault,
};
use crate::import::imported_ports;
use crate::limits::{MOST_BYTES, MOST_HOLDERS, MOST_PORTS_OF_HOLDER, MOST_VOLUMES};
use crate::restore::{are_ports_sound, are_seated, are_volumes_sound, seated};
use crate::{
    Holder, HolderKind, InventoryFault, InventoryLimit, Known, Port, PortRow, RestoreFault, Seat,
    Volume,
};
use fab_names::{Address, Fabric, Name, Wwn};
use std::alloc::{AllocError, Allocator};
use std::collections::BTreeMap;
use std::collections::btree_map::Iter;
use std::marker::Model;

/// The ports of both fabrics that are known, the hosts and arrays that hold them, and the volumes
/// on the arrays. A port once known stays known.
///
/// A contract sees the whole as one `InventoryRows`, a record of finite maps: what is known of
/// each port under its N_Port_Name, and the holders and the volumes by name. Each holder that is
/// named is there, each volume's array is there and is an array, and no limit is passed.
pub struct Inventory<A: Allocator + Copy> {
    alloc: A,
    ports: BTreeMap<Wwn, Known, A>,
    holders: BTreeMap<Name, Holder, A>,
    volumes: BTreeMap<Name, Volume, A>,
}

// It is written out, so that a caller does not prove again how each part is dropped.
impl<A: Allocator + Copy> Drop for Inventory<A> {
    fn drop(self) {
        let Inventory {
            alloc: _,
            ports: _,
            holders: _,
            volumes: _,
        } = self;
    }
}

impl<A: Allocator + Copy> Model for Inventory<A> {
    ghost use Rattle.std.specs.FinMap as map;
    ghost use Rattle.fab_inventory.specs.Inventories.{InventoryRows, IsSound};
    ghost use Rattle.fab_inventory.specs.Codes.{rows_code};

    ghost Value = { InventoryRows };

    ghost coded = { rows_code };

    ghost view = { λ a. record { ports = map.from_entries a.ports.entries; holders = map.from_entries a.holders.entries; volumes = map.from_entries a.volumes.entries } };

    ghost invariant = { λ a. IsSound (record { ports = map.from_entries a.ports.entries; holders = map.from_entries a.holders.entries; volumes = map.from_entries a.volumes.entries }) };
}

impl<A: Allocator + Copy> Inventory<A> {
    /// An inventory that knows nothing.
    pub fn new(alloc: A) -> Self
        ensures { result ≡ no_rows }
    {
        Inventory {
            alloc,
            ports: BTreeMap::new(alloc),
            holders: BTreeMap::new(alloc),
            volumes: BTreeMap::new(alloc),
        }
    }

    /// An equal inventory.
    ///
    /// # Errors
    /// `AllocError` where there is no memory.
    pub fn copy(&self) -> Result<Self, AllocError>
        ensures { IfOk result (λ copy. copy ≡ self.now) }
    {
        Ok(Inventory {
            alloc: self.alloc,
            ports: self.ports.clone()?,
            holders: self.holders.clone()?,
            volumes: self.volumes.clone()?,
        })
    }

    /// The port of a name, where it is known. It takes no memory.
    pub fn port(&self, name: &Wwn) -> Option<Port>
        ensures port { result ≡ port_at self.now.ports name.now }
        ensures sound { IsSound self.now }
    {
        let Some(known) = self.ports.get(name) else {
            return None;
        };
        Some(Port {
            name: *name,
            node: known.node,
            at: known.at,
            address: known.address,
            holder: known.holder,
        })
    }

    /// The holder of a name, where there is one. It takes no memory.
    pub fn holder(&self, name: &Name) -> Option<Holder>
        ensures holder { result ≡ map.get self.now.holders name.now }
        ensures sound { IsSound self.now }
    {
        self.holders.get(name).copied()
    }

    /// The volume of a name, where there is one. It takes no memory.
    pub fn volume(&self, name: &Name) -> Option<Volume>
        ensures volume { result ≡ map.get self.now.volumes name.now }
        ensures sound { IsSound self.now }
    {
        self.volumes.get(name).copied()
    }

    /// The inventory with just these ports, addresses of ports, holders and volumes. It walks
    /// through each of them a few times.
    ///
    /// # Errors
    /// `Ports` where there are more than 4096, where a port names a holder that is not there, or
    /// where a holder holds more than 64; `Addresses` where one is of a port that is not there or
    /// that is logged in nowhere; `Holders` where there are more than 2048; `Volumes`
    /// where there are more than 4096, or where one is on no array or has no byte or more than
    /// 9223372036854775807. Each is answered only where it is so, so a sound inventory is never
    /// refused but for `Memory`.
    pub fn from_maps(
        alloc: A,
        seats: BTreeMap<Wwn, Seat, A>,
        addresses: BTreeMap<Wwn, Address, A>,
        holders: BTreeMap<Name, Holder, A>,
        volumes: BTreeMap<Name, Volume, A>,
    ) -> Result<Self, RestoreFault>
        ensures ok { IfOk result (IsRestored seats addresses holders volumes) }
        ensures sound { IfOk result IsSound }
        ensures seated { OnOk result (AreSeated (get nat_cmp seats) (get nat_cmp addresses)) }
        ensures err { IfErr result (RestoreFails seats addresses holders volumes) }
    {
        let Ok(ports) = seated(alloc, &seats, &addresses) else {
            return Err(RestoreFault::Memory);
        };
        let Ok(sound) = are_ports_sound(alloc, &holders, &ports) else {
            return Err(RestoreFault::Memory);
        };
        if !sound {
            return Err(RestoreFault::Ports);
        }
        if !are_seated(&seats, &addresses) {
            return Err(RestoreFault::Addresses);
        }
        if holders.len() > MOST_HOLDERS {
            return Err(RestoreFault::Holders);
        }
        if !are_volumes_sound(&holders, &volumes) {
            return Err(RestoreFault::Volumes);
        }
        Ok(Inventory {
            alloc,
            ports,
            holders,
            volumes,
        })
    }

    /// The ports that the holder holds, by N_Port_Name. It walks once through all known ports,
    /// and takes memory for those that it finds: at most 64.
    ///
    /// # Errors
    /// `AllocError` where there is no memory.
    pub fn ports_of(&self, holder: &Name) -> Result<Vec<Wwn, A>, AllocError>
        ensures { IfOk result (λ found. IsListOf nat_cmp (Holds (map.get self.now.ports) holder.now) found.items) }
    {
        leaving(self.alloc, &self.ports, holder, &[])
    }

    /// The ports that would be held by nobody once the holder had just the listed ports: those
    /// that it holds and that are not listed, by N_Port_Name. So the first of them that is a
    /// target is the least that a put would take from its array. It walks once through all known
    /// ports, and takes memory for those that it finds: at most 64.
    ///
    /// # Errors
    /// `AllocError` where there is no memory.
    pub fn ports_leaving(&self, holder: &Name, listed: &[Wwn]) -> Result<Vec<Wwn, A>, AllocError>
        ensures { IfOk result (λ found. IsListOf nat_cmp (Leaves (map.get self.now.ports) holder.now listed.now) found.items) }
    {
        leaving(self.alloc, &self.ports, holder, listed)
    }

    /// What is known of each port, in the order of the port names.
    pub fn ports(&self) -> Iter<'_, Wwn, Known>
        ensures { result ≡ map.entries self.now.ports }
    {
        self.ports.iter()
    }

    /// The holders, in the order of their names.
    pub fn holders(&self) -> Iter<'_, Name, Holder>
        ensures { result ≡ map.entries self.now.holders }
    {
        self.holders.iter()
    }

    /// The volumes, in the order of their names.
    pub fn volumes(&self) -> Iter<'_, Name, Volume>
        ensures { result ≡ map.entries self.now.volumes }
    {
        self.volumes.iter()
    }

    /// Takes the whole list of one fabric's ports.
    ///
    /// Listed ports are logged in there from now on, wherever they were, with the listed node
    /// name and the listed address or none, and keep their holder. Ports of that fabric that are
    /// not listed are logged in nowhere, without an address. Ports of the other fabric stay. Equal
    /// records of one port count once.
    ///
    /// # Errors
    /// `PortClash` at the first record that differs from an earlier one of its port name,
    /// `Limit(Ports)` where more than 4096 ports would be known, or `Memory`. Nothing is then
    /// changed.
    pub fn import(&mut self, fabric: Fabric, rows: &[PortRow]) -> Result<(), InventoryFault>
        ensures ok { OnOk result (IsImported fabric rows.now self.old.ports self.new.ports) }
        ensures rest { OnOk result (self.new ≡ record self.old { ports = self.new.ports }) }
        ensures err { IfErr result (ImportFails fabric rows.now self.old.ports) }
        ensures unchanged { OnErr result (self.new ≡ self.old) }
        ensures sound { IsSound self.new }
    {
        self.ports = imported_ports(self.alloc, &self.ports, fabric, rows)?;
        Ok(())
    }

    /// The inventory that `import` would make of this one, which stays as it is. It copies no port
    /// twice.
    ///
    /// # Errors
    /// As `import` tells.
    pub fn after_import(&self, fabric: Fabric, rows: &[PortRow]) -> Result<Self, InventoryFault>
        ensures ok { IfOk result (λ next. IsImported fabric rows.now self.now.ports next.ports) }
        ensures rest { IfOk result (λ next. next ≡ record self.now { ports = next.ports }) }
        ensures err { IfErr result (ImportFails fabric rows.now self.now.ports) }
        ensures sound { IfOk result IsSound }
    {
        Ok(Inventory {
            alloc: self.alloc,
            ports: imported_ports(self.alloc, &self.ports, fabric, rows)?,
            holders: self.holders.clone()?,
            volumes: self.volumes.clone()?,
        })
    }

    /// Makes or replaces a host or an array, which holds just the listed ports from now on. Ports
    /// that it held and that are not listed are then held by nobody. Ports listed twice count once.
    ///
    /// # Errors
    /// In this order: `Limit(PortsOfHolder)` where more than 64 ports are listed, equal ones
    /// counted; `WrongKind` where the name is of the other kind; `UnknownPort` with the least
    /// listed port that is not known; `PortHeld` with the least listed port that another holder
    /// holds, and that holder; `Limit(Holders)` where there would be more than 2048 holders;
    /// `Memory`. Nothing is then changed.
    pub fn put_holder(
        &mut self,
        name: Name,
        kind: HolderKind,
        tenant: Name,
        ports: &[Wwn],
    ) -> Result<(), InventoryFault>
        ensures can { OnOk result (CanPutHolder self.old name kind ports.now) }
        ensures ok { OnOk result (IsHolderPut name (record { kind = kind; tenant = tenant }) ports.now self.old self.new) }
        ensures err { IfErr result (PutHolderFails self.old name kind ports.now) }
        ensures unchanged { OnErr result (self.new ≡ self.old) }
        ensures sound { IsSound self.new }
    {
        let known = kind_of(&self.holders, &name);
        if ports.len() > MOST_PORTS_OF_HOLDER {
            return Err(InventoryFault::Limit(InventoryLimit::PortsOfHolder));
        }
        if is_other_kind(known, kind) {
            return Err(InventoryFault::WrongKind(name));
        }
        if let Some(fault) = port_fault(&self.ports, &name, ports) {
            return Err(fault);
        }
        if self.holders.len() >= MOST_HOLDERS && !self.holders.contains_key(&name) {
            return Err(InventoryFault::Limit(InventoryLimit::Holders));
        }
        self.holders.insert(name, Holder { kind, tenant })?;
        hand_over_all(&mut self.ports, name, ports);
        Ok(())
    }

    /// Drops a host, or an array with no volume on it. Its ports are then held by nobody. It takes
    /// no memory.
    ///
    /// # Errors
    /// `Unknown` where there is no such holder, or `InUse` with the least volume by name that is on
    /// it. Nothing is then changed.
    pub fn drop_holder(&mut self, name: &Name) -> Result<(), InventoryFault>
        ensures known { OnOk result (map.contains_key self.old.holders name.now ≡ true) }
        ensures unused { OnOk result (HasNoVolume (map.get self.old.volumes) name.now) }
        ensures ok { OnOk result (IsHolderDropped name.now self.old self.new) }
        ensures err { IfErr result (DropHolderFails self.old name.now) }
        ensures unchanged { OnErr result (self.new ≡ self.old) }
        ensures sound { IsSound self.new }
    {
        if !self.holders.contains_key(name) {
            return Err(InventoryFault::Unknown(*name));
        }
        if let Some(volume) = first_on(&self.volumes, name) {
            return Err(InventoryFault::InUse(*name, *volume));
        }
        self.holders.remove(name);
        hand_over_all(&mut self.ports, *name, &[]);
        Ok(())
    }

    /// Makes or replaces a volume.
    ///
    /// # Errors
    /// In this order: `Limit(Bytes)` where it has no byte or more than 9223372036854775807;
    /// `Unknown` with the array's name, where there is no such array; `Limit(Volumes)` where there
    /// would be more than 4096 volumes; `Memory`. Nothing is then changed.
    pub fn put_volume(
        &mut self,
        name: Name,
        array: Name,
        tenant: Name,
        bytes: u64,
    ) -> Result<(), InventoryFault>
        ensures can { OnOk result (CanPutVolume self.old name array bytes) }
        ensures ok { OnOk result (self.new ≡ record self.old { volumes = map.insert self.old.volumes name (record { array = array; tenant = tenant; bytes = bytes }) }) }
        ensures err { IfErr result (PutVolumeFails self.old name array bytes) }
        ensures unchanged { OnErr result (self.new ≡ self.old) }
        ensures sound { IsSound self.new }
    {
        let known = kind_of(&self.holders, &array);
        if bytes == 0 || bytes > MOST_BYTES {
            return Err(InventoryFault::Limit(InventoryLimit::Bytes));
        }
        if !is_array(known) {
            return Err(InventoryFault::Unknown(array));
        }
        if self.volumes.len() >= MOST_VOLUMES && !self.volumes.contains_key(&name) {
            return Err(InventoryFault::Limit(InventoryLimit::Volumes));
        }
        let volume = Volume {
            array,
            tenant,
            bytes,
        };
        self.volumes.insert(name, volume)?;
        Ok(())
    }

    /// Drops a volume. It takes no memory.
    ///
    /// # Errors
    /// `Unknown` where there is no such volume. Nothing is then changed.
    pub fn drop_volume(&mut self, name: &Name) -> Result<(), InventoryFault>
        ensures known { OnOk result (map.contains_key self.old.volumes name.now ≡ true) }
        ensures ok { OnOk result (self.new ≡ record self.old { volumes = map.remove self.old.volumes name.now }) }
        ensures err { IfErr result (DropVolumeFails self.old name.now) }
        ensures unchanged { OnErr result (self.new ≡ self.old) }
        ensures sound { IsSound self.new }
    {
        if self.volumes.remove(name).is_none() {
            return Err(InventoryFault::Unknown(*name));
        }
        Ok(())
    }
}
