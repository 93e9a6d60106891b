//! The mapping.
ghost use Rattle.std.specs.Prelude.{◌≡◌, ◌<◌, ◌≤◌, ◌↔◌, length, IsTrue, true, false, OnOk, OnErr, IfOk, IfErr, MatchOption};
ghost use Rattle.std.specs.Option.{option_copied};
ghost use Rattle.std.specs.FinMap as map;
ghost use Rattle.std.specs.FinSet as set;
ghost use Rattle.fab_mapping_base.specs.fab_lemmas.Firsts.{IsFirstWith, HasAt, HasNowhere};
ghost use Rattle.fab_mapping_base.specs.fab_names.Orders.{name_cmp};
ghost use Rattle.fab_mapping_base.specs.Groups.{HoldsHost, HasTarget, IsOfArray, MapsVolume, host_group_of, new_storage_group, with_hosts, without_hosts, with_target, without_target, with_unit, without_unit, exposed_as, HasRoomForHosts, HasRoomForTarget, HasRoomForUnit, HasFreeUnit};
ghost use Rattle.fab_mapping_base.specs.Fitting.{IsPortOf, IsVolumeOn};
ghost use Rattle.fab_mapping_base.specs.Limits.{last_unit};
ghost use Rattle.fab_mapping.specs.Mappings.{no_groups, IsLeastClash, HasNoClash, CanPutHostGroup, PutHostGroupFails, IsUnservedIn, DropHostGroupFails, CanMakeGroup, NewGroupFails, NamesNoGroup, ChangesGroup, GroupHas, AddHostsFails, RemoveHostsFails, AddTargetFails, RemoveTargetFails, MapFails, UnmapFails};
ghost use Rattle.fab_mapping_base.specs.fab_inventory.Inventories.{InventoryRows};
ghost use Rattle.fab_mapping.specs.Gone.{IsFirstGone};
ghost use Rattle.fab_mapping.specs.Soundness.{IsSound, Fits, Keeps, KeepsAll};

use crate::gone::first_gone;
use crate::search::{
    first_of_array, first_serving, first_with_host, first_with_target, first_with_volume,
};
use crate::sound::{are_sound, groups_fit, have_hosts};
use crate::{
    Gone, HostGroup, LAST_UNIT, MOST_HOST_GROUPS, MOST_HOSTS, MOST_STORAGE_GROUPS, MappingFault,
    MappingLimit, Nexus, StorageGroup,
};
use fab_mapping_base::inventory::Inventory;
use fab_mapping_base::lemmas::is_full;
use fab_mapping_base::names::{Name, Wwn};
use fab_mapping_base::{first_no_host, is_array, is_held_by, is_unit, least_clash};
use std::alloc::{AllocError, Allocator};
use std::collections::BTreeMap;
use std::collections::btree_map::Iter;
use std::marker::Model;

/// Host groups and storage groups: which host may meet which volume at which target port under
/// which logical unit number (the storage groups of SNIA Swordfish).
///
/// A contract sees the whole as one `MappingRows`, a record of finite maps.
pub struct Mapping<A: Allocator + Copy> {
    alloc: A,
    host_groups: BTreeMap<Name, HostGroup<A>, A>,
    groups: BTreeMap<Name, StorageGroup<A>, A>,
}

// It is written out, so that a caller does not prove again how each part is dropped.
impl<A: Allocator + Copy> Drop for Mapping<A> {
    fn drop(self) {
        let Mapping {
            alloc: _,
            host_groups: _,
            groups: _,
        } = self;
    }
}

impl<A: Allocator + Copy> Model for Mapping<A> {
    ghost use Rattle.std.specs.FinMap as map;
    ghost use Rattle.fab_mapping.specs.Mappings.{MappingRows, mapping_code};

    ghost Value = { MappingRows };

    ghost coded = { mapping_code };

    ghost view = { λ a. record { host_groups = map.from_entries a.host_groups.entries; groups = map.from_entries a.groups.entries } };
}

impl<A: Allocator + Copy> Mapping<A> {
    /// A mapping with no group.
    pub fn new(alloc: A) -> Self
        ensures new { result ≡ no_groups }
        ensures sound { IsSound result }
        ensures fits { (inventory : InventoryRows) → Fits inventory result }
    {
        Mapping {
            alloc,
            host_groups: BTreeMap::new(alloc),
            groups: BTreeMap::new(alloc),
        }
    }

    /// The mapping of these host groups and storage groups, as they are: what a stored one was made
    /// of, also where hosts, ports and volumes are gone since. Nothing is tested.
    pub fn from_maps(
        alloc: A,
        host_groups: BTreeMap<Name, HostGroup<A>, A>,
        groups: BTreeMap<Name, StorageGroup<A>, A>,
    ) -> Self
        ensures { result ≡ record { host_groups = map.from_entries host_groups.entries; groups = map.from_entries groups.entries } }
    {
        Mapping {
            alloc,
            host_groups,
            groups,
        }
    }

    /// The least host group by name that has the host. It takes no memory.
    pub fn host_group_with(&self, host: &Name) -> Option<Name>
        ensures { MatchOption result (HasNowhere (map.get self.now.host_groups) (HoldsHost host.now)) (IsFirstWith name_cmp (HasAt (map.get self.now.host_groups) (HoldsHost host.now))) }
    {
        first_with_host(&self.host_groups, host)
    }

    /// The least storage group by name that has the target port. It takes no memory.
    pub fn group_with_target(&self, target: &Wwn) -> Option<Name>
        ensures { MatchOption result (HasNowhere (map.get self.now.groups) (HasTarget target.now)) (IsFirstWith name_cmp (HasAt (map.get self.now.groups) (HasTarget target.now))) }
    {
        first_with_target(&self.groups, target)
    }

    /// The least storage group by name that is of the array. It takes no memory.
    pub fn group_of_array(&self, array: &Name) -> Option<Name>
        ensures { MatchOption result (HasNowhere (map.get self.now.groups) (IsOfArray array.now)) (IsFirstWith name_cmp (HasAt (map.get self.now.groups) (IsOfArray array.now))) }
    {
        first_of_array(&self.groups, array)
    }

    /// The least storage group by name that maps the volume. It takes no memory.
    pub fn group_with_volume(&self, volume: &Name) -> Option<Name>
        ensures { MatchOption result (HasNowhere (map.get self.now.groups) (MapsVolume volume.now)) (IsFirstWith name_cmp (HasAt (map.get self.now.groups) (MapsVolume volume.now))) }
    {
        first_with_volume(&self.groups, volume)
    }

    /// An equal mapping.
    ///
    /// # Errors
    /// `AllocError` where there is no memory.
    pub fn copy(&self) -> Result<Self, AllocError>
        ensures { IfOk result (λ copy. copy ≡ self.now) }
    {
        Ok(Mapping {
            alloc: self.alloc,
            host_groups: self.host_groups.clone()?,
            groups: self.groups.clone()?,
        })
    }

    /// The host group of a name, where there is one. It takes no memory.
    pub fn host_group(&self, name: &Name) -> Option<&HostGroup<A>>
        ensures { option_copied result ≡ map.get self.now.host_groups name.now }
    {
        self.host_groups.get(name)
    }

    /// The storage group of a name, where there is one. It takes no memory.
    pub fn group(&self, name: &Name) -> Option<&StorageGroup<A>>
        ensures { option_copied result ≡ map.get self.now.groups name.now }
    {
        self.groups.get(name)
    }

    /// The host groups, in the order of their names.
    pub fn host_groups(&self) -> Iter<'_, Name, HostGroup<A>>
        ensures { result ≡ map.entries self.now.host_groups }
    {
        self.host_groups.iter()
    }

    /// The storage groups, in the order of their names.
    pub fn groups(&self) -> Iter<'_, Name, StorageGroup<A>>
        ensures { result ≡ map.entries self.now.groups }
    {
        self.groups.iter()
    }

    /// Whether the mapping is sound of itself: each host group has a host and no more than it may
    /// have, each host group that a storage group names is there, and no limit is passed. It takes
    /// no memory.
    pub fn is_sound(&self) -> bool
        ensures { IsTrue result ↔ IsSound self.now }
    {
        are_sound(&self.host_groups, &self.groups)
    }

    /// Whether what the mapping names is in the inventory: its hosts are hosts, and the array of
    /// each storage group is an array that holds its targets and has its volumes. It takes no
    /// memory.
    pub fn fits(&self, inventory: &Inventory<A>) -> bool
        ensures { IsTrue result ↔ Fits inventory.now self.now }
    {
        if !have_hosts(inventory, &self.host_groups) {
            return false;
        }
        groups_fit(inventory, &self.groups)
    }

    /// The first of what the mapping names and the inventory has not, if there is any: a host of a
    /// host group that is no host, an array of a storage group that is no array, a target that the
    /// group's array does not hold, a mapped volume that is not on it; of the first of these kinds
    /// the least name or port. It takes no memory.
    pub fn first_gone(&self, inventory: &Inventory<A>) -> Option<Gone>
        ensures { MatchOption result (Fits inventory.now self.now) (IsFirstGone inventory.now self.now) }
    {
        first_gone(inventory, &self.host_groups, &self.groups)
    }

    /// The least nexus at which exposed storage groups name two volumes, if there is one. The same
    /// volume there through two groups is no clash.
    ///
    /// # Errors
    /// `AllocError` where there is no memory.
    pub fn clash(&self) -> Result<Option<Nexus>, AllocError>
        ensures { IfOk result (λ clash. MatchOption clash (HasNoClash self.now) (IsLeastClash self.now)) }
    {
        least_clash(self.alloc, &self.host_groups, &self.groups)
    }

    /// Makes or replaces a host group. Hosts listed twice count once.
    ///
    /// # Errors
    /// In this order: `Limit(Hosts)` where more than 255 hosts are listed, equal ones counted;
    /// `Unknown` with the first listed name that is no host's; `Limit(HostGroups)` where there
    /// would be more than 2048 host groups; `Memory`. Nothing is then changed.
    pub fn put_host_group(
        &mut self,
        name: Name,
        tenant: Name,
        hosts: &[Name],
        inventory: &Inventory<A>,
    ) -> Result<(), MappingFault>
        requires some { 0 < length hosts.now }
        ensures can { OnOk result (CanPutHostGroup self.old inventory.now name hosts.now) }
        ensures ok { OnOk result (self.new ≡ record self.old { host_groups = map.insert self.old.host_groups name (host_group_of tenant hosts.now) }) }
        ensures keeps { OnOk result (Keeps inventory.now self.old self.new) }
        ensures err { IfErr result (PutHostGroupFails self.old inventory.now name hosts.now) }
        ensures unchanged { OnErr result (self.new ≡ self.old) }
    {
        if hosts.len() > MOST_HOSTS {
            return Err(MappingFault::Limit(MappingLimit::Hosts));
        }
        if let Some(host) = first_no_host(inventory, hosts) {
            return Err(MappingFault::Unknown(host));
        }
        if is_full(&self.host_groups, &name, MOST_HOST_GROUPS) {
            return Err(MappingFault::Limit(MappingLimit::HostGroups));
        }
        let group = HostGroup::new(self.alloc, tenant, hosts)?;
        self.host_groups.insert(name, group)?;
        Ok(())
    }

    /// Drops a host group that no storage group has. It takes no memory.
    ///
    /// # Errors
    /// `Unknown` where there is no such host group, or `InUse` with the least storage group by name
    /// that has it. Nothing is then changed.
    #[tactic(auto, using(crate::proofs::GroupChanges::hosts_dropped, crate::proofs::Keeping::hosts_dropped_keeps))]
    pub fn drop_host_group(&mut self, name: &Name) -> Result<(), MappingFault>
        ensures known { OnOk result (map.contains_key self.old.host_groups name.now ≡ true) }
        ensures unused { OnOk result (IsUnservedIn (map.get self.old.groups) name.now) }
        ensures ok { OnOk result (self.new ≡ record self.old { host_groups = map.remove self.old.host_groups name.now }) }
        ensures keeps { OnOk result (KeepsAll self.old self.new) }
        ensures err { IfErr result (DropHostGroupFails self.old name.now) }
        ensures unchanged { OnErr result (self.new ≡ self.old) }
    {
        if !self.host_groups.contains_key(name) {
            return Err(MappingFault::Unknown(*name));
        }
        if let Some(group) = first_serving(&self.groups, name) {
            return Err(MappingFault::InUse(*name, *group));
        }
        self.host_groups.remove(name);
        Ok(())
    }

    /// Makes a storage group, hidden and empty.
    ///
    /// # Errors
    /// In this order: `Exists` where there is one of this name; `Unknown` with the array's name,
    /// where there is no such array; `Limit(Groups)` where there would be more than 2048 storage
    /// groups; `Memory`. Nothing is then changed.
    pub fn new_group(
        &mut self,
        name: Name,
        tenant: Name,
        array: Name,
        inventory: &Inventory<A>,
    ) -> Result<(), MappingFault>
        ensures can { OnOk result (CanMakeGroup self.old inventory.now name array) }
        ensures ok { OnOk result (self.new ≡ record self.old { groups = map.insert self.old.groups name (new_storage_group tenant array) }) }
        ensures keeps { OnOk result (Keeps inventory.now self.old self.new) }
        ensures err { IfErr result (NewGroupFails self.old inventory.now name array) }
        ensures unchanged { OnErr result (self.new ≡ self.old) }
    {
        if self.groups.contains_key(&name) {
            return Err(MappingFault::Exists(name));
        }
        if !is_array(inventory, &array) {
            return Err(MappingFault::Unknown(array));
        }
        if self.groups.len() >= MOST_STORAGE_GROUPS {
            return Err(MappingFault::Limit(MappingLimit::Groups));
        }
        let group = StorageGroup::new(self.alloc, tenant, array);
        self.groups.insert(name, group)?;
        Ok(())
    }

    /// Drops a storage group with all its parts. It takes no memory.
    ///
    /// # Errors
    /// `Unknown` where there is no such storage group. Nothing is then changed.
    #[tactic(auto, using(crate::proofs::GroupChanges::group_dropped, crate::proofs::Keeping::group_dropped_keeps))]
    pub fn drop_group(&mut self, name: &Name) -> Result<(), MappingFault>
        ensures known { OnOk result (map.contains_key self.old.groups name.now ≡ true) }
        ensures ok { OnOk result (self.new ≡ record self.old { groups = map.remove self.old.groups name.now }) }
        ensures keeps { OnOk result (KeepsAll self.old self.new) }
        ensures err { IfErr result (NamesNoGroup self.old name.now) }
        ensures unchanged { OnErr result (self.new ≡ self.old) }
    {
        if !self.groups.contains_key(name) {
            return Err(MappingFault::Unknown(*name));
        }
        self.groups.remove(name);
        Ok(())
    }

    /// Takes a host group out, whole, if it is there. Nothing is tested: `restore_host_group` puts it
    /// back. It takes no memory.
    pub fn take_host_group(&mut self, name: &Name) -> Option<HostGroup<A>>
        ensures was { result ≡ map.get self.old.host_groups name.now }
        ensures ok { self.new ≡ record self.old { host_groups = map.remove self.old.host_groups name.now } }
    {
        self.host_groups.remove(name)
    }

    /// Puts a host group under a name, as it is. Nothing is tested.
    ///
    /// # Errors
    /// `AllocError` where there is no memory. Nothing is then changed.
    pub fn restore_host_group(&mut self, name: Name, own: HostGroup<A>) -> Result<(), AllocError>
        ensures ok { OnOk result (self.new ≡ record self.old { host_groups = map.insert self.old.host_groups name own }) }
        ensures err { OnErr result (self.new ≡ self.old) }
    {
        self.host_groups.insert(name, own)?;
        Ok(())
    }

    /// Takes a storage group out, whole, if it is there. Nothing is tested: `restore_group` puts it
    /// back. It takes no memory.
    pub fn take_group(&mut self, name: &Name) -> Option<StorageGroup<A>>
        ensures was { result ≡ map.get self.old.groups name.now }
        ensures ok { self.new ≡ record self.old { groups = map.remove self.old.groups name.now } }
    {
        self.groups.remove(name)
    }

    /// Puts a storage group under a name, as it is. Nothing is tested.
    ///
    /// # Errors
    /// `AllocError` where there is no memory. Nothing is then changed.
    pub fn restore_group(&mut self, name: Name, own: StorageGroup<A>) -> Result<(), AllocError>
        ensures ok { OnOk result (self.new ≡ record self.old { groups = map.insert self.old.groups name own }) }
        ensures err { OnErr result (self.new ≡ self.old) }
    {
        self.groups.insert(name, own)?;
        Ok(())
    }

    /// Adds a host group to a storage group. One that it has already is accepted and alters
    /// nothing.
    ///
    /// # Errors
    /// In this order: `Unknown` where there is no such storage group or no such host group,
    /// `Limit(Parts)` where it would have more than 64 host groups, `Memory`. Nothing is then
    /// changed.
    pub fn add_hosts(&mut self, name: &Name, hosts: &Name) -> Result<(), MappingFault>
        ensures known { OnOk result (map.contains_key self.old.host_groups hosts.now ≡ true) }
        ensures room { OnOk result (GroupHas self.old name.now (λ g. HasRoomForHosts g hosts.now)) }
        ensures ok { OnOk result (ChangesGroup name.now (with_hosts hosts.now) self.old self.new) }
        ensures keeps { OnOk result (KeepsAll self.old self.new) }
        ensures err { IfErr result (AddHostsFails self.old name.now hosts.now) }
        ensures unchanged { OnErr result (self.new ≡ self.old) }
    {
        let known = self.host_groups.contains_key(hosts);
        let Some(group) = self.groups.get_mut(name) else {
            return Err(MappingFault::Unknown(*name));
        };
        if !known {
            return Err(MappingFault::Unknown(*hosts));
        }
        group.add_hosts(*hosts)
    }

    /// Removes a host group from a storage group. It takes no memory.
    ///
    /// # Errors
    /// `Unknown` where there is no such storage group, or it does not have the host group. Nothing
    /// is then changed.
    pub fn remove_hosts(&mut self, name: &Name, hosts: &Name) -> Result<(), MappingFault>
        ensures had { OnOk result (GroupHas self.old name.now (λ g. set.contains g.host_groups hosts.now ≡ true)) }
        ensures ok { OnOk result (ChangesGroup name.now (without_hosts hosts.now) self.old self.new) }
        ensures keeps { OnOk result (KeepsAll self.old self.new) }
        ensures err { IfErr result (RemoveHostsFails self.old name.now hosts.now) }
        ensures unchanged { OnErr result (self.new ≡ self.old) }
    {
        let Some(group) = self.groups.get_mut(name) else {
            return Err(MappingFault::Unknown(*name));
        };
        if !group.has_hosts(hosts) {
            return Err(MappingFault::Unknown(*hosts));
        }
        group.remove_hosts(hosts);
        Ok(())
    }

    /// Adds a target port to a storage group: one that the group's array holds. One that it has
    /// already is accepted and alters nothing.
    ///
    /// # Errors
    /// In this order: `Unknown` where there is no such storage group, `UnknownPort` where the port
    /// is not known, `WrongArray` where the group's array does not hold it, `Limit(Parts)` where the
    /// group would have more than 32 targets, `Memory`. Nothing is then changed.
    pub fn add_target(
        &mut self,
        name: &Name,
        target: &Wwn,
        inventory: &Inventory<A>,
    ) -> Result<(), MappingFault>
        ensures held { OnOk result (GroupHas self.old name.now (λ g. IsPortOf inventory.now g.array target.now)) }
        ensures room { OnOk result (GroupHas self.old name.now (λ g. HasRoomForTarget g target.now)) }
        ensures ok { OnOk result (ChangesGroup name.now (with_target target.now) self.old self.new) }
        ensures keeps { OnOk result (Keeps inventory.now self.old self.new) }
        ensures err { IfErr result (AddTargetFails self.old inventory.now name.now target.now) }
        ensures unchanged { OnErr result (self.new ≡ self.old) }
    {
        let Some(group) = self.groups.get_mut(name) else {
            return Err(MappingFault::Unknown(*name));
        };
        let Some(port) = inventory.port(target) else {
            return Err(MappingFault::UnknownPort(*target));
        };
        if !is_held_by(&port, &group.array()) {
            return Err(MappingFault::WrongArray);
        }
        group.add_target(*target)
    }

    /// Removes a target port from a storage group. It takes no memory.
    ///
    /// # Errors
    /// `Unknown` where there is no such storage group, or `UnknownPort` where it does not have the
    /// target. Nothing is then changed.
    pub fn remove_target(&mut self, name: &Name, target: &Wwn) -> Result<(), MappingFault>
        ensures had { OnOk result (GroupHas self.old name.now (λ g. set.contains g.targets target.now ≡ true)) }
        ensures ok { OnOk result (ChangesGroup name.now (without_target target.now) self.old self.new) }
        ensures keeps { OnOk result (KeepsAll self.old self.new) }
        ensures err { IfErr result (RemoveTargetFails self.old name.now target.now) }
        ensures unchanged { OnErr result (self.new ≡ self.old) }
    {
        let Some(group) = self.groups.get_mut(name) else {
            return Err(MappingFault::Unknown(*name));
        };
        if !group.has_target(target) {
            return Err(MappingFault::UnknownPort(*target));
        }
        group.remove_target(target);
        Ok(())
    }

    /// Maps a volume of the group's array at a logical unit number. One that is there already is
    /// accepted and alters nothing.
    ///
    /// # Errors
    /// In this order: `Limit(UnitNumber)` where the number is above 16383; `Unknown` where there is
    /// no such storage group or no such volume; `WrongArray` where the volume is on another array;
    /// `UnitTaken` where another volume is mapped there; `Limit(Parts)` where the group would have
    /// more than 256 units; `Memory`. Nothing is then changed.
    pub fn map(
        &mut self,
        name: &Name,
        unit: u16,
        volume: &Name,
        inventory: &Inventory<A>,
    ) -> Result<(), MappingFault>
        ensures unit { OnOk result (unit ≤ last_unit) }
        ensures on_array { OnOk result (GroupHas self.old name.now (λ g. IsVolumeOn inventory.now g.array volume.now)) }
        ensures free { OnOk result (GroupHas self.old name.now (λ g. HasFreeUnit g unit volume.now)) }
        ensures room { OnOk result (GroupHas self.old name.now (λ g. HasRoomForUnit g unit)) }
        ensures ok { OnOk result (ChangesGroup name.now (with_unit unit volume.now) self.old self.new) }
        ensures keeps { OnOk result (Keeps inventory.now self.old self.new) }
        ensures err { IfErr result (MapFails self.old inventory.now name.now unit volume.now) }
        ensures unchanged { OnErr result (self.new ≡ self.old) }
    {
        if !is_unit(unit) {
            return Err(MappingFault::Limit(MappingLimit::UnitNumber));
        }
        let Some(group) = self.groups.get_mut(name) else {
            return Err(MappingFault::Unknown(*name));
        };
        let Some(found) = inventory.volume(volume) else {
            return Err(MappingFault::Unknown(*volume));
        };
        if found.array != group.array() {
            return Err(MappingFault::WrongArray);
        }
        group.map(unit, *volume)
    }

    /// Unmaps a logical unit number of a storage group. It takes no memory.
    ///
    /// # Errors
    /// `Unknown` where there is no such storage group, or `NotMapped` where no volume is mapped
    /// there. Nothing is then changed.
    pub fn unmap(&mut self, name: &Name, unit: u16) -> Result<(), MappingFault>
        ensures had { OnOk result (GroupHas self.old name.now (λ g. map.contains_key g.units unit ≡ true)) }
        ensures ok { OnOk result (ChangesGroup name.now (without_unit unit) self.old self.new) }
        ensures keeps { OnOk result (KeepsAll self.old self.new) }
        ensures err { IfErr result (UnmapFails self.old name.now unit) }
        ensures unchanged { OnErr result (self.new ≡ self.old) }
    {
        let Some(group) = self.groups.get_mut(name) else {
            return Err(MappingFault::Unknown(*name));
        };
        if !group.has_unit(unit) {
            return Err(MappingFault::NotMapped(unit));
        }
        group.unmap(unit);
        Ok(())
    }

    /// Exposes a storage group. One that is exposed stays so.
    ///
    /// # Errors
    /// `Unknown` where there is no such storage group. Nothing is then changed.
    pub fn expose(&mut self, name: &Name) -> Result<(), MappingFault>
        ensures ok { OnOk result (ChangesGroup name.now (exposed_as true) self.old self.new) }
        ensures keeps { OnOk result (KeepsAll self.old self.new) }
        ensures err { IfErr result (NamesNoGroup self.old name.now) }
        ensures unchanged { OnErr result (self.new ≡ self.old) }
    {
        let Some(group) = self.groups.get_mut(name) else {
            return Err(MappingFault::Unknown(*name));
        };
        group.set_exposed(true);
        Ok(())
    }

    /// Hides a storage group. One that is hidden stays so.
    ///
    /// # Errors
    /// `Unknown` where there is no such storage group. Nothing is then changed.
    pub fn hide(&mut self, name: &Name) -> Result<(), MappingFault>
        ensures ok { OnOk result (ChangesGroup name.now (exposed_as false) self.old self.new) }
        ensures keeps { OnOk result (KeepsAll self.old self.new) }
        ensures err { IfErr result (NamesNoGroup self.old name.now) }
        ensures unchanged { OnErr result (self.new ≡ self.old) }
    {
        let Some(group) = self.groups.get_mut(name) else {
            return Err(MappingFault::Unknown(*name));
        };
        group.set_exposed(false);
        Ok(())
    }
}
