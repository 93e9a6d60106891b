//! Storage groups.
ghost use Rattle.std.specs.Prelude.{◌≡◌, IsTrue, ◌↔◌, OnOk, OnErr, IfErr};
ghost use Rattle.std.specs.FinSet as set;
ghost use Rattle.std.specs.List.Sorted.{IsStrictlySortedBy};
ghost use Rattle.std.specs.Ordering.{nat_cmp};
ghost use Rattle.fab_inventory.specs.fab_names.Orders.{name_cmp};
ghost use Rattle.std.specs.FinMap as map;
ghost use Rattle.fab_mapping_base.specs.ClashSearch.{MapsOther};
ghost use Rattle.fab_mapping_base.specs.Soundness.{HasFewParts, HasUnitNumbers};
ghost use Rattle.fab_mapping_base.specs.Bare.{HasNoPart};
ghost use Rattle.fab_mapping_base.specs.Groups.{MapsVolume, new_storage_group, with_hosts, without_hosts, with_target, without_target, with_unit, without_unit, exposed_as, HasRoomForHosts, HasRoomForTarget, HasRoomForUnit, HasFreeUnit, HaveSameHead, AddHostsLimit, AddTargetLimit, MapRefusal};

use crate::limits::{LAST_UNIT, MOST_GROUPS_SERVED, MOST_TARGETS, MOST_UNITS};
use crate::same::{are_same_names, are_same_ports, are_same_units};
use crate::{MappingFault, MappingLimit};
use fab_inventory::names::{Name, Wwn};
use std::alloc::{AllocError, Allocator};
use std::collections::{BTreeMap, BTreeSet, btree_map, btree_set};
use std::marker::Model;

/// A storage group: while it is exposed, each host of its host groups meets, at each of its target
/// ports, each of its volumes at its logical unit number (SNIA Swordfish). Its targets and volumes
/// are on one array.
///
/// A contract sees it as a `StorageGroupRows`.
pub struct StorageGroup<A: Allocator + Copy> {
    tenant: Name,
    array: Name,
    host_groups: BTreeSet<Name, A>,
    targets: BTreeSet<Wwn, A>,
    units: BTreeMap<u16, Name, A>,
    exposed: bool,
}

// It is written out, so that a caller does not prove again how each part is dropped.
impl<A: Allocator + Copy> Drop for StorageGroup<A> {
    fn drop(self) {
        let StorageGroup {
            tenant: _,
            array: _,
            host_groups: _,
            targets: _,
            units: _,
            exposed: _,
        } = self;
    }
}

impl<A: Allocator + Copy> Model for StorageGroup<A> {
    ghost use Rattle.std.specs.FinSet as set;
    ghost use Rattle.std.specs.FinMap as map;
    ghost use Rattle.fab_mapping_base.specs.Groups.{StorageGroupRows, storage_group_code};

    ghost Value = { StorageGroupRows };

    ghost coded = { storage_group_code };

    ghost view = { λ a. record {
      tenant = a.tenant;
      array = a.array;
      host_groups = set.from_list a.host_groups.keys;
      targets = set.from_list a.targets.keys;
      units = map.from_entries a.units.entries;
      exposed = a.exposed;
    } };
}

/// Whether the two are one volume.
fn is_same(volume: &Name, other: &Name) -> bool
    ensures { IsTrue result ↔ (volume.now ≡ other.now) }
{
    *volume == *other
}

impl<A: Allocator + Copy> StorageGroup<A> {
    /// A storage group on an array, hidden and empty.
    pub fn new(alloc: A, tenant: Name, array: Name) -> Self
        ensures { result ≡ new_storage_group tenant array }
    {
        StorageGroup {
            tenant,
            array,
            host_groups: BTreeSet::new(alloc),
            targets: BTreeSet::new(alloc),
            units: BTreeMap::new(alloc),
            exposed: false,
        }
    }

    /// The storage group of these parts, as they are: what a stored one was made of. Nothing is
    /// tested.
    pub fn from_parts(
        tenant: Name,
        array: Name,
        host_groups: BTreeSet<Name, A>,
        targets: BTreeSet<Wwn, A>,
        units: BTreeMap<u16, Name, A>,
        exposed: bool,
    ) -> Self
        ensures { result ≡ record { tenant = tenant; array = array; host_groups = set.from_list host_groups.keys; targets = set.from_list targets.keys; units = map.from_entries units.entries; exposed = exposed } }
    {
        StorageGroup {
            tenant,
            array,
            host_groups,
            targets,
            units,
            exposed,
        }
    }

    /// Whose it is.
    pub fn tenant(&self) -> Name
        ensures { result ≡ self.now.tenant }
    {
        self.tenant
    }

    /// The array that its targets and volumes are on.
    pub fn array(&self) -> Name
        ensures { result ≡ self.now.array }
    {
        self.array
    }

    /// Whether it is exposed.
    pub fn is_exposed(&self) -> bool
        ensures { result ≡ self.now.exposed }
    {
        self.exposed
    }

    /// Whether both have the same tenant, are on the same array, and are exposed or hidden alike.
    fn has_same_head(&self, other: &Self) -> bool
        ensures { IsTrue result ↔ HaveSameHead self.now other.now }
    {
        self.tenant == other.tenant && self.array == other.array && self.exposed == other.exposed
    }

    /// Whether the other is the same storage group: of the same tenant, on the same array, exposed or
    /// hidden alike, with the same host groups, targets, and units with their volumes. It takes no
    /// memory.
    pub fn is_same(&self, other: &Self) -> bool
        ensures { IsTrue result ↔ (self.now ≡ other.now) }
    {
        if !self.has_same_head(other) {
            return false;
        }
        if !are_same_names(&self.host_groups, &other.host_groups) {
            return false;
        }
        if !are_same_ports(&self.targets, &other.targets) {
            return false;
        }
        are_same_units(&self.units, &other.units)
    }

    /// Its host groups, in the order of their names.
    pub fn host_groups(&self) -> btree_set::Iter<'_, Name>
        ensures host_groups { set.from_list result ≡ self.now.host_groups }
        ensures ordered { IsStrictlySortedBy name_cmp result }
    {
        self.host_groups.iter()
    }

    /// Its target ports, in order.
    pub fn targets(&self) -> btree_set::Iter<'_, Wwn>
        ensures targets { set.from_list result ≡ self.now.targets }
        ensures ordered { IsStrictlySortedBy nat_cmp result }
    {
        self.targets.iter()
    }

    /// Its volumes by logical unit number, in order.
    pub fn units(&self) -> btree_map::Iter<'_, u16, Name>
        ensures { result ≡ map.entries self.now.units }
    {
        self.units.iter()
    }

    /// The volume at the logical unit number.
    pub fn unit(&self, unit: u16) -> Option<Name>
        ensures { result ≡ map.get self.now.units unit }
    {
        self.units.get(&unit).copied()
    }

    /// Whether it maps the volume, at some logical unit number.
    pub fn has_volume(&self, volume: &Name) -> bool
        ensures { IsTrue result ↔ MapsVolume volume.now self.now }
    {
        for (_unit, there) in &self.units {
            if *there == *volume {
                return true;
            }
        }
        false
    }

    /// Whether another volume is mapped at the logical unit number.
    pub(crate) fn maps_other(&self, unit: u16, volume: &Name) -> bool
        ensures { IsTrue result ↔ MapsOther self.now unit volume.now }
    {
        match self.units.get(&unit) {
            Some(there) => *there != *volume,
            None => false,
        }
    }

    /// Whether the host group is in it.
    pub fn has_hosts(&self, hosts: &Name) -> bool
        ensures { result ≡ set.contains self.now.host_groups hosts.now }
    {
        self.host_groups.contains(hosts)
    }

    /// Whether the port is a target of it.
    pub fn has_target(&self, target: &Wwn) -> bool
        ensures { result ≡ set.contains self.now.targets target.now }
    {
        self.targets.contains(target)
    }

    /// Whether a volume is mapped at the logical unit number.
    pub fn has_unit(&self, unit: u16) -> bool
        ensures { result ≡ map.contains_key self.now.units unit }
    {
        self.units.contains_key(&unit)
    }

    /// Whether there are no more host groups, targets and units than there may be.
    pub(crate) fn has_few_parts(&self) -> bool
        ensures { IsTrue result ↔ HasFewParts self.now }
    {
        let (host_groups, targets) = (self.host_groups.len(), self.targets.len());
        let units = self.units.len();
        if host_groups > MOST_GROUPS_SERVED {
            return false;
        }
        if targets > MOST_TARGETS {
            return false;
        }
        units <= MOST_UNITS
    }

    /// Whether nothing is mapped above the last logical unit number.
    pub(crate) fn has_unit_numbers(&self) -> bool
        ensures { IsTrue result ↔ HasUnitNumbers self.now }
    {
        self.units().all(|(unit, _volume)| *unit <= LAST_UNIT)
    }

    /// Adds a host group.
    ///
    /// # Errors
    /// `Limit(Parts)` where it would have more than 64, or `Memory`. It is then as it was.
    pub fn add_hosts(&mut self, hosts: Name) -> Result<(), MappingFault>
        ensures room { OnOk result (HasRoomForHosts self.old hosts) }
        ensures ok { OnOk result (self.new ≡ with_hosts hosts self.old) }
        ensures err { IfErr result (AddHostsLimit self.old hosts) }
        ensures unchanged { OnErr result (self.new ≡ self.old) }
    {
        if self.host_groups.len() >= MOST_GROUPS_SERVED && !self.host_groups.contains(&hosts) {
            return Err(MappingFault::Limit(MappingLimit::Parts));
        }
        self.host_groups.insert(hosts)?;
        Ok(())
    }

    /// Removes a host group, if it is there.
    pub fn remove_hosts(&mut self, hosts: &Name)
        ensures { self.new ≡ without_hosts hosts.now self.old }
    {
        self.host_groups.remove(hosts);
    }

    /// Adds a target port.
    ///
    /// # Errors
    /// `Limit(Parts)` where it would have more than 32, or `Memory`. It is then as it was.
    pub fn add_target(&mut self, target: Wwn) -> Result<(), MappingFault>
        ensures room { OnOk result (HasRoomForTarget self.old target) }
        ensures ok { OnOk result (self.new ≡ with_target target self.old) }
        ensures err { IfErr result (AddTargetLimit self.old target) }
        ensures unchanged { OnErr result (self.new ≡ self.old) }
    {
        if self.targets.len() >= MOST_TARGETS && !self.targets.contains(&target) {
            return Err(MappingFault::Limit(MappingLimit::Parts));
        }
        self.targets.insert(target)?;
        Ok(())
    }

    /// Removes a target port, if it is there.
    pub fn remove_target(&mut self, target: &Wwn)
        ensures { self.new ≡ without_target target.now self.old }
    {
        self.targets.remove(target);
    }

    /// Maps a volume at a logical unit number.
    ///
    /// # Errors
    /// `UnitTaken` where another volume is there, `Limit(Parts)` where it would have more than 256
    /// units, or `Memory`. It is then as it was.
    pub fn map(&mut self, unit: u16, volume: Name) -> Result<(), MappingFault>
        ensures free { OnOk result (HasFreeUnit self.old unit volume) }
        ensures room { OnOk result (HasRoomForUnit self.old unit) }
        ensures ok { OnOk result (self.new ≡ with_unit unit volume self.old) }
        ensures err { IfErr result (MapRefusal self.old unit volume) }
        ensures unchanged { OnErr result (self.new ≡ self.old) }
    {
        if let Some(there) = self.units.get(&unit) {
            if is_same(there, &volume) {
                return Ok(());
            }
            return Err(MappingFault::UnitTaken(unit));
        }
        if self.units.len() >= MOST_UNITS {
            return Err(MappingFault::Limit(MappingLimit::Parts));
        }
        self.units.insert(unit, volume)?;
        Ok(())
    }

    /// Unmaps a logical unit number, if a volume is there.
    pub fn unmap(&mut self, unit: u16)
        ensures { self.new ≡ without_unit unit self.old }
    {
        self.units.remove(&unit);
    }

    /// Puts a host group in, if it is not there, however many there are.
    ///
    /// # Errors
    /// `AllocError` where there is no memory. It is then as it was.
    pub fn put_hosts(&mut self, group: Name) -> Result<(), AllocError>
        ensures ok { OnOk result (self.new ≡ with_hosts group self.old) }
        ensures err { OnErr result (self.new ≡ self.old) }
    {
        self.host_groups.insert(group)?;
        Ok(())
    }

    /// Puts a target port in, if it is not there, however many there are.
    ///
    /// # Errors
    /// `AllocError` where there is no memory. It is then as it was.
    pub fn put_target(&mut self, port: Wwn) -> Result<(), AllocError>
        ensures ok { OnOk result (self.new ≡ with_target port self.old) }
        ensures err { OnErr result (self.new ≡ self.old) }
    {
        self.targets.insert(port)?;
        Ok(())
    }

    /// Puts a volume at a logical unit number, in place of the one there, however many there are.
    ///
    /// # Errors
    /// `AllocError` where there is no memory. It is then as it was.
    pub fn put_unit(&mut self, number: u16, volume: Name) -> Result<(), AllocError>
        ensures ok { OnOk result (self.new ≡ with_unit number volume self.old) }
        ensures err { OnErr result (self.new ≡ self.old) }
    {
        self.units.insert(number, volume)?;
        Ok(())
    }

    /// Sets whose it is, the array that it is on, and whether it is exposed. Its parts stay.
    pub fn set_head(&mut self, tenant: Name, array: Name, is_exposed: bool)
        ensures { self.new ≡ record self.old { tenant = tenant; array = array; exposed = is_exposed } }
    {
        self.tenant = tenant;
        self.array = array;
        self.exposed = is_exposed;
    }

    /// Whether there is no host group, no target and no unit.
    pub fn is_bare(&self) -> bool
        ensures { IsTrue result ↔ HasNoPart self.now }
    {
        if !self.host_groups.is_empty() {
            return false;
        }
        if !self.targets.is_empty() {
            return false;
        }
        self.units.is_empty()
    }

    /// Exposes it, or hides it.
    pub fn set_exposed(&mut self, exposed: bool)
        ensures { self.new ≡ exposed_as exposed self.old }
    {
        self.exposed = exposed;
    }
}

impl<A: Allocator + Copy> Clone for StorageGroup<A> {
    ghost is_clone = { λ x y. y ≡ x };

    fn clone(&self) -> Result<Self, AllocError> {
        Ok(StorageGroup {
            tenant: self.tenant,
            array: self.array,
            host_groups: self.host_groups.clone()?,
            targets: self.targets.clone()?,
            units: self.units.clone()?,
            exposed: self.exposed,
        })
    }
}
