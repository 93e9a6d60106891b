//! What is gone, in the order in which it is told.
ghost use Rattle.std.specs.Prelude.{◌≡◌};
ghost use Rattle.fab_lemmas.specs.Firsts.{IsFirstOf};
ghost use Rattle.fab_store_rows.specs.declared.config_row.StoragePart.TheVariants as part;
ghost use Rattle.fab_plans_rows.specs.Inner.Losses as losses;
ghost use Rattle.fab_plans_rows.specs.Inner.Losses.{lost_cmp, LacksName, PartLacks, GroupLacks};

use fab_inventory::Inventory;
use fab_mapping::{Gone, StorageGroup};
use fab_mapping_base::{gone_array, gone_target, gone_volume, is_host, is_port_of, is_volume_on};
use fab_names::{Name, Wwn};
use fab_store_rows::StoragePart;
use std::alloc::Allocator;

/// What is gone (`Gone`), ordered by kind as listed, then by name.
#[derive(Clone, Copy, PartialEq, Eq, PartialOrd, Ord)]
pub enum Lost {
    Host(Name),
    Array(Name),
    Target(Wwn),
    Volume(Name),
}

/// The same, as it is told.
pub fn told(lost: Lost) -> Gone
    ensures { result ≡ losses.told lost }
{
    match lost {
        Lost::Host(name) => Gone::Host(name),
        Lost::Array(name) => Gone::Array(name),
        Lost::Target(port) => Gone::Target(port),
        Lost::Volume(name) => Gone::Volume(name),
    }
}

/// The host of this name, where it is gone.
pub fn lost_host<A: Allocator + Copy>(inventory: &Inventory<A>, name: &Name) -> Option<Lost>
    ensures { IsFirstOf lost_cmp (LacksName inventory.now name.now) result }
{
    if is_host(inventory, name) {
        return None;
    }
    Some(Lost::Host(*name))
}

/// The target of the storage group, where its array does not hold it.
fn lost_target<A: Allocator + Copy>(
    inventory: &Inventory<A>,
    group: &StorageGroup<A>,
    port: &Wwn,
) -> Option<Lost>
    ensures { IsFirstOf lost_cmp (PartLacks inventory.now group.now (part.Target port.now)) result }
{
    if is_port_of(inventory, &group.array(), port) {
        return None;
    }
    Some(Lost::Target(*port))
}

/// The volume that the storage group maps, where it is not on the group's array.
fn lost_volume<A: Allocator + Copy>(
    inventory: &Inventory<A>,
    group: &StorageGroup<A>,
    unit: u16,
    volume: &Name,
) -> Option<Lost>
    ensures { IsFirstOf lost_cmp (PartLacks inventory.now group.now (part.Unit unit volume.now)) result }
{
    let _unit = unit;
    if is_volume_on(inventory, &group.array(), volume) {
        return None;
    }
    Some(Lost::Volume(*volume))
}

/// What of this part of the storage group is gone.
pub fn lost_part<A: Allocator + Copy>(
    inventory: &Inventory<A>,
    group: &StorageGroup<A>,
    part: &StoragePart,
) -> Option<Lost>
    ensures { IsFirstOf lost_cmp (PartLacks inventory.now group.now part.now) result }
{
    match part {
        StoragePart::HostGroup(_) => None,
        StoragePart::Target(port) => lost_target(inventory, group, port),
        StoragePart::Unit(unit, volume) => lost_volume(inventory, group, *unit, volume),
    }
}

/// The first of the storage group that is gone: its array, then targets, then volumes.
pub fn first_lost<A: Allocator + Copy>(
    inventory: &Inventory<A>,
    group: &StorageGroup<A>,
) -> Option<Lost>
    ensures { IsFirstOf lost_cmp (GroupLacks inventory.now group.now) result }
{
    if let Some(array) = gone_array(inventory, group) {
        return Some(Lost::Array(array));
    }
    if let Some(port) = gone_target(inventory, group) {
        return Some(Lost::Target(port));
    }
    match gone_volume(inventory, group) {
        Some(volume) => Some(Lost::Volume(volume)),
        None => None,
    }
}
