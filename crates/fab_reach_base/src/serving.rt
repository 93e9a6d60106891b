//! Whether a world is one that a book may stand at.
ghost use Rattle.std.specs.Prelude.{◌≡◌, ◌↔◌, IsTrue};
ghost use Rattle.fab_reach_base.specs.Records.{zoning_at};
ghost use Rattle.fab_reach_base.specs.Serving.{IsArrayPort, AreTargets, HaveHosts, HaveTargets};

use crate::Config;
use fab_mapping::base::inventory::Inventory;
use fab_mapping::base::names::{Fabric, Wwn};
use fab_mapping::base::{host_group_fits, is_array};
use fab_mapping::{Mapping, StorageGroup};
use std::alloc::Allocator;

/// Whether an array holds the port of this name.
fn is_array_port<A: Allocator + Copy>(inventory: &Inventory<A>, name: &Wwn) -> bool
    ensures { IsTrue result ↔ IsArrayPort inventory.now name.now }
{
    let Some(port) = inventory.port(name) else {
        return false;
    };
    match port.holder {
        Some(holder) => is_array(inventory, &holder),
        None => false,
    }
}

/// Whether arrays hold the targets of a storage group.
fn are_targets<A: Allocator + Copy>(inventory: &Inventory<A>, group: &StorageGroup<A>) -> bool
    ensures { IsTrue result ↔ AreTargets inventory.now group.now }
{
    for target in group.targets() {
        if !is_array_port(inventory, target) {
            return false;
        }
    }
    true
}

/// Whether the hosts of all host groups are hosts.
pub fn have_hosts<A: Allocator + Copy>(inventory: &Inventory<A>, mapping: &Mapping<A>) -> bool
    ensures { IsTrue result ↔ HaveHosts inventory.now mapping.now }
{
    for (_name, group) in mapping.host_groups() {
        if !host_group_fits(inventory, group) {
            return false;
        }
    }
    true
}

/// Whether arrays hold the targets of all storage groups.
pub fn have_targets<A: Allocator + Copy>(inventory: &Inventory<A>, mapping: &Mapping<A>) -> bool
    ensures { IsTrue result ↔ HaveTargets inventory.now mapping.now }
{
    for (_name, group) in mapping.groups() {
        if !are_targets(inventory, group) {
            return false;
        }
    }
    true
}

/// Whether the zoning of a fabric is that fabric's.
pub fn is_own<A: Allocator + Copy>(config: &Config<A>, fabric: Fabric) -> bool
    ensures { IsTrue result ↔ ((zoning_at config.now fabric).fabric ≡ fabric) }
{
    config.zoning(fabric).fabric() == fabric
}
