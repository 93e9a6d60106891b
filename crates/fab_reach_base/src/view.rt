//! A world that is lent.
ghost use Rattle.std.specs.Prelude.{◌≡◌, ◌↔◌, IsTrue};
ghost use Rattle.fab_reach_base.specs.Views.{seen};
ghost use Rattle.fab_reach_base.specs.Serving.{IsServing};

use crate::Config;
use crate::serving::{have_hosts, have_targets, is_own};
use fab_mapping::base::inventory::Inventory;
use fab_mapping::base::names::Fabric;
use std::alloc::Allocator;

/// What reachability is a matter of: the inventory and the configuration.
#[derive(Clone, Copy)]
pub struct View<'a, A: Allocator + Copy> {
    /// What is known: ports, hosts, arrays and volumes.
    pub inventory: &'a Inventory<A>,
    /// The zoning of both fabrics, and the mapping.
    pub config: &'a Config<A>,
}

impl<'a, A: Allocator + Copy> View<'a, A> {
    /// The view of an inventory and a configuration.
    pub fn of(inventory: &'a Inventory<A>, config: &'a Config<A>) -> Self
        ensures { seen result ≡ record { inventory = inventory.now; config = config.now } }
    {
        View { inventory, config }
    }

    /// Whether a book may stand at this world: each zoning is its fabric's, the hosts of host
    /// groups are hosts, and arrays hold the targets of storage groups. These are parts of what
    /// makes a world sound.
    pub fn is_serving(&self) -> bool
        ensures { IsTrue result ↔ IsServing (seen self.now) }
    {
        if !is_own(self.config, Fabric::A) {
            return false;
        }
        if !is_own(self.config, Fabric::B) {
            return false;
        }
        let mapping = self.config.mapping();
        if !have_hosts(self.inventory, mapping) {
            return false;
        }
        have_targets(self.inventory, mapping)
    }
}
