//! The world of the desk.
ghost use Rattle.std.specs.Prelude.{◌≡◌, ◌↔◌, IsTrue, IfOk};
ghost use Rattle.std.specs.FinMap as map;
ghost use Rattle.std.specs.Option.{option_copied};
ghost use Rattle.fab_world.specs.Soundness.{IsSound};
ghost use Rattle.fab_world.specs.Worlds.{new_world};

use crate::KeptPlan;
use crate::sound::are_sound;
use fab_reach_base::Config;
use fab_reach_base::inventory::Inventory;
use fab_reach_base::mapping::Mapping;
use fab_reach_base::names::{Fabric, Name, Wwn};
use fab_reach_base::zoning::Zoning;
use std::alloc::{AllocError, Allocator};
use std::collections::BTreeMap;
use std::marker::Model;

/// What the desk is about at one moment.
///
/// A contract sees it as a `WorldRows`.
pub struct World<A: Allocator + Copy> {
    /// The ports, the hosts and arrays, and the volumes.
    pub inventory: Inventory<A>,
    /// The zoning of both fabrics, and the mapping.
    pub config: Config<A>,
    /// The plans, in whatever state, by name.
    pub plans: BTreeMap<Name, KeptPlan<A>, A>,
    /// The plans whose activation is in force, the oldest first.
    pub order: Vec<Name, A>,
    /// How many changes there were.
    pub revision: u64,
}

// It is written out, so that a caller does not prove again how each part is dropped.
impl<A: Allocator + Copy> Drop for World<A> {
    fn drop(self) {
        let World {
            inventory: _,
            config: _,
            plans: _,
            order: _,
            revision: _,
        } = self;
    }
}

impl<A: Allocator + Copy> Model for World<A> {
    ghost use Rattle.std.specs.FinMap as map;
    ghost use Rattle.fab_world.specs.Worlds.{WorldRows, world_code};

    ghost Value = { WorldRows };

    ghost coded = { world_code };

    ghost view = { λ w. record { inventory = w.inventory; config = w.config; plans = map.from_entries w.plans.entries; order = w.order.items; revision = w.revision } };
}

impl<A: Allocator + Copy> World<A> {
    /// A world that knows nothing: no port, holder or volume, no alias, zone, set or group, nothing
    /// active, deny in both fabrics, no plan, and revision 0. It takes no memory.
    pub fn new(alloc: A) -> Self
        ensures new { result ≡ new_world }
        ensures sound { IsSound result }
    {
        let inventory = Inventory::new(alloc);
        // Any look-up tells that an inventory is sound.
        let _port = inventory.port(&Wwn::new(1));
        World {
            inventory,
            config: Config {
                a: Zoning::new(alloc, Fabric::A),
                b: Zoning::new(alloc, Fabric::B),
                mapping: Mapping::new(alloc),
            },
            plans: BTreeMap::new(alloc),
            order: Vec::new(alloc),
            revision: 0,
        }
    }

    /// The plan of the name, in whatever state, if there is one. It takes no memory.
    pub fn plan(&self, name: &Name) -> Option<&KeptPlan<A>>
        ensures { option_copied result ≡ map.get self.now.plans name.now }
    {
        self.plans.get(name)
    }

    /// Whether the world is sound. Besides its paths and the names of the order it has one earlier
    /// configuration in memory at a time.
    ///
    /// # Errors
    /// `AllocError` where there is no memory.
    pub fn is_sound(&self, alloc: A) -> Result<bool, AllocError>
        ensures { IfOk result (λ sound. IsTrue sound ↔ IsSound self.now) }
    {
        are_sound(
            alloc,
            &self.inventory,
            &self.config,
            &self.plans,
            self.order.as_slice(),
            self.revision,
        )
    }
}
