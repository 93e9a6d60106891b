//! What is kept of a world beside its paths, so that a step need not walk through it.
ghost use Rattle.std.specs.Prelude.{IfOk, OnOk};
ghost use Rattle.fab_reach_base.specs.Books.{AreReached};
ghost use Rattle.fab_reach_base.specs.Orders.{Has};
ghost use Rattle.fab_reach_base.specs.Views.{seen};
ghost use Rattle.fab_reach_base.specs.Records.{Records};
ghost use Rattle.fab_reach_base.specs.Serving.{IsServing};
ghost use Rattle.fab_reach_index.specs.Indexes.{IsIndexOf};
ghost use Rattle.fab_reach_index.specs.Patches.{HasRoom, HaveSame, IsPatchTo};

use crate::indexing::{groups_of, held_of, rows_of, serving_of, targeted_of};
use crate::patch::{clear_places, make_places, put_all};
use crate::zone_ports::ports_of;
use crate::zoning_index::zones_of;
use fab_names::{Fabric, Name, Wwn};
use fab_reach_base::{Path, View};
use std::alloc::{AllocError, Allocator};
use std::collections::{BTreeMap, BTreeSet};

/// Ordered maps of a world; or, of a step, the new sets of those keys whose sets it changes.
#[derive(Drop)]
pub struct Index<A: Allocator + Copy> {
    /// The zones that each port is in.
    pub zones: BTreeMap<Wwn, BTreeSet<(Fabric, Name), A>, A>,
    /// The ports in each zone.
    pub ports: BTreeMap<(Fabric, Name), BTreeSet<Wwn, A>, A>,
    /// The exposed storage groups that serve each host.
    pub groups: BTreeMap<Name, BTreeSet<Name, A>, A>,
    /// The ports that each host or array holds.
    pub held: BTreeMap<Name, BTreeSet<Wwn, A>, A>,
    /// The exposed storage groups that have each target.
    pub targeted: BTreeMap<Wwn, BTreeSet<Name, A>, A>,
    /// The storage groups, exposed or hidden, that have each host group.
    pub serving: BTreeMap<Name, BTreeSet<Name, A>, A>,
    /// The paths of each pair.
    pub rows: BTreeMap<(Wwn, Wwn), BTreeSet<Path, A>, A>,
}

/// Makes a place for each key of a patch, and notes these keys.
fn make_all_room<A: Allocator + Copy>(
    alloc: A,
    index: &mut Index<A>,
    noted: &mut Index<A>,
    patch: &Index<A>,
) -> Result<(), AllocError>
    ensures kept { HaveSame index.old index.new }
    ensures room { OnOk result (HasRoom patch.now index.new) }
{
    make_places(alloc, &mut index.zones, &mut noted.zones, &patch.zones)?;
    make_places(alloc, &mut index.ports, &mut noted.ports, &patch.ports)?;
    make_places(alloc, &mut index.groups, &mut noted.groups, &patch.groups)?;
    make_places(alloc, &mut index.held, &mut noted.held, &patch.held)?;
    make_places(
        alloc,
        &mut index.targeted,
        &mut noted.targeted,
        &patch.targeted,
    )?;
    make_places(
        alloc,
        &mut index.serving,
        &mut noted.serving,
        &patch.serving,
    )?;
    make_places(alloc, &mut index.rows, &mut noted.rows, &patch.rows)
}

impl<A: Allocator + Copy> Index<A> {
    /// The index of a world, of which these are all paths.
    ///
    /// # Errors
    /// `AllocError` where there is no memory.
    pub fn of(alloc: A, view: &View<'_, A>, paths: &BTreeSet<Path, A>) -> Result<Self, AllocError>
        requires sound { IsServing (seen view.now) }
        requires paths { AreReached (seen view.now) (Has paths.now) }
        ensures { IfOk result (IsIndexOf (seen view.now)) }
    {
        let zones = zones_of(alloc, view)?;
        let ports = ports_of(alloc, &zones)?;
        Ok(Index {
            zones,
            ports,
            groups: groups_of(alloc, view)?,
            held: held_of(alloc, view)?,
            targeted: targeted_of(alloc, view)?,
            serving: serving_of(alloc, view)?,
            rows: rows_of(alloc, paths)?,
        })
    }

    /// An index without a key. It takes no memory.
    pub fn empty(alloc: A) -> Self {
        Index {
            zones: BTreeMap::new(alloc),
            ports: BTreeMap::new(alloc),
            groups: BTreeMap::new(alloc),
            held: BTreeMap::new(alloc),
            targeted: BTreeMap::new(alloc),
            serving: BTreeMap::new(alloc),
            rows: BTreeMap::new(alloc),
        }
    }

    /// Takes out the sets at the noted keys that are empty: no look-up tells it. It takes no memory.
    pub fn clear(&mut self, noted: &Index<A>)
        ensures { HaveSame self.old self.new }
    {
        clear_places(&mut self.zones, &noted.zones);
        clear_places(&mut self.ports, &noted.ports);
        clear_places(&mut self.groups, &noted.groups);
        clear_places(&mut self.held, &noted.held);
        clear_places(&mut self.targeted, &noted.targeted);
        clear_places(&mut self.serving, &noted.serving);
        clear_places(&mut self.rows, &noted.rows);
    }

    /// Makes a place for each key of a patch, and notes these keys. Nothing else is changed.
    ///
    /// # Errors
    /// `AllocError` where there is no memory: some keys have a place then, and these are noted.
    pub fn make_room(
        &mut self,
        alloc: A,
        noted: &mut Index<A>,
        patch: &Index<A>,
    ) -> Result<(), AllocError>
        ensures kept { HaveSame self.old self.new }
        ensures room { OnOk result (HasRoom patch.now self.new) }
    {
        make_all_room(alloc, self, noted, patch)
    }

    /// Puts the new sets in their places, if these are there. It takes no memory.
    pub fn take(&mut self, patch: Index<A>)
        ensures { (v : Records) → HasRoom patch self.old → IsPatchTo v patch self.old → IsIndexOf v self.new }
    {
        put_all(&mut self.zones, patch.zones);
        put_all(&mut self.ports, patch.ports);
        put_all(&mut self.groups, patch.groups);
        put_all(&mut self.held, patch.held);
        put_all(&mut self.targeted, patch.targeted);
        put_all(&mut self.serving, patch.serving);
        put_all(&mut self.rows, patch.rows);
    }
}
