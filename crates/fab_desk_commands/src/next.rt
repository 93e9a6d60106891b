//! The parts of the world after a change.
ghost use Rattle.std.specs.Prelude.{◌≡◌, ◌<◌, OnOk, OnErr, IfSome, true};
ghost use Rattle.std.specs.FinMap as map;
ghost use Rattle.fab_reach_base.specs.Soundness.{IsSoundAlone};
ghost use Rattle.fab_world.specs.Limits.{most_changes};
ghost use Rattle.fab_desk_base.specs.Effects.{counted, with_inventory, with_plan};
ghost use Rattle.fab_world.specs.Worlds.{WorldRows};
ghost use Rattle.fab_desk_commands.specs.Nexts.{blank_plan, next_world, order_from_room, order_with_room, order_without_room, turned_at, with_room, without_room, IsReadyFor, LeadsAt, Suits, TellsChange};

use crate::rooms::{make_place, pop_last, push_last, put_in_place, remove_place};
use crate::turns::turn_at;
use fab_plans_rows::spare_ahead;
use fab_reach_base::Config;
use fab_reach_base::inventory::Inventory;
use fab_reach_base::names::Name;
use fab_store_rows::RowDifference;
use fab_store_world::InventoryDifference;
use fab_world::{KeptPlan, World};
use std::alloc::{AllocError, Allocator};
use std::collections::BTreeMap;
use std::mem::replace;

/// What becomes of a plan.
#[derive(Drop)]
pub enum Turn<A: Allocator + Copy> {
    /// A staged plan is withdrawn.
    Withdrawn,
    /// A staged plan has these approvals: each caller with the revision of the last time.
    Approved(BTreeMap<Name, u64, A>),
    /// A staged plan is active, and its activation made this difference.
    Activated(RowDifference<A>),
    /// An active plan is rolled back, and its rollback makes this difference.
    RolledBack(RowDifference<A>),
}

/// The parts of the world that a change leaves others than they were. All memory for them is taken,
/// but for the place of a plan that is new, and that of an activated one in the order: `make_room`
/// takes that.
pub enum Next<A: Allocator + Copy> {
    /// The world stays as it is.
    Same,
    /// Another inventory, by one change more, and the rows in which it differs.
    Stock {
        /// The inventory after it.
        inventory: Inventory<A>,
        /// The rows in which it differs.
        change: InventoryDifference<A>,
    },
    /// One plan more, under a name that no plan has.
    Staged {
        /// The name of the plan.
        name: Name,
        /// The plan.
        plan: KeptPlan<A>,
    },
    /// A plan in another state, or with other approvals.
    Turned {
        /// The name of the plan.
        name: Name,
        /// What becomes of it.
        turn: Turn<A>,
    },
    /// Another configuration, by one change more, and the plan that led to it, or from it. A plan
    /// that is activated is the last in force then, and it is the last in force that is rolled back.
    Reconfigured {
        /// The configuration after it.
        config: Config<A>,
        /// The name of the plan.
        name: Name,
        /// What becomes of it.
        turn: Turn<A>,
    },
}

// It is written out, so that a caller does not prove again how each part is dropped.
impl<A: Allocator + Copy> Drop for Next<A> {
    fn drop(self) {
        match self {
            Next::Same => {}
            Next::Stock {
                inventory: _,
                change: _,
            } => {}
            Next::Staged { name: _, plan: _ } => {}
            Next::Turned { name: _, turn: _ } => {}
            Next::Reconfigured {
                config: _,
                name: _,
                turn: _,
            } => {}
        }
    }
}

/// Counts one change more.
fn count<A: Allocator + Copy>(world: &mut World<A>)
    requires { world.old.revision < most_changes }
    ensures { world.new ≡ counted world.old }
{
    world.revision += 1;
}

/// Takes over an inventory, by one change more.
fn stock<A: Allocator + Copy>(world: &mut World<A>, inventory: Inventory<A>)
    requires { world.old.revision < most_changes }
    ensures { world.new ≡ counted (with_inventory inventory world.old) }
{
    world.inventory = inventory;
    count(world);
}

/// Takes over a configuration, by one change more, and gives the one that it replaces.
fn reconfigure<A: Allocator + Copy>(world: &mut World<A>, config: Config<A>) -> Config<A>
    requires { world.old.revision < most_changes }
    ensures world { world.new ≡ counted (record world.old { config = config }) }
    ensures left { result ≡ world.old.config }
{
    let left = replace(&mut world.config, config);
    count(world);
    left
}

/// The configuration after a turn once more, led to from the one before, if there is memory for it.
fn spare_after_turn<A: Allocator + Copy>(
    alloc: A,
    before: Config<A>,
    now: &Config<A>,
    turn: &Turn<A>,
) -> Option<Config<A>>
    ensures { IsSoundAlone before → IsSoundAlone now.now → TellsChange before now.now turn.now → IfSome result (λ s. s ≡ now.now) }
{
    match turn {
        Turn::Activated(change) => spare_ahead(alloc, before, now, change),
        Turn::RolledBack(change) => spare_ahead(alloc, before, now, change),
        Turn::Withdrawn | Turn::Approved(_) => None,
    }
}

/// Makes a place for a plan.
fn place<A: Allocator + Copy>(alloc: A, world: &mut World<A>, name: Name) -> Result<(), AllocError>
    ensures ok { OnOk result (world.new ≡ with_plan name (blank_plan name) world.old) }
    ensures err { OnErr result (world.new ≡ world.old) }
{
    make_place(alloc, &mut world.plans, name)
}

/// Takes the place of a plan away.
fn displace<A: Allocator + Copy>(world: &mut World<A>, name: &Name)
    ensures { world.new ≡ record world.old { plans = map.remove world.old.plans name.now } }
{
    remove_place(&mut world.plans, name);
}

/// Takes over a plan in its place.
fn put_plan<A: Allocator + Copy>(world: &mut World<A>, name: &Name, plan: KeptPlan<A>)
    requires { map.contains_key world.old.plans name.now ≡ true }
    ensures { world.new ≡ with_plan name.now plan world.old }
{
    put_in_place(&mut world.plans, name, plan);
}

/// Turns a plan in its place.
fn turn_in<A: Allocator + Copy>(alloc: A, world: &mut World<A>, name: &Name, turn: Turn<A>)
    requires { LeadsAt world.old name.now turn }
    ensures { world.new ≡ turned_at name.now turn world.old }
{
    turn_at(alloc, &mut world.plans, name, turn);
}

/// Makes room in the order for the turn of a plan: one that is activated is the last in force.
fn make_last<A: Allocator + Copy>(
    world: &mut World<A>,
    name: &Name,
    turn: &Turn<A>,
) -> Result<(), AllocError>
    ensures ok { OnOk result (world.new ≡ record world.old { order = order_with_room turn.now name.now world.old.order }) }
    ensures err { OnErr result (world.new ≡ world.old) }
{
    match turn {
        Turn::Activated(_) => push_last(&mut world.order, *name),
        Turn::Withdrawn | Turn::Approved(_) | Turn::RolledBack(_) => Ok(()),
    }
}

/// Gives the room in the order back that was made for a turn.
fn unmake_last<A: Allocator + Copy>(world: &mut World<A>, turn: &Turn<A>)
    ensures { world.new ≡ record world.old { order = order_without_room turn.now world.old.order } }
{
    match turn {
        Turn::Activated(_) => pop_last(&mut world.order),
        Turn::Withdrawn | Turn::Approved(_) | Turn::RolledBack(_) => {}
    }
}

/// Takes over the order after a turn, for which there is room: a plan that is rolled back leaves it.
fn reorder<A: Allocator + Copy>(world: &mut World<A>, turn: &Turn<A>)
    ensures { world.new ≡ record world.old { order = order_from_room turn.now world.old.order } }
{
    match turn {
        Turn::RolledBack(_) => pop_last(&mut world.order),
        Turn::Withdrawn | Turn::Approved(_) | Turn::Activated(_) => {}
    }
}

/// Takes over a configuration to which the turn of a plan leads, with the plan and the order after the
/// turn, by one change more, and leads the one that it replaces to it. There is room in the order.
fn reconfigure_by<A: Allocator + Copy>(
    alloc: A,
    world: &mut World<A>,
    config: Config<A>,
    name: &Name,
    turn: Turn<A>,
) -> Option<Config<A>>
    requires few { world.old.revision < most_changes }
    requires leads { LeadsAt world.old name.now turn }
    ensures world { world.new ≡ counted (record (turned_at name.now turn world.old) { config = config; order = order_from_room turn world.old.order }) }
    ensures spare { IsSoundAlone world.old.config → IsSoundAlone config → TellsChange world.old.config config turn → IfSome result (λ s. s ≡ config) }
{
    reorder(world, &turn);
    let left = reconfigure(world, config);
    let spare = spare_after_turn(alloc, left, &world.config, &turn);
    turn_in(alloc, world, name, turn);
    spare
}

impl<A: Allocator + Copy> Next<A> {
    /// The other configuration that the parts have, with the turn that led to it, if they have one.
    pub fn into_config(self) -> Option<(Config<A>, Turn<A>)>
        ensures { (w : WorldRows) → Suits w self → IfSome result (λ c. TellsChange w.config c.0 c.1 × ((next_world w self).config ≡ c.0)) }
    {
        match self {
            Next::Reconfigured {
                config,
                name: _name,
                turn,
            } => Some((config, turn)),
            _ => None,
        }
    }

    /// Makes room for the parts: a plan that is new has its place then, where a plan without steps
    /// stands until it is taken over, or the room is given back; and a plan that is activated is the
    /// last in the order.
    ///
    /// # Errors
    /// `AllocError` where there is no memory: the world is as it was.
    pub fn make_room(&self, alloc: A, world: &mut World<A>) -> Result<(), AllocError>
        ensures ok { OnOk result (world.new ≡ with_room world.old self.now) }
        ensures err { OnErr result (world.new ≡ world.old) }
    {
        match self {
            Next::Staged { name, .. } => place(alloc, world, *name),
            Next::Reconfigured { name, turn, .. } => make_last(world, name, turn),
            Next::Same | Next::Stock { .. } | Next::Turned { .. } => Ok(()),
        }
    }

    /// Gives the room back that was made for the parts. It takes no memory.
    pub fn give_back(&self, world: &mut World<A>)
        ensures { world.new ≡ without_room world.old self.now }
    {
        match self {
            Next::Staged { name, .. } => displace(world, name),
            Next::Reconfigured { turn, .. } => unmake_last(world, turn),
            Next::Same | Next::Stock { .. } | Next::Turned { .. } => {}
        }
    }

    /// Takes over the parts: the world is the one that they make of the world before there was room
    /// for them. It asks that the parts are for that world: a plan that is new is not there, one that
    /// takes a turn is there, in the state that the turn leads from, and one change more may be
    /// counted where one is; and that there is room for them in this one. It needs no memory and can
    /// not fail.
    ///
    /// A spare configuration stays equal to the world's: where the parts bring another one, the one that
    /// it replaces is led to it, if there is memory for that, and is the spare one then.
    pub fn take_over(self, alloc: A, world: &mut World<A>, spare: &mut Option<Config<A>>)
        requires { IsReadyFor world.old self }
        ensures world { (before : WorldRows) → world.old ≡ with_room before self → world.new ≡ next_world before self }
        ensures spare { IfSome spare.old (λ s. s ≡ world.old.config) → IsSoundAlone world.old.config → IsSoundAlone world.new.config → IfSome spare.new (λ s. s ≡ world.new.config) }
    {
        match self {
            Next::Same => {}
            Next::Stock {
                inventory,
                change: _change,
            } => stock(world, inventory),
            Next::Staged { name, plan } => put_plan(world, &name, plan),
            Next::Turned { name, turn } => turn_in(alloc, world, &name, turn),
            Next::Reconfigured { config, name, turn } => {
                *spare = reconfigure_by(alloc, world, config, &name, turn);
            }
        }
    }
}
