//! What has to stand before a command is looked at: that some body gives its values, and that what
//! it is about is there.
ghost use Rattle.std.specs.Prelude.{◌≡◌, ◌↔◌, ℕ, IsTrue, IsSome};
ghost use Rattle.fab_desk_base.specs.Answers.{IsThere, HasPlan};
ghost use Rattle.fab_desk_base.specs.Commands.{IsGiven, action_of};
ghost use Rattle.fab_reach_base.specs.fab_inventory.Inventories.{IsCapacity, kind_of};
ghost use Rattle.fab_policy.specs.fab_policy_base.Policies.{PolicyRows};

use fab_desk_base::Command;
use fab_reach_base::inventory::{HolderKind, Inventory, MOST_BYTES, MOST_PORTS_OF_HOLDER};
use fab_reach_base::names::Name;
use fab_world::World;
use fab_world::plans::texts::is_within_limits;
use std::alloc::Allocator;

/// Whether it is a capacity.
fn is_capacity(bytes: u64) -> bool
    ensures { IsTrue result ↔ IsCapacity bytes }
{
    if bytes < 1 {
        return false;
    }
    bytes <= MOST_BYTES
}

/// Whether some body gives the command's values.
pub fn is_given<A: Allocator + Copy>(command: &Command<A>) -> bool
    ensures { IsTrue result ↔ IsGiven command.now }
{
    match command {
        Command::PutHolder { ports, .. } => ports.len() <= MOST_PORTS_OF_HOLDER,
        Command::PutVolume { volume, .. } => is_capacity(volume.bytes),
        Command::Stage { steps, .. } => is_within_limits(steps.as_slice()),
        _ => true,
    }
}

/// Whether the host or the array is there.
fn has_holder<A: Allocator + Copy>(inventory: &Inventory<A>, kind: HolderKind, name: &Name) -> bool
    ensures { IsTrue result ↔ (kind_of inventory.now.holders name.now ≡ Some kind) }
{
    let Some(holder) = inventory.holder(name) else {
        return false;
    };
    holder.kind == kind
}

/// Whether the plan is there.
fn has_plan<A: Allocator + Copy>(world: &World<A>, name: &Name) -> bool
    ensures { IsTrue result ↔ HasPlan world.now name.now }
{
    match world.plan(name) {
        Some(_plan) => true,
        None => false,
    }
}

/// Whether what the command is about is there; a read is not asked.
pub fn is_there<A: Allocator + Copy>(world: &World<A>, command: &Command<A>) -> bool
    requires { IsSome (action_of command.now) }
    ensures { (p : PolicyRows) (id : ℕ) → IsTrue result ↔ IsThere p world.now id command.now }
{
    match command {
        Command::DropHolder { kind, name } => has_holder(&world.inventory, *kind, name),
        Command::DropVolume { name } => world.inventory.volume(name).is_some(),
        Command::Withdraw { plan } => has_plan(world, plan),
        Command::Approve { plan } => has_plan(world, plan),
        Command::DryRun { plan } => has_plan(world, plan),
        Command::Activate { plan } => has_plan(world, plan),
        Command::Rollback { plan } => has_plan(world, plan),
        _ => true,
    }
}
