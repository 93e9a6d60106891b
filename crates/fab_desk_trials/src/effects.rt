//! What a command would make of the world, the limits on paths and on changes aside.
ghost use Rattle.std.specs.Prelude.{◌≡◌, ℕ, None, IsSome, IfOk, IfErr, IfSome};
ghost use Rattle.std.specs.Option.{option_copied};
ghost use Rattle.fab_store_world.specs.Inventories.{AreOneButHolder, AreOneButVolume};
ghost use Rattle.fab_world.specs.Soundness.{IsSound};
ghost use Rattle.fab_policy.specs.fab_policy_base.Policies.{PolicyRows};
ghost use Rattle.fab_desk_base.specs.Answers.{IsThere};
ghost use Rattle.fab_desk_base.specs.Commands.{IsGiven, action_of, tried};
ghost use Rattle.fab_desk_base.specs.Trying.{IsTryFault};
ghost use Rattle.fab_desk_trials.specs.Trials.{IsTried, IsStockEffect, IsStockFault, plan_effect, staging_effect};

use fab_desk_base::{Command, DeskFault};
use fab_desk_commands::{
    Next, activated, approved, holder_dropped, holder_put, imported, is_staged_already,
    rolled_back, volume_dropped, volume_put, withdrawn,
};
use fab_reach_base::Config;
use fab_reach_base::inventory::Inventory;
use fab_reach_base::names::Name;
use fab_store_world::{holder_difference, volume_difference};
use fab_world::World;
use std::alloc::Allocator;

/// What a command would make of the world.
#[derive(Drop)]
pub enum Effect<A: Allocator + Copy> {
    /// These parts of the world after it.
    Parts(Next<A>),
    /// One plan more: that of the command, which stages it. Its steps are still the command's.
    NewPlan,
}

/// The effect of a command on ports and on the holder of this name, if there is a name: it tells the
/// rows in which the inventory differs, and looks at no volume and at no other holder.
///
/// # Errors
/// The refusal, or `Memory`.
fn of_holder<A: Allocator + Copy>(
    alloc: A,
    world: &World<A>,
    named: Option<&Name>,
    tried: Result<Inventory<A>, DeskFault>,
) -> Result<Effect<A>, DeskFault>
    requires { IfOk tried (λ v. AreOneButHolder world.now.inventory v (option_copied named)) }
    ensures ok { IfOk result (IsStockEffect world.now tried) }
    ensures err { IfErr result (IsStockFault tried) }
{
    let inventory = match tried {
        Ok(inventory) => inventory,
        Err(fault) => return Err(fault),
    };
    match holder_difference(alloc, &world.inventory, &inventory, named) {
        Ok(change) => Ok(Effect::Parts(Next::Stock { inventory, change })),
        Err(_) => Err(DeskFault::Memory),
    }
}

/// The effect of an import: it tells the rows of ports in which the inventory differs.
///
/// # Errors
/// The refusal, or `Memory`.
fn of_import<A: Allocator + Copy>(
    alloc: A,
    world: &World<A>,
    tried: Result<Inventory<A>, DeskFault>,
) -> Result<Effect<A>, DeskFault>
    requires { IfOk tried (λ v. AreOneButHolder world.now.inventory v None) }
    ensures ok { IfOk result (IsStockEffect world.now tried) }
    ensures err { IfErr result (IsStockFault tried) }
{
    of_holder(alloc, world, None, tried)
}

/// The effect of a command on a volume: it tells the row in which the inventory differs, and looks at
/// no other.
///
/// # Errors
/// The refusal, or `Memory`.
fn of_volume<A: Allocator + Copy>(
    alloc: A,
    world: &World<A>,
    name: &Name,
    tried: Result<Inventory<A>, DeskFault>,
) -> Result<Effect<A>, DeskFault>
    requires { IfOk tried (λ v. AreOneButVolume world.now.inventory v name.now) }
    ensures ok { IfOk result (IsStockEffect world.now tried) }
    ensures err { IfErr result (IsStockFault tried) }
{
    let inventory = match tried {
        Ok(inventory) => inventory,
        Err(fault) => return Err(fault),
    };
    match volume_difference(alloc, &world.inventory, &inventory, name) {
        Ok(change) => Ok(Effect::Parts(Next::Stock { inventory, change })),
        Err(_) => Err(DeskFault::Memory),
    }
}

/// The effect of a command on a plan.
fn of_plan<A: Allocator + Copy>(tried: Result<Next<A>, DeskFault>) -> Result<Effect<A>, DeskFault>
    ensures { result ≡ plan_effect tried }
{
    match tried {
        Ok(next) => Ok(Effect::Parts(next)),
        Err(fault) => Err(fault),
    }
}

/// The effect of the staging of a plan.
fn of_staging<A: Allocator + Copy>(tried: Result<bool, DeskFault>) -> Result<Effect<A>, DeskFault>
    ensures { result ≡ staging_effect tried }
{
    match tried {
        Ok(true) => Ok(Effect::Parts(Next::Same)),
        Ok(false) => Ok(Effect::NewPlan),
        Err(fault) => Err(fault),
    }
}

/// What the command would make of the world, the limits on paths and on changes aside. A dry run
/// is tried as the activation, on the spare configuration, which is taken, if there is one. A read has
/// no effect, and is not asked.
///
/// # Errors
/// The first refusal of the records, or `Memory`.
pub fn effect_of<A: Allocator + Copy>(
    alloc: A,
    world: &World<A>,
    spare: &mut Option<Config<A>>,
    caller: &Name,
    command: &Command<A>,
) -> Result<Effect<A>, DeskFault>
    requires sound { IsSound world.now }
    requires spare { IfSome spare.old (λ s. s ≡ world.now.config) }
    requires given { IsGiven command.now }
    requires there { (p : PolicyRows) (id : ℕ) → IsThere p world.now id command.now }
    requires change { IsSome (action_of command.now) }
    ensures ok { IfOk result (IsTried world.now caller.now command.now) }
    ensures err { IfErr result (IsTryFault world.now caller.now (tried command.now)) }
    ensures spare { IfSome spare.new (λ s. s ≡ world.now.config) }
{
    match command {
        Command::Import { fabric, rows } => of_import(alloc, world, imported(world, *fabric, rows)),
        Command::PutHolder {
            kind,
            name,
            tenant,
            ports,
        } => of_holder(
            alloc,
            world,
            Some(name),
            holder_put(world, *kind, name, tenant, ports),
        ),
        Command::PutVolume { name, volume } => of_volume(
            alloc,
            world,
            name,
            volume_put(world, name, volume),
        ),
        Command::DropHolder { kind, name } => of_holder(
            alloc,
            world,
            Some(name),
            holder_dropped(world, *kind, name),
        ),
        Command::DropVolume { name } => of_volume(alloc, world, name, volume_dropped(world, name)),
        Command::Stage { plan, steps } => of_staging(is_staged_already(
            alloc, world, caller, plan, steps,
        )),
        Command::Withdraw { plan } => of_plan(withdrawn(world, plan)),
        Command::Approve { plan } => of_plan(approved(alloc, world, caller, plan)),
        Command::DryRun { plan } => of_plan(activated(alloc, world, spare, plan)),
        Command::Activate { plan } => of_plan(activated(alloc, world, spare, plan)),
        Command::Rollback { plan } => of_plan(rolled_back(alloc, world, spare, plan)),
        Command::Show(_) => unreachable!(),
    }
}
