//! Imports of port lists.
ghost use Rattle.std.specs.Prelude.{ℕ, List, IfOk, IfErr};
ghost use Rattle.fab_world.specs.Soundness.{IsSound};
ghost use Rattle.fab_desk_base.specs.declared.command.Command.TheVariants.{Import};
ghost use Rattle.fab_desk_base.specs.Effects.{counted, with_inventory};
ghost use Rattle.fab_desk_base.specs.Trying.{IsMade, IsTryFault};
ghost use Rattle.fab_desk_commands.specs.Trials.{IsSoundAfter};

use crate::refusal::refusal;
use fab_desk_base::DeskFault;
use fab_reach_base::inventory::{Inventory, PortRow};
use fab_reach_base::names::Fabric;
use fab_world::World;
use std::alloc::Allocator;

/// What the import of a port list would make of the inventory: the listed ports are logged in at
/// the fabric as listed and keep their holder, other ports of the fabric are logged in nowhere.
///
/// # Errors
/// `PortClash` at the first record that differs from an earlier one of its port name,
/// `Limit(Ports)` where more than 4096 ports would be known, or `Memory`.
pub fn imported<A: Allocator + Copy>(
    world: &World<A>,
    fabric: Fabric,
    rows: &Vec<PortRow, A>,
) -> Result<Inventory<A>, DeskFault>
    requires { IsSound world.now }
    ensures ok { (caller : List ℕ) → IfOk result (λ v. IsMade world.now caller (Import fabric rows.now) (counted (with_inventory v world.now))) }
    ensures sound { IfOk result (λ v. IsSoundAfter world.now (Import fabric rows.now) (counted (with_inventory v world.now))) }
    ensures err { (caller : List ℕ) → IfErr result (IsTryFault world.now caller (Import fabric rows.now)) }
{
    match world.inventory.after_import(fabric, rows.as_slice()) {
        Ok(next) => Ok(next),
        Err(fault) => Err(refusal(fault)),
    }
}
