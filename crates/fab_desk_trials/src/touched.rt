//! The tenants whose things a command touches.
ghost use Rattle.std.specs.Prelude.{OnOk, IfOk, ◌≡◌, ◌↔◌, ◌⊎◌, ℕ, List, Contains};
ghost use Rattle.fab_reach_base.specs.Adding.{Adds};
ghost use Rattle.fab_desk_base.specs.Tenants.{Has, IsHolderOf, IsVolumeOf};
ghost use Rattle.fab_desk_base.specs.Touching.{MovesTenant, Touches};
ghost use Rattle.fab_desk_trials.specs.Gathered.{IsOfBody, IsOfCommand};
ghost use Rattle.fab_desk_trials.specs.Named.{AreSteps};

use crate::named::view_of;
use crate::plan_steps::add_steps;
use crate::things::{add_holder, add_tenant, add_volume};
use fab_desk_base::Command;
use fab_reach_base::inventory::{HolderKind, Inventory};
use fab_reach_base::lemmas::keys_listed;
use fab_reach_base::names::Name;
use fab_world::World;
use fab_world::plans::base::Step;
use std::alloc::{AllocError, Allocator};
use std::collections::BTreeSet;

/// Adds the tenant that a put gives to a host or an array, and the one that it has now.
fn add_put_holder<A: Allocator + Copy>(
    tenants: &mut BTreeSet<Name, A>,
    inventory: &Inventory<A>,
    kind: HolderKind,
    name: &Name,
    tenant: &Name,
) -> Result<(), AllocError>
    ensures { OnOk result (Adds (λ t. (t ≡ tenant.now) ⊎ IsHolderOf inventory.now kind name.now t) (Has tenants.old) (Has tenants.new)) }
{
    add_tenant(tenants, tenant)?;
    add_holder(tenants, inventory, kind, name)?;
    Ok(())
}

/// Adds the tenant that a put gives to a volume, and the one that it has now.
fn add_put_volume<A: Allocator + Copy>(
    tenants: &mut BTreeSet<Name, A>,
    inventory: &Inventory<A>,
    name: &Name,
    tenant: &Name,
) -> Result<(), AllocError>
    ensures { OnOk result (Adds (λ t. (t ≡ tenant.now) ⊎ IsVolumeOf inventory.now name.now t) (Has tenants.old) (Has tenants.new)) }
{
    add_tenant(tenants, tenant)?;
    add_volume(tenants, inventory, name)?;
    Ok(())
}

/// Adds the tenant that the command's body gives, and that of the host, the array or the volume
/// that it is about.
fn add_body<A: Allocator + Copy>(
    tenants: &mut BTreeSet<Name, A>,
    inventory: &Inventory<A>,
    command: &Command<A>,
) -> Result<(), AllocError>
    ensures { OnOk result (Adds (IsOfBody inventory.now command.now) (Has tenants.old) (Has tenants.new)) }
{
    match command {
        Command::PutHolder {
            kind,
            name,
            tenant,
            ..
        } => add_put_holder(tenants, inventory, *kind, name, tenant),
        Command::PutVolume { name, volume } => {
            add_put_volume(tenants, inventory, name, &volume.tenant)
        }
        Command::DropHolder { kind, name } => add_holder(tenants, inventory, *kind, name),
        Command::DropVolume { name } => add_volume(tenants, inventory, name),
        _ => Ok(()),
    }
}

/// Adds the tenants that the command gives, and those of what it names, as it is now.
fn add_named<A: Allocator + Copy>(
    tenants: &mut BTreeSet<Name, A>,
    world: &World<A>,
    command: &Command<A>,
    steps: &[Step<A>],
) -> Result<(), AllocError>
    requires { AreSteps world.now command.now steps.now }
    ensures { OnOk result (Adds (IsOfCommand world.now command.now) (Has tenants.old) (Has tenants.new)) }
{
    let view = view_of(world);
    add_body(tenants, view.inventory, command)?;
    add_steps(tenants, &view, steps)?;
    Ok(())
}

/// The tenants whose things the command of this caller touches: of its body and its plan, and the
/// moved ones. The steps are those of its plan.
///
/// # Errors
/// `AllocError` where there is no memory.
pub fn touched<A: Allocator + Copy>(
    alloc: A,
    world: &World<A>,
    caller: &Name,
    command: &Command<A>,
    steps: &[Step<A>],
    moved: &BTreeSet<Name, A>,
) -> Result<Vec<Name, A>, AllocError>
    requires steps { AreSteps world.now command.now steps.now }
    requires moved { (t : List ℕ) → Has moved.now t ↔ MovesTenant world.now caller.now command.now t }
    ensures { IfOk result (λ list. (t : List ℕ) → Contains list.items t ↔ Touches world.now caller.now command.now t) }
{
    let mut tenants = moved.clone()?;
    add_named(&mut tenants, world, command, steps)?;
    let list = keys_listed(alloc, &tenants)?;
    Ok(list)
}
