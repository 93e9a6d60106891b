//! Whose things the steps of a plan give and name.
ghost use Rattle.std.specs.Prelude.{OnOk, ℕ, List};
ghost use Rattle.fab_reach_base.specs.Adding.{Adds};
ghost use Rattle.fab_reach_base.specs.Views.{seen};
ghost use Rattle.fab_world.specs.fab_plans_base.Actions.{mapping_step};
ghost use Rattle.fab_world.specs.fab_plans_base.Steps.{host_group_put, host_group_drop, group_new, group_drop, group_host, group_map};
ghost use Rattle.fab_desk_base.specs.Tenants.{Has};
ghost use Rattle.fab_desk_trials.specs.Gathered.{IsOfSomeHost, IsOfStep, IsOfSomeStep};

use crate::things::{add_group, add_holder, add_host_group, add_tenant, add_volume};
use fab_reach_base::View;
use fab_reach_base::inventory::HolderKind;
use fab_reach_base::names::Name;
use fab_world::plans::base::{Action, MappingAction, Step};
use std::alloc::{AllocError, Allocator};
use std::collections::BTreeSet;

/// Adds the tenants of the hosts of these names.
fn add_hosts<A: Allocator + Copy>(
    tenants: &mut BTreeSet<Name, A>,
    view: &View<'_, A>,
    hosts: &[Name],
) -> Result<(), AllocError>
    ensures { OnOk result (Adds (IsOfSomeHost (seen view.now) hosts.now) (Has tenants.old) (Has tenants.new)) }
{
    for host in hosts {
        add_holder(tenants, view.inventory, HolderKind::Host, host)?;
    }
    Ok(())
}

/// Adds what a step is about that makes or replaces a host group: the tenant that it gives, and
/// those of the host group and of its hosts.
fn add_host_group_put<A: Allocator + Copy>(
    tenants: &mut BTreeSet<Name, A>,
    view: &View<'_, A>,
    name: &Name,
    tenant: &Name,
    hosts: &[Name],
) -> Result<(), AllocError>
    ensures { OnOk result (Adds (IsOfStep (seen view.now) (host_group_put name.now tenant.now hosts.now)) (Has tenants.old) (Has tenants.new)) }
{
    add_tenant(tenants, tenant)?;
    add_host_group(tenants, view, name)?;
    add_hosts(tenants, view, hosts)?;
    Ok(())
}

/// Adds the tenant of the host group that a step names alone.
fn add_host_group_alone<A: Allocator + Copy>(
    tenants: &mut BTreeSet<Name, A>,
    view: &View<'_, A>,
    name: &Name,
) -> Result<(), AllocError>
    ensures { OnOk result (Adds (IsOfStep (seen view.now) (host_group_drop name.now)) (Has tenants.old) (Has tenants.new)) }
{
    add_host_group(tenants, view, name)?;
    Ok(())
}

/// Adds the tenant that a step gives to a storage group that it makes, on whatever array, and that
/// of the group.
fn add_group_new<A: Allocator + Copy>(
    tenants: &mut BTreeSet<Name, A>,
    view: &View<'_, A>,
    name: &Name,
    tenant: &Name,
) -> Result<(), AllocError>
    ensures { (array : List ℕ) → OnOk result (Adds (IsOfStep (seen view.now) (group_new name.now tenant.now array)) (Has tenants.old) (Has tenants.new)) }
{
    add_tenant(tenants, tenant)?;
    add_group(tenants, view, name)?;
    Ok(())
}

/// Adds the tenant of the storage group that a step names alone.
fn add_group_alone<A: Allocator + Copy>(
    tenants: &mut BTreeSet<Name, A>,
    view: &View<'_, A>,
    name: &Name,
) -> Result<(), AllocError>
    ensures { OnOk result (Adds (IsOfStep (seen view.now) (group_drop name.now)) (Has tenants.old) (Has tenants.new)) }
{
    add_group(tenants, view, name)?;
    Ok(())
}

/// Adds the tenants of a storage group and of a host group that a step names together.
fn add_group_host<A: Allocator + Copy>(
    tenants: &mut BTreeSet<Name, A>,
    view: &View<'_, A>,
    name: &Name,
    host_group: &Name,
) -> Result<(), AllocError>
    ensures { OnOk result (Adds (IsOfStep (seen view.now) (group_host name.now host_group.now)) (Has tenants.old) (Has tenants.new)) }
{
    add_group(tenants, view, name)?;
    add_host_group(tenants, view, host_group)?;
    Ok(())
}

/// Adds the tenants of a storage group and of the volume that a step maps there, at whatever unit.
fn add_group_map<A: Allocator + Copy>(
    tenants: &mut BTreeSet<Name, A>,
    view: &View<'_, A>,
    name: &Name,
    volume: &Name,
) -> Result<(), AllocError>
    ensures { (unit : ℕ) → OnOk result (Adds (IsOfStep (seen view.now) (group_map name.now unit volume.now)) (Has tenants.old) (Has tenants.new)) }
{
    add_group(tenants, view, name)?;
    add_volume(tenants, view.inventory, volume)?;
    Ok(())
}

/// Adds what a step of mapping is about: the tenants that it gives, and those of what it names.
fn add_mapping_step<A: Allocator + Copy>(
    tenants: &mut BTreeSet<Name, A>,
    view: &View<'_, A>,
    action: &MappingAction<A>,
) -> Result<(), AllocError>
    ensures { OnOk result (Adds (IsOfStep (seen view.now) (mapping_step action.now)) (Has tenants.old) (Has tenants.new)) }
{
    match action {
        MappingAction::HostGroupPut {
            name,
            tenant,
            hosts,
        } => add_host_group_put(tenants, view, name, tenant, hosts),
        MappingAction::HostGroupDrop { name } => add_host_group_alone(tenants, view, name),
        MappingAction::GroupNew { name, tenant, .. } => add_group_new(tenants, view, name, tenant),
        MappingAction::GroupHost { group, host_group }
        | MappingAction::GroupUnhost { group, host_group } => {
            add_group_host(tenants, view, group, host_group)
        }
        MappingAction::GroupMap { group, volume, .. } => {
            add_group_map(tenants, view, group, volume)
        }
        MappingAction::GroupDrop { name: group }
        | MappingAction::GroupTarget { group, .. }
        | MappingAction::GroupUntarget { group, .. }
        | MappingAction::GroupUnmap { group, .. }
        | MappingAction::GroupExpose { group }
        | MappingAction::GroupHide { group } => add_group_alone(tenants, view, group),
    }
}

/// Adds what a step is about. A step of zoning gives no tenant, and nothing that it names has one.
fn add_step<A: Allocator + Copy>(
    tenants: &mut BTreeSet<Name, A>,
    view: &View<'_, A>,
    step: &Step<A>,
) -> Result<(), AllocError>
    ensures { OnOk result (Adds (IsOfStep (seen view.now) step.now) (Has tenants.old) (Has tenants.new)) }
{
    match step.action() {
        Action::Zoning(_) => Ok(()),
        Action::Mapping(action) => add_mapping_step(tenants, view, action),
    }
}

/// Adds the tenants that the steps give, and those of what they name, as it is now.
pub fn add_steps<A: Allocator + Copy>(
    tenants: &mut BTreeSet<Name, A>,
    view: &View<'_, A>,
    steps: &[Step<A>],
) -> Result<(), AllocError>
    ensures { OnOk result (Adds (IsOfSomeStep (seen view.now) steps.now) (Has tenants.old) (Has tenants.new)) }
{
    for step in steps {
        add_step(tenants, view, step)?;
    }
    Ok(())
}
