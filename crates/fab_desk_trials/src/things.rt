//! Whose things are, as they are now.
ghost use Rattle.std.specs.Prelude.{OnOk, ◌≡◌};
ghost use Rattle.fab_reach_base.specs.Adding.{Adds};
ghost use Rattle.fab_desk_base.specs.Tenants.{Has, IsHolderOf, IsVolumeOf, IsHostGroupOf, IsGroupOf};

use fab_reach_base::View;
use fab_reach_base::inventory::{HolderKind, Inventory};
use fab_reach_base::names::Name;
use std::alloc::{AllocError, Allocator};
use std::collections::BTreeSet;

/// Adds the tenant of the host or array of this name, if there is one.
pub fn add_holder<A: Allocator + Copy>(
    tenants: &mut BTreeSet<Name, A>,
    inventory: &Inventory<A>,
    kind: HolderKind,
    name: &Name,
) -> Result<(), AllocError>
    ensures { OnOk result (Adds (IsHolderOf inventory.now kind name.now) (Has tenants.old) (Has tenants.new)) }
{
    let Some(holder) = inventory.holder(name) else {
        return Ok(());
    };
    if holder.kind != kind {
        return Ok(());
    }
    tenants.insert(holder.tenant)?;
    Ok(())
}

/// Adds the tenant of the volume of this name, if there is one.
pub fn add_volume<A: Allocator + Copy>(
    tenants: &mut BTreeSet<Name, A>,
    inventory: &Inventory<A>,
    name: &Name,
) -> Result<(), AllocError>
    ensures { OnOk result (Adds (IsVolumeOf inventory.now name.now) (Has tenants.old) (Has tenants.new)) }
{
    let Some(volume) = inventory.volume(name) else {
        return Ok(());
    };
    tenants.insert(volume.tenant)?;
    Ok(())
}

/// Adds the tenant of the host group of this name, if there is one.
pub fn add_host_group<A: Allocator + Copy>(
    tenants: &mut BTreeSet<Name, A>,
    view: &View<'_, A>,
    name: &Name,
) -> Result<(), AllocError>
    ensures { OnOk result (Adds (IsHostGroupOf view.now.config.now.mapping name.now) (Has tenants.old) (Has tenants.new)) }
{
    let mapping = view.config.mapping();
    let Some(group) = mapping.host_group(name) else {
        return Ok(());
    };
    tenants.insert(group.tenant())?;
    Ok(())
}

/// Adds the tenant of the storage group of this name, if there is one.
pub fn add_group<A: Allocator + Copy>(
    tenants: &mut BTreeSet<Name, A>,
    view: &View<'_, A>,
    name: &Name,
) -> Result<(), AllocError>
    ensures { OnOk result (Adds (IsGroupOf view.now.config.now.mapping name.now) (Has tenants.old) (Has tenants.new)) }
{
    let mapping = view.config.mapping();
    let Some(group) = mapping.group(name) else {
        return Ok(());
    };
    tenants.insert(group.tenant())?;
    Ok(())
}

/// Adds a tenant.
pub fn add_tenant<A: Allocator + Copy>(
    tenants: &mut BTreeSet<Name, A>,
    tenant: &Name,
) -> Result<(), AllocError>
    ensures { OnOk result (Adds (λ t. t ≡ tenant.now) (Has tenants.old) (Has tenants.new)) }
{
    tenants.insert(*tenant)?;
    Ok(())
}
