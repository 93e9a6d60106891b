//! Who reaches a volume, and by which storage groups, as a caller is told.
ghost use Rattle.std.specs.Prelude.{◌≡◌, ℕ, List, Some, IfOk};
ghost use Rattle.std.specs.BTreeMap.{get};
ghost use Rattle.std.specs.List.{AllZip};
ghost use Rattle.fab_desk_base.specs.Tenants.{Has, IsHolderOf};
ghost use Rattle.fab_reach_base.specs.fab_inventory.declared.holder.HolderKind.TheVariants.{Host};
ghost use Rattle.fab_looks.specs.declared.reaching.Counts.{Counts};
ghost use Rattle.fab_looks_ways.specs.Offers.{AreToldReachers, HasTenant, TellsReacher};
ghost use Rattle.fab_reach_base.specs.fab_names.Orders.{name_cmp};

use crate::groups::own_groups;
use crate::offers::{offers_of, units_of};
use fab_looks::{Counts, who_told};
use fab_policy::{CallerId, Policy};
use fab_reach_base::names::Name;
use fab_world::World;
use std::alloc::{AllocError, Allocator};
use std::collections::{BTreeMap, BTreeSet};

/// A host that reaches a volume: its tenant, how many paths it has there at each fabric, and the storage
/// groups that offer it the volume, with the logical unit numbers, each in order.
#[derive(Drop)]
pub struct Reacher<A: Allocator + Copy> {
    /// The name of the host.
    pub host: Name,
    /// Whose it is.
    pub tenant: Name,
    /// How many paths it has to the volume at each fabric.
    pub counts: Counts,
    /// The logical unit numbers, 0 to 16383, at which the volume is offered to it.
    pub units: Vec<u16, A>,
    /// The names of the storage groups that offer it the volume.
    pub groups: Vec<Name, A>,
}

/// The tenant of the host.
fn tenant_of<A: Allocator + Copy>(world: &World<A>, host: &Name) -> Name
    requires there { HasTenant world.now host.now }
    ensures { IsHolderOf world.now.inventory Host host.now result }
{
    let Some(holder) = world.inventory.holder(host) else {
        unreachable!();
    };
    holder.tenant
}

/// The host with its counts, and those of the storage groups that offer it the volume.
fn reacher_of<A: Allocator + Copy>(
    alloc: A,
    world: &World<A>,
    groups: &BTreeSet<Name, A>,
    volume: &Name,
    host: &Name,
    counts: &Counts,
) -> Result<Reacher<A>, AllocError>
    requires there { HasTenant world.now host.now }
    ensures { IfOk result (TellsReacher world.now volume.now (Has groups.now) (host.now, counts.now)) }
{
    let mapping = world.config.mapping();
    let groups = offers_of(alloc, mapping, groups, host)?;
    let units = units_of(alloc, mapping, volume, &groups)?;
    Ok(Reacher {
        host: *host,
        tenant: tenant_of(world, host),
        counts: *counts,
        units,
        groups,
    })
}

/// The same of each host, in their order.
fn reachers_of<A: Allocator + Copy>(
    alloc: A,
    world: &World<A>,
    groups: &BTreeSet<Name, A>,
    volume: &Name,
    hosts: &BTreeMap<Name, Counts, A>,
) -> Result<Vec<Reacher<A>, A>, AllocError>
    requires there { (h : List ℕ) (n : Counts) → get name_cmp hosts.now h ≡ Some n → HasTenant world.now h }
    ensures { IfOk result (λ reachers. AllZip (TellsReacher world.now volume.now (Has groups.now)) hosts.now.entries reachers.items) }
{
    let mut reachers = Vec::new(alloc);
    for (host, counts) in hosts {
        let reacher = reacher_of(alloc, world, groups, volume, host, counts)?;
        reachers.push(reacher)?;
    }
    Ok(reachers)
}

/// The hosts of the caller that reach the volume, by name, each with its tenant, how many paths it has there
/// at each fabric, and the caller's storage groups that offer it the volume, with the logical unit numbers.
/// A volume that is not the caller's is told as if it was not there: nobody reaches it.
///
/// # Errors
/// `AllocError` where there is no memory.
pub fn reachers_told<A: Allocator + Copy>(
    alloc: A,
    policy: &Policy,
    world: &World<A>,
    id: CallerId,
    volume: &Name,
) -> Result<Vec<Reacher<A>, A>, AllocError>
    ensures { IfOk result (λ reachers. AreToldReachers policy.now world.now id volume.now reachers.items) }
{
    let hosts = who_told(alloc, policy, world, id, volume)?;
    let _count = hosts.len();
    let groups = own_groups(alloc, policy, world, id, volume)?;
    let reachers = reachers_of(alloc, world, &groups, volume, &hosts)?;
    Ok(reachers)
}
