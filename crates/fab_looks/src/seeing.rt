//! Who reaches a volume, as a caller is told.
ghost use Rattle.std.specs.Prelude.{◌↔◌, IsTrue, IfOk};
ghost use Rattle.fab_looks.specs.Told.{SeesHost};
ghost use Rattle.fab_looks.specs.Seeing.{AreTold};
ghost use Rattle.fab_looks.specs.Inner.Seen.{AreSeen};

use crate::reaching::{Counts, who_reaches};
use fab_desk_base::{Query, is_open_to};
use fab_policy::{CallerId, Policy};
use fab_reach_base::View;
use fab_reach_base::inventory::HolderKind;
use fab_reach_base::names::Name;
use fab_world::World;
use std::alloc::{AllocError, Allocator};
use std::collections::BTreeMap;

/// Whether the host is there, and is for the caller.
fn sees_host<A: Allocator + Copy>(
    policy: &Policy,
    world: &World<A>,
    id: CallerId,
    host: &Name,
) -> bool
    ensures { IsTrue result ↔ SeesHost policy.now world.now id host.now }
{
    let of_host = Query::Holder {
        kind: HolderKind::Host,
        name: *host,
    };
    is_open_to(policy, world, id, &of_host)
}

/// Those of the hosts that are the caller's.
fn seen_hosts<A: Allocator + Copy>(
    alloc: A,
    policy: &Policy,
    world: &World<A>,
    id: CallerId,
    reachers: &BTreeMap<Name, Counts, A>,
) -> Result<BTreeMap<Name, Counts, A>, AllocError>
    ensures { IfOk result (AreSeen (SeesHost policy.now world.now id) reachers.now) }
{
    let mut seen = BTreeMap::new(alloc);
    for (host, counts) in reachers {
        if sees_host(policy, world, id, host) {
            seen.insert(*host, *counts)?;
        }
    }
    Ok(seen)
}

/// The hosts of the caller that reach the volume, by name, each with how many paths it has there at
/// each fabric. A volume that is not the caller's is told as if it was not there: nobody reaches it.
///
/// # Errors
/// `AllocError` where there is no memory.
pub fn who_told<A: Allocator + Copy>(
    alloc: A,
    policy: &Policy,
    world: &World<A>,
    id: CallerId,
    volume: &Name,
) -> Result<BTreeMap<Name, Counts, A>, AllocError>
    ensures { IfOk result (AreTold policy.now world.now id volume.now) }
{
    let of_volume = Query::Volume { name: *volume };
    if !is_open_to(policy, world, id, &of_volume) {
        return Ok(BTreeMap::new(alloc));
    }
    let view = View::of(&world.inventory, &world.config);
    let reachers = who_reaches(alloc, &view, volume)?;
    let seen = seen_hosts(alloc, policy, world, id, &reachers)?;
    Ok(seen)
}
