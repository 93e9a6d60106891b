//! Why a host reaches a volume, as a caller is told.
ghost use Rattle.std.specs.Prelude.{◌≡◌, IfOk};
ghost use Rattle.fab_looks.specs.Told.{untold, IsTold};

use crate::explaining::{Why, explain};
use crate::link::Link;
use fab_desk_base::{Query, is_open_to};
use fab_policy::{CallerId, Policy};
use fab_reach_base::View;
use fab_reach_base::inventory::HolderKind;
use fab_reach_base::names::Name;
use fab_world::World;
use std::alloc::{AllocError, Allocator};

/// The same, where the volume is told as if it was not there.
fn untold<A: Allocator + Copy>(why: Why<A>) -> Why<A>
    ensures { result ≡ untold why }
{
    match why {
        Why::Missing(Link::Host) => Why::Missing(Link::Host),
        Why::Missing(Link::Login) => Why::Missing(Link::Login),
        _ => Why::Missing(Link::Volume),
    }
}

/// Why the host reaches the volume, or the first link that is missing. A host or a volume that is
/// not the caller's is told as if it was not there.
///
/// # Errors
/// `AllocError` where there is no memory.
pub fn told<A: Allocator + Copy>(
    alloc: A,
    policy: &Policy,
    world: &World<A>,
    id: CallerId,
    host: &Name,
    volume: &Name,
) -> Result<Why<A>, AllocError>
    ensures { IfOk result (IsTold policy.now world.now id host.now volume.now) }
{
    let of_host = Query::Holder {
        kind: HolderKind::Host,
        name: *host,
    };
    if !is_open_to(policy, world, id, &of_host) {
        return Ok(Why::Missing(Link::Host));
    }
    let view = View::of(&world.inventory, &world.config);
    let why = explain(alloc, &view, host, volume)?;
    let of_volume = Query::Volume { name: *volume };
    if !is_open_to(policy, world, id, &of_volume) {
        return Ok(untold(why));
    }
    Ok(why)
}
