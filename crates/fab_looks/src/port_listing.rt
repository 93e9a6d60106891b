//! Lists of ports.
ghost use Rattle.std.specs.Prelude.{IfOk};
ghost use Rattle.fab_looks.specs.Lists.{AreKnownPorts};

use fab_reach_base::names::Wwn;
use fab_world::World;
use std::alloc::{AllocError, Allocator};
use std::collections::BTreeSet;

/// The N_Port_Names of the known ports, in order. Their reads are open to every caller.
///
/// It goes once through all known ports.
///
/// # Errors
/// `AllocError` where there is no memory.
pub fn list_ports<A: Allocator + Copy>(
    alloc: A,
    world: &World<A>,
) -> Result<BTreeSet<Wwn, A>, AllocError>
    ensures { IfOk result (AreKnownPorts world.now) }
{
    let mut ports = BTreeSet::new(alloc);
    for (port, _known) in world.inventory.ports() {
        ports.insert(*port)?;
    }
    Ok(ports)
}
