//! The pairs of ports between a host and a volume, as a caller is told.
ghost use Rattle.std.specs.Prelude.{IfOk, OnOk};
ghost use Rattle.std.specs.List.{AllZip};
ghost use Rattle.fab_looks_ways.specs.Inner.Ties.{AreUp, IsMemo};
ghost use Rattle.fab_looks_ways.specs.Pairs.{ArePairs, HasEnds, TellsPair};
ghost use Rattle.fab_world.specs.Worlds.{records_of};

use crate::ends::Ends;
use crate::gathering::ends_told;
use crate::ties::{Tie, tie_of};
use crate::zoned::Zoned;
use fab_policy::{CallerId, Policy};
use fab_reach_base::names::{Name, Wwn};
use fab_world::World;
use std::alloc::{AllocError, Allocator};
use std::collections::{BTreeMap, BTreeSet};

/// A port of a host and a target of a storage group that are logged in at one fabric, and why they may
/// communicate there or may not.
#[derive(Clone, Copy)]
pub struct Pair {
    /// The two ports, and the fabric.
    pub ends: Ends,
    /// Why they may communicate, or may not.
    pub tie: Tie,
}

/// The pair of these ends.
fn pair_of<A: Allocator + Copy>(
    alloc: A,
    world: &World<A>,
    memo: &mut BTreeMap<Wwn, Zoned, A>,
    ends: &Ends,
) -> Result<Pair, AllocError>
    requires up { AreUp (records_of world.now) ends.now }
    requires memo { IsMemo (records_of world.now) memo.old }
    ensures pair { IfOk result (TellsPair (records_of world.now) ends.now) }
    ensures memo { OnOk result (IsMemo (records_of world.now) memo.new) }
{
    let Some(p) = world.inventory.port(&ends.initiator) else {
        unreachable!();
    };
    let Some(q) = world.inventory.port(&ends.target) else {
        unreachable!();
    };
    let tie = tie_of(alloc, world, memo, ends.fabric, &p, &q)?;
    Ok(Pair { ends: *ends, tie })
}

/// The pairs of these ends, in their order.
fn pairs_of<A: Allocator + Copy>(
    alloc: A,
    world: &World<A>,
    ends: &BTreeSet<Ends, A>,
) -> Result<Vec<Pair, A>, AllocError>
    requires up { (e : Ends) → HasEnds ends.now e → AreUp (records_of world.now) e }
    ensures { IfOk result (λ pairs. AllZip (TellsPair (records_of world.now)) ends.now.keys pairs.items) }
{
    let mut memo = BTreeMap::new(alloc);
    let mut pairs = Vec::new(alloc);
    for these in ends {
        let pair = pair_of(alloc, world, &mut memo, these)?;
        pairs.push(pair)?;
    }
    Ok(pairs)
}

/// Each port of the host with each target of the caller's storage groups that map the volume and serve the
/// host, where the two are logged in at one fabric, in order, and why they may communicate there or may
/// not. None, where the host or the volume is not the caller's.
///
/// It goes once through the known ports, once through the storage groups, then through the targets of those
/// that are told, each with the ports of the host, and through the zones of each of these ports once.
///
/// # Errors
/// `AllocError` where there is no memory.
pub fn pairs_told<A: Allocator + Copy>(
    alloc: A,
    policy: &Policy,
    world: &World<A>,
    id: CallerId,
    host: &Name,
    volume: &Name,
) -> Result<Vec<Pair, A>, AllocError>
    ensures { IfOk result (λ pairs. ArePairs policy.now world.now id host.now volume.now pairs.items) }
{
    let ends = ends_told(alloc, policy, world, id, host, volume)?;
    let _count = ends.len();
    let pairs = pairs_of(alloc, world, &ends)?;
    Ok(pairs)
}
