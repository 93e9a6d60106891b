//! Why the two ends of a pair may communicate, or may not.
ghost use Rattle.std.specs.Prelude.{◌≡◌, Some, OnOk, IfOk};
ghost use Rattle.std.specs.BTreeMap.{get, Updates};
ghost use Rattle.std.specs.Ordering.{nat_cmp};
ghost use Rattle.fab_looks_ways.specs.Inner.Ties.{IsMemo, TellsApart};
ghost use Rattle.fab_looks_ways.specs.Pairs.{AreZonesOf, IsTie};
ghost use Rattle.fab_reach_base.specs.Reach.{IsPort};
ghost use Rattle.fab_reach_base.specs.Records.{zoning_at};
ghost use Rattle.fab_world.specs.Worlds.{records_of};
ghost use Rattle.fab_reach_base.specs.fab_zoning_rows.Holding.{IsLoggedInAt};

use crate::zoned::{Zoned, zoned_at};
use fab_reach_base::inventory::Port;
use fab_reach_base::names::{Fabric, Name, Wwn};
use fab_reach_base::zoning::Why;
use fab_world::World;
use std::alloc::{AllocError, Allocator};
use std::collections::BTreeMap;

/// Why two ports may communicate, or may not.
#[derive(Clone, Copy)]
pub enum Tie {
    /// They may: this zone has both, and no zone before it by name does.
    Zone(Name),
    /// They may: neither is in a zone, and the default zone permits it.
    Default,
    /// They may not: no zone has both, nor does the default zone join them.
    Apart { initiator: Zoned, target: Zoned },
}

/// What is kept of the port of this name, if anything is.
fn kept<A: Allocator + Copy>(memo: &BTreeMap<Wwn, Zoned, A>, name: &Wwn) -> Option<Zoned>
    ensures { result ≡ get nat_cmp memo.now name.now }
{
    memo.get(name).copied()
}

/// Keeps the zones of the port of this name.
fn keep<A: Allocator + Copy>(
    memo: &mut BTreeMap<Wwn, Zoned, A>,
    name: Wwn,
    zoned: &Zoned,
) -> Result<(), AllocError>
    ensures { OnOk result (Updates nat_cmp memo.old memo.new name (Some zoned.now)) }
{
    memo.insert(name, *zoned)?;
    Ok(())
}

/// The zones that the port is in where it is logged in, as they are told. They are looked up once for each
/// port.
///
/// # Errors
/// `AllocError` where there is no memory.
fn zoned_once<A: Allocator + Copy>(
    alloc: A,
    world: &World<A>,
    memo: &mut BTreeMap<Wwn, Zoned, A>,
    fabric: Fabric,
    port: &Port,
) -> Result<Zoned, AllocError>
    requires known { IsPort (records_of world.now) port.now.name port.now }
    requires here { IsLoggedInAt fabric port.now }
    requires memo { IsMemo (records_of world.now) memo.old }
    ensures zones { IfOk result (AreZonesOf (zoning_at world.now.config fabric) port.now) }
    ensures memo { OnOk result (IsMemo (records_of world.now) memo.new) }
{
    if let Some(zoned) = kept(memo, &port.name) {
        return Ok(zoned);
    }
    let zoned = zoned_at(alloc, world, fabric, port)?;
    keep(memo, port.name, &zoned)?;
    Ok(zoned)
}

/// The zones that both ports are in, where nothing joins them.
fn apart<A: Allocator + Copy>(
    alloc: A,
    world: &World<A>,
    memo: &mut BTreeMap<Wwn, Zoned, A>,
    fabric: Fabric,
    p: &Port,
    q: &Port,
) -> Result<Tie, AllocError>
    requires p_known { IsPort (records_of world.now) p.now.name p.now }
    requires p_here { IsLoggedInAt fabric p.now }
    requires q_known { IsPort (records_of world.now) q.now.name q.now }
    requires q_here { IsLoggedInAt fabric q.now }
    requires memo { IsMemo (records_of world.now) memo.old }
    ensures tie { IfOk result (TellsApart (zoning_at world.now.config fabric) p.now q.now) }
    ensures memo { OnOk result (IsMemo (records_of world.now) memo.new) }
{
    let initiator = zoned_once(alloc, world, memo, fabric, p)?;
    let target = zoned_once(alloc, world, memo, fabric, q)?;
    Ok(Tie::Apart { initiator, target })
}

/// Why two ports that are logged in at the fabric may communicate there, or may not.
///
/// # Errors
/// `AllocError` where there is no memory.
pub fn tie_of<A: Allocator + Copy>(
    alloc: A,
    world: &World<A>,
    memo: &mut BTreeMap<Wwn, Zoned, A>,
    fabric: Fabric,
    p: &Port,
    q: &Port,
) -> Result<Tie, AllocError>
    requires p_known { IsPort (records_of world.now) p.now.name p.now }
    requires p_here { IsLoggedInAt fabric p.now }
    requires q_known { IsPort (records_of world.now) q.now.name q.now }
    requires q_here { IsLoggedInAt fabric q.now }
    requires memo { IsMemo (records_of world.now) memo.old }
    ensures tie { IfOk result (IsTie (zoning_at world.now.config fabric) p.now q.now) }
    ensures memo { OnOk result (IsMemo (records_of world.now) memo.new) }
{
    match world.config.zoning(fabric).joined(p, q) {
        Some(Why::Zone(zone)) => Ok(Tie::Zone(*zone)),
        Some(Why::Default) => Ok(Tie::Default),
        None => apart(alloc, world, memo, fabric, p, q),
    }
}
