//! The zones that are active in a fabric, each with its members.
ghost use Rattle.std.specs.Prelude.{IfOk, OnOk, IsTrue, ◌↔◌};
ghost use Rattle.fab_desk_base.specs.Showing.{AreActiveZones};
ghost use Rattle.fab_desk_base.specs.Grouping.{IsAdded, IsGrouped, IsOpened, EndsIn};

use crate::ZoneMembers;
use fab_reach_base::names::{Member, Name};
use fab_reach_base::zoning::Zoning;
use std::alloc::{AllocError, Allocator};
use std::collections::BTreeSet;

/// Whether the last of the zones has this name.
fn ends_in<A: Allocator + Copy>(zones: &[ZoneMembers<A>], name: &Name) -> bool
    ensures { IsTrue result ↔ EndsIn zones.now name.now }
{
    match zones.last() {
        Some(last) => last.name == *name,
        None => false,
    }
}

/// Takes out the last of the zones, if it has this name; else makes one without members.
fn opened<A: Allocator + Copy>(
    alloc: A,
    zones: &mut Vec<ZoneMembers<A>, A>,
    name: Name,
) -> ZoneMembers<A>
    ensures { IsOpened name zones.old.items zones.new.items result }
{
    if !ends_in(zones.as_slice(), &name) {
        return ZoneMembers {
            name,
            members: Vec::new(alloc),
        };
    }
    match zones.pop() {
        Some(last) => last,
        None => ZoneMembers {
            name,
            members: Vec::new(alloc),
        },
    }
}

/// Adds a row: to the last of the zones, if it has the row's name, or as a zone of its own.
fn add_row<A: Allocator + Copy>(
    alloc: A,
    zones: &mut Vec<ZoneMembers<A>, A>,
    zone: Name,
    member: Member,
) -> Result<(), AllocError>
    ensures { OnOk result (IsAdded (zone, member) zones.old.items zones.new.items) }
{
    let mut last = opened(alloc, zones, zone);
    last.members.push(member)?;
    zones.push(last)?;
    Ok(())
}

/// The zones of the rows, each with its members.
fn zones_of<A: Allocator + Copy>(
    alloc: A,
    rows: &BTreeSet<(Name, Member), A>,
) -> Result<Vec<ZoneMembers<A>, A>, AllocError>
    ensures { IfOk result (λ zones. IsGrouped rows.now.keys zones.items) }
{
    let _count = rows.len();
    let mut zones = Vec::new(alloc);
    for (zone, member) in rows {
        add_row(alloc, &mut zones, *zone, *member)?;
    }
    Ok(zones)
}

/// The zones that are active, in order, each with its members.
///
/// # Errors
/// `AllocError` where there is no memory.
pub fn active_zones<A: Allocator + Copy>(
    alloc: A,
    zoning: &Zoning<A>,
) -> Result<Vec<ZoneMembers<A>, A>, AllocError>
    ensures { IfOk result (λ zones. AreActiveZones zoning.now.rows zones.items) }
{
    let rows = zoning.active_rows()?;
    let zones = zones_of(alloc, &rows)?;
    Ok(zones)
}
