//! A difference of two worlds by key, so that no look at the world after a step walks through it.
ghost use Rattle.std.specs.Prelude.{IfOk};
ghost use Rattle.fab_reach_base.specs.Records.{Records};
ghost use Rattle.fab_reach_books.specs.Rows.{IsRowDiff};
ghost use Rattle.fab_reach_moves.specs.Inner.Telling.{IsSideOf, IsTold};

use crate::saying::{
    Heads, Held, HostGroups, Hosts, Ports, Serving, Targets, Units, Zoned, items_said, values_said,
};
use fab_inventory::Port;
use fab_names::{Fabric, Member, Name, Wwn};
use fab_reach_books::{Row, RowDiff};
use std::alloc::{AllocError, Allocator};
use std::collections::{BTreeMap, BTreeSet};

/// What the rows of one side of a difference say.
#[derive(Drop)]
pub struct Side<A: Allocator + Copy> {
    /// The ports, by N_Port_Name.
    pub ports: BTreeMap<Wwn, Port, A>,
    /// The ports of each holder.
    pub held: BTreeMap<Name, BTreeSet<Wwn, A>, A>,
    /// The hosts of each host group.
    pub hosts: BTreeMap<Name, BTreeSet<Name, A>, A>,
    /// The host groups of each storage group.
    pub host_groups: BTreeMap<Name, BTreeSet<Name, A>, A>,
    /// The storage groups of each host group.
    pub serving: BTreeMap<Name, BTreeSet<Name, A>, A>,
    /// The targets of each storage group.
    pub targets: BTreeMap<Name, BTreeSet<Wwn, A>, A>,
    /// Whether each storage group is exposed.
    pub heads: BTreeMap<Name, bool, A>,
    /// A logical unit number of each storage group.
    pub units: BTreeMap<Name, u16, A>,
    /// The active zones that have each member, by fabric.
    pub zoned: BTreeMap<(Fabric, Member), BTreeSet<Name, A>, A>,
}

/// A difference of two worlds, by key.
#[derive(Drop)]
pub struct Told<A: Allocator + Copy> {
    /// What stands in the first world alone.
    pub gone: Side<A>,
    /// What stands in the second world alone.
    pub come: Side<A>,
}

/// What these rows say.
fn side_of<A: Allocator + Copy>(alloc: A, rows: &[Row]) -> Result<Side<A>, AllocError>
    ensures { IfOk result (IsSideOf rows.now) }
{
    Ok(Side {
        ports: values_said(alloc, &Ports, rows)?,
        held: items_said(alloc, &Held, rows)?,
        hosts: items_said(alloc, &Hosts, rows)?,
        host_groups: items_said(alloc, &HostGroups, rows)?,
        serving: items_said(alloc, &Serving, rows)?,
        targets: items_said(alloc, &Targets, rows)?,
        heads: values_said(alloc, &Heads, rows)?,
        units: values_said(alloc, &Units, rows)?,
        zoned: items_said(alloc, &Zoned, rows)?,
    })
}

impl<A: Allocator + Copy> Told<A> {
    /// The difference, by key. It walks through its rows.
    ///
    /// # Errors
    /// `AllocError` where there is no memory.
    pub fn of(alloc: A, diff: &RowDiff<A>) -> Result<Self, AllocError>
        ensures { (w v : Records) → IsRowDiff w v diff.now.gone.items diff.now.come.items → IfOk result (IsTold w v) }
    {
        let gone = side_of(alloc, diff.gone.as_slice())?;
        let come = side_of(alloc, diff.come.as_slice())?;
        Ok(Told { gone, come })
    }
}
