//! The paths of a host, from an index.
ghost use Rattle.std.specs.Prelude.{IfOk, OnOk};
ghost use Rattle.fab_reach_base.specs.Adding.{Adds};
ghost use Rattle.fab_reach_base.specs.Orders.{Has, IsListOf};
ghost use Rattle.fab_reach_base.specs.Reach.{ReachesFrom};
ghost use Rattle.fab_reach_base.specs.Records.{Records};
ghost use Rattle.fab_reach_index.specs.Indexes.{IsIndexOf};
ghost use Rattle.fab_reach.specs.Inner.Owned.{IsStartOf, IsEndOf, IsFromAt, IsFrom, IsOwned, IsOwnedBy};

use fab_names::{Name, Wwn};
use fab_reach_base::{Path, listed};
use fab_reach_index::Index;
use std::alloc::{AllocError, Allocator};
use std::collections::{BTreeMap, BTreeSet};
use std::ops::Bound;

/// Adds the paths.
fn add_paths<A: Allocator + Copy>(
    own: &mut BTreeSet<Path, A>,
    paths: &BTreeSet<Path, A>,
) -> Result<(), AllocError>
    ensures { OnOk result (Adds (Has paths.now) (Has own.old) (Has own.new)) }
{
    for path in paths {
        own.insert(*path)?;
    }
    Ok(())
}

/// Adds the paths of a pair, if its initiator is the port.
fn add_if_from<A: Allocator + Copy>(
    own: &mut BTreeSet<Path, A>,
    port: Wwn,
    pair: &(Wwn, Wwn),
    paths: &BTreeSet<Path, A>,
) -> Result<(), AllocError>
    ensures { OnOk result (Adds (IsFromAt port (pair.now, paths.now)) (Has own.old) (Has own.new)) }
{
    if pair.0 == port {
        add_paths(own, paths)?;
    }
    Ok(())
}

/// The greatest pair before those of the port, if there is one.
fn start_of(port: Wwn) -> Bound<(Wwn, Wwn)>
    ensures { IsStartOf port result }
{
    let number = port.number();
    if number == 1 {
        Bound::Unbounded
    } else {
        Bound::Excluded((Wwn::new(number - 1), Wwn::new(u64::MAX)))
    }
}

/// The least pair after those of the port, if there is one.
fn end_of(port: Wwn) -> Bound<(Wwn, Wwn)>
    ensures { IsEndOf port result }
{
    let number = port.number();
    if number == u64::MAX {
        Bound::Unbounded
    } else {
        Bound::Excluded((Wwn::new(number + 1), Wwn::new(1)))
    }
}

/// Adds the paths of all pairs whose initiator is the port. It walks through these pairs alone.
///
/// No contract tells that a name in a map is one between the least and the greatest: so the pairs on
/// either side are the bounds, and each pair is looked at.
fn add_from<A: Allocator + Copy>(
    own: &mut BTreeSet<Path, A>,
    port: Wwn,
    rows: &BTreeMap<(Wwn, Wwn), BTreeSet<Path, A>, A>,
) -> Result<(), AllocError>
    ensures { OnOk result (Adds (IsFrom rows.now port) (Has own.old) (Has own.new)) }
{
    for (pair, paths) in rows.range((start_of(port), end_of(port))) {
        add_if_from(own, port, pair, paths)?;
    }
    Ok(())
}

/// Adds the paths of all pairs whose initiator is one of the ports.
fn add_own<A: Allocator + Copy>(
    own: &mut BTreeSet<Path, A>,
    ports: &BTreeSet<Wwn, A>,
    rows: &BTreeMap<(Wwn, Wwn), BTreeSet<Path, A>, A>,
) -> Result<(), AllocError>
    ensures { OnOk result (Adds (IsOwned ports.now rows.now) (Has own.old) (Has own.new)) }
{
    for port in ports {
        add_from(own, *port, rows)?;
    }
    Ok(())
}

/// Adds the paths of all pairs whose initiator the holder holds.
fn add_held_rows<A: Allocator + Copy>(
    own: &mut BTreeSet<Path, A>,
    index: &Index<A>,
    host: &Name,
) -> Result<(), AllocError>
    ensures { OnOk result (Adds (IsOwnedBy index.now.held index.now.rows host.now) (Has own.old) (Has own.new)) }
{
    if let Some(ports) = index.held.get(host) {
        add_own(own, ports, &index.rows)?;
    }
    Ok(())
}

/// The paths whose initiator the host holds, each once, in order. It walks through the pairs of the
/// ports that the host holds, and no others.
///
/// # Errors
/// `AllocError` where there is no memory.
pub fn own_rows<A: Allocator + Copy>(
    alloc: A,
    index: &Index<A>,
    host: &Name,
) -> Result<Vec<Path, A>, AllocError>
    ensures { (w : Records) → IsIndexOf w index.now → IfOk result (λ paths. IsListOf (ReachesFrom w host.now) paths.items) }
{
    let mut own = BTreeSet::new(alloc);
    add_held_rows(&mut own, index, host)?;
    let _count = own.len();
    let items = listed(alloc, &own)?;
    Ok(items)
}
