//! Ports that are known before a step or after it, who holds each, and the paths of one holder.
ghost use Rattle.std.specs.Prelude.{◌≡◌, ◌↔◌, ◌⊎◌, [], OnOk, IfOk};
ghost use Rattle.fab_reach_base.specs.Adding.{Adds};
ghost use Rattle.fab_reach_base.specs.Orders.{Has, IsListOf};
ghost use Rattle.fab_reach_base.specs.Records.{Records};
ghost use Rattle.fab_reach_base.specs.Views.{seen};
ghost use Rattle.fab_reach_books.specs.Inner.Sets.{HasPortIn};
ghost use Rattle.fab_reach_books.specs.declared.row.Row.{Row};
ghost use Rattle.fab_reach_moves.specs.Inner.Telling.{IsTold};
ghost use Rattle.fab_reach_pairs.specs.Owning.{AreHolders, IsHeldAfter, IsKnownPort, IsOwn, NamesPort, NamesPortIn, Owns};

use fab_names::{Name, Wwn};
use fab_reach_base::{Path, View, listed};
use fab_reach_books::{Row, RowDiff};
use fab_reach_moves::{Told, holder_after};
use std::alloc::{AllocError, Allocator};
use std::collections::BTreeSet;

/// Adds the ports that are known in a world.
fn add_known<A: Allocator + Copy>(
    ports: &mut BTreeSet<Wwn, A>,
    view: &View<'_, A>,
) -> Result<(), AllocError>
    ensures { OnOk result (Adds (IsKnownPort (seen view.now)) (HasPortIn ports.old) (HasPortIn ports.new)) }
{
    for (name, _known) in view.inventory.ports() {
        ports.insert(*name)?;
    }
    Ok(())
}

/// Adds the port that a row is of, if it is of one.
fn add_named<A: Allocator + Copy>(ports: &mut BTreeSet<Wwn, A>, row: &Row) -> Result<(), AllocError>
    ensures { OnOk result (Adds (NamesPort row.now) (HasPortIn ports.old) (HasPortIn ports.new)) }
{
    if let Row::Port(port) = row {
        ports.insert(port.name)?;
    }
    Ok(())
}

/// Adds the ports that rows are of.
fn add_all_named<A: Allocator + Copy>(
    ports: &mut BTreeSet<Wwn, A>,
    rows: &[Row],
) -> Result<(), AllocError>
    ensures { OnOk result (Adds (NamesPortIn rows.now) (HasPortIn ports.old) (HasPortIn ports.new)) }
{
    for row in rows {
        add_named(ports, row)?;
    }
    Ok(())
}

/// The ports that are known before a step, and those that rows of it are of.
///
/// # Errors
/// `AllocError` where there is no memory.
pub fn ports_of<A: Allocator + Copy>(
    alloc: A,
    before: &View<'_, A>,
    come: &[Row],
) -> Result<BTreeSet<Wwn, A>, AllocError>
    ensures { IfOk result (λ ports. (p : _) → HasPortIn ports p ↔ (IsKnownPort (seen before.now) p ⊎ NamesPortIn come.now p)) }
{
    let mut ports = BTreeSet::new(alloc);
    add_known(&mut ports, before)?;
    add_all_named(&mut ports, come)?;
    Ok(ports)
}

/// Adds a port with its holder after a step, if anybody holds it then.
fn add_held<A: Allocator + Copy>(
    owners: &mut BTreeSet<(Wwn, Name), A>,
    before: &View<'_, A>,
    told: &Told<A>,
    port: &Wwn,
) -> Result<(), AllocError>
    ensures { (v : Records) → IsTold (seen before.now) v told.now → OnOk result (Adds (IsHeldAfter v port.now) (Owns owners.old) (Owns owners.new)) }
{
    if let Some(holder) = holder_after(before, told, port) {
        owners.insert((*port, holder))?;
    }
    Ok(())
}

/// Each of the ports with its holder after a step.
///
/// # Errors
/// `AllocError` where there is no memory.
pub fn holders_of<A: Allocator + Copy>(
    alloc: A,
    before: &View<'_, A>,
    told: &Told<A>,
    ports: &BTreeSet<Wwn, A>,
) -> Result<BTreeSet<(Wwn, Name), A>, AllocError>
    ensures { (v : Records) → IsTold (seen before.now) v told.now → ((p : _) → IsKnownPort v p → HasPortIn ports.now p) → IfOk result (AreHolders v) }
{
    let mut owners = BTreeSet::new(alloc);
    for port in ports {
        add_held(&mut owners, before, told, port)?;
    }
    Ok(owners)
}

/// The paths whose initiator the host holds.
fn own_paths<A: Allocator + Copy>(
    alloc: A,
    paths: &BTreeSet<Path, A>,
    owners: &BTreeSet<(Wwn, Name), A>,
    host: &Name,
) -> Result<BTreeSet<Path, A>, AllocError>
    ensures { IfOk result (λ own. (x : Path) → Has own x ↔ IsOwn paths.now owners.now host.now x) }
{
    let mut own = BTreeSet::new(alloc);
    for path in paths {
        if owners.contains(&(path.initiator, *host)) {
            own.insert(*path)?;
        }
    }
    Ok(own)
}

/// The paths whose initiator the host holds, in order.
///
/// # Errors
/// `AllocError` where there is no memory.
pub fn paths_of<A: Allocator + Copy>(
    alloc: A,
    paths: &BTreeSet<Path, A>,
    owners: &BTreeSet<(Wwn, Name), A>,
    host: &Name,
) -> Result<Vec<Path, A>, AllocError>
    ensures { IfOk result (λ own. IsListOf (IsOwn paths.now owners.now host.now) own.items) }
{
    let own = own_paths(alloc, paths, owners, host)?;
    let _count = own.len();
    let items = listed(alloc, &own)?;
    Ok(items)
}

/// No row comes, and none goes. It takes no memory.
pub fn no_diff<A: Allocator + Copy>(alloc: A) -> RowDiff<A>
    ensures gone { result.gone.items ≡ [] }
    ensures come { result.come.items ≡ [] }
{
    RowDiff {
        gone: Vec::new(alloc),
        come: Vec::new(alloc),
    }
}
