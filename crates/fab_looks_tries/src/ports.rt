//! What an import does to ports.
ghost use Rattle.std.specs.Prelude.{◌↔◌, Some, IsTrue, OnOk, IfOk};
ghost use Rattle.std.specs.Ordering.{nat_cmp};
ghost use Rattle.fab_inventory.specs.Inventories.{InventoryRows};
ghost use Rattle.fab_lemmas.specs.Lists.{IsListOf};
ghost use Rattle.fab_looks_tries.specs.Inner.Gathered.{HasPort, IsMoveAt, IsMoveOfSome};
ghost use Rattle.fab_looks_tries.specs.Ports.{AreNewPorts, ArePortsMoved, HasMove, IsListed, IsMoveOf, IsNumberListed};
ghost use Rattle.fab_looks_tries.specs.declared.ports.PortMove.TheVariants as kinds;
ghost use Rattle.fab_reach_base.specs.Adding.{Adds};

use crate::order::in_order;
use fab_inventory::{Inventory, Port, PortRow};
use fab_names::Wwn;
use std::alloc::{AllocError, Allocator};
use std::collections::BTreeSet;

/// What becomes of a port.
#[derive(Clone, Copy)]
pub enum PortMove {
    /// It was not known.
    New,
    /// It was known, and is logged in where it was not.
    Moved,
    /// It was logged in, and is logged in nowhere.
    LoggedOut,
}

/// What a change does to ports, each list by name.
#[derive(Drop)]
pub struct PortsMoved<A: Allocator + Copy> {
    /// Those that were not known.
    pub new: Vec<Wwn, A>,
    /// Those that were known, and are logged in where they were not.
    pub moved: Vec<Wwn, A>,
    /// Those that were logged in, and are logged in nowhere.
    pub logged_out: Vec<Wwn, A>,
}

/// Whether a port that was so, and is so, is logged in where it was not.
fn is_moved(before: &Port, after: &Port) -> bool
    ensures { IsTrue result ↔ IsMoveOf kinds.Moved (Some before.now) after.now }
{
    if after.at.is_none() {
        return false;
    }
    before.at != after.at
}

/// Whether a port that was so, and is so, was logged in, and is logged in nowhere.
fn is_logged_out(before: &Port, after: &Port) -> bool
    ensures { IsTrue result ↔ IsMoveOf kinds.LoggedOut (Some before.now) after.now }
{
    if before.at.is_none() {
        return false;
    }
    after.at.is_none()
}

/// Whether this becomes of a port that was so, if it was known, and is so.
fn is_move(kind: PortMove, before: Option<Port>, after: &Port) -> bool
    ensures { IsTrue result ↔ IsMoveOf kind before after.now }
{
    let Some(before) = before else {
        return matches!(kind, PortMove::New);
    };
    match kind {
        PortMove::New => false,
        PortMove::Moved => is_moved(&before, after),
        PortMove::LoggedOut => is_logged_out(&before, after),
    }
}

/// Adds the name of the port, if this becomes of it.
fn add_port<A: Allocator + Copy>(
    names: &mut BTreeSet<Wwn, A>,
    kind: PortMove,
    inventory: &Inventory<A>,
    after: &Port,
) -> Result<(), AllocError>
    ensures { OnOk result (Adds (IsMoveAt kind inventory.now after.now) (HasPort names.old) (HasPort names.new)) }
{
    if !is_move(kind, inventory.port(&after.name), after) {
        return Ok(());
    }
    names.insert(after.name)?;
    Ok(())
}

/// Adds the names of those of the ports of which this becomes.
fn add_ports<A: Allocator + Copy>(
    names: &mut BTreeSet<Wwn, A>,
    kind: PortMove,
    inventory: &Inventory<A>,
    ports: &[Port],
) -> Result<(), AllocError>
    ensures { OnOk result (Adds (IsMoveOfSome kind inventory.now ports.now) (HasPort names.old) (HasPort names.new)) }
{
    for port in ports {
        add_port(names, kind, inventory, port)?;
    }
    Ok(())
}

/// The names of those of the ports of which this becomes; these are the ports that differ.
fn ports_with<A: Allocator + Copy>(
    alloc: A,
    kind: PortMove,
    inventory: &Inventory<A>,
    ports: &[Port],
) -> Result<Vec<Wwn, A>, AllocError>
    ensures { (v : InventoryRows) → AreNewPorts inventory.now v ports.now → IfOk result (λ names. IsListOf nat_cmp (HasMove kind inventory.now v) names.items) }
{
    let mut names = BTreeSet::new(alloc);
    add_ports(&mut names, kind, inventory, ports)?;
    let list = in_order(alloc, &names)?;
    Ok(list)
}

/// Adds the names of the records' ports.
fn add_listed<A: Allocator + Copy>(
    names: &mut BTreeSet<Wwn, A>,
    rows: &[PortRow],
) -> Result<(), AllocError>
    ensures { OnOk result (Adds (IsListed rows.now) (HasPort names.old) (HasPort names.new)) }
{
    for row in rows {
        names.insert(row.name)?;
    }
    Ok(())
}

/// How many ports are listed.
///
/// # Errors
/// `AllocError` where there is no memory.
pub fn count_listed<A: Allocator + Copy>(alloc: A, rows: &[PortRow]) -> Result<usize, AllocError>
    ensures { IfOk result (IsNumberListed rows.now) }
{
    let mut names = BTreeSet::new(alloc);
    add_listed(&mut names, rows)?;
    Ok(names.len())
}

/// What a change does to ports: these are the ports that it leaves others than they were, as they are
/// then.
///
/// # Errors
/// `AllocError` where there is no memory.
pub fn ports_moved<A: Allocator + Copy>(
    alloc: A,
    inventory: &Inventory<A>,
    ports: &[Port],
) -> Result<PortsMoved<A>, AllocError>
    ensures { (v : InventoryRows) → AreNewPorts inventory.now v ports.now → IfOk result (ArePortsMoved inventory.now v) }
{
    let new = ports_with(alloc, PortMove::New, inventory, ports)?;
    let moved = ports_with(alloc, PortMove::Moved, inventory, ports)?;
    let logged_out = ports_with(alloc, PortMove::LoggedOut, inventory, ports)?;
    Ok(PortsMoved {
        new,
        moved,
        logged_out,
    })
}
