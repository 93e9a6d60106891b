//! The ports that a difference moves: those of which a row says otherwise, and those that active rows
//! bring into a zone, or out of one.
ghost use Rattle.std.specs.Prelude.{◌≡◌, ◌↔◌, List, Contains, true, IsTrue, OnOk, IfOk};
ghost use Rattle.fab_inventory.specs.declared.port.Port.{Port};
ghost use Rattle.fab_zoning_rows.specs.Holding.{Matches, Holds, has_row};
ghost use Rattle.fab_reach_base.specs.Adding.{Adds};
ghost use Rattle.fab_reach_base.specs.Records.{Records, zoning_at};
ghost use Rattle.fab_reach_base.specs.Serving.{IsServing};
ghost use Rattle.fab_reach_base.specs.Views.{seen};
ghost use Rattle.fab_reach_moves.specs.Inner.Changing.{Key, HasKey, AreActive, IsRezoned, active_of, SaysPort, SaysPortAmong, world_at, IsChangedBy, IsPortChangedBy, IsPortChanged};
ghost use Rattle.fab_reach_moves.specs.Moves.{AreMoved};
ghost use Rattle.fab_reach_books.specs.Inner.Sets.{HasPortIn};
ghost use Rattle.fab_reach_books.specs.Rows.{IsRowDiff};
ghost use Rattle.fab_reach_books.specs.declared.row.Row.{Row};

use fab_inventory::Port;
use fab_names::{Fabric, Member, Name, Wwn};
use fab_reach_base::View;
use fab_reach_books::{Row, RowDiff};
use fab_zoning::is_logged_in_at;
use fab_zoning_rows::{address_member, place_member};
use std::alloc::{AllocError, Allocator};
use std::collections::BTreeSet;

/// The active rows of a difference.
#[derive(Drop)]
struct Active<A: Allocator + Copy> {
    gone: BTreeSet<((Fabric, Name), Member), A>,
    come: BTreeSet<((Fabric, Name), Member), A>,
}

/// Adds the row if it is an active one.
fn add_key<A: Allocator + Copy>(
    keys: &mut BTreeSet<((Fabric, Name), Member), A>,
    row: &Row,
) -> Result<(), AllocError>
    ensures { OnOk result (Adds (λ (k : Key). row.now ≡ active_of k) (HasKey keys.old) (HasKey keys.new)) }
{
    let Row::Active(active) = row else {
        return Ok(());
    };
    keys.insert(((active.fabric, active.zone), active.member))?;
    Ok(())
}

/// Adds the active rows among these.
fn add_keys<A: Allocator + Copy>(
    keys: &mut BTreeSet<((Fabric, Name), Member), A>,
    rows: &[Row],
) -> Result<(), AllocError>
    ensures { OnOk result (Adds (λ (k : Key). Contains rows.now (active_of k)) (HasKey keys.old) (HasKey keys.new)) }
{
    for row in rows {
        add_key(keys, row)?;
    }
    Ok(())
}

/// The active rows among these.
fn keys_of<A: Allocator + Copy>(
    alloc: A,
    rows: &[Row],
) -> Result<BTreeSet<((Fabric, Name), Member), A>, AllocError>
    ensures { IfOk result (AreActive rows.now) }
{
    let mut keys = BTreeSet::new(alloc);
    add_keys(&mut keys, rows)?;
    Ok(keys)
}

/// Whether the zone has the member after the step, if there is a member.
fn has_after<A: Allocator + Copy>(
    before: &View<'_, A>,
    active: &Active<A>,
    zone: &(Fabric, Name),
    member: Option<Member>,
) -> bool
    ensures { (v : Records) (gone come : List Row) → IsRowDiff (seen before.now) v gone come → AreActive gone active.now.gone → AreActive come active.now.come
        → result ≡ has_row (zoning_at v.config zone.now.0).rows zone.now.1 member }
{
    let Some(member) = member else {
        return false;
    };
    if active.come.contains(&(*zone, member)) {
        return true;
    }
    if active.gone.contains(&(*zone, member)) {
        return false;
    }
    before.config.zoning(zone.0).has_active(&zone.1, &member)
}

/// Whether the zone has the port after the step, wherever it is logged in.
fn holds_after<A: Allocator + Copy>(
    before: &View<'_, A>,
    active: &Active<A>,
    zone: &(Fabric, Name),
    port: &Port,
) -> bool
    ensures { (v : Records) (gone come : List Row) → IsRowDiff (seen before.now) v gone come → AreActive gone active.now.gone → AreActive come active.now.come
        → IsTrue result ↔ Holds (zoning_at v.config zone.now.0).rows port.now zone.now.1 }
{
    if has_after(before, active, zone, Some(Member::Port(port.name))) {
        return true;
    }
    if has_after(before, active, zone, Some(Member::Node(port.node))) {
        return true;
    }
    if has_after(before, active, zone, place_member(port)) {
        return true;
    }
    has_after(before, active, zone, address_member(port))
}

/// Whether the zone had the port before the step, wherever it is logged in.
fn holds_before<A: Allocator + Copy>(
    before: &View<'_, A>,
    zone: &(Fabric, Name),
    port: &Port,
) -> bool
    ensures { IsTrue result ↔ Holds (zoning_at (seen before.now).config zone.now.0).rows port.now zone.now.1 }
{
    before
        .config
        .zoning(zone.0)
        .zones_of(port)
        .contains(&zone.1)
}

/// Whether the zone has the port in the one world or the other.
fn holds_at<A: Allocator + Copy>(
    before: &View<'_, A>,
    active: &Active<A>,
    is_before: bool,
    zone: &(Fabric, Name),
    port: &Port,
) -> bool
    ensures { (v : Records) (gone come : List Row) → IsRowDiff (seen before.now) v gone come → AreActive gone active.now.gone → AreActive come active.now.come
        → IsTrue result ↔ Holds (zoning_at (world_at is_before (seen before.now) v).config zone.now.0).rows port.now zone.now.1 }
{
    if is_before {
        holds_before(before, zone, port)
    } else {
        holds_after(before, active, zone, port)
    }
}

/// Whether the member stands for the port.
fn is_match(member: &Member, port: &Port) -> bool
    ensures { IsTrue result ↔ Matches member.now port.now }
{
    match member {
        Member::Port(name) => port.name == *name,
        Member::Node(name) => port.node == *name,
        Member::Place(place) => match port.at {
            Some((_, at)) => at == *place,
            None => false,
        },
        Member::Address(address) => port.address == Some(*address),
        Member::Alias(_) => false,
    }
}

/// Adds the port if the active row has it in a zone that has it not in the other world.
fn add_if_changed<A: Allocator + Copy>(
    ports: &mut BTreeSet<Wwn, A>,
    before: &View<'_, A>,
    active: &Active<A>,
    is_before: bool,
    key: &((Fabric, Name), Member),
    port: &Port,
) -> Result<(), AllocError>
    ensures { (v : Records) (gone come : List Row) → IsRowDiff (seen before.now) v gone come → AreActive gone active.now.gone → AreActive come active.now.come
        → OnOk result (Adds (λ y. IsChangedBy (world_at is_before (seen before.now) v) key.now port.now × (y ≡ port.now.name)) (HasPortIn ports.old) (HasPortIn ports.new)) }
{
    if !is_logged_in_at(key.0.0, port) {
        return Ok(());
    }
    if !is_match(&key.1, port) {
        return Ok(());
    }
    if !holds_at(before, active, is_before, &key.0, port) {
        ports.insert(port.name)?;
    }
    Ok(())
}

/// Adds the port of this name if it is known, and is so changed.
fn add_known_if_changed<A: Allocator + Copy>(
    ports: &mut BTreeSet<Wwn, A>,
    before: &View<'_, A>,
    active: &Active<A>,
    is_before: bool,
    key: &((Fabric, Name), Member),
    name: &Wwn,
) -> Result<(), AllocError>
    ensures { (v : Records) (gone come : List Row) → IsRowDiff (seen before.now) v gone come → AreActive gone active.now.gone → AreActive come active.now.come
        → OnOk result (Adds (λ y. IsPortChangedBy (seen before.now) (world_at is_before (seen before.now) v) key.now y × (y ≡ name.now)) (HasPortIn ports.old) (HasPortIn ports.new)) }
{
    let Some(port) = before.inventory.port(name) else {
        return Ok(());
    };
    add_if_changed(ports, before, active, is_before, key, &port)?;
    Ok(())
}

/// Adds all known ports that are so changed.
fn add_all_changed<A: Allocator + Copy>(
    ports: &mut BTreeSet<Wwn, A>,
    before: &View<'_, A>,
    active: &Active<A>,
    is_before: bool,
    key: &((Fabric, Name), Member),
) -> Result<(), AllocError>
    ensures { (v : Records) (gone come : List Row) → IsRowDiff (seen before.now) v gone come → AreActive gone active.now.gone → AreActive come active.now.come
        → OnOk result (Adds (IsPortChangedBy (seen before.now) (world_at is_before (seen before.now) v) key.now) (HasPortIn ports.old) (HasPortIn ports.new)) }
{
    for (name, _known) in before.inventory.ports() {
        add_known_if_changed(ports, before, active, is_before, key, name)?;
    }
    Ok(())
}

/// The same. It walks through the known ports only where the member is not a port.
fn add_changed_by<A: Allocator + Copy>(
    ports: &mut BTreeSet<Wwn, A>,
    before: &View<'_, A>,
    active: &Active<A>,
    is_before: bool,
    key: &((Fabric, Name), Member),
) -> Result<(), AllocError>
    ensures { (v : Records) (gone come : List Row) → IsRowDiff (seen before.now) v gone come → AreActive gone active.now.gone → AreActive come active.now.come
        → OnOk result (Adds (IsPortChangedBy (seen before.now) (world_at is_before (seen before.now) v) key.now) (HasPortIn ports.old) (HasPortIn ports.new)) }
{
    if let Member::Port(name) = key.1 {
        add_known_if_changed(ports, before, active, is_before, key, &name)?;
        return Ok(());
    }
    add_all_changed(ports, before, active, is_before, key)?;
    Ok(())
}

/// Adds the ports that are so changed by some of the rows.
fn add_changed<A: Allocator + Copy>(
    ports: &mut BTreeSet<Wwn, A>,
    before: &View<'_, A>,
    active: &Active<A>,
    is_before: bool,
    keys: &BTreeSet<((Fabric, Name), Member), A>,
) -> Result<(), AllocError>
    ensures { (v : Records) (gone come : List Row) → IsRowDiff (seen before.now) v gone come → AreActive gone active.now.gone → AreActive come active.now.come
        → OnOk result (Adds (IsPortChanged (seen before.now) (world_at is_before (seen before.now) v) keys.now) (HasPortIn ports.old) (HasPortIn ports.new)) }
{
    for key in keys {
        add_changed_by(ports, before, active, is_before, key)?;
    }
    Ok(())
}

/// Adds the port that the row says.
fn add_said<A: Allocator + Copy>(ports: &mut BTreeSet<Wwn, A>, row: &Row) -> Result<(), AllocError>
    ensures { OnOk result (Adds (SaysPort row.now) (HasPortIn ports.old) (HasPortIn ports.new)) }
{
    let Row::Port(port) = row else {
        return Ok(());
    };
    ports.insert(port.name)?;
    Ok(())
}

/// Adds the ports that the rows say.
pub fn add_all_said<A: Allocator + Copy>(
    ports: &mut BTreeSet<Wwn, A>,
    rows: &[Row],
) -> Result<(), AllocError>
    ensures { OnOk result (Adds (SaysPortAmong rows.now) (HasPortIn ports.old) (HasPortIn ports.new)) }
{
    for row in rows {
        add_said(ports, row)?;
    }
    Ok(())
}

/// The active rows of a difference.
fn told_active<A: Allocator + Copy>(alloc: A, diff: &RowDiff<A>) -> Result<Active<A>, AllocError>
    ensures gone { IfOk result (λ a. AreActive diff.now.gone.items a.gone) }
    ensures come { IfOk result (λ a. AreActive diff.now.come.items a.come) }
{
    let gone = keys_of(alloc, diff.gone.as_slice())?;
    let come = keys_of(alloc, diff.come.as_slice())?;
    Ok(Active { gone, come })
}

/// Adds the ports that active rows bring into a zone, or out of one.
fn add_all_rezoned<A: Allocator + Copy>(
    alloc: A,
    ports: &mut BTreeSet<Wwn, A>,
    before: &View<'_, A>,
    diff: &RowDiff<A>,
) -> Result<(), AllocError>
    ensures { (v : Records) → IsRowDiff (seen before.now) v diff.now.gone.items diff.now.come.items
        → OnOk result (Adds (IsRezoned (seen before.now) v diff.now.gone.items diff.now.come.items) (HasPortIn ports.old) (HasPortIn ports.new)) }
{
    let active = told_active(alloc, diff)?;
    add_changed(ports, before, &active, false, &active.gone)?;
    add_changed(ports, before, &active, true, &active.come)?;
    Ok(())
}

/// The ports that a difference moves.
pub fn told_ports<A: Allocator + Copy>(
    alloc: A,
    before: &View<'_, A>,
    diff: &RowDiff<A>,
) -> Result<BTreeSet<Wwn, A>, AllocError>
    requires { IsServing (seen before.now) }
    ensures { (v : Records) → IsServing v → IsRowDiff (seen before.now) v diff.now.gone.items diff.now.come.items → IfOk result (AreMoved (seen before.now) v) }
{
    let mut ports = BTreeSet::new(alloc);
    add_all_said(&mut ports, diff.gone.as_slice())?;
    add_all_said(&mut ports, diff.come.as_slice())?;
    add_all_rezoned(alloc, &mut ports, before, diff)?;
    Ok(ports)
}
