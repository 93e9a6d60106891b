//! Who holds which ports: what refuses a put of a holder, and what it does to the ports.
ghost use Rattle.std.specs.Prelude.{◌≡◌, ◌≢◌, ◌≤◌, ℕ, Some, IsTrue, ◌↔◌, MatchOption, IfNone, IfSome, IfOk};
ghost use Rattle.std.specs.Bool.{OnTrue, OnFalse};
ghost use Rattle.std.specs.Option.{option_map};
ghost use Rattle.std.specs.Ordering.{nat_cmp};
ghost use Rattle.std.specs.BTreeMap.{get};
ghost use Rattle.std.specs.FinMap as map;
ghost use Rattle.fab_lemmas.specs.Lists.{IsListOf};
ghost use Rattle.fab_names.specs.Orders.{name_cmp};
ghost use Rattle.fab_inventory.specs.Holders.{held_after, other_holder_in, AreKnown, AreFree, IsLeast, IsUnknownIn, IsHeldIn, IsPortFault, min_of};
ghost use Rattle.fab_inventory.specs.Holders as spec;
ghost use Rattle.fab_inventory.specs.declared.holder.Holder.{Holder};
ghost use Rattle.fab_inventory.specs.declared.holder.HolderKind.{HolderKind};
ghost use Rattle.fab_inventory.specs.declared.holder.HolderKind.TheVariants.{Array};

use crate::{Holder, HolderKind, InventoryFault, Known, Volume};
use fab_names::{Name, Wwn};
use std::alloc::{AllocError, Allocator};
use std::collections::BTreeMap;

/// What the holder of a name is, if there is one.
pub fn kind_of<A: Allocator>(holders: &BTreeMap<Name, Holder, A>, name: &Name) -> Option<HolderKind>
    ensures { result ≡ option_map (λ (h : Holder). h.kind) (get name_cmp holders.now name.now) }
{
    match holders.get(name) {
        Some(holder) => Some(holder.kind),
        None => None,
    }
}

/// Whether there is a holder of another kind.
pub fn is_other_kind(known: Option<HolderKind>, kind: HolderKind) -> bool
    ensures yes { OnTrue result ((j : HolderKind) × (known ≡ Some j) × (j ≢ kind)) }
    ensures no { OnFalse result ((j : HolderKind) → known ≡ Some j → j ≡ kind) }
{
    match known {
        Some(known) => known != kind,
        None => false,
    }
}

/// Whether there is an array.
pub fn is_array(known: Option<HolderKind>) -> bool
    ensures { IsTrue result ↔ (known ≡ Some Array) }
{
    match known {
        Some(HolderKind::Array) => true,
        _ => false,
    }
}

/// Who holds the port, where it is another holder than this.
fn other_holder<A: Allocator>(
    ports: &BTreeMap<Wwn, Known, A>,
    name: &Name,
    port: &Wwn,
) -> Option<Name>
    ensures { result ≡ other_holder_in (get nat_cmp ports.now) name.now port.now }
{
    match ports.get(port) {
        Some(known) => match known.holder {
            Some(holder) if holder != *name => Some(holder),
            _ => None,
        },
        None => None,
    }
}

/// Takes the port, where it is less than the least so far.
fn note(least: &mut Option<Wwn>, port: Wwn)
    ensures { least.new ≡ Some (min_of least.old port) }
{
    if let Some(earlier) = *least {
        if earlier <= port {
            return;
        }
    }
    *least = Some(port);
}

/// The least listed port that is not known.
fn least_unknown<A: Allocator>(ports: &BTreeMap<Wwn, Known, A>, listed: &[Wwn]) -> Option<Wwn>
    ensures { MatchOption result (AreKnown (get nat_cmp ports.now) listed.now) (IsLeast (IsUnknownIn (get nat_cmp ports.now) listed.now)) }
{
    let mut least = None;
    for port in listed {
        if !ports.contains_key(port) {
            note(&mut least, *port);
        }
    }
    least
}

/// The least listed port that another holder holds.
fn least_held<A: Allocator>(
    ports: &BTreeMap<Wwn, Known, A>,
    name: &Name,
    listed: &[Wwn],
) -> Option<Wwn>
    ensures { MatchOption result (AreFree (get nat_cmp ports.now) name.now listed.now) (IsLeast (IsHeldIn (get nat_cmp ports.now) name.now listed.now)) }
{
    let mut least = None;
    for port in listed {
        if let Some(_) = other_holder(ports, name, port) {
            note(&mut least, *port);
        }
    }
    least
}

/// What refuses that the holder gets the listed ports.
pub fn port_fault<A: Allocator>(
    ports: &BTreeMap<Wwn, Known, A>,
    name: &Name,
    listed: &[Wwn],
) -> Option<InventoryFault>
    ensures known { IfNone result (AreKnown (get nat_cmp ports.now) listed.now) }
    ensures free { IfNone result (AreFree (get nat_cmp ports.now) name.now listed.now) }
    ensures fault { IfSome result (IsPortFault (get nat_cmp ports.now) name.now listed.now) }
{
    if let Some(port) = least_unknown(ports, listed) {
        return Some(InventoryFault::UnknownPort(port));
    }
    let port = least_held(ports, name, listed)?;
    let holder = other_holder(ports, name, &port)?;
    Some(InventoryFault::PortHeld(port, holder))
}

/// Gives a port to the holder where it is listed, and else takes it from that holder.
fn hand_over(known: &mut Known, port: &Wwn, name: Name, listed: &[Wwn])
    ensures { known.new ≡ held_after name listed.now port.now known.old }
{
    if listed.contains(port) {
        known.holder = Some(name);
    } else if let Some(holder) = known.holder {
        if holder == name {
            known.holder = None;
        }
    }
}

/// Gives the listed ports, and no others, to the holder.
pub fn hand_over_all<A: Allocator>(ports: &mut BTreeMap<Wwn, Known, A>, name: Name, listed: &[Wwn])
    ensures ports { (q : ℕ) → get nat_cmp ports.new q ≡ option_map (held_after name listed.now q) (get nat_cmp ports.old q) }
    ensures few { map.len (map.from_entries {R = nat_cmp} ports.new.entries) ≤ map.len (map.from_entries {R = nat_cmp} ports.old.entries) }
{
    ports.retain(|port, known| {
        hand_over(known, port, name, listed);
        true
    });
}

/// Whether the holder holds the port, and it is not listed.
fn is_leaving(port: &Wwn, known: &Known, name: &Name, listed: &[Wwn]) -> bool
    ensures { result ≡ spec.is_leaving name.now listed.now port.now known.now }
{
    match known.holder {
        Some(holder) => holder == *name && !listed.contains(port),
        None => false,
    }
}

/// The ports that the holder holds and that are not listed, in their order.
pub fn leaving<A: Allocator + Copy>(
    alloc: A,
    ports: &BTreeMap<Wwn, Known, A>,
    name: &Name,
    listed: &[Wwn],
) -> Result<Vec<Wwn, A>, AllocError>
    ensures { IfOk result (λ found. IsListOf nat_cmp (spec.Leaves (get nat_cmp ports.now) name.now listed.now) found.items) }
{
    let mut found = Vec::new(alloc);
    for (port, known) in ports {
        if is_leaving(port, known, name, listed) {
            found.push(*port)?;
        }
    }
    Ok(found)
}

/// The least volume by name on the array, if there is one.
pub fn first_on<'a, A: Allocator>(
    volumes: &'a BTreeMap<Name, Volume, A>,
    array: &Name,
) -> Option<&'a Name>
    ensures { MatchOption result (spec.HasNoVolume (get name_cmp volumes.now) array.now) (λ name. spec.IsLeastVolume (get name_cmp volumes.now) array.now name.now) }
{
    for (name, volume) in volumes {
        if volume.array == *array {
            return Some(name);
        }
    }
    None
}
