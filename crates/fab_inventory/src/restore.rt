//! Whether ports, holders and volumes are an inventory's.
ghost use Rattle.std.specs.Prelude.{◌≡◌, ℕ, List, IfOk, IsTrue, ◌↔◌};
ghost use Rattle.std.specs.Bool.{OnTrue, OnFalse};
ghost use Rattle.std.specs.BTreeMap.{get, keys, values};
ghost use Rattle.std.specs.FinMap as map;
ghost use Rattle.std.specs.List.{list_all};
ghost use Rattle.std.specs.Ordering.{nat_cmp};
ghost use Rattle.fab_names.specs.Orders.{name_cmp};
ghost use Rattle.fab_inventory.specs.Inventories.{HoldsFew};
ghost use Rattle.fab_inventory.specs.Restores.{ArePortsSound, AreSeated, AreVolumesSound, seated};
ghost use Rattle.fab_inventory.specs.RestoreTests as spec;

use crate::holding::{is_array, kind_of};
use crate::{
    Holder, Known, MOST_BYTES, MOST_PORTS, MOST_PORTS_OF_HOLDER, MOST_VOLUMES, Seat, Volume,
};
use fab_names::{Address, Name, Wwn};
use std::alloc::{AllocError, Allocator};
use std::collections::BTreeMap;

/// What is known of each port: its seat, and its address if it has one.
pub fn seated<A: Allocator + Copy>(
    alloc: A,
    seats: &BTreeMap<Wwn, Seat, A>,
    addresses: &BTreeMap<Wwn, Address, A>,
) -> Result<BTreeMap<Wwn, Known, A>, AllocError>
    ensures { IfOk result (λ ports. (q : ℕ) → get nat_cmp ports q ≡ seated (get nat_cmp seats.now q) (get nat_cmp addresses.now q)) }
{
    let mut ports = BTreeMap::new(alloc);
    for (port, seat) in seats {
        let known = Known {
            node: seat.node,
            at: seat.at,
            address: addresses.get(port).copied(),
            holder: seat.holder,
        };
        ports.insert(*port, known)?;
    }
    Ok(ports)
}

/// Whether the port is there, and is logged in.
fn is_seated<A: Allocator>(seats: &BTreeMap<Wwn, Seat, A>, port: &Wwn) -> bool
    ensures { result ≡ spec.is_seated (get nat_cmp seats.now port.now) }
{
    match seats.get(port) {
        Some(seat) => seat.at.is_some(),
        None => false,
    }
}

/// Whether each port that has an address is there, and is logged in.
fn are_all_seated<A: Allocator>(
    seats: &BTreeMap<Wwn, Seat, A>,
    addresses: &BTreeMap<Wwn, Address, A>,
) -> bool
    ensures { result ≡ list_all (λ q. spec.is_seated (get nat_cmp seats.now q)) (keys addresses.now) }
{
    addresses.keys().all(|port| is_seated(seats, port))
}

/// Whether each address is of a port that is there and is logged in.
pub fn are_seated<A: Allocator>(
    seats: &BTreeMap<Wwn, Seat, A>,
    addresses: &BTreeMap<Wwn, Address, A>,
) -> bool
    ensures { IsTrue result ↔ AreSeated (get nat_cmp seats.now) (get nat_cmp addresses.now) }
{
    are_all_seated(seats, addresses)
}

/// Whether the holder of a port, if it has one, is there.
fn has_known_holder<A: Allocator>(holders: &BTreeMap<Name, Holder, A>, known: &Known) -> bool
    ensures { result ≡ spec.has_known_holder (get name_cmp holders.now) known.now }
{
    match known.holder {
        Some(holder) => holders.contains_key(&holder),
        None => true,
    }
}

/// Whether each holder that a port names is there.
fn have_known_holders<A: Allocator>(
    holders: &BTreeMap<Name, Holder, A>,
    ports: &BTreeMap<Wwn, Known, A>,
) -> bool
    ensures { result ≡ list_all (spec.has_known_holder (get name_cmp holders.now)) (values ports.now) }
{
    ports.values().all(|known| has_known_holder(holders, known))
}

/// How many ports of the holder are counted.
fn count_of<A: Allocator>(counts: &BTreeMap<Name, usize, A>, holder: &Name) -> usize
    ensures { result ≡ spec.count_of (get name_cmp counts.now holder.now) }
{
    match counts.get(holder) {
        Some(count) => *count,
        None => 0,
    }
}

/// Counts the port with its holder, if it has one that has not as many as it may have.
fn count_port<A: Allocator + Copy>(
    counts: &mut BTreeMap<Name, usize, A>,
    known: &Known,
) -> Result<bool, AllocError>
    ensures counted { IfOk result (λ few. OnTrue few (spec.CountsPort known.now (get name_cmp counts.old) (get name_cmp counts.new))) }
    ensures few { IfOk result (λ few. OnTrue few (spec.HasFew known.now (get name_cmp counts.old))) }
    ensures most { IfOk result (λ few. OnFalse few (spec.HasMost known.now (get name_cmp counts.old))) }
{
    let Some(holder) = known.holder else {
        return Ok(true);
    };
    let count = count_of(counts, &holder);
    if count >= MOST_PORTS_OF_HOLDER {
        return Ok(false);
    }
    counts.insert(holder, count + 1)?;
    Ok(true)
}

/// Whether no holder holds too many ports, by one walk through the ports.
fn hold_few<A: Allocator + Copy>(
    alloc: A,
    ports: &BTreeMap<Wwn, Known, A>,
) -> Result<bool, AllocError>
    ensures { IfOk result (λ few. IsTrue few ↔ ((h : List ℕ) → HoldsFew (map.from_entries {R = nat_cmp} ports.now.entries) h)) }
{
    let mut counts = BTreeMap::new(alloc);
    for (_port, known) in ports {
        if !count_port(&mut counts, known)? {
            return Ok(false);
        }
    }
    Ok(true)
}

/// Whether the ports are sound beside the holders.
pub fn are_ports_sound<A: Allocator + Copy>(
    alloc: A,
    holders: &BTreeMap<Name, Holder, A>,
    ports: &BTreeMap<Wwn, Known, A>,
) -> Result<bool, AllocError>
    ensures { IfOk result (λ sound. IsTrue sound ↔ ArePortsSound (map.from_entries {R = nat_cmp} ports.now.entries) (map.from_entries {R = name_cmp} holders.now.entries)) }
{
    if ports.len() > MOST_PORTS {
        return Ok(false);
    }
    if !have_known_holders(holders, ports) {
        return Ok(false);
    }
    hold_few(alloc, ports)
}

/// Whether the volume is on an array, and has a capacity.
fn is_placed<A: Allocator>(holders: &BTreeMap<Name, Holder, A>, volume: &Volume) -> bool
    ensures { result ≡ spec.is_placed (get name_cmp holders.now) volume.now }
{
    let known = kind_of(holders, &volume.array);
    is_array(known) && volume.bytes >= 1 && volume.bytes <= MOST_BYTES
}

/// Whether each volume is on an array, and has a capacity.
fn are_placed<A: Allocator>(
    holders: &BTreeMap<Name, Holder, A>,
    volumes: &BTreeMap<Name, Volume, A>,
) -> bool
    ensures { result ≡ list_all (spec.is_placed (get name_cmp holders.now)) (values volumes.now) }
{
    volumes.values().all(|volume| is_placed(holders, volume))
}

/// Whether the volumes are sound beside the holders.
pub fn are_volumes_sound<A: Allocator>(
    holders: &BTreeMap<Name, Holder, A>,
    volumes: &BTreeMap<Name, Volume, A>,
) -> bool
    ensures { IsTrue result ↔ AreVolumesSound (map.from_entries {R = name_cmp} holders.now.entries) (map.from_entries {R = name_cmp} volumes.now.entries) }
{
    if volumes.len() > MOST_VOLUMES {
        return false;
    }
    are_placed(holders, volumes)
}
