//! Ports that an inventory knows, and rows that are made the active ones.
use crate::named::named;
use fab_inventory::{Inventory, Port, PortRow};
use fab_names::{Fabric, Member, Place, Wwn};
use fab_zoning::{Why, Zoning};
use std::alloc::Global;
use std::process::Abort;

/// The port of a host.
const INITIATOR: u64 = 0x1000_0000_0000_0001;

/// The port of an array.
const TARGET: u64 = 0x5000_0000_0000_0001;

/// A port at the place of the target, in the other fabric.
const TARGET_IN_B: u64 = 0x5000_0000_0000_0002;

/// Two ports, and the zone that joins them, if one does.
const PAIRS: &[(u64, u64, Option<&str>)] = &[
    (INITIATOR, TARGET, Some("z1")),
    (INITIATOR, TARGET_IN_B, None),
    (TARGET, TARGET_IN_B, None),
];

/// The port of this number.
fn wwn(rt: &impl Abort, number: u64) -> Wwn {
    assert!(rt; number > 0);
    Wwn::new(number)
}

/// The inventory after the imports of both port lists.
fn imported(rt: &(impl Abort + AllocGlobal)) -> Inventory<Global> {
    let node = Wwn::new(9);
    let in_a = [
        PortRow::plain(Wwn::new(INITIATOR), node, Place::new(1, 1)),
        PortRow::plain(Wwn::new(TARGET), node, Place::new(1, 2)),
    ];
    let in_b = [PortRow::plain(Wwn::new(TARGET_IN_B), node, Place::new(1, 2))];
    let mut inventory = Inventory::new(rt.alloc());
    inventory.import(Fabric::A, &in_a).expect(rt, "an import");
    inventory.import(Fabric::B, &in_b).expect(rt, "an import");
    inventory
}

/// A zoning of fabric A, in whose active zone both ports are, the one by its name and the other by its
/// place.
fn zoned(rt: &(impl Abort + AllocGlobal)) -> Zoning<Global> {
    let zone = named(rt, "z1");
    let rows = [
        (zone, Member::Port(Wwn::new(INITIATOR))),
        (zone, Member::Place(Place::new(1, 2))),
    ];
    let mut zoning = Zoning::new(rt.alloc(), Fabric::A);
    zoning
        .set_active(named(rt, "s1"), &rows)
        .expect(rt, "memory");
    zoning
}

fn known(rt: &impl Abort, inventory: &Inventory<Global>, number: u64) -> Port {
    inventory.port(&wwn(rt, number)).expect(rt, "a known port")
}

/// Whether this zone is why; or whether nothing is, where none is wanted.
fn is_zone(why: Option<Why<'_>>, wanted: Option<&str>) -> bool {
    match (why, wanted) {
        (Some(Why::Zone(zone)), Some(name)) => zone.as_str() == name,
        (None, None) => true,
        _ => false,
    }
}

#[test]
fn joined_by_active_set(rt: HostRuntime) {
    let (inventory, zoning) = (imported(&rt), zoned(&rt));
    for &(one, other, wanted) in PAIRS {
        let (p, q) = (known(&rt, &inventory, one), known(&rt, &inventory, other));
        assert!(rt; is_zone(zoning.joined(&p, &q), wanted));
    }
}
