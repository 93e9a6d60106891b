//! Worlds over an allocator that refuses a request: an inventory, and what plans make of a configuration.
use crate::cuts::WORKED;
use crate::named::named;
use fab_inventory::{HolderKind, Inventory, PortRow};
use fab_names::{Fabric, Place, Wwn};
use fab_plans::trial;
use fab_plans_text::read_plan;
use fab_policy::Policy;
use fab_policy_text::ReadPolicy;
use fab_reach::Config;
use fab_test_alloc::Refusing;
use fab_world::World;
use std::alloc::Global;
use std::process::Abort;

/// The allocator that refuses a request.
pub type Heap<'a> = &'a Refusing<Global>;

/// The token of an operator.
pub const ADA: &str = "t-ada";

/// The port of the host.
pub const INITIATOR: u64 = 0x1000_0000_0000_0001;

/// The port of the array.
pub const TARGET: u64 = 0x5000_0000_0000_0001;

/// The ports of fabric A, and their places: three initiators, and two targets.
const PORTS: &[(&str, &str)] = &[
    ("10:00:00:00:00:00:00:01", "1,1"),
    ("10:00:00:00:00:00:00:02", "12,5"),
    ("10:00:00:00:00:00:00:03", "12,5"),
    ("50:00:00:00:00:00:00:01", "1,2"),
    ("50:00:00:00:00:00:00:02", "1,3"),
];

/// The host gets the volume: a zone by an alias, and an exposed storage group.
pub const FIRST_PLAN: &str = "alias.put A disk wwpn=50:00:00:00:00:00:00:01
zone.put A z1 wwpn=10:00:00:00:00:00:00:01 alias=disk
set.put A s1 z1
activate A s1
hg.put hosts1 blue db1
sg.new g1 blue arr1
sg.host g1 hosts1
sg.target g1 50:00:00:00:00:00:00:01
sg.map g1 0 v1
sg.expose g1
";

/// The worked policy.
pub fn read_policy(rt: &(impl Abort + AllocGlobal)) -> Policy {
    Policy::read(rt.alloc(), WORKED).expect(rt, "a policy")
}

/// Fabric A lists the ports.
fn list(inventory: &mut Inventory<Heap<'_>>, rt: &(impl Abort + AllocGlobal)) {
    let mut rows = Vec::new(rt.alloc());
    for (port, place) in PORTS {
        let port = Wwn::read(port).expect(rt, "a port");
        let place = Place::read(place).expect(rt, "a place");
        let row = PortRow::plain(port, Wwn::new(1), place);
        rows.push(row).expect(rt, "memory");
    }
    inventory
        .import(Fabric::A, rows.as_slice())
        .expect(rt, "a port list");
}

/// A holder of these ports.
pub fn hold(
    inventory: &mut Inventory<Heap<'_>>,
    rt: &impl Abort,
    kind: HolderKind,
    holder: &str,
    ports: &[Wwn],
) {
    inventory
        .put_holder(named(rt, holder), kind, named(rt, "blue"), ports)
        .expect(rt, "a holder");
}

/// A volume of the array.
pub fn put_volume(inventory: &mut Inventory<Heap<'_>>, rt: &impl Abort, volume: &str) {
    inventory
        .put_volume(named(rt, volume), named(rt, "arr1"), named(rt, "blue"), 1)
        .expect(rt, "a volume");
}

/// Puts the ports, the host, the array and the volume.
fn stock(inventory: &mut Inventory<Heap<'_>>, rt: &(impl Abort + AllocGlobal)) {
    let (initiator, target) = (Wwn::new(INITIATOR), Wwn::new(TARGET));
    list(inventory, rt);
    hold(inventory, rt, HolderKind::Host, "db1", &[initiator]);
    hold(inventory, rt, HolderKind::Array, "arr1", &[target]);
    put_volume(inventory, rt, "v1");
}

/// The configuration that the plan makes of this one.
pub fn planned<'a>(
    rt: &impl Abort,
    heap: Heap<'a>,
    inventory: &Inventory<Heap<'a>>,
    bare: &Config<Heap<'a>>,
    text: &str,
) -> Config<Heap<'a>> {
    let Ok(steps) = read_plan(heap, text) else {
        panic!(rt; "no plan");
    };
    let Ok(config) = trial(bare, inventory, &steps) else {
        panic!(rt; "no configuration");
    };
    config
}

/// A world of these, and of what the plans make of the empty configuration one after the other.
pub fn made<'a>(
    rt: &(impl Abort + AllocGlobal),
    heap: Heap<'a>,
    plans: &[&str],
) -> World<Heap<'a>> {
    let mut world = World::new(heap);
    stock(&mut world.inventory, rt);
    for text in plans {
        world.config = planned(rt, heap, &world.inventory, &world.config, text);
    }
    world
}
