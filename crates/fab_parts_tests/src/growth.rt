//! Each request for memory of a call refused in turn: the call answers want of memory and changes nothing,
//! and then, when memory is there again, it is done.
use crate::books::leads;
use crate::named::named;
use crate::worlds::{ADA, FIRST_PLAN, Heap, made, read_policy};
use fab_inventory::{HolderKind, InventoryFault};
use fab_looks::{Kind, list, list_ports};
use fab_mapping::MappingFault;
use fab_names::Fabric;
use fab_policy::Policy;
use fab_test_alloc::Refusing;
use fab_test_world::is_same;
use fab_world::World;
use fab_zoning::ZoningFault;
use std::process::Abort;

/// A call on a world.
#[derive(Clone, Copy)]
enum Call {
    /// The first holder is put.
    PutHolder,
    /// The set that is active is activated again.
    Activate,
    /// The first volume of a group is mapped.
    Map,
    CopyInventory,
    CopyConfig,
    /// The zones of fabric A are listed, or all ports.
    Zones,
    Ports,
    /// A book is opened, and a step is made ready and taken.
    Lead,
}

/// What a call is made with.
#[derive(Clone, Copy)]
struct Means<'a> {
    heap: Heap<'a>,
    policy: &'a Policy,
}

/// A call, and whether its world is new. It is grouped where it is not.
type Case = (Call, bool);

const CASES: &[Case] = &[
    (Call::PutHolder, true),
    (Call::Activate, false),
    (Call::Map, false),
    (Call::CopyInventory, false),
    (Call::CopyConfig, false),
    (Call::Zones, false),
    (Call::Ports, false),
    (Call::Lead, false),
];

/// The world of a call: a new one, or the first plan is done, and there is a group without a volume.
fn begun<'a>(rt: &(impl Abort + AllocGlobal), heap: Heap<'a>, case: Case) -> World<Heap<'a>> {
    if case.1 {
        return World::new(heap);
    }
    made(rt, heap, &[FIRST_PLAN, "sg.new g2 blue arr1\n"])
}

/// Whether the first holder is put, or there was no memory. Ends the test at another refusal.
fn puts(rt: &impl Abort, world: &mut World<Heap<'_>>) -> bool {
    let (blue, host) = (named(rt, "blue"), named(rt, "db1"));
    let done = world
        .inventory
        .put_holder(host, HolderKind::Host, blue, &[]);
    assert!(rt; matches!(done, Ok(()) | Err(InventoryFault::Memory)));
    done.is_ok()
}

/// Whether the set is activated again, or there was no memory. Ends the test at another refusal.
fn activates(rt: &impl Abort, world: &mut World<Heap<'_>>) -> bool {
    let done = world.config.a.activate(&named(rt, "s1"));
    assert!(rt; matches!(done, Ok(()) | Err(ZoningFault::Memory)));
    done.is_ok()
}

/// Whether the volume is mapped, or there was no memory. Ends the test at another refusal.
fn maps(rt: &impl Abort, world: &mut World<Heap<'_>>) -> bool {
    let (group, volume) = (named(rt, "g2"), named(rt, "v1"));
    let done = world
        .config
        .mapping
        .map(&group, 0, &volume, &world.inventory);
    assert!(rt; matches!(done, Ok(()) | Err(MappingFault::Memory)));
    done.is_ok()
}

/// Whether the zones of fabric A are listed, or there was no memory.
fn lists_zones<'a>(rt: &impl Abort, means: Means<'a>, world: &World<Heap<'a>>) -> bool {
    let id = means.policy.caller(ADA).expect(rt, "a caller");
    list(means.heap, means.policy, world, id, Kind::Zones(Fabric::A)).is_ok()
}

/// Whether all ports are, or there was no memory.
fn lists_ports<'a>(means: Means<'a>, world: &World<Heap<'a>>) -> bool {
    list_ports(means.heap, world).is_ok()
}

/// Whether the inventory is copied, or there was no memory.
fn copies_inventory(world: &World<Heap<'_>>) -> bool {
    world.inventory.copy().is_ok()
}

/// Whether the configuration is copied, or there was no memory.
fn copies_config(world: &World<Heap<'_>>) -> bool {
    world.config.copy().is_ok()
}

/// Makes the call on a world: whether it was accepted, or there was no memory. A book goes to the other one.
fn make<'a>(
    rt: &impl Abort,
    means: Means<'a>,
    world: &mut World<Heap<'a>>,
    other: &World<Heap<'a>>,
    call: Call,
) -> bool {
    match call {
        Call::CopyInventory => copies_inventory(world),
        Call::CopyConfig => copies_config(world),
        Call::Zones => lists_zones(rt, means, world),
        Call::Ports => lists_ports(means, world),
        Call::Lead => leads(rt, means.heap, world, other, false),
        Call::PutHolder => puts(rt, world),
        Call::Activate => activates(rt, world),
        Call::Map => maps(rt, world),
    }
}

/// Makes the call with the request behind so many refused: whether it was accepted, and whether a request was
/// refused. Ends the test where it is not accepted though none was, or changed the world, or is not done
/// when memory is there again.
fn refuse_beside<'a>(
    rt: &impl Abort,
    means: Means<'a>,
    worlds: (&World<Heap<'a>>, &World<Heap<'a>>),
    world: &mut World<Heap<'a>>,
    call: Call,
    requests: u64,
) -> (bool, bool) {
    means.heap.refuse_after(requests);
    let is_accepted = make(rt, means, world, worlds.1, call);
    let is_refused = means.heap.has_refused();
    means.heap.refuse_none();
    if !is_accepted {
        assert!(rt; is_refused);
        assert!(rt; is_same(means.heap, worlds.0, world).expect(rt, "memory"));
        assert!(rt; make(rt, means, world, worlds.1, call));
    }
    (is_accepted, is_refused)
}

/// The same on a world that is made for it.
fn refuse<'a>(
    rt: &(impl Abort + AllocGlobal),
    means: Means<'a>,
    worlds: (&World<Heap<'a>>, &World<Heap<'a>>),
    case: Case,
    requests: u64,
) -> (bool, bool) {
    let mut world = begun(rt, means.heap, case);
    refuse_beside(rt, means, worlds, &mut world, case.0, requests)
}

/// How often a call is tried at most.
const MOST: u64 = 1000;

/// How many requests of the call were answered with want of memory, until a call met no refusal.
fn refusals_beside<'a>(
    rt: &(impl Abort + AllocGlobal),
    means: Means<'a>,
    worlds: (&World<Heap<'a>>, &World<Heap<'a>>),
    case: Case,
) -> u64 {
    let mut refusals = 0u64;
    for requests in 0..MOST {
        match refuse(rt, means, worlds, case, requests) {
            (true, false) => return refusals,
            (true, true) => {}
            _ => refusals = refusals.saturating_add(1),
        }
    }
    panic!(rt; "a call that meets no refusal")
}

/// The same, beside the world as it is before the call, and one to which a book is led.
fn refusals_from<'a>(
    rt: &(impl Abort + AllocGlobal),
    means: Means<'a>,
    before: &World<Heap<'a>>,
    case: Case,
) -> u64 {
    let other = made(rt, means.heap, &[]);
    refusals_beside(rt, means, (before, &other), case)
}

/// The same with an allocator of its own.
fn refusals(rt: &(impl Abort + AllocGlobal), policy: &Policy, case: Case) -> u64 {
    let heap = Refusing::new(rt.alloc());
    let means = Means {
        heap: &heap,
        policy,
    };
    refusals_from(rt, means, &begun(rt, means.heap, case), case)
}

#[test]
fn refused_growth_parts(rt: HostRuntime) {
    let policy = read_policy(&rt);
    for case in CASES {
        assert!(rt; refusals(&rt, &policy, *case) > 0);
    }
}
