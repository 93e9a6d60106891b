//! Calls that take no memory: with the very next request refused, each does what it says, and no
//! request was made. Those that are lent no allocator and keep none stand beside them.
use crate::books::leads;
use crate::named::named;
use crate::worlds::{ADA, FIRST_PLAN, Heap, INITIATOR, TARGET, made, read_policy};
use fab_names::{Fabric, Member, Name, NameFault, Place, Wwn};
use fab_policy::{Act, Action, Policy, Verdict, decide};
use fab_test_alloc::Refusing;
use fab_world::World;
use std::fmt;
use std::process::Abort;

/// A writer that has no memory, and takes just the text that is wanted.
#[derive(Drop)]
struct Wanted {
    rest: &'static str,
}

impl fmt::Write for Wanted {
    fn write_str(&mut self, text: &str) -> fmt::Result {
        match self.rest.strip_prefix(text) {
            Some(rest) => {
                self.rest = rest;
                Ok(())
            }
            None => Err(fmt::Error),
        }
    }
}

/// Whether what was read is displayed as the text.
fn is_shown<T: fmt::Display + Drop>(read: Result<T, NameFault>, text: &'static str) -> bool {
    let Ok(value) = read else {
        return false;
    };
    let mut wanted = Wanted { rest: text };
    fmt::Write::write_fmt(&mut wanted, format_args!("{value}")).is_ok() && wanted.rest.is_empty()
}

/// Whether a text of each kind is read and displayed.
fn are_shown() -> bool {
    is_shown(Wwn::read("0x1000000000000001"), "10:00:00:00:00:00:00:01")
        && is_shown(Fabric::read("B"), "B")
        && is_shown(Place::read("012,5"), "12,5")
        && is_shown(Name::read("db1"), "db1")
        && is_shown(Member::read("dp=01,4095"), "dp=1,4095")
}

/// Whether a caller is known by her token, and may do something.
fn is_allowed(policy: &Policy) -> bool {
    let Some(caller) = policy.caller(ADA) else {
        return false;
    };
    let act = Act {
        caller,
        action: Action::Inventory,
        fabrics: &[],
        touched: &[],
        moment: 0,
        plan: None,
        revision: 6,
    };
    matches!(decide(policy, &act), Verdict::Allowed)
}

/// Whether what is there is found, and what is not there is not.
fn is_found(rt: &impl Abort, world: &World<Heap<'_>>) -> bool {
    let inventory = &world.inventory;
    inventory.holder(&named(rt, "arr1")).is_some()
        && inventory.volume(&named(rt, "v1")).is_some()
        && inventory.holder(&named(rt, "v1")).is_none()
        && inventory.volume(&named(rt, "arr1")).is_none()
}

/// Whether both ports are known and joined.
fn is_joined(world: &World<Heap<'_>>) -> bool {
    let one = world.inventory.port(&Wwn::new(INITIATOR));
    let other = world.inventory.port(&Wwn::new(TARGET));
    match (one, other) {
        (Some(one), Some(other)) => world.config.a.joined(&one, &other).is_some(),
        _ => false,
    }
}

#[test]
fn no_memory_calls(rt: HostRuntime) {
    let policy = read_policy(&rt);
    let heap = Refusing::new(rt.alloc());
    let world = made(&rt, &heap, &[FIRST_PLAN]);
    heap.refuse_after(0);
    assert!(rt; are_shown() && is_allowed(&policy));
    assert!(rt; is_found(&rt, &world) && is_joined(&world));
    assert!(rt; !heap.has_refused());
    heap.refuse_none();
    let other = made(&rt, &heap, &[]);
    assert!(rt; leads(&rt, &heap, &world, &other, true));
}
