//! Each call of the store refused in turn. A read that the store refused is answered so, and the desk
//! serves on; a change halts it, until it is opened again over the store that it hands out.

use crate::answers::{Asking, Came, ask, ask_each, asking_of};
use crate::desks::{Asked, closed, open, opened};
use crate::tables::{Story, refusals, tell_in_memory};
use crate::worlds::{is_world_of, lines_of, world_after};
use fab_store::{OpenFault, RefusingStore, Store};
use fab_test_alloc::Refusing;
use fab_test_wire::rows::{
    ALIAS_PUT_ANEW, FIRST_PLAN, FIRST_UNDONE, NODE_ZONED, ROLLED_BACK, SECOND_PLAN, UNMAPPED,
    VOLUME_GONE, WORLD,
};
use fab_world::World;
use std::alloc::Allocator;
use std::process::Abort;

/// A desk over a store that may refuse to be read at first.
fn opened_at_last<A: Allocator + Copy, S: Drop, D: Asked<A, S>>(
    rt: &(impl Abort + AllocGlobal),
    heap: A,
    store: RefusingStore<S>,
) -> D {
    match open(rt, heap, store) {
        Ok(desk) => desk,
        Err((OpenFault::Store, store)) => opened(rt, heap, store),
        Err(_) => panic!(rt; "fault"),
    }
}

/// What a halted desk answers.
const HALTED: &[&str] = &[
    r#"ada GET /paths/db1 -> 503 Service Unavailable: {"code":23,"error":"halted"}"#,
    r#"ada PUT /hosts/db1 {"ports":[],"tenant":"blue"} -> 503 Service Unavailable: {"code":23,"error":"halted"}"#,
];

/// Opens the halted desk again over the store that it hands out, once. Ends the test where the desk was not
/// halted.
fn open_again<A: Allocator + Copy, S: Drop, D: Asked<A, S>>(
    rt: &(impl Abort + AllocGlobal),
    desk: &mut D,
) {
    assert!(rt; desk.is_halted());
    ask_each(rt, desk, HALTED);
    let store = desk.release().expect(rt, "a store");
    assert!(rt; desk.release().is_none());
    assert!(rt; desk.is_halted());
    assert!(rt; desk.reopen(store));
}

/// What the desk answers when it is asked again after the store refused a call. A change halted it, and a
/// read did not.
fn ask_again<A: Allocator + Copy, S: Drop, D: Asked<A, S>>(
    rt: &(impl Abort + AllocGlobal),
    desk: &mut D,
    asking: &Asking,
) -> Came {
    if !asking.is_read() {
        open_again(rt, desk);
    }
    assert!(rt; !desk.is_halted());
    ask(rt, desk, asking)
}

/// What the desk answers to the request of the line, at once or when it is asked again.
fn ask_at_last<A: Allocator + Copy, S: Drop, D: Asked<A, S>>(
    rt: &(impl Abort + AllocGlobal),
    desk: &mut D,
    line: &str,
) -> Came {
    let asking = asking_of(rt, line);
    match ask(rt, desk, &asking) {
        Came::Refused => ask_again(rt, desk, &asking),
        came => came,
    }
}

/// The store of the desk again, after it has answered these, each at last as recorded.
fn store_at_last<A: Allocator + Copy, S: Drop, D: Asked<A, S>>(
    rt: &(impl Abort + AllocGlobal),
    desk: D,
    lines: &[&str],
) -> RefusingStore<S> {
    let mut desk = desk;
    for line in lines {
        assert!(rt; matches!(ask_at_last(rt, &mut desk, line), Came::Told));
    }
    closed(rt, desk)
}

/// A desk answers requests over a store that refuses the call after so many: how many calls are refused, one
/// at most. The store has this world then.
#[derive(Clone, Copy)]
struct Refusals<'t, 'w, A: Allocator + Copy> {
    lines: &'t [&'t str],
    world: &'w World<A>,
    calls: u64,
}

impl<A: Allocator + Copy> Story<A> for Refusals<'_, '_, A> {
    type Told = u64;

    fn tell<R: Abort + AllocGlobal, S: Store<A>, D: Asked<A, S>>(
        self,
        rt: &R,
        heap: A,
        store: S,
    ) -> u64 {
        let store = RefusingStore::new(store, self.calls);
        let desk: D = opened_at_last(rt, heap, store);
        let store = store_at_last(rt, desk, self.lines);
        let count = refusals(heap, &store);
        let mut tables = RefusingStore::new(store.into_inner(), u64::MAX);
        assert!(rt; is_world_of(rt, heap, &mut tables, self.world));
        count
    }
}

/// More calls than any list of requests makes.
const MANY: u64 = 100;

/// How many calls are refused, one at most, where a new desk in memory answers these, whose store refuses the
/// call after so many.
fn refusals_in<A: Allocator + Copy>(
    rt: &(impl Abort + AllocGlobal),
    heap: A,
    lines: &[&str],
    world: &World<A>,
    calls: u64,
) -> u64 {
    let refusals = Refusals {
        lines: &*lines,
        world: &*world,
        calls,
    };
    tell_in_memory(rt, heap, refusals)
}

/// How many calls of the store a desk makes for these requests. Each of them is refused, in runs of
/// their own, until a run meets no refusal.
fn calls_for(rt: &(impl Abort + AllocGlobal), lines: &[&str]) -> u64 {
    let heap = Refusing::new(rt.alloc());
    let world = world_after(rt, &heap, lines);
    for calls in 0..MANY {
        match refusals_in(rt, &heap, lines, &world, calls) {
            0 => return calls,
            count => assert!(rt; count == 1),
        }
    }
    MANY
}

/// Requests, and how many calls they make: one to open the desk, one for each change of a plan or of the
/// records, and one for each read of paths.
const CASES: &[(&[&[&str]], u64)] = &[
    (&[WORLD, FIRST_PLAN], 10),
    (&[WORLD, FIRST_PLAN, ALIAS_PUT_ANEW], 14),
    (&[WORLD, FIRST_PLAN, SECOND_PLAN, NODE_ZONED], 14),
    (&[WORLD, FIRST_PLAN, UNMAPPED, VOLUME_GONE], 13),
    (
        &[WORLD, FIRST_PLAN, UNMAPPED, ROLLED_BACK, FIRST_UNDONE],
        15,
    ),
];

#[test]
fn each_call_is_refused(rt: HostRuntime) {
    for (lists, calls) in CASES {
        let lines = lines_of(&rt, lists);
        assert_eq!(rt; calls_for(&rt, lines.as_slice()), *calls);
    }
}
