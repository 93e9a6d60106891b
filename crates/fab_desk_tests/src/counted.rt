//! How many pairs of ports a desk asks about for a request.

use crate::answers::{Came, ask_each, ask_line};
use crate::desks::{Asked, opened};
use crate::tables::{Story, tell_in_memory};
use fab_store::{RefusingStore, Store};
use fab_test_alloc::Refusing;
use fab_test_wire::rows::{
    ADDRESS_CHANGED, ADDRESS_TOLD, ALIAS_PUT_ANEW, ANOTHER_CAUSE, DEFAULT_ZONE, FIRST_ACTIVATED,
    FIRST_STAGED, NO_PORTS, PORTS_AGAIN, SECOND_PLAN, UNIT_CLASH, WORLD,
};
use std::alloc::Allocator;
use std::process::Abort;

/// Requests, and how many pairs a desk asks about for each, and how many it affects.
type Part = (&'static [&'static str], &'static [(u64, u64)]);

/// The first plan.
const FIRST: Part = (&[FIRST_STAGED, FIRST_ACTIVATED], &[(0, 0), (1, 4)]);

/// Stories of the worked world.
const STORIES: &[&[Part]] = &[
    // What is active is a copy, until it is activated again.
    &[FIRST, (ALIAS_PUT_ANEW, &[(0, 0), (0, 0), (0, 0), (1, 6)])],
    // Zones overlap, and one of them is enough.
    &[FIRST, (ANOTHER_CAUSE, &[(0, 0), (1, 4), (0, 0), (1, 4)])],
    // A port that is in a zone is not in the default zone.
    &[FIRST, (DEFAULT_ZONE, &[(0, 0), (1, 6), (0, 0), (2, 2)])],
    // A place stands for all ports that are logged in there; and an equal port list.
    &[
        FIRST,
        (SECOND_PLAN, &[(0, 0), (3, 5)]),
        (&[PORTS_AGAIN], &[(0, 0)]),
    ],
    // Another volume at the host's unit, by another group, which is refused beside the first.
    &[FIRST, (UNIT_CLASH, &[(0, 0), (0, 0), (0, 0), (1, 1)])],
    &[FIRST, (&[NO_PORTS], &[(1, 6)])],
    // The initiator of a zone is told by its address, which port lists tell, tell again in another way,
    // change and leave out; then the zone is as it was.
    &[
        FIRST,
        (ADDRESS_TOLD, &[(1, 2), (0, 0), (0, 0), (0, 0)]),
        (ADDRESS_CHANGED, &[(1, 2), (1, 2), (0, 0), (1, 2)]),
    ],
];

/// For each of the requests the desk asks about as many pairs as it says.
fn count_each<A: Allocator + Copy, S, D: Asked<A, S>>(
    rt: &(impl Abort + AllocGlobal),
    desk: &mut D,
    part: Part,
) {
    for (line, count) in part.0.iter().zip(part.1) {
        let before = desk.pairs_asked();
        let came = ask_line(rt, desk, line);
        let asked = desk.pairs_asked().saturating_sub(before);
        assert!(rt; matches!(came, Came::Told) && asked == count.0 && asked <= count.1);
    }
}

/// The same of each part of a story, in the worked world.
fn count_all<A: Allocator + Copy, S: Store<A>, D: Asked<A, S>>(
    rt: &(impl Abort + AllocGlobal),
    desk: D,
    parts: &[Part],
) {
    let mut desk = desk;
    ask_each(rt, &mut desk, WORLD);
    for part in parts {
        assert_eq!(rt; part.0.len(), part.1.len());
        count_each(rt, &mut desk, *part);
    }
}

/// A story, told to a new desk.
#[derive(Clone, Copy)]
struct Counted {
    parts: &'static [Part],
}

impl<A: Allocator + Copy> Story<A> for Counted {
    type Told = ();

    fn tell<R: Abort + AllocGlobal, S: Store<A>, D: Asked<A, S>>(self, rt: &R, heap: A, store: S) {
        let desk: D = opened(rt, heap, RefusingStore::new(store, u64::MAX));
        count_all(rt, desk, self.parts);
    }
}

#[test]
fn meter_bounds(rt: HostRuntime) {
    let heap = Refusing::new(rt.alloc());
    for parts in STORIES {
        tell_in_memory(&rt, &heap, Counted { parts: *parts });
    }
}
