//! Each request of the worked rows, with one request for memory refused, the first, then the next.
//!
//! What is answered then is want of memory, or that the store refused a call, and the same request is
//! asked again with the next refusal: of the same desk, or of one that is opened anew over its tables,
//! which have the rows that they had. Where a refusal is survived the answer is the worked one, and the
//! next refusal is tried at a new desk. At last no refusal is met. Changes are also asked for with each
//! request for memory from one on refused: what is ready and committed is taken over without memory.

use crate::answers::{Asking, Came, ask, ask_each, asking_of};
use crate::desks::{Asked, closed, opened};
use crate::tables::{Story, tell_in_memory};
use crate::worlds::{are_same, world_of};
use fab_store::{RefusingStore, Store};
use fab_test_alloc::Refusing;
use fab_test_wire::rows::{
    ALIAS_PUT_ANEW, APPROVALS, FIRST_ACTIVATED, FIRST_PLAN, FIRST_STAGED, NO_PORTS, ROLLED_BACK,
    SECOND_PLAN, UNIT_CLASH, UNMAPPED, VOLUME_GONE, WORLD,
};
use fab_world::World;
use std::alloc::{Allocator, Global};
use std::process::Abort;

/// More requests for memory than a request makes.
const MOST: u64 = 100_000;

/// Whether one request for memory is refused, or each from one on, and whether the desk stays.
#[derive(Clone, Copy)]
enum Way {
    /// One, and the desk stays.
    Stays,
    /// One, and the desk is opened anew.
    Opened,
    /// Each, and the desk stays.
    Bare,
}

/// A request that is tried: what its desk was asked before it, and what becomes of the desk.
#[derive(Clone, Copy)]
struct Case<'t> {
    way: Way,
    lists: &'t [&'t [&'t str]],
    texts: &'t [&'t str],
    asking: &'t Asking,
}

/// What came of a request, of whose requests for memory one was to be refused, or each from one on.
#[derive(Clone, Copy)]
enum Answered {
    /// None was refused: it makes fewer.
    Whole,
    /// One was refused, and that was answered.
    Short,
    /// One was refused, and the answer is the worked one.
    Survived,
}

/// Has the request for memory of this number refused, or each from it on.
fn refuse(refusing: &Refusing<Global>, way: Way, number: u64) {
    match way {
        Way::Stays | Way::Opened => refusing.refuse_after(number),
        Way::Bare => refusing.refuse_all_after(number),
    }
}

/// Serves the request of the case while the request for memory of this number is refused, or each from it on.
fn came<A: Allocator + Copy, S, D: Asked<A, S>>(
    rt: &(impl Abort + AllocGlobal),
    refusing: &Refusing<Global>,
    desk: &mut D,
    case: Case<'_>,
    number: u64,
) -> Answered {
    refuse(refusing, case.way, number);
    let is_ample = matches!(ask(rt, desk, case.asking), Came::Told);
    let is_refused = refusing.has_refused();
    refusing.refuse_none();
    match (is_ample, is_refused) {
        (true, false) => Answered::Whole,
        (true, true) => Answered::Survived,
        (false, true) => Answered::Short,
        (false, false) => panic!(rt; "a want of memory that there is not"),
    }
}

/// The end of a request that makes so many requests for memory: it makes some, for its caller and its
/// target are kept.
fn end_after(rt: &impl Abort, number: u64) -> Option<u64> {
    assert_ne!(rt; number, 0);
    None
}

/// The desk opened again over its store, and the world of its tables.
fn with_world<A: Allocator + Copy, S: Store<A>, D: Asked<A, S>>(
    rt: &(impl Abort + AllocGlobal),
    heap: A,
    desk: D,
) -> (World<A>, D) {
    let mut store = closed(rt, desk);
    let world = world_of(rt, heap, &mut store);
    (world, opened(rt, heap, store))
}

/// The desk opened again over its store. Ends the test where that has other rows than the world.
fn opened_again<A: Allocator + Copy, S: Store<A>, D: Asked<A, S>>(
    rt: &(impl Abort + AllocGlobal),
    heap: A,
    desk: D,
    before: &World<A>,
) -> D {
    let (world, desk) = with_world(rt, heap, desk);
    assert!(rt; are_same(rt, heap, before, &world));
    desk
}

/// Tries the request at the desk, which stays, with each request for memory from this one on refused
/// in turn. The number behind the first refusal that was survived, if any was.
fn kept<A: Allocator + Copy, S, D: Asked<A, S>>(
    rt: &(impl Abort + AllocGlobal),
    refusing: &Refusing<Global>,
    desk: &mut D,
    case: Case<'_>,
    first: u64,
) -> Option<u64> {
    for number in first..MOST {
        match came(rt, refusing, desk, case, number) {
            Answered::Whole => return end_after(rt, number),
            Answered::Survived => return Some(number.saturating_add(1)),
            Answered::Short => {}
        }
    }
    panic!(rt; "no end")
}

/// The same, where the desk is opened anew after each refusal, and its tables have the rows that they
/// had.
fn reopened<A: Allocator + Copy, S: Store<A>, D: Asked<A, S>>(
    rt: &(impl Abort + AllocGlobal),
    heap: A,
    refusing: &Refusing<Global>,
    desk: D,
    case: Case<'_>,
    first: u64,
) -> Option<u64> {
    let (before, mut desk) = with_world(rt, heap, desk);
    for number in first..MOST {
        match came(rt, refusing, &mut desk, case, number) {
            Answered::Whole => return end_after(rt, number),
            Answered::Survived => return Some(number.saturating_add(1)),
            Answered::Short => {}
        }
        desk = opened_again(rt, heap, desk, &before);
    }
    panic!(rt; "no end")
}

/// Asks each of these lists, where there is memory.
fn ask_all<A: Allocator + Copy, S, D: Asked<A, S>>(
    rt: &(impl Abort + AllocGlobal),
    desk: &mut D,
    lists: &[&[&str]],
) {
    for list in lists {
        ask_each(rt, desk, list);
    }
}

/// Tries the request at a new desk, from this refusal on.
fn tried<A: Allocator + Copy, S: Store<A>, D: Asked<A, S>>(
    rt: &(impl Abort + AllocGlobal),
    heap: A,
    refusing: &Refusing<Global>,
    desk: D,
    case: Case<'_>,
    first: u64,
) -> Option<u64> {
    let mut desk = desk;
    ask_all(rt, &mut desk, case.lists);
    ask_each(rt, &mut desk, case.texts);
    match case.way {
        Way::Stays | Way::Bare => kept(rt, refusing, &mut desk, case, first),
        Way::Opened => reopened(rt, heap, refusing, desk, case, first),
    }
}

/// A request is tried from a refusal on.
#[derive(Clone, Copy)]
struct Refused<'t, 'r> {
    case: Case<'t>,
    refusing: &'r Refusing<Global>,
    first: u64,
}

impl<A: Allocator + Copy> Story<A> for Refused<'_, '_> {
    type Told = Option<u64>;

    fn tell<R: Abort + AllocGlobal, S: Store<A>, D: Asked<A, S>>(
        self,
        rt: &R,
        heap: A,
        store: S,
    ) -> Option<u64> {
        let desk: D = opened(rt, heap, RefusingStore::new(store, u64::MAX));
        tried(rt, heap, self.refusing, desk, self.case, self.first)
    }
}

/// Tries the request at a new desk in memory, from this refusal on.
fn tried_anew(rt: &(impl Abort + AllocGlobal), case: Case<'_>, first: u64) -> Option<u64> {
    let refusing = Refusing::new(rt.alloc());
    let refused = Refused {
        case,
        refusing: &refusing,
        first,
    };
    tell_in_memory(rt, &refusing, refused)
}

/// Tries the request with each of its requests for memory refused.
fn try_case(rt: &(impl Abort + AllocGlobal), case: Case<'_>) {
    let mut first = 0;
    for _ in 0..MOST {
        match tried_anew(rt, case, first) {
            None => return,
            Some(next) => first = next,
        }
    }
    panic!(rt; "no end")
}

/// A worked row, and what comes before it.
type Row = (&'static [&'static [&'static str]], &'static [&'static str]);

/// Tries the request of a row that stands at this place in it.
fn try_one(rt: &(impl Abort + AllocGlobal), way: Way, row: &Row, place: usize, text: &str) {
    let asking = asking_of(rt, text);
    let case = Case {
        way,
        lists: row.0,
        texts: row.1.get(..place).unwrap_or(row.1),
        asking: &asking,
    };
    try_case(rt, case);
}

/// Tries each request of a row.
fn try_row(rt: &(impl Abort + AllocGlobal), way: Way, row: &Row) {
    for (place, text) in row.1.iter().enumerate() {
        try_one(rt, way, row, place, text);
    }
}

/// The worked world and the worked rows.
const ROWS: &[Row] = &[
    (&[], WORLD),
    (&[WORLD], FIRST_PLAN),
    (&[WORLD, FIRST_PLAN], ALIAS_PUT_ANEW),
    (&[WORLD, FIRST_PLAN], SECOND_PLAN),
    (&[WORLD], APPROVALS),
    (&[WORLD, FIRST_PLAN], UNIT_CLASH),
    (&[WORLD, FIRST_PLAN, UNMAPPED], VOLUME_GONE),
    (&[WORLD, FIRST_PLAN, UNMAPPED], ROLLED_BACK),
];

/// Requests that change something: imports and puts, an activation, a rollback.
const CHANGES: &[Row] = &[
    (&[], WORLD),
    (&[WORLD, &[FIRST_STAGED]], &[FIRST_ACTIVATED]),
    (&[WORLD, FIRST_PLAN], &[NO_PORTS]),
    (&[WORLD, FIRST_PLAN, UNMAPPED], ROLLED_BACK),
];

/// Tries each request of each row.
fn try_rows(rt: &(impl Abort + AllocGlobal), way: Way, rows: &[Row]) {
    for row in rows {
        try_row(rt, way, row);
    }
}

#[test]
fn refused_growth_desk(rt: HostRuntime) {
    try_rows(&rt, Way::Stays, ROWS);
}

#[test]
fn refused_growth_leaves_tables(rt: HostRuntime) {
    try_rows(&rt, Way::Opened, ROWS);
}

#[test]
fn ready_changes_need_no_memory(rt: HostRuntime) {
    try_rows(&rt, Way::Bare, CHANGES);
}
