//! Calls of a desk that take no memory: with the next request refused each tells what it does, and makes
//! none. And the spare configuration, which is left for the steps of the next plan: they copy none.

use crate::answers::{Came, ask_each, ask_line};
use crate::desks::{Asked, opened};
use crate::tables::{Story, tell_in_memory};
use crate::worlds::store_after;
use fab_store::{RefusingStore, Store};
use fab_test_alloc::Refusing;
use std::alloc::{Allocator, Global};
use std::fmt::Write;
use std::process::Abort;

/// Whether the desk tells its callers and that it serves, without memory.
fn is_quiet<A: Allocator + Copy, S, D: Asked<A, S>>(refusing: &Refusing<Global>, desk: D) -> bool {
    refusing.refuse_after(0);
    let knows = desk.knows("t-ada") && desk.knows("t-eve") && !desk.knows("t-fay");
    knows && !desk.is_halted() && !refusing.has_refused()
}

/// Whether a new desk does.
#[derive(Clone, Copy)]
struct Quiet<'t> {
    refusing: &'t Refusing<Global>,
}

impl<A: Allocator + Copy> Story<A> for Quiet<'_> {
    type Told = bool;

    fn tell<R: Abort + AllocGlobal, S: Store<A>, D: Asked<A, S>>(
        self,
        rt: &R,
        heap: A,
        store: S,
    ) -> bool {
        let desk: D = opened(rt, heap, RefusingStore::new(store, u64::MAX));
        is_quiet(self.refusing, desk)
    }
}

#[test]
fn no_memory_calls(rt: HostRuntime) {
    let refusing = Refusing::new(rt.alloc());
    let quiet = Quiet {
        refusing: &refusing,
    };
    assert!(rt; tell_in_memory(&rt, &refusing, quiet));
}

/// How many zones the configuration has. A copy makes a request for memory for each, for its members.
const ZONES: u64 = 64;

/// The plan of the zones is activated.
const ACTIVATED: &str =
    r#"ada POST /plans/p1/activate -> 200 OK: {"gained":[],"lost":[],"plan":"p1","revision":1}"#;

/// A small plan is staged, and tried.
const STAGED: &str = r#"ada PUT /plans/p2 default A permit
 -> 200 OK: {"plan":"p2","steps":1}"#;

const TRIED: &str = r#"ada GET /plans/p2/dryrun -> 200 OK: {"gained":[],"lost":[],"plan":"p2"}"#;

/// A host is put.
const PUT: &str = r#"ada PUT /hosts/db1 {"ports":[],"tenant":"blue"} -> 200 OK: {"revision":2}"#;

/// What a desk is asked behind the plan of the zones, and once it is opened anew, and whether it has no spare then.
const CASES: &[(&[&str], &[&str], bool)] = &[
    (&[STAGED, ACTIVATED], &[], true),
    (&[STAGED, ACTIVATED], &[TRIED], false),
    (&[STAGED, ACTIVATED], &[TRIED, PUT], false),
    (&[STAGED], &[ACTIVATED], false),
    (&[STAGED], &[TRIED, ACTIVATED], false),
];

/// The request that stages a plan of the zones.
fn zones_staged(rt: &(impl Abort + AllocGlobal)) -> String {
    let mut line = String::from_str(rt.alloc(), "ada PUT /plans/p1 ").expect(rt, "memory");
    for number in 0..ZONES {
        write!(line, "zone.put A z{number} dp=1,1\n").expect(rt, "memory");
    }
    write!(line, " -> 200 OK: {{\"plan\":\"p1\",\"steps\":{ZONES}}}").expect(rt, "memory");
    line
}

/// The desk, to which the plan of the zones is staged.
fn with_zones<A: Allocator + Copy, S: Store<A>, D: Asked<A, S>>(
    rt: &(impl Abort + AllocGlobal),
    desk: D,
) -> D {
    let mut desk = desk;
    let came = ask_line(rt, &mut desk, zones_staged(rt).as_str());
    assert!(rt; matches!(came, Came::Told));
    desk
}

/// Whether the desk, asked these, makes more requests for memory than there are zones to try the small plan.
fn is_copied<A: Allocator + Copy, S: Store<A>, D: Asked<A, S>>(
    rt: &(impl Abort + AllocGlobal),
    refusing: &Refusing<Global>,
    desk: D,
    lines: &[&str],
) -> bool {
    let mut desk = desk;
    ask_each(rt, &mut desk, lines);
    refusing.refuse_after(ZONES);
    let _came = ask_line(rt, &mut desk, TRIED);
    let is_copied = refusing.has_refused();
    refusing.refuse_none();
    is_copied
}

/// Whether a desk does that was asked these before it was opened anew.
#[derive(Clone, Copy)]
struct Copied<'t> {
    refusing: &'t Refusing<Global>,
    before: &'t [&'t str],
    behind: &'t [&'t str],
}

impl<A: Allocator + Copy> Story<A> for Copied<'_> {
    type Told = bool;

    fn tell<R: Abort + AllocGlobal, S: Store<A>, D: Asked<A, S>>(
        self,
        rt: &R,
        heap: A,
        store: S,
    ) -> bool {
        let new: D = opened(rt, heap, RefusingStore::new(store, u64::MAX));
        let store = store_after(rt, with_zones(rt, new), self.before);
        let desk: D = opened(rt, heap, store);
        is_copied(rt, self.refusing, desk, self.behind)
    }
}

#[test]
fn a_spare_configuration_is_left(rt: HostRuntime) {
    let refusing = Refusing::new(rt.alloc());
    for (before, behind, is_copied) in CASES {
        let copied = Copied {
            refusing: &refusing,
            before: *before,
            behind: *behind,
        };
        assert!(rt; tell_in_memory(&rt, &refusing, copied) == *is_copied);
    }
}
