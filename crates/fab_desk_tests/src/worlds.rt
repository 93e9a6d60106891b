//! The world that tables have, and that of tables in memory whose desk was asked the same, and answered as
//! recorded.

use crate::answers::ask_each;
use crate::desks::{Asked, closed, opened};
use crate::tables::{Story, load, tell_in_memory};
use fab_store::{RefusingStore, Store};
use fab_test_alloc::Refusing;
use fab_test_wire::rows::{FIRST_PLAN, FIRST_UNDONE, ROLLED_BACK, UNMAPPED, WORLD};
use fab_test_world::is_same;
use fab_world::World;
use std::alloc::Allocator;
use std::process::Abort;

/// The world of the tables.
pub fn world_of<A: Allocator + Copy, S: Store<A>>(
    rt: &impl Abort,
    heap: A,
    tables: &mut S,
) -> World<A> {
    match load(heap, tables) {
        Ok(world) => world,
        Err(_) => panic!(rt; "no world"),
    }
}

/// Whether two worlds are the same.
pub fn are_same<A: Allocator + Copy>(
    rt: &impl Abort,
    heap: A,
    one: &World<A>,
    other: &World<A>,
) -> bool {
    is_same(heap, one, other).expect(rt, "memory")
}

/// Whether the tables have this world.
pub fn is_world_of<A: Allocator + Copy, S: Store<A>>(
    rt: &impl Abort,
    heap: A,
    tables: &mut S,
    world: &World<A>,
) -> bool {
    are_same(rt, heap, world, &world_of(rt, heap, tables))
}

/// A desk answers these requests as recorded: the world of its tables.
#[derive(Clone, Copy)]
struct Answered<'t> {
    lines: &'t [&'t str],
}

/// The store of the desk, which has answered these.
pub fn store_after<A: Allocator + Copy, S, D: Asked<A, S>>(
    rt: &(impl Abort + AllocGlobal),
    desk: D,
    lines: &[&str],
) -> RefusingStore<S> {
    let mut desk = desk;
    ask_each(rt, &mut desk, lines);
    closed(rt, desk)
}

impl<A: Allocator + Copy> Story<A> for Answered<'_> {
    type Told = World<A>;

    fn tell<R: Abort + AllocGlobal, S: Store<A>, D: Asked<A, S>>(
        self,
        rt: &R,
        heap: A,
        store: S,
    ) -> World<A> {
        let desk: D = opened(rt, heap, RefusingStore::new(store, u64::MAX));
        let mut store = store_after(rt, desk, self.lines);
        world_of(rt, heap, &mut store)
    }
}

/// The world of a desk that has answered these as recorded.
pub fn world_after<A: Allocator + Copy>(
    rt: &(impl Abort + AllocGlobal),
    heap: A,
    lines: &[&str],
) -> World<A> {
    tell_in_memory(rt, heap, Answered { lines })
}

/// The world of a new desk, and that after each of these requests.
pub fn worlds_after<A: Allocator + Copy>(
    rt: &(impl Abort + AllocGlobal),
    heap: A,
    lines: &[&str],
) -> Vec<World<A>> {
    let mut worlds = Vec::new(rt.alloc());
    for count in 0..=lines.len() {
        let world = world_after(rt, heap, lines.get(..count).unwrap_or(lines));
        worlds.push(world).expect(rt, "memory");
    }
    worlds
}

/// The requests of the lists, one after the other.
pub fn lines_of(rt: &(impl Abort + AllocGlobal), lists: &[&[&'static str]]) -> Vec<&'static str> {
    let mut lines = Vec::new(rt.alloc());
    for list in lists {
        lines.extend_from_slice(list).expect(rt, "memory");
    }
    lines
}

/// Requests, and the world of a new desk and that after each of them.
#[derive(Clone, Copy)]
pub struct Tale<'t, A: Allocator + Copy> {
    pub lines: &'t [&'t str],
    pub worlds: &'t [World<A>],
}

impl<'t, A: Allocator + Copy> Tale<'t, A> {
    /// The world after so many requests.
    pub fn world(self, rt: &impl Abort, count: usize) -> &'t World<A> {
        self.worlds.get(count).expect(rt, "a world")
    }
}

/// Whether a line of a table tells a change that is done.
fn is_change(line: &str) -> bool {
    !line.contains(" GET ") && line.contains(" -> 200 OK: ")
}

/// The place of the first change after which the world is the same, or of the first other request after which
/// it is another.
fn first_other<A: Allocator + Copy>(rt: &impl Abort, heap: A, tale: Tale<'_, A>) -> Option<usize> {
    for (place, line) in tale.lines.iter().enumerate() {
        let after = tale.world(rt, place.saturating_add(1));
        if are_same(rt, heap, tale.world(rt, place), after) == is_change(line) {
            return Some(place);
        }
    }
    None
}

/// Whether each change of the lists makes another world, and no other request does.
fn are_told_apart(rt: &(impl Abort + AllocGlobal), lists: &[&[&'static str]]) -> bool {
    let heap = Refusing::new(rt.alloc());
    let lines = lines_of(rt, lists);
    let worlds = worlds_after(rt, &heap, lines.as_slice());
    let tale = Tale {
        lines: lines.as_slice(),
        worlds: worlds.as_slice(),
    };
    first_other(rt, &heap, tale).is_none()
}

#[test]
fn each_change_makes_another_world(rt: HostRuntime) {
    assert!(rt;
        are_told_apart(
            &rt,
            &[WORLD, FIRST_PLAN, UNMAPPED, ROLLED_BACK, FIRST_UNDONE]
        )
    );
}
