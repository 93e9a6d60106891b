//! A desk that is asked until its store refuses a call.

use crate::answers::{Came, ask_line};
use crate::desks::{Asked, closed, open};
use fab_store::{OpenFault, RefusingStore, Store};
use std::alloc::Allocator;
use std::process::Abort;

/// How many of these the desk answers as recorded, before one for which its store refuses a call.
fn answered<A: Allocator + Copy, S, D: Asked<A, S>>(
    rt: &(impl Abort + AllocGlobal),
    desk: &mut D,
    lines: &[&str],
) -> usize {
    for (place, line) in lines.iter().enumerate() {
        match ask_line(rt, desk, line) {
            Came::Told => {}
            Came::Refused => return place,
            Came::Memory => panic!(rt; "memory"),
        }
    }
    lines.len()
}

/// The same, with the store of the desk, which ends.
fn played<A: Allocator + Copy, S, D: Asked<A, S>>(
    rt: &(impl Abort + AllocGlobal),
    desk: D,
    lines: &[&str],
) -> (usize, RefusingStore<S>) {
    let mut desk = desk;
    let count = answered(rt, &mut desk, lines);
    (count, closed(rt, desk))
}

/// The same of a desk over this store. It is none where the store can not be read.
fn played_over<A: Allocator + Copy, S: Drop, D: Asked<A, S>>(
    rt: &(impl Abort + AllocGlobal),
    opened: Result<D, (OpenFault, RefusingStore<S>)>,
    lines: &[&str],
) -> (usize, RefusingStore<S>) {
    match opened {
        Ok(desk) => played(rt, desk, lines),
        Err((OpenFault::Store, store)) => (0, store),
        Err(_) => panic!(rt; "open"),
    }
}

/// How many of these a desk of this type over the tables answers as recorded, before one for which they refuse
/// a call, with the tables. It is none where they can not be read.
pub fn play<A: Allocator + Copy, S: Store<A>, D: Asked<A, S>>(
    rt: &(impl Abort + AllocGlobal),
    heap: A,
    tables: S,
    lines: &[&str],
) -> (usize, S) {
    let opened: Result<D, _> = open(rt, heap, RefusingStore::new(tables, u64::MAX));
    let (count, store) = played_over(rt, opened, lines);
    (count, store.into_inner())
}
