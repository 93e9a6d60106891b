//! A stop at each call of a disk, while requests are answered or tables of schema 1 are brought to the
//! present one. What is left is opened again: it has the rows after the requests that were answered, or
//! after them and the one in progress, and a desk over it answers the rest; or it is of one schema or the
//! other whole.

use crate::disks::{Disks, Failing, fused, have_served, new_files, stop};
use crate::files::{Work, run};
use crate::worlds::{Tale, lines_of, worlds_after};
use fab_test_alloc::Refusing;
use fab_test_wire::rows::{
    ALIAS_PUT_ANEW, FIRST_PLAN, NODE_ZONED, SECOND_PLAN, UNMAPPED, VOLUME_GONE, WORLD,
};
use sqlite::Files;
use sqlite_disk::Crash;
use std::alloc::Allocator;
use std::process::Abort;

/// More calls than a run makes.
const MOST: u64 = 1000;

/// What is stopped.
#[derive(Clone, Copy)]
enum Story {
    /// A desk that answers the requests.
    Requests,
    /// A migration of the tables of schema 1 after them.
    Migration,
}

/// What is done first, and what it comes to where nothing stops it, of so many requests.
fn whole(story: Story, requests: usize) -> (Work, usize) {
    match story {
        Story::Requests => (Work::Play, requests),
        Story::Migration => (Work::Migrate, 1),
    }
}

/// What is looked for after it came to this.
fn look(story: Story, count: usize) -> Work {
    match story {
        Story::Requests => Work::Look(count),
        Story::Migration => Work::LookMigrated(count),
    }
}

/// Whether the story over the files meets no stop. What it leaves is opened again, and looked at.
fn is_whole<A: Allocator + Copy, D: Crash + Drop>(
    rt: &(impl Abort + AllocGlobal),
    heap: A,
    files: Files<D>,
    tale: Tale<'_, A>,
    story: Story,
) -> bool {
    let (work, most) = whole(story, tale.lines.len());
    let (count, mut files) = run(rt, heap, files, tale, work);
    let served = have_served(&mut files);
    assert!(rt; !served || count == Some(most));
    stop(&mut files);
    let (found, _files) = run(rt, heap, files, tale, look(story, count.unwrap_or(0)));
    assert!(rt; found.is_some());
    served
}

/// The files that the story begins with.
fn begun<A: Allocator + Copy>(
    rt: &(impl Abort + AllocGlobal),
    heap: A,
    tale: Tale<'_, A>,
    story: Story,
) -> Disks {
    let files = new_files(rt.alloc());
    match story {
        Story::Requests => files,
        Story::Migration => {
            let (count, files) = run(rt, heap, files, tale, Work::PlayEarlier);
            assert!(rt; count == Some(tale.lines.len()));
            files
        }
    }
}

/// Stops the story at each call of the disk that fails, until a run meets no stop.
fn stop_each<A: Allocator + Copy>(
    rt: &(impl Abort + AllocGlobal),
    heap: A,
    tale: Tale<'_, A>,
    story: Story,
    failing: Failing,
) {
    let begun = begun(rt, heap, tale, story);
    for calls in 0..MOST {
        let files = fused(rt, rt.alloc(), &begun, failing, calls);
        if is_whole(rt, heap, files, tale, story) {
            return;
        }
    }
    panic!(rt; "no end");
}

/// Stops the story of the lists at each call of either disk.
fn stop_all(rt: &(impl Abort + AllocGlobal), lists: &[&[&'static str]], story: Story) {
    let heap = Refusing::new(rt.alloc());
    let lines = lines_of(rt, lists);
    let worlds = worlds_after(rt, &heap, lines.as_slice());
    let tale = Tale {
        lines: lines.as_slice(),
        worlds: worlds.as_slice(),
    };
    stop_each(rt, &heap, tale, story, Failing::Log);
    stop_each(rt, &heap, tale, story, Failing::Database);
}

/// The requests up to the end of rows 5, 6, 9 and 15.
const ROWS: &[&[&[&str]]] = &[
    &[WORLD, FIRST_PLAN],
    &[WORLD, FIRST_PLAN, ALIAS_PUT_ANEW],
    &[WORLD, FIRST_PLAN, SECOND_PLAN, NODE_ZONED],
    &[WORLD, FIRST_PLAN, UNMAPPED, VOLUME_GONE],
];

#[test]
fn stopped_then_served(rt: HostRuntime) {
    for row in ROWS {
        stop_all(&rt, row, Story::Requests);
    }
}

#[test]
fn a_migration_stopped_at_each_call(rt: HostRuntime) {
    stop_all(&rt, &[WORLD, FIRST_PLAN], Story::Migration);
}
