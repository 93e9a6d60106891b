//! Two memory disks, one of which fails after so many calls.

use sqlite::Files;
use sqlite_disk::{Crash, Disk, Fuse, Memory};
use std::alloc::Global;
use std::process::Abort;

/// The disk that fails.
#[derive(Clone, Copy)]
pub enum Failing {
    /// That of the database file.
    Database,
    /// That of the log.
    Log,
}

impl Failing {
    /// After how many calls the disk of the database file fails, where one does after so many.
    fn calls_of_database(self, calls: u64) -> u64 {
        match self {
            Failing::Database => calls,
            Failing::Log => u64::MAX,
        }
    }

    /// After how many calls that of the log fails.
    fn calls_of_log(self, calls: u64) -> u64 {
        match self {
            Failing::Database => u64::MAX,
            Failing::Log => calls,
        }
    }
}

/// The two disks.
pub type Disks = Files<Fuse<Memory>>;

/// New files, of which none fails.
pub fn new_files(alloc: Global) -> Disks {
    Files {
        log: Fuse::new(Memory::new(alloc), u64::MAX),
        db: Fuse::new(Memory::new(alloc), u64::MAX),
    }
}

/// Whether the disk takes these bytes.
fn is_written<D: Disk>(disk: &mut D, bytes: &[u8]) -> bool {
    disk.may_be_used() && disk.write_at(0, bytes).is_ok()
}

/// Whether the disk keeps what it has.
fn is_synced<D: Disk>(disk: &mut D) -> bool {
    disk.may_be_used() && disk.sync().is_ok()
}

/// A disk with the bytes of this one, which fails after so many calls.
fn copied(rt: &impl Abort, alloc: Global, disk: &Fuse<Memory>, calls: u64) -> Fuse<Memory> {
    let mut copy = Memory::new(alloc);
    assert!(rt; is_written(&mut copy, disk.inner().bytes()) && is_synced(&mut copy));
    Fuse::new(copy, calls)
}

/// Files with the bytes of these, of which one fails after so many calls.
pub fn fused(rt: &impl Abort, alloc: Global, files: &Disks, failing: Failing, calls: u64) -> Disks {
    let log = copied(rt, alloc, &files.log, failing.calls_of_log(calls));
    let db = copied(rt, alloc, &files.db, failing.calls_of_database(calls));
    Files { log, db }
}

/// Whether the disk takes one call more.
fn takes_one<D: Disk>(disk: &mut D) -> bool {
    disk.may_be_used() && disk.len().is_ok()
}

/// Whether neither disk has failed.
pub fn have_served<D: Disk>(files: &mut Files<D>) -> bool {
    takes_one(&mut files.log) && takes_one(&mut files.db)
}

/// The machine stops: what was not synced is lost, and neither disk fails any more.
pub fn stop<D: Crash>(files: &mut Files<D>) {
    files.log.crash();
    files.db.crash();
}
