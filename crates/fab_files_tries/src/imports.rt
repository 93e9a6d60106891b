//! What an import would do, as texts.
ghost use Rattle.std.specs.Prelude.{◌≡◌};
ghost use Rattle.fab_files_tries.specs.Imports as imports;
ghost use Rattle.fab_files_tries.specs.Imports.{import_json, import_text, import_data};
ghost use Rattle.fab_wire_streams.specs.JsonText.{json_text};
ghost use Rattle.fab_wire_streams.specs.Taking.{Takes};

use crate::names::{hosts_word, put_hosts};
use fab_files_base::Printable;
use fab_looks_tries::{PathsMoved, TriedImport};
use fab_wire_streams::object;
use fab_wire_streams::sink::{Sink, put_all};
use fab_wire_streams::streams::WriteFailed;
use fab_wire_streams::structures::Array;
use fab_wire_streams::values::Json;
use itoa::Buffer;
use std::alloc::Allocator;

/// Whether more paths are lost than may be; without a number, as many as there are may be.
pub fn is_over(lost: usize, most: Option<u64>) -> bool
    ensures { result ≡ imports.is_over lost most }
{
    match most {
        Some(most) => lost as u64 > most,
        None => false,
    }
}

/// What an import would do, in words: a line for ports, one for paths and hosts, and one more where more
/// paths are lost than may be.
#[derive(Clone, Copy)]
pub struct ImportText<'t, A: Allocator + Copy> {
    /// What the import would do.
    pub tried: &'t TriedImport<A>,
    /// How many paths may be lost; without it, as many as there are.
    pub most_lost: Option<u64>,
}

impl<A: Allocator + Copy> Printable for ImportText<'_, A> {
    ghost text = { λ t. import_text t.tried.now t.most_lost };

    fn put<S: Sink>(&self, sink: &mut S) -> Result<(), WriteFailed> {
        let Ok(()) = put_ports(sink, self.tried) else {
            return Err(WriteFailed);
        };
        let Ok(()) = put_paths(sink, &self.tried.paths) else {
            return Err(WriteFailed);
        };
        put_guard(sink, self.tried.paths.lost, self.most_lost)
    }
}

/// Puts the line of the ports.
fn put_ports<S: Sink, A: Allocator + Copy>(
    sink: &mut S,
    tried: &TriedImport<A>,
) -> Result<(), WriteFailed>
    ensures { Takes S.took S.cut sink.old (imports.ports_line tried.now) sink.new result }
{
    let mut listed = Buffer::new();
    let mut new = Buffer::new();
    let mut moved = Buffer::new();
    let mut logged_out = Buffer::new();
    let texts = [
        b"ports: ".as_slice(),
        listed.format(tried.listed).as_bytes(),
        b" listed, ".as_slice(),
        new.format(tried.ports.new.as_slice().len()).as_bytes(),
        b" new, ".as_slice(),
        moved.format(tried.ports.moved.as_slice().len()).as_bytes(),
        b" moved, ".as_slice(),
        logged_out
            .format(tried.ports.logged_out.as_slice().len())
            .as_bytes(),
        b" logged out\n".as_slice(),
    ];
    put_all(sink, &texts)
}

/// Puts how many paths are gained and lost, and how many hosts lose some.
fn put_counts<S: Sink, A: Allocator + Copy>(
    sink: &mut S,
    paths: &PathsMoved<A>,
) -> Result<(), WriteFailed>
    ensures { Takes S.took S.cut sink.old (imports.counts_text paths.now) sink.new result }
{
    let mut gained = Buffer::new();
    let mut lost = Buffer::new();
    let mut hosts = Buffer::new();
    let all = paths.hosts.all.as_slice();
    let texts = [
        b"paths: ".as_slice(),
        gained.format(paths.gained).as_bytes(),
        b" gained, ".as_slice(),
        lost.format(paths.lost).as_bytes(),
        b" lost (".as_slice(),
        hosts.format(all.len()).as_bytes(),
        hosts_word(all.len()).as_bytes(),
        b"); over A alone or B alone afterwards:".as_slice(),
    ];
    put_all(sink, &texts)
}

/// Puts the hosts that have no path afterwards, and ends the line.
fn put_without<S: Sink, A: Allocator + Copy>(
    sink: &mut S,
    paths: &PathsMoved<A>,
) -> Result<(), WriteFailed>
    ensures { Takes S.took S.cut sink.old (imports.without_text paths.now) sink.new result }
{
    let Ok(()) = sink.take(b"; without a path afterwards:") else {
        return Err(WriteFailed);
    };
    let Ok(()) = put_hosts(sink, &paths.hosts.without) else {
        return Err(WriteFailed);
    };
    sink.take(b"\n")
}

/// Puts the line of the paths and the hosts.
fn put_paths<S: Sink, A: Allocator + Copy>(
    sink: &mut S,
    paths: &PathsMoved<A>,
) -> Result<(), WriteFailed>
    ensures { Takes S.took S.cut sink.old (imports.paths_line paths.now) sink.new result }
{
    let Ok(()) = put_counts(sink, paths) else {
        return Err(WriteFailed);
    };
    let Ok(()) = put_hosts(sink, &paths.hosts.on_one) else {
        return Err(WriteFailed);
    };
    put_without(sink, paths)
}

/// Puts that more paths are lost than may be.
fn put_refused<S: Sink>(sink: &mut S, lost: usize, most: u64) -> Result<(), WriteFailed>
    ensures { Takes S.took S.cut sink.old (imports.refused_line lost most) sink.new result }
{
    let mut lost_digits = Buffer::new();
    let mut most_digits = Buffer::new();
    let texts = [
        b"refused: ".as_slice(),
        lost_digits.format(lost).as_bytes(),
        b" > ".as_slice(),
        most_digits.format(most).as_bytes(),
        b"\n".as_slice(),
    ];
    put_all(sink, &texts)
}

/// Puts that more paths are lost than may be, where it is so.
fn put_guard<S: Sink>(sink: &mut S, lost: usize, most: Option<u64>) -> Result<(), WriteFailed>
    ensures { Takes S.took S.cut sink.old (imports.guard_text lost most) sink.new result }
{
    let Some(most) = most else {
        return sink.take(b"");
    };
    if lost as u64 > most {
        put_refused(sink, lost, most)
    } else {
        sink.take(b"")
    }
}

/// What an import would do, as JSON: an object, and a line feed.
#[derive(Clone, Copy)]
pub struct ImportJson<'t, A: Allocator + Copy> {
    /// What the import would do.
    pub tried: &'t TriedImport<A>,
    /// How many paths may be lost; without it, as many as there are.
    pub most_lost: Option<u64>,
}

impl<A: Allocator + Copy> Printable for ImportJson<'_, A> {
    ghost text = { λ t. import_json t.tried.now t.most_lost };

    fn put<S: Sink>(&self, sink: &mut S) -> Result<(), WriteFailed> {
        let refused = is_over(self.tried.paths.lost, self.most_lost);
        let Ok(()) = put_object(sink, self.tried, refused) else {
            return Err(WriteFailed);
        };
        sink.take(b"\n")
    }
}

/// Puts the object of an import.
fn put_object<S: Sink, A: Allocator + Copy>(
    sink: &mut S,
    tried: &TriedImport<A>,
    refused: bool,
) -> Result<(), WriteFailed>
    ensures { Takes S.took S.cut sink.old (json_text (import_data tried.now refused)) sink.new result }
{
    let (ports, paths) = (&tried.ports, &tried.paths);
    object! {
        "gained": paths.gained as u64,
        "hosts": Array(paths.hosts.all.as_slice()),
        "listed": tried.listed as u64,
        "logged_out": Array(ports.logged_out.as_slice()),
        "lost": paths.lost as u64,
        "moved": Array(ports.moved.as_slice()),
        "new": Array(ports.new.as_slice()),
        "one_fabric": Array(paths.hosts.on_one.as_slice()),
        "refused": refused,
        "without": Array(paths.hosts.without.as_slice())
    }
    .put(sink)
}
