//! Who reaches a volume, as texts.
ghost use Rattle.fab_files_looks.specs.Reachers.{both_text, cell, counts_header, counts_text, groups_header, head_text, names_header, names_text, next_text, reacher_data, reacher_line, reacher_lines, reachers_header, reachers_json, reachers_text, rest_text, unit_text};
ghost use Rattle.fab_wire_streams.specs.Taking.{Takes};

use crate::pieces::{Piece, Pieces};
use fab_files_base::{NAME_WIDTH, Printable, spaces_beside};
use fab_looks::Counts;
use fab_looks_ways::Reacher;
use fab_names::Name;
use fab_wire_streams::object;
use fab_wire_streams::sink::{Sink, put_all};
use fab_wire_streams::streams::WriteFailed;
use fab_wire_streams::structures::Array;
use fab_wire_streams::values::Json;
use itoa::Buffer;
use std::alloc::Allocator;

/// A host, its counts, and what offers it the volume, in a list.
impl<A: Allocator + Copy> Piece for Reacher<A> {
    ghost piece_data = { reacher_data };

    fn put_piece<S: Sink>(&self, sink: &mut S) -> Result<(), WriteFailed> {
        object! {
            "a": self.counts.a as u64,
            "b": self.counts.b as u64,
            "groups": Array(self.groups.as_slice()),
            "host": self.host,
            "tenant": self.tenant,
            "units": Array(self.units.as_slice())
        }
        .put(sink)
    }
}

/// Who reaches a volume as JSON: an array, and a line feed.
#[derive(Clone, Copy)]
pub struct ReachersJson<'r, A: Allocator + Copy>(pub &'r [Reacher<A>]);

impl<A: Allocator + Copy> Printable for ReachersJson<'_, A> {
    ghost text = { λ r. reachers_json r.0.now };

    fn put<S: Sink>(&self, sink: &mut S) -> Result<(), WriteFailed> {
        let Ok(()) = Pieces(self.0).put(sink) else {
            return Err(WriteFailed);
        };
        sink.take(b"\n")
    }
}

/// Who reaches a volume as columns: the line of their names, and a line for each host.
#[derive(Clone, Copy)]
pub struct ReachersText<'r, A: Allocator + Copy>(pub &'r [Reacher<A>]);

impl<A: Allocator + Copy> Printable for ReachersText<'_, A> {
    ghost text = { λ r. reachers_text r.0.now };

    fn put<S: Sink>(&self, sink: &mut S) -> Result<(), WriteFailed> {
        let Ok(()) = put_header(sink) else {
            return Err(WriteFailed);
        };
        put_reachers(sink, self.0)
    }
}

/// Puts a text at the left of its column, and a space.
fn put_cell<S: Sink>(sink: &mut S, text: &[u8]) -> Result<(), WriteFailed>
    ensures { Takes S.took S.cut sink.old (cell text.now) sink.new result }
{
    let Ok(()) = sink.take(text) else {
        return Err(WriteFailed);
    };
    let Ok(()) = sink.take(spaces_beside(text, NAME_WIDTH)) else {
        return Err(WriteFailed);
    };
    sink.take(b" ")
}

/// Puts a host, its tenant, and a logical unit number in words.
fn put_names<S: Sink>(
    sink: &mut S,
    host: &[u8],
    tenant: &[u8],
    unit: &[u8],
) -> Result<(), WriteFailed>
    ensures { Takes S.took S.cut sink.old (head_text host.now tenant.now unit.now) sink.new result }
{
    let Ok(()) = put_cell(sink, host) else {
        return Err(WriteFailed);
    };
    let Ok(()) = put_cell(sink, tenant) else {
        return Err(WriteFailed);
    };
    put_cell(sink, unit)
}

/// Puts two counts.
fn put_both<S: Sink>(sink: &mut S, a: &[u8], b: &[u8]) -> Result<(), WriteFailed>
    ensures { Takes S.took S.cut sink.old (counts_text a.now b.now) sink.new result }
{
    let Ok(()) = put_cell(sink, a) else {
        return Err(WriteFailed);
    };
    put_cell(sink, b)
}

/// Puts the line of the columns' names.
fn put_header<S: Sink>(sink: &mut S) -> Result<(), WriteFailed>
    ensures { Takes S.took S.cut sink.old reachers_header sink.new result }
{
    let Ok(()) = put_names_header(sink) else {
        return Err(WriteFailed);
    };
    let Ok(()) = put_counts_header(sink) else {
        return Err(WriteFailed);
    };
    put_groups_header(sink)
}

/// Puts the names of the columns of the host, its tenant and its logical unit number.
#[tactic(auto, unfolding(crate::specs::Reachers::names_header))]
fn put_names_header<S: Sink>(sink: &mut S) -> Result<(), WriteFailed>
    ensures { Takes S.took S.cut sink.old names_header sink.new result }
{
    put_names(sink, b"HOST", b"TENANT", b"UNIT")
}

/// Puts the names of the columns of counts.
#[tactic(auto, unfolding(crate::specs::Reachers::counts_header))]
fn put_counts_header<S: Sink>(sink: &mut S) -> Result<(), WriteFailed>
    ensures { Takes S.took S.cut sink.old counts_header sink.new result }
{
    put_both(sink, b"A", b"B")
}

/// Puts the name of the column of storage groups.
#[tactic(auto, unfolding(crate::specs::Reachers::groups_header))]
fn put_groups_header<S: Sink>(sink: &mut S) -> Result<(), WriteFailed>
    ensures { Takes S.took S.cut sink.old groups_header sink.new result }
{
    sink.take(b"GROUPS\n")
}

/// Puts a line for each host.
fn put_reachers<S: Sink, A: Allocator + Copy>(
    sink: &mut S,
    reachers: &[Reacher<A>],
) -> Result<(), WriteFailed>
    ensures { Takes S.took S.cut sink.old (reacher_lines reachers.now) sink.new result }
{
    for reacher in reachers {
        let Ok(()) = put_reacher(sink, reacher) else {
            return Err(WriteFailed);
        };
    }
    Ok(())
}

/// Puts the line of a host.
fn put_reacher<S: Sink, A: Allocator + Copy>(
    sink: &mut S,
    reacher: &Reacher<A>,
) -> Result<(), WriteFailed>
    ensures { Takes S.took S.cut sink.old (reacher_line reacher.now) sink.new result }
{
    let units = reacher.units.as_slice();
    let Ok(()) = put_head(sink, &reacher.host, &reacher.tenant, units) else {
        return Err(WriteFailed);
    };
    let Ok(()) = put_counts(sink, reacher.counts) else {
        return Err(WriteFailed);
    };
    let Ok(()) = put_list(sink, reacher.groups.as_slice()) else {
        return Err(WriteFailed);
    };
    sink.take(b"\n")
}

/// Puts a host, its tenant, and its logical unit number: `-` where none is told, and `several` where
/// there are.
fn put_head<S: Sink>(
    sink: &mut S,
    host: &Name,
    tenant: &Name,
    units: &[u16],
) -> Result<(), WriteFailed>
    ensures { Takes S.took S.cut sink.old (head_text host.now tenant.now (unit_text units.now)) sink.new result }
{
    let (host, tenant) = (host.as_bytes(), tenant.as_bytes());
    match units {
        [] => put_names(sink, host, tenant, b"-"),
        [unit] => put_names(sink, host, tenant, Buffer::new().format(*unit).as_bytes()),
        [_, _, ..] => put_names(sink, host, tenant, b"several"),
    }
}

/// Puts how many paths there are at each fabric.
fn put_counts<S: Sink>(sink: &mut S, counts: Counts) -> Result<(), WriteFailed>
    ensures { Takes S.took S.cut sink.old (both_text counts) sink.new result }
{
    put_both(
        sink,
        Buffer::new().format(counts.a).as_bytes(),
        Buffer::new().format(counts.b).as_bytes(),
    )
}

/// Puts names with commas between, or `-` where there is none.
fn put_list<S: Sink>(sink: &mut S, names: &[Name]) -> Result<(), WriteFailed>
    ensures { Takes S.took S.cut sink.old (names_text names.now) sink.new result }
{
    let [first, rest @ ..] = names else {
        return sink.take(b"-");
    };
    let Ok(()) = sink.take(first.as_bytes()) else {
        return Err(WriteFailed);
    };
    put_rest(sink, rest)
}

/// Puts names, each behind a comma.
fn put_rest<S: Sink>(sink: &mut S, names: &[Name]) -> Result<(), WriteFailed>
    ensures { Takes S.took S.cut sink.old (rest_text names.now) sink.new result }
{
    for name in names {
        let Ok(()) = put_next(sink, name) else {
            return Err(WriteFailed);
        };
    }
    Ok(())
}

/// Puts a name behind a comma.
fn put_next<S: Sink>(sink: &mut S, name: &Name) -> Result<(), WriteFailed>
    ensures { Takes S.took S.cut sink.old (next_text name.now) sink.new result }
{
    let texts = [b",".as_slice(), name.as_bytes()];
    put_all(sink, &texts)
}
