//! What the activation of a plan would do, as texts.
ghost use Rattle.std.specs.Prelude.{length};
ghost use Rattle.std.specs.List.{flat_map};
ghost use Rattle.fab_files_tries.specs.Plans as plans;
ghost use Rattle.fab_files_tries.specs.Plans.{plan_data, plan_json, plan_text, row_line, row_data};
ghost use Rattle.serde_json.specs.Written.{comma_if};
ghost use Rattle.fab_wire_streams.specs.JsonText.{json_text};
ghost use Rattle.fab_wire_streams.specs.Pieces.{item_json};
ghost use Rattle.fab_wire_streams.specs.Taking.{Takes};
ghost use Rattle.fab_wire_streams.specs.Values.{list_data};

use crate::names::put_listed;
use crate::rows::{TextForm, put_row};
use fab_files_base::Printable;
use fab_looks_tries::{PathsMoved, TriedPlan};
use fab_store_rows::ConfigRow;
use fab_wire_streams::object;
use fab_wire_streams::sink::{Sink, put_all};
use fab_wire_streams::streams::WriteFailed;
use fab_wire_streams::structures::Array;
use fab_wire_streams::values::Json;
use itoa::Buffer;
use std::alloc::Allocator;

/// What the activation of a plan would do, in words: the revision, a line for each row that it takes and
/// then for each that it adds, and a line for paths and hosts.
#[derive(Clone, Copy)]
pub struct PlanText<'t, A: Allocator + Copy>(pub &'t TriedPlan<A>);

impl<A: Allocator + Copy> Printable for PlanText<'_, A> {
    ghost text = { λ t. plan_text t.0.now };

    fn put<S: Sink>(&self, sink: &mut S) -> Result<(), WriteFailed> {
        let tried = self.0;
        let Ok(()) = put_revision(sink, tried.revision) else {
            return Err(WriteFailed);
        };
        let Ok(()) = put_rows(sink, "- ", &tried.rows.taken) else {
            return Err(WriteFailed);
        };
        let Ok(()) = put_rows(sink, "+ ", &tried.rows.added) else {
            return Err(WriteFailed);
        };
        put_paths(sink, &tried.paths)
    }
}

/// Puts the line of the revision.
fn put_revision<S: Sink>(sink: &mut S, revision: u64) -> Result<(), WriteFailed>
    ensures { Takes S.took S.cut sink.old (plans.revision_line revision) sink.new result }
{
    let mut digits = Buffer::new();
    let texts = [
        b"revision ".as_slice(),
        digits.format(revision).as_bytes(),
        b"\n".as_slice(),
    ];
    put_all(sink, &texts)
}

/// Puts a sign and a row, and ends the line.
fn put_line<S: Sink>(sink: &mut S, sign: &'static str, row: &ConfigRow) -> Result<(), WriteFailed>
    ensures { Takes S.took S.cut sink.old (row_line sign.now row.now) sink.new result }
{
    let Ok(()) = sink.take(sign.as_bytes()) else {
        return Err(WriteFailed);
    };
    let Ok(()) = put_row(sink, TextForm::Plain, row) else {
        return Err(WriteFailed);
    };
    sink.take(b"\n")
}

/// Puts a line for each row, behind a sign.
fn put_rows<S: Sink>(
    sink: &mut S,
    sign: &'static str,
    rows: &[ConfigRow],
) -> Result<(), WriteFailed>
    ensures { Takes S.took S.cut sink.old (flat_map (row_line sign.now) rows.now) sink.new result }
{
    for row in rows {
        let Ok(()) = put_line(sink, sign, row) else {
            return Err(WriteFailed);
        };
    }
    Ok(())
}

/// Puts how many paths are lost and gained.
fn put_counts<S: Sink, A: Allocator + Copy>(
    sink: &mut S,
    paths: &PathsMoved<A>,
) -> Result<(), WriteFailed>
    ensures { Takes S.took S.cut sink.old (plans.counts_text paths.now) sink.new result }
{
    let mut lost = Buffer::new();
    let mut gained = Buffer::new();
    let texts = [
        b"paths: ".as_slice(),
        lost.format(paths.lost).as_bytes(),
        b" lost, ".as_slice(),
        gained.format(paths.gained).as_bytes(),
        b" gained; hosts left on one fabric:".as_slice(),
    ];
    put_all(sink, &texts)
}

/// Puts the hosts that have no path afterwards, and ends the line.
fn put_without<S: Sink, A: Allocator + Copy>(
    sink: &mut S,
    paths: &PathsMoved<A>,
) -> Result<(), WriteFailed>
    ensures { Takes S.took S.cut sink.old (plans.without_text paths.now) sink.new result }
{
    let Ok(()) = sink.take(b"; hosts left without a path:") else {
        return Err(WriteFailed);
    };
    let Ok(()) = put_listed(sink, &paths.hosts.without) else {
        return Err(WriteFailed);
    };
    sink.take(b"\n")
}

/// Puts the line of the paths and the hosts.
fn put_paths<S: Sink, A: Allocator + Copy>(
    sink: &mut S,
    paths: &PathsMoved<A>,
) -> Result<(), WriteFailed>
    ensures { Takes S.took S.cut sink.old (plans.paths_line paths.now) sink.new result }
{
    let Ok(()) = put_counts(sink, paths) else {
        return Err(WriteFailed);
    };
    let Ok(()) = put_listed(sink, &paths.hosts.on_one) else {
        return Err(WriteFailed);
    };
    put_without(sink, paths)
}

/// An array of the texts of rows, in their order.
#[derive(Clone, Copy)]
struct RowList<'a>(&'a [ConfigRow]);

impl Json for RowList<'_> {
    ghost value = { λ rows. list_data row_data rows.0.now };

    ghost most = { λ rows. length (json_text (list_data row_data rows.0.now)) };

    fn put<S: Sink>(&self, sink: &mut S) -> Result<(), WriteFailed> {
        let Ok(()) = sink.take(b"[") else {
            return Err(WriteFailed);
        };
        let mut later = false;
        for row in self.0 {
            let Ok(()) = put_next(sink, later, row) else {
                return Err(WriteFailed);
            };
            later = true;
        }
        sink.take(b"]")
    }
}

/// Puts a comma, where something stands before.
fn put_comma<S: Sink>(sink: &mut S, later: bool) -> Result<(), WriteFailed>
    ensures { Takes S.took S.cut sink.old (comma_if later) sink.new result }
{
    if later { sink.take(b",") } else { Ok(()) }
}

/// Puts the text of a row as JSON.
#[tactic(auto, unfolding(fab_wire_streams::specs::JsonText::json_text, fab_wire_streams::specs::JsonText::quoted_json))]
fn put_quoted<S: Sink>(sink: &mut S, row: &ConfigRow) -> Result<(), WriteFailed>
    ensures { Takes S.took S.cut sink.old (json_text (row_data row.now)) sink.new result }
{
    put_row(sink, TextForm::Quoted, row)
}

/// Puts a row, after others or as the first.
fn put_next<S: Sink>(sink: &mut S, later: bool, row: &ConfigRow) -> Result<(), WriteFailed>
    ensures { Takes S.took S.cut sink.old (item_json later (row_data row.now)) sink.new result }
{
    let Ok(()) = put_comma(sink, later) else {
        return Err(WriteFailed);
    };
    put_quoted(sink, row)
}

/// What the activation of a plan would do, as JSON: an object, and a line feed.
#[derive(Clone, Copy)]
pub struct PlanJson<'t, A: Allocator + Copy>(pub &'t TriedPlan<A>);

impl<A: Allocator + Copy> Printable for PlanJson<'_, A> {
    ghost text = { λ t. plan_json t.0.now };

    fn put<S: Sink>(&self, sink: &mut S) -> Result<(), WriteFailed> {
        let Ok(()) = put_object(sink, self.0) else {
            return Err(WriteFailed);
        };
        sink.take(b"\n")
    }
}

/// Puts the object of a plan.
fn put_object<S: Sink, A: Allocator + Copy>(
    sink: &mut S,
    tried: &TriedPlan<A>,
) -> Result<(), WriteFailed>
    ensures { Takes S.took S.cut sink.old (json_text (plan_data tried.now)) sink.new result }
{
    let (rows, paths) = (&tried.rows, &tried.paths);
    object! {
        "added": RowList(rows.added.as_slice()),
        "gained": paths.gained as u64,
        "hosts": Array(paths.hosts.all.as_slice()),
        "lost": paths.lost as u64,
        "one_fabric": Array(paths.hosts.on_one.as_slice()),
        "revision": tried.revision,
        "taken": RowList(rows.taken.as_slice()),
        "without": Array(paths.hosts.without.as_slice())
    }
    .put(sink)
}
