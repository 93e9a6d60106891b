//! Lists of what reads show.
ghost use Rattle.fab_files_looks.specs.Lists.{rows_json, rows_lines, rows_text, header_line};
ghost use Rattle.fab_wire_streams.specs.Taking.{Takes};

use crate::lines::put_listed;
use fab_desk_base::Shown;
use fab_files_base::{Printable, put_four, put_three};
use fab_wire_answers::parts::Parts;
use fab_wire_streams::sink::Sink;
use fab_wire_streams::streams::WriteFailed;
use fab_wire_streams::values::Json;
use std::alloc::Allocator;

/// The columns of a list.
#[derive(Clone, Copy)]
pub enum Table {
    /// Hosts or arrays.
    Holders,
    /// Volumes.
    Volumes,
    /// Ports.
    Ports,
    /// Host groups.
    HostGroups,
    /// Storage groups.
    Groups,
    /// Plans.
    Plans,
    /// Aliases or zones.
    Members,
    /// Zone sets.
    Sets,
}

/// Rows as JSON: an array of the bodies of the reads, and a line feed.
#[derive(Clone, Copy)]
pub struct RowsJson<'r, A: Allocator + Copy>(pub &'r [Shown<A>]);

impl<A: Allocator + Copy> Printable for RowsJson<'_, A> {
    ghost text = { λ rows. rows_json rows.0.now };

    fn put<S: Sink>(&self, sink: &mut S) -> Result<(), WriteFailed> {
        let Ok(()) = Parts(self.0).put(sink) else {
            return Err(WriteFailed);
        };
        sink.take(b"\n")
    }
}

/// Rows as columns: the line of their names, and a line for each row.
#[derive(Clone, Copy)]
pub struct RowsText<'r, A: Allocator + Copy> {
    /// The columns.
    pub table: Table,
    /// The present revision.
    pub revision: u64,
    /// What the reads show.
    pub rows: &'r [Shown<A>],
}

impl<A: Allocator + Copy> Printable for RowsText<'_, A> {
    ghost text = { λ t. rows_text t.table t.revision t.rows.now };

    fn put<S: Sink>(&self, sink: &mut S) -> Result<(), WriteFailed> {
        let Ok(()) = put_header(sink, self.table) else {
            return Err(WriteFailed);
        };
        put_rows(sink, self.revision, self.rows)
    }
}

/// Puts the line of the columns' names.
#[tactic(auto, unfolding(crate::specs::Lists::header_line))]
fn put_header<S: Sink>(sink: &mut S, table: Table) -> Result<(), WriteFailed>
    ensures { Takes S.took S.cut sink.old (header_line table) sink.new result }
{
    match table {
        Table::Holders => put_three(sink, b"NAME", b"TENANT", b"PORTS"),
        Table::Volumes => put_four(sink, b"VOLUME", b"TENANT", b"ARRAY", b"BYTES"),
        Table::Ports => put_three(sink, b"PORT", b"NODE", b"FABRIC"),
        Table::HostGroups => put_three(sink, b"HOST-GROUP", b"TENANT", b"HOSTS"),
        Table::Groups => put_four(sink, b"GROUP", b"TENANT", b"ARRAY", b"STATE"),
        Table::Plans => put_four(sink, b"PLAN", b"STATE", b"AUTHOR", b"APPROVALS"),
        Table::Members => put_three(sink, b"FABRIC", b"NAME", b"MEMBERS"),
        Table::Sets => put_three(sink, b"FABRIC", b"SET", b"ZONES"),
    }
}

/// Puts a line for each row.
fn put_rows<S: Sink, A: Allocator + Copy>(
    sink: &mut S,
    revision: u64,
    rows: &[Shown<A>],
) -> Result<(), WriteFailed>
    ensures { Takes S.took S.cut sink.old (rows_lines revision rows.now) sink.new result }
{
    for row in rows {
        let Ok(()) = put_listed(sink, revision, row) else {
            return Err(WriteFailed);
        };
    }
    Ok(())
}
