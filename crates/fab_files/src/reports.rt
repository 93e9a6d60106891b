//! The report on the volumes of a host.
ghost use Rattle.std.specs.Prelude.{◌≡◌};
ghost use Rattle.fab_wire_streams.specs.Taking.{Takes};
ghost use Rattle.fab_files.specs.Reports.{Reports, report_header, counts_line, state_text};
ghost use Rattle.fab_files.specs.Counting.{entry_lines};

use crate::counts::{Counts, counts_of};
use fab_files_base::put_row;
use fab_reach_base::Path;
use fab_reach_base::names::Name;
use fab_wire_streams::sink::Sink;
use fab_wire_streams::streams::WriteFailed;
use itoa::Buffer;
use std::alloc::Allocator;
use std::collections::BTreeMap;

/// Why a report was not put.
#[derive(Clone, Copy, Debug, Drop)]
pub enum ReportFault {
    /// There was no memory. Nothing was put.
    Memory,
    /// The sink failed. It took a beginning of the report.
    Unsent,
}

/// Puts the report on the volumes to which a host has these paths: the header, and then a line for
/// each volume, by name, with how many of the paths lead to it over each fabric, and whether over
/// both.
///
/// # Errors
/// `Memory` where there is no memory for the counts, with nothing put; `Unsent` where the sink
/// fails, with a beginning of the text taken.
pub fn report<S: Sink, A: Allocator + Copy>(
    alloc: A,
    sink: &mut S,
    host: &Name,
    paths: &[Path],
) -> Result<(), ReportFault>
    ensures { Reports S.took S.cut host.now paths.now sink.old sink.new result }
{
    let Ok(counts) = counts_of(alloc, paths) else {
        return Err(ReportFault::Memory);
    };
    let Ok(()) = put_header(sink) else {
        return Err(ReportFault::Unsent);
    };
    let Ok(()) = put_volumes(sink, host, &counts) else {
        return Err(ReportFault::Unsent);
    };
    Ok(())
}

/// Puts the line of the columns' names.
#[tactic(auto, unfolding(crate::specs::Reports::report_header))]
fn put_header<S: Sink>(sink: &mut S) -> Result<(), WriteFailed>
    ensures { Takes S.took S.cut sink.old report_header sink.new result }
{
    put_row(sink, b"HOST", b"VOLUME", b"A", b"B", b"STATE")
}

/// Puts a line for each volume.
fn put_volumes<S: Sink, A: Allocator + Copy>(
    sink: &mut S,
    host: &Name,
    counts: &BTreeMap<Name, Counts, A>,
) -> Result<(), WriteFailed>
    ensures { Takes S.took S.cut sink.old (entry_lines host.now counts.now.entries) sink.new result }
{
    for (volume, counts) in counts {
        let Ok(()) = put_volume(sink, host, volume, *counts) else {
            return Err(WriteFailed);
        };
    }
    Ok(())
}

/// Puts the line of a volume.
fn put_volume<S: Sink>(
    sink: &mut S,
    host: &Name,
    volume: &Name,
    counts: Counts,
) -> Result<(), WriteFailed>
    ensures { Takes S.took S.cut sink.old (counts_line host.now volume.now counts.over_a counts.over_b) sink.new result }
{
    put_row(
        sink,
        host.as_bytes(),
        volume.as_bytes(),
        Buffer::new().format(counts.over_a).as_bytes(),
        Buffer::new().format(counts.over_b).as_bytes(),
        state_of(counts).as_bytes(),
    )
}

/// Whether a volume is reached over both fabrics.
#[tactic(auto, unfolding(crate::specs::Reports::state_text))]
fn state_of(counts: Counts) -> &'static str
    ensures { result.now ≡ state_text counts.over_a counts.over_b }
{
    if counts.over_a > 0 && counts.over_b > 0 {
        "BOTH"
    } else {
        "ONE"
    }
}
