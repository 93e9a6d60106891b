//! Paths as comma-separated values (RFC 4180).
ghost use Rattle.std.specs.Prelude.{[], ◌∷◌};
ghost use Rattle.fab_wire_streams.specs.Taking.{Takes};
ghost use Rattle.fab_files.specs.PathLists.{csv_line, csv_text, path_header, path_line, path_lines};

use fab_reach_base::Path;
use fab_reach_base::names::Name;
use fab_wire_streams::sink::{Sink, put_all};
use fab_wire_streams::streams::WriteFailed;
use itoa::Buffer;

/// The header's line: the names of the fields.
const HEADER: &[u8] = b"fabric,host,initiator,target,volume,lun\n";

/// Puts the header and then a line for each path, in the order of the list: its fabric, the host,
/// the initiator port, the target port, the volume, and the logical unit number.
///
/// No field is quoted, since none has a comma, a quote or a line end.
///
/// # Errors
/// `WriteFailed` where the sink fails, with a beginning of the text taken.
pub fn paths_csv<S: Sink>(sink: &mut S, host: &Name, paths: &[Path]) -> Result<(), WriteFailed>
    ensures { Takes S.took S.cut sink.old (csv_text host.now paths.now) sink.new result }
{
    let Ok(()) = put_header(sink) else {
        return Err(WriteFailed);
    };
    put_paths(sink, host, paths)
}

/// Puts the header's line.
#[tactic(auto, unfolding(crate::specs::PathLists::path_header))]
fn put_header<S: Sink>(sink: &mut S) -> Result<(), WriteFailed>
    ensures { Takes S.took S.cut sink.old path_header sink.new result }
{
    sink.take(HEADER)
}

/// Puts a line for each path.
fn put_paths<S: Sink>(sink: &mut S, host: &Name, paths: &[Path]) -> Result<(), WriteFailed>
    ensures { Takes S.took S.cut sink.old (path_lines host.now paths.now) sink.new result }
{
    for path in paths {
        let Ok(()) = put_path(sink, host, path) else {
            return Err(WriteFailed);
        };
    }
    Ok(())
}

/// Puts the line of a path.
fn put_path<S: Sink>(sink: &mut S, host: &Name, path: &Path) -> Result<(), WriteFailed>
    ensures { Takes S.took S.cut sink.old (path_line host.now path.now) sink.new result }
{
    put_fields(
        sink,
        path.fabric.as_str().as_bytes(),
        host.as_bytes(),
        &path.initiator.letters(),
        &path.target.letters(),
        path.volume.as_bytes(),
        Buffer::new().format(path.unit).as_bytes(),
    )
}

/// Puts a line of six fields.
fn put_fields<S: Sink>(
    sink: &mut S,
    fabric: &[u8],
    host: &[u8],
    initiator: &[u8],
    target: &[u8],
    volume: &[u8],
    unit: &[u8],
) -> Result<(), WriteFailed>
    ensures { Takes S.took S.cut sink.old (csv_line fabric.now (host.now ∷ initiator.now
        ∷ target.now ∷ volume.now ∷ unit.now ∷ [])) sink.new result }
{
    let texts = [
        fabric,
        b",".as_slice(),
        host,
        b",".as_slice(),
        initiator,
        b",".as_slice(),
        target,
        b",".as_slice(),
        volume,
        b",".as_slice(),
        unit,
        b"\n".as_slice(),
    ];
    put_all(sink, &texts)
}
