//! The line of a connection in the log.

ghost use Rattle.std.specs.Prelude.{◌≡◌, OnOk, OnErr};
ghost use Rattle.std.specs.Io.KnownBytes.{Appends};
ghost use Rattle.fab_wire_streams.specs.Counting.{inner_of, failures_of};
ghost use Rattle.fab_wire_streams.specs.Failures.{failures_after};
ghost use Rattle.fab_wire_streams.specs.Sent.{AppendsBeginning};
ghost use Rattle.fab_wire_log.specs.Shown.{shown_text};
ghost use Rattle.fab_wire_log.specs.Lines.{line_text, Notes};

use crate::shown::Shown;
use fab_wire_streams::counted::Counted;
use fab_wire_streams::streams::WriteFailed;
use itoa::Buffer;
use std::io::Write;

/// Writes the line of a connection at once: when it came, in Unix seconds, what came of it, and how many
/// milliseconds it took. It takes no memory, and after a write that failed nothing more is written.
pub fn put_line<W: Write>(log: &mut Counted<W>, moment: u64, shown: Shown, milliseconds: u64)
    ensures { Notes W.contents log.old log.new (line_text moment (shown_text shown) milliseconds) }
{
    let Ok(()) = put_shown(log, moment, shown, milliseconds) else {
        return;
    };
    let _ = log.flush();
}

/// Writes it.
///
/// # Errors
/// `WriteFailed` at the first write that fails. A beginning of the line is written then.
fn put_shown<W: Write>(
    log: &mut Counted<W>,
    moment: u64,
    shown: Shown,
    milliseconds: u64,
) -> Result<(), WriteFailed>
    ensures ok { OnOk result (Appends (W.contents (inner_of log.old)) (W.contents (inner_of log.new))
        (line_text moment (shown_text shown) milliseconds)) }
    ensures err { OnErr result (AppendsBeginning (W.contents (inner_of log.old))
        (W.contents (inner_of log.new)) (line_text moment (shown_text shown) milliseconds)) }
    ensures count { failures_of log.new ≡ failures_after result (failures_of log.old) }
{
    let mut number = Buffer::new();
    match shown {
        Shown::Status(status) => {
            put_text(log, moment, number.format(status).as_bytes(), milliseconds)
        }
        Shown::Word(word) => put_text(log, moment, word.as_bytes(), milliseconds),
    }
}

/// Writes it where what came of the connection is this text.
///
/// # Errors
/// As `put_shown`.
fn put_text<W: Write>(
    log: &mut Counted<W>,
    moment: u64,
    text: &[u8],
    milliseconds: u64,
) -> Result<(), WriteFailed>
    ensures ok { OnOk result (Appends (W.contents (inner_of log.old)) (W.contents (inner_of log.new))
        (line_text moment text.now milliseconds)) }
    ensures err { OnErr result (AppendsBeginning (W.contents (inner_of log.old))
        (W.contents (inner_of log.new)) (line_text moment text.now milliseconds)) }
    ensures count { failures_of log.new ≡ failures_after result (failures_of log.old) }
{
    let mut seconds = Buffer::new();
    let mut took = Buffer::new();
    let pieces = [
        seconds.format(moment).as_bytes(),
        b" ",
        text,
        b" ",
        took.format(milliseconds).as_bytes(),
        b" ms\n",
    ];
    log.put_all(&pieces)
}
