//! Reads the head of a request: request line and header lines, by httparse's grammar (RFC 9112).

ghost use Rattle.std.specs.Prelude.{◌≡◌, ◌==◌, length, if◌then◌else◌};
ghost use Rattle.fab_wire_streams.specs.Counting.{inner_of, failures_of};
ghost use Rattle.fab_wire_base.specs.Limits.{most_head, most_lines};
ghost use Rattle.fab_wire_base.specs.Reading.{ReadsHead, IsParsed, failures_after_head};

use fab_wire_streams::counted::Counted;
use httparse::Status;
use httparse::spans::{HeaderSpan, RequestSpans, parse_request};
use std::io::Read;

/// The greatest length of a head, in bytes.
pub const MOST_HEAD: usize = 8192;

/// Room for more header lines than a head can have: each takes three bytes at least.
pub const MOST_LINES: usize = 2731;

/// What reading a head came to.
#[derive(Clone, Copy)]
pub enum HeadRead {
    /// The buffer begins with a head, which the spans cover. The number says how many bytes of the
    /// buffer were read: those of the head, and some that follow it.
    Head(RequestSpans, usize),
    /// No beginning of at most `MOST_HEAD` bytes of the input is a head.
    BadHead,
    /// The input has no byte.
    Empty,
    /// A read failed, and nothing was read behind it.
    ReadFailed,
}

/// Reads until a head is whole, or can't become one, or the input ends.
pub fn read_head<R: Read>(
    reader: &mut Counted<R>,
    buf: &mut [u8],
    headers: &mut [HeaderSpan],
) -> HeadRead
    requires room { length buf.old ≡ most_head }
    requires lines { length headers.old ≡ most_lines }
    ensures head { ReadsHead (R.remaining (inner_of reader.old))
        (R.remaining (inner_of reader.new)) buf.new headers.new result }
    ensures count { failures_of reader.new ≡ failures_after_head result (failures_of reader.old) }
{
    let mut filled = 0;
    while filled < buf.len() {
        let Ok(given) = reader.read_at(buf, filled) else {
            return HeadRead::ReadFailed;
        };
        if given == 0 {
            return head_at_end(filled);
        }
        filled += given;
        match parse_so_far(&buf[..filled], headers) {
            Parsed::Whole(spans) => return HeadRead::Head(spans, filled),
            Parsed::Partial => {}
            Parsed::Never => return HeadRead::BadHead,
        }
    }
    HeadRead::BadHead
}

/// What the bytes so far are: they begin with a head; they are none yet, and may become one; or they
/// begin none, whatever follows.
pub(crate) enum Parsed {
    Whole(RequestSpans),
    Partial,
    Never,
}

/// Looks for a head in the bytes so far.
pub(crate) fn parse_so_far(got: &[u8], headers: &mut [HeaderSpan]) -> Parsed
    requires { length headers.old ≡ most_lines }
    ensures { IsParsed got.now headers.new result }
{
    match parse_request(got, headers) {
        Ok(Status::Complete(spans)) => Parsed::Whole(spans),
        Ok(Status::Partial) => Parsed::Partial,
        Err(_) => Parsed::Never,
    }
}

/// The answer at the end of an input of so many bytes in which no head came.
fn head_at_end(filled: usize) -> HeadRead
    ensures { result ≡ (if filled == 0 then HeadRead.Empty else HeadRead.BadHead) }
{
    if filled == 0 {
        HeadRead::Empty
    } else {
        HeadRead::BadHead
    }
}
