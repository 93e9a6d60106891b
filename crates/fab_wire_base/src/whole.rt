//! Whether what has come of an input tells what it spells, whatever else comes.

ghost use Rattle.std.specs.Prelude.{◌≡◌, ◌≤◌, ◌<◌, ◌+◌, ◌++◌, length, IfSome, IfNone};
ghost use Rattle.httparse.specs.Spans.{IsRequestOf, IsRequestWithin};
ghost use Rattle.fab_wire_base.specs.Limits.{most_head, most_lines, most_body};
ghost use Rattle.fab_wire_base.specs.Whole.{IsWhole, Lacks};

use crate::callers::Callers;
use crate::head::{MOST_HEAD, MOST_LINES, Parsed, parse_so_far};
use crate::requests::{Judged, judge_head};
use crate::routes::Routes;
use httparse::spans::{EMPTY_HEADER_SPAN, HeaderSpan, RequestSpans};

/// How many bytes of an input have to be there before it is looked at again; none where every input
/// that begins with these bytes spells what they spell.
///
/// One byte more is lacking where no head has come and one still can, and those of the body where a
/// head has come that asks for one. A head that is refused wants no body, and neither does one that is
/// too long, or that can't become a head (RFC 9112).
pub fn lacks<C: Callers>(routes: &Routes, callers: &C, bytes: &[u8]) -> Option<usize>
    ensures whole { IfNone result (IsWhole (C.knows_token callers.now) bytes.now) }
    ensures lacks { IfSome result (Lacks (C.knows_token callers.now) bytes.now) }
    ensures bound { IfSome result (λ size. (length bytes.now < size) × (size ≤ most_head + most_body)) }
{
    let mut headers = [EMPTY_HEADER_SPAN; MOST_LINES];
    let (got, behind) = bytes.split_at(bytes.len().min(MOST_HEAD));
    lacks_parted(routes, callers, got, behind, &mut headers)
}

/// The same of the bytes that a head may have, and those behind them.
fn lacks_parted<C: Callers>(
    routes: &Routes,
    callers: &C,
    got: &[u8],
    behind: &[u8],
    headers: &mut [HeaderSpan],
) -> Option<usize>
    requires short { length got.now ≤ most_head }
    requires full { length got.now < most_head → length behind.now ≡ 0 }
    requires lines { length headers.old ≡ most_lines }
    ensures whole { IfNone result (IsWhole (C.knows_token callers.now) (got.now ++ behind.now)) }
    ensures lacks { IfSome result (Lacks (C.knows_token callers.now) (got.now ++ behind.now)) }
    ensures bound { IfSome result (λ size. (length (got.now ++ behind.now) < size) × (size ≤ most_head + most_body)) }
{
    if got.is_empty() {
        return Some(1);
    }
    match parse_so_far(got, headers) {
        Parsed::Whole(spans) => lacks_behind(routes, callers, got, behind, headers, spans),
        Parsed::Partial => {
            if got.len() < MOST_HEAD {
                Some(got.len() + 1)
            } else {
                None
            }
        }
        Parsed::Never => None,
    }
}

/// What is lacking behind a head.
fn lacks_behind<C: Callers>(
    routes: &Routes,
    callers: &C,
    got: &[u8],
    behind: &[u8],
    headers: &[HeaderSpan],
    spans: RequestSpans,
) -> Option<usize>
    requires within { IsRequestWithin got.now headers.now spans }
    requires head { IsRequestOf got.now headers.now spans }
    requires short { length got.now ≤ most_head }
    ensures whole { IfNone result (IsWhole (C.knows_token callers.now) (got.now ++ behind.now)) }
    ensures lacks { IfSome result (Lacks (C.knows_token callers.now) (got.now ++ behind.now)) }
    ensures bound { IfSome result (λ size. (length (got.now ++ behind.now) < size) × (size ≤ most_head + most_body)) }
{
    let lines = &headers[..spans.headers];
    match judge_head(
        routes,
        callers,
        got,
        lines,
        spans.method.of(got),
        spans.path.of(got),
    ) {
        Judged::Refused(_) => None,
        Judged::Asks(_, _, None) => None,
        Judged::Asks(_, _, Some(size)) => {
            let behind_head = got.len() - spans.len;
            if size.saturating_sub(behind_head) <= behind.len() {
                None
            } else {
                Some(spans.len + size)
            }
        }
    }
}
