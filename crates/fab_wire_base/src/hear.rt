//! Hears one request: reads it from a connection, up to the end of its body.

ghost use Rattle.std.specs.Prelude.{◌≡◌, ◌≤◌, length, IfSome};
ghost use Rattle.httparse.specs.Spans.{IsRequestOf, IsRequestWithin};
ghost use Rattle.fab_wire_streams.specs.Counting.{inner_of, failures_of};
ghost use Rattle.fab_wire_base.specs.Limits.{most_head};
ghost use Rattle.fab_wire_base.specs.Hearing.{IsHeard, IsHeardOf, IsHeardOfKnown, IsKept, failures_after_heard};
ghost use Rattle.fab_wire_base.specs.Spelling.{request};

use crate::bodies::{Body, take_body};
use crate::callers::Callers;
use crate::head::{HeadRead, MOST_HEAD, MOST_LINES, read_head};
use crate::kinds::Kind;
use crate::requests::{Judged, Refusal, judge_head};
use crate::routes::Routes;
use fab_wire_streams::counted::Counted;
use httparse::spans::{EMPTY_HEADER_SPAN, HeaderSpan, RequestSpans};
use std::alloc::Allocator;
use std::io::Read;

/// What a caller asks for.
#[derive(Drop)]
pub struct Asked<A: Allocator> {
    /// The token of the caller.
    pub token: Vec<u8, A>,
    /// What is asked for.
    pub kind: Kind,
    /// The target, which is a path that has a route.
    pub target: Vec<u8, A>,
    /// The body; empty where what is asked for takes none.
    pub body: Vec<u8, A>,
}

/// What is heard of a connection.
#[derive(Drop)]
pub enum Heard<A: Allocator> {
    /// The input has no byte.
    Nothing,
    /// A check of the head or of the length of the body fails, the first that does.
    Refused(Refusal),
    /// The request of a caller.
    Asked(Asked<A>),
    /// A read failed, and nothing was read behind it.
    ReadFailed,
    /// There was no memory. It is not answered to an empty input.
    Memory,
}

/// Hears one request.
///
/// What is heard is what the input spells where the tokens of `callers` are known, however its
/// reads are cut, and whoever asks is known. `ReadFailed` comes only where a read failed, and then at
/// once. What is kept of a request comes from `alloc`.
pub fn hear<A: Allocator + Copy, C: Callers, R: Read>(
    alloc: A,
    routes: &Routes,
    callers: &C,
    reader: &mut Counted<R>,
) -> Heard<A>
    ensures spelled { IfSome (R.remaining (inner_of reader.old))
        (λ input. IsHeard (C.knows_token callers.now) input result) }
    ensures known { IsHeardOfKnown (C.knows_token callers.now) result }
    ensures count { failures_of reader.new
        ≡ failures_after_heard result (failures_of reader.old) }
{
    let mut buf = [0u8; MOST_HEAD];
    let mut headers = [EMPTY_HEADER_SPAN; MOST_LINES];
    match read_head(reader, &mut buf, &mut headers) {
        HeadRead::Head(spans, filled) => {
            hear_request(
                alloc,
                routes,
                callers,
                reader,
                &buf[..filled],
                &headers,
                spans,
            )
        }
        HeadRead::BadHead => Heard::Refused(Refusal::BadHead),
        HeadRead::Empty => Heard::Nothing,
        HeadRead::ReadFailed => Heard::ReadFailed,
    }
}

/// Judges a head that has been read, and takes the body that it announces.
fn hear_request<A: Allocator + Copy, C: Callers, R: Read>(
    alloc: A,
    routes: &Routes,
    callers: &C,
    reader: &mut Counted<R>,
    got: &[u8],
    headers: &[HeaderSpan],
    spans: RequestSpans,
) -> Heard<A>
    requires within { IsRequestWithin got.now headers.now spans }
    requires head { IsRequestOf got.now headers.now spans }
    requires short { length got.now ≤ most_head }
    ensures spelled { IfSome (R.remaining (inner_of reader.old))
        (λ more. IsHeardOf (C.knows_token callers.now) got.now more result) }
    ensures known { IsHeardOfKnown (C.knows_token callers.now) result }
    ensures count { failures_of reader.new
        ≡ failures_after_heard result (failures_of reader.old) }
{
    let target = spans.path.of(got);
    let lines = &headers[..spans.headers];
    match judge_head(routes, callers, got, lines, spans.method.of(got), target) {
        Judged::Refused(why) => Heard::Refused(why),
        Judged::Asks(token, kind, None) => keep(alloc, token, kind, target, Vec::new(alloc)),
        Judged::Asks(token, kind, Some(size)) => {
            let (_, have) = got.split_at(spans.len);
            match take_body(alloc, reader, have, size) {
                Body::Whole(body) => keep(alloc, token, kind, target, body),
                Body::Short => Heard::Refused(Refusal::BadBody(0)),
                Body::ReadFailed => Heard::ReadFailed,
                Body::Memory => Heard::Memory,
            }
        }
    }
}

/// Keeps a request behind its connection: its token and its target are copied.
fn keep<A: Allocator + Copy>(
    alloc: A,
    token: &[u8],
    kind: Kind,
    target: &[u8],
    body: Vec<u8, A>,
) -> Heard<A>
    ensures { IsKept (request token.now kind target.now body.items) result }
{
    let Ok(token) = Vec::from_slice(alloc, token) else {
        return Heard::Memory;
    };
    match Vec::from_slice(alloc, target) {
        Ok(target) => Heard::Asked(Asked {
            token,
            kind,
            target,
            body,
        }),
        Err(_) => Heard::Memory,
    }
}
