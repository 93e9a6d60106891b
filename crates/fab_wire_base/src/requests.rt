//! What the head of a request asks for: the checks of a head, in their order, up to its body.

ghost use Rattle.std.specs.Prelude.{◌≡◌, IsUtf8};
ghost use Rattle.fab_wire_base.specs.Lines.{lines_of, AreWithin};
ghost use Rattle.fab_wire_base.specs.Asking.{asking_of, by_length, by_route, is_path, target_route, JudgesHead};

use crate::callers::{Callers, known};
use crate::fields::{Length, authorization, content_length, has_transfer_encoding};
use crate::kinds::{Kind, Route};
use crate::routes::Routes;
use httparse::spans::HeaderSpan;

/// The greatest length of a body, in bytes.
pub const MOST_BODY: u128 = 1048576;

/// Why a request is refused before anything is asked of the desk.
#[derive(Clone, Copy, Debug)]
pub enum Refusal {
    /// The input begins with no head, or its lengths are bad.
    BadHead,
    /// No token of a caller stands in the head.
    NoCaller,
    /// The path has no route.
    NoRoute,
    /// The route does not take the method.
    BadMethod(Route),
    /// What is asked for takes a body, and the head gives no length.
    NoLength,
    /// The length is above `MOST_BODY`.
    TooLarge,
    /// The line of the fault in the body; 0 where the input ends before the length.
    BadBody(usize),
}

/// What a head comes to.
#[derive(Clone, Copy)]
pub enum Judged<'b> {
    /// A check of the head fails, the first that does.
    Refused(Refusal),
    /// The token of a caller, what is asked for, and the length of the body if that takes one.
    Asks(&'b [u8], Kind, Option<usize>),
}

/// Judges a head by its parts: first its lengths, then the caller, the route, the method, and what
/// the lengths say of a body.
pub fn judge_head<'b, C: Callers>(
    routes: &Routes,
    callers: &C,
    buf: &'b [u8],
    headers: &[HeaderSpan],
    method: &[u8],
    target: &[u8],
) -> Judged<'b>
    requires lines { AreWithin buf.now headers.now }
    requires text { IsUtf8 target.now }
    ensures { JudgesHead (C.knows_token callers.now) method.now target.now
        (lines_of buf.now headers.now) result }
{
    let length = content_length(buf, headers);
    if length == Length::Bad {
        return Judged::Refused(Refusal::BadHead);
    }
    let Some(token) = known(callers, authorization(buf, headers)) else {
        return Judged::Refused(Refusal::NoCaller);
    };
    let is_coded = has_transfer_encoding(buf, headers);
    judge_path(routes, token, method, target, is_coded, length)
}

/// Judges the path, the method, and what the lengths say of a body, once the caller is known.
fn judge_path<'b>(
    routes: &Routes,
    token: &'b [u8],
    method: &[u8],
    target: &[u8],
    is_coded: bool,
    length: Length,
) -> Judged<'b>
    requires text { IsUtf8 target.now }
    ensures { asking_of result
        ≡ by_route token.now (target_route target.now) method.now is_coded length }
{
    let Some(route) = route_at(routes, target) else {
        return Judged::Refused(Refusal::NoRoute);
    };
    let Some(kind) = route.kind(method) else {
        return Judged::Refused(Refusal::BadMethod(route));
    };
    judge_length(token, kind, is_coded, length)
}

/// Judges what the lengths say of a body, once the caller and what is asked for are known.
fn judge_length(token: &[u8], kind: Kind, is_coded: bool, length: Length) -> Judged<'_>
    ensures { asking_of result ≡ by_length token.now kind is_coded length }
{
    if !kind.has_body() {
        return Judged::Asks(token, kind, None);
    }
    if is_coded {
        return Judged::Refused(Refusal::NoLength);
    }
    match length {
        Length::Missing => Judged::Refused(Refusal::NoLength),
        Length::Is(size) => {
            if size <= MOST_BODY {
                Judged::Asks(token, kind, Some(size as usize))
            } else {
                Judged::Refused(Refusal::TooLarge)
            }
        }
        Length::Bad => Judged::Refused(Refusal::BadHead),
    }
}

/// The route of a target: a path that begins with a slash and has no question mark.
fn route_at(routes: &Routes, target: &[u8]) -> Option<Route>
    requires text { IsUtf8 target.now }
    ensures { result ≡ target_route target.now }
{
    if !is_plain_path(target) {
        return None;
    }
    match str::from_utf8(target) {
        Ok(path) => routes.find(path),
        Err(_) => None,
    }
}

/// Whether a target begins with a slash and has no question mark.
fn is_plain_path(target: &[u8]) -> bool
    ensures { result ≡ is_path target.now }
{
    match target.split_first() {
        Some((first, rest)) => *first == b'/' && !rest.contains(&b'?'),
        None => false,
    }
}
