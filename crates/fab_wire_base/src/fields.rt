//! What the header lines of a request say: its length, its caller's token, its transfer coding.

ghost use Rattle.std.specs.Prelude.{◌≡◌, ◌++◌, ◌∷◌, [], ℕ, List, codes, option_map};
ghost use Rattle.fab_wire_base.specs.Lines.{are_same_name, values_of, lines_of, AreWithin};
ghost use Rattle.fab_wire_base.specs.Fields.{IsLengthOf, IsOnly, bearer_of, token_of, skip_spaces, is_given};

use fab_names::read_number;
use httparse::spans::{HeaderSpan, Span};

/// What the Content-Length lines of a head say (RFC 9112, section 6.3).
#[derive(Clone, Copy, PartialEq, Eq)]
pub enum Length {
    /// There is no such line.
    Missing,
    /// Each such line has this number.
    Is(u128),
    /// A line has no number text, or two lines have different numbers.
    Bad,
}

/// The length that a head gives its body.
pub fn content_length(buf: &[u8], headers: &[HeaderSpan]) -> Length
    requires { AreWithin buf.now headers.now }
    ensures { IsLengthOf
        (values_of (codes "content-length") (lines_of buf.now headers.now)) result }
{
    let mut length = Length::Missing;
    for header in headers {
        if is_named(header.name.of(buf), b"content-length") {
            length = after_value(length, header.value.of(buf));
        }
    }
    length
}

/// What the lengths say with one more value.
fn after_value(before: Length, value: &[u8]) -> Length
    ensures { (values : List (List ℕ)) → IsLengthOf values before →
        IsLengthOf (values ++ value.now ∷ []) result }
{
    let Some(number) = read_number(value) else {
        return Length::Bad;
    };
    match before {
        Length::Missing => Length::Is(number),
        Length::Is(length) => {
            if length == number {
                Length::Is(length)
            } else {
                Length::Bad
            }
        }
        Length::Bad => Length::Bad,
    }
}

/// The token of the caller: that of the only Authorization line, where there is exactly one and it
/// is `Bearer` in any case, one or more spaces, and the token (RFC 6750, section 2.1).
pub fn authorization<'b>(buf: &'b [u8], headers: &[HeaderSpan]) -> Option<&'b [u8]>
    requires { AreWithin buf.now headers.now }
    ensures { option_map (λ token. token.now) result ≡ token_of
        (values_of (codes "authorization") (lines_of buf.now headers.now)) }
{
    match only_value(buf, headers, b"authorization") {
        Only::One(value) => bearer_token(value.of(buf)),
        _ => None,
    }
}

/// Whether a Transfer-Encoding line stands in the head.
pub fn has_transfer_encoding(buf: &[u8], headers: &[HeaderSpan]) -> bool
    requires { AreWithin buf.now headers.now }
    ensures { result ≡ is_given
        (values_of (codes "transfer-encoding") (lines_of buf.now headers.now)) }
{
    match only_value(buf, headers, b"transfer-encoding") {
        Only::Nothing => false,
        _ => true,
    }
}

/// Whether two header names are the same, in any case of their letters.
fn is_named(name: &[u8], wanted: &[u8]) -> bool
    ensures { result ≡ are_same_name name.now wanted.now }
{
    name.eq_ignore_ascii_case(wanted)
}

/// The token of an Authorization value.
fn bearer_token(value: &[u8]) -> Option<&[u8]>
    ensures { option_map (λ token. token.now) result ≡ bearer_of value.now }
{
    if value.len() < 6 {
        return None;
    }
    let (scheme, rest) = value.split_at(6);
    if !is_named(scheme, b"bearer") {
        return None;
    }
    let (first, rest) = rest.split_first()?;
    if *first != b' ' {
        return None;
    }
    Some(after_spaces(rest))
}

/// The text behind the spaces at its start.
fn after_spaces(text: &[u8]) -> &[u8]
    ensures { result.now ≡ skip_spaces text.now }
{
    let mut rest = text;
    while let Some((first, left)) = rest.split_first() {
        if *first != b' ' {
            break;
        }
        rest = left;
    }
    rest
}

/// The values of a name that should stand once.
#[derive(Clone, Copy)]
enum Only {
    Nothing,
    One(Span),
    Several,
}

/// The value of a name, where there is exactly one.
fn only_value(buf: &[u8], headers: &[HeaderSpan], name: &[u8]) -> Only
    requires { AreWithin buf.now headers.now }
    ensures { IsOnly buf.now (values_of name.now (lines_of buf.now headers.now)) result }
{
    let mut only = Only::Nothing;
    for header in headers {
        if is_named(header.name.of(buf), name) {
            match only {
                Only::Nothing => only = Only::One(header.value),
                _ => return Only::Several,
            }
        }
    }
    only
}
