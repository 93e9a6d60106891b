//! Texts between quotes, with the escapes of JSON (RFC 8259, section 7).

ghost use Rattle.std.specs.Prelude.{◌≡◌, ◌<◌, ◌≤◌, length, take};
ghost use Rattle.std.specs.List.{flat_map};
ghost use Rattle.std.specs.Char.{digit_char};
ghost use Rattle.fab_wire_streams.specs.Taking.{Takes};
ghost use Rattle.fab_wire_streams.specs.JsonText.{quoted_json};
ghost use Rattle.fab_wire_streams.specs.Escapes.{is_plain, escapes_json, escape_json};

use crate::sink::Sink;
use crate::streams::WriteFailed;

/// Puts a text between quotes, with its escapes: `\"`, `\\`, `\b`, `\t`, `\n`, `\f`, `\r`, and
/// `\u00` with two digits for the other control characters. Bytes beyond ASCII stand for
/// themselves.
///
/// # Errors
/// `WriteFailed` where the sink fails. It has taken a beginning then.
pub fn put_string<S: Sink>(sink: &mut S, text: &[u8]) -> Result<(), WriteFailed>
    ensures { Takes S.took S.cut sink.old (quoted_json text.now) sink.new result }
{
    let Ok(()) = sink.take(b"\"") else {
        return Err(WriteFailed);
    };
    let Ok(()) = put_escaped(sink, text) else {
        return Err(WriteFailed);
    };
    sink.take(b"\"")
}

/// Puts texts as one string: one after the other between two quotes, as `put_string` puts one.
///
/// # Errors
/// `WriteFailed` where the sink fails. It has taken a beginning then.
pub fn put_joined<S: Sink>(sink: &mut S, texts: &[&[u8]]) -> Result<(), WriteFailed>
    ensures { Takes S.took S.cut sink.old (quoted_json (flat_map (λ text. text.now) texts.now))
        sink.new result }
{
    let Ok(()) = sink.take(b"\"") else {
        return Err(WriteFailed);
    };
    for text in texts {
        let Ok(()) = put_escaped(sink, text) else {
            return Err(WriteFailed);
        };
    }
    sink.take(b"\"")
}

/// Puts the bytes of a text, with their escapes.
fn put_escaped<S: Sink>(sink: &mut S, text: &[u8]) -> Result<(), WriteFailed>
    ensures { Takes S.took S.cut sink.old (escapes_json text.now) sink.new result }
{
    let mut rest = text;
    while !rest.is_empty() {
        let (front, behind) = rest.split_at(plain_len(rest));
        let Ok(()) = sink.take(front) else {
            return Err(WriteFailed);
        };
        let Some((first, left)) = behind.split_first() else {
            return Ok(());
        };
        let Ok(()) = put_escape(sink, *first) else {
            return Err(WriteFailed);
        };
        rest = left;
    }
    Ok(())
}

/// How many bytes stand for themselves at the beginning of a text.
fn plain_len(text: &[u8]) -> usize
    ensures within { result ≤ length text.now }
    ensures plain { escapes_json (take result text.now) ≡ take result text.now }
{
    let mut end = 0;
    while end < text.len() && stands_for_itself(text[end]) {
        end += 1;
    }
    end
}

/// Whether a byte stands for itself in a string.
fn stands_for_itself(byte: u8) -> bool
    ensures { result ≡ is_plain byte }
{
    byte >= 32 && byte != b'"' && byte != b'\\'
}

/// Puts one byte, by its escape where it has one.
#[tactic(auto, unfolding(crate::specs::Escapes::escape_json, json::specs::Print::escape_byte))]
fn put_escape<S: Sink>(sink: &mut S, byte: u8) -> Result<(), WriteFailed>
    ensures { Takes S.took S.cut sink.old (escape_json byte) sink.new result }
{
    match byte {
        b'"' => sink.take(b"\\\""),
        b'\\' => sink.take(b"\\\\"),
        8 => sink.take(b"\\b"),
        9 => sink.take(b"\\t"),
        10 => sink.take(b"\\n"),
        12 => sink.take(b"\\f"),
        13 => sink.take(b"\\r"),
        0..=31 => sink.take(&[b'\\', b'u', b'0', b'0', hex(byte / 16), hex(byte % 16)]),
        _ => sink.take(&[byte]),
    }
}

/// The digit of a number below sixteen.
fn hex(digit: u8) -> u8
    requires { digit < 16 }
    ensures { result ≡ digit_char digit }
{
    if digit < 10 {
        b'0' + digit
    } else {
        b'a' + (digit - 10)
    }
}
