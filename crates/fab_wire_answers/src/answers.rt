//! Answers as bytes: a status line, header lines, and a body (RFC 9112), written without memory.

ghost use Rattle.std.specs.Prelude.{◌≡◌, ◌-◌, ◌^◌, length, min};
ghost use Rattle.fab_wire_streams.specs.Counting.{inner_of, failures_of};
ghost use Rattle.fab_wire_streams.specs.Taking.{Takes};
ghost use Rattle.fab_wire_streams.specs.JsonText.{json_text};
ghost use Rattle.fab_wire_answers.specs.Bodies.{body_of};
ghost use Rattle.fab_wire_answers.specs.Codes.{line_of};
ghost use Rattle.fab_wire_answers.specs.Messages.{status_of, own_line_of, phrase_of, head_text, message, memory_text};
ghost use Rattle.fab_wire_answers.specs.Telling.{Tells, TellsMessage, failures_after_told};

use crate::codes::{Code, code_of_fault, code_of_wire};
use crate::refusals::put_wire_refusal;
use crate::replies::put_reply;
use fab_desk_base::{DeskFault, Reply};
use fab_wire_base::requests::Refusal;
use fab_wire_streams::counted::Counted;
use fab_wire_streams::object;
use fab_wire_streams::sink::{Sink, Size, put_all};
use fab_wire_streams::streams::WriteFailed;
use fab_wire_streams::values::{Json, Text, text_len};
use http::StatusCode;
use itoa::Buffer;
use std::alloc::Allocator;
use std::io::Write;

/// What is answered to a request.
#[derive(Drop)]
pub enum Answer<A: Allocator + Copy> {
    /// The request is refused before the desk is asked.
    Refused(Refusal),
    /// What the desk replies.
    Replied(Reply<A>),
}

/// What came of writing an answer.
#[derive(Clone, Copy)]
pub enum Told {
    /// All of it was written, with this status (RFC 9110, section 15).
    Answered(u16),
    /// A write failed, and a beginning of it was written.
    Unsent,
}

/// Writes an answer: `Answered` with its status and all its bytes, or `Unsent` at the first write
/// that fails, which is not tried again. It takes no memory.
///
/// Where the body would have 18446744073709551615 bytes or more, which no machine holds, the answer
/// of want of memory is written in its place.
pub fn tell<A: Allocator + Copy, W: Write>(writer: &mut Counted<W>, answer: &Answer<A>) -> Told
    ensures told { Tells (W.contents (inner_of writer.old))
        (W.contents (inner_of writer.new)) answer.now result }
    ensures count { failures_of writer.new ≡ failures_after_told result (failures_of writer.old) }
{
    let len = body_len(answer);
    if len < u64::MAX {
        return tell_sized(writer, answer, len);
    }
    tell_memory(writer)
}

/// Writes the answer of want of memory.
fn tell_memory<W: Write>(writer: &mut Counted<W>) -> Told
    ensures told { TellsMessage (W.contents (inner_of writer.old))
        (W.contents (inner_of writer.new)) (line_of Code.Memory).status memory_text result }
    ensures count { failures_of writer.new ≡ failures_after_told result (failures_of writer.old) }
{
    match put_memory(writer) {
        Ok(()) => Told::Answered(Code::Memory.status().as_u16()),
        Err(_) => Told::Unsent,
    }
}

/// Puts the answer of want of memory.
fn put_memory<S: Sink>(sink: &mut S) -> Result<(), WriteFailed>
    ensures { Takes S.took S.cut sink.old memory_text sink.new result }
{
    let code = Code::Memory;
    let body = object! { "code": code.number(), "error": Text(code.name()) };
    let Ok(()) = put_head(sink, code.status(), "", text_len(&body)) else {
        return Err(WriteFailed);
    };
    body.put(sink)
}

/// Writes an answer whose body has so many bytes.
fn tell_sized<A: Allocator + Copy, W: Write>(
    writer: &mut Counted<W>,
    answer: &Answer<A>,
    len: u64,
) -> Told
    ensures told { TellsMessage (W.contents (inner_of writer.old))
        (W.contents (inner_of writer.new)) (status_of answer.now) (message answer.now len) result }
    ensures count { failures_of writer.new ≡ failures_after_told result (failures_of writer.old) }
{
    match put_message(writer, answer, len) {
        Ok(()) => Told::Answered(status(answer).as_u16()),
        Err(_) => Told::Unsent,
    }
}

/// Puts the head lines of an answer, with this length of its body, and its body.
fn put_message<A: Allocator + Copy, S: Sink>(
    sink: &mut S,
    answer: &Answer<A>,
    len: u64,
) -> Result<(), WriteFailed>
    ensures { Takes S.took S.cut sink.old (message answer.now len) sink.new result }
{
    let Ok(()) = put_head(sink, status(answer), own_line(answer), len) else {
        return Err(WriteFailed);
    };
    put_body(sink, answer)
}

/// Puts the head lines of an answer.
fn put_head<S: Sink>(
    sink: &mut S,
    status: StatusCode,
    own_line: &'static str,
    len: u64,
) -> Result<(), WriteFailed>
    ensures { Takes S.took S.cut sink.old (head_text status own_line.now len) sink.new result }
{
    let mut code = Buffer::new();
    let mut digits = Buffer::new();
    let texts = [
        b"HTTP/1.1 ".as_slice(),
        code.format(status.as_u16()).as_bytes(),
        b" ".as_slice(),
        phrase(status).as_bytes(),
        b"\r\nContent-Type: application/json\r\nContent-Length: ".as_slice(),
        digits.format(len).as_bytes(),
        b"\r\n".as_slice(),
        own_line.as_bytes(),
        b"Connection: close\r\n\r\n".as_slice(),
    ];
    put_all(sink, &texts)
}

/// Puts the body of an answer alone: compact JSON, with no line end.
///
/// # Errors
/// `WriteFailed` where the sink fails, which ends it. It has taken a beginning then.
pub fn put_body<A: Allocator + Copy, S: Sink>(
    sink: &mut S,
    answer: &Answer<A>,
) -> Result<(), WriteFailed>
    ensures { Takes S.took S.cut sink.old (json_text (body_of answer.now)) sink.new result }
{
    match answer {
        Answer::Refused(why) => put_wire_refusal(sink, *why),
        Answer::Replied(reply) => put_reply(sink, reply),
    }
}

/// How many bytes the body of an answer has, at most 18446744073709551615. They are counted by the
/// call that writes them.
fn body_len<A: Allocator + Copy>(answer: &Answer<A>) -> u64
    ensures { result ≡ min (length (json_text (body_of answer.now))) (2 ^ 64 - 1) }
{
    let mut size = Size::new();
    match put_body(&mut size, answer) {
        Ok(()) => size.bytes(),
        Err(_) => unreachable!(),
    }
}

/// The status of an answer (RFC 9110, section 15).
pub fn status<A: Allocator + Copy>(answer: &Answer<A>) -> StatusCode
    ensures { result ≡ status_of answer.now }
{
    match answer {
        Answer::Refused(why) => code_of_wire(*why).status(),
        Answer::Replied(Reply::Refused(why)) => code_of_fault(*why).status(),
        Answer::Replied(_) => StatusCode::OK,
    }
}

/// The header line that an answer has beside those of every answer: the scheme by which a caller is
/// known (RFC 9110, section 11.6.1), or the methods of the route.
fn own_line<A: Allocator + Copy>(answer: &Answer<A>) -> &'static str
    ensures { result.now ≡ own_line_of answer.now }
{
    match answer {
        Answer::Refused(Refusal::NoCaller) => "WWW-Authenticate: Bearer\r\n",
        Answer::Refused(Refusal::BadMethod(route)) => route.allow_line(),
        Answer::Replied(Reply::Refused(DeskFault::NoCaller)) => "WWW-Authenticate: Bearer\r\n",
        _ => "",
    }
}

/// The phrase of a status, as the crate `http` has it.
fn phrase(status: StatusCode) -> &'static str
    ensures { result.now ≡ phrase_of status }
{
    match status.canonical_reason() {
        Some(phrase) => phrase,
        None => "",
    }
}
