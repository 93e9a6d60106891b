//! A request and its answer as a line of a table tells them, and their bytes.

use std::alloc::Global;
use std::fmt::Write;
use std::test::Fail;

/// A request, and its answer.
#[derive(Clone, Copy)]
pub struct Turn<'t> {
    /// Who asks: the token without its `t-`.
    caller: &'t str,
    /// When, in Unix seconds.
    pub moment: u64,
    method: &'t str,
    path: &'t str,
    body: &'t str,
    /// The status and its phrase.
    status: &'t str,
    /// The body of the answer.
    answer: &'t str,
}

/// Who asks, and when: at 0 where it is not told.
fn asker_of(text: &str) -> (&str, u64) {
    match text.split_once('@') {
        Some((caller, moment)) => (caller, moment.parse().unwrap_or(0)),
        None => (text, 0),
    }
}

/// A turn as the tables tell it: the caller, the method, the path, and the body where it has some
/// bytes, parted by spaces; ` -> `, the status, `: ` and the body of the answer.
fn parts_of(text: &str) -> Option<Turn<'_>> {
    let (request, wanted) = text.split_once(" -> ")?;
    let (status, answer) = wanted.split_once(": ")?;
    let (asker, rest) = request.split_once(' ')?;
    let (method, rest) = rest.split_once(' ')?;
    let (path, body) = rest.split_once(' ').unwrap_or((rest, ""));
    let (caller, moment) = asker_of(asker);
    Some(Turn {
        caller,
        moment,
        method,
        path,
        body,
        status,
        answer,
    })
}

/// The same.
///
/// # Errors
/// Where the text tells no turn.
pub fn turn_of(text: &str) -> Result<Turn<'_>, Fail> {
    match parts_of(text) {
        Some(turn) => Ok(turn),
        None => Err(Fail::new("no turn")),
    }
}

/// The bytes of a request and of its answer.
#[derive(Drop)]
pub struct Exchange {
    pub request: String,
    pub answer: String,
}

/// The end of the head, and the body where there may be one, whose length is told then.
fn write_body(text: &mut String, method: &str, body: &str) -> Result<(), Fail> {
    if method == "GET" || method == "DELETE" {
        text.push_str("\r\n")?;
        return Ok(());
    }
    let length = body.len();
    write!(text, "Content-Length: {length}\r\n\r\n{body}")?;
    Ok(())
}

fn write_request(text: &mut String, turn: &Turn<'_>) -> Result<(), Fail> {
    let Turn {
        caller,
        moment: _,
        method,
        path,
        body,
        status: _,
        answer: _,
    } = *turn;
    write!(
        text,
        "{method} {path} HTTP/1.1\r\nAuthorization: Bearer t-{caller}\r\n"
    )?;
    write_body(text, method, body)
}

fn write_answer(text: &mut String, turn: &Turn<'_>) -> Result<(), Fail> {
    let status = turn.status;
    let answer = turn.answer;
    let length = answer.len();
    write!(
        text,
        "HTTP/1.1 {status}\r\nContent-Type: application/json\r\nContent-Length: {length}\r\nConnection: close\r\n\r\n{answer}"
    )?;
    Ok(())
}

fn write_both(exchange: &mut Exchange, turn: &Turn<'_>) -> Result<(), Fail> {
    write_request(&mut exchange.request, turn)?;
    write_answer(&mut exchange.answer, turn)
}

/// The bytes of a request and of its answer.
///
/// # Errors
/// Where there is no memory.
pub fn exchange_of(alloc: Global, turn: &Turn<'_>) -> Result<Exchange, Fail> {
    let mut exchange = Exchange {
        request: String::new(alloc),
        answer: String::new(alloc),
    };
    write_both(&mut exchange, turn)?;
    Ok(exchange)
}
