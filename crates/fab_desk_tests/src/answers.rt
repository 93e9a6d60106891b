//! What a desk answers to the bytes of a request.

use crate::desks::Asked;
use fab_test_wire::{Exchange, exchange_of, turn_of};
use fab_wire_base::routes::Routes;
use std::alloc::Allocator;
use std::process::Abort;
use std::test::Fail;

/// A request at its moment, in Unix seconds, and its answer where nothing is refused to the desk.
#[derive(Drop)]
pub struct Asking {
    moment: u64,
    exchange: Exchange,
}

impl Asking {
    /// Whether it asks what is there, and changes nothing.
    pub fn is_read(&self) -> bool {
        self.exchange.request.starts_with("GET ")
    }
}

/// What was made. Ends the test where nothing was.
fn made<T>(rt: &impl Abort, made: Result<T, Fail>, what: &str) -> T {
    match made {
        Ok(made) => made,
        Err(_fail) => panic!(rt; "no {what}"),
    }
}

/// What a line of a table asks. Ends the test where the text tells no request.
pub fn asking_of(rt: &(impl Abort + AllocGlobal), text: &str) -> Asking {
    let turn = made(rt, turn_of(text), "turn");
    let exchange = made(rt, exchange_of(rt.alloc(), &turn), "memory");
    Asking {
        moment: turn.moment,
        exchange,
    }
}

/// The answer where there is no memory, before anything is changed.
const MEMORY: &[u8] =
    b"HTTP/1.1 503 Service Unavailable\r\nContent-Type: application/json\r\nContent-Length: 28\r\nConnection: close\r\n\r\n{\"code\":21,\"error\":\"memory\"}";

/// The answer where the store refused a call.
const STORE: &[u8] =
    b"HTTP/1.1 503 Service Unavailable\r\nContent-Type: application/json\r\nContent-Length: 27\r\nConnection: close\r\n\r\n{\"code\":22,\"error\":\"store\"}";

/// What an answer is.
#[derive(Clone, Copy)]
pub enum Came {
    /// The one where nothing is refused to the desk.
    Told,
    /// That there is no memory.
    Memory,
    /// That the store refused a call.
    Refused,
}

/// What the answer is. Any other ends the test.
fn came_of(rt: &impl Abort, answer: &[u8], wanted: &str) -> Came {
    if answer == wanted.as_bytes() {
        return Came::Told;
    }
    if answer == MEMORY {
        return Came::Memory;
    }
    if answer != STORE {
        panic!(rt; "{}", str::from_utf8(answer).unwrap_or("no text"));
    }
    Came::Refused
}

/// Has the desk serve the request: what its answer is.
pub fn ask<A: Allocator + Copy, S, D: Asked<A, S>>(
    rt: &(impl Abort + AllocGlobal),
    desk: &mut D,
    asking: &Asking,
) -> Came {
    let routes = Routes::new(rt.alloc()).expect(rt, "routes");
    let request = asking.exchange.request.as_bytes();
    let answer = desk.answer(rt.alloc(), &routes, asking.moment, request);
    came_of(rt, answer.as_slice(), asking.exchange.answer.as_str())
}

/// Has the desk serve the request of a line: what its answer is.
pub fn ask_line<A: Allocator + Copy, S, D: Asked<A, S>>(
    rt: &(impl Abort + AllocGlobal),
    desk: &mut D,
    line: &str,
) -> Came {
    ask(rt, desk, &asking_of(rt, line))
}

/// Has the desk serve each of these, to which nothing is refused.
pub fn ask_each<A: Allocator + Copy, S, D: Asked<A, S>>(
    rt: &(impl Abort + AllocGlobal),
    desk: &mut D,
    lines: &[&str],
) {
    for line in lines {
        assert!(rt; matches!(ask_line(rt, desk, line), Came::Told));
    }
}
