//! Requests and their answers, as lines of a table tell them.

use fab_test_wire::{Exchange, exchange_of, turn_of};
use std::process::Abort;
use std::test::Fail;

/// What was made. Ends the test where nothing was.
fn made<T>(rt: &impl Abort, made: Result<T, Fail>, what: &str) -> T {
    match made {
        Ok(made) => made,
        Err(_fail) => panic!(rt; "no {what}"),
    }
}

/// What a line of a table asks, and the answer. Ends the test where the text tells no request.
pub fn exchange_in(rt: &(impl Abort + AllocGlobal), text: &str) -> Exchange {
    let turn = made(rt, turn_of(text), "turn");
    made(rt, exchange_of(rt.alloc(), &turn), "memory")
}
