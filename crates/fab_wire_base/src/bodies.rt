//! Takes the body of a request, of the length that its head gave.

ghost use Rattle.std.specs.Prelude.{◌≡◌, ◌≤◌, length, take, drop};
ghost use Rattle.fab_wire_streams.specs.Counting.{inner_of, failures_of};
ghost use Rattle.fab_wire_base.specs.Taking.{Fills, TakesBody, failures_after_fill, failures_after_body};

use fab_wire_streams::counted::Counted;
use std::alloc::Allocator;
use std::io::Read;

/// A body, as far as it came.
#[derive(Drop)]
pub enum Body<A: Allocator> {
    /// All its bytes.
    Whole(Vec<u8, A>),
    /// The input ended before its length.
    Short,
    /// A read failed, and nothing was read behind it.
    ReadFailed,
    /// No memory for it.
    Memory,
}

/// Takes a body of `size` bytes, of which the first stand in `have` already, together with any
/// bytes that follow it.
pub fn take_body<A: Allocator + Copy, R: Read>(
    alloc: A,
    reader: &mut Counted<R>,
    have: &[u8],
    size: usize,
) -> Body<A>
    ensures body { TakesBody (R.remaining (inner_of reader.old)) have.now size result }
    ensures count { failures_of reader.new ≡ failures_after_body result (failures_of reader.old) }
{
    if size <= have.len() {
        return match Vec::from_slice(alloc, &have[..size]) {
            Ok(body) => Body::Whole(body),
            Err(_) => Body::Memory,
        };
    }
    let Ok(mut body) = Vec::from_slice(alloc, have) else {
        return Body::Memory;
    };
    if body.resize(size, 0).is_err() {
        return Body::Memory;
    }
    match fill_from(reader, body.as_mut_slice(), have.len()) {
        Filled::Whole => Body::Whole(body),
        Filled::Short => Body::Short,
        Filled::Failed => Body::ReadFailed,
    }
}

/// How much of a buffer the input filled.
#[derive(Clone, Copy)]
enum Filled {
    Whole,
    Short,
    Failed,
}

/// Reads until the buffer is full from `at` on, or the input ends.
fn fill_from<R: Read>(reader: &mut Counted<R>, buf: &mut [u8], at: usize) -> Filled
    requires { at ≤ length buf.old }
    ensures front { take at buf.new ≡ take at buf.old }
    ensures rest { Fills (R.remaining (inner_of reader.old))
        (R.remaining (inner_of reader.new)) (drop at buf.new) result }
    ensures count { failures_of reader.new ≡ failures_after_fill result (failures_of reader.old) }
{
    fill(reader, &mut buf[at..])
}

/// Reads until the buffer is full or the input ends.
fn fill<R: Read>(reader: &mut Counted<R>, buf: &mut [u8]) -> Filled
    ensures bytes { Fills (R.remaining (inner_of reader.old))
        (R.remaining (inner_of reader.new)) buf.new result }
    ensures count { failures_of reader.new ≡ failures_after_fill result (failures_of reader.old) }
{
    let mut filled = 0;
    while filled < buf.len() {
        let Ok(given) = reader.read_at(buf, filled) else {
            return Filled::Failed;
        };
        if given == 0 {
            return Filled::Short;
        }
        filled += given;
    }
    Filled::Whole
}
