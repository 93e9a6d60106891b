//! What a request comes to.

use fab_desk_base::Command;
use std::alloc::Allocator;

/// What a request comes to, whoever asks.
#[derive(Drop)]
pub enum Meant<A: Allocator + Copy> {
    /// A command, with just what the path and the body say.
    Asks(Command<A>),
    /// A captured part of the path names nothing: it is not of the form of what should stand there.
    Unnamed,
    /// The body has a fault: the line of the first one, and 0 where it is the whole body's.
    BadBody(usize),
    /// There was no memory.
    Memory,
}
