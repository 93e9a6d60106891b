//! An allocator for tests, which refuses one chosen request for memory, or each from a chosen one on.
//!
//! A test hands `&Refusing<Global>` to what it tests in the place of a `Global`: a `&` to an
//! allocator is an allocator, and it may be copied. The test has the first request of a call
//! refused, then the second, and so on, until a call meets no refusal, and looks each time at what
//! the call answered and at what it left:
//!
//! ```text
//! let alloc = Refusing::new(rt.alloc());
//! for requests in 0..1000 {
//!     alloc.refuse_after(requests);
//!     let answer = call(&alloc);
//!     if !alloc.has_refused() {
//!         // the answer with ample memory
//!         break;
//!     }
//!     // the answer for want of memory, and what stands after it
//! }
//! ```
//!
//! With `refuse_all_after` in the place of `refuse_after` each request from the chosen one on is
//! refused: a call that has begun to change something then finds no memory for the rest.
#![tactic(auto)]

ghost use Rattle.std.specs.Prelude.{◌≡◌};

mod plan;

use plan::{Plan, refuses_next};
use std::alloc::{AllocError, Allocator};
use std::cell::Cell;
use std::marker::Model;

/// Passes requests for memory on to another allocator, except for one that it is told to refuse, or
/// for all from that one on.
///
/// A request is a call of `allocate`, as a collection makes for its first block, and for a block
/// that is to grow or to shrink. A refused request answers `AllocError`, and the other allocator
/// does not see it. Blocks that are given back are not counted, and always reach it.
///
/// Contracts see it as the allocator that it passes requests on to: what frees a block of the one
/// frees a block of the other. What it is to refuse lies in a cell, so that a test can tell it
/// through a `&` while collections hold others, and of what a cell holds no contract speaks.
#[derive(Drop)]
pub struct Refusing<B> {
    inner: B,
    plan: Cell<Plan>,
}

impl<B> Model for Refusing<B> {
    ghost Value = { B };

    ghost view = { λ r. r.inner };
}

impl<B> Refusing<B> {
    /// An allocator over `inner`, which passes every request on until it is told otherwise. It takes
    /// no memory itself.
    pub fn new(inner: B) -> Refusing<B>
        ensures { result ≡ inner }
    {
        Refusing {
            inner,
            plan: Cell::new(Plan::PassAll),
        }
    }

    /// From now on passes `requests` requests on, refuses the one after them, and passes all
    /// further ones on.
    ///
    /// This takes the place of what it was told before, and an earlier refusal is forgotten.
    pub fn refuse_after(&self, requests: u64) {
        self.plan.set(Plan::RefuseAfter(requests));
    }

    /// From now on passes `requests` requests on, and refuses all further ones.
    ///
    /// This takes the place of what it was told before, and an earlier refusal is forgotten.
    pub fn refuse_all_after(&self, requests: u64) {
        self.plan.set(Plan::RefuseAllAfter(requests));
    }

    /// From now on passes every request on.
    ///
    /// This takes the place of what it was told before, and an earlier refusal is forgotten.
    pub fn refuse_none(&self) {
        self.plan.set(Plan::PassAll);
    }

    /// Whether it has refused a request since it was made or last told what to refuse.
    pub fn has_refused(&self) -> bool {
        self.plan.get().has_refused()
    }
}

unsafe impl<B: Allocator> Allocator for Refusing<B> {
    ghost dealloc_token = { B.dealloc_token };

    fn allocate(&self, size: usize, align: usize) -> Result<*mut u8, AllocError> {
        if refuses_next(&self.plan) {
            return Err(AllocError);
        }
        self.inner.allocate(size, align)
    }

    unsafe fn deallocate(&self, ptr: *mut u8, size: usize, align: usize) {
        // SAFETY: `inner` gave the block out, and the caller gives it back.
        unsafe { self.inner.deallocate(ptr, size, align) }
    }
}
