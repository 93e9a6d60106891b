//! The allocator that refuses a request: just the one that it was told last, and no other.

use fab_test_alloc::Refusing;
use std::alloc::Global;

/// Whether a box finds memory. It makes one request, and gives its block back.
fn boxes(alloc: &Refusing<Global>) -> bool {
    Box::new(alloc, 7u64).is_ok()
}

/// Whether of eight boxes just that behind so many others finds no memory, of an allocator that was to refuse
/// the first.
fn refuses_one(alloc: &Refusing<Global>, requests: u64) -> bool {
    alloc.refuse_after(0);
    alloc.refuse_after(requests);
    for request in 0..8 {
        if alloc.has_refused() != (request > requests) || boxes(alloc) == (request == requests) {
            return false;
        }
    }
    true
}

#[test]
fn one_request_is_refused_after_as_many_as_told(rt: HostRuntime) {
    let alloc = Refusing::new(rt.alloc());
    assert!(rt; boxes(&alloc) && !alloc.has_refused());
    for requests in 0..4 {
        assert!(rt; refuses_one(&alloc, requests));
    }
    alloc.refuse_after(0);
    alloc.refuse_none();
    assert!(rt; boxes(&alloc) && !alloc.has_refused());
}
