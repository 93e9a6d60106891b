//! A desk over a store, and what the tests ask of it. A call with a long contract is dear in each function that
//! makes it: so each such call stands in one function here, and callers see a type parameter.

use fab_policy_base::{Policy, TRIAL_POLICY};
use fab_policy_text::ReadPolicy;
use fab_reach::IndexBook;
use fab_store::{OpenFault, RefusingStore, Store};
use fab_wire::{Desk, serve_one};
use fab_wire_base::routes::Routes;
use fab_wire_streams::counted::Counted;
use std::alloc::{Allocator, Global};
use std::process::Abort;

/// A desk over a store that may refuse a call, and the allocator that its memory comes from.
pub struct Trial<A: Allocator + Copy, S: Store<A>> {
    heap: A,
    desk: Desk<A, RefusingStore<S>, IndexBook<A>>,
}

// It is written out, so that a caller does not prove again how each part is dropped.
impl<A: Allocator + Copy, S: Store<A>> Drop for Trial<A, S> {
    fn drop(self) {
        let Trial { heap: _, desk: _ } = self;
    }
}

/// What the tests ask of such a desk.
pub trait Asked<A: Allocator + Copy, S>: Sized + Drop {
    /// A desk over the store, or why there is none, with the store.
    fn open(
        heap: A,
        store: RefusingStore<S>,
        policy: Policy,
    ) -> Result<Self, (OpenFault, RefusingStore<S>)>;

    /// Serves the bytes of a request by these routes, and gives the bytes of the answer.
    fn answer(&mut self, global: Global, routes: &Routes, moment: u64, request: &[u8]) -> Vec<u8>;

    /// Whether somebody has this token.
    fn knows(&self, token: &str) -> bool;

    fn is_halted(&self) -> bool;

    /// How many pairs of ports it has asked about since it was opened.
    fn pairs_asked(&self) -> u64;

    /// The store of a halted desk, which it hands out once.
    fn release(&mut self) -> Option<RefusingStore<S>>;

    /// Opens a halted desk again over the store: whether it was halted, and serves.
    fn reopen(&mut self, store: RefusingStore<S>) -> bool;

    /// The store that is there, if any.
    fn close(self) -> Option<RefusingStore<S>>;
}

impl<A: Allocator + Copy, S: Store<A>> Asked<A, S> for Trial<A, S> {
    fn open(
        heap: A,
        store: RefusingStore<S>,
        policy: Policy,
    ) -> Result<Trial<A, S>, (OpenFault, RefusingStore<S>)> {
        match Desk::open(heap, store, policy) {
            Ok(desk) => Ok(Trial { heap, desk }),
            Err(unopened) => Err(unopened),
        }
    }

    fn answer(&mut self, global: Global, routes: &Routes, moment: u64, request: &[u8]) -> Vec<u8> {
        let mut reader = Counted::new(request);
        let mut writer = Counted::new(Vec::new(global));
        let _outcome = serve_one(
            self.heap,
            global,
            routes,
            &mut self.desk,
            moment,
            &mut reader,
            &mut writer,
        );
        writer.into_inner()
    }

    fn knows(&self, token: &str) -> bool {
        self.desk.knows(token)
    }

    fn is_halted(&self) -> bool {
        self.desk.halted()
    }

    fn pairs_asked(&self) -> u64 {
        self.desk.pairs_asked()
    }

    fn release(&mut self) -> Option<RefusingStore<S>> {
        self.desk.release()
    }

    fn reopen(&mut self, store: RefusingStore<S>) -> bool {
        self.desk.halted() && self.desk.reopen(store).is_ok()
    }

    fn close(self) -> Option<RefusingStore<S>> {
        let Trial { heap: _, desk } = self;
        desk.close()
    }
}

/// The policy of the tests.
fn policy_of(rt: &(impl Abort + AllocGlobal)) -> Policy {
    match Policy::read(rt.alloc(), TRIAL_POLICY) {
        Ok(policy) => policy,
        Err(_) => panic!(rt; "no policy"),
    }
}

/// A desk with the policy of the tests over the store, or why there is none, with the store.
pub fn open<A: Allocator + Copy, S, D: Asked<A, S>>(
    rt: &(impl Abort + AllocGlobal),
    heap: A,
    store: RefusingStore<S>,
) -> Result<D, (OpenFault, RefusingStore<S>)> {
    D::open(heap, store, policy_of(rt))
}

/// The same, where there is one.
pub fn opened<A: Allocator + Copy, S: Drop, D: Asked<A, S>>(
    rt: &(impl Abort + AllocGlobal),
    heap: A,
    store: RefusingStore<S>,
) -> D {
    match open(rt, heap, store) {
        Ok(desk) => desk,
        Err(_) => panic!(rt; "no desk"),
    }
}

/// The store of the desk, which ends.
pub fn closed<A: Allocator + Copy, S, D: Asked<A, S>>(
    rt: &impl Abort,
    desk: D,
) -> RefusingStore<S> {
    match desk.close() {
        Some(store) => store,
        None => panic!(rt; "no store"),
    }
}
