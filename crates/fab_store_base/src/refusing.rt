//! A store that refuses one call.
ghost use Rattle.std.specs.Prelude.{◌≡◌, true, false};

use crate::{OpenFault, Store, StoreFault};
use fab_names::Name;
use fab_reach_base::Path;
use fab_store_tables::LineChanges;
use fab_world::World;
use std::alloc::Allocator;

/// A store that refuses one call, which it does not make, and hands on all others to the store in
/// it: for tests. `load`, `migrate`, `commit` and `paths_of` count as calls.
#[derive(Drop)]
pub struct RefusingStore<S> {
    inner: S,
    /// How many calls are handed on before the one that is refused.
    left: u64,
    /// How many calls were refused that were not made: 1 at most.
    unmade: u64,
}

impl<S> RefusingStore<S> {
    /// A store that hands on so many calls, and refuses the next one.
    pub fn new(inner: S, calls: u64) -> RefusingStore<S>
        ensures { result.inner ≡ inner }
    {
        RefusingStore {
            inner,
            left: calls,
            unmade: 0,
        }
    }

    /// The store in it.
    pub fn into_inner(self) -> S
        ensures { result ≡ self.inner }
    {
        let RefusingStore {
            inner,
            left: _,
            unmade: _,
        } = self;
        inner
    }
}

/// Whether the next call is the one to be refused; it is counted.
fn is_refused(left: &mut u64, unmade: &mut u64) -> bool
    ensures refused { result ≡ true → (unmade.old ≡ 0) × (unmade.new ≡ 1) }
    ensures handed_on { result ≡ false → unmade.new ≡ unmade.old }
{
    if *left == 0 && *unmade == 0 {
        *unmade = 1;
        return true;
    }
    *left = left.saturating_sub(1);
    false
}

impl<A: Allocator + Copy, S: Store<A>> Store<A> for RefusingStore<S> {
    ghost use Rattle.std.specs.Prelude.{◌+◌, ◌-◌, ◌^◌, min};

    ghost is_clean = { λ s. S.is_clean s.inner };

    ghost is_open = { λ s. S.is_open s.inner };

    ghost is_ready = { λ s. S.is_ready s.inner };

    ghost is_old = { λ s. S.is_old s.inner };

    ghost is_known = { λ s. S.is_known s.inner };

    ghost tables = { λ s. S.tables s.inner };

    ghost may_leave = { λ s. S.may_leave s.inner };

    ghost refused = { λ s. min (S.refused s.inner + s.unmade) (2 ^ 64 - 1) };

    ghost settled = { λ s left is_open is_ready may. S.settled s.inner left is_open is_ready may };

    fn refusals(&self) -> u64 {
        self.inner.refusals().saturating_add(self.unmade)
    }

    fn load(&mut self, alloc: A) -> Result<World<A>, OpenFault> {
        if is_refused(&mut self.left, &mut self.unmade) {
            return Err(OpenFault::Store);
        }
        self.inner.load(alloc)
    }

    fn migrate(&mut self) -> Result<bool, OpenFault> {
        if is_refused(&mut self.left, &mut self.unmade) {
            return Err(OpenFault::Store);
        }
        self.inner.migrate()
    }

    fn commit(&mut self, changes: &LineChanges<A>) -> Result<(), StoreFault> {
        if is_refused(&mut self.left, &mut self.unmade) {
            return Err(StoreFault);
        }
        self.inner.commit(changes)
    }

    fn paths_of(&mut self, alloc: A, host: &Name) -> Result<Vec<Path, A>, StoreFault> {
        if is_refused(&mut self.left, &mut self.unmade) {
            return Err(StoreFault);
        }
        self.inner.paths_of(alloc, host)
    }
}
