//! Which of the coming requests are refused.

ghost use Rattle.std.specs.Prelude.{ℕ, ◌+◌, ◌↔◌, ◌⊎◌, IsTrue};
ghost use Rattle.fab_test_alloc.specs.Plans.{HasRefused, RefusesAfter};

use std::cell::Cell;

/// What an allocator has still to refuse.
#[derive(Clone, Copy)]
pub enum Plan {
    /// Every request is passed on.
    PassAll,
    /// The request that comes after this many others is refused, and no other.
    RefuseAfter(u64),
    /// A request was refused; every further one is passed on.
    Refused,
    /// Each request that comes after this many others is refused.
    RefuseAllAfter(u64),
    /// A request was refused; every further one is refused too.
    RefusesAll,
}

impl Plan {
    /// Whether the very next request is refused.
    fn is_due(self) -> bool
        ensures { IsTrue result ↔ RefusesAfter self 0 }
    {
        matches!(
            self,
            Plan::RefuseAfter(0) | Plan::RefuseAllAfter(0) | Plan::RefusesAll
        )
    }

    /// Whether a request was refused.
    pub fn has_refused(self) -> bool
        ensures { IsTrue result ↔ HasRefused self }
    {
        matches!(self, Plan::Refused | Plan::RefusesAll)
    }

    /// What is still to be refused once the next request was passed on or refused.
    fn behind_next(self) -> Plan
        ensures rest { (n : ℕ) → (RefusesAfter result n ↔ RefusesAfter self (n + 1)) }
        ensures refused { HasRefused result ↔ (HasRefused self ⊎ RefusesAfter self 0) }
    {
        match self {
            Plan::PassAll => Plan::PassAll,
            Plan::RefuseAfter(0) | Plan::Refused => Plan::Refused,
            Plan::RefuseAfter(requests) => Plan::RefuseAfter(requests - 1),
            Plan::RefuseAllAfter(0) | Plan::RefusesAll => Plan::RefusesAll,
            Plan::RefuseAllAfter(requests) => Plan::RefuseAllAfter(requests - 1),
        }
    }
}

/// Takes the next request off the plan in `plan`, and says whether it is refused.
pub fn refuses_next(plan: &Cell<Plan>) -> bool {
    let before = plan.get();
    plan.set(before.behind_next());
    before.is_due()
}
