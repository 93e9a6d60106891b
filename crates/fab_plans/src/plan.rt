//! Plans, in whatever state they are.
ghost use Rattle.std.specs.Prelude.{◌≡◌, ◌≢◌, OnOk, OnErr, IfErr};
ghost use Rattle.fab_plans.specs.Plans.{seen_plan, new_plan, approved_by, IsApprovalFault};
ghost use Rattle.fab_plans.specs.declared.plan.ApprovalFault.TheVariants.{Memory};

use fab_plans_text::PlanText;
use fab_reach_base::names::Name;
use std::alloc::{AllocFailed, Allocator};
use std::collections::BTreeMap;

/// Why an approval is refused. The plan is then as it was.
#[derive(Clone, Copy, Debug, Drop)]
pub enum ApprovalFault {
    /// The caller is the author.
    OwnPlan,
    /// There was no memory.
    Memory,
}

impl<T: Drop> From<AllocFailed<T>> for ApprovalFault {
    ghost from_gives = { λ _ e. e ≡ Memory };

    fn from(_error: AllocFailed<T>) -> ApprovalFault {
        ApprovalFault::Memory
    }
}

/// What a plan has. A contract sees it as a `PlanRows`, by `seen_plan`.
pub struct Plan<A: Allocator + Copy> {
    /// Who staged it.
    pub author: Name,
    /// Its steps, in their order, as their printed form.
    pub text: PlanText<A>,
    /// The callers who approved it, each with the revision of the last time.
    pub approvals: BTreeMap<Name, u64, A>,
}

// It is written out, so that a caller does not prove again how each part is dropped.
impl<A: Allocator + Copy> Drop for Plan<A> {
    fn drop(self) {
        let Plan {
            author: _,
            text: _,
            approvals: _,
        } = self;
    }
}

impl<A: Allocator + Copy> Plan<A> {
    /// The plan of an author, with these steps, which nobody approved yet.
    pub(crate) fn new(alloc: A, author: Name, text: PlanText<A>) -> Self
        ensures { seen_plan result ≡ new_plan author text }
    {
        Plan {
            author,
            text,
            approvals: BTreeMap::new(alloc),
        }
    }

    /// Keeps the approval of a caller at a revision, in place of an earlier one of that caller.
    ///
    /// # Errors
    /// `OwnPlan` where the caller is the author; `Memory`. The plan is then as it was.
    pub(crate) fn approve(&mut self, caller: Name, revision: u64) -> Result<(), ApprovalFault>
        ensures other { OnOk result (caller ≢ self.old.author) }
        ensures ok { OnOk result (seen_plan self.new ≡ approved_by caller revision (seen_plan self.old)) }
        ensures refused { IfErr result (IsApprovalFault (seen_plan self.old) caller) }
        ensures err { OnErr result (seen_plan self.new ≡ seen_plan self.old) }
    {
        if caller == self.author {
            return Err(ApprovalFault::OwnPlan);
        }
        self.approvals.insert(caller, revision)?;
        Ok(())
    }
}
