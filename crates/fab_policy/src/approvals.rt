//! Who counts for a quorum.
ghost use Rattle.std.specs.Prelude.{◌≡◌};
ghost use Rattle.fab_policy.specs.Verdicts as verdicts;

use crate::act::{Approval, PlanApprovals};
use crate::needs::has_role;
use fab_names::Name;
use fab_policy_base::Caller;

/// Whether it is an approval of the caller, at the revision where it has to be fresh.
fn is_approval_of(approval: &Approval, caller: &Caller, fresh: bool, revision: u64) -> bool
    ensures { result ≡ verdicts.is_approval_of caller.now fresh revision approval.now }
{
    approval.caller == caller.name && (!fresh || approval.revision == revision)
}

/// Whether some approval of the plan is the caller's, at the revision where it has to be fresh.
fn has_approved(plan: &PlanApprovals, revision: u64, fresh: bool, caller: &Caller) -> bool
    ensures { result ≡ verdicts.has_approved plan.now revision fresh caller.now }
{
    plan.approvals
        .iter()
        .any(|x| is_approval_of(x, caller, fresh, revision))
}

/// Whether the caller counts for a quorum: has approved the plan, at this revision where the
/// approval has to be `fresh`, is not the plan's author, and has the role `approver` where one is
/// asked for. It takes no memory.
pub fn counts(
    plan: &PlanApprovals,
    revision: u64,
    approver: &Option<Name>,
    fresh: bool,
    caller: &Caller,
) -> bool
    ensures { result ≡ verdicts.counts plan.now revision approver.now fresh caller.now }
{
    plan.author != caller.name
        && has_approved(plan, revision, fresh, caller)
        && has_role(caller, approver)
}
