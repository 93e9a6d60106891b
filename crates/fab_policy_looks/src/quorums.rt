//! Who counts for the quorum of a rule, and whether what it asks of approvals is met.
ghost use Rattle.std.specs.Prelude.{◌≡◌, Some, count_by};
ghost use Rattle.fab_policy.specs.Verdicts as verdicts;
ghost use Rattle.fab_policy_looks.specs.Findings.{counted_for};

use fab_names::Name;
use fab_policy::{Act, PlanApprovals, counts};
use fab_policy_base::{Caller, Policy, Quorum};

/// How many callers count for the quorum of a plan.
fn count_signers(callers: &[Caller], plan: &PlanApprovals, revision: u64, quorum: &Quorum) -> usize
    ensures { result ≡ count_by (verdicts.counts plan.now revision quorum.now.approver quorum.now.fresh) callers.now }
{
    callers
        .iter()
        .filter(|caller| counts(plan, revision, &quorum.approver, quorum.fresh, caller))
        .count()
}

/// How many callers count for the quorum: none where there is no plan.
pub fn count_for(policy: &Policy, act: &Act, quorum: &Quorum) -> usize
    ensures { result ≡ counted_for policy.now.callers act.now.revision quorum.now act.now.plan }
{
    match &act.plan {
        Some(plan) => count_signers(policy.callers(), plan, act.revision, quorum),
        None => 0,
    }
}

/// Whether so many callers count for the quorum as it asks for.
pub fn has_quorum(policy: &Policy, act: &Act, quorum: &Quorum) -> bool
    ensures { result ≡ verdicts.has_quorum policy.now.callers act.now.revision quorum.now act.now.plan }
{
    match &act.plan {
        Some(plan) => quorum.count <= count_signers(policy.callers(), plan, act.revision, quorum),
        None => false,
    }
}

/// Whether the caller counts for the quorum of the plan, and lists the tenant.
fn signs_for(act: &Act, quorum: &Quorum, tenant: &Name, caller: &Caller) -> bool
    ensures { result ≡ verdicts.signs_for act.now.revision quorum.now.approver quorum.now.fresh act.now.plan tenant.now caller.now }
{
    match &act.plan {
        Some(plan) => {
            counts(plan, act.revision, &quorum.approver, quorum.fresh, caller)
                && caller.lists_tenant(tenant)
        }
        None => false,
    }
}

/// Whether some caller signs for the tenant.
fn is_signed_for(callers: &[Caller], act: &Act, quorum: &Quorum, tenant: &Name) -> bool
    ensures { result ≡ verdicts.is_signed_for callers.now act.now.revision quorum.now.approver quorum.now.fresh act.now.plan tenant.now }
{
    callers
        .iter()
        .any(|caller| signs_for(act, quorum, tenant, caller))
}

/// Whether each touched tenant is signed for.
fn is_each_signed_for(callers: &[Caller], act: &Act, quorum: &Quorum) -> bool
    ensures { result ≡ verdicts.is_each_signed_for callers.now act.now quorum.now.approver quorum.now.fresh }
{
    act.touched
        .iter()
        .all(|tenant| is_signed_for(callers, act, quorum, tenant))
}

/// Whether each touched tenant is signed for, where that is asked for.
pub fn are_tenants_met(policy: &Policy, act: &Act, quorum: &Quorum) -> bool
    ensures { result ≡ verdicts.meets_tenants policy.now.callers act.now (Some quorum.now) }
{
    !quorum.each_tenant || is_each_signed_for(policy.callers(), act, quorum)
}
