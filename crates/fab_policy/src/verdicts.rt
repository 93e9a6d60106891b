//! The verdict of a policy on an act.
ghost use Rattle.std.specs.Prelude.{◌≡◌, ◌≤◌, Some, IfSome, IsTrue, MatchOption, codes, count_by, length, nat_le, take, ◌&&◌, if◌then◌else◌};
ghost use Rattle.std.specs.List.{list_all, list_any, zip};
ghost use Rattle.fab_policy_base.specs.Callers.{lists_tenant};
ghost use Rattle.fab_policy_base.specs.Limits.{most_callers};
ghost use Rattle.fab_policy.specs.Found as found;
ghost use Rattle.fab_policy.specs.Found.{AreFound, IsKnown};
ghost use Rattle.fab_policy.specs.Verdicts as verdicts;

use crate::act::{Act, Need, Verdict};
use crate::approvals::counts;
use crate::needs::{applies, has_role, is_own, meets_role};
use crate::window::some_is_open;
use fab_names::Name;
use fab_policy_base::laws::policy_is_sound;
use fab_policy_base::limits::MOST_CALLERS;
use fab_policy_base::{Caller, Policy, Quorum, Rule};

/// Whether the window is open, where one is asked for.
fn meets_window(policy: &Policy, window: &Option<Name>, moment: u64) -> bool
    ensures { result ≡ verdicts.meets_window policy.now.windows moment window.now }
{
    match window {
        Some(name) => some_is_open(policy.windows(), name, moment),
        None => true,
    }
}

/// Whether the caller counts for a quorum that asks for no role.
fn has_signed(act: &Act, fresh: bool, caller: &Caller) -> bool
    ensures { result ≡ found.has_signed_any act.now fresh act.now.plan caller.now }
{
    match &act.plan {
        Some(plan) => counts(plan, act.revision, &None, fresh, caller),
        None => false,
    }
}

/// For each caller, whether they count for a quorum that asks for no role.
fn find_signed(act: &Act, callers: &[Caller], fresh: bool) -> [bool; MOST_CALLERS]
    requires { length callers.now ≤ most_callers }
    ensures { take (length callers.now) result ≡ found.marks act.now fresh callers.now }
{
    let mut signed = [false; MOST_CALLERS];
    for (i, caller) in callers.iter().enumerate() {
        signed[i] = has_signed(act, fresh, caller);
    }
    signed
}

/// What rules ask of an act that does not hang on the rule, found once for all of them.
#[derive(Clone, Copy)]
struct Findings<'a> {
    /// Whether each touched tenant is the caller's.
    own: bool,
    /// For each caller of the policy, whether they count for a quorum that asks for no role,
    signed: &'a [bool],
    /// and for one that asks for fresh approvals.
    fresh: &'a [bool],
}

impl<'a> Findings<'a> {
    /// For each caller, whether they count for a quorum that asks for no role.
    fn signed(&self, fresh: bool) -> &'a [bool]
        ensures { result.now ≡ (if fresh then self.now.fresh.now else self.now.signed.now) }
    {
        if fresh { self.fresh } else { self.signed }
    }
}

/// How many of the callers that are marked have the role, where one is asked for.
fn count_approvers(approver: &Option<Name>, callers: &[Caller], signed: &[bool]) -> usize
    ensures { result ≡ count_by (λ p. p.1 && verdicts.has_role approver.now p.0) (zip callers.now signed.now) }
{
    callers
        .iter()
        .zip(signed)
        .filter(|(caller, signed)| **signed && has_role(caller, approver))
        .count()
}

/// Whether so many callers count for the quorum as it asks for.
fn has_quorum(policy: &Policy, findings: &Findings, quorum: &Quorum) -> bool
    ensures { result ≡ nat_le quorum.now.count (count_by
        (λ p. p.1 && verdicts.has_role quorum.now.approver p.0)
        (zip policy.now.callers (if quorum.now.fresh then findings.now.fresh.now else findings.now.signed.now))) }
{
    let signed = findings.signed(quorum.fresh);
    quorum.count <= count_approvers(&quorum.approver, policy.callers(), signed)
}

/// Whether enough callers approved, where approvals are asked for.
fn meets_approvals(
    policy: &Policy,
    act: &Act,
    findings: &Findings,
    approvals: &Option<Quorum>,
) -> bool
    requires { AreFound policy.now act.now findings.now }
    ensures { result ≡ verdicts.meets_approvals policy.now.callers act.now approvals.now }
{
    match approvals {
        Some(quorum) => act.plan.is_some() && has_quorum(policy, findings, quorum),
        None => true,
    }
}

/// Whether each touched tenant is signed for by callers with a role, where one is asked for, and by fresh
/// approvals alone where these have to be. Rules mostly ask the same, so what one of them asked is kept
/// for the next.
#[derive(Clone, Copy)]
struct Signing {
    approver: Option<Name>,
    fresh: bool,
    /// Whether each is.
    each: bool,
}

impl Signing {
    /// Whether the quorum asks the same.
    fn is_asked_by(&self, quorum: &Quorum) -> bool
        ensures { IsTrue result → (self.now.approver ≡ quorum.now.approver) × (self.now.fresh ≡ quorum.now.fresh) }
    {
        self.approver == quorum.approver && self.fresh == quorum.fresh
    }
}

/// What is known of what the quorum asks, if anything is.
fn known_for(known: &Option<Signing>, quorum: &Quorum) -> Option<bool>
    ensures { IfSome result (λ each. known.now ≡ Some (record { approver = quorum.now.approver; fresh = quorum.now.fresh; each = each })) }
{
    match known {
        Some(signing) if signing.is_asked_by(quorum) => Some(signing.each),
        _ => None,
    }
}

/// Whether some of the callers that are marked has the role, where one is asked for, and lists the
/// tenant.
fn is_signed_for(
    approver: &Option<Name>,
    callers: &[Caller],
    signed: &[bool],
    tenant: &Name,
) -> bool
    ensures { result ≡ list_any
        (λ p. (p.1 && verdicts.has_role approver.now p.0) && lists_tenant p.0 tenant.now)
        (zip callers.now signed.now) }
{
    callers.iter().zip(signed).any(|(caller, signed)| {
        *signed && has_role(caller, approver) && caller.lists_tenant(tenant)
    })
}

/// Whether for each of the tenants some of the callers that are marked does.
fn is_each_listed(
    approver: &Option<Name>,
    callers: &[Caller],
    signed: &[bool],
    tenants: &[Name],
) -> bool
    ensures { result ≡ list_all
        (λ tenant. list_any (λ p. (p.1 && verdicts.has_role approver.now p.0) && lists_tenant p.0 tenant) (zip callers.now signed.now))
        tenants.now }
{
    tenants
        .iter()
        .all(|tenant| is_signed_for(approver, callers, signed, tenant))
}

/// Whether each of the tenants is listed by some caller who counts for the quorum. The lists of those
/// alone who approved are read.
fn are_signed_for(policy: &Policy, findings: &Findings, quorum: &Quorum, tenants: &[Name]) -> bool
    ensures { result ≡ list_all
        (λ tenant. list_any
        (λ p. (p.1 && verdicts.has_role quorum.now.approver p.0) && lists_tenant p.0 tenant)
        (zip policy.now.callers (if quorum.now.fresh then findings.now.fresh.now else findings.now.signed.now)))
        tenants.now }
{
    let signed = findings.signed(quorum.fresh);
    is_each_listed(&quorum.approver, policy.callers(), signed, tenants)
}

/// Whether each touched tenant is signed for, as the quorum asks.
fn is_each_signed_for(
    policy: &Policy,
    act: &Act,
    findings: &Findings,
    quorum: &Quorum,
    known: &mut Option<Signing>,
) -> bool
    requires found { AreFound policy.now act.now findings.now }
    requires known { IsKnown policy.now act.now known.old }
    ensures each { result ≡ verdicts.is_each_signed_for policy.now.callers act.now quorum.now.approver quorum.now.fresh }
    ensures known { IsKnown policy.now act.now known.new }
{
    if let Some(each) = known_for(known, quorum) {
        return each;
    }
    let each = are_signed_for(policy, findings, quorum, act.touched);
    *known = Some(Signing {
        approver: quorum.approver,
        fresh: quorum.fresh,
        each,
    });
    each
}

/// Whether each touched tenant is signed for, where that is asked for.
fn meets_tenants(
    policy: &Policy,
    act: &Act,
    findings: &Findings,
    approvals: &Option<Quorum>,
    known: &mut Option<Signing>,
) -> bool
    requires found { AreFound policy.now act.now findings.now }
    requires known { IsKnown policy.now act.now known.old }
    ensures met { result ≡ verdicts.meets_tenants policy.now.callers act.now approvals.now }
    ensures known { IsKnown policy.now act.now known.new }
{
    match approvals {
        Some(quorum) => {
            !quorum.each_tenant || is_each_signed_for(policy, act, findings, quorum, known)
        }
        None => true,
    }
}

/// The first need of the rule that is not met.
fn first_failing(
    policy: &Policy,
    act: &Act,
    findings: &Findings,
    rule: &Rule,
    known: &mut Option<Signing>,
) -> Option<Need>
    requires found { AreFound policy.now act.now findings.now }
    requires known { IsKnown policy.now act.now known.old }
    ensures first { MatchOption result
        (verdicts.Holds policy.now act.now rule.now)
        (verdicts.FailsFirst policy.now act.now rule.now) }
    ensures known { IsKnown policy.now act.now known.new }
{
    if !meets_role(policy.row(act.caller), &rule.role) {
        return Some(Need::Role);
    }
    if rule.scope.is_some() && !findings.own {
        return Some(Need::Scope);
    }
    if !meets_window(policy, &rule.window, act.moment) {
        return Some(Need::Window);
    }
    if !meets_approvals(policy, act, findings, &rule.approvals) {
        return Some(Need::Approvals);
    }
    if !meets_tenants(policy, act, findings, &rule.approvals, known) {
        return Some(Need::Tenants);
    }
    None
}

/// The name that stands for no rule.
fn no_rule() -> Name
    ensures { result ≡ codes "no-rule" }
{
    match Name::read("no-rule") {
        Ok(name) => name,
        Err(_) => unreachable!(),
    }
}

/// The verdict of the policy on the act, rule by rule.
fn judge(policy: &Policy, act: &Act, findings: &Findings) -> Verdict
    requires { AreFound policy.now act.now findings.now }
    ensures { verdicts.IsVerdict policy.now act.now result }
{
    let mut applied = false;
    let mut known = None;
    for (i, rule) in policy.rules().iter().enumerate() {
        if applies(rule, act) {
            if let Some(need) = first_failing(policy, act, findings, rule, &mut known) {
                return Verdict::Denied {
                    rule: i + 1,
                    name: rule.name,
                    need,
                };
            }
            applied = true;
        }
    }
    if applied {
        Verdict::Allowed
    } else {
        Verdict::Denied {
            rule: 0,
            name: no_rule(),
            need: Need::Rule,
        }
    }
}

/// The verdict of the policy on the act: allowed where some rule applies and all that apply
/// hold; else denied by the first rule that applies and does not hold, with the first of its
/// needs that is not met; by rule 0, `no-rule`, need `rule`, where none applies.
///
/// It takes no memory and cannot fail.
pub fn decide(policy: &Policy, act: &Act) -> Verdict
    ensures { verdicts.IsVerdict policy.now act.now result }
{
    policy_is_sound(policy);
    let callers = policy.callers();
    let own = is_own(policy.row(act.caller), act.touched);
    let signed = find_signed(act, callers, false);
    let fresh = find_signed(act, callers, true);
    let findings = Findings {
        own,
        signed: &signed[..callers.len()],
        fresh: &fresh[..callers.len()],
    };
    judge(policy, act, &findings)
}
