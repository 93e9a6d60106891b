//! What is found of the rules of a policy for an act.
ghost use Rattle.std.specs.Prelude.{IfOk, OnOk};
ghost use Rattle.fab_policy_looks.specs.Findings.{AddsFinding, AreFindings, IsQuorum, IsRole, IsScope, IsWindow};

use crate::found::{QuorumNeed, RoleNeed, RuleFinding, WindowNeed};
use crate::openings::opening;
use crate::quorums::{are_tenants_met, count_for, has_quorum};
use fab_policy::Act;
use fab_policy::needs::{applies, is_own, meets_role};
use fab_policy::window::some_is_open;
use fab_policy_base::{Policy, Rule};
use std::alloc::{AllocError, Global};

/// What is found of the need of a role.
fn find_role(policy: &Policy, act: &Act, rule: &Rule) -> Option<RoleNeed>
    ensures { IsRole policy.now act.now rule.now rule.now.role result }
{
    match rule.role {
        Some(role) => Some(RoleNeed {
            role,
            is_met: meets_role(policy.row(act.caller), &rule.role),
        }),
        None => None,
    }
}

/// What is found of the need of own tenants.
fn find_scope(policy: &Policy, act: &Act, rule: &Rule) -> Option<bool>
    ensures { IsScope policy.now act.now rule.now rule.now.scope result }
{
    match rule.scope {
        Some(_own) => Some(is_own(policy.row(act.caller), act.touched)),
        None => None,
    }
}

/// What is found of the need of a window.
fn find_window(policy: &Policy, act: &Act, rule: &Rule) -> Option<WindowNeed>
    ensures { IsWindow policy.now act.now rule.now rule.now.window result }
{
    match rule.window {
        Some(window) => Some(WindowNeed {
            window,
            is_met: some_is_open(policy.windows(), &window, act.moment),
            opens: opening(policy.windows(), &window, act.moment),
        }),
        None => None,
    }
}

/// What is found of the need of approvals.
fn find_quorum(policy: &Policy, act: &Act, rule: &Rule) -> Option<QuorumNeed>
    ensures { IsQuorum policy.now act.now rule.now rule.now.approvals result }
{
    match &rule.approvals {
        Some(quorum) => Some(QuorumNeed {
            asked: quorum.count,
            counted: count_for(policy, act, quorum),
            is_met: has_quorum(policy, act, quorum),
            each_tenant: quorum.each_tenant,
            is_each_signed: are_tenants_met(policy, act, quorum),
        }),
        None => None,
    }
}

/// Adds what is found of the rule of this number, if it applies.
fn add_rule(
    found: &mut Vec<RuleFinding>,
    policy: &Policy,
    act: &Act,
    number: usize,
    rule: &Rule,
) -> Result<(), AllocError>
    ensures { OnOk result (AddsFinding policy.now act.now number rule.now found.old.items found.new.items) }
{
    if !applies(rule, act) {
        return Ok(());
    }
    let role = find_role(policy, act, rule);
    let scope = find_scope(policy, act, rule);
    let window = find_window(policy, act, rule);
    let approvals = find_quorum(policy, act, rule);
    found.push(RuleFinding {
        number,
        name: rule.name,
        role,
        scope,
        window,
        approvals,
    })?;
    Ok(())
}

/// What a policy finds of an act, rule by rule: of each rule that applies which needs it has, and whether
/// each of them is met. A rule that is not there does not apply.
///
/// # Errors
/// `AllocError` where there is no memory.
pub fn find_rules(alloc: Global, policy: &Policy, act: &Act) -> Result<Vec<RuleFinding>, AllocError>
    ensures { IfOk result (λ found. AreFindings policy.now act.now 1 policy.now.rules found.items) }
{
    let mut found = Vec::new(alloc);
    for (place, rule) in policy.rules().iter().enumerate() {
        add_rule(&mut found, policy, act, place + 1, rule)?;
    }
    Ok(found)
}
