//! Why no command meets a rule of a policy.
ghost use Rattle.std.specs.Prelude.{◌≡◌, count_by};
ghost use Rattle.std.specs.List.{list_any};
ghost use Rattle.fab_policy.specs.Verdicts as verdicts;
ghost use Rattle.fab_policy_looks.specs.Flaws as flaws;

use crate::warnings::Warning;
use fab_names::Name;
use fab_policy::needs::has_role;
use fab_policy_base::{Action, Caller, Policy, Quorum, Rule, Window};

/// The warning, where there is reason for it.
fn warning_if(is_one: bool, warning: Warning) -> Option<Warning>
    ensures { result ≡ flaws.warning_if is_one warning }
{
    if is_one { Some(warning) } else { None }
}

/// Whether a command of the action may name a fabric.
fn names_fabric(action: Action) -> bool
    ensures { result ≡ flaws.names_fabric action }
{
    match action {
        Action::Inventory => false,
        _ => true,
    }
}

/// Whether a command of the action is about a plan: one that is no import, put or drop.
pub fn is_of_plan(action: Action) -> bool
    ensures { result ≡ flaws.is_of_plan action }
{
    match action {
        Action::Import | Action::Inventory => false,
        _ => true,
    }
}

/// Whether a command of some of the actions may name a fabric.
fn some_names_fabric(actions: &[Action]) -> bool
    ensures { result ≡ list_any flaws.names_fabric actions.now }
{
    actions.iter().any(|action| names_fabric(*action))
}

/// Whether a command of some of the actions is about a plan.
fn some_is_of_plan(actions: &[Action]) -> bool
    ensures { result ≡ list_any flaws.is_of_plan actions.now }
{
    actions.iter().any(|action| is_of_plan(*action))
}

/// Whether some caller has the role.
fn some_has(callers: &[Caller], role: &Name) -> bool
    ensures { result ≡ flaws.some_has callers.now role.now }
{
    callers.iter().any(|caller| caller.has_role(role))
}

/// How many callers have the role, where one is asked for.
fn count_with(callers: &[Caller], role: &Option<Name>) -> usize
    ensures { result ≡ count_by (verdicts.has_role role.now) callers.now }
{
    callers
        .iter()
        .filter(|caller| has_role(caller, role))
        .count()
}

/// Whether the window has the name, and a part of the week.
fn opens_as(window: &Window, name: &Name) -> bool
    ensures { result ≡ flaws.opens_as name.now window.now }
{
    window.name == *name && !window.weekly.is_empty()
}

/// Whether some window of the name has a part of the week.
fn some_opens(windows: &[Window], name: &Name) -> bool
    ensures { result ≡ list_any (flaws.opens_as name.now) windows.now }
{
    windows.iter().any(|window| opens_as(window, name))
}

/// The place of an action among all.
fn number_of(action: Action) -> usize
    ensures { result ≡ flaws.number_of action }
{
    match action {
        Action::Import => 0,
        Action::Inventory => 1,
        Action::Stage => 2,
        Action::Withdraw => 3,
        Action::Approve => 4,
        Action::DryRun => 5,
        Action::Activate => 6,
        Action::Rollback => 7,
    }
}

/// Whether two actions are the same.
fn is_action(one: Action, other: Action) -> bool
    ensures { result ≡ flaws.is_action one other }
{
    number_of(one) == number_of(other)
}

/// Whether the rule is about the action.
fn has_action(rule: &Rule, action: Action) -> bool
    ensures { result ≡ flaws.has_action action rule.now }
{
    rule.actions.iter().any(|one| is_action(*one, action))
}

/// That the rule is about a fabric that no command of its actions names.
pub fn fabric_flaw(number: usize, rule: &Rule) -> Option<Warning>
    ensures { result ≡ flaws.fabric_flaw number rule.now }
{
    let name = rule.name;
    match rule.fabric {
        Some(_) => warning_if(
            !some_names_fabric(&rule.actions),
            Warning::Fabric { number, name },
        ),
        None => None,
    }
}

/// That no caller has the role that the rule asks for.
pub fn role_flaw(policy: &Policy, number: usize, rule: &Rule) -> Option<Warning>
    ensures { result ≡ flaws.role_flaw policy.now number rule.now }
{
    let name = rule.name;
    match rule.role {
        Some(role) => warning_if(
            !some_has(policy.callers(), &role),
            Warning::Role { number, name, role },
        ),
        None => None,
    }
}

/// That the window that the rule asks for is never open.
pub fn window_flaw(policy: &Policy, number: usize, rule: &Rule) -> Option<Warning>
    ensures { result ≡ flaws.window_flaw policy.now number rule.now }
{
    let name = rule.name;
    match rule.window {
        Some(window) => warning_if(
            !some_opens(policy.windows(), &window),
            Warning::Window {
                number,
                name,
                window,
            },
        ),
        None => None,
    }
}

/// That the rule asks for approvals of commands that are about no plan.
pub fn plan_flaw(number: usize, rule: &Rule) -> Option<Warning>
    ensures { result ≡ flaws.plan_flaw number rule.now }
{
    let name = rule.name;
    match rule.approvals {
        Some(_) => warning_if(
            !some_is_of_plan(&rule.actions),
            Warning::Plan { number, name },
        ),
        None => None,
    }
}

/// That the rule asks for approvals of commands of the action, before which a plan has none.
pub fn early_flaw(number: usize, rule: &Rule, action: Action) -> Option<Warning>
    ensures { result ≡ flaws.early_flaw number rule.now action }
{
    let name = rule.name;
    match rule.approvals {
        Some(_) => warning_if(
            has_action(rule, action),
            Warning::Early {
                number,
                name,
                action,
            },
        ),
        None => None,
    }
}

/// That fewer callers may approve than the quorum of a rule asks for.
fn quorum_flaw(callers: &[Caller], number: usize, name: Name, quorum: &Quorum) -> Option<Warning>
    ensures { result ≡ flaws.quorum_flaw callers.now number name quorum.now }
{
    let asked = quorum.count;
    let there = count_with(callers, &quorum.approver);
    warning_if(
        there < asked,
        Warning::Approvals {
            number,
            name,
            asked,
            there,
        },
    )
}

/// That fewer callers may approve than the rule asks for.
pub fn approvals_flaw(policy: &Policy, number: usize, rule: &Rule) -> Option<Warning>
    ensures { result ≡ flaws.approvals_flaw policy.now number rule.now }
{
    match &rule.approvals {
        Some(quorum) => quorum_flaw(policy.callers(), number, rule.name, quorum),
        None => None,
    }
}

/// Whether some rule is about the action.
fn some_has_action(rules: &[Rule], action: Action) -> bool
    ensures { result ≡ list_any (flaws.has_action action) rules.now }
{
    rules.iter().any(|rule| has_action(rule, action))
}

/// That no rule is about the action.
pub fn unruled(rules: &[Rule], action: Action) -> Option<Warning>
    ensures { result ≡ flaws.unruled rules.now action }
{
    warning_if(!some_has_action(rules, action), Warning::Unruled(action))
}
