//! What is no fault of a policy, and is worth a look.
ghost use Rattle.std.specs.Prelude.{◌≡◌, ◌++◌, ◌∷◌, [], OnOk, IfOk};
ghost use Rattle.fab_policy_looks.specs.Flaws as flaws;
ghost use Rattle.fab_policy_looks.specs.Warnings.{of_actions, of_rules, told, warnings_of};

use crate::flaws::{
    approvals_flaw, early_flaw, fabric_flaw, plan_flaw, role_flaw, unruled, window_flaw,
};
use fab_names::Name;
use fab_policy_base::{Action, Policy, Rule};
use std::alloc::{AllocError, Global};

/// What is worth a look in a policy. But for the last, it is a reason for which no command meets a rule, or
/// none of one of its actions, with the number of the rule, counted from 1, and its name.
#[derive(Clone, Copy)]
pub enum Warning {
    /// The rule is about a fabric, and no command of its actions names one, so that it is about none.
    Fabric {
        /// The number of the rule, from 1.
        number: usize,
        /// Its name.
        name: Name,
    },
    /// No caller has the role that the rule asks for.
    Role {
        /// The number of the rule, from 1.
        number: usize,
        /// Its name.
        name: Name,
        /// The role that nobody has.
        role: Name,
    },
    /// The window that the rule asks for has no part of the week.
    Window {
        /// The number of the rule, from 1.
        number: usize,
        /// Its name.
        name: Name,
        /// The window.
        window: Name,
    },
    /// The rule asks for approvals, and no command of its actions is about a plan.
    Plan {
        /// The number of the rule, from 1.
        number: usize,
        /// Its name.
        name: Name,
    },
    /// The rule asks for approvals of commands of the action, before which a plan has none: nobody may stage
    /// a plan, or give the first approval.
    Early {
        /// The number of the rule, from 1.
        number: usize,
        /// Its name.
        name: Name,
        /// The action.
        action: Action,
    },
    /// The rule asks for approvals of so many callers, and there are `there` who may give one.
    Approvals {
        /// The number of the rule, from 1.
        number: usize,
        /// Its name.
        name: Name,
        /// From how many callers they are asked for.
        asked: usize,
        /// How many callers may give one.
        there: usize,
    },
    /// No rule is about the action, so that nobody may do it.
    Unruled(Action),
}

/// Every action.
const ACTIONS: [Action; 8] = [
    Action::Import,
    Action::Inventory,
    Action::Stage,
    Action::Withdraw,
    Action::Approve,
    Action::DryRun,
    Action::Activate,
    Action::Rollback,
];

/// Adds a warning, if there is one.
fn add(warnings: &mut Vec<Warning>, warning: Option<Warning>) -> Result<(), AllocError>
    ensures { OnOk result (warnings.new.items ≡ warnings.old.items ++ told (warning ∷ [])) }
{
    if let Some(warning) = warning {
        warnings.push(warning)?;
    }
    Ok(())
}

/// Adds those of the warnings that there are.
fn add_each(warnings: &mut Vec<Warning>, more: &[Option<Warning>]) -> Result<(), AllocError>
    ensures { OnOk result (warnings.new.items ≡ warnings.old.items ++ told more.now) }
{
    for warning in more {
        add(warnings, *warning)?;
    }
    Ok(())
}

/// Adds the warnings of a rule.
fn add_rule(
    warnings: &mut Vec<Warning>,
    policy: &Policy,
    number: usize,
    rule: &Rule,
) -> Result<(), AllocError>
    ensures { OnOk result (warnings.new.items ≡ warnings.old.items ++ told (flaws.flaws_of policy.now number rule.now)) }
{
    let flaws = [
        fabric_flaw(number, rule),
        role_flaw(policy, number, rule),
        window_flaw(policy, number, rule),
        plan_flaw(number, rule),
        early_flaw(number, rule, Action::Stage),
        early_flaw(number, rule, Action::Approve),
        approvals_flaw(policy, number, rule),
    ];
    add_each(warnings, &flaws)?;
    Ok(())
}

/// Adds the warnings of all rules.
fn add_rules(warnings: &mut Vec<Warning>, policy: &Policy) -> Result<(), AllocError>
    ensures { OnOk result (warnings.new.items ≡ warnings.old.items ++ of_rules policy.now 1 policy.now.rules) }
{
    for (place, rule) in policy.rules().iter().enumerate() {
        add_rule(warnings, policy, place + 1, rule)?;
    }
    Ok(())
}

/// Adds the warning of an action, if no rule is about it.
fn add_action(warnings: &mut Vec<Warning>, rules: &[Rule], action: Action) -> Result<(), AllocError>
    ensures { OnOk result (warnings.new.items ≡ warnings.old.items ++ of_actions rules.now (action ∷ [])) }
{
    add(warnings, unruled(rules, action))?;
    Ok(())
}

/// Adds the warnings of actions.
fn add_actions(
    warnings: &mut Vec<Warning>,
    rules: &[Rule],
    actions: &[Action],
) -> Result<(), AllocError>
    ensures { OnOk result (warnings.new.items ≡ warnings.old.items ++ of_actions rules.now actions.now) }
{
    for action in actions {
        add_action(warnings, rules, *action)?;
    }
    Ok(())
}

/// What is worth a look in a policy: rule by rule each reason for which no command meets it, and then
/// the actions that no rule is about.
///
/// # Errors
/// `AllocError` where there is no memory.
pub fn warnings_of(alloc: Global, policy: &Policy) -> Result<Vec<Warning>, AllocError>
    ensures { IfOk result (λ warnings. warnings.items ≡ warnings_of policy.now) }
{
    let mut warnings = Vec::new(alloc);
    add_rules(&mut warnings, policy)?;
    add_actions(&mut warnings, policy.rules(), &ACTIONS)?;
    Ok(warnings)
}
