//! A law of the lines. Nothing runs here.
ghost use Rattle.std.specs.Prelude.{◌≡◌, ◌↔◌, ℕ, true};
ghost use Rattle.fab_policy.specs.Verdicts.{Holds};
ghost use Rattle.fab_policy_looks.specs.Findings.{IsFinding};
ghost use Rattle.fab_files_policy.specs.Findings.{holds};

use fab_policy::{Act, Policy, Rule};
use fab_policy_looks::RuleFinding;

/// A rule is told to hold exactly where the verdict takes it to hold.
pub fn told_rules_hold(policy: &Policy, act: &Act, rule: &Rule, found: &RuleFinding)
    ensures { (number : ℕ) → IsFinding policy.now act.now rule.now number found.now → ((holds found.now ≡ true) ↔ Holds policy.now act.now rule.now) }
{
    let _policy = policy;
    let _act = act;
    let _rule = rule;
    let _found = found;
}
