//! The whole text of a policy.
ghost use Rattle.std.specs.Prelude.{IfOk};
ghost use Rattle.toml.specs.View.{table_view};
ghost use Rattle.fab_policy_text.specs.Shapes.{IfRefused};
ghost use Rattle.fab_policy_base.specs.Sound as sound;
ghost use Rattle.fab_policy_text.specs.Tables as tables;

use crate::distinct::{distinct_names, distinct_tokens, unknown_window};
use crate::read::{only, optional_list};
use crate::unknown::unknown;
use fab_policy_base::limits::{MOST_CALLERS, MOST_RULES, MOST_WINDOWS};
use fab_policy_base::{Caller, Key, Policy, PolicyFault, Rule, Window};
use std::alloc::Global;
use toml::Table;

/// The callers of a policy's table.
fn callers_of(alloc: Global, table: &Table) -> Result<Vec<Caller>, PolicyFault>
    ensures ok { IfOk result (λ v. tables.CallersIn (table_view table.now) v.items) }
    ensures names { IfOk result (λ v. sound.AreDistinct (sound.caller_names v.items)) }
    ensures tokens { IfOk result (λ v. sound.AreDistinct (sound.caller_tokens v.items)) }
    ensures fault { IfRefused result (tables.PolicyTableFault (table_view table.now)) }
{
    let callers: Vec<Caller> = optional_list(alloc, table, Key::Callers, MOST_CALLERS)?;
    if let Err(e) = distinct_names(callers.as_slice()) {
        return Err(e);
    }
    if let Err(e) = distinct_tokens(callers.as_slice()) {
        return Err(e);
    }
    Ok(callers)
}

/// The windows of a policy's table.
fn windows_of(alloc: Global, table: &Table) -> Result<Vec<Window>, PolicyFault>
    ensures ok { IfOk result (λ v. tables.WindowsIn (table_view table.now) v.items) }
    ensures names { IfOk result (λ v. sound.AreDistinct (sound.window_names v.items)) }
    ensures fault { IfRefused result (tables.PolicyTableFault (table_view table.now)) }
{
    let windows: Vec<Window> = optional_list(alloc, table, Key::Windows, MOST_WINDOWS)?;
    if let Err(e) = distinct_names(windows.as_slice()) {
        return Err(e);
    }
    Ok(windows)
}

/// The rules of a policy's table.
fn rules_of(alloc: Global, table: &Table) -> Result<Vec<Rule>, PolicyFault>
    ensures ok { IfOk result (λ v. tables.RulesIn (table_view table.now) v.items) }
    ensures names { IfOk result (λ v. sound.AreDistinct (sound.rule_names v.items)) }
    ensures fault { IfRefused result (tables.PolicyTableFault (table_view table.now)) }
{
    let rules: Vec<Rule> = optional_list(alloc, table, Key::Rules, MOST_RULES)?;
    if let Err(e) = distinct_names(rules.as_slice()) {
        return Err(e);
    }
    Ok(rules)
}

/// The policy of a table.
fn policy_of(alloc: Global, table: &Table) -> Result<Policy, PolicyFault>
    ensures ok { IfOk result (tables.IsPolicyTable (table_view table.now)) }
    ensures fault { IfRefused result (tables.PolicyTableFault (table_view table.now)) }
{
    only(alloc, table, &[Key::Callers, Key::Windows, Key::Rules])?;
    let callers = callers_of(alloc, table)?;
    let windows = windows_of(alloc, table)?;
    let rules = rules_of(alloc, table)?;
    if let Some(name) = unknown_window(windows.as_slice(), rules.as_slice()) {
        return Err(unknown(alloc, name.as_str()));
    }
    Ok(Policy::new(callers, windows, rules))
}

/// A policy that is read from its text.
pub trait ReadPolicy: Sized {
    ghost use Rattle.std.specs.Prelude.{ℕ, List};
    ghost use Rattle.fab_policy_base.specs.declared.fault.PolicyFault.{PolicyFault};

    // The text spells it.
    ghost spells: { List ℕ → Self → Type 0 };

    // Such a fault stands in the text.
    ghost has_fault: { List ℕ → PolicyFault → Type 0 };

    /// Reads a policy from its TOML text: the arrays of tables `callers`, `windows` and `rules`,
    /// each of which may be missing and is then empty.
    ///
    /// # Errors
    /// `Text` where the text is no TOML (TOML v1.1.0); `Missing`, `WrongType`, `Unknown`,
    /// `Repeated` and `Limit` where such a fault stands in it, any one where several do; `Memory`
    /// where there was no memory, which says nothing of the text.
    fn read(alloc: Global, text: &str) -> Result<Self, PolicyFault>
        ensures ok { IfOk result (spells text.now) }
        ensures err { IfRefused result (λ _. (p : Self) → ¬ spells text.now p) }
        ensures fault { IfRefused result (has_fault text.now) };
}

impl ReadPolicy for Policy {
    ghost use Rattle.fab_policy_text.specs.Tables.{HasPolicyFault, SpellsPolicy};

    ghost spells = { SpellsPolicy };

    ghost has_fault = { HasPolicyFault };

    fn read(alloc: Global, text: &str) -> Result<Policy, PolicyFault> {
        match toml::table_from_str(alloc, text) {
            Ok(table) => match policy_of(alloc, &table) {
                Ok(policy) => Ok(policy),
                Err(e) => Err(e),
            },
            Err(e) => {
                if e.is_memory() {
                    Err(PolicyFault::Memory)
                } else {
                    Err(PolicyFault::Text)
                }
            }
        }
    }
}
