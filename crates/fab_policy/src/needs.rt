//! Whether a rule of a policy applies to an act, and whether what it asks of callers is met, each for itself.
ghost use Rattle.std.specs.Prelude.{◌≡◌, ◌↔◌, Contains, IsTrue, option_copied};
ghost use Rattle.std.specs.List.{list_all};
ghost use Rattle.fab_policy_base.specs.Callers as callers;
ghost use Rattle.fab_policy.specs.Verdicts as verdicts;

use crate::act::Act;
use fab_names::{Fabric, Name};
use fab_policy_base::{Action, Caller, Rule};

/// Whether the action is among these.
fn has_action(actions: &[Action], action: Action) -> bool
    ensures { IsTrue result ↔ Contains actions.now action }
{
    actions.contains(&action)
}

/// Whether the fabric is among these.
fn has_fabric(fabrics: &[Fabric], fabric: Fabric) -> bool
    ensures { IsTrue result ↔ Contains fabrics.now fabric }
{
    fabrics.contains(&fabric)
}

/// Whether the rule speaks of the act.
pub fn applies(rule: &Rule, act: &Act) -> bool
    ensures { IsTrue result ↔ verdicts.Applies rule.now act.now }
{
    if !has_action(&rule.actions, act.action) {
        return false;
    }
    match rule.fabric {
        Some(fabric) => has_fabric(act.fabrics, fabric),
        None => true,
    }
}

/// Whether there is a caller with the role, where one is asked for.
pub fn meets_role(caller: Option<&Caller>, role: &Option<Name>) -> bool
    ensures { result ≡ verdicts.meets_role role.now (option_copied caller.entry) }
{
    match (role, caller) {
        (None, _) => true,
        (Some(_), None) => false,
        (Some(role), Some(caller)) => caller.has_role(role),
    }
}

/// Whether each of the tenants is the caller's.
fn has_tenants(caller: &Caller, tenants: &[Name]) -> bool
    ensures { result ≡ list_all (callers.has_tenant caller.now) tenants.now }
{
    tenants.iter().all(|tenant| caller.has_tenant(tenant))
}

/// Whether there is a caller, whose is each of the tenants.
pub fn is_own(caller: Option<&Caller>, tenants: &[Name]) -> bool
    ensures { result ≡ verdicts.is_own tenants.now (option_copied caller.entry) }
{
    match caller {
        Some(caller) => has_tenants(caller, tenants),
        None => false,
    }
}

/// Whether the caller has the role, where one is asked for.
pub fn has_role(caller: &Caller, role: &Option<Name>) -> bool
    ensures { result ≡ verdicts.has_role role.now caller.now }
{
    match role {
        Some(role) => caller.has_role(role),
        None => true,
    }
}
