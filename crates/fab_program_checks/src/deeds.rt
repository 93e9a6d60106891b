//! The act that the words of the command line tell.
ghost use Rattle.std.specs.Prelude.{◌≡◌, ℕ, IfNone, IfSome, IsSomeAnd, option_map, slice_get};
ghost use Rattle.fab_policy_base.specs.Callers.{HasToken, IsOnlyWith, is_same};
ghost use Rattle.fab_names.specs.Names.{SpellsName};
ghost use Rattle.fab_policy_looks.specs.Flaws as flaws;
ghost use Rattle.fab_program_words.specs.Lists.{SpellsApproval};
ghost use Rattle.fab_program_checks.specs.Deeds as deeds;
ghost use Rattle.fab_program_checks.specs.Deeds.{IsActOf, IsCallerNamed, IsPlanOf};
ghost use Rattle.fab_program_checks.specs.Parts.{AreReadIn};

use fab_names::{Fabric, Name};
use fab_policy::{Act, Action, Approval, Caller, CallerId, PlanApprovals, Policy};
use fab_policy_looks::is_of_plan;
use fab_program_words::{ActionWord, Deed, NamedFabrics};

/// Whether the caller has the name.
fn is_named(caller: &Caller, name: &Name) -> bool
    ensures { result ≡ is_same caller.now.name name.now }
{
    caller.name == *name
}

/// The place of a caller of the name.
fn place_of(callers: &[Caller], name: &Name) -> Option<usize>
    ensures nobody { IfNone result ((id : ℕ) → ¬ IsSomeAnd (slice_get callers.now id) (λ c. c.name ≡ name.now)) }
    ensures has { IfSome result (λ id. IsSomeAnd (slice_get callers.now id) (λ c. c.name ≡ name.now)) }
{
    for i in 0..callers.len() {
        if is_named(&callers[i], name) {
            return Some(i);
        }
    }
    None
}

/// The one caller with the token of this one.
fn caller_of(policy: &Policy, caller: &Caller) -> Option<CallerId>
    ensures nobody { IfNone result ((id : ℕ) → ¬ HasToken policy.now caller.now.token id) }
    ensures only { IfSome result (IsOnlyWith policy.now caller.now.token) }
{
    policy.caller(caller.token.as_str())
}

/// The caller of the name, or none where the policy has no such caller. It takes no memory.
pub fn caller_named(policy: &Policy, name: &Name) -> Option<CallerId>
    ensures { IsCallerNamed policy.now name.now result }
{
    let callers = policy.callers();
    match place_of(callers, name) {
        Some(place) => caller_of(policy, &callers[place]),
        None => None,
    }
}

/// The fabrics that a command names.
fn fabrics_of(named: Option<NamedFabrics>) -> &'static [Fabric]
    ensures { result.now ≡ deeds.fabrics_of named }
{
    match named {
        Some(NamedFabrics::A) => &[Fabric::A],
        Some(NamedFabrics::B) => &[Fabric::B],
        Some(NamedFabrics::Both) => &[Fabric::A, Fabric::B],
        None => &[],
    }
}

/// The action of a word.
fn action_of(word: ActionWord) -> Action
    ensures { result ≡ deeds.action_of word }
{
    match word {
        ActionWord::Import => Action::Import,
        ActionWord::Inventory => Action::Inventory,
        ActionWord::Stage => Action::Stage,
        ActionWord::Withdraw => Action::Withdraw,
        ActionWord::Approve => Action::Approve,
        ActionWord::DryRun => Action::DryRun,
        ActionWord::Activate => Action::Activate,
        ActionWord::Rollback => Action::Rollback,
    }
}

/// The author and the approvals of the plan that a command is about, if it is about one.
fn plan_of<'a>(deed: &Deed<'_>, approvals: &'a [Approval]) -> Option<PlanApprovals<'a>>
    requires { AreReadIn SpellsApproval (option_map (λ t. t.now) deed.now.approved) approvals.now }
    ensures { IsPlanOf (flaws.is_of_plan (deeds.action_of deed.entry.now.action)) deed.entry.now result }
{
    if is_of_plan(action_of(deed.action)) {
        Some(PlanApprovals {
            author: deed.author.unwrap_or(deed.caller),
            approvals,
        })
    } else {
        None
    }
}

/// The act that the words tell.
pub fn act_of<'a>(
    deed: &Deed<'_>,
    caller: CallerId,
    moment: u64,
    touched: &'a [Name],
    approvals: &'a [Approval],
) -> Act<'a>
    requires touched { AreReadIn SpellsName (option_map (λ t. t.now) deed.now.tenants) touched.now }
    requires approvals { AreReadIn SpellsApproval (option_map (λ t. t.now) deed.now.approved) approvals.now }
    ensures { IsActOf deed.entry.now caller moment result }
{
    Act {
        caller,
        action: action_of(deed.action),
        fabrics: fabrics_of(deed.fabrics),
        touched,
        moment,
        plan: plan_of(deed, approvals),
        revision: deed.revision.unwrap_or(0),
    }
}
