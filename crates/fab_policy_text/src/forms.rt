//! What single values of a policy's text mean.
ghost use Rattle.std.specs.Prelude.{◌≡◌, ℕ, IfOk, MatchOption, Some, pos};
ghost use Rattle.toml.specs.Data.{Data, as_integer, item, no_items};
ghost use Rattle.toml.specs.View.{view, table_view, array_view};
ghost use Rattle.fab_policy_text.specs.Forms as forms;
ghost use Rattle.fab_policy_text.specs.Shapes.{IfRefused};
ghost use Rattle.fab_policy_base.specs.Words.{action_word};
ghost use Rattle.fab_policy_base.specs.declared.policy.Action.{Action};

use crate::read::{Read, each, list, optional};
use crate::unknown::unknown;
use fab_names::{Fabric, Name, is_token};
use fab_policy_base::limits::{MOST_APPROVALS, MOST_TENANTS};
use fab_policy_base::{
    Action, Freeze, Key, PolicyFault, Quorum, Scope, Tenants, Text, WEEK_MINUTES, WeekSpan,
};
use std::alloc::Global;
use toml::value::Array;
use toml::{Table, Value};

impl Read for Name {
    ghost use Rattle.fab_policy_text.specs.Forms.{IsName};
    ghost use Rattle.fab_policy_text.specs.Shapes.{MeansNothing};

    ghost means = { IsName };

    ghost wrong = { MeansNothing IsName };

    fn read(_alloc: Global, value: &Value, key: Key) -> Result<Name, PolicyFault> {
        let Some(text) = value.as_str() else {
            return Err(PolicyFault::WrongType(key));
        };
        match Name::read(text) {
            Ok(name) => Ok(name),
            Err(_) => Err(PolicyFault::WrongType(key)),
        }
    }
}

impl Read for Text {
    ghost use Rattle.fab_policy_text.specs.Forms.{IsToken};
    ghost use Rattle.fab_policy_text.specs.Shapes.{MeansNothing};

    ghost means = { IsToken };

    ghost wrong = { MeansNothing IsToken };

    fn read(alloc: Global, value: &Value, key: Key) -> Result<Text, PolicyFault> {
        let Some(text) = value.as_str() else {
            return Err(PolicyFault::WrongType(key));
        };
        if !is_token(text.as_bytes()) {
            return Err(PolicyFault::WrongType(key));
        }
        match Text::new(alloc, text) {
            Ok(token) => Ok(token),
            Err(_) => Err(PolicyFault::Memory),
        }
    }
}

impl Read for Tenants {
    ghost use Rattle.fab_policy_text.specs.Forms.{AreTenants, TenantsFault};
    ghost use Rattle.fab_policy_base.specs.Policies.{tenants_of};

    ghost means = { λ d t. AreTenants d (tenants_of t) };

    ghost wrong = { TenantsFault };

    fn read(alloc: Global, value: &Value, key: Key) -> Result<Tenants, PolicyFault> {
        match value.as_str() {
            Some("*") => Ok(Tenants::All),
            Some(_) => Err(PolicyFault::WrongType(key)),
            None => Ok(Tenants::Listed(list(alloc, value, key, MOST_TENANTS)?)),
        }
    }
}

/// The number, where the value is one and not negative.
fn natural(value: &Value) -> Option<u64>
    ensures { MatchOption result
        ((n : ℕ) → ¬ (as_integer (view value.now) ≡ Some (pos n)))
        (λ n. as_integer (view value.now) ≡ Some (pos n)) }
{
    let n = value.as_integer()?;
    if n < 0 { None } else { Some(n as u64) }
}

/// The two items, where there are two.
fn two(items: &Array) -> Option<(&Value, &Value)>
    ensures { MatchOption result
        ((a b : Data) → ¬ (array_view items.now ≡ item a (item b no_items)))
        (λ p. array_view items.now ≡ item (view p.0.now) (item (view p.1.now) no_items)) }
{
    if items.len() == 2 {
        Some((&items[0], &items[1]))
    } else {
        None
    }
}

/// The two numbers of a span, where the value is one.
fn span(value: &Value) -> Option<(u64, u64)>
    ensures { MatchOption result
        ((from until : ℕ) → ¬ forms.IsSpan (view value.now) from until)
        (λ p. forms.IsSpan (view value.now) p.0 p.1) }
{
    let (first, second) = two(value.as_array()?)?;
    let from = natural(first)?;
    let until = natural(second)?;
    if from < until {
        Some((from, until))
    } else {
        None
    }
}

impl Read for WeekSpan {
    ghost use Rattle.fab_policy_text.specs.Forms.{IsWeekSpan};
    ghost use Rattle.fab_policy_text.specs.Shapes.{MeansNothing};

    ghost means = { IsWeekSpan };

    ghost wrong = { MeansNothing IsWeekSpan };

    fn read(_alloc: Global, value: &Value, key: Key) -> Result<WeekSpan, PolicyFault> {
        match span(value) {
            Some((from, until)) => {
                if until <= WEEK_MINUTES {
                    Ok(WeekSpan { from, until })
                } else {
                    Err(PolicyFault::WrongType(key))
                }
            }
            None => Err(PolicyFault::WrongType(key)),
        }
    }
}

impl Read for Freeze {
    ghost use Rattle.fab_policy_text.specs.Forms.{IsFreeze};
    ghost use Rattle.fab_policy_text.specs.Shapes.{MeansNothing};

    ghost means = { IsFreeze };

    ghost wrong = { MeansNothing IsFreeze };

    fn read(_alloc: Global, value: &Value, key: Key) -> Result<Freeze, PolicyFault> {
        match span(value) {
            Some((from, until)) => Ok(Freeze { from, until }),
            None => Err(PolicyFault::WrongType(key)),
        }
    }
}

/// The action of a word.
fn action_of(text: &str) -> Option<Action>
    ensures { MatchOption result
        ((a : Action) → ¬ (text.now ≡ action_word a))
        (λ a. text.now ≡ action_word a) }
{
    match text {
        "import" => Some(Action::Import),
        "inventory" => Some(Action::Inventory),
        "stage" => Some(Action::Stage),
        "withdraw" => Some(Action::Withdraw),
        "approve" => Some(Action::Approve),
        "dryrun" => Some(Action::DryRun),
        "activate" => Some(Action::Activate),
        "rollback" => Some(Action::Rollback),
        _ => None,
    }
}

impl Read for Action {
    ghost use Rattle.fab_policy_text.specs.Shapes.{IsWord, WordFault};
    ghost use Rattle.fab_policy_base.specs.Words.{action_word};

    ghost means = { IsWord action_word };

    ghost wrong = { WordFault action_word };

    fn read(alloc: Global, value: &Value, key: Key) -> Result<Action, PolicyFault> {
        let Some(text) = value.as_str() else {
            return Err(PolicyFault::WrongType(key));
        };
        match action_of(text) {
            Some(action) => Ok(action),
            None => Err(unknown(alloc, text)),
        }
    }
}

/// The actions of a rule.
#[derive(Drop)]
pub(crate) struct Actions {
    /// In the order of the text, at least one.
    pub(crate) words: Vec<Action>,
}

impl Read for Actions {
    ghost use Rattle.fab_policy_text.specs.Forms.{AreActions, ActionsFault};

    ghost means = { λ d a. AreActions d a.words.items };

    ghost wrong = { ActionsFault };

    fn read(alloc: Global, value: &Value, key: Key) -> Result<Actions, PolicyFault> {
        let Some(items) = value.as_array() else {
            return Err(PolicyFault::WrongType(key));
        };
        if items.is_empty() {
            return Err(PolicyFault::WrongType(key));
        }
        let words = each(alloc, items, key)?;
        Ok(Actions { words })
    }
}

impl Read for Fabric {
    ghost use Rattle.fab_names.specs.Fabrics.{fabric_text};
    ghost use Rattle.fab_policy_text.specs.Shapes.{IsWord, WordFault};

    ghost means = { IsWord fabric_text };

    ghost wrong = { WordFault fabric_text };

    fn read(alloc: Global, value: &Value, key: Key) -> Result<Fabric, PolicyFault> {
        let Some(text) = value.as_str() else {
            return Err(PolicyFault::WrongType(key));
        };
        match Fabric::read(text) {
            Ok(fabric) => Ok(fabric),
            Err(_) => Err(unknown(alloc, text)),
        }
    }
}

impl Read for Scope {
    ghost use Rattle.fab_policy_text.specs.Shapes.{IsWord, WordFault};
    ghost use Rattle.fab_policy_base.specs.Words.{scope_word};

    ghost means = { IsWord scope_word };

    ghost wrong = { WordFault scope_word };

    fn read(alloc: Global, value: &Value, key: Key) -> Result<Scope, PolicyFault> {
        let Some(text) = value.as_str() else {
            return Err(PolicyFault::WrongType(key));
        };
        match text {
            "own" => Ok(Scope::Own),
            _ => Err(unknown(alloc, text)),
        }
    }
}

/// The name of a rule, which is not the one that stands for no rule.
#[derive(Clone, Copy)]
pub(crate) struct RuleName {
    pub(crate) name: Name,
}

impl Read for RuleName {
    ghost use Rattle.fab_policy_text.specs.Forms.{IsRuleName, RuleNameFault};

    ghost means = { λ d r. IsRuleName d r.name };

    ghost wrong = { RuleNameFault };

    fn read(alloc: Global, value: &Value, key: Key) -> Result<RuleName, PolicyFault> {
        let name: Name = Read::read(alloc, value, key)?;
        if name.as_str() == "no-rule" {
            Err(PolicyFault::Repeated(name))
        } else {
            Ok(RuleName { name })
        }
    }
}

/// How many approvals a rule asks for.
#[derive(Clone, Copy)]
struct Count {
    number: usize,
}

impl Read for Count {
    ghost use Rattle.fab_policy_text.specs.Forms.{IsCount};
    ghost use Rattle.fab_policy_text.specs.Shapes.{MeansNothing};

    ghost means = { λ d c. IsCount d c.number };

    ghost wrong = { MeansNothing IsCount };

    fn read(_alloc: Global, value: &Value, key: Key) -> Result<Count, PolicyFault> {
        let Some(n) = natural(value) else {
            return Err(PolicyFault::WrongType(key));
        };
        if 1 <= n && n <= MOST_APPROVALS {
            Ok(Count { number: n as usize })
        } else {
            Err(PolicyFault::WrongType(key))
        }
    }
}

impl Read for bool {
    ghost use Rattle.fab_policy_text.specs.Forms.{IsFlag};
    ghost use Rattle.fab_policy_text.specs.Shapes.{MeansNothing};

    ghost means = { IsFlag };

    ghost wrong = { MeansNothing IsFlag };

    fn read(_alloc: Global, value: &Value, key: Key) -> Result<bool, PolicyFault> {
        match value.as_bool() {
            Some(flag) => Ok(flag),
            None => Err(PolicyFault::WrongType(key)),
        }
    }
}

/// The approvals that a rule's table asks for.
pub(crate) fn quorum(alloc: Global, table: &Table) -> Result<Option<Quorum>, PolicyFault>
    ensures ok { IfOk result (forms.QuorumIn (table_view table.now)) }
    ensures fault { IfRefused result (forms.QuorumFault (table_view table.now)) }
{
    let count: Option<Count> = optional(alloc, table, Key::Approvals)?;
    let approver: Option<Name> = optional(alloc, table, Key::Approver)?;
    let fresh: Option<bool> = optional(alloc, table, Key::Fresh)?;
    let each_tenant: Option<bool> = optional(alloc, table, Key::EachTenant)?;
    if let Some(count) = count {
        return Ok(Some(Quorum {
            count: count.number,
            approver,
            fresh: fresh.unwrap_or(false),
            each_tenant: each_tenant.unwrap_or(false),
        }));
    }
    if approver.is_some() || fresh.is_some() || each_tenant.is_some() {
        Err(PolicyFault::Missing(Key::Approvals))
    } else {
        Ok(None)
    }
}
