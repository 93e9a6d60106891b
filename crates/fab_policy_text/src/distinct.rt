//! Names and tokens that stand once, and windows that are there.
ghost use Rattle.std.specs.Prelude.{◌≡◌, ℕ, IfErr, OnOk, MatchOption, List, map};
ghost use Rattle.std.specs.List.{list_any};
ghost use Rattle.fab_policy_base.specs.Callers.{is_same};
ghost use Rattle.fab_policy_base.specs.Sound as sound;
ghost use Rattle.fab_policy_text.specs.Tables as tables;

use fab_names::Name;
use fab_policy_base::{Caller, PolicyFault, Rule, Window};

/// What has a name.
pub(crate) trait Named {
    ghost name_of: { Self → List ℕ };

    /// The name.
    fn name(&self) -> Name
        ensures { result ≡ name_of self.now };
}

impl Named for Caller {
    ghost name_of = { λ c. c.name };

    fn name(&self) -> Name {
        self.name
    }
}

impl Named for Window {
    ghost name_of = { λ w. w.name };

    fn name(&self) -> Name {
        self.name
    }
}

impl Named for Rule {
    ghost name_of = { λ r. r.name };

    fn name(&self) -> Name {
        self.name
    }
}

/// Whether one of them has the name.
fn some_has_name<T: Named>(items: &[T], name: &Name) -> bool
    ensures { result ≡ list_any (λ x. is_same (T.name_of x) name.now) items.now }
{
    items.iter().any(|x| x.name() == *name)
}

/// Refuses a name that an earlier one has.
pub(crate) fn distinct_names<T: Named>(items: &[T]) -> Result<(), PolicyFault>
    ensures ok { OnOk result (sound.AreDistinct (map T.name_of items.now)) }
    ensures fault { IfErr result (tables.IsRepeated (map T.name_of items.now) (map T.name_of items.now)) }
{
    for i in 0..items.len() {
        let name = items[i].name();
        if some_has_name(&items[..i], &name) {
            return Err(PolicyFault::Repeated(name));
        }
    }
    Ok(())
}

/// Whether one of the callers has the token of the other.
fn some_has_token(callers: &[Caller], other: &Caller) -> bool
    ensures { result ≡ list_any (λ c. is_same c.token other.now.token) callers.now }
{
    callers.iter().any(|c| c.has_token(other.token.as_str()))
}

/// Refuses a token that an earlier caller has.
pub(crate) fn distinct_tokens(callers: &[Caller]) -> Result<(), PolicyFault>
    ensures ok { OnOk result (sound.AreDistinct (sound.caller_tokens callers.now)) }
    ensures fault { IfErr result (tables.IsRepeated (sound.caller_tokens callers.now) (sound.caller_names callers.now)) }
{
    for i in 0..callers.len() {
        let caller = &callers[i];
        if some_has_token(&callers[..i], caller) {
            return Err(PolicyFault::Repeated(caller.name()));
        }
    }
    Ok(())
}

/// The name of a window that is asked for, where it is not there.
fn missing_window(windows: &[Window], asked: Option<Name>) -> Option<Name>
    ensures { result ≡ tables.missing_window (sound.window_names windows.now) asked }
{
    let Some(name) = asked else {
        return None;
    };
    if some_has_name(windows, &name) {
        None
    } else {
        Some(name)
    }
}

/// The name of a window that some rule asks for and that is not there.
pub(crate) fn unknown_window(windows: &[Window], rules: &[Rule]) -> Option<Name>
    ensures { let asked = sound.rule_windows rules.now in
        let names = sound.window_names windows.now in
        MatchOption result (sound.HaveWindows asked names) (tables.IsMissing asked names) }
{
    for rule in rules {
        if let Some(name) = missing_window(windows, rule.window) {
            return Some(name);
        }
    }
    None
}
