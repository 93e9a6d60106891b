//! The values of options.
ghost use Rattle.std.specs.Prelude.{◌≡◌, ℕ, List, Option, option_map, MatchOption};
ghost use Rattle.clap.specs.Words.{found_of, rows_of};
ghost use Rattle.fab_names.specs.Names.{SpellsName};
ghost use Rattle.fab_names.specs.WorldWideNames.{SpellsWwn};
ghost use Rattle.fab_names.specs.Fabrics.{SpellsFabric};
ghost use Rattle.fab_names.specs.declared.fabric.Fabric.{Fabric};
ghost use Rattle.fab_program_words.specs.Options.{value_of};
ghost use Rattle.fab_program_words.specs.Lists.{SpellsList};
ghost use Rattle.fab_program_words.specs.Values.{Has, MayHave, SpellsAction, SpellsFabrics, SpellsKind, SpellsState, SpellsToken, SpellsNumber64, is_given};
ghost use Rattle.fab_program_words.specs.declared.words.ActionWord.{ActionWord};
ghost use Rattle.fab_program_words.specs.declared.words.ListKind.{ListKind};
ghost use Rattle.fab_program_words.specs.declared.words.NamedFabrics.{NamedFabrics};
ghost use Rattle.fab_program_words.specs.declared.words.ListState.{ListState};

use crate::lists::{Part, is_list};
use crate::options::OptionKind;
use crate::words::{ActionWord, ListKind, ListState, NamedFabrics};
use clap::ArgMatches;
use fab_names::{Fabric, Name, Wwn, is_token, read_number};

/// The value of an option, if it was given.
pub fn text_in<'a>(given: &ArgMatches<'a>, option: OptionKind) -> Option<&'a str>
    ensures { option_map (λ text. text.now) result ≡ value_of option (rows_of (found_of given.now)) }
{
    given.get_str(option.name())
}

/// The value of an option as a name, or none where it is no name or was not given.
pub fn name_in(given: &ArgMatches<'_>, option: OptionKind) -> Option<Name>
    ensures { MatchOption result
        ((x : List ℕ) → ¬ Has SpellsName (value_of option (rows_of (found_of given.now))) x)
        (Has SpellsName (value_of option (rows_of (found_of given.now)))) }
{
    let Some(text) = text_in(given, option) else {
        return None;
    };
    Name::read(text).ok()
}

/// The value of an option as a world-wide name, or none where it is none or was not given.
pub fn wwn_in(given: &ArgMatches<'_>, option: OptionKind) -> Option<Wwn>
    ensures { MatchOption result
        ((x : ℕ) → ¬ Has SpellsWwn (value_of option (rows_of (found_of given.now))) x)
        (Has SpellsWwn (value_of option (rows_of (found_of given.now)))) }
{
    let Some(text) = text_in(given, option) else {
        return None;
    };
    wwn_of(text)
}

/// The world-wide name that a text spells, if it spells one.
fn wwn_of(text: &str) -> Option<Wwn>
    ensures { MatchOption result ((x : ℕ) → ¬ SpellsWwn text.now x) (SpellsWwn text.now) }
{
    match Wwn::read(text) {
        Ok(name) => Some(name),
        Err(_) => None,
    }
}

/// The value of an option as a fabric, or none where it is no fabric or was not given.
pub fn fabric_in(given: &ArgMatches<'_>, option: OptionKind) -> Option<Fabric>
    ensures { MatchOption result
        ((x : Fabric) → ¬ Has SpellsFabric (value_of option (rows_of (found_of given.now))) x)
        (Has SpellsFabric (value_of option (rows_of (found_of given.now)))) }
{
    let Some(text) = text_in(given, option) else {
        return None;
    };
    Fabric::read(text).ok()
}

/// The value of an option as a token, or none where it has not the form of one or was not given.
pub fn token_in<'a>(given: &ArgMatches<'a>, option: OptionKind) -> Option<&'a str>
    ensures { MatchOption result
        ((x : List ℕ) → ¬ Has SpellsToken (value_of option (rows_of (found_of given.now))) x)
        (λ x. Has SpellsToken (value_of option (rows_of (found_of given.now))) x.now) }
{
    let Some(text) = text_in(given, option) else {
        return None;
    };
    if is_token(text.as_bytes()) {
        Some(text)
    } else {
        None
    }
}

/// The value of an option as a number, `Some(None)` where it was not given, or none where it is no
/// number text of 0 to 18446744073709551615.
pub fn number_in(given: &ArgMatches<'_>, option: OptionKind) -> Option<Option<u64>>
    ensures { MatchOption result
        ((x : Option ℕ) → ¬ MayHave SpellsNumber64 (value_of option (rows_of (found_of given.now))) x)
        (MayHave SpellsNumber64 (value_of option (rows_of (found_of given.now)))) }
{
    let Some(text) = text_in(given, option) else {
        return Some(None);
    };
    match number_of(text) {
        Some(number) => Some(Some(number)),
        None => None,
    }
}

/// The number that a text spells, if it is at most 18446744073709551615.
pub fn number_of(text: &str) -> Option<u64>
    ensures { MatchOption result ((x : ℕ) → ¬ SpellsNumber64 text.now x) (SpellsNumber64 text.now) }
{
    let Some(number) = read_number(text.as_bytes()) else {
        return None;
    };
    u64::try_from(number).ok()
}

/// The value of an option as a name, `Some(None)` where it was not given, or none where it is no name.
pub fn maybe_name_in(given: &ArgMatches<'_>, option: OptionKind) -> Option<Option<Name>>
    ensures { MatchOption result
        ((x : Option (List ℕ)) → ¬ MayHave SpellsName (value_of option (rows_of (found_of given.now))) x)
        (MayHave SpellsName (value_of option (rows_of (found_of given.now)))) }
{
    let Some(text) = text_in(given, option) else {
        return Some(None);
    };
    match Name::read(text) {
        Ok(name) => Some(Some(name)),
        Err(_) => None,
    }
}

/// The value of an option as a list, `Some(None)` where it was not given, or none where it is no list of
/// such parts.
pub fn list_in<'a>(
    given: &ArgMatches<'a>,
    option: OptionKind,
    kind: Part,
) -> Option<Option<&'a str>>
    ensures { MatchOption result
        ((x : Option (List ℕ)) → ¬ MayHave (SpellsList kind) (value_of option (rows_of (found_of given.now))) x)
        (λ x. MayHave (SpellsList kind) (value_of option (rows_of (found_of given.now))) (option_map (λ text. text.now) x)) }
{
    let Some(text) = text_in(given, option) else {
        return Some(None);
    };
    if is_list(kind, text) {
        Some(Some(text))
    } else {
        None
    }
}

/// The value of an option as fabrics, `Some(None)` where it was not given, or none where they are none.
pub fn fabrics_in(given: &ArgMatches<'_>, option: OptionKind) -> Option<Option<NamedFabrics>>
    ensures { MatchOption result
        ((x : Option NamedFabrics) → ¬ MayHave SpellsFabrics (value_of option (rows_of (found_of given.now))) x)
        (MayHave SpellsFabrics (value_of option (rows_of (found_of given.now)))) }
{
    let Some(text) = text_in(given, option) else {
        return Some(None);
    };
    match fabrics_of(text) {
        Some(fabrics) => Some(Some(fabrics)),
        None => None,
    }
}

/// The fabrics that a text spells, if it spells some.
fn fabrics_of(text: &str) -> Option<NamedFabrics>
    ensures { MatchOption result ((x : NamedFabrics) → ¬ SpellsFabrics text.now x) (SpellsFabrics text.now) }
{
    match text {
        "A" => Some(NamedFabrics::A),
        "B" => Some(NamedFabrics::B),
        "A,B" => Some(NamedFabrics::Both),
        _ => None,
    }
}

/// The value of an option as an action, or none where it is none or was not given.
pub fn action_in(given: &ArgMatches<'_>, option: OptionKind) -> Option<ActionWord>
    ensures { MatchOption result
        ((x : ActionWord) → ¬ Has SpellsAction (value_of option (rows_of (found_of given.now))) x)
        (Has SpellsAction (value_of option (rows_of (found_of given.now)))) }
{
    let Some(text) = text_in(given, option) else {
        return None;
    };
    action_of(text)
}

/// The action that a text spells, if it spells one.
fn action_of(text: &str) -> Option<ActionWord>
    ensures { MatchOption result ((x : ActionWord) → ¬ SpellsAction text.now x) (SpellsAction text.now) }
{
    match text {
        "import" => Some(ActionWord::Import),
        "inventory" => Some(ActionWord::Inventory),
        "stage" => Some(ActionWord::Stage),
        "withdraw" => Some(ActionWord::Withdraw),
        "approve" => Some(ActionWord::Approve),
        "dryrun" => Some(ActionWord::DryRun),
        "activate" => Some(ActionWord::Activate),
        "rollback" => Some(ActionWord::Rollback),
        _ => None,
    }
}

/// The value of an option as a kind of list, or none where it is no kind or was not given.
pub fn kind_in(given: &ArgMatches<'_>, option: OptionKind) -> Option<ListKind>
    ensures { MatchOption result
        ((x : ListKind) → ¬ Has SpellsKind (value_of option (rows_of (found_of given.now))) x)
        (Has SpellsKind (value_of option (rows_of (found_of given.now)))) }
{
    let Some(text) = text_in(given, option) else {
        return None;
    };
    kind_of(text)
}

/// The kind of list that a text spells, if it spells one.
fn kind_of(text: &str) -> Option<ListKind>
    ensures { MatchOption result ((x : ListKind) → ¬ SpellsKind text.now x) (SpellsKind text.now) }
{
    match text {
        "hosts" => Some(ListKind::Hosts),
        "arrays" => Some(ListKind::Arrays),
        "volumes" => Some(ListKind::Volumes),
        "ports" => Some(ListKind::Ports),
        "aliases" => Some(ListKind::Aliases),
        "zones" => Some(ListKind::Zones),
        "sets" => Some(ListKind::Sets),
        "host-groups" => Some(ListKind::HostGroups),
        "groups" => Some(ListKind::Groups),
        "plans" => Some(ListKind::Plans),
        _ => None,
    }
}

/// The value of an option as a state of plans, `Some(None)` where it was not given, or none where it is
/// no such state.
pub fn state_in(given: &ArgMatches<'_>, option: OptionKind) -> Option<Option<ListState>>
    ensures { MatchOption result
        ((x : Option ListState) → ¬ MayHave SpellsState (value_of option (rows_of (found_of given.now))) x)
        (MayHave SpellsState (value_of option (rows_of (found_of given.now)))) }
{
    let Some(text) = text_in(given, option) else {
        return Some(None);
    };
    match state_of(text) {
        Some(state) => Some(Some(state)),
        None => None,
    }
}

/// The state of plans that a text spells, if it spells one.
fn state_of(text: &str) -> Option<ListState>
    ensures { MatchOption result ((x : ListState) → ¬ SpellsState text.now x) (SpellsState text.now) }
{
    match text {
        "staged" => Some(ListState::Staged),
        "active" => Some(ListState::Active),
        "rolled-back" => Some(ListState::RolledBack),
        "withdrawn" => Some(ListState::Withdrawn),
        _ => None,
    }
}

/// Whether an option without a value was given.
pub fn is_given(given: &ArgMatches<'_>, option: OptionKind) -> bool
    ensures { result ≡ is_given (value_of option (rows_of (found_of given.now))) }
{
    match text_in(given, option) {
        Some(text) => text == "true",
        None => false,
    }
}
