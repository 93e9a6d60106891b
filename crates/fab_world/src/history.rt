//! The configurations before the activations that are in force.
ghost use Rattle.std.specs.Prelude.{◌≡◌, ◌↔◌, ◌++◌, List, [], ◌∷◌, reverse, IsTrue, IfOk, MatchOption, true, false};
ghost use Rattle.std.specs.BTreeMap.{get};
ghost use Rattle.fab_reach_base.specs.fab_names.Orders.{name_cmp};
ghost use Rattle.fab_reach_base.specs.Records.{ConfigRows};
ghost use Rattle.fab_reach_base.specs.Soundness.{IsSoundAlone};
ghost use Rattle.fab_store_load.specs.Configs.{AreConfigRows};
ghost use Rattle.fab_store_load.specs.fab_store_rows.Telling.{HaveSameRows};
ghost use Rattle.fab_world.specs.History.{IsEarlier, IsOnlyEarlier, LeadsBack, changes_at, changes_of};
ghost use Rattle.fab_world.specs.Plans.{Change, change_in};

use crate::KeptPlan;
use fab_reach_base::Config;
use fab_reach_base::names::Name;
use fab_store_drafts::Draft;
use fab_store_drafts::edits::lead;
use fab_store_load::rows::{ConfigRow, RowDifference, config_rows};
use fab_store_load::{LoadFault, config_of};
use std::alloc::{AllocError, Allocator};
use std::collections::BTreeMap;

/// The sound configuration that has just these rows, if there is one.
fn restored<A: Allocator + Copy>(
    alloc: A,
    rows: &[ConfigRow],
) -> Result<Option<Config<A>>, AllocError>
    ensures { IfOk result (λ found. MatchOption found ((c : ConfigRows) → AreConfigRows rows.now c → ¬ IsSoundAlone c) (λ c. AreConfigRows rows.now c × IsSoundAlone c)) }
{
    match config_of(alloc, rows) {
        Ok(config) => Ok(Some(config)),
        Err(LoadFault::Damaged(_)) => Ok(None),
        Err(LoadFault::Memory) => Err(AllocError),
    }
}

/// The sound configuration in which the same rows stand as in this one, if there is one. It is another
/// where this one has an empty set.
fn sound_alike<A: Allocator + Copy>(
    alloc: A,
    config: &Config<A>,
) -> Result<Option<Config<A>>, AllocError>
    ensures { IfOk result (λ found. MatchOption found ((c : ConfigRows) → HaveSameRows c config.now → ¬ IsSoundAlone c) (λ c. HaveSameRows c config.now × IsSoundAlone c)) }
{
    let rows = config_rows(alloc, config)?;
    restored(alloc, rows.as_slice())
}

/// The configuration from before a change: the sound one from which the change leads to this one,
/// of which there is one at most. Whether it fits an inventory `Mapping::fits` tells.
///
/// # Errors
/// `AllocError` where there is no memory.
pub fn earlier<A: Allocator + Copy>(
    alloc: A,
    now: &Config<A>,
    change: &RowDifference<A>,
) -> Result<Option<Config<A>>, AllocError>
    ensures { IfOk result (λ found. MatchOption found ((b : ConfigRows) → ¬ IsEarlier now.now (change_in change.now) b) (IsOnlyEarlier now.now (change_in change.now))) }
{
    let mut edited = now.copy()?;
    if !lead(
        alloc,
        &mut edited,
        change.added.as_slice(),
        change.taken.as_slice(),
    )? {
        return Ok(None);
    }
    sound_alike(alloc, &edited)
}

/// What undoes the plan of this name, where it is active.
fn undo_at<'a, A: Allocator + Copy>(
    plans: &'a BTreeMap<Name, KeptPlan<A>, A>,
    name: &Name,
) -> Option<&'a RowDifference<A>>
    ensures { MatchOption result (changes_at (get name_cmp plans.now) name.now ≡ []) (λ change. changes_at (get name_cmp plans.now) name.now ≡ change_in change.now ∷ []) }
{
    let Some(plan) = plans.get(name) else {
        return None;
    };
    plan.undo()
}

/// Goes back to the configuration from before the activation of the plan of this name, if there is one,
/// and stays where no activation of it is in force. Where there is none the draft is some other
/// configuration.
///
/// # Errors
/// `AllocError` where there is no memory.
fn undo_plan<A: Allocator + Copy>(
    plans: &BTreeMap<Name, KeptPlan<A>, A>,
    name: &Name,
    draft: &mut Draft<A>,
) -> Result<bool, AllocError>
    requires { IsSoundAlone draft.old }
    ensures sound { IfOk result (λ led. led ≡ true → IsSoundAlone draft.new) }
    ensures way { IfOk result (λ led. led ≡ true → (others : List Change) → LeadsBack (changes_at (get name_cmp plans.now) name.now ++ others) draft.old ↔ LeadsBack others draft.new) }
    ensures none { IfOk result (λ led. led ≡ false → (others : List Change) → ¬ LeadsBack (changes_at (get name_cmp plans.now) name.now ++ others) draft.old) }
{
    match undo_at(plans, name) {
        Some(change) => draft.undo(change),
        None => Ok(true),
    }
}

/// Whether the activations of these plans that are in force lead back from a sound configuration
/// through sound ones, each by just what it changed. The one configuration is led back in place, and
/// the work of a step goes by its rows.
///
/// # Errors
/// `AllocError` where there is no memory.
fn leads_back<A: Allocator + Copy>(
    alloc: A,
    plans: &BTreeMap<Name, KeptPlan<A>, A>,
    order: &[Name],
    now: Config<A>,
) -> Result<bool, AllocError>
    requires { IsSoundAlone now }
    ensures { IfOk result (λ leads. IsTrue leads ↔ LeadsBack (changes_of (get name_cmp plans.now) (reverse order.now)) now) }
{
    let mut draft = Draft::of(alloc, now)?;
    let mut left = order;
    while let Some(pair) = left.split_last() {
        let (name, rest) = pair;
        if !undo_plan(plans, name, &mut draft)? {
            return Ok(false);
        }
        left = rest;
    }
    Ok(true)
}

/// Whether the change, and before it the activations of these plans that are in force, lead back from
/// the configuration through sound ones. It need not be sound itself, so the one before the change is
/// built anew and tested whole.
///
/// # Errors
/// `AllocError` where there is no memory.
fn leads_back_by<A: Allocator + Copy>(
    alloc: A,
    plans: &BTreeMap<Name, KeptPlan<A>, A>,
    order: &[Name],
    now: &Config<A>,
    change: &RowDifference<A>,
) -> Result<bool, AllocError>
    ensures { IfOk result (λ leads. IsTrue leads ↔ LeadsBack (change_in change.now ∷ changes_of (get name_cmp plans.now) (reverse order.now)) now.now) }
{
    match earlier(alloc, now, change)? {
        Some(before) => leads_back(alloc, plans, order, before),
        None => Ok(false),
    }
}

/// Whether the activations that are in force lead back from the configuration through sound ones,
/// each by just what it changed. The first of these steps back goes by the configuration, the others
/// by their rows. One earlier configuration is in memory at a time.
///
/// # Errors
/// `AllocError` where there is no memory.
pub fn has_sound_history<A: Allocator + Copy>(
    alloc: A,
    plans: &BTreeMap<Name, KeptPlan<A>, A>,
    order: &[Name],
    config: &Config<A>,
) -> Result<bool, AllocError>
    ensures { IfOk result (λ sound. IsTrue sound ↔ LeadsBack (changes_of (get name_cmp plans.now) (reverse order.now)) config.now) }
{
    let mut left = order;
    while let Some(pair) = left.split_last() {
        let (name, rest) = pair;
        if let Some(change) = undo_at(plans, name) {
            return leads_back_by(alloc, plans, rest, config, change);
        }
        left = rest;
    }
    Ok(true)
}
