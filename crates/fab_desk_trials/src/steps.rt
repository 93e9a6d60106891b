//! The step of a book of paths.
ghost use Rattle.std.specs.Prelude.{◌≡◌, ℕ, IsSome, IfOk, OnOk, IfErr, IfSome};
ghost use Rattle.fab_reach_base.specs.Limits.{MoreThan, most_paths};
ghost use Rattle.fab_reach_base.specs.Reach.{Reaches};
ghost use Rattle.fab_reach_base.specs.Serving.{IsServing};
ghost use Rattle.fab_reach_base.specs.Views.{seen};
ghost use Rattle.fab_reach_books.specs.Rows.{IsRowDiff};
ghost use Rattle.fab_world.specs.Soundness.{IsSound};
ghost use Rattle.fab_world.specs.Worlds.{records_of};
ghost use Rattle.fab_policy.specs.fab_policy_base.Policies.{PolicyRows};
ghost use Rattle.fab_desk_base.specs.Answers.{IsThere};
ghost use Rattle.fab_desk_base.specs.Commands.{IsGiven, action_of, tried};
ghost use Rattle.fab_desk_base.specs.Refusals.{HasManyPaths};
ghost use Rattle.fab_desk_base.specs.Trying.{IsTryFault};
ghost use Rattle.fab_desk_base.specs.declared.fault.DeskFault.TheVariants as fault;
ghost use Rattle.fab_desk_base.specs.declared.fault.DeskLimit.TheVariants as limit;
ghost use Rattle.fab_desk_trials.specs.Limits.{IsLimitFault};
ghost use Rattle.fab_desk_trials.specs.Trials.{effect_world, IsPrepared, IsStepReady, IsTried};

use crate::effects::{Effect, effect_of};
use crate::limits::check_changes;
use crate::moves::{moved_rows, moved_view};
use fab_desk_base::{Command, DeskFault, DeskLimit};
use fab_reach_base::names::Name;
use fab_reach_base::{Config, View};
use fab_reach_books::{Limited, PathBook, RowDiff, ViewSight};
use fab_world::World;
use std::alloc::Allocator;

/// What a command would make of the world, with the step of a book that is ready for it; none, where
/// no path can move.
#[derive(Drop)]
pub struct Prepared<A: Allocator + Copy, R> {
    /// What the command would make of the world.
    pub effect: Effect<A>,
    /// The step of the book, where a path may move.
    pub step: Option<R>,
}

/// Makes the book's step ready to the world that is seen, unless it sees too many paths. It looks at
/// that world by pairs alone; the difference is from the world before to it.
///
/// # Errors
/// `Limit(Paths)`, or `Memory`.
fn seen_step<A: Allocator + Copy, B: PathBook<A>>(
    alloc: A,
    book: &mut B,
    before: &View<'_, A>,
    after: &View<'_, A>,
    diff: &RowDiff<A>,
) -> Result<B::Ready, DeskFault>
    requires stands { B.stands book.old (seen before.now) }
    requires sound { IsServing (seen after.now) }
    requires diff { IsRowDiff (seen before.now) (seen after.now) diff.now.gone.items diff.now.come.items }
    ensures stays { B.stands book.new (seen before.now) }
    ensures leads { IfOk result (λ ready. B.leads book.new ready (seen before.now) (seen after.now)) }
    ensures bounds { OnOk result (B.bounds (seen before.now) (seen after.now) (B.count book.old) (B.count book.new)) }
    ensures err { IfErr result (IsLimitFault (fault.Limit limit.Paths) (MoreThan most_paths (Reaches (seen after.now)))) }
{
    let mut sight = Limited::new(alloc, ViewSight::new(alloc, *after));
    match book.prepare(before, diff, &mut sight) {
        Ok(ready) => Ok(ready),
        Err(_) => {
            if sight.is_over() {
                return Err(DeskFault::Limit(DeskLimit::Paths));
            }
            Err(DeskFault::Memory)
        }
    }
}

/// Makes the book's step ready, unless there are too many paths after it.
///
/// # Errors
/// `Limit(Paths)`, or `Memory`.
fn few_step<A: Allocator + Copy, B: PathBook<A>>(
    alloc: A,
    book: &mut B,
    before: &View<'_, A>,
    after: &View<'_, A>,
    diff: &RowDiff<A>,
) -> Result<B::Ready, DeskFault>
    requires stands { B.stands book.old (seen before.now) }
    requires sound { IsServing (seen after.now) }
    requires diff { IsRowDiff (seen before.now) (seen after.now) diff.now.gone.items diff.now.come.items }
    ensures stays { B.stands book.new (seen before.now) }
    ensures leads { IfOk result (λ ready. B.leads book.new ready (seen before.now) (seen after.now)) }
    ensures few { OnOk result (¬ MoreThan most_paths (Reaches (seen after.now))) }
    ensures bounds { OnOk result (B.bounds (seen before.now) (seen after.now) (B.count book.old) (B.count book.new)) }
    ensures err { IfErr result (IsLimitFault (fault.Limit limit.Paths) (MoreThan most_paths (Reaches (seen after.now)))) }
{
    let ready = match seen_step(alloc, book, before, after, diff) {
        Ok(ready) => ready,
        Err(fault) => return Err(fault),
    };
    if !book.has_few(&ready) {
        return Err(DeskFault::Limit(DeskLimit::Paths));
    }
    Ok(ready)
}

/// Makes the book's step ready, unless there are too many paths after it. The book tells both by the
/// rows that differ, as the effect has them.
///
/// # Errors
/// `Limit(Paths)`, or `Memory`.
fn step<A: Allocator + Copy, B: PathBook<A>>(
    alloc: A,
    world: &World<A>,
    book: &mut B,
    caller: &Name,
    command: &Command<A>,
    effect: &Effect<A>,
) -> Result<Option<B::Ready>, DeskFault>
    requires stands { B.stands book.old (records_of world.now) }
    requires sound { IsSound world.now }
    requires tried { IsTried world.now caller.now command.now effect.now }
    ensures stays { B.stands book.new (records_of world.now) }
    ensures ok { IfOk result (IsStepReady (B.leads book.new) (records_of world.now) (records_of (effect_world world.now caller.now command.now effect.now))) }
    ensures few { OnOk result (¬ HasManyPaths (effect_world world.now caller.now command.now effect.now)) }
    ensures bounds { OnOk result (B.bounds (records_of world.now) (records_of (effect_world world.now caller.now command.now effect.now)) (B.count book.old) (B.count book.new)) }
    ensures err { IfErr result (IsLimitFault (fault.Limit limit.Paths) (HasManyPaths (effect_world world.now caller.now command.now effect.now))) }
{
    let _caller = caller;
    let _command = command;
    let Some(after) = moved_view(world, effect) else {
        return Ok(None);
    };
    let Ok(diff) = moved_rows(alloc, world, effect) else {
        return Err(DeskFault::Memory);
    };
    let before = View::of(&world.inventory, &world.config);
    match few_step(alloc, book, &before, &after, &diff) {
        Ok(ready) => Ok(Some(ready)),
        Err(fault) => Err(fault),
    }
}

/// Tries a command: what it would make of the world, with the step of the book. The book stands
/// where it stood. Steps of a plan are done on the spare configuration, which is taken, if there is one.
///
/// # Errors
/// The first refusal of the records, the limits on paths and on changes the last of them; or `Memory`.
pub fn try_out<A: Allocator + Copy, B: PathBook<A>>(
    alloc: A,
    world: &World<A>,
    book: &mut B,
    spare: &mut Option<Config<A>>,
    caller: &Name,
    command: &Command<A>,
) -> Result<Prepared<A, B::Ready>, DeskFault>
    requires stands { B.stands book.old (records_of world.now) }
    requires sound { IsSound world.now }
    requires spare { IfSome spare.old (λ s. s ≡ world.now.config) }
    requires given { IsGiven command.now }
    requires there { (p : PolicyRows) (id : ℕ) → IsThere p world.now id command.now }
    requires change { IsSome (action_of command.now) }
    ensures stays { B.stands book.new (records_of world.now) }
    ensures ok { IfOk result (IsPrepared (B.leads book.new) world.now caller.now command.now) }
    ensures bounds { IfOk result (λ prepared. B.bounds (records_of world.now) (records_of (effect_world world.now caller.now command.now prepared.effect)) (B.count book.old) (B.count book.new)) }
    ensures err { IfErr result (IsTryFault world.now caller.now (tried command.now)) }
    ensures spare { IfSome spare.new (λ s. s ≡ world.now.config) }
{
    let effect = match effect_of(alloc, world, spare, caller, command) {
        Ok(effect) => effect,
        Err(fault) => return Err(fault),
    };
    let step = match step(alloc, world, book, caller, command, &effect) {
        Ok(step) => step,
        Err(fault) => return Err(fault),
    };
    match check_changes(world, command) {
        Ok(()) => Ok(Prepared { effect, step }),
        Err(fault) => Err(fault),
    }
}
