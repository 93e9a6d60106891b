//! A change that is ready, and how it is taken over.
ghost use Rattle.std.specs.Prelude.{◌≡◌, ◌⊎◌, IfOk, IfSome};
ghost use Rattle.fab_reach_base.specs.Books.{IsDelta};
ghost use Rattle.fab_reach_base.specs.Records.{Records};
ghost use Rattle.fab_reach_base.specs.Soundness.{IsSoundAlone};
ghost use Rattle.fab_reach_base.specs.declared.book.Delta.{Delta};
ghost use Rattle.fab_world.specs.Worlds.{WorldRows, records_of};
ghost use Rattle.fab_desk_trials.specs.fab_desk_commands.Nexts.{next_world, with_room, IsReadyFor, Suits};
ghost use Rattle.fab_desk_base.specs.Answers.{IsMove};
ghost use Rattle.fab_desk_machine.specs.Proposals.{IsMemory};
ghost use Rattle.fab_desk_machine.specs.Reports.{reply_of};
ghost use Rattle.fab_desk_trials.specs.Trials.{IsStepReady};

use crate::report::{Report, reply_with};
use fab_desk_base::{DeskFault, Reply};
use fab_desk_trials::commands::Next;
use fab_reach_base::{Config, Delta, Path};
use fab_reach_books::PathBook;
use fab_world::World;
use std::alloc::{AllocError, Allocator};

/// A change that is ready: the parts of the world after it, the step of a book of paths, where paths
/// may move, and what is answered then. All memory for it is taken, but for the room in the world that
/// `Next::make_room` makes.
#[derive(Drop)]
pub struct Change<A: Allocator + Copy, R> {
    /// The parts of the world after it.
    pub next: Next<A>,
    /// The step of the book of paths, where paths may move.
    pub step: Option<R>,
    /// What is answered, but for the lists of paths.
    pub report: Report,
}

/// A list of paths once more.
fn copied<A: Allocator + Copy>(alloc: A, paths: &[Path]) -> Result<Vec<Path, A>, AllocError>
    ensures { IfOk result (λ copy. copy.items ≡ paths.now) }
{
    paths.iter().copied().collect(alloc)
}

/// The lists once more.
fn copied_lists<A: Allocator + Copy>(alloc: A, delta: &Delta<A>) -> Result<Delta<A>, AllocError>
    ensures { IfOk result (λ copy. (copy.gained.items ≡ delta.now.gained.items) × (copy.lost.items ≡ delta.now.lost.items)) }
{
    let gained = copied(alloc, delta.gained.as_slice())?;
    let lost = copied(alloc, delta.lost.as_slice())?;
    Ok(Delta { gained, lost })
}

/// No path gained, and none lost. It takes no memory.
fn no_paths<A: Allocator + Copy>(alloc: A) -> Delta<A>
    ensures { (w : Records) → IsDelta w w result.gained.items result.lost.items }
{
    Delta {
        gained: Vec::new(alloc),
        lost: Vec::new(alloc),
    }
}

/// The lists of a step of a book, once more.
///
/// # Errors
/// `AllocError` where there is no memory.
pub fn lists_of<A: Allocator + Copy, B: PathBook<A>>(
    alloc: A,
    book: &B,
    step: &Option<B::Ready>,
) -> Result<Delta<A>, AllocError>
    ensures { (old new : Records) → IsStepReady (B.leads book.now) old new step.now → IfOk result (λ delta. IsDelta old new delta.gained.items delta.lost.items) }
{
    match step {
        Some(ready) => copied_lists(alloc, book.delta(ready)),
        None => Ok(no_paths(alloc)),
    }
}

/// Has a book take its step, if there is one. It takes no memory.
pub fn adopt<A: Allocator + Copy, B: PathBook<A>>(
    alloc: A,
    book: &mut B,
    step: Option<B::Ready>,
) -> Delta<A>
    ensures stands { (old new : Records) → IsStepReady (B.leads book.old) old new step → B.stands book.old old → B.stands book.new new }
    ensures delta { (old new : Records) → IsStepReady (B.leads book.old) old new step → IsDelta old new result.gained.items result.lost.items }
    ensures uncounted { B.count book.new ≡ B.count book.old }
{
    match step {
        Some(ready) => book.adopt(ready),
        None => no_paths(alloc),
    }
}

/// Takes over a change: the world is the one that the change makes of the world before there was room
/// for it, the book stands at it, and this is answered. It needs no memory and can not fail. The
/// change has to be one that was proposed for that world and this book. A spare configuration that is
/// equal to the world's is equal to the new one's then; a change of the configuration leaves one, if
/// there is memory for it.
pub fn take_over<A: Allocator + Copy, B: PathBook<A>>(
    alloc: A,
    change: Change<A, B::Ready>,
    world: &mut World<A>,
    book: &mut B,
    spare: &mut Option<Config<A>>,
) -> Reply<A>
    requires room { IsReadyFor world.old change.next }
    requires step { IsStepReady (B.leads book.old) (records_of world.old) (records_of (next_world world.old change.next)) change.step }
    requires stands { B.stands book.old (records_of world.old) }
    ensures world { (before : WorldRows) → world.old ≡ with_room before change.next → world.new ≡ next_world before change.next }
    ensures stands { B.stands book.new (records_of world.new) }
    ensures reply { (delta : Delta A) × (result ≡ reply_of change.report delta) × IsMove world.old world.new delta }
    ensures uncounted { B.count book.new ≡ B.count book.old }
    ensures spare { IfSome spare.old (λ s. s ≡ world.old.config) → IsSoundAlone world.old.config → IsSoundAlone world.new.config → IfSome spare.new (λ s. s ≡ world.new.config) }
{
    let delta = adopt(alloc, book, change.step);
    change.next.take_over(alloc, world, spare);
    reply_with(change.report, delta)
}

/// Makes room for a change, and takes it over. Want of memory is answered `Memory`, and nothing is
/// changed.
pub fn carry_through<A: Allocator + Copy, B: PathBook<A>>(
    alloc: A,
    change: Change<A, B::Ready>,
    world: &mut World<A>,
    book: &mut B,
) -> Reply<A>
    requires suits { Suits world.old change.next }
    requires step { IsStepReady (B.leads book.old) (records_of world.old) (records_of (next_world world.old change.next)) change.step }
    requires stands { B.stands book.old (records_of world.old) }
    ensures stands { B.stands book.new (records_of world.new) }
    ensures done { (IsMemory result × (world.new ≡ world.old))
        ⊎ ((world.new ≡ next_world world.old change.next) × ((delta : Delta A) × (result ≡ reply_of change.report delta) × IsMove world.old world.new delta)) }
    ensures uncounted { B.count book.new ≡ B.count book.old }
{
    match change.next.make_room(alloc, world) {
        Ok(()) => take_over(alloc, change, world, book, &mut None),
        Err(_) => Reply::Refused(DeskFault::Memory),
    }
}
