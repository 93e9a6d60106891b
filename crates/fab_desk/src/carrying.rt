//! Changes carried out over a store.
ghost use Rattle.std.specs.Prelude.{◌≡◌, ◌⊎◌, IfOk, IfSome, OnOk, OnErr, true, false};
ghost use Rattle.fab_desk_machine.specs.fab_desk_base.Answers.{IsMove};
ghost use Rattle.fab_desk_machine.specs.fab_desk_base.declared.fault.DeskFault.TheVariants as faults;
ghost use Rattle.fab_desk_machine.specs.fab_desk_base.declared.reply.Reply.TheVariants as replies;
ghost use Rattle.fab_desk_machine.specs.Reports.{reply_of};
ghost use Rattle.fab_desk_machine.specs.fab_desk_trials.Trials.{IsStepReady};
ghost use Rattle.fab_desk_machine.specs.fab_desk_commands.Nexts.{next_world, with_room, Suits};
ghost use Rattle.fab_reach_base.specs.declared.book.Delta.{Delta};
ghost use Rattle.fab_store_base.specs.Calls.{Rises};
ghost use Rattle.fab_store_base.specs.Moves.{AreMoves};
ghost use Rattle.fab_store_base.specs.Worlds.{HoldsWorld};
ghost use Rattle.fab_store_tables.specs.Tables.{Tables};
ghost use Rattle.fab_world.specs.Soundness.{IsSound};
ghost use Rattle.fab_world.specs.Worlds.{records_of};
ghost use Rattle.fab_desk.specs.Desks.{IsTied};
ghost use Rattle.fab_desk_machine.specs.fab_desk_base.Keeping.{KeepsHosts};

use crate::moves::moves;
use fab_desk_machine::base::{DeskFault, Reply};
use fab_desk_machine::{Change, lists_of, take_over};
use fab_reach_base::Config;
use fab_reach_books::PathBook;
use fab_store_base::laws::holds_keys;
use fab_store_base::{LineChanges, Store};
use fab_world::World;
use std::alloc::{AllocError, Allocator};

/// What is answered to a request, and whether the store refused its change.
#[derive(Drop)]
pub struct Served<A: Allocator + Copy> {
    pub reply: Reply<A>,
    pub is_shut: bool,
}

/// The lines in which the world and the one after the change differ.
///
/// # Errors
/// `AllocError` where there is no memory.
fn lines_of<A: Allocator + Copy, B: PathBook<A>>(
    alloc: A,
    world: &World<A>,
    book: &B,
    change: &Change<A, B::Ready>,
) -> Result<LineChanges<A>, AllocError>
    requires suits { Suits world.now change.now.next }
    requires step { IsStepReady (B.leads book.now) (records_of world.now) (records_of (next_world world.now change.now.next)) change.now.step }
    requires sound { IsSound world.now }
    requires next_sound { IsSound (next_world world.now change.now.next) }
    requires hosts { (d : Delta A) → IsMove world.now (next_world world.now change.now.next) d → KeepsHosts (records_of world.now) (records_of (next_world world.now change.now.next)) }
    ensures lines { IfOk result (AreMoves world.now (next_world world.now change.now.next)) }
    ensures paths { OnOk result ((d : Delta A) × IsMove world.now (next_world world.now change.now.next) d) }
{
    let delta = lists_of(alloc, book, &change.step)?;
    moves(alloc, world, &change.next, &delta)
}

/// The lines in which the world and the one after the change differ; then there is room for the change
/// in the world.
///
/// # Errors
/// `AllocError` where there is no memory: the world is as it was.
fn make_ready<A: Allocator + Copy, B: PathBook<A>>(
    alloc: A,
    world: &mut World<A>,
    book: &B,
    change: &Change<A, B::Ready>,
) -> Result<LineChanges<A>, AllocError>
    requires suits { Suits world.old change.now.next }
    requires step { IsStepReady (B.leads book.now) (records_of world.old) (records_of (next_world world.old change.now.next)) change.now.step }
    requires sound { IsSound world.old }
    requires next_sound { IsSound (next_world world.old change.now.next) }
    requires hosts { (d : Delta A) → IsMove world.old (next_world world.old change.now.next) d → KeepsHosts (records_of world.old) (records_of (next_world world.old change.now.next)) }
    ensures room { OnOk result (world.new ≡ with_room world.old change.now.next) }
    ensures kept { OnErr result (world.new ≡ world.old) }
    ensures lines { IfOk result (AreMoves world.old (next_world world.old change.now.next)) }
    ensures paths { OnOk result ((d : Delta A) × IsMove world.old (next_world world.old change.now.next) d) }
{
    let lines = lines_of(alloc, world, book, change)?;
    change.next.make_room(alloc, world)?;
    Ok(lines)
}

/// Carries out a change that is ready: the store has its lines before it is taken over. Where there is
/// no memory, or the store refuses, the world and the book are as they were. A spare configuration is
/// equal to the world's, before and after.
pub fn carry_out<A: Allocator + Copy, S: Store<A>, B: PathBook<A>>(
    alloc: A,
    world: &mut World<A>,
    book: &mut B,
    spare: &mut Option<Config<A>>,
    store: &mut S,
    change: Change<A, B::Ready>,
) -> Served<A>
    requires suits { Suits world.old change.next }
    requires step { IsStepReady (B.leads book.old) (records_of world.old) (records_of (next_world world.old change.next)) change.step }
    requires stands { B.stands book.old (records_of world.old) }
    requires sound { IsSound world.old }
    requires next_sound { IsSound (next_world world.old change.next) }
    requires hosts { (d : Delta A) → IsMove world.old (next_world world.old change.next) d → KeepsHosts (records_of world.old) (records_of (next_world world.old change.next)) }
    requires spare { IfSome spare.old (λ s. s ≡ world.old.config) }
    ensures spare { IfSome spare.new (λ s. s ≡ world.new.config) }
    ensures stands { B.stands book.new (records_of world.new) }
    ensures unasked { B.count book.new ≡ B.count book.old }
    ensures done { ((result.reply ≡ replies.Refused faults.Memory) × (world.new ≡ world.old) × (result.is_shut ≡ false) × (store.new ≡ store.old))
        ⊎ (((result.reply ≡ replies.Refused faults.Store) × (world.new ≡ world.old) × (result.is_shut ≡ true))
        ⊎ ((result.is_shut ≡ false) × (world.new ≡ next_world world.old change.next) × ((d : Delta A) × (result.reply ≡ reply_of change.report d) × IsMove world.old world.new d))) }
    ensures clean { S.is_clean store.new → S.is_clean store.old }
    ensures tied { S.is_clean store.new → IsTied S.Store store.old world.old → result.is_shut ≡ false → IsTied S.Store store.new world.new }
    ensures doubt { S.is_clean store.new → IsTied S.Store store.old world.old → (left : Tables) → S.may_leave store.new left → HoldsWorld left world.old ⊎ (HoldsWorld left (next_world world.old change.next) × ((d : Delta A) × IsMove world.old (next_world world.old change.next) d)) }
    ensures refused { result.is_shut ≡ true → (d : Delta A) × IsMove world.old (next_world world.old change.next) d }
    ensures counted { result.is_shut ≡ true → Rises (S.refused store.old) (S.refused store.new) }
    ensures uncounted { result.is_shut ≡ false → S.refused store.new ≡ S.refused store.old }
{
    let lines = match make_ready(alloc, world, book, &change) {
        Ok(lines) => lines,
        Err(_) => {
            return Served {
                reply: Reply::Refused(DeskFault::Memory),
                is_shut: false,
            };
        }
    };
    holds_keys();
    match store.commit(&lines) {
        Ok(()) => Served {
            reply: take_over(alloc, change, world, book, spare),
            is_shut: false,
        },
        Err(_) => {
            change.next.give_back(world);
            Served {
                reply: Reply::Refused(DeskFault::Store),
                is_shut: true,
            }
        }
    }
}
