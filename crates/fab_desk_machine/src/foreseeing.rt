//! What a request would change, were it done.
ghost use Rattle.std.specs.Prelude.{ℕ, IsSome, IfOk, IfErr};
ghost use Rattle.fab_policy.specs.declared.act.Verdict.TheVariants.{Allowed};
ghost use Rattle.fab_policy.specs.fab_policy_base.Policies.{PolicyRows};
ghost use Rattle.fab_world.specs.Soundness.{IsSound};
ghost use Rattle.fab_world.specs.Worlds.{records_of};
ghost use Rattle.fab_desk_base.specs.Acts.{IsJudged};
ghost use Rattle.fab_desk_base.specs.Answers.{IsThere};
ghost use Rattle.fab_desk_base.specs.Commands.{IsGiven, action_of};
ghost use Rattle.fab_desk_machine.specs.Foreseen.{IsForeseen, IsStopped, IsTurnedAway, IsTurnedDown};
ghost use Rattle.fab_desk_machine.specs.Proposals.{request_of};
ghost use Rattle.fab_desk_trials.specs.Trials.{IsPrepared};

use crate::bodies::{is_given, is_there};
use crate::finish::{denied, refusal};
use crate::proposing::{is_memory, sender_of};
use crate::verdicts::Sender;
use fab_desk_base::{Command, DeskFault};
use fab_desk_trials::{Prepared, try_out};
use fab_policy::base::Policy;
use fab_reach_books::PathBook;
use fab_world::World;
use std::alloc::Allocator;

/// A command that has this effect, unless the policy denies it.
///
/// # Errors
/// The denial, or `Memory`.
fn unless_denied<A: Allocator + Copy, B: PathBook<A>>(
    alloc: A,
    world: &World<A>,
    book: &B,
    policy: &Policy,
    sender: &Sender,
    command: &Command<A>,
    prepared: Prepared<A, B::Ready>,
) -> Result<Prepared<A, B::Ready>, DeskFault>
    requires prepared { IsPrepared (B.leads book.now) world.now sender.now.name command.now prepared }
    requires there { (p : PolicyRows) (i : ℕ) → IsThere p world.now i command.now }
    requires change { IsSome (action_of command.now) }
    ensures allowed { IfOk result (λ t. IsJudged policy.now world.now sender.now.id sender.now.name sender.now.moment command.now Allowed) }
    ensures prepared { IfOk result (IsPrepared (B.leads book.now) world.now sender.now.name command.now) }
    ensures err { IfErr result (IsStopped policy.now world.now sender.now.id sender.now.name sender.now.moment command.now) }
{
    match denied(alloc, world, book, policy, sender, command, &prepared) {
        Ok(None) => Ok(prepared),
        Ok(Some(denied)) => Err(denied),
        Err(_) => Err(DeskFault::Memory),
    }
}

/// What a command would change whose values some body gives, and that is about what is there.
fn foresee_there<A: Allocator + Copy, B: PathBook<A>>(
    alloc: A,
    world: &World<A>,
    book: &mut B,
    policy: &Policy,
    sender: &Sender,
    command: &Command<A>,
) -> Result<Prepared<A, B::Ready>, DeskFault>
    requires sound { IsSound world.now }
    requires stands { B.stands book.old (records_of world.now) }
    requires given { IsGiven command.now }
    requires there { (p : PolicyRows) (i : ℕ) → IsThere p world.now i command.now }
    requires change { IsSome (action_of command.now) }
    ensures stays { B.stands book.new (records_of world.now) }
    ensures allowed { IfOk result (λ t. IsJudged policy.now world.now sender.now.id sender.now.name sender.now.moment command.now Allowed) }
    ensures prepared { IfOk result (IsPrepared (B.leads book.new) world.now sender.now.name command.now) }
    ensures err { IfErr result (IsStopped policy.now world.now sender.now.id sender.now.name sender.now.moment command.now) }
{
    let mut spare = None;
    match try_out(alloc, world, book, &mut spare, &sender.name, command) {
        Ok(prepared) => unless_denied(alloc, world, book, policy, sender, command, prepared),
        Err(fault) => {
            if is_memory(&fault) {
                return Err(DeskFault::Memory);
            }
            Err(refusal(alloc, world, policy, sender, command, fault))
        }
    }
}

/// What the command of a known caller would change.
fn foresee_as<A: Allocator + Copy, B: PathBook<A>>(
    alloc: A,
    world: &World<A>,
    book: &mut B,
    policy: &Policy,
    sender: &Sender,
    command: &Command<A>,
) -> Result<Prepared<A, B::Ready>, DeskFault>
    requires sound { IsSound world.now }
    requires stands { B.stands book.old (records_of world.now) }
    requires change { IsSome (action_of command.now) }
    ensures stays { B.stands book.new (records_of world.now) }
    ensures allowed { IfOk result (λ t. IsJudged policy.now world.now sender.now.id sender.now.name sender.now.moment command.now Allowed) }
    ensures prepared { IfOk result (IsPrepared (B.leads book.new) world.now sender.now.name command.now) }
    ensures err { IfErr result (IsTurnedAway policy.now world.now sender.now.id sender.now.name sender.now.moment command.now) }
{
    if !is_given(command) {
        return Err(DeskFault::BadBody { line: 0 });
    }
    if !is_there(world, command) {
        return Err(DeskFault::NotFound);
    }
    foresee_there(alloc, world, book, policy, sender, command)
}

/// What a request would change, were it done: its effect on the world, and the step of the book. It is
/// no read. Nothing is changed, and the book stands where it stood: the step is its own until another
/// is made ready.
///
/// # Errors
/// What the request would be answered, which `propose` says: `NoCaller`, `BadBody`, `NotFound`, the
/// denial, the first refusal of the records, or `Memory`.
pub fn foresee<A: Allocator + Copy, B: PathBook<A>>(
    alloc: A,
    world: &World<A>,
    book: &mut B,
    policy: &Policy,
    token: &str,
    moment: u64,
    command: &Command<A>,
) -> Result<Prepared<A, B::Ready>, DeskFault>
    requires sound { IsSound world.now }
    requires stands { B.stands book.old (records_of world.now) }
    requires change { IsSome (action_of command.now) }
    ensures stays { B.stands book.new (records_of world.now) }
    ensures ok { IfOk result (IsForeseen (B.leads book.new) policy.now world.now (request_of token.now moment command.now)) }
    ensures err { IfErr result (IsTurnedDown policy.now world.now (request_of token.now moment command.now)) }
{
    match sender_of(policy, token, moment) {
        Some(sender) => foresee_as(alloc, world, book, policy, &sender, command),
        None => Err(DeskFault::NoCaller),
    }
}
