//! What is proposed for a request.
ghost use Rattle.std.specs.Prelude.{◌≡◌, ◌⊎◌, ◌↔◌, ℕ, IfSome, IsSome, IsTrue, Some};
ghost use Rattle.fab_policy.specs.fab_policy_base.Policies.{PolicyRows};
ghost use Rattle.fab_world.specs.Soundness.{IsSound};
ghost use Rattle.fab_world.specs.Worlds.{records_of};
ghost use Rattle.fab_desk_base.specs.Answers.{IsAnswerTo, IsStep, IsThere};
ghost use Rattle.fab_desk_base.specs.Commands.{IsGiven, action_of};
ghost use Rattle.fab_desk_base.specs.Refusals.{IsEffect};
ghost use Rattle.fab_desk_base.specs.declared.command.Command.TheVariants as command;
ghost use Rattle.fab_desk_base.specs.declared.fault.DeskFault.TheVariants as faults;
ghost use Rattle.fab_desk_machine.specs.Proposals.{CountsStep, IsAccepted, IsEffectOf, IsEnd, IsMemory, IsProposalFor, IsSenderOf, MayAccept, query_in, request_of};

use crate::bodies::{is_given, is_there};
use crate::change::Change;
use crate::finish::{carry_out, turn_down};
use crate::showing::shown;
use crate::verdicts::Sender;
use fab_desk_base::{Command, DeskFault, Query, Reply};
use fab_desk_trials::try_out;
use fab_policy::base::Policy;
use fab_reach_base::Config;
use fab_reach_books::PathBook;
use fab_world::World;
use std::alloc::Allocator;

/// What the machine says to a request.
#[derive(Drop)]
pub enum Proposal<A: Allocator + Copy, R> {
    /// The answer: nothing is changed.
    Answer(Reply<A>),
    /// A change that is ready to be taken over.
    Ready(Change<A, R>),
}

/// Whether it is the want of memory.
pub fn is_memory(fault: &DeskFault) -> bool
    ensures { IsTrue result ↔ (fault.now ≡ faults.Memory) }
{
    match fault {
        DeskFault::Memory => true,
        _ => false,
    }
}

/// What a command asks for that is a read.
fn query_of<A: Allocator + Copy>(command: &Command<A>) -> Option<Query>
    ensures { result ≡ query_in command.now }
{
    match command {
        Command::Show(query) => Some(*query),
        _ => None,
    }
}

/// What a read is answered.
fn read<A: Allocator + Copy, B: PathBook<A>>(
    alloc: A,
    world: &World<A>,
    book: &B,
    policy: &Policy,
    sender: &Sender,
    query: &Query,
) -> Reply<A>
    requires sound { IsSound world.now }
    requires stands { B.stands book.now (records_of world.now) }
    ensures answers { IsMemory result ⊎ IsAnswerTo policy.now world.now sender.now.id sender.now.name sender.now.moment (command.Show query.now) result world.now }
    ensures read { ¬ IsAccepted result }
{
    match shown(alloc, policy, world, book, sender.id, query) {
        Ok(Some(shown)) => Reply::Shown(shown),
        Ok(None) => Reply::Refused(DeskFault::NotFound),
        Err(_) => Reply::Refused(DeskFault::Memory),
    }
}

/// What is proposed for a command whose values some body gives, and that is about what is there.
fn end<A: Allocator + Copy, B: PathBook<A>>(
    alloc: A,
    world: &World<A>,
    book: &mut B,
    spare: &mut Option<Config<A>>,
    policy: &Policy,
    sender: &Sender,
    command: Command<A>,
) -> Proposal<A, B::Ready>
    requires sound { IsSound world.now }
    requires stands { B.stands book.old (records_of world.now) }
    requires spare { IfSome spare.old (λ s. s ≡ world.now.config) }
    requires given { IsGiven command }
    requires there { (p : PolicyRows) (i : ℕ) → IsThere p world.now i command }
    requires change { IsSome (action_of command) }
    ensures stays { B.stands book.new (records_of world.now) }
    ensures proposes { IsProposalFor (B.leads book.new) (IsEnd policy.now world.now sender.now.id sender.now.name sender.now.moment command) world.now result }
    ensures bounds { MayAccept result → CountsStep B.bounds world.now (IsEffect world.now sender.now.name command) (B.count book.old) (B.count book.new) }
    ensures spare { IfSome spare.new (λ s. s ≡ world.now.config) }
{
    match try_out(alloc, world, book, spare, &sender.name, &command) {
        Ok(prepared) => carry_out(alloc, world, book, spare, policy, sender, command, prepared),
        Err(fault) => {
            if is_memory(&fault) {
                return Proposal::Answer(Reply::Refused(DeskFault::Memory));
            }
            Proposal::Answer(turn_down(alloc, world, policy, sender, &command, fault))
        }
    }
}

/// What is proposed for a command that is no read.
fn act<A: Allocator + Copy, B: PathBook<A>>(
    alloc: A,
    world: &World<A>,
    book: &mut B,
    spare: &mut Option<Config<A>>,
    policy: &Policy,
    sender: &Sender,
    command: Command<A>,
) -> Proposal<A, B::Ready>
    requires sound { IsSound world.now }
    requires stands { B.stands book.old (records_of world.now) }
    requires spare { IfSome spare.old (λ s. s ≡ world.now.config) }
    requires change { IsSome (action_of command) }
    ensures stays { B.stands book.new (records_of world.now) }
    ensures proposes { IsProposalFor (B.leads book.new) (IsAnswerTo policy.now world.now sender.now.id sender.now.name sender.now.moment command) world.now result }
    ensures bounds { MayAccept result → CountsStep B.bounds world.now (IsEffect world.now sender.now.name command) (B.count book.old) (B.count book.new) }
    ensures spare { IfSome spare.new (λ s. s ≡ world.now.config) }
{
    if !is_given(&command) {
        return Proposal::Answer(Reply::Refused(DeskFault::BadBody { line: 0 }));
    }
    if !is_there(world, &command) {
        return Proposal::Answer(Reply::Refused(DeskFault::NotFound));
    }
    end(alloc, world, book, spare, policy, sender, command)
}

/// What is proposed for the command of a known caller.
fn answer_to<A: Allocator + Copy, B: PathBook<A>>(
    alloc: A,
    world: &World<A>,
    book: &mut B,
    spare: &mut Option<Config<A>>,
    policy: &Policy,
    sender: &Sender,
    command: Command<A>,
) -> Proposal<A, B::Ready>
    requires sound { IsSound world.now }
    requires stands { B.stands book.old (records_of world.now) }
    requires spare { IfSome spare.old (λ s. s ≡ world.now.config) }
    ensures stays { B.stands book.new (records_of world.now) }
    ensures proposes { IsProposalFor (B.leads book.new) (IsAnswerTo policy.now world.now sender.now.id sender.now.name sender.now.moment command) world.now result }
    ensures bounds { MayAccept result → CountsStep B.bounds world.now (IsEffect world.now sender.now.name command) (B.count book.old) (B.count book.new) }
    ensures spare { IfSome spare.new (λ s. s ≡ world.now.config) }
{
    match query_of(&command) {
        Some(query) => Proposal::Answer(read(alloc, world, book, policy, sender, &query)),
        None => act(alloc, world, book, spare, policy, sender, command),
    }
}

/// The sender of a request: the one caller who has the token.
pub fn sender_of(policy: &Policy, token: &str, moment: u64) -> Option<Sender>
    ensures { IsSenderOf policy.now token.now moment result }
{
    let Some(id) = policy.caller(token) else {
        return None;
    };
    let Some(caller) = policy.row(id) else {
        return None;
    };
    Some(Sender {
        id,
        name: caller.name,
        moment,
    })
}

/// What is proposed for a request: the token that its sender shows, when it comes, in Unix seconds,
/// and its command. The world is lent, and stays as it is; the book stands where it stood. The world
/// has to be sound, and the book has to stand at it.
///
/// The answer is by the first of these that fits: nobody has the token (`NoCaller`); no body gives
/// such values (`BadBody`); what the command is about is not there, or a read is not for the caller
/// (`NotFound`); a read, what it shows; the policy denies it (`Denied`); the first refusal of the
/// records, the limits on paths and on changes the last of them; of a dry run the lists of paths
/// that the activation gains and loses; else the change. Want of memory is answered `Memory`.
///
/// A spare configuration, equal to the world's, saves the steps of a plan the copy of the world's. It is
/// taken for them; a dry run that is answered, and a plan that the policy denies, leave one, if there is
/// memory for the way back.
///
/// The count of the book's questions rises within the bounds of a step to the command's effect, where
/// the command is done or its dry run is answered; of what is refused nothing is said of it.
pub fn propose<A: Allocator + Copy, B: PathBook<A>>(
    alloc: A,
    world: &World<A>,
    book: &mut B,
    spare: &mut Option<Config<A>>,
    policy: &Policy,
    token: &str,
    moment: u64,
    command: Command<A>,
) -> Proposal<A, B::Ready>
    requires sound { IsSound world.now }
    requires stands { B.stands book.old (records_of world.now) }
    requires spare { IfSome spare.old (λ s. s ≡ world.now.config) }
    ensures stays { B.stands book.new (records_of world.now) }
    ensures proposes { IsProposalFor (B.leads book.new) (IsStep policy.now world.now (request_of token.now moment command)) world.now result }
    ensures bounds { MayAccept result → CountsStep B.bounds world.now (IsEffectOf policy.now world.now (request_of token.now moment command)) (B.count book.old) (B.count book.new) }
    ensures spare { IfSome spare.new (λ s. s ≡ world.now.config) }
{
    match sender_of(policy, token, moment) {
        Some(sender) => answer_to(alloc, world, book, spare, policy, &sender, command),
        None => Proposal::Answer(Reply::Refused(DeskFault::NoCaller)),
    }
}

/// What is proposed for a request where no spare configuration is kept: as `propose` says.
pub fn propose_on_copies<A: Allocator + Copy, B: PathBook<A>>(
    alloc: A,
    world: &World<A>,
    book: &mut B,
    policy: &Policy,
    token: &str,
    moment: u64,
    command: Command<A>,
) -> Proposal<A, B::Ready>
    requires sound { IsSound world.now }
    requires stands { B.stands book.old (records_of world.now) }
    ensures stays { B.stands book.new (records_of world.now) }
    ensures proposes { IsProposalFor (B.leads book.new) (IsStep policy.now world.now (request_of token.now moment command)) world.now result }
    ensures bounds { MayAccept result → CountsStep B.bounds world.now (IsEffectOf policy.now world.now (request_of token.now moment command)) (B.count book.old) (B.count book.new) }
{
    let mut spare = None;
    propose(
        alloc, world, book, &mut spare, policy, token, moment, command,
    )
}
