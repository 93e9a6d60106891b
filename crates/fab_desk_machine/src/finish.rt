//! What a command comes to that was tried.
ghost use Rattle.std.specs.Prelude.{◌≡◌, ◌⊎◌, ℕ, None, Some, IsSome, IfOk, IfSome, MatchOption};
ghost use Rattle.fab_policy.specs.declared.act.Verdict.TheVariants.{Allowed};
ghost use Rattle.fab_policy.specs.fab_policy_base.Policies.{PolicyRows};
ghost use Rattle.fab_reach_base.specs.Books.{IsDelta};
ghost use Rattle.fab_reach_base.specs.Records.{Records};
ghost use Rattle.fab_reach_base.specs.declared.book.Delta.{Delta};
ghost use Rattle.fab_world.specs.Soundness.{IsSound};
ghost use Rattle.fab_desk_trials.specs.fab_desk_commands.Nexts.{next_world, Suits};
ghost use Rattle.fab_desk_base.specs.Acts.{IsJudged};
ghost use Rattle.fab_desk_base.specs.Answers.{IsCarriedOut, IsDeniedWith, IsThere};
ghost use Rattle.fab_desk_base.specs.Commands.{action_of, tried};
ghost use Rattle.fab_desk_base.specs.Refusals.{IsFirstFault};
ghost use Rattle.fab_desk_base.specs.declared.reply.Reply.TheVariants as reply;
ghost use Rattle.fab_desk_machine.specs.Foreseen.{IsStopped};
ghost use Rattle.fab_desk_machine.specs.Proposals.{IsAccepted, IsEnd, IsMemory, IsProposalFor};
ghost use Rattle.fab_desk_machine.specs.Outcomes.{dry_run_plan_of};
ghost use Rattle.fab_desk_trials.specs.Trials.{EffectSuits, IsNewPlan, IsPrepared, IsStepReady, effect_world, planned};

use crate::change::{Change, lists_of};
use crate::proposing::Proposal;
use crate::report::report_of;
use crate::verdicts::{Sender, denial, moved_by};
use fab_desk_base::{Command, DeskFault, Reply};
use fab_desk_trials::commands::{Next, staged_next};
use fab_desk_trials::{Effect, Prepared, spare_of};
use fab_policy::base::Policy;
use fab_reach_base::Config;
use fab_reach_base::names::Name;
use fab_reach_books::PathBook;
use fab_world::World;
use fab_world::plans::PlanText;
use std::alloc::{AllocError, Allocator};
use std::collections::BTreeSet;

/// The fault of a refused command: that of the policy's denial, or the refusal.
pub fn refusal<A: Allocator + Copy>(
    alloc: A,
    world: &World<A>,
    policy: &Policy,
    sender: &Sender,
    command: &Command<A>,
    fault: DeskFault,
) -> DeskFault
    requires refused { IsFirstFault world.now sender.now.name (tried command.now) fault }
    requires there { (p : PolicyRows) (i : ℕ) → IsThere p world.now i command.now }
    requires change { IsSome (action_of command.now) }
    ensures { IsStopped policy.now world.now sender.now.id sender.now.name sender.now.moment command.now result }
{
    let moved = BTreeSet::new(alloc);
    match denial(alloc, policy, world, sender, command, &moved) {
        Ok(None) => fault,
        Ok(Some(denied)) => denied,
        Err(_) => DeskFault::Memory,
    }
}

/// What a refused command comes to: the policy's denial, or the refusal.
pub fn turn_down<A: Allocator + Copy>(
    alloc: A,
    world: &World<A>,
    policy: &Policy,
    sender: &Sender,
    command: &Command<A>,
    fault: DeskFault,
) -> Reply<A>
    requires refused { IsFirstFault world.now sender.now.name (tried command.now) fault }
    requires there { (p : PolicyRows) (i : ℕ) → IsThere p world.now i command.now }
    requires change { IsSome (action_of command.now) }
    ensures end { IsMemory result ⊎ IsEnd policy.now world.now sender.now.id sender.now.name sender.now.moment command.now result world.now }
    ensures refused { ¬ IsAccepted result }
{
    Reply::Refused(refusal(alloc, world, policy, sender, command, fault))
}

/// The parts of the world with the plan that a command stages, which is kept as its printed form.
///
/// # Errors
/// `AllocError` where there is no memory.
fn planned_next<A: Allocator + Copy>(
    alloc: A,
    world: &World<A>,
    caller: Name,
    command: Command<A>,
) -> Result<Next<A>, AllocError>
    requires new { IsNewPlan world.now command }
    requires sound { IsSound (planned world.now caller command) }
    ensures world { IfOk result (λ next. next_world world.now next ≡ planned world.now caller command) }
    ensures suits { IfOk result (Suits world.now) }
{
    let (plan, steps) = command.into_staged();
    let text = PlanText::of(alloc, steps.as_slice())?;
    Ok(staged_next(alloc, world, caller, plan, text))
}

/// The parts of the world after an effect.
///
/// # Errors
/// `AllocError` where there is no memory.
fn next_of<A: Allocator + Copy>(
    alloc: A,
    world: &World<A>,
    caller: Name,
    command: Command<A>,
    effect: Effect<A>,
) -> Result<Next<A>, AllocError>
    requires suits { EffectSuits world.now command effect }
    requires sound { IsSound (effect_world world.now caller command effect) }
    ensures world { IfOk result (λ next. next_world world.now next ≡ effect_world world.now caller command effect) }
    ensures suits { IfOk result (Suits world.now) }
{
    match effect {
        Effect::Parts(next) => Ok(next),
        Effect::NewPlan => planned_next(alloc, world, caller, command),
    }
}

/// The plan of a dry run.
fn dry_run_plan<A: Allocator + Copy>(command: &Command<A>) -> Option<Name>
    ensures { result ≡ dry_run_plan_of command.now }
{
    match command {
        Command::DryRun { plan } => Some(*plan),
        _ => None,
    }
}

/// What an allowed dry run is answered.
fn dry_run<A: Allocator + Copy, B: PathBook<A>>(
    alloc: A,
    book: &B,
    plan: Name,
    step: &Option<B::Ready>,
) -> Reply<A>
    ensures { (old new : Records) → IsStepReady (B.leads book.now) old new step.now
        → IsMemory result ⊎ ((delta : Delta A) × (result ≡ reply.Tried plan delta) × IsDelta old new delta.gained.items delta.lost.items) }
{
    match lists_of(alloc, book, step) {
        Ok(delta) => Reply::Tried { plan, delta },
        Err(_) => Reply::Refused(DeskFault::Memory),
    }
}

/// The change that an allowed command comes to.
fn ready<A: Allocator + Copy, B: PathBook<A>>(
    alloc: A,
    world: &World<A>,
    book: &B,
    sender: &Sender,
    command: Command<A>,
    prepared: Prepared<A, B::Ready>,
) -> Proposal<A, B::Ready>
    requires sound { IsSound world.now }
    requires prepared { IsPrepared (B.leads book.now) world.now sender.now.name command prepared }
    requires change { dry_run_plan_of command ≡ None }
    ensures { (p : PolicyRows) → IsJudged p world.now sender.now.id sender.now.name sender.now.moment command Allowed
        → IsProposalFor (B.leads book.now) (IsCarriedOut p world.now sender.now.id sender.now.name sender.now.moment command) world.now result }
{
    let _book = book;
    let report = report_of(world, &sender.name, &command);
    let Prepared { effect, step } = prepared;
    match next_of(alloc, world, sender.name, command, effect) {
        Ok(next) => Proposal::Ready(Change { next, step, report }),
        Err(_) => Proposal::Answer(Reply::Refused(DeskFault::Memory)),
    }
}

/// What an allowed dry run is answered. The effect leaves a spare configuration.
fn answer_dry_run<A: Allocator + Copy, B: PathBook<A>>(
    alloc: A,
    world: &World<A>,
    book: &B,
    spare: &mut Option<Config<A>>,
    sender: &Sender,
    command: &Command<A>,
    plan: Name,
    prepared: Prepared<A, B::Ready>,
) -> Reply<A>
    requires sound { IsSound world.now }
    requires prepared { IsPrepared (B.leads book.now) world.now sender.now.name command.now prepared }
    requires dry_run { dry_run_plan_of command.now ≡ Some plan }
    ensures answers { (p : PolicyRows) → IsJudged p world.now sender.now.id sender.now.name sender.now.moment command.now Allowed
        → IsMemory result ⊎ IsCarriedOut p world.now sender.now.id sender.now.name sender.now.moment command.now result world.now }
    ensures spare { IfSome spare.new (λ s. s ≡ world.now.config) }
{
    let reply = dry_run(alloc, book, plan, &prepared.step);
    let Prepared {
        effect,
        step: _step,
    } = prepared;
    *spare = spare_of(alloc, world, &sender.name, command, effect);
    reply
}

/// What an allowed command comes to: what its dry run is answered, or its change.
fn allowed<A: Allocator + Copy, B: PathBook<A>>(
    alloc: A,
    world: &World<A>,
    book: &B,
    spare: &mut Option<Config<A>>,
    sender: &Sender,
    command: Command<A>,
    prepared: Prepared<A, B::Ready>,
) -> Proposal<A, B::Ready>
    requires sound { IsSound world.now }
    requires prepared { IsPrepared (B.leads book.now) world.now sender.now.name command prepared }
    requires spare { IfSome spare.old (λ s. s ≡ world.now.config) }
    ensures proposes { (p : PolicyRows) → IsJudged p world.now sender.now.id sender.now.name sender.now.moment command Allowed
        → IsProposalFor (B.leads book.now) (IsCarriedOut p world.now sender.now.id sender.now.name sender.now.moment command) world.now result }
    ensures spare { IfSome spare.new (λ s. s ≡ world.now.config) }
{
    match dry_run_plan(&command) {
        Some(plan) => Proposal::Answer(answer_dry_run(
            alloc, world, book, spare, sender, &command, plan, prepared,
        )),
        None => ready(alloc, world, book, sender, command, prepared),
    }
}

/// The policy's denial of a command that has this effect, if it denies it.
///
/// # Errors
/// `AllocError` where there is no memory.
pub fn denied<A: Allocator + Copy, B: PathBook<A>>(
    alloc: A,
    world: &World<A>,
    book: &B,
    policy: &Policy,
    sender: &Sender,
    command: &Command<A>,
    prepared: &Prepared<A, B::Ready>,
) -> Result<Option<DeskFault>, AllocError>
    requires prepared { IsPrepared (B.leads book.now) world.now sender.now.name command.now prepared.now }
    requires there { (p : PolicyRows) (i : ℕ) → IsThere p world.now i command.now }
    requires change { IsSome (action_of command.now) }
    ensures { IfOk result (λ denied. MatchOption denied
        (IsJudged policy.now world.now sender.now.id sender.now.name sender.now.moment command.now Allowed)
        (IsDeniedWith policy.now world.now sender.now.id sender.now.name sender.now.moment command.now)) }
{
    let Ok(moved) = moved_by(alloc, world, book, &sender.name, command, prepared) else {
        return Err(AllocError);
    };
    denial(alloc, policy, world, sender, command, &moved)
}

/// What a command comes to that has this effect: the policy's denial, what its dry run is answered,
/// or its change.
pub fn carry_out<A: Allocator + Copy, B: PathBook<A>>(
    alloc: A,
    world: &World<A>,
    book: &B,
    spare: &mut Option<Config<A>>,
    policy: &Policy,
    sender: &Sender,
    command: Command<A>,
    prepared: Prepared<A, B::Ready>,
) -> Proposal<A, B::Ready>
    requires sound { IsSound world.now }
    requires prepared { IsPrepared (B.leads book.now) world.now sender.now.name command prepared }
    requires there { (p : PolicyRows) (i : ℕ) → IsThere p world.now i command }
    requires change { IsSome (action_of command) }
    requires spare { IfSome spare.old (λ s. s ≡ world.now.config) }
    ensures proposes { IsProposalFor (B.leads book.now) (IsEnd policy.now world.now sender.now.id sender.now.name sender.now.moment command) world.now result }
    ensures spare { IfSome spare.new (λ s. s ≡ world.now.config) }
{
    match denied(alloc, world, book, policy, sender, &command, &prepared) {
        Ok(None) => allowed(alloc, world, book, spare, sender, command, prepared),
        Ok(Some(denied)) => {
            let Prepared {
                effect,
                step: _step,
            } = prepared;
            *spare = spare_of(alloc, world, &sender.name, &command, effect);
            Proposal::Answer(Reply::Refused(denied))
        }
        Err(_) => Proposal::Answer(Reply::Refused(DeskFault::Memory)),
    }
}
