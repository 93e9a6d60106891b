//! One answer to a request.
ghost use Rattle.std.specs.Prelude.{◌≡◌, ℕ, List};
ghost use Rattle.fab_policy.specs.fab_policy_base.Policies.{PolicyRows};
ghost use Rattle.fab_world.specs.Worlds.{WorldRows};
ghost use Rattle.fab_desk_base.specs.Answers.{IsCarriedOut, IsDeniedWith, Request, IsStep};
ghost use Rattle.fab_desk_base.specs.Refusals.{IsEffect};
ghost use Rattle.fab_desk_base.specs.declared.fault.DeskFault.{DeskFault};
ghost use Rattle.fab_desk_base.specs.declared.reply.Reply.TheVariants as reply;
ghost use Rattle.fab_desk_base.specs.Laws.{Agree, TellTheSame};

use crate::{Command, Reply};
use std::alloc::Allocator;

/// A command of a caller has one effect in a world at most.
pub fn one_effect<A: Allocator + Copy>(command: &Command<A>)
    ensures { (w : WorldRows) (caller : List ℕ) (a b : WorldRows) → IsEffect w caller command.now a → IsEffect w caller command.now b → a ≡ b }
{
    let _command = command;
}

/// A denied command is denied by one rule, for one need.
pub fn one_denial<A: Allocator + Copy>(command: &Command<A>)
    ensures { (p : PolicyRows) (w : WorldRows) (id : ℕ) (caller : List ℕ) (moment : ℕ) (f g : DeskFault) → IsDeniedWith p w id caller moment command.now f → IsDeniedWith p w id caller moment command.now g → f ≡ g }
{
    let _command = command;
}

/// Two answers to one request, by one policy and in one world, lead to one world, and both refuse
/// the request or none does. So a change is carried out just where the policy allows it and the
/// records do not refuse it.
pub fn one_answer<A: Allocator + Copy>(reply: &Reply<A>, other: &Reply<A>)
    ensures { (p : PolicyRows) (w : WorldRows) (q : Request A) (a b : WorldRows) → IsStep p w q reply.now a → IsStep p w q other.now b → Agree reply.now other.now a b }
{
    let _reply = reply;
    let _other = other;
}

/// Two refusals of one request, by one policy and in one world, are one and the same: no two checks
/// name two faults, and no check names another than the policy's denial.
pub fn one_refusal<A: Allocator + Copy>(_alloc: A)
    ensures { (p : PolicyRows) (w : WorldRows) (q : Request A) (f g : DeskFault) (a b : WorldRows) → IsStep p w q (reply.Refused f) a → IsStep p w q (reply.Refused g) b → f ≡ g }
{}

/// What is carried out is told in one way: two replies to one command, by one policy and in one
/// world, have the same revision, the same counts, and the same paths gained and lost.
pub fn one_report<A: Allocator + Copy>(command: &Command<A>, reply: &Reply<A>, other: &Reply<A>)
    ensures { (p : PolicyRows) (w : WorldRows) (id : ℕ) (caller : List ℕ) (moment : ℕ) (a b : WorldRows)
        → IsCarriedOut p w id caller moment command.now reply.now a → IsCarriedOut p w id caller moment command.now other.now b → TellTheSame reply.now other.now }
{
    let _command = command;
    let _reply = reply;
    let _other = other;
}
