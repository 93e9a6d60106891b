//! What each step of the desk keeps, and what none answers.
ghost use Rattle.std.specs.Prelude.{◌≢◌};
ghost use Rattle.fab_policy.specs.fab_policy_base.Policies.{PolicyRows};
ghost use Rattle.fab_world.specs.Worlds.{WorldRows, records_of};
ghost use Rattle.fab_desk_base.specs.Answers.{Request, IsStep};
ghost use Rattle.fab_desk_base.specs.declared.fault.DeskFault.TheVariants as fault;
ghost use Rattle.fab_desk_base.specs.declared.reply.Reply.{Reply};
ghost use Rattle.fab_desk_base.specs.declared.reply.Reply.TheVariants as reply;
ghost use Rattle.fab_desk_base.specs.Keeping.{KeepsHosts};

use std::alloc::Allocator;

/// No request passes a port straight from one holder to another: a port that is held before it and
/// after it has one holder.
pub fn holders_are_kept<A: Allocator + Copy>(_alloc: A)
    ensures { (p : PolicyRows) (w : WorldRows) (q : Request A) (r : Reply A) (new : WorldRows) → IsStep p w q r new → KeepsHosts (records_of w) (records_of new) }
{}

/// No step answers that there was no memory, that the store refused, or that the desk is halted.
pub fn steps_are_done<A: Allocator + Copy>(_alloc: A)
    ensures { (p : PolicyRows) (w : WorldRows) (q : Request A) (r : Reply A) (new : WorldRows) → IsStep p w q r new
        → (r ≢ reply.Refused fault.Memory) × (r ≢ reply.Refused fault.Store) × (r ≢ reply.Refused fault.Halted) }
{}
