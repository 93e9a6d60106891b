//! What the policy says of a command that was tried.
ghost use Rattle.std.specs.Prelude.{◌≡◌, ◌↔◌, ℕ, List, IsSome, IfOk, MatchOption};
ghost use Rattle.fab_policy.specs.declared.act.Verdict.TheVariants.{Allowed};
ghost use Rattle.fab_policy.specs.fab_policy_base.Policies.{PolicyRows};
ghost use Rattle.fab_desk_base.specs.Acts.{IsJudged};
ghost use Rattle.fab_desk_base.specs.Answers.{IsDeniedWith, IsMove, IsThere};
ghost use Rattle.fab_desk_base.specs.Commands.{action_of};
ghost use Rattle.fab_desk_base.specs.Tenants.{Has};
ghost use Rattle.fab_desk_base.specs.Touching.{MovesTenant};
ghost use Rattle.fab_desk_machine.specs.Outcomes.{denied_of};
ghost use Rattle.fab_desk_trials.specs.Trials.{HasEffect, IsPrepared, effect_world};

use fab_desk_base::{Command, DeskFault};
use fab_desk_trials::{Effect, Prepared, judged, moved_tenants, moved_view};
use fab_policy::Verdict;
use fab_policy::base::{CallerId, Policy};
use fab_reach_base::names::Name;
use fab_reach_base::{Delta, View};
use fab_reach_books::PathBook;
use fab_world::World;
use std::alloc::{AllocError, Allocator};
use std::collections::BTreeSet;

/// Who sends a request, and when, in Unix seconds.
#[derive(Clone, Copy, Drop)]
pub struct Sender {
    /// The caller, by the place among those of the policy.
    pub id: CallerId,
    /// The name of the caller.
    pub name: Name,
    /// When the request comes, in Unix seconds.
    pub moment: u64,
}

/// The tenants of the paths of these lists, which the effect of the command gains and loses.
fn moved_with<A: Allocator + Copy>(
    alloc: A,
    world: &World<A>,
    caller: &Name,
    command: &Command<A>,
    effect: &Effect<A>,
    delta: &Delta<A>,
) -> Result<BTreeSet<Name, A>, AllocError>
    requires effect { HasEffect world.now caller.now command.now effect.now }
    requires delta { IsMove world.now (effect_world world.now caller.now command.now effect.now) delta.now }
    ensures { IfOk result (λ tenants. (t : List ℕ) → Has tenants t ↔ MovesTenant world.now caller.now command.now t) }
{
    let _caller = caller;
    let _command = command;
    match moved_view(world, effect) {
        Some(after) => {
            moved_tenants(
                alloc,
                &View::of(&world.inventory, &world.config),
                &after,
                delta,
            )
        }
        None => Ok(BTreeSet::new(alloc)),
    }
}

/// The tenants of the paths that a command would move.
///
/// # Errors
/// `AllocError` where there is no memory.
pub fn moved_by<A: Allocator + Copy, B: PathBook<A>>(
    alloc: A,
    world: &World<A>,
    book: &B,
    caller: &Name,
    command: &Command<A>,
    prepared: &Prepared<A, B::Ready>,
) -> Result<BTreeSet<Name, A>, AllocError>
    requires { IsPrepared (B.leads book.now) world.now caller.now command.now prepared.now }
    ensures { IfOk result (λ tenants. (t : List ℕ) → Has tenants t ↔ MovesTenant world.now caller.now command.now t) }
{
    match &prepared.step {
        Some(ready) => moved_with(
            alloc,
            world,
            caller,
            command,
            &prepared.effect,
            book.delta(ready),
        ),
        None => Ok(BTreeSet::new(alloc)),
    }
}

/// The fault that a verdict is, where it denies.
fn fault_of(verdict: Verdict) -> Option<DeskFault>
    ensures { result ≡ denied_of verdict }
{
    match verdict {
        Verdict::Allowed => None,
        Verdict::Denied { rule, name, need } => Some(DeskFault::Denied { rule, name, need }),
    }
}

/// How the policy denies the command of this sender, if it does.
///
/// # Errors
/// `AllocError` where there is no memory.
pub fn denial<A: Allocator + Copy>(
    alloc: A,
    policy: &Policy,
    world: &World<A>,
    sender: &Sender,
    command: &Command<A>,
    moved: &BTreeSet<Name, A>,
) -> Result<Option<DeskFault>, AllocError>
    requires moved { (t : List ℕ) → Has moved.now t ↔ MovesTenant world.now sender.now.name command.now t }
    requires there { (p : PolicyRows) (i : ℕ) → IsThere p world.now i command.now }
    requires change { IsSome (action_of command.now) }
    ensures { IfOk result (λ denied. MatchOption denied
        (IsJudged policy.now world.now sender.now.id sender.now.name sender.now.moment command.now Allowed)
        (IsDeniedWith policy.now world.now sender.now.id sender.now.name sender.now.moment command.now)) }
{
    let Ok(verdict) = judged(
        alloc,
        policy,
        world,
        sender.id,
        &sender.name,
        sender.moment,
        command,
        moved,
    ) else {
        return Err(AllocError);
    };
    Ok(fault_of(verdict))
}
