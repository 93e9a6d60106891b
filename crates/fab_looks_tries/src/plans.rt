//! What the activation of a plan would do.
ghost use Rattle.std.specs.Prelude.{◌≡◌, ℕ, List, IfOk, IfErr};
ghost use Rattle.fab_desk_machine.specs.fab_desk_base.declared.command.Command.{Command};
ghost use Rattle.fab_desk_machine.specs.fab_desk_base.declared.command.Command.TheVariants as command;
ghost use Rattle.fab_desk_machine.specs.Foreseen.{IsTurnedDown};
ghost use Rattle.fab_desk_machine.specs.Proposals.{request_of};
ghost use Rattle.fab_desk_machine.specs.fab_desk_trials.Trials.{EffectSuits, IsStepReady, effect_world};
ghost use Rattle.fab_looks_tries.specs.Hosts.{ArePathsMoved};
ghost use Rattle.fab_looks_tries.specs.Tries.{IsTriedPlan};
ghost use Rattle.fab_reach_base.specs.Records.{Records};
ghost use Rattle.fab_store_rows.specs.Differences.{IsDifference};
ghost use Rattle.fab_world.specs.Soundness.{IsSound};
ghost use Rattle.fab_world.specs.Worlds.{records_of};

use crate::paths::{PathsMoved, paths_moved};
use crate::rows::config_rows;
use fab_desk_machine::base::{Command, DeskFault};
use fab_desk_machine::foresee;
use fab_desk_machine::trials::Prepared;
use fab_names::Name;
use fab_policy_base::Policy;
use fab_reach_books::PathBook;
use fab_store_rows::RowDifference;
use fab_world::World;
use std::alloc::{AllocError, Allocator};

/// What the activation of a plan would do.
#[derive(Drop)]
pub struct TriedPlan<A: Allocator + Copy> {
    /// The present revision.
    pub revision: u64,
    /// The rows that it takes from the configuration, and those that it adds.
    pub rows: RowDifference<A>,
    /// What it would do to paths.
    pub paths: PathsMoved<A>,
}

/// What an effect does to the configuration and to paths; the book takes its step.
fn moved<A: Allocator + Copy, B: PathBook<A>>(
    alloc: A,
    world: &World<A>,
    book: &mut B,
    prepared: Prepared<A, B::Ready>,
) -> Result<TriedPlan<A>, AllocError>
    requires stands { B.stands book.old (records_of world.now) }
    ensures revision { IfOk result (λ t. t.revision ≡ world.now.revision) }
    ensures rows { (caller : List ℕ) (c : Command A) → EffectSuits world.now c prepared.effect → IfOk result (λ t. IsDifference world.now.config (effect_world world.now caller c prepared.effect).config t.rows.taken.items t.rows.added.items) }
    ensures paths { (v : Records) → IsStepReady (B.leads book.old) (records_of world.now) v prepared.step → IfOk result (λ t. ArePathsMoved (records_of world.now) v t.paths) }
{
    let Prepared { effect, step } = prepared;
    let rows = config_rows(alloc, &effect)?;
    let paths = paths_moved(alloc, world, book, step)?;
    Ok(TriedPlan {
        revision: world.revision,
        rows,
        paths,
    })
}

/// What the activation of the plan would do, for the caller of the token at this moment, in Unix
/// seconds, who may have the plan tried. The world has to be sound, and the book has to stand at it.
/// Nothing is changed but the book, which is at the world after the activation then.
///
/// # Errors
/// What a dry run of the plan would be answered; `Memory`.
pub fn try_plan<A: Allocator + Copy, B: PathBook<A>>(
    alloc: A,
    world: &World<A>,
    book: &mut B,
    policy: &Policy,
    token: &str,
    moment: u64,
    plan: Name,
) -> Result<TriedPlan<A>, DeskFault>
    requires sound { IsSound world.now }
    requires stands { B.stands book.old (records_of world.now) }
    ensures ok { IfOk result (IsTriedPlan {A = A.row.Denot} policy.now world.now token.now moment plan) }
    ensures err { IfErr result (IsTurnedDown {A = A.row.Denot} policy.now world.now (request_of token.now moment (command.DryRun plan))) }
{
    let asked = Command::DryRun { plan };
    let prepared = match foresee(alloc, world, book, policy, token, moment, &asked) {
        Ok(prepared) => prepared,
        Err(fault) => return Err(fault),
    };
    match moved(alloc, world, book, prepared) {
        Ok(tried) => Ok(tried),
        Err(_) => Err(DeskFault::Memory),
    }
}
