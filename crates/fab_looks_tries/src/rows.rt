//! The rows that an effect moves.
ghost use Rattle.std.specs.Prelude.{◌≡◌, ℕ, List, IfOk};
ghost use Rattle.fab_desk_machine.specs.fab_desk_base.declared.command.Command.{Command};
ghost use Rattle.fab_desk_machine.specs.fab_desk_commands.Nexts.{Suits, TellsChange, next_world};
ghost use Rattle.fab_desk_machine.specs.fab_desk_trials.Trials.{EffectSuits, effect_world};
ghost use Rattle.fab_looks_tries.specs.Ports.{AreNewPorts};
ghost use Rattle.fab_reach_base.specs.Records.{ConfigRows};
ghost use Rattle.fab_store_rows.specs.Differences.{IsDifference};
ghost use Rattle.fab_world.specs.Worlds.{WorldRows};

use fab_desk_machine::commands::{Next, Turn, copied};
use fab_desk_machine::trials::Effect;
use fab_inventory::Port;
use fab_store_rows::{ConfigRow, RowDifference};
use std::alloc::{AllocError, Allocator};

/// The ports that parts of the world leave others than they were, as they are then.
fn ports_in<A: Allocator + Copy>(next: &Next<A>) -> &[Port]
    ensures { (w : WorldRows) → Suits w next.now → AreNewPorts w.inventory (next_world w next.now).inventory result.now }
{
    match next {
        Next::Stock { change, .. } => change.added.ports.as_slice(),
        Next::Same => &[],
        Next::Staged { .. } => &[],
        Next::Turned { .. } => &[],
        Next::Reconfigured { .. } => &[],
    }
}

/// The ports that an effect leaves others than they were, as they are then.
pub fn new_ports<A: Allocator + Copy>(effect: &Effect<A>) -> &[Port]
    ensures { (w : WorldRows) (caller : List ℕ) (c : Command A) → EffectSuits w c effect.now → AreNewPorts w.inventory (effect_world w caller c effect.now).inventory result.now }
{
    match effect {
        Effect::Parts(next) => ports_in(next),
        Effect::NewPlan => &[],
    }
}

/// No row. It takes no memory.
fn no_rows<A: Allocator + Copy>(alloc: A) -> RowDifference<A>
    ensures { (c : ConfigRows) → IsDifference c c result.taken.items result.added.items }
{
    RowDifference {
        taken: Vec::new(alloc),
        added: Vec::new(alloc),
    }
}

/// The rows of a change once more.
fn once_more<A: Allocator + Copy>(
    alloc: A,
    change: &RowDifference<A>,
) -> Result<RowDifference<A>, AllocError>
    ensures taken { IfOk result (λ copy. copy.taken.items ≡ change.now.taken.items) }
    ensures added { IfOk result (λ copy. copy.added.items ≡ change.now.added.items) }
{
    let taken = copied::<A, ConfigRow>(alloc, change.taken.as_slice())?;
    let added = copied::<A, ConfigRow>(alloc, change.added.as_slice())?;
    Ok(RowDifference { taken, added })
}

/// The rows in which a configuration differs, as the turn of a plan tells them.
fn turn_rows<A: Allocator + Copy>(alloc: A, turn: &Turn<A>) -> Result<RowDifference<A>, AllocError>
    ensures { (c d : ConfigRows) → TellsChange c d turn.now → IfOk result (λ rows. IsDifference c d rows.taken.items rows.added.items) }
{
    match turn {
        Turn::Activated(change) => once_more(alloc, change),
        Turn::RolledBack(change) => once_more(alloc, change),
        _ => Ok(no_rows(alloc)),
    }
}

/// The rows in which the configuration differs once these parts are taken over.
fn rows_in<A: Allocator + Copy>(alloc: A, next: &Next<A>) -> Result<RowDifference<A>, AllocError>
    ensures { (w : WorldRows) → Suits w next.now → IfOk result (λ rows. IsDifference w.config (next_world w next.now).config rows.taken.items rows.added.items) }
{
    match next {
        Next::Reconfigured { turn, .. } => turn_rows(alloc, turn),
        Next::Same => Ok(no_rows(alloc)),
        Next::Stock { .. } => Ok(no_rows(alloc)),
        Next::Staged { .. } => Ok(no_rows(alloc)),
        Next::Turned { .. } => Ok(no_rows(alloc)),
    }
}

/// The rows that an effect takes from the configuration, and those that it adds.
///
/// # Errors
/// `AllocError` where there is no memory.
pub fn config_rows<A: Allocator + Copy>(
    alloc: A,
    effect: &Effect<A>,
) -> Result<RowDifference<A>, AllocError>
    ensures { (w : WorldRows) (caller : List ℕ) (c : Command A) → EffectSuits w c effect.now → IfOk result (λ rows. IsDifference w.config (effect_world w caller c effect.now).config rows.taken.items rows.added.items) }
{
    match effect {
        Effect::Parts(next) => rows_in(alloc, next),
        Effect::NewPlan => Ok(no_rows(alloc)),
    }
}
