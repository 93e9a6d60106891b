//! What an effect moves: the inventory and the configuration after it, and the rows in which they differ.
ghost use Rattle.std.specs.Prelude.{◌≡◌, List, ℕ, IfOk, MatchOption};
ghost use Rattle.fab_reach_base.specs.fab_inventory.Inventories.{InventoryRows};
ghost use Rattle.fab_reach_base.specs.Records.{ConfigRows, Records};
ghost use Rattle.fab_reach_base.specs.Views.{seen};
ghost use Rattle.fab_reach_books.specs.Rows.{IsRowDiff};
ghost use Rattle.fab_store_world.specs.Inventories.{IsInventoryDifference};
ghost use Rattle.fab_world.specs.Worlds.{records_of};
ghost use Rattle.fab_desk_base.specs.declared.command.Command.{Command};
ghost use Rattle.fab_desk_commands.specs.Nexts.{TellsChange, TellsRows, next_world};
ghost use Rattle.fab_desk_trials.specs.Trials.{AreRecordsAfter, EffectTells, KeepsRecords, effect_world};

use crate::effects::Effect;
use fab_desk_commands::{Next, Turn};
use fab_reach_base::View;
use fab_reach_books::{RowDiff, StockRows, config_diff, stock_diff};
use fab_store_world::{InventoryDifference, InventoryLists};
use fab_world::World;
use std::alloc::{AllocError, Allocator};

/// The inventory and the configuration after an effect, where one of them is another.
pub fn moved_view<'a, A: Allocator + Copy>(
    world: &'a World<A>,
    effect: &'a Effect<A>,
) -> Option<View<'a, A>>
    ensures { (caller : List ℕ) (c : Command A) → MatchOption result (KeepsRecords world.now caller c effect.now) (λ view. AreRecordsAfter world.now caller c effect.now (seen view)) }
{
    match effect {
        Effect::Parts(Next::Stock { inventory, .. }) => { Some(View::of(inventory, &world.config)) }
        Effect::Parts(Next::Reconfigured { config, .. }) => {
            Some(View::of(&world.inventory, config))
        }
        _ => None,
    }
}

/// The ports and the holders of rows of an inventory.
fn stock_of<A: Allocator + Copy>(lists: &InventoryLists<A>) -> StockRows<'_>
    ensures ports { result.ports.now ≡ lists.now.ports.items }
    ensures holders { result.holders.now ≡ lists.now.holders.items }
{
    StockRows {
        ports: lists.ports.as_slice(),
        holders: lists.holders.as_slice(),
    }
}

/// The rows in which an inventory differs, of those that paths follow from.
///
/// # Errors
/// `AllocError` where there is no memory.
fn inventory_diff<A: Allocator + Copy>(
    alloc: A,
    change: &InventoryDifference<A>,
) -> Result<RowDiff<A>, AllocError>
    ensures { (v u : InventoryRows) (c : ConfigRows) → IsInventoryDifference v u change.now → IfOk result (λ diff. IsRowDiff (record { inventory = v; config = c }) (record { inventory = u; config = c }) diff.gone.items diff.come.items) }
{
    let gone = stock_of(&change.taken);
    let come = stock_of(&change.added);
    stock_diff(alloc, &gone, &come)
}

/// No row. It takes no memory.
fn no_rows<A: Allocator + Copy>(alloc: A) -> RowDiff<A>
    ensures { (w : Records) → IsRowDiff w w result.gone.items result.come.items }
{
    RowDiff {
        gone: Vec::new(alloc),
        come: Vec::new(alloc),
    }
}

/// The rows in which a configuration differs, of those that paths follow from, as the turn of a plan
/// tells them.
///
/// # Errors
/// `AllocError` where there is no memory.
fn turn_diff<A: Allocator + Copy>(alloc: A, turn: &Turn<A>) -> Result<RowDiff<A>, AllocError>
    ensures { (v : InventoryRows) (c d : ConfigRows) → TellsChange c d turn.now → IfOk result (λ diff. IsRowDiff (record { inventory = v; config = c }) (record { inventory = v; config = d }) diff.gone.items diff.come.items) }
{
    match turn {
        Turn::Activated(change) => config_diff(alloc, change),
        Turn::RolledBack(change) => config_diff(alloc, change),
        _ => Ok(no_rows(alloc)),
    }
}

/// The rows in which the inventory and the configuration differ once these parts are taken over, of
/// those that paths follow from.
///
/// # Errors
/// `AllocError` where there is no memory.
fn next_rows<A: Allocator + Copy>(
    alloc: A,
    world: &World<A>,
    next: &Next<A>,
) -> Result<RowDiff<A>, AllocError>
    requires { TellsRows world.now next.now }
    ensures { IfOk result (λ diff. IsRowDiff (records_of world.now) (records_of (next_world world.now next.now)) diff.gone.items diff.come.items) }
{
    let _world = world;
    match next {
        Next::Stock { change, .. } => inventory_diff(alloc, change),
        Next::Reconfigured { turn, .. } => turn_diff(alloc, turn),
        Next::Same => Ok(no_rows(alloc)),
        Next::Staged { .. } => Ok(no_rows(alloc)),
        Next::Turned { .. } => Ok(no_rows(alloc)),
    }
}

/// The rows in which the inventory and the configuration differ after an effect, of those that paths
/// follow from. The effect tells them, and no world is walked through.
///
/// # Errors
/// `AllocError` where there is no memory.
pub fn moved_rows<A: Allocator + Copy>(
    alloc: A,
    world: &World<A>,
    effect: &Effect<A>,
) -> Result<RowDiff<A>, AllocError>
    requires { EffectTells world.now effect.now }
    ensures { (caller : List ℕ) (c : Command A) → IfOk result (λ diff. IsRowDiff (records_of world.now) (records_of (effect_world world.now caller c effect.now)) diff.gone.items diff.come.items) }
{
    match effect {
        Effect::Parts(next) => next_rows(alloc, world, next),
        Effect::NewPlan => Ok(no_rows(alloc)),
    }
}
