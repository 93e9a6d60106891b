//! Whether a world of these parts is sound.
ghost use Rattle.std.specs.Prelude.{IsTrue, ◌↔◌, IfOk};
ghost use Rattle.std.specs.FinMap as map;
ghost use Rattle.fab_world.specs.Soundness.{IsSound};

use crate::history::has_sound_history;
use crate::kept::{are_sound_plans, lists_active};
use crate::present::is_sound_now;
use crate::{KeptPlan, MOST_CHANGES, MOST_PLANS};
use fab_reach_base::Config;
use fab_reach_base::inventory::Inventory;
use fab_reach_base::names::Name;
use std::alloc::{AllocError, Allocator};
use std::collections::BTreeMap;

/// Whether a world of these parts is sound.
pub fn are_sound<A: Allocator + Copy>(
    alloc: A,
    inventory: &Inventory<A>,
    config: &Config<A>,
    plans: &BTreeMap<Name, KeptPlan<A>, A>,
    order: &[Name],
    revision: u64,
) -> Result<bool, AllocError>
    ensures { IfOk result (λ sound. IsTrue sound ↔ IsSound (record { inventory = inventory.now; config = config.now; plans = map.from_entries plans.now.entries; order = order.now; revision = revision })) }
{
    let count = plans.len();
    if count > MOST_PLANS {
        return Ok(false);
    }
    if revision > MOST_CHANGES {
        return Ok(false);
    }
    if !are_sound_plans(plans) {
        return Ok(false);
    }
    let lists = lists_active(alloc, plans, order)?;
    if !lists {
        return Ok(false);
    }
    let present = is_sound_now(alloc, inventory, config)?;
    if !present {
        return Ok(false);
    }
    has_sound_history(alloc, plans, order, config)
}
