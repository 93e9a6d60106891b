//! The rows that steps change.
ghost use Rattle.std.specs.Prelude.{IfOk};
ghost use Rattle.fab_inventory.specs.Inventories.{InventoryRows};
ghost use Rattle.fab_plans.specs.Outcomes.{AllDone};
ghost use Rattle.fab_store_rows.specs.Differences.{IsDifference};

use crate::keys::keys_of;
use fab_plans_base::Step;
use fab_reach_base::Config;
use fab_store_rows::{RowDifference, difference_at};
use std::alloc::{AllocError, Allocator};

/// The rows that steps change: the difference of the configuration before them and the one after
/// them. It looks at the rows of the aliases, zones, zone sets, active sets, default zones and groups
/// that the steps name, and at no others.
///
/// # Errors
/// `AllocError` where there is no memory.
pub fn changed_rows<A: Allocator + Copy>(
    alloc: A,
    before: &Config<A>,
    after: &Config<A>,
    steps: &[Step<A>],
) -> Result<RowDifference<A>, AllocError>
    requires { (v : InventoryRows) × AllDone v steps.now before.now after.now }
    ensures { IfOk result (λ change. IsDifference before.now after.now change.taken.items change.added.items) }
{
    let keys = keys_of(alloc, steps)?;
    let change = difference_at(alloc, before, after, &keys)?;
    Ok(change)
}
