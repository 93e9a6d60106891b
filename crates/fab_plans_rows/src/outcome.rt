//! The outcome of steps: the configuration after them, and the rows that they change.
ghost use Rattle.std.specs.Prelude.{◌≡◌, IfOk, OnOk, IfErr, IfSome};
ghost use Rattle.fab_mapping.specs.Mappings.{HasNoClash};
ghost use Rattle.fab_plans.specs.Outcomes.{AllDone, IsOutcome, IsTrialFault};
ghost use Rattle.fab_reach_base.specs.Soundness.{IsSoundBeside};
ghost use Rattle.fab_store_rows.specs.Differences.{IsDifference};

use crate::changed::changed_rows;
use crate::clash::clash_after;
use crate::spare::take_spare;
use fab_inventory::Inventory;
use fab_plans::{Refusal, TrialFault, take_steps};
use fab_plans_base::Step;
use fab_reach_base::Config;
use fab_store_rows::RowDifference;
use std::alloc::Allocator;

/// The configuration that steps make of this one, unit clashes aside. They are done on the spare one,
/// which is taken, or on a copy.
///
/// # Errors
/// `Refused` with the number of the first step that is refused, from 1, and its first refusal; `Memory`.
fn after_steps<A: Allocator + Copy>(
    config: &Config<A>,
    spare: &mut Option<Config<A>>,
    inventory: &Inventory<A>,
    steps: &[Step<A>],
) -> Result<Config<A>, TrialFault>
    requires { IfSome spare.old (λ s. s ≡ config.now) }
    ensures done { IfOk result (AllDone inventory.now steps.now config.now) }
    ensures sound { IfOk result (λ after. IsSoundBeside inventory.now config.now → IsSoundBeside inventory.now after) }
    ensures err { IfErr result (IsTrialFault inventory.now steps.now config.now) }
    ensures spare { IfSome spare.new (λ s. s ≡ config.now) }
{
    let Ok(mut after) = take_spare(config, spare) else {
        return Err(TrialFault::Memory);
    };
    match take_steps(&mut after, inventory, steps) {
        Ok(()) => Ok(after),
        Err(fault) => Err(fault),
    }
}

/// The rows that steps changed, after which there is no unit clash.
///
/// # Errors
/// `Refused` with 0 and the least clash; `Memory`.
fn change_by<A: Allocator + Copy>(
    alloc: A,
    before: &Config<A>,
    after: &Config<A>,
    inventory: &Inventory<A>,
    steps: &[Step<A>],
) -> Result<RowDifference<A>, TrialFault>
    requires clear { HasNoClash before.now.mapping }
    requires done { AllDone inventory.now steps.now before.now after.now }
    ensures differs { IfOk result (λ change. IsDifference before.now after.now change.taken.items change.added.items) }
    ensures clear { OnOk result (HasNoClash after.now.mapping) }
    ensures err { IfErr result (IsTrialFault inventory.now steps.now before.now) }
{
    let _inventory = inventory;
    let Ok(change) = changed_rows(alloc, before, after, steps) else {
        return Err(TrialFault::Memory);
    };
    match clash_after(before, after, &change) {
        Ok(None) => Ok(change),
        Ok(Some(nexus)) => Err(TrialFault::Refused {
            step: 0,
            refusal: Refusal::Clash(nexus),
        }),
        Err(_) => Err(TrialFault::Memory),
    }
}

/// What steps make of a configuration beside an inventory, as `trial` says, and the rows that they
/// change. There is no unit clash before them. They are done on the spare configuration, which is taken,
/// or on a copy where there is none; groups are looked at for clashes only where a row of the mapping
/// comes.
///
/// # Errors
/// `Refused` with the number of the first step that is refused, from 1, and its first refusal, in the
/// order of a step's checks; or with 0 and the least clash after all steps; `Memory`.
pub fn outcome_of<A: Allocator + Copy>(
    alloc: A,
    config: &Config<A>,
    spare: &mut Option<Config<A>>,
    inventory: &Inventory<A>,
    steps: &[Step<A>],
) -> Result<(Config<A>, RowDifference<A>), TrialFault>
    requires clear { HasNoClash config.now.mapping }
    requires spare { IfSome spare.old (λ s. s ≡ config.now) }
    ensures ok { IfOk result (λ made. IsOutcome inventory.now steps.now config.now made.0) }
    ensures differs { IfOk result (λ made. IsDifference config.now made.0 made.1.taken.items made.1.added.items) }
    ensures sound { IfOk result (λ made. IsSoundBeside inventory.now config.now → IsSoundBeside inventory.now made.0) }
    ensures err { IfErr result (IsTrialFault inventory.now steps.now config.now) }
    ensures spare { IfSome spare.new (λ s. s ≡ config.now) }
{
    let after = match after_steps(config, spare, inventory, steps) {
        Ok(after) => after,
        Err(fault) => return Err(fault),
    };
    match change_by(alloc, config, &after, inventory, steps) {
        Ok(change) => Ok((after, change)),
        Err(fault) => Err(fault),
    }
}
