//! The trial of steps on a configuration.
ghost use Rattle.std.specs.Prelude.{◌≡◌, ◌+◌, ◌<◌, ◌^◌, OnOk, IfOk, IfErr};
ghost use Rattle.fab_plans.specs.Steps.{StepDone, FailsIn, fabric_of};
ghost use Rattle.fab_reach_base.specs.Soundness.{IsSoundBeside};
ghost use Rattle.fab_plans.specs.Outcomes.{AllDone, IsOutcome, IsTrialFault};
ghost use Rattle.fab_plans.specs.Telling.{IsFaultOf, fault_at};

use crate::fault::StepFault;
use crate::mapping_steps::take_mapping_step;
use crate::zoning_steps::{take_zoning_step, zoned};
use crate::{Refusal, TrialFault};
use fab_plans_text::base::{Action, Step};
use fab_reach_base::Config;
use fab_reach_base::inventory::Inventory;
use fab_reach_base::names::Fabric;
use std::alloc::Allocator;

/// Does a step on a configuration.
///
/// # Errors
/// `Refused` with the first refusal of the step, or `Memory`.
fn take_step<A: Allocator + Copy>(
    config: &mut Config<A>,
    inventory: &Inventory<A>,
    step: &Step<A>,
) -> Result<(), StepFault>
    ensures ok { OnOk result (StepDone inventory.now step.now config.old config.new) }
    ensures sound { OnOk result (IsSoundBeside inventory.now config.old → IsSoundBeside inventory.now config.new) }
    ensures err { IfErr result (IsFaultOf (FailsIn (fabric_of step.now) inventory.now config.old step.now)) }
{
    match step.action() {
        Action::Zoning(action) => match zoned(action) {
            Fabric::A => take_zoning_step(&mut config.a, action),
            Fabric::B => take_zoning_step(&mut config.b, action),
        },
        Action::Mapping(action) => take_mapping_step(&mut config.mapping, inventory, action),
    }
}

/// Why a trial stops at the step at a place, the first being at 0.
fn numbered(place: usize, fault: StepFault) -> TrialFault
    requires { place + 1 < 2 ^ 64 }
    ensures { result ≡ fault_at place fault }
{
    match fault {
        StepFault::Refused(refusal) => TrialFault::Refused {
            step: place + 1,
            refusal,
        },
        StepFault::Memory => TrialFault::Memory,
    }
}

/// Does steps on a configuration, one after the other. Unit clashes are no part of it.
///
/// # Errors
/// `Refused` with the number of the first step that is refused, from 1, and its first refusal, in
/// the order of a step's checks; or `Memory`. The configuration is then what the steps before it made.
pub fn take_steps<A: Allocator + Copy>(
    config: &mut Config<A>,
    inventory: &Inventory<A>,
    steps: &[Step<A>],
) -> Result<(), TrialFault>
    ensures ok { OnOk result (AllDone inventory.now steps.now config.old config.new) }
    ensures sound { OnOk result (IsSoundBeside inventory.now config.old → IsSoundBeside inventory.now config.new) }
    ensures err { IfErr result (IsTrialFault inventory.now steps.now config.old) }
{
    for (place, step) in steps.iter().enumerate() {
        match take_step(config, inventory, step) {
            Ok(()) => {}
            Err(fault) => return Err(numbered(place, fault)),
        }
    }
    Ok(())
}

/// What steps make of a configuration beside an inventory: a new configuration, after all steps in
/// their order. The given one stays as it is. The limits on paths and on changes are no part of it.
///
/// # Errors
/// `Refused` with the number of the first step that is refused, from 1, and its first refusal, in
/// the order of a step's checks; or with 0 and the least clash, where after all steps a host would
/// meet two volumes at one target and unit; `Memory`.
pub fn trial<A: Allocator + Copy>(
    config: &Config<A>,
    inventory: &Inventory<A>,
    steps: &[Step<A>],
) -> Result<Config<A>, TrialFault>
    ensures ok { IfOk result (IsOutcome inventory.now steps.now config.now) }
    ensures sound { IfOk result (λ after. IsSoundBeside inventory.now config.now → IsSoundBeside inventory.now after) }
    ensures refused { IfErr result (IsTrialFault inventory.now steps.now config.now) }
{
    let Ok(mut after) = config.copy() else {
        return Err(TrialFault::Memory);
    };
    if let Err(fault) = take_steps(&mut after, inventory, steps) {
        return Err(fault);
    }
    match after.mapping().clash() {
        Ok(None) => Ok(after),
        Ok(Some(nexus)) => Err(TrialFault::Refused {
            step: 0,
            refusal: Refusal::Clash(nexus),
        }),
        Err(_) => Err(TrialFault::Memory),
    }
}
