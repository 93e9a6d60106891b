//! The steps of zoning.
ghost use Rattle.std.specs.Prelude.{◌≡◌, Some, OnOk, IfErr, ⊤};
ghost use Rattle.fab_reach_base.specs.fab_zoning.Soundness.{IsSound};
ghost use Rattle.fab_plans_text.specs.fab_plans_base.Actions as actions;
ghost use Rattle.fab_plans_text.specs.fab_plans_base.Plans.{IsStep};
ghost use Rattle.fab_plans.specs.Steps.{fabric_of};
ghost use Rattle.fab_plans.specs.Telling.{IsFaultOf, TellsZoning};
ghost use Rattle.fab_plans.specs.ZoningSteps.{ZoningDone, ZoningFails};
ghost use Rattle.fab_reach_base.specs.fab_zoning.declared.fault.ZoningFault.TheVariants as zoning;
ghost use Rattle.fab_plans.specs.declared.fault.StepFault.TheVariants.{Refused};
ghost use Rattle.fab_plans.specs.declared.fault.Refusal.TheVariants as refusal;

use crate::fault::StepFault;
use crate::{Item, Refusal, StepLimit};
use fab_plans_text::base::ZoningAction;
use fab_reach_base::names::Fabric;
use fab_reach_base::zoning::{Zoning, ZoningFault, ZoningLimit};
use std::alloc::Allocator;

/// The fabric whose zoning the action changes.
pub fn zoned<A: Allocator + Copy>(action: &ZoningAction<A>) -> Fabric
    ensures { fabric_of (actions.zoning_step action.now) ≡ Some result }
{
    match action {
        ZoningAction::AliasPut { fabric, .. }
        | ZoningAction::AliasDrop { fabric, .. }
        | ZoningAction::ZonePut { fabric, .. }
        | ZoningAction::ZoneDrop { fabric, .. }
        | ZoningAction::SetPut { fabric, .. }
        | ZoningAction::SetDrop { fabric, .. }
        | ZoningAction::Activate { fabric, .. }
        | ZoningAction::Deactivate { fabric }
        | ZoningAction::Default { fabric, .. } => *fabric,
    }
}

/// What a limit of the zoning is at a step.
fn limit_told(limit: ZoningLimit) -> StepLimit
    requires { TellsZoning (λ _. ⊤) (zoning.Limit limit) }
    ensures { TellsZoning (λ f. f ≡ Refused (refusal.Limit result)) (zoning.Limit limit) }
{
    match limit {
        ZoningLimit::Aliases => StepLimit::Aliases,
        ZoningLimit::Zones => StepLimit::Zones,
        ZoningLimit::Sets => StepLimit::Sets,
        ZoningLimit::Active => StepLimit::Active,
        ZoningLimit::Members => unreachable!(),
    }
}

/// What a fault of the zoning is at a step.
fn told(fault: ZoningFault) -> StepFault
    requires { TellsZoning (λ _. ⊤) fault }
    ensures { TellsZoning (λ f. f ≡ result) fault }
{
    match fault {
        ZoningFault::Unknown(name) => StepFault::Refused(Refusal::Unknown(Item::Name(name))),
        ZoningFault::InUse(name, by) => StepFault::Refused(Refusal::InUse { name, by }),
        ZoningFault::Limit(limit) => StepFault::Refused(Refusal::Limit(limit_told(limit))),
        ZoningFault::Empty => unreachable!(),
        ZoningFault::Memory => StepFault::Memory,
    }
}

/// What the zoning answers to a step.
fn answer<A: Allocator + Copy>(
    zoning: &mut Zoning<A>,
    action: &ZoningAction<A>,
) -> Result<(), ZoningFault>
    requires { IsStep (actions.zoning_step action.now) }
    ensures ok { OnOk result (ZoningDone (actions.zoning_step action.now) zoning.old zoning.new) }
    ensures sound { OnOk result (IsSound zoning.old → IsSound zoning.new) }
    ensures err { IfErr result (TellsZoning (IsFaultOf (ZoningFails zoning.old (actions.zoning_step action.now)))) }
{
    match action {
        ZoningAction::AliasPut { name, members, .. } => zoning.put_alias(*name, members),
        ZoningAction::AliasDrop { name, .. } => zoning.drop_alias(name),
        ZoningAction::ZonePut { name, members, .. } => zoning.put_zone(*name, members),
        ZoningAction::ZoneDrop { name, .. } => zoning.drop_zone(name),
        ZoningAction::SetPut { name, zones, .. } => zoning.put_set(*name, zones),
        ZoningAction::SetDrop { name, .. } => zoning.drop_set(name),
        ZoningAction::Activate { set, .. } => zoning.activate(set),
        ZoningAction::Deactivate { .. } => {
            zoning.deactivate();
            Ok(())
        }
        ZoningAction::Default { flag, .. } => {
            zoning.set_default(*flag);
            Ok(())
        }
    }
}

/// Does a step on the zoning of its fabric.
///
/// # Errors
/// `Refused` with the first refusal of the step, or `Memory`.
pub fn take_zoning_step<A: Allocator + Copy>(
    zoning: &mut Zoning<A>,
    action: &ZoningAction<A>,
) -> Result<(), StepFault>
    requires { IsStep (actions.zoning_step action.now) }
    ensures ok { OnOk result (ZoningDone (actions.zoning_step action.now) zoning.old zoning.new) }
    ensures sound { OnOk result (IsSound zoning.old → IsSound zoning.new) }
    ensures err { IfErr result (IsFaultOf (ZoningFails zoning.old (actions.zoning_step action.now))) }
{
    match answer(zoning, action) {
        Ok(()) => Ok(()),
        Err(fault) => Err(told(fault)),
    }
}
