//! The steps of mapping.
ghost use Rattle.std.specs.Prelude.{◌≡◌, OnOk, IfErr, ⊤};
ghost use Rattle.fab_reach_base.specs.fab_mapping.Soundness.{Keeps};
ghost use Rattle.fab_plans_text.specs.fab_plans_base.Actions as actions;
ghost use Rattle.fab_plans_text.specs.fab_plans_base.Plans.{IsStep};
ghost use Rattle.fab_plans.specs.MappingSteps.{MappingDone, MappingFails};
ghost use Rattle.fab_plans.specs.Telling.{IsFaultOf, TellsMapping, first_name, added_item};
ghost use Rattle.fab_reach_base.specs.fab_mapping_base.declared.fault.MappingFault.TheVariants as mapping;
ghost use Rattle.fab_plans.specs.declared.fault.StepFault.TheVariants.{Refused};
ghost use Rattle.fab_plans.specs.declared.fault.Refusal.TheVariants as refusal;

use crate::fault::StepFault;
use crate::{Item, Refusal, StepLimit};
use fab_plans_text::base::MappingAction;
use fab_reach_base::inventory::Inventory;
use fab_reach_base::mapping::{Mapping, MappingFault, MappingLimit};
use fab_reach_base::names::Name;
use std::alloc::Allocator;

/// The first name of a step.
fn first<A: Allocator + Copy>(action: &MappingAction<A>) -> Name
    ensures { result ≡ first_name (actions.mapping_step action.now) }
{
    match action {
        MappingAction::HostGroupPut { name, .. }
        | MappingAction::HostGroupDrop { name }
        | MappingAction::GroupNew { name, .. }
        | MappingAction::GroupDrop { name } => *name,
        MappingAction::GroupHost { group, .. }
        | MappingAction::GroupUnhost { group, .. }
        | MappingAction::GroupTarget { group, .. }
        | MappingAction::GroupUntarget { group, .. }
        | MappingAction::GroupMap { group, .. }
        | MappingAction::GroupUnmap { group, .. }
        | MappingAction::GroupExpose { group }
        | MappingAction::GroupHide { group } => *group,
    }
}

/// The target or the volume that a step adds to a storage group; of other steps the first name.
fn added<A: Allocator + Copy>(action: &MappingAction<A>) -> Item
    ensures { result ≡ added_item (actions.mapping_step action.now) }
{
    match action {
        MappingAction::GroupTarget { target, .. } => Item::Port(*target),
        MappingAction::GroupMap { volume, .. } => Item::Name(*volume),
        _ => Item::Name(first(action)),
    }
}

/// What a limit of the mapping is at a step.
fn limit_told<A: Allocator + Copy>(action: &MappingAction<A>, limit: MappingLimit) -> StepLimit
    requires { TellsMapping (actions.mapping_step action.now) (λ _. ⊤) (mapping.Limit limit) }
    ensures { TellsMapping (actions.mapping_step action.now) (λ f. f ≡ Refused (refusal.Limit result)) (mapping.Limit limit) }
{
    match limit {
        MappingLimit::HostGroups => StepLimit::HostGroups,
        MappingLimit::Groups => StepLimit::Groups,
        MappingLimit::Parts => StepLimit::Parts,
        MappingLimit::Hosts | MappingLimit::UnitNumber => unreachable!(),
    }
}

/// What a fault of the mapping at a step is as the step's.
fn told<A: Allocator + Copy>(action: &MappingAction<A>, fault: MappingFault) -> StepFault
    requires { TellsMapping (actions.mapping_step action.now) (λ _. ⊤) fault }
    ensures { TellsMapping (actions.mapping_step action.now) (λ f. f ≡ result) fault }
{
    let refusal = match fault {
        MappingFault::Unknown(name) => Refusal::Unknown(Item::Name(name)),
        MappingFault::UnknownPort(port) => Refusal::Unknown(Item::Port(port)),
        MappingFault::NotMapped(unit) => Refusal::Unknown(Item::Unit(unit)),
        MappingFault::Exists(name) => Refusal::Exists(name),
        MappingFault::InUse(name, by) => Refusal::InUse { name, by },
        MappingFault::WrongArray => Refusal::WrongArray(added(action)),
        MappingFault::UnitTaken(unit) => {
            let group = first(action);
            Refusal::UnitTaken { group, unit }
        }
        MappingFault::Limit(limit) => Refusal::Limit(limit_told(action, limit)),
        MappingFault::Memory => return StepFault::Memory,
    };
    StepFault::Refused(refusal)
}

/// What the mapping answers to a step on host groups, or on a storage group as a whole.
fn answer<A: Allocator + Copy>(
    mapping: &mut Mapping<A>,
    inventory: &Inventory<A>,
    action: &MappingAction<A>,
) -> Result<(), MappingFault>
    requires { IsStep (actions.mapping_step action.now) }
    ensures ok { OnOk result (MappingDone inventory.now (actions.mapping_step action.now) mapping.old mapping.new) }
    ensures keeps { OnOk result (Keeps inventory.now mapping.old mapping.new) }
    ensures err { IfErr result (TellsMapping (actions.mapping_step action.now) (IsFaultOf (MappingFails inventory.now mapping.old (actions.mapping_step action.now)))) }
{
    match action {
        MappingAction::HostGroupPut {
            name,
            tenant,
            hosts,
        } => mapping.put_host_group(*name, *tenant, hosts, inventory),
        MappingAction::HostGroupDrop { name } => mapping.drop_host_group(name),
        MappingAction::GroupNew {
            name,
            tenant,
            array,
        } => mapping.new_group(*name, *tenant, *array, inventory),
        MappingAction::GroupDrop { name } => mapping.drop_group(name),
        MappingAction::GroupHost { group, host_group } => mapping.add_hosts(group, host_group),
        MappingAction::GroupUnhost { group, host_group } => mapping.remove_hosts(group, host_group),
        MappingAction::GroupTarget { group, target } => mapping.add_target(
            group, target, inventory,
        ),
        MappingAction::GroupUntarget { group, target } => mapping.remove_target(group, target),
        MappingAction::GroupMap {
            group,
            unit,
            volume,
        } => mapping.map(group, *unit, volume, inventory),
        MappingAction::GroupUnmap { group, unit } => mapping.unmap(group, *unit),
        MappingAction::GroupExpose { group } => mapping.expose(group),
        MappingAction::GroupHide { group } => mapping.hide(group),
    }
}

/// Does a step on the mapping.
///
/// # Errors
/// `Refused` with the first refusal of the step, or `Memory`.
pub fn take_mapping_step<A: Allocator + Copy>(
    mapping: &mut Mapping<A>,
    inventory: &Inventory<A>,
    action: &MappingAction<A>,
) -> Result<(), StepFault>
    requires { IsStep (actions.mapping_step action.now) }
    ensures ok { OnOk result (MappingDone inventory.now (actions.mapping_step action.now) mapping.old mapping.new) }
    ensures keeps { OnOk result (Keeps inventory.now mapping.old mapping.new) }
    ensures err { IfErr result (IsFaultOf (MappingFails inventory.now mapping.old (actions.mapping_step action.now))) }
{
    match answer(mapping, inventory, action) {
        Ok(()) => Ok(()),
        Err(fault) => Err(told(action, fault)),
    }
}
