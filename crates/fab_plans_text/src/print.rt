//! The printed form of plans.
ghost use Rattle.std.specs.Prelude.{◌≡◌, ◌++◌, map, OnOk, IfOk};
ghost use Rattle.std.specs.List.{flat_map};
ghost use Rattle.std.specs.String.{string_bytes};
ghost use Rattle.fab_plans_base.specs.Values.{of_name, of_member};
ghost use Rattle.fab_plans_base.specs.Actions.{zoning_step, mapping_step};
ghost use Rattle.fab_plans_base.specs.Forms.{values_of};
ghost use Rattle.fab_plans_base.specs.Plans.{spaced, step_text, plan_text, IsStep, IsWithinLimits, Spells};

use crate::{Action, MappingAction, Step, ZoningAction};
use fab_names::{Member, Name};
use std::alloc::{AllocError, Allocator};
use std::fmt::Write;

/// Adds names, each behind a space.
fn push_names<A: Allocator>(text: &mut String<A>, names: &[Name]) -> Result<(), AllocError>
    ensures { OnOk result (string_bytes text.new ≡ string_bytes text.old ++ flat_map spaced (map of_name names.now)) }
{
    for name in names {
        write!(text, " {name}")?;
    }
    Ok(())
}

/// Adds members, each behind a space.
fn push_members<A: Allocator>(text: &mut String<A>, members: &[Member]) -> Result<(), AllocError>
    ensures { OnOk result (string_bytes text.new ≡ string_bytes text.old ++ flat_map spaced (map of_member members.now)) }
{
    for member in members {
        write!(text, " {member}")?;
    }
    Ok(())
}

/// Adds the words that follow the first of a step of zoning.
fn push_zoning<A: Allocator, B: Allocator + Copy>(
    text: &mut String<A>,
    action: &ZoningAction<B>,
) -> Result<(), AllocError>
    ensures { OnOk result (string_bytes text.new ≡ string_bytes text.old ++ flat_map spaced (values_of (zoning_step action.now))) }
{
    match action {
        ZoningAction::AliasPut {
            fabric,
            name,
            members,
        }
        | ZoningAction::ZonePut {
            fabric,
            name,
            members,
        } => {
            write!(text, " {fabric} {name}")?;
            push_members(text, members)
        }
        ZoningAction::SetPut {
            fabric,
            name,
            zones,
        } => {
            write!(text, " {fabric} {name}")?;
            push_names(text, zones)
        }
        ZoningAction::AliasDrop { fabric, name }
        | ZoningAction::ZoneDrop { fabric, name }
        | ZoningAction::SetDrop { fabric, name } => write!(text, " {fabric} {name}"),
        ZoningAction::Activate { fabric, set } => write!(text, " {fabric} {set}"),
        ZoningAction::Deactivate { fabric } => write!(text, " {fabric}"),
        ZoningAction::Default { fabric, flag } => {
            let flag = flag.word();
            write!(text, " {fabric} {flag}")
        }
    }
}

/// Adds the words that follow the first of a step of mapping.
fn push_mapping<A: Allocator, B: Allocator + Copy>(
    text: &mut String<A>,
    action: &MappingAction<B>,
) -> Result<(), AllocError>
    ensures { OnOk result (string_bytes text.new ≡ string_bytes text.old ++ flat_map spaced (values_of (mapping_step action.now))) }
{
    match action {
        MappingAction::HostGroupPut {
            name,
            tenant,
            hosts,
        } => {
            write!(text, " {name} {tenant}")?;
            push_names(text, hosts)
        }
        MappingAction::GroupNew {
            name,
            tenant,
            array,
        } => write!(text, " {name} {tenant} {array}"),
        MappingAction::HostGroupDrop { name } | MappingAction::GroupDrop { name } => {
            write!(text, " {name}")
        }
        MappingAction::GroupHost { group, host_group }
        | MappingAction::GroupUnhost { group, host_group } => write!(text, " {group} {host_group}"),
        MappingAction::GroupTarget { group, target }
        | MappingAction::GroupUntarget { group, target } => write!(text, " {group} {target}"),
        MappingAction::GroupMap {
            group,
            unit,
            volume,
        } => write!(text, " {group} {unit} {volume}"),
        MappingAction::GroupUnmap { group, unit } => write!(text, " {group} {unit}"),
        MappingAction::GroupExpose { group } | MappingAction::GroupHide { group } => {
            write!(text, " {group}")
        }
    }
}

/// Adds the words that follow the first of a step.
fn push_values<A: Allocator, B: Allocator + Copy>(
    text: &mut String<A>,
    step: &Step<B>,
) -> Result<(), AllocError>
    ensures { OnOk result (string_bytes text.new ≡ string_bytes text.old ++ flat_map spaced (values_of step.now)) }
{
    match step.action() {
        Action::Zoning(action) => push_zoning(text, action),
        Action::Mapping(action) => push_mapping(text, action),
    }
}

/// Adds the line of a step.
fn push_step<A: Allocator, B: Allocator + Copy>(
    text: &mut String<A>,
    step: &Step<B>,
) -> Result<(), AllocError>
    ensures text { OnOk result (string_bytes text.new ≡ string_bytes text.old ++ step_text step.now) }
    ensures valid { IsStep step.now }
{
    text.push_str(step.keyword().as_str())?;
    push_values(text, step)?;
    text.push_str("\n")
}

/// The printed form of steps: the words of each in their order, world-wide names and numbers in
/// their printed form, one space between words, each line ended by a line feed.
///
/// # Errors
/// `AllocError` where there is no memory.
pub fn print_plan<A: Allocator, B: Allocator + Copy>(
    alloc: A,
    steps: &[Step<B>],
) -> Result<String<A>, AllocError>
    ensures text { IfOk result (λ text. string_bytes text ≡ plan_text steps.now) }
    // What is printed of a plan is read again as the same steps.
    ensures read { IfOk result (λ text. IsWithinLimits steps.now → Spells (string_bytes text) steps.now) }
{
    let mut text = String::new(alloc);
    for step in steps {
        push_step(&mut text, step)?;
    }
    Ok(text)
}
