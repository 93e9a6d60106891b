//! The words of mapping lines that follow the first.
ghost use Rattle.std.specs.Prelude.{length};
ghost use Rattle.fab_plans_base.specs.Values.{texts_of};
ghost use Rattle.fab_plans_base.specs.Forms.{form_of, Takes};
ghost use Rattle.fab_plans_text.specs.Faults.{ReadsWords};
ghost use Rattle.fab_plans_base.specs.declared.keyword.Keyword.TheVariants.{Mapping};

use crate::word::{name, name_unit, name_unit_name, name_wwn, names, three_names, two_names};
use crate::{Action, MappingAction, MappingKeyword, PlanFaultKind, Step};
use std::alloc::Allocator;

/// Reads a name, a tenant and names of hosts.
fn host_group_put<A: Allocator + Copy>(alloc: A, words: &[&str]) -> Result<Step<A>, PlanFaultKind>
    requires { Takes (form_of (Mapping MappingKeyword.HostGroupPut)) (length words.now) }
    ensures { ReadsWords (Mapping MappingKeyword.HostGroupPut) (texts_of words.now) result }
{
    let (name, tenant) = two_names(&words[..2])?;
    let hosts = names(alloc, &words[2..])?;
    Ok(Step::new(Action::Mapping(MappingAction::HostGroupPut {
        name,
        tenant,
        hosts,
    })))
}

/// Reads a name.
fn host_group_drop<A: Allocator + Copy>(words: &[&str]) -> Result<Step<A>, PlanFaultKind>
    requires { Takes (form_of (Mapping MappingKeyword.HostGroupDrop)) (length words.now) }
    ensures { ReadsWords (Mapping MappingKeyword.HostGroupDrop) (texts_of words.now) result }
{
    let name = name(words)?;
    Ok(Step::new(Action::Mapping(MappingAction::HostGroupDrop { name })))
}

/// Reads a name, a tenant and an array.
fn group_new<A: Allocator + Copy>(words: &[&str]) -> Result<Step<A>, PlanFaultKind>
    requires { Takes (form_of (Mapping MappingKeyword.GroupNew)) (length words.now) }
    ensures { ReadsWords (Mapping MappingKeyword.GroupNew) (texts_of words.now) result }
{
    let (name, tenant, array) = three_names(words)?;
    Ok(Step::new(Action::Mapping(MappingAction::GroupNew {
        name,
        tenant,
        array,
    })))
}

/// Reads a name.
fn group_drop<A: Allocator + Copy>(words: &[&str]) -> Result<Step<A>, PlanFaultKind>
    requires { Takes (form_of (Mapping MappingKeyword.GroupDrop)) (length words.now) }
    ensures { ReadsWords (Mapping MappingKeyword.GroupDrop) (texts_of words.now) result }
{
    let name = name(words)?;
    Ok(Step::new(Action::Mapping(MappingAction::GroupDrop { name })))
}

/// Reads a storage group and a host group.
fn group_host<A: Allocator + Copy>(words: &[&str]) -> Result<Step<A>, PlanFaultKind>
    requires { Takes (form_of (Mapping MappingKeyword.GroupHost)) (length words.now) }
    ensures { ReadsWords (Mapping MappingKeyword.GroupHost) (texts_of words.now) result }
{
    let (group, host_group) = two_names(words)?;
    Ok(Step::new(Action::Mapping(MappingAction::GroupHost { group, host_group })))
}

/// Reads a storage group and a host group.
fn group_unhost<A: Allocator + Copy>(words: &[&str]) -> Result<Step<A>, PlanFaultKind>
    requires { Takes (form_of (Mapping MappingKeyword.GroupUnhost)) (length words.now) }
    ensures { ReadsWords (Mapping MappingKeyword.GroupUnhost) (texts_of words.now) result }
{
    let (group, host_group) = two_names(words)?;
    Ok(Step::new(Action::Mapping(MappingAction::GroupUnhost { group, host_group })))
}

/// Reads a storage group and a target port.
fn group_target<A: Allocator + Copy>(words: &[&str]) -> Result<Step<A>, PlanFaultKind>
    requires { Takes (form_of (Mapping MappingKeyword.GroupTarget)) (length words.now) }
    ensures { ReadsWords (Mapping MappingKeyword.GroupTarget) (texts_of words.now) result }
{
    let (group, target) = name_wwn(words)?;
    Ok(Step::new(Action::Mapping(MappingAction::GroupTarget { group, target })))
}

/// Reads a storage group and a target port.
fn group_untarget<A: Allocator + Copy>(words: &[&str]) -> Result<Step<A>, PlanFaultKind>
    requires { Takes (form_of (Mapping MappingKeyword.GroupUntarget)) (length words.now) }
    ensures { ReadsWords (Mapping MappingKeyword.GroupUntarget) (texts_of words.now) result }
{
    let (group, target) = name_wwn(words)?;
    Ok(Step::new(Action::Mapping(MappingAction::GroupUntarget { group, target })))
}

/// Reads a storage group, a logical unit number and a volume.
fn group_map<A: Allocator + Copy>(words: &[&str]) -> Result<Step<A>, PlanFaultKind>
    requires { Takes (form_of (Mapping MappingKeyword.GroupMap)) (length words.now) }
    ensures { ReadsWords (Mapping MappingKeyword.GroupMap) (texts_of words.now) result }
{
    let (group, unit, volume) = name_unit_name(words)?;
    Ok(Step::new(Action::Mapping(MappingAction::GroupMap {
        group,
        unit,
        volume,
    })))
}

/// Reads a storage group and a logical unit number.
fn group_unmap<A: Allocator + Copy>(words: &[&str]) -> Result<Step<A>, PlanFaultKind>
    requires { Takes (form_of (Mapping MappingKeyword.GroupUnmap)) (length words.now) }
    ensures { ReadsWords (Mapping MappingKeyword.GroupUnmap) (texts_of words.now) result }
{
    let (group, unit) = name_unit(words)?;
    Ok(Step::new(Action::Mapping(MappingAction::GroupUnmap { group, unit })))
}

/// Reads a storage group.
fn group_expose<A: Allocator + Copy>(words: &[&str]) -> Result<Step<A>, PlanFaultKind>
    requires { Takes (form_of (Mapping MappingKeyword.GroupExpose)) (length words.now) }
    ensures { ReadsWords (Mapping MappingKeyword.GroupExpose) (texts_of words.now) result }
{
    let group = name(words)?;
    Ok(Step::new(Action::Mapping(MappingAction::GroupExpose { group })))
}

/// Reads a storage group.
fn group_hide<A: Allocator + Copy>(words: &[&str]) -> Result<Step<A>, PlanFaultKind>
    requires { Takes (form_of (Mapping MappingKeyword.GroupHide)) (length words.now) }
    ensures { ReadsWords (Mapping MappingKeyword.GroupHide) (texts_of words.now) result }
{
    let group = name(words)?;
    Ok(Step::new(Action::Mapping(MappingAction::GroupHide { group })))
}

/// Reads the words that follow the first of a mapping line.
///
/// # Errors
/// The first fault of the words, or `Memory`.
pub(crate) fn mapping_words<A: Allocator + Copy>(
    alloc: A,
    keyword: MappingKeyword,
    words: &[&str],
) -> Result<Step<A>, PlanFaultKind>
    requires { Takes (form_of (Mapping keyword)) (length words.now) }
    ensures { ReadsWords (Mapping keyword) (texts_of words.now) result }
{
    match keyword {
        MappingKeyword::HostGroupPut => host_group_put(alloc, words),
        MappingKeyword::HostGroupDrop => host_group_drop(words),
        MappingKeyword::GroupNew => group_new(words),
        MappingKeyword::GroupDrop => group_drop(words),
        MappingKeyword::GroupHost => group_host(words),
        MappingKeyword::GroupUnhost => group_unhost(words),
        MappingKeyword::GroupTarget => group_target(words),
        MappingKeyword::GroupUntarget => group_untarget(words),
        MappingKeyword::GroupMap => group_map(words),
        MappingKeyword::GroupUnmap => group_unmap(words),
        MappingKeyword::GroupExpose => group_expose(words),
        MappingKeyword::GroupHide => group_hide(words),
    }
}
