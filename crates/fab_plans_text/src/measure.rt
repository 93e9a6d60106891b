//! How long the printed form of a plan is, counted over the same pieces that are printed.
ghost use Rattle.std.specs.Prelude.{◌≡◌, ◌<◌, ◌≤◌, ◌^◌, ◌↔◌, IsTrue, [], ◌∷◌, length, map, decimal};
ghost use Rattle.std.specs.List.{flat_map};
ghost use Rattle.fab_names.specs.WorldWideNames.{wwn_text};
ghost use Rattle.fab_names.specs.Members.{member_text};
ghost use Rattle.fab_plans_base.specs.Limits.{most_bytes, most_items};
ghost use Rattle.fab_plans_base.specs.Values.{of_fabric, of_name, of_member};
ghost use Rattle.fab_plans_base.specs.Actions.{zoning_step, mapping_step};
ghost use Rattle.fab_plans_base.specs.Forms.{values_of};
ghost use Rattle.fab_plans_base.specs.Plans.{spaced, step_text, plan_text, IsStep, IsWithinLimits};

use crate::{Action, MOST_BYTES, MOST_STEPS, MappingAction, Step, ZoningAction};
use fab_names::{Fabric, Member, Name, Wwn};
use std::alloc::Allocator;

/// How many digits a number is printed with.
#[tactic(auto, using(crate::proofs::Measures::one_digit, crate::proofs::Measures::more_digits, crate::proofs::Measures::few_digits))]
fn digits(number: u16) -> usize
    ensures length { result ≡ length (decimal number) }
    ensures few { result ≤ 5 }
{
    let mut digits = 1;
    let mut rest = number;
    while rest >= 10 {
        digits += 1;
        rest /= 10;
    }
    digits
}

/// How many characters a world-wide name is printed with.
fn wwn_len(wwn: Wwn) -> usize
    ensures length { result ≡ length (wwn_text wwn) }
    ensures few { result ≤ 23 }
{
    wwn.letters().len()
}

/// How many bytes a member is printed with.
fn member_len(member: &Member) -> usize
    ensures length { result ≡ length (member_text member.now) }
    ensures few { result ≤ 70 }
{
    match member {
        Member::Port(wwn) => "wwpn=".len() + wwn_len(*wwn),
        Member::Node(wwn) => "wwnn=".len() + wwn_len(*wwn),
        Member::Place(place) => {
            "dp=".len() + digits(u16::from(place.domain())) + 1 + digits(place.slot())
        }
        Member::Address(address) => "id=".len() + address.letters().len(),
        Member::Alias(name) => "alias=".len() + name_len(name),
    }
}

/// How many bytes a name is printed with.
fn name_len(name: &Name) -> usize
    ensures length { result ≡ length name.now }
    ensures few { result ≤ 64 }
{
    name.as_str().len()
}

/// How many bytes a fabric is printed with, behind a space.
fn fabric_len(fabric: Fabric) -> usize
    ensures length { result ≡ length (spaced (of_fabric fabric)) }
    ensures few { result ≤ 2 }
{
    1 + fabric.as_str().len()
}

/// How many bytes a fabric and a name are printed with, each behind a space.
fn named_len(fabric: Fabric, name: &Name) -> usize
    ensures length { result ≡ length (flat_map spaced (of_fabric fabric ∷ of_name name.now ∷ [])) }
    ensures few { result ≤ 67 }
{
    fabric_len(fabric) + 1 + name_len(name)
}

/// How many bytes names are printed with, each behind a space.
fn names_len(names: &[Name]) -> usize
    requires { length names.now ≤ most_items }
    ensures length { result ≡ length (flat_map spaced (map of_name names.now)) }
    ensures few { result < 2 ^ 16 }
{
    let mut len = 0;
    for name in names {
        len += 1 + name_len(name);
    }
    len
}

/// How many bytes members are printed with, each behind a space.
fn members_len(members: &[Member]) -> usize
    requires { length members.now ≤ most_items }
    ensures length { result ≡ length (flat_map spaced (map of_member members.now)) }
    ensures few { result < 2 ^ 16 }
{
    let mut len = 0;
    for member in members {
        len += 1 + member_len(member);
    }
    len
}

/// How many bytes the words behind the first of a zoning step are printed with, each behind a space.
fn zoning_len<A: Allocator + Copy>(action: &ZoningAction<A>) -> usize
    requires { IsStep (zoning_step action.now) }
    ensures length { result ≡ length (flat_map spaced (values_of (zoning_step action.now))) }
    ensures few { result < 2 ^ 17 }
{
    match action {
        ZoningAction::AliasPut {
            fabric,
            name,
            members,
        }
        | ZoningAction::ZonePut {
            fabric,
            name,
            members,
        } => named_len(*fabric, name) + members_len(members),
        ZoningAction::SetPut {
            fabric,
            name,
            zones,
        } => named_len(*fabric, name) + names_len(zones),
        ZoningAction::AliasDrop { fabric, name }
        | ZoningAction::ZoneDrop { fabric, name }
        | ZoningAction::SetDrop { fabric, name } => named_len(*fabric, name),
        ZoningAction::Activate { fabric, set } => named_len(*fabric, set),
        ZoningAction::Deactivate { fabric } => fabric_len(*fabric),
        ZoningAction::Default { fabric, flag } => fabric_len(*fabric) + 1 + flag.word().len(),
    }
}

/// How many bytes the words behind the first of a mapping step are printed with, each behind a space.
fn mapping_len<A: Allocator + Copy>(action: &MappingAction<A>) -> usize
    requires { IsStep (mapping_step action.now) }
    ensures length { result ≡ length (flat_map spaced (values_of (mapping_step action.now))) }
    ensures few { result < 2 ^ 17 }
{
    match action {
        MappingAction::HostGroupPut {
            name,
            tenant,
            hosts,
        } => 2 + name_len(name) + name_len(tenant) + names_len(hosts),
        MappingAction::GroupNew {
            name,
            tenant,
            array,
        } => 3 + name_len(name) + name_len(tenant) + name_len(array),
        MappingAction::HostGroupDrop { name } | MappingAction::GroupDrop { name } => {
            1 + name_len(name)
        }
        MappingAction::GroupHost { group, host_group }
        | MappingAction::GroupUnhost { group, host_group } => {
            2 + name_len(group) + name_len(host_group)
        }
        MappingAction::GroupTarget { group, target }
        | MappingAction::GroupUntarget { group, target } => 2 + name_len(group) + wwn_len(*target),
        MappingAction::GroupMap {
            group,
            unit,
            volume,
        } => 3 + name_len(group) + digits(*unit) + name_len(volume),
        MappingAction::GroupUnmap { group, unit } => 2 + name_len(group) + digits(*unit),
        MappingAction::GroupExpose { group } | MappingAction::GroupHide { group } => {
            1 + name_len(group)
        }
    }
}

/// How many bytes the words behind the first of a step are printed with, each behind a space.
fn values_len<A: Allocator + Copy>(step: &Step<A>) -> usize
    ensures length { result ≡ length (flat_map spaced (values_of step.now)) }
    ensures few { result < 2 ^ 17 }
{
    match step.action() {
        Action::Zoning(action) => zoning_len(action),
        Action::Mapping(action) => mapping_len(action),
    }
}

/// How many bytes the line of a step is printed with.
fn step_len<A: Allocator + Copy>(step: &Step<A>) -> usize
    ensures { result ≡ length (step_text step.now) }
{
    step.keyword().as_str().len() + values_len(step) + 1
}

/// Whether the printed form of steps is short enough. It stops at the step that passes the limit.
pub(crate) fn is_short<A: Allocator + Copy>(steps: &[Step<A>]) -> bool
    ensures { IsTrue result ↔ (length (plan_text steps.now) ≤ most_bytes) }
{
    let mut left = MOST_BYTES;
    for step in steps {
        let len = step_len(step);
        if len > left {
            return false;
        }
        left -= len;
    }
    true
}

/// Whether steps may be those of a plan: 1 to 200 of them, and their printed form is at most 65536
/// bytes long. It takes no memory.
pub fn is_within_limits<A: Allocator + Copy>(steps: &[Step<A>]) -> bool
    ensures { IsTrue result ↔ IsWithinLimits steps.now }
{
    if steps.is_empty() {
        return false;
    }
    if steps.len() > MOST_STEPS {
        return false;
    }
    is_short(steps)
}
