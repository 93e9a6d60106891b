//! What the steps of mapping do.
ghost use Rattle.std.specs.Prelude.{◌≡◌};
ghost use Rattle.fab_plans_base.specs.Actions.{mapping_step};
ghost use Rattle.fab_plans_base.specs.Forms.{keyword_of};
ghost use Rattle.fab_plans_base.specs.declared.keyword.Keyword.TheVariants.{Mapping};

use crate::MappingKeyword;
use fab_names::{Name, Wwn};
use std::alloc::Allocator;

/// What a step of mapping does to a host group or to a storage group, `group` (SNIA Swordfish). A
/// logical unit number, `unit`, is 0 to 16383. A list keeps all words of the line in their order,
/// equal ones too.
#[derive(Drop)]
pub enum MappingAction<A: Allocator + Copy> {
    /// Make or replace a host group of a tenant.
    HostGroupPut {
        name: Name,
        tenant: Name,
        hosts: Vec<Name, A>,
    },
    /// Drop a host group.
    HostGroupDrop {
        name: Name,
    },
    /// Make a storage group of a tenant on an array, hidden and empty.
    GroupNew {
        name: Name,
        tenant: Name,
        array: Name,
    },
    /// Drop a storage group.
    GroupDrop {
        name: Name,
    },
    /// Add a host group to a storage group.
    GroupHost {
        group: Name,
        host_group: Name,
    },
    /// Take a host group out of a storage group.
    GroupUnhost {
        group: Name,
        host_group: Name,
    },
    /// Add a target port to a storage group.
    GroupTarget {
        group: Name,
        target: Wwn,
    },
    /// Take a target port out of a storage group.
    GroupUntarget {
        group: Name,
        target: Wwn,
    },
    /// Map a volume at a logical unit number of a storage group.
    GroupMap {
        group: Name,
        unit: u16,
        volume: Name,
    },
    /// Free a logical unit number of a storage group.
    GroupUnmap {
        group: Name,
        unit: u16,
    },
    /// Expose a storage group: from then on its hosts meet its volumes.
    GroupExpose {
        group: Name,
    },
    /// Hide a storage group.
    GroupHide {
        group: Name,
    },
}

impl<A: Allocator + Copy> MappingAction<A> {
    /// The first word of the lines that ask for it.
    pub(crate) fn keyword(&self) -> MappingKeyword
        ensures { Mapping result ≡ keyword_of (mapping_step self.now) }
    {
        match self {
            MappingAction::HostGroupPut { .. } => MappingKeyword::HostGroupPut,
            MappingAction::HostGroupDrop { .. } => MappingKeyword::HostGroupDrop,
            MappingAction::GroupNew { .. } => MappingKeyword::GroupNew,
            MappingAction::GroupDrop { .. } => MappingKeyword::GroupDrop,
            MappingAction::GroupHost { .. } => MappingKeyword::GroupHost,
            MappingAction::GroupUnhost { .. } => MappingKeyword::GroupUnhost,
            MappingAction::GroupTarget { .. } => MappingKeyword::GroupTarget,
            MappingAction::GroupUntarget { .. } => MappingKeyword::GroupUntarget,
            MappingAction::GroupMap { .. } => MappingKeyword::GroupMap,
            MappingAction::GroupUnmap { .. } => MappingKeyword::GroupUnmap,
            MappingAction::GroupExpose { .. } => MappingKeyword::GroupExpose,
            MappingAction::GroupHide { .. } => MappingKeyword::GroupHide,
        }
    }
}
