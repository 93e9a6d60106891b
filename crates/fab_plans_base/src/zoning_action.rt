//! What the steps of zoning do.
ghost use Rattle.std.specs.Prelude.{◌≡◌};
ghost use Rattle.fab_plans_base.specs.Actions.{zoning_step};
ghost use Rattle.fab_plans_base.specs.Forms.{keyword_of};
ghost use Rattle.fab_plans_base.specs.declared.keyword.Keyword.TheVariants.{Zoning};

use crate::ZoningKeyword;
use fab_names::{Fabric, Member, Name};
use fab_zoning::DefaultFlag;
use std::alloc::Allocator;

/// What a step of zoning does. Lists keep all words of the line in their order, equal ones too.
#[derive(Drop)]
pub enum ZoningAction<A: Allocator + Copy> {
    /// Make or replace an alias. Its members name ports, and no alias.
    AliasPut {
        fabric: Fabric,
        name: Name,
        members: Vec<Member, A>,
    },
    /// Drop an alias.
    AliasDrop {
        fabric: Fabric,
        name: Name,
    },
    /// Make or replace a zone.
    ZonePut {
        fabric: Fabric,
        name: Name,
        members: Vec<Member, A>,
    },
    /// Drop a zone.
    ZoneDrop {
        fabric: Fabric,
        name: Name,
    },
    /// Make or replace a zone set.
    SetPut {
        fabric: Fabric,
        name: Name,
        zones: Vec<Name, A>,
    },
    /// Drop a zone set.
    SetDrop {
        fabric: Fabric,
        name: Name,
    },
    /// Make a copy of a zone set the active set.
    Activate {
        fabric: Fabric,
        set: Name,
    },
    /// Leave no set active.
    Deactivate {
        fabric: Fabric,
    },
    /// Set the flag of the default zone.
    Default {
        fabric: Fabric,
        flag: DefaultFlag,
    },
}

impl<A: Allocator + Copy> ZoningAction<A> {
    /// The first word of the lines that ask for it.
    pub(crate) fn keyword(&self) -> ZoningKeyword
        ensures { Zoning result ≡ keyword_of (zoning_step self.now) }
    {
        match self {
            ZoningAction::AliasPut { .. } => ZoningKeyword::AliasPut,
            ZoningAction::AliasDrop { .. } => ZoningKeyword::AliasDrop,
            ZoningAction::ZonePut { .. } => ZoningKeyword::ZonePut,
            ZoningAction::ZoneDrop { .. } => ZoningKeyword::ZoneDrop,
            ZoningAction::SetPut { .. } => ZoningKeyword::SetPut,
            ZoningAction::SetDrop { .. } => ZoningKeyword::SetDrop,
            ZoningAction::Activate { .. } => ZoningKeyword::Activate,
            ZoningAction::Deactivate { .. } => ZoningKeyword::Deactivate,
            ZoningAction::Default { .. } => ZoningKeyword::Default,
        }
    }
}
