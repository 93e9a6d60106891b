//! Why a step of a plan, or a plan as a whole, is refused.
ghost use Rattle.std.specs.Prelude.{◌≡◌};
ghost use Rattle.fab_plans.specs.Words.{step_limit_word};

use fab_reach_base::mapping::Nexus;
use fab_reach_base::names::{Name, Wwn};

/// What a refusal names.
#[derive(Clone, Copy, Debug, Drop)]
pub enum Item {
    /// An alias, a zone, a zone set, a host, an array, a volume, a host group or a storage group.
    Name(Name),
    /// A port.
    Port(Wwn),
    /// A logical unit number, 0 to 16383.
    Unit(u16),
}

/// What there would be too many of.
#[derive(Clone, Copy, Debug, Drop)]
pub enum StepLimit {
    /// More than 2048 aliases of a fabric.
    Aliases,
    /// More than 2048 zones of a fabric.
    Zones,
    /// More than 64 zone sets of a fabric.
    Sets,
    /// More than 65536 active rows of a fabric.
    Active,
    /// More than 2048 host groups.
    HostGroups,
    /// More than 2048 storage groups.
    Groups,
    /// More than 64 host groups, 32 targets or 256 units of a storage group.
    Parts,
}

impl StepLimit {
    /// The word for what there would be too many of.
    pub fn word(self) -> &'static str
        ensures { result.now ≡ step_limit_word self }
    {
        match self {
            StepLimit::Aliases => "aliases",
            StepLimit::Zones => "zones",
            StepLimit::Sets => "sets",
            StepLimit::Active => "active",
            StepLimit::HostGroups => "host-groups",
            StepLimit::Groups => "groups",
            StepLimit::Parts => "parts",
        }
    }
}

/// Why a plan is refused: what the records do not allow.
#[derive(Clone, Copy, Debug, Drop)]
pub enum Refusal {
    /// There is a storage group of this name already.
    Exists(Name),
    /// What the step names is not there: not in the records, or not in the storage group that the
    /// step takes it from.
    Unknown(Item),
    /// The port or the volume is not on the array of the storage group.
    WrongArray(Item),
    /// Another volume is mapped at this logical unit number of this storage group.
    UnitTaken { group: Name, unit: u16 },
    /// The first is used by the second, the first user by name.
    InUse { name: Name, by: Name },
    /// There would be too many of something.
    Limit(StepLimit),
    /// After all steps a host would meet two volumes here: the least such nexus.
    Clash(Nexus),
}

/// Why a step is not done.
#[derive(Clone, Copy, Debug, Drop)]
pub(crate) enum StepFault {
    /// The records refuse it.
    Refused(Refusal),
    /// There was no memory.
    Memory,
}

/// Why a trial gives no configuration.
#[derive(Clone, Copy, Debug, Drop)]
pub enum TrialFault {
    /// The number of the first step that is refused, the first being 1, and why; or 0 and the
    /// least clash, where each step is done and a clash stands at the end.
    Refused { step: usize, refusal: Refusal },
    /// There was no memory.
    Memory,
}
