//! Why the desk refuses a command.
ghost use Rattle.std.specs.Prelude.{◌≡◌};
ghost use Rattle.fab_desk_base.specs.Words.{limit_word};

use fab_policy::Need;
use fab_reach_base::mapping::Gone;
use fab_reach_base::names::{Name, Wwn};
use fab_world::load::rows::PlanState;
use fab_world::plans::{Item, Refusal};

/// Why a command is refused. All but `Store` leave the world and its tables as they were; `Store`
/// does so at a read.
#[derive(Clone, Copy, Debug)]
pub enum DeskFault {
    /// Nobody has the token.
    NoCaller,
    /// The body says no command: the line with the first fault, 0 for the whole body.
    BadBody { line: usize },
    /// The policy denies it: the number of the first rule that applies and does not hold, from 1,
    /// its name, and the first of its needs that is not met; 0, `no-rule` and the need of a rule
    /// where none applies.
    Denied { rule: usize, name: Name, need: Need },
    /// What the command is about is not there, or a read is not for the caller.
    NotFound,
    /// The name is taken: by a holder of the other kind, or by another plan.
    Exists(Name),
    /// The first is held or used by the second: a port by another holder, and else by the first
    /// user by name.
    InUse { item: Item, by: Name },
    /// What the command uses is not there: a port or an array.
    Unknown(Item),
    /// There would be too many of something.
    Limit(DeskLimit),
    /// The plan is in this state, and the command is for another one.
    WrongState(PlanState),
    /// This plan was activated after it and is in force.
    NotLast(Name),
    /// The earlier configuration names this, which is gone.
    Gone(Gone),
    /// The caller is the author of the plan.
    OwnPlan,
    /// Two records of this port name differ.
    PortClash(Wwn),
    /// The records refuse the plan: the number of the step, from 1, or 0 for the end of the plan.
    Plan { step: usize, refusal: Refusal },
    /// There was no memory.
    Memory,
    /// The store refused.
    Store,
    /// The store refused a change before, and the desk was not opened again since.
    Halted,
}

/// What there would be too many of.
#[derive(Clone, Copy, Debug, Drop)]
pub enum DeskLimit {
    /// More than 4096 known ports.
    Ports,
    /// More than 2048 hosts and arrays.
    Holders,
    /// More than 4096 volumes.
    Volumes,
    /// More than 100000 plans, in whatever state.
    Plans,
    /// More than 65536 paths.
    Paths,
    /// More than 1000000000 changes.
    Changes,
}

impl DeskLimit {
    /// The word for what there would be too many of.
    pub fn word(self) -> &'static str
        ensures { result.now ≡ limit_word self }
    {
        match self {
            DeskLimit::Ports => "ports",
            DeskLimit::Holders => "holders",
            DeskLimit::Volumes => "volumes",
            DeskLimit::Plans => "plans",
            DeskLimit::Paths => "paths",
            DeskLimit::Changes => "changes",
        }
    }
}
