//! Why a plan text is not read.
ghost use Rattle.std.specs.Prelude.{◌≡◌};
ghost use Rattle.fab_plans_text.specs.declared.fault.PlanFaultKind.TheVariants.{Memory};

use std::alloc::{AllocError, AllocFailed};

/// The first fault of a plan text, and its line.
#[derive(Clone, Copy, Debug, Drop)]
pub struct PlanFault {
    /// The number of the line, the first being 1, and 0 where the fault is the whole text's. Where
    /// there was no memory, the line that was being read, or 0.
    pub line: usize,
    /// What is wrong there.
    pub kind: PlanFaultKind,
}

/// What is wrong with a plan text or a line of it.
#[derive(Clone, Copy, Debug, PartialEq, Eq, Drop)]
pub enum PlanFaultKind {
    /// The text, or the printed form of its steps, has more than 65536 bytes.
    Text,
    /// There is no line.
    Empty,
    /// There are more than 200 lines.
    Steps,
    /// The first word of the line begins no step.
    Word,
    /// So many words may not follow the first.
    Count,
    /// A word is no fabric.
    Fabric,
    /// A word is no name.
    Name,
    /// A word is no world-wide name.
    Wwn,
    /// A word is no number in its range.
    Number,
    /// A word is no member, or an alias where there may be none.
    Member,
    /// A word is neither `permit` nor `deny`.
    Flag,
    /// There was no memory.
    Memory,
}

impl From<AllocError> for PlanFaultKind {
    ghost from_gives = { λ _ e. e ≡ Memory };

    fn from(_error: AllocError) -> PlanFaultKind {
        PlanFaultKind::Memory
    }
}

impl<T: Drop> From<AllocFailed<T>> for PlanFaultKind {
    ghost from_gives = { λ _ e. e ≡ Memory };

    fn from(_error: AllocFailed<T>) -> PlanFaultKind {
        PlanFaultKind::Memory
    }
}

impl From<AllocError> for PlanFault {
    ghost from_gives = { λ _ e. e.kind ≡ Memory };

    fn from(_error: AllocError) -> PlanFault {
        PlanFault {
            line: 0,
            kind: PlanFaultKind::Memory,
        }
    }
}

impl<T: Drop> From<AllocFailed<T>> for PlanFault {
    ghost from_gives = { λ _ e. e.kind ≡ Memory };

    fn from(_error: AllocFailed<T>) -> PlanFault {
        PlanFault {
            line: 0,
            kind: PlanFaultKind::Memory,
        }
    }
}
