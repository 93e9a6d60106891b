//! The kinds of rows of approvals and of changes to undo.

use fab_reach_base::names::Name;
use fab_world::load::Kind;
use fab_world::load::rows::{ApprovalRow, ConfigRow, Sign, UndoRow};

/// The approvals of plans, by plan and then by caller.
#[derive(Clone, Copy)]
pub struct Approvals;

impl Kind<ApprovalRow, ((Name, Name), u64)> for Approvals {
    ghost use Rattle.std.specs.Prelude.{refl};
    ghost use Rattle.fab_store_world.specs.Kinds.{approval_said, approval_row, approval_only};

    ghost said = { λ k. approval_said };

    ghost row_of = { λ k. approval_row };

    fn entry(&self, row: &ApprovalRow) -> Option<((Name, Name), u64)> {
        Some(((row.plan, row.caller), row.revision))
    }

    ghost says = { λ k e. refl };

    ghost only = { λ k. approval_only };
}

/// The rows that activations took away.
#[derive(Clone, Copy)]
pub struct TakenRows;

impl Kind<UndoRow, (Name, ConfigRow)> for TakenRows {
    ghost use Rattle.std.specs.Prelude.{refl};
    ghost use Rattle.fab_store_world.specs.Kinds.{taken_said, taken_row, taken_only};

    ghost said = { λ k. taken_said };

    ghost row_of = { λ k. taken_row };

    fn entry(&self, row: &UndoRow) -> Option<(Name, ConfigRow)> {
        match row.sign {
            Sign::Taken => Some((row.plan, row.row)),
            Sign::Added => None,
        }
    }

    ghost says = { λ k e. refl };

    ghost only = { λ k. taken_only };
}

/// The rows that activations added.
#[derive(Clone, Copy)]
pub struct AddedRows;

impl Kind<UndoRow, (Name, ConfigRow)> for AddedRows {
    ghost use Rattle.std.specs.Prelude.{refl};
    ghost use Rattle.fab_store_world.specs.Kinds.{added_said, added_row, added_only};

    ghost said = { λ k. added_said };

    ghost row_of = { λ k. added_row };

    fn entry(&self, row: &UndoRow) -> Option<(Name, ConfigRow)> {
        match row.sign {
            Sign::Added => Some((row.plan, row.row)),
            Sign::Taken => None,
        }
    }

    ghost says = { λ k e. refl };

    ghost only = { λ k. added_only };
}
