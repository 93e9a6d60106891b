//! Rows of the tables of plans, approvals, changes to undo, and paths.
ghost use Rattle.std.specs.Prelude.{◌≡◌};
ghost use Rattle.fab_store_rows.specs.PlanStates.{state_text};

use crate::ConfigRow;
use fab_reach_base::Path;
use fab_reach_base::names::Name;
use std::alloc::Allocator;
use std::marker::Model;

/// The state of a plan.
#[derive(Clone, Copy, Debug, PartialEq, Eq)]
pub enum PlanState {
    /// It waits for its activation.
    Staged,
    /// It was activated, and its activation is in force.
    Active,
    /// Its activation was undone.
    RolledBack,
    /// It was withdrawn before it was activated.
    Withdrawn,
}

impl PlanState {
    /// The word for the state: `staged`, `active`, `rolled-back` or `withdrawn`.
    pub fn word(self) -> &'static str
        ensures { result.now ≡ state_text self }
    {
        match self {
            PlanState::Staged => "staged",
            PlanState::Active => "active",
            PlanState::RolledBack => "rolled-back",
            PlanState::Withdrawn => "withdrawn",
        }
    }
}

/// A plan. A contract sees it as a `PlanEntry`.
pub struct PlanRow<A: Allocator> {
    /// Its name.
    pub name: Name,
    /// Who staged it.
    pub author: Name,
    /// The printed form of its steps.
    pub text: String<A>,
    /// Its state.
    pub state: PlanState,
    /// Its place among the activations in force, 1 for the oldest; 0 where it is not active.
    pub position: u64,
}

// It is written out, so that a caller does not prove again how each part is dropped.
impl<A: Allocator> Drop for PlanRow<A> {
    fn drop(self) {
        let PlanRow {
            name: _,
            author: _,
            text: _,
            state: _,
            position: _,
        } = self;
    }
}

impl<A: Allocator> Model for PlanRow<A> {
    ghost use Rattle.std.specs.Prelude.{string_bytes};
    ghost use Rattle.fab_store_rows.specs.PlanEntries.{PlanEntry};

    ghost Value = { PlanEntry };

    ghost view = { λ r. record { name = r.name; author = r.author; text = string_bytes r.text; state = r.state; position = r.position } };
}

/// An approval of a plan.
#[derive(Clone, Copy)]
pub struct ApprovalRow {
    /// The name of the plan.
    pub plan: Name,
    /// Who approved.
    pub caller: Name,
    /// The revision at which it was given.
    pub revision: u64,
}

/// What an activation did with a row.
#[derive(Clone, Copy)]
pub enum Sign {
    /// It took the row away.
    Taken,
    /// It added the row.
    Added,
}

/// A row that the activation of an active plan took away or added.
#[derive(Clone, Copy)]
pub struct UndoRow {
    /// The name of the plan.
    pub plan: Name,
    /// Whether the row was taken away or added.
    pub sign: Sign,
    /// The row.
    pub row: ConfigRow,
}

/// A path of a host.
///
/// Ordered by host, then by path.
#[derive(Clone, Copy, PartialEq, Eq, PartialOrd, Ord)]
pub struct PathRow {
    /// The host that holds the path's initiator.
    pub host: Name,
    /// The path.
    pub path: Path,
}
