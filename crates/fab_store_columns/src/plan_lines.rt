//! Lines of the table of plans.
ghost use Rattle.std.specs.Prelude.{◌≡◌, ◌≤◌, MatchOption, IfOk};
ghost use Rattle.fab_store_rows.specs.declared.record_row.PlanState.{PlanState};
ghost use Rattle.fab_store_rows.specs.PlanEntries.{PlanEntry};
ghost use Rattle.fab_store_rows.specs.PlanStates.{state_text};
ghost use Rattle.fab_store_columns_base.specs.Limits.{most_number};
ghost use Rattle.fab_store_columns.specs.PlanLines.{ShowsPlan};

use fab_store_columns_base::{MOST_NUMBER, name_text, read_count, read_name};
use fab_store_rows::{PlanRow, PlanState};
use std::alloc::{AllocError, Allocator};
use std::marker::Model;

/// A line of `plans`. A contract sees its columns.
#[derive(Drop)]
pub struct PlanLine<A: Allocator + Copy> {
    pub name: String<A>,
    pub author: String<A>,
    /// The printed form of the plan's steps; reading takes it as it stands.
    pub text: String<A>,
    /// `staged`, `active`, `rolled-back` or `withdrawn`.
    pub state: String<A>,
    /// 1 for the oldest activation in force, 2 for the next; 0 where the plan is not active.
    pub position: i64,
}

impl<A: Allocator + Copy> Model for PlanLine<A> {
    ghost use Rattle.std.specs.Prelude.{string_bytes};
    ghost use Rattle.fab_store_columns.specs.PlanLines.{PlanColumns};

    ghost Value = { PlanColumns };

    ghost view = { λ l. record { name = string_bytes l.name; author = string_bytes l.author; text = string_bytes l.text; state = string_bytes l.state; position = l.position } };
}

/// The state in a text.
fn read_state(text: &str) -> Option<PlanState>
    ensures { MatchOption result ((s : PlanState) → ¬ (text.now ≡ state_text s)) (λ s. text.now ≡ state_text s) }
{
    match text {
        "staged" => Some(PlanState::Staged),
        "active" => Some(PlanState::Active),
        "rolled-back" => Some(PlanState::RolledBack),
        "withdrawn" => Some(PlanState::Withdrawn),
        _ => None,
    }
}

impl<A: Allocator + Copy> PlanLine<A> {
    /// The row that the line shows, if it shows one, with the line's own text. It takes no memory.
    pub fn read(self) -> Option<PlanRow<A>>
        ensures { MatchOption result ((r : PlanEntry) → ¬ ShowsPlan self r) (ShowsPlan self) }
    {
        let name = read_name(self.name.as_str())?;
        let author = read_name(self.author.as_str())?;
        let Some(state) = read_state(self.state.as_str()) else {
            return None;
        };
        let Some(position) = read_count(&self.position, 0, MOST_NUMBER) else {
            return None;
        };
        Some(PlanRow {
            name,
            author,
            text: self.text,
            state,
            position,
        })
    }

    /// The line that shows the row, whose position is one that a database keeps.
    ///
    /// # Errors
    /// `AllocError` where there is no memory.
    pub fn print(alloc: A, row: &PlanRow<A>) -> Result<Self, AllocError>
        requires { row.now.position ≤ most_number }
        ensures { IfOk result (λ line. ShowsPlan line row.now) }
    {
        Ok(PlanLine {
            name: name_text(alloc, &row.name)?,
            author: name_text(alloc, &row.author)?,
            text: row.text.as_str().to_string(alloc)?,
            state: row.state.word().to_string(alloc)?,
            position: row.position as i64,
        })
    }
}
