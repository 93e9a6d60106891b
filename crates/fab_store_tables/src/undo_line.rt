//! Lines of the table of changes to undo.
ghost use Rattle.std.specs.Prelude.{◌≡◌, MatchOption, IfSome, IfOk};
ghost use Rattle.fab_store_rows.specs.declared.record_row.Sign.{Sign};
ghost use Rattle.fab_store_rows.specs.declared.record_row.UndoRow.{UndoRow};
ghost use Rattle.fab_store_tables.specs.UndoLines.{ShowsUndo, HasUnitInRange, sign_text};

use crate::read::read_entry;
use crate::write::print_entry;
use fab_store_columns_base::{name_text, read_name};
use fab_store_rows::{Sign, UndoRow};
use std::alloc::{AllocError, Allocator};
use std::marker::Model;

/// A line of `undo`. A contract sees its columns.
#[derive(Drop)]
pub struct UndoLine<A: Allocator + Copy> {
    /// The name of the plan.
    pub plan: String<A>,
    /// `-` for a row that was taken away, `+` for one that was added.
    pub sign: String<A>,
    /// The name of a table and the columns of a row of it in their order, joined by one space. The
    /// row is one of a configuration: a fabric's setting in `meta`, or of `zoning`, `active`,
    /// `groups` or `group_parts`.
    pub entry: String<A>,
}

impl<A: Allocator + Copy> Model for UndoLine<A> {
    ghost use Rattle.std.specs.Prelude.{string_bytes};
    ghost use Rattle.fab_store_tables.specs.UndoLines.{UndoColumns};

    ghost Value = { UndoColumns };

    ghost view = { λ l. record { plan = string_bytes l.plan; sign = string_bytes l.sign; entry = string_bytes l.entry } };
}

/// The sign in a text.
fn read_sign(text: &str) -> Option<Sign>
    ensures { MatchOption result ((s : Sign) → ¬ (text.now ≡ sign_text s)) (λ s. text.now ≡ sign_text s) }
{
    match text {
        "-" => Some(Sign::Taken),
        "+" => Some(Sign::Added),
        _ => None,
    }
}

/// The text of a sign.
fn sign_word(sign: Sign) -> &'static str
    ensures { result.now ≡ sign_text sign }
{
    match sign {
        Sign::Taken => "-",
        Sign::Added => "+",
    }
}

impl<A: Allocator + Copy> UndoLine<A> {
    /// The row that the line shows, if it shows one; it can be printed again. It takes no memory.
    #[tactic(auto, using(crate::proofs::Range::in_range))]
    pub fn read(&self) -> Option<UndoRow>
        ensures row { MatchOption result ((r : UndoRow) → ¬ ShowsUndo self.now r) (ShowsUndo self.now) }
        ensures range { IfSome result (λ r. HasUnitInRange r.row) }
    {
        let Some(plan) = read_name(self.plan.as_str()) else {
            return None;
        };
        let Some(sign) = read_sign(self.sign.as_str()) else {
            return None;
        };
        let Some(row) = read_entry(self.entry.as_str()) else {
            return None;
        };
        Some(UndoRow { plan, sign, row })
    }

    /// The line that shows the row, whose unit, if it is one, is at most 16383.
    ///
    /// # Errors
    /// `AllocError` where there is no memory.
    pub fn print(alloc: A, row: &UndoRow) -> Result<Self, AllocError>
        requires { HasUnitInRange row.now.row }
        ensures { IfOk result (λ line. ShowsUndo line row.now) }
    {
        Ok(UndoLine {
            plan: name_text(alloc, &row.plan)?,
            sign: sign_word(row.sign).to_string(alloc)?,
            entry: print_entry(alloc, &row.row)?,
        })
    }
}
