//! The steps of plans from their texts.
ghost use Rattle.std.specs.Prelude.{◌≡◌, List, MatchOption, IfOk, IsTrue, ◌↔◌};
ghost use Rattle.fab_plans_base.specs.Steps.{PlanStep};
ghost use Rattle.fab_plans_base.specs.Plans.{plan_text};
ghost use Rattle.fab_plans_text.specs.KeptTexts.{IsTextOf};

use crate::{PlanFaultKind, Step, print_plan, read_plan};
use std::alloc::{AllocError, Allocator};

/// Whether the text is the printed form of the steps.
fn is_printed<A: Allocator + Copy>(
    alloc: A,
    text: &str,
    steps: &[Step<A>],
) -> Result<bool, AllocError>
    ensures { IfOk result (λ is. IsTrue is ↔ (text.now ≡ plan_text steps.now)) }
{
    let printed = print_plan(alloc, steps)?;
    Ok(printed.as_str() == text)
}

/// The steps whose printed form the text is, or none where it is no plan's.
///
/// # Errors
/// `AllocError` where there is no memory.
pub fn steps_of<A: Allocator + Copy>(
    alloc: A,
    text: &str,
) -> Result<Option<Vec<Step<A>, A>>, AllocError>
    ensures { IfOk result (λ found. MatchOption found ((steps : List PlanStep) → ¬ IsTextOf text.now steps) (λ steps. IsTextOf text.now steps.items)) }
{
    match read_plan(alloc, text) {
        Ok(steps) => {
            if is_printed(alloc, text, &steps)? {
                return Ok(Some(steps));
            }
            Ok(None)
        }
        Err(fault) => {
            if fault.kind == PlanFaultKind::Memory {
                return Err(AllocError);
            }
            Ok(None)
        }
    }
}
