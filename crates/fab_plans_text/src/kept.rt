//! The steps of a plan, kept as their printed form.
ghost use Rattle.std.specs.Prelude.{◌≡◌, ◌↔◌, List, [], IsTrue, IfOk, MatchOption};
ghost use Rattle.std.specs.String.{string_bytes};
ghost use Rattle.fab_plans_base.specs.Steps.{PlanStep};
ghost use Rattle.fab_plans_base.specs.Plans.{IsWithinLimits, Spells, plan_text};
ghost use Rattle.fab_plans_text.specs.KeptTexts.{IsTextOf, IsKeptFor, HasSteps, HasSteps-prop};

use crate::spelled::steps_of;
use crate::{Step, print_plan, read_plan};
use std::alloc::{AllocError, Allocator};
use std::marker::Model;

/// The printed form of a plan's steps, of which there may be none. It takes the memory of its bytes,
/// however many steps there are.
///
/// A contract sees it as the steps that it spells.
pub struct PlanText<A: Allocator + Copy> {
    text: String<A>,
    ghost spelled: { HasSteps (string_bytes text) } by { HasSteps-prop (string_bytes text) },
}

// It is written out, so that a caller does not prove again how each part is dropped.
impl<A: Allocator + Copy> Drop for PlanText<A> {
    fn drop(self) {
        let PlanText { text: _ } = self;
    }
}

impl<A: Allocator + Copy> Model for PlanText<A> {
    ghost use Rattle.std.specs.Prelude.{List};
    ghost use Rattle.std.specs.String.{string_bytes};
    ghost use Rattle.fab_plans_base.specs.Steps.{PlanStep};
    ghost use Rattle.fab_plans_text.specs.KeptTexts.{IsKeptFor};

    ghost Value = { List PlanStep };

    ghost view = { λ t. t.spelled.0 };

    ghost invariant = { λ t. IsKeptFor (string_bytes t.text) t.spelled.0 };
}

impl<A: Allocator + Copy> PlanText<A> {
    /// A text that is kept for some steps.
    fn keep(text: String<A>) -> Self
        requires { (steps : List PlanStep) × IsKeptFor (string_bytes text) steps }
        ensures { (steps : List PlanStep) → IsKeptFor (string_bytes text) steps → result ≡ steps }
    {
        PlanText { text }
    }

    /// The text of no steps. It takes no memory.
    pub fn blank(alloc: A) -> Self
        ensures { result ≡ [] }
    {
        PlanText::keep(String::new(alloc))
    }

    /// The printed form of steps.
    ///
    /// # Errors
    /// `AllocError` where there is no memory.
    pub fn of(alloc: A, steps: &[Step<A>]) -> Result<Self, AllocError>
        requires { IsWithinLimits steps.now }
        ensures { IfOk result (λ text. text ≡ steps.now) }
    {
        let printed = print_plan(alloc, steps)?;
        // The printed one has room to grow, and a copy of it has none.
        let text = String::from_str(alloc, printed.as_str())?;
        Ok(PlanText::keep(text))
    }

    /// A text as it is kept, where it is the printed form of a plan's steps; else none.
    ///
    /// # Errors
    /// `AllocError` where there is no memory.
    pub fn read(alloc: A, text: &str) -> Result<Option<Self>, AllocError>
        ensures { IfOk result (λ found. MatchOption found ((steps : List PlanStep) → ¬ IsTextOf text.now steps) (λ steps. IsTextOf text.now steps)) }
    {
        let Some(_steps) = steps_of(alloc, text)? else {
            return Ok(None);
        };
        let text = String::from_str(alloc, text)?;
        Ok(Some(PlanText::keep(text)))
    }

    /// The steps, read from the text.
    ///
    /// # Errors
    /// `AllocError` where there is no memory.
    pub fn steps(&self, alloc: A) -> Result<Vec<Step<A>, A>, AllocError>
        ensures { IfOk result (λ steps. steps.items ≡ self.now) }
    {
        if self.text.len() == 0 {
            return Ok(Vec::new(alloc));
        }
        match read_plan(alloc, self.text.as_str()) {
            Ok(steps) => Ok(steps),
            Err(_) => Err(AllocError),
        }
    }

    /// The text itself.
    pub fn as_str(&self) -> &str
        ensures printed { result.now ≡ plan_text self.now }
        ensures spelt { IsWithinLimits self.now → Spells result.now self.now }
    {
        self.text.as_str()
    }

    /// Whether there are steps, 1 to 200 of them. The text is never longer than a plan's may be.
    pub fn is_within_limits(&self) -> bool
        ensures { IsTrue result ↔ IsWithinLimits self.now }
    {
        self.text.len() > 0
    }

    /// Whether the texts spell the same steps. It takes no memory.
    pub fn is_same(&self, other: &Self) -> bool
        ensures { IsTrue result ↔ (self.now ≡ other.now) }
    {
        let text = self.text.as_str();
        let others = other.text.as_str();
        text == others
    }
}
