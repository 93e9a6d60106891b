//! What holds of plan texts and of the printed forms of steps.
ghost use Rattle.std.specs.Prelude.{◌≡◌, ℕ, List, All};
ghost use Rattle.fab_plans_base.specs.Steps.{PlanStep};
ghost use Rattle.fab_plans_base.specs.Plans.{IsStep, IsWithinLimits, Spells, plan_text};

/// A text spells one plan at most.
pub fn one_plan_a_text()
    ensures { (text : List ℕ) (steps others : List PlanStep) → Spells text steps → Spells text others → steps ≡ others }
{}

/// Each step of a plan that some text spells is one that some line spells, as each `Step` is.
pub fn plans_have_steps()
    ensures { (text : List ℕ) (steps : List PlanStep) → Spells text steps → All IsStep steps }
{}

/// Steps with equal printed forms are equal.
pub fn equal_printed_forms_equal_steps()
    ensures { (steps others : List PlanStep) → All IsStep steps → All IsStep others → plan_text steps ≡ plan_text others → steps ≡ others }
{}

/// What is printed of steps within the limits spells them.
pub fn printed_steps_are_read()
    ensures { (steps : List PlanStep) → All IsStep steps → IsWithinLimits steps → Spells (plan_text steps) steps }
{}

/// What is printed of steps that some text spells spells them too.
pub fn printed_plan_is_read()
    ensures { (text : List ℕ) (steps : List PlanStep) → Spells text steps → Spells (plan_text steps) steps }
{}
