//! Laws of outcomes: a law is the contract of a function that does nothing.
ghost use Rattle.std.specs.Prelude.{◌≡◌, ℕ, List};
ghost use Rattle.fab_reach_base.specs.fab_inventory.Inventories.{InventoryRows};
ghost use Rattle.fab_reach_base.specs.Records.{ConfigRows};
ghost use Rattle.fab_plans_text.specs.fab_plans_base.Steps.{PlanStep};
ghost use Rattle.fab_plans.specs.Outcomes.{IsOutcome, IsRefusedOutcome};
ghost use Rattle.fab_plans.specs.declared.fault.Refusal.{Refusal};

/// Steps lead to one configuration at most.
pub fn one_outcome()
    ensures { (v : InventoryRows) (steps : List PlanStep) (old a b : ConfigRows) → IsOutcome v steps old a → IsOutcome v steps old b → a ≡ b }
{}

/// Steps are refused in one way at most: at one step, or at the end, with one refusal.
pub fn one_refused_outcome()
    ensures { (v : InventoryRows) (steps : List PlanStep) (old : ConfigRows) (m n : ℕ) (r q : Refusal) → IsRefusedOutcome v steps old m r → IsRefusedOutcome v steps old n q → (m ≡ n) × (r ≡ q) }
{}

/// Steps that lead to a configuration are not refused.
pub fn outcome_is_not_refused()
    ensures { (v : InventoryRows) (steps : List PlanStep) (old a : ConfigRows) (n : ℕ) (r : Refusal) → IsOutcome v steps old a → ¬ IsRefusedOutcome v steps old n r }
{}
