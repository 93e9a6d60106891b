//! The row of a plan that comes to another state, or to another position.
ghost use Rattle.std.specs.Prelude.{◌≡◌, ◌↔◌, ℕ, List, [], ◌∷◌, IsTrue, IfOk, OnOk};
ghost use Rattle.fab_world.specs.fab_plans_base.Plans.{Spells, IsWithinLimits, plan_text};
ghost use Rattle.fab_store_rows.specs.declared.record_row.PlanState.TheVariants as states;
ghost use Rattle.fab_store_world.specs.Keys.{plan_order};
ghost use Rattle.fab_store_world.specs.Positions.{IsPosition};
ghost use Rattle.fab_store_world.specs.Standing.{IsPlanRow};
ghost use Rattle.fab_world.specs.Worlds.{WorldRows};
ghost use Rattle.fab_desk_rows.specs.Moves.{AreMoved};
ghost use Rattle.fab_desk_rows.specs.Places as spec;

use crate::moved::{Moved, none_moved};
use fab_reach_base::names::Name;
use fab_store_rows::{PlanRow, PlanState};
use fab_world::KeptPlan;
use std::alloc::{AllocError, Allocator};

/// A plan's state, and its position among the activations in force.
#[derive(Clone, Copy, PartialEq, Eq)]
pub struct Place {
    pub state: PlanState,
    pub position: u64,
}

/// Whether the activation of a plan in this state is in force.
fn is_active(state: PlanState) -> bool
    ensures { IsTrue result ↔ (state ≡ states.Active) }
{
    state == PlanState::Active
}

/// The position of a plan in this state, where an active one is the last of so many in force: 1 for
/// the first, or 0 where it is not in force.
fn position_in(state: PlanState, in_force: u64) -> u64
    ensures { (order : List (List ℕ)) (n : List ℕ) → spec.IsLastIfActive order in_force n state → IsPosition order n result }
{
    if is_active(state) { in_force } else { 0 }
}

/// The place of a plan in this state, where an active one is the last of so many in force.
pub fn place_in(state: PlanState, in_force: u64) -> Place
    ensures state { result.state ≡ state }
    ensures position { (order : List (List ℕ)) (n : List ℕ) → spec.IsLastIfActive order in_force n state → IsPosition order n result.position }
{
    Place {
        state,
        position: position_in(state, in_force),
    }
}

/// Whether the places are one.
fn is_same_place(place: &Place, other: &Place) -> bool
    ensures { IsTrue result ↔ (place.now ≡ other.now) }
{
    *place == *other
}

/// The row of the plan of this name at this place.
fn row_of<A: Allocator + Copy>(
    alloc: A,
    name: &Name,
    kept: &KeptPlan<A>,
    place: Place,
) -> Result<PlanRow<A>, AllocError>
    ensures row { IfOk result (λ row. row ≡ spec.row_at name.now kept.now place) }
    ensures spelt { OnOk result (IsWithinLimits kept.now.steps → Spells (plan_text kept.now.steps) kept.now.steps) }
{
    let plan = kept.plan();
    let text = String::from_str(alloc, plan.text.as_str())?;
    Ok(PlanRow {
        name: *name,
        author: plan.author,
        text,
        state: place.state,
        position: place.position,
    })
}

/// The row of the plan of this name at this place, and no other.
///
/// # Errors
/// `AllocError` where there is no memory.
pub fn one_row<A: Allocator + Copy>(
    alloc: A,
    name: &Name,
    kept: &KeptPlan<A>,
    place: Place,
) -> Result<Vec<PlanRow<A>, A>, AllocError>
    ensures row { IfOk result (λ rows. rows.items ≡ spec.row_at name.now kept.now place ∷ []) }
    ensures spelt { OnOk result (IsWithinLimits kept.now.steps → Spells (plan_text kept.now.steps) kept.now.steps) }
{
    let row = row_of(alloc, name, kept, place)?;
    let mut rows = Vec::new(alloc);
    rows.push(row)?;
    Ok(rows)
}

/// The rows of plans where one comes from a place to another: its row there goes, and its row here
/// comes, unless the places are one.
///
/// # Errors
/// `AllocError` where there is no memory.
pub fn row_moved<A: Allocator + Copy>(
    alloc: A,
    name: &Name,
    kept: &KeptPlan<A>,
    before: Place,
    after: Place,
) -> Result<Moved<PlanRow<A>, A>, AllocError>
    ensures { IfOk result (λ m. (w v : WorldRows) → spec.ComesTo w v name.now kept.now before after → AreMoved plan_order IsPlanRow w v m.removed.items m.added.items) }
{
    if is_same_place(&before, &after) {
        return Ok(none_moved(alloc));
    }
    let removed = one_row(alloc, name, kept, before)?;
    let added = one_row(alloc, name, kept, after)?;
    Ok(Moved { removed, added })
}
