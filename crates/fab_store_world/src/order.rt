//! The order of the activations in force, from the positions that rows of plans have.
ghost use Rattle.std.specs.Prelude.{◌≡◌, ◌≢◌, ◌↔◌, List, ℕ, IsTrue, MatchOption, IfOk, OnOk};
ghost use Rattle.fab_reach_base.specs.fab_lemmas.Lists.{IsListOf};
ghost use Rattle.fab_reach_base.specs.Adding.{Adds};
ghost use Rattle.fab_store_world.specs.Orders.{IsOrderOf, IsActive, IsPlaced, IsAt, HasPlace, HaveNoPlace, numbered, place_cmp};

use fab_reach_base::names::Name;
use fab_world::load::rows::{PlanRow, PlanState};
use std::alloc::{AllocError, Allocator};
use std::collections::BTreeSet;

/// Whether the plan is active.
fn is_active<A: Allocator>(row: &PlanRow<A>) -> bool
    ensures { IsTrue result ↔ IsActive row.now }
{
    row.state == PlanState::Active
}

/// Adds the position and the name of the plan, where it is active.
fn add_place<A: Allocator + Copy>(
    places: &mut BTreeSet<(u64, Name), A>,
    row: &PlanRow<A>,
) -> Result<(), AllocError>
    ensures { OnOk result (Adds (IsAt row.now) (HasPlace places.old) (HasPlace places.new)) }
{
    if !is_active(row) {
        return Ok(());
    }
    places.insert((row.position, row.name))?;
    Ok(())
}

/// The names of active plans, each with its position.
fn places_of<A: Allocator + Copy>(
    alloc: A,
    rows: &[PlanRow<A>],
) -> Result<BTreeSet<(u64, Name), A>, AllocError>
    ensures { IfOk result (λ places. IsListOf place_cmp (IsPlaced rows.now) places.keys) }
{
    let mut places = BTreeSet::new(alloc);
    for row in rows {
        add_place(&mut places, row)?;
    }
    let _count = places.len();
    Ok(places)
}

/// Whether the plan is active, or has the position 0.
fn is_placed<A: Allocator>(row: &PlanRow<A>) -> bool
    ensures { IsTrue result ↔ (¬ IsActive row.now → row.now.position ≡ 0) }
{
    if is_active(row) {
        return true;
    }
    row.position == 0
}

/// Whether each plan that is not active has the position 0.
fn have_no_place<A: Allocator>(rows: &[PlanRow<A>]) -> bool
    ensures { IsTrue result ↔ HaveNoPlace rows.now }
{
    rows.iter().all(|row| is_placed(row))
}

/// The names in the order of their positions, where these are the numbers from 1 on.
fn order_from<A: Allocator + Copy>(
    alloc: A,
    places: &BTreeSet<(u64, Name), A>,
) -> Result<Option<Vec<Name, A>>, AllocError>
    ensures { IfOk result (λ found. MatchOption found ((order : List (List ℕ)) → places.now.keys ≢ numbered 1 order) (λ order. places.now.keys ≡ numbered 1 order.items)) }
{
    let mut order = Vec::new(alloc);
    for place in places {
        if place.0 == 0 {
            return Ok(None);
        }
        if place.0 - 1 != order.len() as u64 {
            return Ok(None);
        }
        order.push(place.1)?;
    }
    Ok(Some(order))
}

/// The order of the activations in force that rows of plans tell: the names of the active plans by
/// their positions. None where there is no such order: where the positions of active plans are not
/// the numbers from 1 on, each once, or another plan has a position.
///
/// # Errors
/// `AllocError` where there is no memory.
pub fn order_of<A: Allocator + Copy>(
    alloc: A,
    rows: &[PlanRow<A>],
) -> Result<Option<Vec<Name, A>>, AllocError>
    ensures { IfOk result (λ found. MatchOption found ((order : List (List ℕ)) → ¬ IsOrderOf rows.now order) (λ order. IsOrderOf rows.now order.items)) }
{
    if !have_no_place(rows) {
        return Ok(None);
    }
    let places = places_of(alloc, rows)?;
    match order_from(alloc, &places)? {
        Some(order) => Ok(Some(order)),
        None => Ok(None),
    }
}
