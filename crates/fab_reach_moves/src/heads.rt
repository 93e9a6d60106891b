//! Whether storage groups are exposed before a step and after it, and whether they keep their units.
ghost use Rattle.std.specs.Prelude.{◌↔◌, List, Bool, IsTrue, MatchOption};
ghost use Rattle.fab_reach_base.specs.Records.{Records};
ghost use Rattle.fab_reach_base.specs.Views.{seen};
ghost use Rattle.fab_reach_books.specs.declared.row.Row.{Row};
ghost use Rattle.fab_reach_moves.specs.Inner.Listing.{IsExposedIn, SaysHeadAmong, SaysUnit, TellsUnits};
ghost use Rattle.fab_reach_moves.specs.Inner.Telling.{IsSideOf, IsTold};

use crate::told::{Side, Told};
use fab_names::Name;
use fab_reach_base::View;
use std::alloc::Allocator;

/// Whether the rows say that the storage group of this name is exposed, or hidden.
fn said_head<A: Allocator + Copy>(side: &Side<A>, name: &Name) -> Option<bool>
    ensures { (rows : List Row) → IsSideOf rows side.now → MatchOption result ((e : Bool) → ¬ SaysHeadAmong rows name.now e) (SaysHeadAmong rows name.now) }
{
    match side.heads.get(name) {
        Some(exposed) => Some(*exposed),
        None => None,
    }
}

/// Whether the storage group of this name is exposed before the step.
pub fn is_exposed_before<A: Allocator + Copy>(before: &View<'_, A>, name: &Name) -> bool
    ensures { IsTrue result ↔ IsExposedIn (seen before.now) name.now }
{
    match before.config.mapping().group(name) {
        Some(group) => group.is_exposed(),
        None => false,
    }
}

/// Whether the storage group of this name is exposed after the step.
pub fn is_exposed_after<A: Allocator + Copy>(
    before: &View<'_, A>,
    told: &Told<A>,
    name: &Name,
) -> bool
    ensures { (v : Records) → IsTold (seen before.now) v told.now → IsTrue result ↔ IsExposedIn v name.now }
{
    if let Some(exposed) = said_head(&told.come, name) {
        return exposed;
    }
    if let Some(_exposed) = said_head(&told.gone, name) {
        return false;
    }
    is_exposed_before(before, name)
}

/// Whether the rows say a unit of the storage group of this name.
fn says_unit<A: Allocator + Copy>(side: &Side<A>, name: &Name) -> bool
    ensures { (rows : List Row) → IsSideOf rows side.now → IsTrue result ↔ SaysUnit rows name.now }
{
    side.units.contains_key(name)
}

/// Whether the storage group of this name has the same units before and after the step, if it is there
/// both times.
pub fn has_same_units<A: Allocator + Copy>(told: &Told<A>, name: &Name) -> bool
    ensures { (w v : Records) → IsTold w v told.now → TellsUnits w v name.now result }
{
    if says_unit(&told.gone, name) {
        return false;
    }
    !says_unit(&told.come, name)
}
