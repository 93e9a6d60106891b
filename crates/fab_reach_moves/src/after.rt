//! Ports and their holders before a step and after it.
ghost use Rattle.std.specs.Prelude.{◌≡◌, List, Contains, MatchOption};
ghost use Rattle.std.specs.FinMap as map;
ghost use Rattle.fab_inventory.specs.declared.port.Port.{Port};
ghost use Rattle.fab_inventory.specs.Ports.{port_at};
ghost use Rattle.fab_inventory.specs.Holders.{holder_in};
ghost use Rattle.fab_reach_base.specs.Records.{Records};
ghost use Rattle.fab_reach_base.specs.Views.{seen};
ghost use Rattle.fab_reach_books.specs.declared.row.Row.{Row};
ghost use Rattle.fab_reach_books.specs.declared.row.Row.TheVariants as row_of;
ghost use Rattle.fab_reach_moves.specs.Inner.Listing.{NamesNoPort};
ghost use Rattle.fab_reach_moves.specs.Inner.Telling.{IsSideOf, IsTold};

use crate::told::{Side, Told};
use fab_inventory::Port;
use fab_names::{Name, Wwn};
use fab_reach_base::View;
use std::alloc::Allocator;

/// The port of this name that the rows say.
pub fn said_port<A: Allocator + Copy>(side: &Side<A>, name: &Wwn) -> Option<Port>
    ensures { (rows : List Row) → IsSideOf rows side.now → MatchOption result (NamesNoPort rows name.now) (λ p. Contains rows (row_of.Port p) × (p.name ≡ name.now)) }
{
    match side.ports.get(name) {
        Some(port) => Some(*port),
        None => None,
    }
}

/// The port of this name after the step.
pub fn port_after<A: Allocator + Copy>(
    before: &View<'_, A>,
    told: &Told<A>,
    name: &Wwn,
) -> Option<Port>
    ensures { (v : Records) → IsTold (seen before.now) v told.now → result ≡ port_at v.inventory.ports name.now }
{
    if let Some(port) = said_port(&told.come, name) {
        return Some(port);
    }
    if let Some(_port) = said_port(&told.gone, name) {
        return None;
    }
    before.inventory.port(name)
}

/// Who holds the port.
pub fn holder_before<A: Allocator + Copy>(before: &View<'_, A>, name: &Wwn) -> Option<Name>
    ensures { result ≡ holder_in (map.get (seen before.now).inventory.ports) name.now }
{
    let Some(port) = before.inventory.port(name) else {
        return None;
    };
    port.holder
}

/// Who holds the port after the step.
pub fn holder_after<A: Allocator + Copy>(
    before: &View<'_, A>,
    told: &Told<A>,
    name: &Wwn,
) -> Option<Name>
    ensures { (v : Records) → IsTold (seen before.now) v told.now → result ≡ holder_in (map.get v.inventory.ports) name.now }
{
    let Some(port) = port_after(before, told, name) else {
        return None;
    };
    port.holder
}
