//! The active rows, listed by zone.
ghost use Rattle.std.specs.Prelude.{OnOk, IfOk};
ghost use Rattle.fab_inventory.specs.fab_lemmas.Lists.{IsListOf};
ghost use Rattle.fab_zoning_rows.specs.Rows.{row_cmp, IsRowOf};
ghost use Rattle.fab_zoning_rows.specs.Views.{seen_rows};
ghost use Rattle.fab_zoning_rows.specs.Inner.ByZone.{AddsListed, rows_of_member};

use fab_inventory::names::{Member, Name};
use std::alloc::{AllocError, Allocator};
use std::collections::{BTreeMap, BTreeSet};

/// Adds the rows of a member in these zones.
fn add_rows_of<A: Allocator + Copy>(
    rows: &mut BTreeSet<(Name, Member), A>,
    member: &Member,
    zones: &BTreeSet<Name, A>,
) -> Result<(), AllocError>
    ensures { OnOk result (AddsListed (rows_of_member member.now zones.now.keys) rows.old rows.new) }
{
    for zone in zones {
        rows.insert((*zone, *member))?;
    }
    Ok(())
}

/// The rows that have these zones at each member, by zone and then by member.
pub fn rows_by_zone<A: Allocator + Copy>(
    alloc: A,
    zones_by_member: &BTreeMap<Member, BTreeSet<Name, A>, A>,
) -> Result<BTreeSet<(Name, Member), A>, AllocError>
    ensures { IfOk result (λ rows. IsListOf row_cmp (IsRowOf (seen_rows zones_by_member.now.entries)) rows.keys) }
{
    let mut rows = BTreeSet::new(alloc);
    for (member, zones) in zones_by_member {
        add_rows_of(&mut rows, member, zones)?;
    }
    let _count = rows.len();
    Ok(rows)
}
