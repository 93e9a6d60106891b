//! The rows of a zone set, with aliases replaced by their members.
ghost use Rattle.std.specs.Prelude.{◌≡◌, ◌≤◌, OnOk, IfOk, IfErr};
ghost use Rattle.std.specs.FinSet as set;
ghost use Rattle.fab_names.specs.Orders.{name_cmp, member_cmp};
ghost use Rattle.fab_zoning_rows.specs.fab_lemmas.Adding.{Among};
ghost use Rattle.fab_zoning_rows.specs.Limits.{most_rows};
ghost use Rattle.fab_zoning.specs.Inner.Adding.{AddsAll, StopsAt, IsResolvedFault, PlainRow, AliasRow, ZoneRow};

use crate::{ZoningFault, ZoningLimit};
use fab_names::{Member, Name};
use fab_zoning_rows::{ActiveRows, MOST_ROWS};
use std::alloc::Allocator;
use std::collections::{BTreeMap, BTreeSet};

/// Adds a row, unless it would be one too many: then it is added, and the limit answered.
fn add_row<A: Allocator + Copy>(
    rows: &mut ActiveRows<A>,
    zone: Name,
    member: Member,
) -> Result<(), ZoningFault>
    requires { set.len rows.old ≤ most_rows }
    ensures ok { OnOk result (AddsAll (λ row. row ≡ (zone, member)) rows.old rows.new) }
    ensures err { IfErr result (StopsAt (λ row. row ≡ (zone, member)) rows.old rows.new) }
{
    rows.put(zone, member)?;
    if rows.count() > MOST_ROWS {
        return Err(ZoningFault::Limit(ZoningLimit::Active));
    }
    Ok(())
}

/// Adds the members that are no aliases.
fn add_plain<A: Allocator + Copy>(
    rows: &mut ActiveRows<A>,
    zone: Name,
    members: &BTreeSet<Member, A>,
) -> Result<(), ZoningFault>
    requires { set.len rows.old ≤ most_rows }
    ensures ok { OnOk result (AddsAll (Among member_cmp members.now (PlainRow zone)) rows.old rows.new) }
    ensures err { IfErr result (StopsAt (Among member_cmp members.now (PlainRow zone)) rows.old rows.new) }
{
    for member in members {
        match *member {
            Member::Alias(_) => {}
            plain => add_row(rows, zone, plain)?,
        }
    }
    Ok(())
}

/// Adds the members of the aliases that the members name.
fn add_aliased<A: Allocator + Copy>(
    rows: &mut ActiveRows<A>,
    aliases: &BTreeMap<Name, BTreeSet<Member, A>, A>,
    zone: Name,
    members: &BTreeSet<Member, A>,
) -> Result<(), ZoningFault>
    requires { set.len rows.old ≤ most_rows }
    ensures ok { OnOk result (AddsAll (Among member_cmp members.now (AliasRow aliases.now zone)) rows.old rows.new) }
    ensures err { IfErr result (StopsAt (Among member_cmp members.now (AliasRow aliases.now zone)) rows.old rows.new) }
{
    for member in members {
        if let Member::Alias(alias) = *member {
            if let Some(own) = aliases.get(&alias) {
                add_plain(rows, zone, own)?;
            }
        }
    }
    Ok(())
}

/// The rows of the zones of a set.
///
/// # Errors
/// `Limit(Active)` where there are more than 65536, of which no more than one past the limit are
/// built, and `Memory`.
pub fn resolved<A: Allocator + Copy>(
    alloc: A,
    aliases: &BTreeMap<Name, BTreeSet<Member, A>, A>,
    zones: &BTreeMap<Name, BTreeSet<Member, A>, A>,
    zone_set: &BTreeSet<Name, A>,
) -> Result<ActiveRows<A>, ZoningFault>
    ensures ok { IfOk result (λ rows. AddsAll (Among name_cmp zone_set.now (ZoneRow aliases.now zones.now)) set.empty rows) }
    ensures err { IfErr result (IsResolvedFault (Among name_cmp zone_set.now (ZoneRow aliases.now zones.now))) }
{
    let mut rows = ActiveRows::new(alloc);
    for zone in zone_set {
        if let Some(members) = zones.get(zone) {
            add_plain(&mut rows, *zone, members)?;
            add_aliased(&mut rows, aliases, *zone, members)?;
        }
    }
    Ok(rows)
}
