//! Unit clashes that come with the rows that steps change.
ghost use Rattle.std.specs.Prelude.{◌≡◌, ◌↔◌, ℕ, List, Contains, IsTrue, IfOk, MatchOption};
ghost use Rattle.fab_mapping.specs.Mappings.{HasNoClash, IsLeastClash};
ghost use Rattle.fab_store_rows.specs.Differences.{IsDifference};
ghost use Rattle.fab_store_rows.specs.declared.config_row.ConfigRow.{ConfigRow as Row};
ghost use Rattle.fab_store_drafts.specs.There.{IsClearAt, IsTouched};
ghost use Rattle.fab_plans_rows.specs.Inner.Mapped.{IsHostRow, IsOfMapping, TouchesOnly, group_named};

use crate::beside::is_clear_at;
use fab_mapping::{Mapping, Nexus};
use fab_names::Name;
use fab_reach_base::Config;
use fab_store_rows::{ConfigRow, GroupRow, PartRow, RowDifference};
use std::alloc::{AllocError, Allocator};

/// Whether the row is of the mapping.
fn is_of_mapping(row: &ConfigRow) -> bool
    ensures { IsTrue result ↔ IsOfMapping row.now }
{
    match row {
        ConfigRow::Group(_) | ConfigRow::Part(_) => true,
        ConfigRow::Setting(_) | ConfigRow::Zoning(_) | ConfigRow::Active(_) => false,
    }
}

/// Whether some row is of the mapping.
fn are_of_mapping(rows: &[ConfigRow]) -> bool
    ensures { IsTrue result ↔ ((r : Row) × Contains rows.now r × IsOfMapping r) }
{
    rows.iter().any(|row| is_of_mapping(row))
}

/// The storage group whose head or part the row is.
fn group_in(row: &ConfigRow) -> Option<Name>
    ensures { result ≡ group_named row.now }
{
    match row {
        ConfigRow::Group(GroupRow::Storage(row)) => Some(row.name),
        ConfigRow::Part(PartRow::Storage(name, _)) => Some(*name),
        _ => None,
    }
}

/// Whether the row is a host of a host group.
fn is_host(row: &ConfigRow) -> bool
    ensures { IsTrue result ↔ IsHostRow row.now }
{
    match row {
        ConfigRow::Part(PartRow::Host(_, _)) => true,
        _ => false,
    }
}

/// Whether the row touches no storage group but that of this name.
fn touches_only(row: &ConfigRow, name: &Name) -> bool
    ensures { IsTrue result → TouchesOnly row.now name.now }
{
    if is_host(row) {
        return false;
    }
    match group_in(row) {
        Some(named) => named == *name,
        None => true,
    }
}

/// Whether the rows touch no storage group but that of this name.
fn touch_only(rows: &[ConfigRow], name: &Name) -> bool
    ensures { IsTrue result → (r : Row) → Contains rows.now r → TouchesOnly r name.now }
{
    rows.iter().all(|row| touches_only(row, name))
}

/// Whether the rows touch one storage group at most, and that is clear of the others.
fn are_clear<A: Allocator + Copy>(mapping: &Mapping<A>, rows: &[ConfigRow]) -> bool
    ensures { IsTrue result → (n : List ℕ) → IsTouched mapping.now rows.now n → IsClearAt mapping.now n }
{
    let Some(name) = rows.iter().find_map(|row| group_in(row)) else {
        return false;
    };
    touch_only(rows, &name) && is_clear_at(mapping, &name)
}

/// The least unit clash after a change, if there is one; before it there was none. Where no row of the
/// mapping came there is none after it, and no group is looked at. Where the rows that came touch one
/// storage group alone, that is looked at beside the others, and only where it seems to clash are all
/// looked at.
///
/// # Errors
/// `AllocError` where there is no memory.
pub fn clash_after<A: Allocator + Copy>(
    before: &Config<A>,
    after: &Config<A>,
    change: &RowDifference<A>,
) -> Result<Option<Nexus>, AllocError>
    requires no_clash { HasNoClash before.now.mapping }
    requires differs { IsDifference before.now after.now change.now.taken.items change.now.added.items }
    ensures { IfOk result (λ clash. MatchOption clash (HasNoClash after.now.mapping) (IsLeastClash after.now.mapping)) }
{
    let _before = before;
    if !are_of_mapping(change.added.as_slice()) {
        return Ok(None);
    }
    if are_clear(after.mapping(), change.added.as_slice()) {
        return Ok(None);
    }
    after.mapping().clash()
}
