//! A configuration led to another by rows that go and rows that come.
ghost use Rattle.std.specs.Prelude.{◌≡◌, ◌↔◌, Contains, true, false, IsTrue, OnOk, IfOk};
ghost use Rattle.std.specs.List.Sorted.{IsStrictlySortedBy};
ghost use Rattle.std.specs.declared.cmp.Ordering.TheVariants.{Less};
ghost use Rattle.fab_reach_base.specs.Records.{ConfigRows};
ghost use Rattle.fab_store_rows.specs.Differences.{IsDifference};
ghost use Rattle.fab_store_rows.specs.Gathering.{Has};
ghost use Rattle.fab_store_rows.specs.RowOrder.{row_order};
ghost use Rattle.fab_store_rows.specs.Standing.{Stands};
ghost use Rattle.fab_store_rows.specs.declared.config_row.ConfigRow.{ConfigRow as Row};
ghost use Rattle.fab_store_rows.specs.Tidy.{IsTidy};
ghost use Rattle.fab_store_edits.specs.Inner.Edits as edits;
ghost use Rattle.fab_store_edits.specs.Inner.Edits.{AreTaken, ArePut, Of, StopsAt, HoldsOne};
ghost use Rattle.fab_store_edits.specs.Inner.Leads.{CanLead, TakesIf, PutsIf, RefusesIf, HoldsIf};

use crate::drops::drop_sole;
use crate::edits::{is_head, is_sole, put_row, take_row};
use fab_reach_base::Config;
use fab_reach_base::lemmas::set_of;
use fab_store_rows::{ConfigRow, has_row};
use std::alloc::{AllocError, Allocator};
use std::cmp::Ordering;
use std::collections::BTreeSet;

/// Whether the one row is before the other.
fn is_before(row: &ConfigRow, other: &ConfigRow) -> bool
    ensures { IsTrue result ↔ (row_order row.now other.now ≡ Less) }
{
    match row.cmp(other) {
        Ordering::Less => true,
        _ => false,
    }
}

/// Whether the rows are in order, each once.
fn is_in_order(rows: &[ConfigRow]) -> bool
    ensures { IsTrue result ↔ IsStrictlySortedBy row_order rows.now }
{
    for i in 1..rows.len() {
        if !is_before(&rows[i - 1], &rows[i]) {
            return false;
        }
    }
    true
}

/// Whether all the rows stand.
fn all_stand<A: Allocator + Copy>(config: &Config<A>, rows: &[ConfigRow]) -> bool
    ensures { IsTrue result ↔ ((r : Row) → Contains rows.now r → Stands config.now r) }
{
    for row in rows {
        if !has_row(config, row) {
            return false;
        }
    }
    true
}

/// Whether none of the rows stands.
fn none_stands<A: Allocator + Copy>(config: &Config<A>, rows: &[ConfigRow]) -> bool
    ensures { IsTrue result ↔ ((r : Row) → Contains rows.now r → ¬ Stands config.now r) }
{
    for row in rows {
        if has_row(config, row) {
            return false;
        }
    }
    true
}

/// Whether both lists are in order, those that go stand, and those that come do not.
fn can_lead<A: Allocator + Copy>(config: &Config<A>, go: &[ConfigRow], come: &[ConfigRow]) -> bool
    ensures { IsTrue result ↔ CanLead config.now go.now come.now }
{
    if !is_in_order(go) {
        return false;
    }
    if !is_in_order(come) {
        return false;
    }
    if !all_stand(config, go) {
        return false;
    }
    none_stands(config, come)
}

/// Takes a row out, unless it is sole.
///
/// # Errors
/// `AllocError` where there is no memory.
fn take_unless_sole<A: Allocator + Copy>(
    config: &mut Config<A>,
    row: &ConfigRow,
) -> Result<(), AllocError>
    ensures taken { OnOk result (TakesIf false row.now config.old config.new) }
    ensures tidy { IsTidy config.old → IsTidy config.new }
{
    if is_sole(row) {
        return Ok(());
    }
    take_row(config, row)
}

/// Takes the rows out that are not sole.
///
/// # Errors
/// `AllocError` where there is no memory.
fn take_all<A: Allocator + Copy>(config: &mut Config<A>, go: &[ConfigRow]) -> Result<(), AllocError>
    ensures taken { OnOk result (AreTaken (Of edits.is_sole false go.now) config.old config.new) }
    ensures tidy { IsTidy config.old → IsTidy config.new }
{
    for row in go {
        take_unless_sole(config, row)?;
    }
    Ok(())
}

/// Whether the two answers are one.
fn is_same(one: bool, other: bool) -> bool
    ensures same { result ≡ true → one ≡ other }
    ensures apart { result ≡ false → ¬ (one ≡ other) }
{
    one == other
}

/// Puts a row in, if it is of this kind: the head of a group, or any other row.
///
/// # Errors
/// `AllocError` where there is no memory.
fn put_of_kind<A: Allocator + Copy>(
    alloc: A,
    config: &mut Config<A>,
    going: &BTreeSet<ConfigRow, A>,
    heads: bool,
    row: &ConfigRow,
) -> Result<bool, AllocError>
    ensures put { IfOk result (λ is. is ≡ true → PutsIf (Has going.now) heads row.now config.old config.new) }
    ensures refused { IfOk result (λ is. is ≡ false → RefusesIf (Has going.now) heads row.now config.old) }
    ensures tidy { IsTidy config.old → IsTidy config.new }
{
    if !is_same(is_head(row), heads) {
        return Ok(true);
    }
    put_row(alloc, config, going, row)
}

/// Puts the rows of this kind in, heads of groups or all others, until one is refused.
///
/// # Errors
/// `AllocError` where there is no memory.
fn put_all<A: Allocator + Copy>(
    alloc: A,
    config: &mut Config<A>,
    going: &BTreeSet<ConfigRow, A>,
    heads: bool,
    come: &[ConfigRow],
) -> Result<bool, AllocError>
    requires stay { (r : Row) → Contains come.now r → ¬ Has going.now r }
    ensures put { IfOk result (λ is. is ≡ true → ArePut (Has going.now) (Of edits.is_head heads come.now) config.old config.new) }
    ensures stopped { IfOk result (λ is. is ≡ false → StopsAt (Has going.now) heads come.now config.old) }
    ensures tidy { IsTidy config.old → IsTidy config.new }
{
    for row in come {
        if !put_of_kind(alloc, config, going, heads, row)? {
            return Ok(false);
        }
    }
    Ok(true)
}

/// Drops a row, if it is sole and stands.
fn drop_standing<A: Allocator + Copy>(config: &mut Config<A>, row: &ConfigRow) -> bool
    ensures dropped { result ≡ true → TakesIf true row.now config.old config.new }
    ensures held { result ≡ false → HoldsIf row.now config.old }
    ensures tidy { IsTidy config.old → IsTidy config.new }
{
    if !is_sole(row) {
        return true;
    }
    if !has_row(config, row) {
        return true;
    }
    drop_sole(config, row)
}

/// Drops the sole rows that stand, until one is held.
fn drop_all<A: Allocator + Copy>(config: &mut Config<A>, go: &[ConfigRow]) -> bool
    ensures dropped { result ≡ true → AreTaken (Of edits.is_sole true go.now) config.old config.new }
    ensures held { result ≡ false → HoldsOne go.now config.old }
    ensures tidy { IsTidy config.old → IsTidy config.new }
{
    for row in go {
        if !drop_standing(config, row) {
            return false;
        }
    }
    true
}

/// Takes out the rows that go and puts in those that come, where nothing of themselves stands in the
/// way.
///
/// # Errors
/// `AllocError` where there is no memory.
fn edit<A: Allocator + Copy>(
    alloc: A,
    config: &mut Config<A>,
    going: &BTreeSet<ConfigRow, A>,
    go: &[ConfigRow],
    come: &[ConfigRow],
) -> Result<bool, AllocError>
    requires can { CanLead config.old go.now come.now }
    requires only { (r : Row) → Has going.now r → Contains go.now r }
    requires every { (r : Row) → Contains go.now r → Has going.now r }
    ensures led { IfOk result (λ led. led ≡ true → IsDifference config.new config.old come.now go.now) }
    ensures none { IfOk result (λ led. led ≡ false → (b : ConfigRows) → ¬ IsDifference b config.old come.now go.now) }
    ensures tidy { IsTidy config.old → IsTidy config.new }
{
    take_all(config, go)?;
    if !put_all(alloc, config, going, true, come)? {
        return Ok(false);
    }
    if !put_all(alloc, config, going, false, come)? {
        return Ok(false);
    }
    Ok(drop_all(config, go))
}

/// Takes out the rows that go and puts in those that come, and tells whether the configuration then
/// differs from what it was by just these rows.
///
/// Where it does not, no configuration differs so: a list is out of order or has a row twice, a row
/// that goes did not stand, one that comes did, or what would stand is no configuration's (a part of a
/// group that is not there, two volumes at a unit, a second head of a group). The configuration is then
/// some other one, as it is where there is no memory; and it has no empty set and no zoning of another
/// fabric, if it had none.
///
/// # Errors
/// `AllocError` where there is no memory.
pub fn lead<A: Allocator + Copy>(
    alloc: A,
    config: &mut Config<A>,
    go: &[ConfigRow],
    come: &[ConfigRow],
) -> Result<bool, AllocError>
    ensures led { IfOk result (λ led. led ≡ true → IsDifference config.new config.old come.now go.now) }
    ensures none { IfOk result (λ led. led ≡ false → (b : ConfigRows) → ¬ IsDifference b config.old come.now go.now) }
    ensures tidy { IsTidy config.old → IsTidy config.new }
{
    if !can_lead(config, go, come) {
        return Ok(false);
    }
    let going = set_of(alloc, go)?;
    edit(alloc, config, &going, go, come)
}
