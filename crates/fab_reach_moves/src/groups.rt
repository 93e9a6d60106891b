//! What the rows of a difference tell of storage groups and default zones.
ghost use Rattle.std.specs.Prelude.{◌≡◌, ◌↔◌, Bool, Some, true, OnOk, IfOk, IsTrue};
ghost use Rattle.std.specs.BTreeSet.{contains};
ghost use Rattle.fab_names.specs.Orders.{name_cmp};
ghost use Rattle.fab_reach_base.specs.Adding.{Adds};
ghost use Rattle.fab_reach_base.specs.Records.{Records};
ghost use Rattle.fab_reach_moves.specs.Moves.{AreTouched, AreFlagged, flagged_at};
ghost use Rattle.fab_reach_index.specs.Indexes.{IsIndexOf};
ghost use Rattle.fab_reach_moves.specs.Inner.Naming.{group_said, host_group_said, IsServing, IsTouchedBy, IsTouchedByAny, SaysFlag};
ghost use Rattle.fab_reach_books.specs.Rows.{IsRowDiff};
ghost use Rattle.fab_reach_books.specs.declared.row.Row.TheVariants.{DefaultZone};

use fab_names::{Fabric, Name};
use fab_reach_books::{Row, RowDiff};
use fab_reach_index::Index;
use fab_store_rows::{GroupRow, PartRow};
use std::alloc::{AllocError, Allocator};
use std::collections::{BTreeMap, BTreeSet};

/// The storage group that the row is one of.
pub fn group_of(row: &Row) -> Option<Name>
    ensures { result ≡ group_said row.now }
{
    match row {
        Row::Group(GroupRow::Storage(group)) => Some(group.name),
        Row::Part(PartRow::Storage(name, _)) => Some(*name),
        _ => None,
    }
}

/// The host group of which the row says a host.
pub fn host_group_of(row: &Row) -> Option<Name>
    ensures { result ≡ host_group_said row.now }
{
    match row {
        Row::Part(PartRow::Host(name, _)) => Some(*name),
        _ => None,
    }
}

/// Adds the storage group that the row is one of.
fn add_group_of<A: Allocator + Copy>(
    names: &mut BTreeSet<Name, A>,
    row: &Row,
) -> Result<(), AllocError>
    ensures { OnOk result (Adds (λ n. group_said row.now ≡ Some n) (λ n. IsTrue (contains name_cmp names.old n)) (λ n. IsTrue (contains name_cmp names.new n))) }
{
    if let Some(name) = group_of(row) {
        names.insert(name)?;
    }
    Ok(())
}

/// Adds the names of a set.
pub fn add_names<A: Allocator + Copy>(
    names: &mut BTreeSet<Name, A>,
    these: &BTreeSet<Name, A>,
) -> Result<(), AllocError>
    ensures { OnOk result (Adds (λ n. IsTrue (contains name_cmp these.now n)) (λ n. IsTrue (contains name_cmp names.old n)) (λ n. IsTrue (contains name_cmp names.new n))) }
{
    for name in these {
        names.insert(*name)?;
    }
    Ok(())
}

/// Adds the storage groups that have the host group of which the row says a host.
fn add_serving<A: Allocator + Copy>(
    names: &mut BTreeSet<Name, A>,
    serving: &BTreeMap<Name, BTreeSet<Name, A>, A>,
    row: &Row,
) -> Result<(), AllocError>
    ensures { OnOk result (Adds (IsServing serving.now row.now) (λ n. IsTrue (contains name_cmp names.old n)) (λ n. IsTrue (contains name_cmp names.new n))) }
{
    let Some(hosts) = host_group_of(row) else {
        return Ok(());
    };
    if let Some(these) = serving.get(&hosts) {
        add_names(names, these)?;
    }
    Ok(())
}

/// Adds the storage groups that the row touches.
fn add_touched_by<A: Allocator + Copy>(
    names: &mut BTreeSet<Name, A>,
    serving: &BTreeMap<Name, BTreeSet<Name, A>, A>,
    row: &Row,
) -> Result<(), AllocError>
    ensures { OnOk result (Adds (IsTouchedBy serving.now row.now) (λ n. IsTrue (contains name_cmp names.old n)) (λ n. IsTrue (contains name_cmp names.new n))) }
{
    add_group_of(names, row)?;
    add_serving(names, serving, row)?;
    Ok(())
}

/// Adds the storage groups that the rows touch.
fn add_touched<A: Allocator + Copy>(
    names: &mut BTreeSet<Name, A>,
    serving: &BTreeMap<Name, BTreeSet<Name, A>, A>,
    rows: &[Row],
) -> Result<(), AllocError>
    ensures { OnOk result (Adds (IsTouchedByAny serving.now rows.now) (λ n. IsTrue (contains name_cmp names.old n)) (λ n. IsTrue (contains name_cmp names.new n))) }
{
    for row in rows {
        add_touched_by(names, serving, row)?;
    }
    Ok(())
}

/// The storage groups that a difference touches: each other one is kept.
pub fn told_groups<A: Allocator + Copy>(
    alloc: A,
    index: &Index<A>,
    diff: &RowDiff<A>,
) -> Result<BTreeSet<Name, A>, AllocError>
    ensures { (w v : Records) → IsIndexOf w index.now → IsRowDiff w v diff.now.gone.items diff.now.come.items → IfOk result (AreTouched w v) }
{
    let mut names = BTreeSet::new(alloc);
    add_touched(&mut names, &index.serving, diff.gone.as_slice())?;
    add_touched(&mut names, &index.serving, diff.come.as_slice())?;
    Ok(names)
}

/// Whether the row says what the default zone of the fabric permits.
fn says_flag(row: &Row, fabric: Fabric) -> bool
    ensures { IsTrue result ↔ ((p : Bool) × (row.now ≡ DefaultZone fabric p)) }
{
    match row {
        Row::DefaultZone(at, _) => *at == fabric,
        _ => false,
    }
}

/// Whether some of the rows does.
fn says_flag_among(rows: &[Row], fabric: Fabric) -> bool
    ensures { IsTrue result ↔ SaysFlag rows.now fabric }
{
    for row in rows {
        if says_flag(row, fabric) {
            return true;
        }
    }
    false
}

/// Whether the default zone of fabric A permits otherwise, and that of B.
pub fn told_flags<A: Allocator + Copy>(diff: &RowDiff<A>) -> (bool, bool)
    ensures { (w v : Records) → IsRowDiff w v diff.now.gone.items diff.now.come.items → AreFlagged w v (flagged_at result) }
{
    let a = says_flag_among(diff.come.as_slice(), Fabric::A);
    let b = says_flag_among(diff.come.as_slice(), Fabric::B);
    (a, b)
}
