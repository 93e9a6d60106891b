//! The storage groups that a step touches, by the hosts that they serve and by their targets, before it and
//! after it.
ghost use Rattle.std.specs.Prelude.{◌≡◌, IfOk, OnOk};
ghost use Rattle.std.specs.Ordering.{nat_cmp};
ghost use Rattle.fab_names.specs.Orders.{name_cmp};
ghost use Rattle.fab_zoning.specs.Edits.{IsIn};
ghost use Rattle.fab_reach_base.specs.Adding.{Adds};
ghost use Rattle.fab_reach_base.specs.Records.{Records};
ghost use Rattle.fab_reach_base.specs.Views.{seen};
ghost use Rattle.fab_reach_books.specs.Inner.Sets.{HasName};
ghost use Rattle.fab_reach_index.specs.Indexes.{IsTreeOf, IsHostServed, IsTargetOf};
ghost use Rattle.fab_reach_moves.specs.Inner.Telling.{IsTold};

use fab_names::{Name, Wwn};
use fab_reach_base::View;
use fab_reach_index::add_under;
use fab_reach_moves::{
    Told, hosts_after, hosts_before, is_exposed_after, is_exposed_before, targets_after,
    targets_before,
};
use std::alloc::{AllocError, Allocator};
use std::collections::{BTreeMap, BTreeSet};

/// Adds the storage group of this name to those of the hosts that it serves before the step, if it is exposed then.
fn add_served_before<A: Allocator + Copy>(
    alloc: A,
    groups: &mut BTreeMap<Name, BTreeSet<Name, A>, A>,
    before: &View<'_, A>,
    name: &Name,
) -> Result<(), AllocError>
    ensures { OnOk result (Adds (λ e. IsHostServed (seen before.now) e.0 e.1 × (e.1 ≡ name.now)) (IsIn name_cmp name_cmp groups.old) (IsIn name_cmp name_cmp groups.new)) }
{
    if is_exposed_before(before, name) {
        let keys = hosts_before(alloc, before, name)?;
        add_under(alloc, groups, &keys, *name)?;
    }
    Ok(())
}

/// The same of each of the storage groups.
fn add_all_served_before<A: Allocator + Copy>(
    alloc: A,
    groups: &mut BTreeMap<Name, BTreeSet<Name, A>, A>,
    before: &View<'_, A>,
    names: &BTreeSet<Name, A>,
) -> Result<(), AllocError>
    ensures { OnOk result (Adds (λ e. HasName names.now e.1 × IsHostServed (seen before.now) e.0 e.1) (IsIn name_cmp name_cmp groups.old) (IsIn name_cmp name_cmp groups.new)) }
{
    for name in names {
        add_served_before(alloc, groups, before, name)?;
    }
    Ok(())
}

/// Those of the storage groups that are exposed before the step, by the hosts that it serves then.
pub fn served_before<A: Allocator + Copy>(
    alloc: A,
    before: &View<'_, A>,
    names: &BTreeSet<Name, A>,
) -> Result<BTreeMap<Name, BTreeSet<Name, A>, A>, AllocError>
    ensures { IfOk result (IsTreeOf name_cmp name_cmp (λ q n. HasName names.now n × IsHostServed (seen before.now) q n)) }
{
    let mut groups = BTreeMap::new(alloc);
    add_all_served_before(alloc, &mut groups, before, names)?;
    Ok(groups)
}

/// Adds the storage group of this name to those of the hosts that it serves after the step, if it is exposed then.
fn add_served_after<A: Allocator + Copy>(
    alloc: A,
    groups: &mut BTreeMap<Name, BTreeSet<Name, A>, A>,
    before: &View<'_, A>,
    told: &Told<A>,
    name: &Name,
) -> Result<(), AllocError>
    ensures { (v : Records) → IsTold (seen before.now) v told.now
        → OnOk result (Adds (λ e. IsHostServed v e.0 e.1 × (e.1 ≡ name.now)) (IsIn name_cmp name_cmp groups.old) (IsIn name_cmp name_cmp groups.new)) }
{
    if is_exposed_after(before, told, name) {
        let keys = hosts_after(alloc, before, told, name)?;
        add_under(alloc, groups, &keys, *name)?;
    }
    Ok(())
}

/// The same of each of the storage groups.
fn add_all_served_after<A: Allocator + Copy>(
    alloc: A,
    groups: &mut BTreeMap<Name, BTreeSet<Name, A>, A>,
    before: &View<'_, A>,
    told: &Told<A>,
    names: &BTreeSet<Name, A>,
) -> Result<(), AllocError>
    ensures { (v : Records) → IsTold (seen before.now) v told.now
        → OnOk result (Adds (λ e. HasName names.now e.1 × IsHostServed v e.0 e.1) (IsIn name_cmp name_cmp groups.old) (IsIn name_cmp name_cmp groups.new)) }
{
    for name in names {
        add_served_after(alloc, groups, before, told, name)?;
    }
    Ok(())
}

/// Those of the storage groups that are exposed after the step, by the hosts that it serves then.
pub fn served_after<A: Allocator + Copy>(
    alloc: A,
    before: &View<'_, A>,
    told: &Told<A>,
    names: &BTreeSet<Name, A>,
) -> Result<BTreeMap<Name, BTreeSet<Name, A>, A>, AllocError>
    ensures { (v : Records) → IsTold (seen before.now) v told.now
        → IfOk result (IsTreeOf name_cmp name_cmp (λ q n. HasName names.now n × IsHostServed v q n)) }
{
    let mut groups = BTreeMap::new(alloc);
    add_all_served_after(alloc, &mut groups, before, told, names)?;
    Ok(groups)
}

/// Adds the storage group of this name to those of the targets that it has before the step, if it is exposed then.
fn add_targeted_before<A: Allocator + Copy>(
    alloc: A,
    groups: &mut BTreeMap<Wwn, BTreeSet<Name, A>, A>,
    before: &View<'_, A>,
    name: &Name,
) -> Result<(), AllocError>
    ensures { OnOk result (Adds (λ e. IsTargetOf (seen before.now) e.0 e.1 × (e.1 ≡ name.now)) (IsIn nat_cmp name_cmp groups.old) (IsIn nat_cmp name_cmp groups.new)) }
{
    if is_exposed_before(before, name) {
        let keys = targets_before(alloc, before, name)?;
        add_under(alloc, groups, &keys, *name)?;
    }
    Ok(())
}

/// The same of each of the storage groups.
fn add_all_targeted_before<A: Allocator + Copy>(
    alloc: A,
    groups: &mut BTreeMap<Wwn, BTreeSet<Name, A>, A>,
    before: &View<'_, A>,
    names: &BTreeSet<Name, A>,
) -> Result<(), AllocError>
    ensures { OnOk result (Adds (λ e. HasName names.now e.1 × IsTargetOf (seen before.now) e.0 e.1) (IsIn nat_cmp name_cmp groups.old) (IsIn nat_cmp name_cmp groups.new)) }
{
    for name in names {
        add_targeted_before(alloc, groups, before, name)?;
    }
    Ok(())
}

/// Those of the storage groups that are exposed before the step, by the targets that it has then.
pub fn targeted_before<A: Allocator + Copy>(
    alloc: A,
    before: &View<'_, A>,
    names: &BTreeSet<Name, A>,
) -> Result<BTreeMap<Wwn, BTreeSet<Name, A>, A>, AllocError>
    ensures { IfOk result (IsTreeOf nat_cmp name_cmp (λ q n. HasName names.now n × IsTargetOf (seen before.now) q n)) }
{
    let mut groups = BTreeMap::new(alloc);
    add_all_targeted_before(alloc, &mut groups, before, names)?;
    Ok(groups)
}

/// Adds the storage group of this name to those of the targets that it has after the step, if it is exposed then.
fn add_targeted_after<A: Allocator + Copy>(
    alloc: A,
    groups: &mut BTreeMap<Wwn, BTreeSet<Name, A>, A>,
    before: &View<'_, A>,
    told: &Told<A>,
    name: &Name,
) -> Result<(), AllocError>
    ensures { (v : Records) → IsTold (seen before.now) v told.now
        → OnOk result (Adds (λ e. IsTargetOf v e.0 e.1 × (e.1 ≡ name.now)) (IsIn nat_cmp name_cmp groups.old) (IsIn nat_cmp name_cmp groups.new)) }
{
    if is_exposed_after(before, told, name) {
        let keys = targets_after(alloc, before, told, name)?;
        add_under(alloc, groups, &keys, *name)?;
    }
    Ok(())
}

/// The same of each of the storage groups.
fn add_all_targeted_after<A: Allocator + Copy>(
    alloc: A,
    groups: &mut BTreeMap<Wwn, BTreeSet<Name, A>, A>,
    before: &View<'_, A>,
    told: &Told<A>,
    names: &BTreeSet<Name, A>,
) -> Result<(), AllocError>
    ensures { (v : Records) → IsTold (seen before.now) v told.now
        → OnOk result (Adds (λ e. HasName names.now e.1 × IsTargetOf v e.0 e.1) (IsIn nat_cmp name_cmp groups.old) (IsIn nat_cmp name_cmp groups.new)) }
{
    for name in names {
        add_targeted_after(alloc, groups, before, told, name)?;
    }
    Ok(())
}

/// Those of the storage groups that are exposed after the step, by the targets that it has then.
pub fn targeted_after<A: Allocator + Copy>(
    alloc: A,
    before: &View<'_, A>,
    told: &Told<A>,
    names: &BTreeSet<Name, A>,
) -> Result<BTreeMap<Wwn, BTreeSet<Name, A>, A>, AllocError>
    ensures { (v : Records) → IsTold (seen before.now) v told.now
        → IfOk result (IsTreeOf nat_cmp name_cmp (λ q n. HasName names.now n × IsTargetOf v q n)) }
{
    let mut groups = BTreeMap::new(alloc);
    add_all_targeted_after(alloc, &mut groups, before, told, names)?;
    Ok(groups)
}
