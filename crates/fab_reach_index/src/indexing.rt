//! The maps of an index, from a world.
ghost use Rattle.std.specs.Prelude.{◌≡◌, Some, OnOk, IfOk};
ghost use Rattle.std.specs.Ordering.{nat_cmp};
ghost use Rattle.fab_names.specs.Orders.{name_cmp};
ghost use Rattle.fab_zoning.specs.Edits.{IsIn};
ghost use Rattle.fab_reach_base.specs.Adding.{Adds};
ghost use Rattle.fab_reach_base.specs.Books.{AreReached};
ghost use Rattle.fab_reach_base.specs.Orders.{Has, path_cmp};
ghost use Rattle.fab_reach_base.specs.Records.{Records};
ghost use Rattle.fab_reach_base.specs.Views.{seen};
ghost use Rattle.fab_reach_index.specs.Indexes.{IsTreeOf, IsHostServed, IsHeldBy, IsTargetOf, IsHostGroupOf, IsRowOf};
ghost use Rattle.fab_reach_books.specs.Pairs.{pair_cmp};
ghost use Rattle.fab_reach_index.specs.Inner.Regathering.{HasIn};
ghost use Rattle.fab_reach_index.specs.Inner.Placing.{ByHolder, ByHostGroups, ByTargets, ByExposed, ByPath};

use fab_inventory::Known;
use fab_mapping::StorageGroup;
use fab_names::{Name, Wwn};
use fab_reach_base::{Path, View, served_hosts};
use fab_zoning::{Key, put_in_tree};
use std::alloc::{AllocError, Allocator};
use std::collections::{BTreeMap, BTreeSet};

/// Adds an item to the set at a key.
///
/// # Errors
/// `AllocError` where there is no memory.
pub fn add_at<Q: Key, X: Key, A: Allocator + Copy>(
    alloc: A,
    sets: &mut BTreeMap<Q, BTreeSet<X, A>, A>,
    key: Q,
    item: X,
) -> Result<(), AllocError>
    ensures { OnOk result (Adds (λ e. e ≡ (key, item)) (IsIn Q.cmp X.cmp sets.old) (IsIn Q.cmp X.cmp sets.new)) }
{
    put_in_tree(alloc, sets, key, item)
}

/// Adds the items to the set at a key.
///
/// # Errors
/// `AllocError` where there is no memory: some may have been added.
pub fn add_all_at<Q: Key, X: Key, A: Allocator + Copy>(
    alloc: A,
    sets: &mut BTreeMap<Q, BTreeSet<X, A>, A>,
    key: Q,
    items: &BTreeSet<X, A>,
) -> Result<(), AllocError>
    ensures { OnOk result (Adds (λ e. (e.0 ≡ key) × HasIn X.cmp items.now e.1) (IsIn Q.cmp X.cmp sets.old) (IsIn Q.cmp X.cmp sets.new)) }
{
    for item in items {
        add_at(alloc, sets, key, *item)?;
    }
    Ok(())
}

/// Adds the item to the set at each of the keys.
///
/// # Errors
/// `AllocError` where there is no memory: it may have been added at some.
pub fn add_under<Q: Key, X: Key, A: Allocator + Copy>(
    alloc: A,
    sets: &mut BTreeMap<Q, BTreeSet<X, A>, A>,
    keys: &BTreeSet<Q, A>,
    item: X,
) -> Result<(), AllocError>
    ensures { OnOk result (Adds (λ e. HasIn Q.cmp keys.now e.0 × (e.1 ≡ item)) (IsIn Q.cmp X.cmp sets.old) (IsIn Q.cmp X.cmp sets.new)) }
{
    for key in keys {
        add_at(alloc, sets, *key, item)?;
    }
    Ok(())
}

/// Adds the port to those of its holder, if somebody holds it.
fn add_holder<A: Allocator + Copy>(
    alloc: A,
    held: &mut BTreeMap<Name, BTreeSet<Wwn, A>, A>,
    name: &Wwn,
    known: &Known,
) -> Result<(), AllocError>
    ensures { OnOk result (Adds (ByHolder (name.now, known.now)) (IsIn name_cmp nat_cmp held.old) (IsIn name_cmp nat_cmp held.new)) }
{
    if let Some(holder) = known.holder {
        add_at(alloc, held, holder, *name)?;
    }
    Ok(())
}

/// The ports of each holder.
pub fn held_of<A: Allocator + Copy>(
    alloc: A,
    view: &View<'_, A>,
) -> Result<BTreeMap<Name, BTreeSet<Wwn, A>, A>, AllocError>
    ensures { IfOk result (IsTreeOf name_cmp nat_cmp (IsHeldBy (seen view.now))) }
{
    let mut held = BTreeMap::new(alloc);
    for (name, known) in view.inventory.ports() {
        add_holder(alloc, &mut held, name, known)?;
    }
    Ok(held)
}

/// Adds the storage group to those of its host groups.
fn add_host_groups<A: Allocator + Copy>(
    alloc: A,
    serving: &mut BTreeMap<Name, BTreeSet<Name, A>, A>,
    name: Name,
    group: &StorageGroup<A>,
) -> Result<(), AllocError>
    ensures { OnOk result (Adds (ByHostGroups (name, group.now)) (IsIn name_cmp name_cmp serving.old) (IsIn name_cmp name_cmp serving.new)) }
{
    for hosts in group.host_groups() {
        add_at(alloc, serving, *hosts, name)?;
    }
    Ok(())
}

/// The storage groups of each host group.
pub fn serving_of<A: Allocator + Copy>(
    alloc: A,
    view: &View<'_, A>,
) -> Result<BTreeMap<Name, BTreeSet<Name, A>, A>, AllocError>
    ensures { IfOk result (IsTreeOf name_cmp name_cmp (IsHostGroupOf (seen view.now))) }
{
    let mut serving = BTreeMap::new(alloc);
    let mapping = view.config.mapping();
    for (name, group) in mapping.groups() {
        add_host_groups(alloc, &mut serving, *name, group)?;
    }
    Ok(serving)
}

/// Adds the storage group to those of its targets.
fn add_targets<A: Allocator + Copy>(
    alloc: A,
    targeted: &mut BTreeMap<Wwn, BTreeSet<Name, A>, A>,
    name: Name,
    group: &StorageGroup<A>,
) -> Result<(), AllocError>
    ensures { OnOk result (Adds (ByTargets (name, group.now)) (IsIn nat_cmp name_cmp targeted.old) (IsIn nat_cmp name_cmp targeted.new)) }
{
    for target in group.targets() {
        add_at(alloc, targeted, *target, name)?;
    }
    Ok(())
}

/// Adds the storage group to those of its targets, if it is exposed.
fn add_exposed<A: Allocator + Copy>(
    alloc: A,
    targeted: &mut BTreeMap<Wwn, BTreeSet<Name, A>, A>,
    name: Name,
    group: &StorageGroup<A>,
) -> Result<(), AllocError>
    ensures { OnOk result (Adds (ByExposed (name, group.now)) (IsIn nat_cmp name_cmp targeted.old) (IsIn nat_cmp name_cmp targeted.new)) }
{
    if group.is_exposed() {
        add_targets(alloc, targeted, name, group)?;
    }
    Ok(())
}

/// The exposed storage groups of each target.
pub fn targeted_of<A: Allocator + Copy>(
    alloc: A,
    view: &View<'_, A>,
) -> Result<BTreeMap<Wwn, BTreeSet<Name, A>, A>, AllocError>
    ensures { IfOk result (IsTreeOf nat_cmp name_cmp (IsTargetOf (seen view.now))) }
{
    let mut targeted = BTreeMap::new(alloc);
    let mapping = view.config.mapping();
    for (name, group) in mapping.groups() {
        add_exposed(alloc, &mut targeted, *name, group)?;
    }
    Ok(targeted)
}

/// The exposed storage groups that serve each host.
pub fn groups_of<A: Allocator + Copy>(
    alloc: A,
    view: &View<'_, A>,
) -> Result<BTreeMap<Name, BTreeSet<Name, A>, A>, AllocError>
    ensures { IfOk result (IsTreeOf name_cmp name_cmp (IsHostServed (seen view.now))) }
{
    let groups = served_hosts(alloc, view.config.mapping())?;
    Ok(groups)
}

/// Adds the paths to those of their pairs.
fn add_paths<A: Allocator + Copy>(
    alloc: A,
    rows: &mut BTreeMap<(Wwn, Wwn), BTreeSet<Path, A>, A>,
    paths: &BTreeSet<Path, A>,
) -> Result<(), AllocError>
    ensures { OnOk result (Adds (ByPath paths.now) (IsIn pair_cmp path_cmp rows.old) (IsIn pair_cmp path_cmp rows.new)) }
{
    for path in paths {
        add_at(alloc, rows, (path.initiator, path.target), *path)?;
    }
    Ok(())
}

/// The paths of each pair, of all paths of a world.
pub fn rows_of<A: Allocator + Copy>(
    alloc: A,
    paths: &BTreeSet<Path, A>,
) -> Result<BTreeMap<(Wwn, Wwn), BTreeSet<Path, A>, A>, AllocError>
    ensures { (w : Records) → AreReached w (Has paths.now) → IfOk result (IsTreeOf pair_cmp path_cmp (IsRowOf w)) }
{
    let mut rows = BTreeMap::new(alloc);
    add_paths(alloc, &mut rows, paths)?;
    Ok(rows)
}
