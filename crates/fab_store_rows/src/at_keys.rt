//! The rows of a configuration that stand at keys, and the difference of two configurations that
//! differ at no other.
ghost use Rattle.std.specs.Prelude.{Some, OnOk, IfOk};
ghost use Rattle.std.specs.Option.{option_copied};
ghost use Rattle.fab_reach_base.specs.fab_lemmas.Lists.{IsListOf};
ghost use Rattle.fab_reach_base.specs.Adding.{Adds};
ghost use Rattle.fab_store_rows.specs.RowOrder.{row_order};
ghost use Rattle.fab_store_rows.specs.Gathering.{Has, Lacking};
ghost use Rattle.fab_store_rows.specs.Differences.{IsDifference};
ghost use Rattle.fab_store_rows.specs.Keys.{AgreeElsewhere};
ghost use Rattle.fab_store_rows.specs.AtKeys.{RowOfAny, IsActiveSetRow, IsDefaultRow, IsHostGroupRowAt, IsStorageGroupRowAt, IsRowAt, IsRowAtSome};

use crate::gathering::{
    add_active, add_group_lacking, add_host_group_lacking, add_row, add_set_lacking,
};
use crate::listing::RowDifference;
use crate::makers::{Aliases, Maker, ZoneSets, Zones};
use crate::{ConfigRow, RowKey, SettingRow};
use fab_reach_base::Config;
use fab_reach_base::lemmas::keys_listed;
use fab_reach_base::mapping::Mapping;
use fab_reach_base::names::{Fabric, Name};
use fab_reach_base::zoning::Zoning;
use std::alloc::{AllocError, Allocator};
use std::collections::BTreeSet;

/// Adds the rows of a key and each item of its set, if it has one.
fn add_named<Q, K: Ord, M: Maker<Q, K>, A: Allocator + Copy>(
    rows: &mut BTreeSet<ConfigRow, A>,
    without: Option<&Config<A>>,
    maker: &M,
    key: &Q,
    items: Option<&BTreeSet<K, A>>,
) -> Result<(), AllocError>
    ensures { OnOk result (Adds (Lacking (option_copied without.entry) (RowOfAny (M.row_of maker.now key.now) (option_copied items.entry))) (Has rows.old) (Has rows.new)) }
{
    match items {
        Some(items) => add_set_lacking(rows, without, maker, key, items),
        None => Ok(()),
    }
}

/// Adds the rows of a fabric's active zone set: its name, and its zones with their members.
fn add_active_set<A: Allocator + Copy>(
    rows: &mut BTreeSet<ConfigRow, A>,
    without: Option<&Config<A>>,
    fabric: Fabric,
    zoning: &Zoning<A>,
) -> Result<(), AllocError>
    ensures { OnOk result (Adds (Lacking (option_copied without.entry) (IsActiveSetRow fabric zoning.now)) (Has rows.old) (Has rows.new)) }
{
    add_active(rows, without, fabric, zoning)?;
    let active = SettingRow::ActiveSet(fabric, zoning.active());
    add_row(rows, without, ConfigRow::Setting(active))?;
    Ok(())
}

/// Adds the row that tells whether a fabric's default zone permits.
fn add_default<A: Allocator + Copy>(
    rows: &mut BTreeSet<ConfigRow, A>,
    without: Option<&Config<A>>,
    fabric: Fabric,
    zoning: &Zoning<A>,
) -> Result<(), AllocError>
    ensures { OnOk result (Adds (Lacking (option_copied without.entry) (IsDefaultRow fabric zoning.now)) (Has rows.old) (Has rows.new)) }
{
    let default = SettingRow::DefaultZone(fabric, zoning.flag().permits());
    add_row(rows, without, ConfigRow::Setting(default))
}

/// Adds the rows of the host group of a name, if it is there.
fn add_host_group_at<A: Allocator + Copy>(
    rows: &mut BTreeSet<ConfigRow, A>,
    without: Option<&Config<A>>,
    name: &Name,
    mapping: &Mapping<A>,
) -> Result<(), AllocError>
    ensures { OnOk result (Adds (Lacking (option_copied without.entry) (IsHostGroupRowAt name.now mapping.now)) (Has rows.old) (Has rows.new)) }
{
    if let Some(group) = mapping.host_group(name) {
        add_host_group_lacking(rows, without, name, group)?;
    }
    Ok(())
}

/// Adds the rows of the storage group of a name, if it is there.
fn add_group_at<A: Allocator + Copy>(
    rows: &mut BTreeSet<ConfigRow, A>,
    without: Option<&Config<A>>,
    name: &Name,
    mapping: &Mapping<A>,
) -> Result<(), AllocError>
    ensures { OnOk result (Adds (Lacking (option_copied without.entry) (IsStorageGroupRowAt name.now mapping.now)) (Has rows.old) (Has rows.new)) }
{
    if let Some(group) = mapping.group(name) {
        add_group_lacking(rows, without, name, group)?;
    }
    Ok(())
}

/// Adds the rows of a configuration at a key, but for those that stand in another that is given.
fn add_at<A: Allocator + Copy>(
    rows: &mut BTreeSet<ConfigRow, A>,
    without: Option<&Config<A>>,
    config: &Config<A>,
    key: &RowKey,
) -> Result<(), AllocError>
    ensures { OnOk result (Adds (Lacking (option_copied without.entry) (IsRowAt config.now key.now)) (Has rows.old) (Has rows.new)) }
{
    match key {
        RowKey::Alias(fabric, name) => {
            let items = config.zoning(*fabric).alias(name);
            add_named(rows, without, &Aliases(*fabric), name, items)?;
        }
        RowKey::Zone(fabric, name) => {
            let items = config.zoning(*fabric).zone(name);
            add_named(rows, without, &Zones(*fabric), name, items)?;
        }
        RowKey::ZoneSet(fabric, name) => {
            let items = config.zoning(*fabric).zone_set(name);
            add_named(rows, without, &ZoneSets(*fabric), name, items)?;
        }
        RowKey::ActiveSet(fabric) => {
            add_active_set(rows, without, *fabric, config.zoning(*fabric))?;
        }
        RowKey::DefaultZone(fabric) => {
            add_default(rows, without, *fabric, config.zoning(*fabric))?;
        }
        RowKey::HostGroup(name) => add_host_group_at(rows, without, name, config.mapping())?,
        RowKey::StorageGroup(name) => add_group_at(rows, without, name, config.mapping())?,
    }
    Ok(())
}

/// Adds the rows of a configuration at each of the keys.
fn add_at_each<A: Allocator + Copy>(
    rows: &mut BTreeSet<ConfigRow, A>,
    without: Option<&Config<A>>,
    config: &Config<A>,
    keys: &BTreeSet<RowKey, A>,
) -> Result<(), AllocError>
    ensures { OnOk result (Adds (Lacking (option_copied without.entry) (IsRowAtSome config.now keys.now.keys)) (Has rows.old) (Has rows.new)) }
{
    for key in keys.iter() {
        add_at(rows, without, config, key)?;
    }
    Ok(())
}

/// The rows of a configuration at the keys, but for those that stand in another.
fn rows_at<A: Allocator + Copy>(
    alloc: A,
    without: &Config<A>,
    config: &Config<A>,
    keys: &BTreeSet<RowKey, A>,
) -> Result<Vec<ConfigRow, A>, AllocError>
    ensures { IfOk result (λ rows. IsListOf row_order (Lacking (Some without.now) (IsRowAtSome config.now keys.now.keys)) rows.items) }
{
    let mut rows = BTreeSet::new(alloc);
    add_at_each(&mut rows, Some(without), config, keys)?;
    let _count = rows.len();
    let items = keys_listed(alloc, &rows)?;
    Ok(items)
}

/// The difference of two configurations in which the same rows stand but at these keys: as of
/// [`difference`](crate::difference). It looks at the rows at the keys, and at no others.
///
/// # Errors
/// `AllocError` where there is no memory.
pub fn difference_at<A: Allocator + Copy>(
    alloc: A,
    before: &Config<A>,
    after: &Config<A>,
    keys: &BTreeSet<RowKey, A>,
) -> Result<RowDifference<A>, AllocError>
    requires { AgreeElsewhere keys.now before.now after.now }
    ensures { IfOk result (λ change. IsDifference before.now after.now change.taken.items change.added.items) }
{
    let taken = rows_at(alloc, after, before, keys)?;
    let added = rows_at(alloc, before, after, keys)?;
    Ok(RowDifference { taken, added })
}
