//! The mapping from its rows.
ghost use Rattle.std.specs.Prelude.{◌≡◌, is_some, None, Some, MatchOption, IfOk, IfErr};
ghost use Rattle.std.specs.List.{list_all};
ghost use Rattle.std.specs.BTreeMap.{get, keys};
ghost use Rattle.std.specs.FinMap as map;
ghost use Rattle.fab_names.specs.Orders.{name_cmp};
ghost use Rattle.fab_reach_base.specs.fab_mapping_base.Groups.{HostGroupRows, StorageGroupRows};
ghost use Rattle.fab_reach_base.specs.fab_mapping.Mappings.{HasNoClash};
ghost use Rattle.fab_reach_base.specs.fab_mapping.Soundness.{IsSound};
ghost use Rattle.fab_reach_base.specs.Records.{ConfigRows};
ghost use Rattle.fab_store_load.specs.Rows.{AreRows, StandsIn};
ghost use Rattle.fab_store_load.specs.Kinds.{host_group_row, storage_group_row};
ghost use Rattle.fab_store_load.specs.Faults.{OfTable};
ghost use Rattle.fab_store_load.specs.Parts.{HaveParts};
ghost use Rattle.fab_store_load.specs.Parts as spec;
ghost use Rattle.fab_store_load.specs.Configs.{AreConfigRows, ConfigPartIsSound, HostGroupsSay, StorageGroupsSay};

use crate::groups::{Parts, host_groups_from, storage_groups_from};
use crate::kinds::{Head, HostGroups, Hosts, ServedGroups, StorageGroups, Targets, Units};
use crate::maps::map_of;
use crate::nested::maps_of;
use crate::sets::sets_of;
use crate::{LoadFault, Table};
use fab_names::Name;
use fab_reach_base::mapping::{
    HostGroup, MOST_HOST_GROUPS, MOST_STORAGE_GROUPS, Mapping, StorageGroup,
};
use fab_store_rows::ConfigRow;
use std::alloc::{AllocError, Allocator};
use std::collections::BTreeMap;

/// Whether each name that has something has a head.
fn are_known<X, H, A: Allocator>(parts: &BTreeMap<Name, X, A>, heads: &BTreeMap<Name, H, A>) -> bool
    ensures { result ≡ list_all (λ n. is_some (get name_cmp heads.now n)) (keys parts.now) }
{
    parts.keys().all(|name| heads.contains_key(name))
}

/// The heads of groups.
#[derive(Drop)]
struct Heads<A: Allocator + Copy> {
    /// Whose the host groups are.
    tenants: BTreeMap<Name, Name, A>,
    /// What storage groups have beside their names.
    storage: BTreeMap<Name, Head, A>,
}

/// The heads of groups that the rows say.
///
/// # Errors
/// `Damaged(Groups)` where two differ or there are too many, or `Memory`.
fn heads_of<A: Allocator + Copy>(alloc: A, rows: &[ConfigRow]) -> Result<Heads<A>, LoadFault>
    ensures tenants { IfOk result (λ h. AreRows host_group_row rows.now (StandsIn (get name_cmp h.tenants))) }
    ensures storage { IfOk result (λ h. AreRows storage_group_row rows.now (StandsIn (get name_cmp h.storage))) }
    ensures damaged { IfErr result (OfTable (λ table. (c : ConfigRows) → AreConfigRows rows.now c → ¬ ConfigPartIsSound table c)) }
{
    let Some(tenants) = map_of(alloc, &HostGroups, rows)? else {
        return Err(LoadFault::Damaged(Table::Groups));
    };
    let Some(storage) = map_of(alloc, &StorageGroups, rows)? else {
        return Err(LoadFault::Damaged(Table::Groups));
    };
    if tenants.len() > MOST_HOST_GROUPS {
        return Err(LoadFault::Damaged(Table::Groups));
    }
    if storage.len() > MOST_STORAGE_GROUPS {
        return Err(LoadFault::Damaged(Table::Groups));
    }
    Ok(Heads { tenants, storage })
}

/// The host groups of these tenants that have just these rows, or none where no host groups have.
///
/// # Errors
/// `AllocError` where there is no memory.
fn host_groups_of<A: Allocator + Copy>(
    alloc: A,
    tenants: &BTreeMap<Name, Name, A>,
    rows: &[ConfigRow],
) -> Result<Option<BTreeMap<Name, HostGroup<A>, A>>, AllocError>
    requires { AreRows host_group_row rows.now (StandsIn (get name_cmp tenants.now)) }
    ensures rows { IfOk result (λ found. MatchOption found (Unit {0}) (λ t. HostGroupsSay rows.now (map.from_entries t.entries))) }
    ensures only { IfOk result (λ found. MatchOption found ((m : map.FinMap name_cmp HostGroupRows) → ¬ HostGroupsSay rows.now m) (λ t. (m : map.FinMap name_cmp HostGroupRows) → HostGroupsSay rows.now m → m ≡ map.from_entries t.entries)) }
{
    let hosts = sets_of(alloc, &Hosts, rows)?;
    if !are_known(&hosts, tenants) {
        return Ok(None);
    }
    let groups = host_groups_from(alloc, tenants, hosts)?;
    Ok(Some(groups))
}

/// The parts of storage groups that the rows say, or none where two units differ.
///
/// # Errors
/// `AllocError` where there is no memory.
fn parts_of<A: Allocator + Copy>(
    alloc: A,
    rows: &[ConfigRow],
) -> Result<Option<Parts<A>>, AllocError>
    ensures { IfOk result (λ found. MatchOption found ((m : map.FinMap name_cmp StorageGroupRows) → ¬ StorageGroupsSay rows.now m) (HaveParts rows.now)) }
{
    let served = sets_of(alloc, &ServedGroups, rows)?;
    let targets = sets_of(alloc, &Targets, rows)?;
    let Some(units) = maps_of(alloc, &Units, rows)? else {
        return Ok(None);
    };
    Ok(Some(Parts {
        alloc,
        served,
        targets,
        units,
    }))
}

/// Whether each storage group that has a part has a head.
fn are_parts_known<A: Allocator + Copy>(parts: &Parts<A>, heads: &BTreeMap<Name, Head, A>) -> bool
    ensures { result ≡ spec.are_parts_known parts.now heads.now }
{
    if !are_known(&parts.served, heads) {
        return false;
    }
    if !are_known(&parts.targets, heads) {
        return false;
    }
    are_known(&parts.units, heads)
}

/// The storage groups of these heads that have just these rows, or none where no storage groups
/// have.
///
/// # Errors
/// `AllocError` where there is no memory.
fn storage_groups_of<A: Allocator + Copy>(
    alloc: A,
    heads: &BTreeMap<Name, Head, A>,
    rows: &[ConfigRow],
) -> Result<Option<BTreeMap<Name, StorageGroup<A>, A>>, AllocError>
    requires { AreRows storage_group_row rows.now (StandsIn (get name_cmp heads.now)) }
    ensures rows { IfOk result (λ found. MatchOption found (Unit {0}) (λ t. StorageGroupsSay rows.now (map.from_entries t.entries))) }
    ensures only { IfOk result (λ found. MatchOption found ((m : map.FinMap name_cmp StorageGroupRows) → ¬ StorageGroupsSay rows.now m) (λ t. (m : map.FinMap name_cmp StorageGroupRows) → StorageGroupsSay rows.now m → m ≡ map.from_entries t.entries)) }
{
    let Some(parts) = parts_of(alloc, rows)? else {
        return Ok(None);
    };
    if !are_parts_known(&parts, heads) {
        return Ok(None);
    }
    let groups = storage_groups_from(heads, parts)?;
    Ok(Some(groups))
}

/// The mapping that has just these rows, and is sound of itself, with no unit clash.
///
/// # Errors
/// `Damaged` where there is none, or `Memory`.
pub fn mapping_of<A: Allocator + Copy>(
    alloc: A,
    rows: &[ConfigRow],
) -> Result<Mapping<A>, LoadFault>
    ensures host_groups { IfOk result (λ m. HostGroupsSay rows.now m.host_groups) }
    ensures groups { IfOk result (λ m. StorageGroupsSay rows.now m.groups) }
    ensures sound { IfOk result (λ m. IsSound m × HasNoClash m) }
    ensures damaged { IfErr result (OfTable (λ table. (c : ConfigRows) → AreConfigRows rows.now c → ¬ ConfigPartIsSound table c)) }
{
    let heads = match heads_of(alloc, rows) {
        Ok(heads) => heads,
        Err(fault) => return Err(fault),
    };
    let Some(host_groups) = host_groups_of(alloc, &heads.tenants, rows)? else {
        return Err(LoadFault::Damaged(Table::GroupParts));
    };
    let Some(groups) = storage_groups_of(alloc, &heads.storage, rows)? else {
        return Err(LoadFault::Damaged(Table::GroupParts));
    };
    let mapping = Mapping::from_maps(alloc, host_groups, groups);
    if !mapping.is_sound() {
        return Err(LoadFault::Damaged(Table::GroupParts));
    }
    if let Some(_nexus) = mapping.clash()? {
        return Err(LoadFault::Damaged(Table::GroupParts));
    }
    Ok(mapping)
}
