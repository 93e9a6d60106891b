//! At which key a step changes rows.
ghost use Rattle.std.specs.Prelude.{◌≡◌, IfOk};
ghost use Rattle.fab_plans_base.specs.Actions.{zoning_step, mapping_step};
ghost use Rattle.fab_plans_rows.specs.Keys.{step_key, HasKeys};

use fab_plans_base::{Action, MappingAction, Step, ZoningAction};
use fab_store_rows::RowKey;
use std::alloc::{AllocError, Allocator};
use std::collections::BTreeSet;

/// The key at which a step of zoning changes rows.
fn key_of_zoning<A: Allocator + Copy>(action: &ZoningAction<A>) -> RowKey
    ensures { result ≡ step_key (zoning_step action.now) }
{
    match action {
        ZoningAction::AliasPut { fabric, name, .. } => RowKey::Alias(*fabric, *name),
        ZoningAction::AliasDrop { fabric, name } => RowKey::Alias(*fabric, *name),
        ZoningAction::ZonePut { fabric, name, .. } => RowKey::Zone(*fabric, *name),
        ZoningAction::ZoneDrop { fabric, name } => RowKey::Zone(*fabric, *name),
        ZoningAction::SetPut { fabric, name, .. } => RowKey::ZoneSet(*fabric, *name),
        ZoningAction::SetDrop { fabric, name } => RowKey::ZoneSet(*fabric, *name),
        ZoningAction::Activate { fabric, .. } => RowKey::ActiveSet(*fabric),
        ZoningAction::Deactivate { fabric } => RowKey::ActiveSet(*fabric),
        ZoningAction::Default { fabric, .. } => RowKey::DefaultZone(*fabric),
    }
}

/// The key at which a step of mapping changes rows.
fn key_of_mapping<A: Allocator + Copy>(action: &MappingAction<A>) -> RowKey
    ensures { result ≡ step_key (mapping_step action.now) }
{
    match action {
        MappingAction::HostGroupPut { name, .. } => RowKey::HostGroup(*name),
        MappingAction::HostGroupDrop { name } => RowKey::HostGroup(*name),
        MappingAction::GroupNew { name, .. } => RowKey::StorageGroup(*name),
        MappingAction::GroupDrop { name } => RowKey::StorageGroup(*name),
        MappingAction::GroupHost { group, .. } => RowKey::StorageGroup(*group),
        MappingAction::GroupUnhost { group, .. } => RowKey::StorageGroup(*group),
        MappingAction::GroupTarget { group, .. } => RowKey::StorageGroup(*group),
        MappingAction::GroupUntarget { group, .. } => RowKey::StorageGroup(*group),
        MappingAction::GroupMap { group, .. } => RowKey::StorageGroup(*group),
        MappingAction::GroupUnmap { group, .. } => RowKey::StorageGroup(*group),
        MappingAction::GroupExpose { group } => RowKey::StorageGroup(*group),
        MappingAction::GroupHide { group } => RowKey::StorageGroup(*group),
    }
}

/// The key at which a step changes rows: no other row of the configuration comes or goes by it.
fn key_of<A: Allocator + Copy>(step: &Step<A>) -> RowKey
    ensures { result ≡ step_key step.now }
{
    match step.action() {
        Action::Zoning(action) => key_of_zoning(action),
        Action::Mapping(action) => key_of_mapping(action),
    }
}

/// The keys at which the steps change rows.
pub fn keys_of<A: Allocator + Copy>(
    alloc: A,
    steps: &[Step<A>],
) -> Result<BTreeSet<RowKey, A>, AllocError>
    ensures { IfOk result (λ keys. HasKeys keys steps.now) }
{
    let mut keys = BTreeSet::new(alloc);
    for step in steps {
        keys.insert(key_of(step))?;
    }
    Ok(keys)
}
