//! The settings of both fabrics from their rows.
ghost use Rattle.std.specs.Prelude.{◌≡◌, ◌⊎◌, None, Some, MatchOption, IfOk};
ghost use Rattle.std.specs.BTreeMap.{get};
ghost use Rattle.fab_names.specs.Orders.{fabric_cmp};
ghost use Rattle.fab_reach_base.specs.fab_zoning.Zonings as zonings;
ghost use Rattle.fab_reach_base.specs.Records.{ConfigRows};
ghost use Rattle.fab_names.specs.declared.fabric.Fabric.TheVariants as fabric;
ghost use Rattle.fab_store_load.specs.Configs.{AreConfigRows, SettingSays};

use crate::kinds::{ActiveSets, DefaultZones};
use crate::maps::map_of;
use fab_names::{Fabric, Name};
use fab_reach_base::zoning::DefaultFlag;
use fab_store_rows::ConfigRow;
use std::alloc::{AllocError, Allocator};
use std::collections::BTreeMap;

/// The settings of a fabric's zoning.
#[derive(Clone, Copy)]
pub struct Setting {
    /// The name of the active zone set, if one is active.
    pub active: Option<Name>,
    /// What the default zone permits.
    pub flag: DefaultFlag,
}

/// The settings of both fabrics.
#[derive(Clone, Copy)]
pub struct Settings {
    /// The setting of fabric A.
    pub a: Setting,
    /// The setting of fabric B.
    pub b: Setting,
}

/// The setting of a fabric, where both its rows are there.
fn setting_of<A: Allocator + Copy>(
    names: &BTreeMap<Fabric, Option<Name>, A>,
    permits: &BTreeMap<Fabric, bool, A>,
    fabric: Fabric,
) -> Option<Setting>
    ensures { MatchOption result ((get fabric_cmp names.now fabric ≡ None) ⊎ (get fabric_cmp permits.now fabric ≡ None)) (λ s. (get fabric_cmp names.now fabric ≡ Some s.active) × (get fabric_cmp permits.now fabric ≡ Some (zonings.permits s.flag))) }
{
    let Some(active) = names.get(&fabric) else {
        return None;
    };
    let Some(permit) = permits.get(&fabric) else {
        return None;
    };
    Some(Setting {
        active: *active,
        flag: DefaultFlag::permitting(*permit),
    })
}

/// The settings that the rows are, or none where no configuration has such rows.
///
/// # Errors
/// `AllocError` where there is no memory.
pub fn settings_of<A: Allocator + Copy>(
    alloc: A,
    rows: &[ConfigRow],
) -> Result<Option<Settings>, AllocError>
    ensures a { IfOk result (λ found. MatchOption found (Unit {0}) (λ s. SettingSays fabric.A rows.now s.a.active s.a.flag)) }
    ensures b { IfOk result (λ found. MatchOption found (Unit {0}) (λ s. SettingSays fabric.B rows.now s.b.active s.b.flag)) }
    ensures none { IfOk result (λ found. MatchOption found ((c : ConfigRows) → ¬ AreConfigRows rows.now c) (λ s. Unit {0})) }
{
    let Some(names) = map_of(alloc, &ActiveSets, rows)? else {
        return Ok(None);
    };
    let Some(permits) = map_of(alloc, &DefaultZones, rows)? else {
        return Ok(None);
    };
    let Some(a) = setting_of(&names, &permits, Fabric::A) else {
        return Ok(None);
    };
    let Some(b) = setting_of(&names, &permits, Fabric::B) else {
        return Ok(None);
    };
    Ok(Some(Settings { a, b }))
}
