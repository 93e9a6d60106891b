//! The zoning of both fabrics from its rows.
ghost use Rattle.std.specs.Prelude.{◌≡◌, IfOk, IfErr};
ghost use Rattle.fab_names.specs.declared.fabric.Fabric.TheVariants as fabrics;
ghost use Rattle.fab_reach_base.specs.fab_zoning.Soundness.{IsSound};
ghost use Rattle.fab_reach_base.specs.Records.{ConfigRows};
ghost use Rattle.fab_store_load.specs.Faults.{OfTable};
ghost use Rattle.fab_store_load.specs.Configs.{AreConfigRows, ConfigPartIsSound, SettingSays, ZoningSays, HasNoEmptySet};

use crate::kinds::{ActiveRows, Aliases, ZoneSets, Zones};
use crate::sets::sets_of;
use crate::settings::{Setting, settings_of};
use crate::{LoadFault, Table};
use fab_names::Fabric;
use fab_reach_base::zoning::{Zoning, ZoningParts};
use fab_store_rows::ConfigRow;
use std::alloc::{AllocError, Allocator};

/// The zoning of a fabric that has just these rows. Nothing is tested.
fn zoning_of<A: Allocator + Copy>(
    alloc: A,
    fabric: Fabric,
    rows: &[ConfigRow],
    setting: Setting,
) -> Result<Zoning<A>, AllocError>
    ensures rows { IfOk result (ZoningSays fabric rows.now) }
    ensures some { IfOk result HasNoEmptySet }
    ensures fabric { IfOk result (λ z. z.fabric ≡ fabric) }
    ensures active { IfOk result (λ z. z.active ≡ setting.active) }
    ensures flag { IfOk result (λ z. z.flag ≡ setting.flag) }
{
    let aliases = sets_of(alloc, &Aliases(fabric), rows)?;
    let zones = sets_of(alloc, &Zones(fabric), rows)?;
    let sets = sets_of(alloc, &ZoneSets(fabric), rows)?;
    let active_zones = sets_of(alloc, &ActiveRows(fabric), rows)?;
    let _members = active_zones.len();
    let parts = ZoningParts {
        aliases,
        zones,
        sets,
        active: setting.active,
        active_zones,
        flag: setting.flag,
    };
    Ok(Zoning::from_parts(alloc, fabric, parts))
}

/// The zoning of both fabrics.
#[derive(Drop)]
pub struct Zonings<A: Allocator + Copy> {
    /// The zoning of fabric A.
    pub a: Zoning<A>,
    /// The zoning of fabric B.
    pub b: Zoning<A>,
}

/// The zoning of both fabrics that has just these rows, and is sound.
///
/// # Errors
/// `Damaged` where there is none, or `Memory`.
pub fn zonings_of<A: Allocator + Copy>(
    alloc: A,
    rows: &[ConfigRow],
) -> Result<Zonings<A>, LoadFault>
    ensures a { IfOk result (λ z. ZoningSays fabrics.A rows.now z.a) }
    ensures b { IfOk result (λ z. ZoningSays fabrics.B rows.now z.b) }
    ensures setting_a { IfOk result (λ z. SettingSays fabrics.A rows.now z.a.active z.a.flag) }
    ensures setting_b { IfOk result (λ z. SettingSays fabrics.B rows.now z.b.active z.b.flag) }
    ensures fabrics { IfOk result (λ z. (z.a.fabric ≡ fabrics.A) × (z.b.fabric ≡ fabrics.B)) }
    ensures sound { IfOk result (λ z. IsSound z.a × IsSound z.b) }
    ensures damaged { IfErr result (OfTable (λ table. (c : ConfigRows) → AreConfigRows rows.now c → ¬ ConfigPartIsSound table c)) }
{
    let Some(settings) = settings_of(alloc, rows)? else {
        return Err(LoadFault::Damaged(Table::Meta));
    };
    let a = zoning_of(alloc, Fabric::A, rows, settings.a)?;
    let b = zoning_of(alloc, Fabric::B, rows, settings.b)?;
    if !a.has_sound_definitions() {
        return Err(LoadFault::Damaged(Table::Zoning));
    }
    if !b.has_sound_definitions() {
        return Err(LoadFault::Damaged(Table::Zoning));
    }
    if !a.has_sound_active() {
        return Err(LoadFault::Damaged(Table::Active));
    }
    if !b.has_sound_active() {
        return Err(LoadFault::Damaged(Table::Active));
    }
    Ok(Zonings { a, b })
}
