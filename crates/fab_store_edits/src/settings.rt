//! Settings of a fabric put in place of those that go.
ghost use Rattle.std.specs.Prelude.{◌≡◌, true, false};
ghost use Rattle.fab_store_rows.specs.declared.config_row.ConfigRow.TheVariants as config_row;
ghost use Rattle.fab_store_rows.specs.declared.config_row.SettingRow.TheVariants as setting;
ghost use Rattle.fab_store_rows.specs.Gathering.{Has};
ghost use Rattle.fab_store_rows.specs.Standing.{IsSetting};
ghost use Rattle.fab_reach_base.specs.fab_zoning.Zonings.{permits};
ghost use Rattle.fab_store_rows.specs.Tidy.{IsTidy};
ghost use Rattle.fab_store_edits.specs.Rows.{name_row, flag_row};
ghost use Rattle.fab_store_edits.specs.Inner.Edits.{Is, IsPut, HasRival};

use fab_reach_base::Config;
use fab_reach_base::names::{Fabric, Name};
use fab_reach_base::zoning::DefaultFlag;
use fab_store_rows::{ConfigRow, SettingRow};
use std::alloc::Allocator;
use std::collections::BTreeSet;

/// Sets the name of a fabric's active set, or none.
fn set_name<A: Allocator + Copy>(config: &mut Config<A>, fabric: Fabric, name: Option<Name>)
    ensures set { IsPut (Is (name_row fabric config.old)) (config_row.Setting (setting.ActiveSet fabric name)) config.old config.new }
    ensures tidy { IsTidy config.old → IsTidy config.new }
{
    match fabric {
        Fabric::A => config.a.set_active_name(name),
        Fabric::B => config.b.set_active_name(name),
    }
}

/// Sets what a fabric's default zone permits.
fn set_flag<A: Allocator + Copy>(config: &mut Config<A>, fabric: Fabric, permit: bool)
    ensures set { IsPut (Is (flag_row fabric config.old)) (config_row.Setting (setting.DefaultZone fabric permit)) config.old config.new }
    ensures tidy { IsTidy config.old → IsTidy config.new }
{
    match fabric {
        Fabric::A => config.a.set_default(DefaultFlag::permitting(permit)),
        Fabric::B => config.b.set_default(DefaultFlag::permitting(permit)),
    }
}

/// Puts a name in place of the one that goes.
fn put_name<A: Allocator + Copy>(
    config: &mut Config<A>,
    going: &BTreeSet<ConfigRow, A>,
    fabric: Fabric,
    name: Option<Name>,
) -> bool
    requires fresh { ¬ IsSetting config.old (setting.ActiveSet fabric name) }
    ensures put { result ≡ true → IsPut (Has going.now) (config_row.Setting (setting.ActiveSet fabric name)) config.old config.new }
    ensures refused { result ≡ false → HasRival (Has going.now) config.old (config_row.Setting (setting.ActiveSet fabric name)) }
    ensures tidy { IsTidy config.old → IsTidy config.new }
{
    let now = SettingRow::ActiveSet(fabric, config.zoning(fabric).active());
    if !going.contains(&ConfigRow::Setting(now)) {
        return false;
    }
    set_name(config, fabric, name);
    true
}

/// Puts what the default zone permits in place of what goes.
fn put_flag<A: Allocator + Copy>(
    config: &mut Config<A>,
    going: &BTreeSet<ConfigRow, A>,
    fabric: Fabric,
    permit: bool,
) -> bool
    requires fresh { ¬ IsSetting config.old (setting.DefaultZone fabric permit) }
    ensures put { result ≡ true → IsPut (Has going.now) (config_row.Setting (setting.DefaultZone fabric permit)) config.old config.new }
    ensures refused { result ≡ false → HasRival (Has going.now) config.old (config_row.Setting (setting.DefaultZone fabric permit)) }
    ensures tidy { IsTidy config.old → IsTidy config.new }
{
    let now = SettingRow::DefaultZone(fabric, config.zoning(fabric).flag().permits());
    if !going.contains(&ConfigRow::Setting(now)) {
        return false;
    }
    set_flag(config, fabric, permit);
    true
}

/// Puts a setting in place of the one that goes.
pub fn put_setting<A: Allocator + Copy>(
    config: &mut Config<A>,
    going: &BTreeSet<ConfigRow, A>,
    row: &SettingRow,
) -> bool
    requires fresh { ¬ IsSetting config.old row.now }
    ensures put { result ≡ true → IsPut (Has going.now) (config_row.Setting row.now) config.old config.new }
    ensures refused { result ≡ false → HasRival (Has going.now) config.old (config_row.Setting row.now) }
    ensures tidy { IsTidy config.old → IsTidy config.new }
{
    match row {
        SettingRow::ActiveSet(fabric, name) => put_name(config, going, *fabric, *name),
        SettingRow::DefaultZone(fabric, permit) => put_flag(config, going, *fabric, *permit),
    }
}
