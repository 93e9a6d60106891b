//! Rows of a configuration put in and taken out, one by one.
ghost use Rattle.std.specs.Prelude.{◌≡◌, true, false, OnOk, IfOk};
ghost use Rattle.fab_store_rows.specs.declared.config_row.ConfigRow.TheVariants as config_row;
ghost use Rattle.fab_store_rows.specs.Gathering.{Has};
ghost use Rattle.fab_store_rows.specs.Standing.{Stands};
ghost use Rattle.fab_store_edits.specs.Rows.{host_row, part_row};
ghost use Rattle.fab_store_rows.specs.Tidy.{IsTidy};
ghost use Rattle.fab_store_edits.specs.Inner.Edits as edits;
ghost use Rattle.fab_store_edits.specs.Inner.Edits.{NoRow, IsPut, IsTaken, IsOrphan, IsRefused};

use crate::heads::put_group;
use crate::mapping_rows::{put_host, put_part, take_host, take_part};
use crate::settings::put_setting;
use crate::zoning_rows::{put_active, put_zoning, take_active, take_zoning};
use fab_reach_base::Config;
use fab_reach_base::names::Name;
use fab_store_rows::{ConfigRow, PartRow, StoragePart, has_row};
use std::alloc::{AllocError, Allocator};
use std::collections::BTreeSet;

/// Whether there is at most one row of its key.
pub fn is_sole(row: &ConfigRow) -> bool
    ensures { result ≡ edits.is_sole row.now }
{
    match row {
        ConfigRow::Setting(_) => true,
        ConfigRow::Group(_) => true,
        _ => false,
    }
}

/// Whether it is the head of a group.
pub fn is_head(row: &ConfigRow) -> bool
    ensures { result ≡ edits.is_head row.now }
{
    match row {
        ConfigRow::Group(_) => true,
        _ => false,
    }
}

/// Puts a host into a host group.
///
/// # Errors
/// `AllocError` where there is no memory.
fn put_host_row<A: Allocator + Copy>(
    config: &mut Config<A>,
    name: &Name,
    host: &Name,
) -> Result<bool, AllocError>
    ensures put { IfOk result (λ is. is ≡ true → IsPut NoRow (host_row name.now host.now) config.old config.new) }
    ensures refused { IfOk result (λ is. is ≡ false → IsOrphan config.old (host_row name.now host.now)) }
    ensures tidy { IsTidy config.old → IsTidy config.new }
{
    put_host(&mut config.mapping, name, host)
}

/// Puts a part into a storage group.
///
/// # Errors
/// `AllocError` where there is no memory.
fn put_storage_row<A: Allocator + Copy>(
    config: &mut Config<A>,
    going: &BTreeSet<ConfigRow, A>,
    name: &Name,
    part: &StoragePart,
) -> Result<bool, AllocError>
    ensures put { IfOk result (λ is. is ≡ true → IsPut NoRow (part_row name.now part.now) config.old config.new) }
    ensures refused { IfOk result (λ is. is ≡ false → IsRefused (Has going.now) config.old (part_row name.now part.now)) }
    ensures tidy { IsTidy config.old → IsTidy config.new }
{
    let _going = going;
    put_part(&mut config.mapping, name, part)
}

/// Puts a part into a group.
///
/// # Errors
/// `AllocError` where there is no memory.
fn put_part_row<A: Allocator + Copy>(
    config: &mut Config<A>,
    going: &BTreeSet<ConfigRow, A>,
    row: &PartRow,
) -> Result<bool, AllocError>
    ensures put { IfOk result (λ is. is ≡ true → IsPut NoRow (config_row.Part row.now) config.old config.new) }
    ensures refused { IfOk result (λ is. is ≡ false → IsRefused (Has going.now) config.old (config_row.Part row.now)) }
    ensures tidy { IsTidy config.old → IsTidy config.new }
{
    match row {
        PartRow::Host(name, host) => put_host_row(config, name, host),
        PartRow::Storage(name, part) => put_storage_row(config, going, name, part),
    }
}

/// Puts a row in that does not stand, and takes the sole row of its key out, if that goes.
///
/// # Errors
/// `AllocError` where there is no memory.
fn put_new<A: Allocator + Copy>(
    alloc: A,
    config: &mut Config<A>,
    going: &BTreeSet<ConfigRow, A>,
    row: &ConfigRow,
) -> Result<bool, AllocError>
    requires fresh { ¬ Stands config.old row.now }
    ensures put { IfOk result (λ is. is ≡ true → IsPut (Has going.now) row.now config.old config.new) }
    ensures refused { IfOk result (λ is. is ≡ false → IsRefused (Has going.now) config.old row.now) }
    ensures tidy { IsTidy config.old → IsTidy config.new }
{
    match row {
        ConfigRow::Setting(setting) => Ok(put_setting(config, going, setting)),
        ConfigRow::Zoning(item) => {
            put_zoning(config, item)?;
            Ok(true)
        }
        ConfigRow::Active(active) => {
            put_active(config, active)?;
            Ok(true)
        }
        ConfigRow::Group(head) => put_group(alloc, config, going, head),
        ConfigRow::Part(part) => put_part_row(config, going, part),
    }
}

/// Puts a row in, and takes the sole row of its key out, if that goes. It answers whether it has: where
/// it has not, no configuration has this row beside what stays, and the configuration may be another.
///
/// # Errors
/// `AllocError` where there is no memory.
pub fn put_row<A: Allocator + Copy>(
    alloc: A,
    config: &mut Config<A>,
    going: &BTreeSet<ConfigRow, A>,
    row: &ConfigRow,
) -> Result<bool, AllocError>
    ensures put { IfOk result (λ is. is ≡ true → IsPut (Has going.now) row.now config.old config.new) }
    ensures refused { IfOk result (λ is. is ≡ false → IsRefused (Has going.now) config.old row.now) }
    ensures tidy { IsTidy config.old → IsTidy config.new }
{
    if has_row(config, row) {
        return Ok(true);
    }
    put_new(alloc, config, going, row)
}

/// Takes a part out of a group.
///
/// # Errors
/// `AllocError` where there is no memory.
fn take_part_row<A: Allocator + Copy>(
    config: &mut Config<A>,
    row: &PartRow,
) -> Result<(), AllocError>
    ensures taken { OnOk result (IsTaken (config_row.Part row.now) config.old config.new) }
    ensures tidy { IsTidy config.old → IsTidy config.new }
{
    match row {
        PartRow::Host(name, host) => take_host(&mut config.mapping, name, host),
        PartRow::Storage(name, part) => take_part(&mut config.mapping, name, part),
    }
}

/// Takes a row out, if it is none of those of which there is one of a key.
///
/// # Errors
/// `AllocError` where there is no memory.
pub fn take_row<A: Allocator + Copy>(
    config: &mut Config<A>,
    row: &ConfigRow,
) -> Result<(), AllocError>
    ensures taken { OnOk result (edits.is_sole row.now ≡ false → IsTaken row.now config.old config.new) }
    ensures tidy { IsTidy config.old → IsTidy config.new }
{
    match row {
        ConfigRow::Zoning(item) => {
            take_zoning(config, item);
            Ok(())
        }
        ConfigRow::Active(active) => {
            take_active(config, active);
            Ok(())
        }
        ConfigRow::Part(part) => take_part_row(config, part),
        _ => Ok(()),
    }
}
