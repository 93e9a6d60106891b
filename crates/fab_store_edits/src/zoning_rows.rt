//! Rows of a fabric's zoning put in and taken out.
ghost use Rattle.std.specs.Prelude.{◌≡◌, OnOk};
ghost use Rattle.fab_store_rows.specs.declared.config_row.ConfigRow.TheVariants.{Zoning as ZoningOf, Active};
ghost use Rattle.fab_store_rows.specs.Tidy.{HasNoEmptySet, IsTidy};
ghost use Rattle.fab_store_edits.specs.Inner.Edits.{NoRow, IsPut, IsTaken};
ghost use Rattle.fab_store_edits.specs.Inner.ZoningEdits.{PutsItem, TakesItem};

use fab_reach_base::Config;
use fab_reach_base::names::Fabric;
use fab_reach_base::zoning::Zoning;
use fab_store_rows::{ActiveRow, ZoningItem, ZoningRow};
use std::alloc::{AllocError, Allocator};

/// Puts an item into an alias, a zone or a zone set.
fn put_item_in<A: Allocator + Copy>(
    zoning: &mut Zoning<A>,
    item: &ZoningItem,
) -> Result<(), AllocError>
    ensures put { OnOk result (PutsItem item.now zoning.old zoning.new) }
    ensures some { HasNoEmptySet zoning.old → HasNoEmptySet zoning.new }
    ensures fabric { zoning.new.fabric ≡ zoning.old.fabric }
{
    match item {
        ZoningItem::Alias(name, member) => zoning.add_to_alias(*name, *member),
        ZoningItem::Zone(name, member) => zoning.add_to_zone(*name, *member),
        ZoningItem::Set(name, zone) => zoning.add_to_set(*name, *zone),
    }
}

/// Takes an item out of an alias, a zone or a zone set.
fn take_item_of<A: Allocator + Copy>(zoning: &mut Zoning<A>, item: &ZoningItem)
    ensures taken { TakesItem item.now zoning.old zoning.new }
    ensures some { HasNoEmptySet zoning.old → HasNoEmptySet zoning.new }
{
    match item {
        ZoningItem::Alias(name, member) => zoning.take_from_alias(name, member),
        ZoningItem::Zone(name, member) => zoning.take_from_zone(name, member),
        ZoningItem::Set(name, zone) => zoning.take_from_set(name, zone),
    }
}

/// Puts an item of a fabric's zoning in.
///
/// # Errors
/// `AllocError` where there is no memory.
pub fn put_zoning<A: Allocator + Copy>(
    config: &mut Config<A>,
    row: &ZoningRow,
) -> Result<(), AllocError>
    ensures put { OnOk result (IsPut NoRow (ZoningOf row.now) config.old config.new) }
    ensures tidy { IsTidy config.old → IsTidy config.new }
{
    match row.fabric {
        Fabric::A => put_item_in(&mut config.a, &row.item),
        Fabric::B => put_item_in(&mut config.b, &row.item),
    }
}

/// Takes an item of a fabric's zoning out.
pub fn take_zoning<A: Allocator + Copy>(config: &mut Config<A>, row: &ZoningRow)
    ensures taken { IsTaken (ZoningOf row.now) config.old config.new }
    ensures tidy { IsTidy config.old → IsTidy config.new }
{
    match row.fabric {
        Fabric::A => take_item_of(&mut config.a, &row.item),
        Fabric::B => take_item_of(&mut config.b, &row.item),
    }
}

/// Puts an active row in.
///
/// # Errors
/// `AllocError` where there is no memory.
pub fn put_active<A: Allocator + Copy>(
    config: &mut Config<A>,
    row: &ActiveRow,
) -> Result<(), AllocError>
    ensures put { OnOk result (IsPut NoRow (Active row.now) config.old config.new) }
    ensures tidy { IsTidy config.old → IsTidy config.new }
{
    match row.fabric {
        Fabric::A => config.a.add_active(row.zone, row.member),
        Fabric::B => config.b.add_active(row.zone, row.member),
    }
}

/// Takes an active row out.
pub fn take_active<A: Allocator + Copy>(config: &mut Config<A>, row: &ActiveRow)
    ensures taken { IsTaken (Active row.now) config.old config.new }
    ensures tidy { IsTidy config.old → IsTidy config.new }
{
    match row.fabric {
        Fabric::A => config.a.take_active(&row.zone, &row.member),
        Fabric::B => config.b.take_active(&row.zone, &row.member),
    }
}
