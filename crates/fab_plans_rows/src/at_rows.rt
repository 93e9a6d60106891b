//! What is gone, at the rows that came.
ghost use Rattle.std.specs.Prelude.{List, MatchOption};
ghost use Rattle.std.specs.FinMap as map;
ghost use Rattle.fab_lemmas.specs.Firsts.{IsFirstOf, HasAt};
ghost use Rattle.fab_mapping_base.specs.Groups.{StorageGroupRows};
ghost use Rattle.fab_mapping.specs.Gone.{IsFirstGone};
ghost use Rattle.fab_mapping.specs.Soundness.{Fits};
ghost use Rattle.fab_reach_base.specs.Records.{ConfigRows};
ghost use Rattle.fab_store_rows.specs.declared.config_row.ConfigRow.{ConfigRow as Row};
ghost use Rattle.fab_store_rows.specs.declared.config_row.ConfigRow.TheVariants as config_row;
ghost use Rattle.fab_store_edits.specs.Led.{IsLed};
ghost use Rattle.fab_plans_rows.specs.Inner.Losses.{lost_cmp, PartLacks, GroupLacks, RowLacks, Among};

use crate::lost::{Lost, first_lost, lost_host, lost_part, told};
use fab_inventory::Inventory;
use fab_lemmas::lesser;
use fab_mapping::{Gone, Mapping};
use fab_names::Name;
use fab_reach_base::Config;
use fab_store_rows::{ConfigRow, GroupRow, PartRow, StoragePart};
use std::alloc::Allocator;

/// The first that is gone of the storage group of this name.
fn lost_at<A: Allocator + Copy>(
    inventory: &Inventory<A>,
    mapping: &Mapping<A>,
    name: &Name,
) -> Option<Lost>
    ensures { IsFirstOf lost_cmp (λ x. HasAt (map.get mapping.now.groups) (λ (g : StorageGroupRows). GroupLacks inventory.now g x) name.now) result }
{
    match mapping.group(name) {
        Some(group) => first_lost(inventory, group),
        None => None,
    }
}

/// What is gone of this part of the storage group of this name.
fn lost_part_at<A: Allocator + Copy>(
    inventory: &Inventory<A>,
    mapping: &Mapping<A>,
    name: &Name,
    part: &StoragePart,
) -> Option<Lost>
    ensures { IsFirstOf lost_cmp (λ x. HasAt (map.get mapping.now.groups) (λ (g : StorageGroupRows). PartLacks inventory.now g part.now x) name.now) result }
{
    match mapping.group(name) {
        Some(group) => lost_part(inventory, group, part),
        None => None,
    }
}

/// The first that is gone of a group whose head came. The hosts of a host group are looked at where
/// they came.
fn lost_of_head<A: Allocator + Copy>(
    inventory: &Inventory<A>,
    mapping: &Mapping<A>,
    row: &GroupRow,
) -> Option<Lost>
    ensures { IsFirstOf lost_cmp (RowLacks inventory.now (map.get mapping.now.groups) (config_row.Group row.now)) result }
{
    match row {
        GroupRow::Host(_) => None,
        GroupRow::Storage(head) => lost_at(inventory, mapping, &head.name),
    }
}

/// What is gone of a part that came.
fn lost_of_part<A: Allocator + Copy>(
    inventory: &Inventory<A>,
    mapping: &Mapping<A>,
    row: &PartRow,
) -> Option<Lost>
    ensures { IsFirstOf lost_cmp (RowLacks inventory.now (map.get mapping.now.groups) (config_row.Part row.now)) result }
{
    match row {
        PartRow::Host(_, host) => lost_host(inventory, host),
        PartRow::Storage(name, part) => lost_part_at(inventory, mapping, name, part),
    }
}

/// The first that is gone of what a row that came tells.
fn lost_of_row<A: Allocator + Copy>(
    inventory: &Inventory<A>,
    mapping: &Mapping<A>,
    row: &ConfigRow,
) -> Option<Lost>
    ensures { IsFirstOf lost_cmp (RowLacks inventory.now (map.get mapping.now.groups) row.now) result }
{
    match row {
        ConfigRow::Group(head) => lost_of_head(inventory, mapping, head),
        ConfigRow::Part(part) => lost_of_part(inventory, mapping, part),
        _ => None,
    }
}

/// The first that is gone of what the rows that came tell.
fn lost_of_rows<A: Allocator + Copy>(
    inventory: &Inventory<A>,
    mapping: &Mapping<A>,
    come: &[ConfigRow],
) -> Option<Lost>
    ensures { IsFirstOf lost_cmp (Among (RowLacks inventory.now (map.get mapping.now.groups)) come.now) result }
{
    let mut least = None;
    for row in come {
        least = lesser(least, lost_of_row(inventory, mapping, row));
    }
    least
}

/// The first that the configuration names and the inventory has not, if the configuration came of one
/// that fits the inventory by rows of which these came. Only what they name is looked at, and all of a
/// storage group whose head came: its array may be another. It takes no memory.
pub fn gone_there<A: Allocator + Copy>(
    config: &Config<A>,
    inventory: &Inventory<A>,
    come: &[ConfigRow],
) -> Option<Gone>
    ensures { (c : ConfigRows) (go : List Row) → Fits inventory.now c.mapping → IsLed c config.now go come.now → MatchOption result (Fits inventory.now config.now.mapping) (IsFirstGone inventory.now config.now.mapping) }
{
    match lost_of_rows(inventory, config.mapping(), come) {
        Some(lost) => Some(told(lost)),
        None => None,
    }
}
