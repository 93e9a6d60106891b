//! What one inventory has and another has not, where they are one but for a volume.
ghost use Rattle.std.specs.Prelude.{◌≡◌, IfOk};
ghost use Rattle.std.specs.FinMap as map;
ghost use Rattle.std.specs.Option.{option_map};
ghost use Rattle.fab_store_world.specs.Inventories.{AreListsOf, AreOneButVolume, IsKnownOnlyIn, IsInventoryDifference, volume_row};

use crate::inventories::{InventoryDifference, InventoryLists, push_lacking};
use crate::row_tables::{Table, Volumes};
use fab_reach_base::inventory::Inventory;
use fab_reach_base::names::Name;
use fab_world::load::rows::VolumeRow;
use std::alloc::{AllocError, Allocator};

/// The row of the volume of this name, if there is one.
fn row_at<A: Allocator + Copy>(inventory: &Inventory<A>, name: &Name) -> Option<VolumeRow>
    ensures { result ≡ option_map (volume_row name.now) (map.get inventory.now.volumes name.now) }
{
    match inventory.volume(name) {
        Some(volume) => Volumes.row(name, &volume),
        None => None,
    }
}

/// The rows of an inventory that do not stand in the other: at most that of the volume of this name.
fn lists_only_at<A: Allocator + Copy>(
    alloc: A,
    inventory: &Inventory<A>,
    other: &Inventory<A>,
    name: &Name,
) -> Result<InventoryLists<A>, AllocError>
    requires { AreOneButVolume inventory.now other.now name.now }
    ensures { IfOk result (AreListsOf (IsKnownOnlyIn inventory.now other.now)) }
{
    let mut volumes = Vec::new(alloc);
    push_lacking(&mut volumes, &Volumes, other, row_at(inventory, name))?;
    Ok(InventoryLists {
        ports: Vec::new(alloc),
        entries: Vec::new(alloc),
        addresses: Vec::new(alloc),
        holders: Vec::new(alloc),
        volumes,
    })
}

/// What one inventory's rows have and another's have not, both ways, where they are one but for the
/// volume of this name. It looks that up in both, and walks through neither.
///
/// # Errors
/// `AllocError` where there is no memory.
pub fn volume_difference<A: Allocator + Copy>(
    alloc: A,
    before: &Inventory<A>,
    after: &Inventory<A>,
    name: &Name,
) -> Result<InventoryDifference<A>, AllocError>
    requires { AreOneButVolume before.now after.now name.now }
    ensures { IfOk result (IsInventoryDifference before.now after.now) }
{
    let taken = lists_only_at(alloc, before, after, name)?;
    let added = lists_only_at(alloc, after, before, name)?;
    Ok(InventoryDifference { taken, added })
}
