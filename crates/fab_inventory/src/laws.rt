//! Laws of inventories: each is the contract of a function that does nothing.
ghost use Rattle.std.specs.Prelude.{◌↔◌};
ghost use Rattle.fab_inventory.specs.Inventories.{InventoryRows, IsSound};
ghost use Rattle.fab_inventory.specs.Restores.{ArePortsSound, AreAddressesSound, AreHoldersSound, AreVolumesSound};

/// An inventory is sound where its ports, their addresses, its holders and its volumes are.
pub fn sound_by_parts()
    ensures { (v : InventoryRows) → IsSound v ↔ (ArePortsSound v.ports v.holders × AreAddressesSound v.ports × AreHoldersSound v.holders × AreVolumesSound v.holders v.volumes) }
{}
