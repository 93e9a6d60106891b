//! What the desk answers where the inventory refuses.
ghost use Rattle.std.specs.Prelude.{◌≡◌};
ghost use Rattle.fab_desk_commands.specs.Answered.{answered_limit, answered};

use fab_desk_base::{DeskFault, DeskLimit};
use fab_reach_base::inventory::{InventoryFault, InventoryLimit};
use fab_world::plans::Item;

/// What the desk answers to a limit of the inventory. Two of them are passed by values that no
/// body gives.
fn limit_refusal(limit: InventoryLimit) -> DeskFault
    ensures { result ≡ answered_limit limit }
{
    match limit {
        InventoryLimit::Ports => DeskFault::Limit(DeskLimit::Ports),
        InventoryLimit::Holders => DeskFault::Limit(DeskLimit::Holders),
        InventoryLimit::Volumes => DeskFault::Limit(DeskLimit::Volumes),
        InventoryLimit::PortsOfHolder | InventoryLimit::Bytes => DeskFault::BadBody { line: 0 },
    }
}

/// What the desk answers to a fault of the inventory.
pub(crate) fn refusal(fault: InventoryFault) -> DeskFault
    ensures { result ≡ answered fault }
{
    match fault {
        InventoryFault::PortClash(port) => DeskFault::PortClash(port),
        InventoryFault::UnknownPort(port) => DeskFault::Unknown(Item::Port(port)),
        InventoryFault::PortHeld(port, by) => DeskFault::InUse {
            item: Item::Port(port),
            by,
        },
        InventoryFault::Unknown(name) => DeskFault::Unknown(Item::Name(name)),
        InventoryFault::WrongKind(name) => DeskFault::Exists(name),
        InventoryFault::InUse(name, by) => DeskFault::InUse {
            item: Item::Name(name),
            by,
        },
        InventoryFault::Limit(limit) => limit_refusal(limit),
        InventoryFault::Memory => DeskFault::Memory,
    }
}
