//! Rows of an inventory, one type a table. A port with its address is a `Port`: in the tables it is a
//! `PortEntry`, and an `AddressRow` if it has an address.

use fab_reach_base::inventory::{HolderKind, Port};
use fab_reach_base::names::{Address, Fabric, Name, Place, Wwn};

/// A port without its address: its N_Port_Name, the Node_Name of its node, where it is logged in if
/// anywhere, and who holds it if anybody.
#[derive(Clone, Copy, PartialEq, Eq)]
pub struct PortEntry {
    /// Its N_Port_Name.
    pub name: Wwn,
    /// The Node_Name of its node.
    pub node: Wwn,
    /// The fabric and the place in it where it is logged in, if anywhere.
    pub at: Option<(Fabric, Place)>,
    /// The host or the array that holds it, if one does.
    pub holder: Option<Name>,
}

/// The address of a port: the port's N_Port_Name, and the address that it has where it is logged in.
#[derive(Clone, Copy)]
pub struct AddressRow {
    /// The N_Port_Name of the port.
    pub port: Wwn,
    /// The address that it has where it is logged in.
    pub address: Address,
}

/// A host or an array: its name, which of both it is, and whose it is.
#[derive(Clone, Copy)]
pub struct HolderRow {
    /// Its name.
    pub name: Name,
    /// Whether it is a host or an array.
    pub kind: HolderKind,
    /// Whose it is.
    pub tenant: Name,
}

/// A volume (SNIA Swordfish): its name, the array that it is on, whose it is, and how many bytes it
/// has, 1 to 9223372036854775807.
#[derive(Clone, Copy)]
pub struct VolumeRow {
    /// Its name.
    pub name: Name,
    /// The array that it is on.
    pub array: Name,
    /// Whose it is.
    pub tenant: Name,
    /// How many bytes it has: 1 to 9223372036854775807.
    pub bytes: u64,
}

/// A row of an inventory: a whole port, or else a variant a table.
#[derive(Clone, Copy)]
pub enum InventoryRow {
    /// A port with its address, which no table has in one row.
    Port(Port),
    /// A port without its address.
    Entry(PortEntry),
    /// The address of a port.
    Address(AddressRow),
    /// A host or an array.
    Holder(HolderRow),
    /// A volume.
    Volume(VolumeRow),
}
