//! Ports, and the records of port lists.

ghost use Rattle.std.specs.Prelude.{◌≡◌, None};

use fab_names::{Address, Fabric, Name, Place, Wwn};

/// A port as the inventory knows it.
#[derive(Clone, Copy)]
pub struct Port {
    /// Its N_Port_Name.
    pub name: Wwn,
    /// The Node_Name of its node, which the ports of one node share.
    pub node: Wwn,
    /// Where it is logged in: a fabric, and a place in it. A port is logged in at one place at
    /// most.
    pub at: Option<(Fabric, Place)>,
    /// The address that it has there, if one is known. A port that is logged in nowhere has none;
    /// two ports may have one address.
    pub address: Option<Address>,
    /// The host or the array that holds it.
    pub holder: Option<Name>,
}

/// What is known of a port beside its name.
#[derive(Clone, Copy, PartialEq, Eq)]
pub struct Known {
    /// The Node_Name of its node.
    pub node: Wwn,
    /// Where it is logged in, if anywhere.
    pub at: Option<(Fabric, Place)>,
    /// The address that it has there, if one is known.
    pub address: Option<Address>,
    /// Who holds it, if anybody.
    pub holder: Option<Name>,
}

/// What is known of a port beside its name and its address.
#[derive(Clone, Copy, PartialEq, Eq)]
pub struct Seat {
    /// The Node_Name of its node.
    pub node: Wwn,
    /// Where it is logged in, if anywhere.
    pub at: Option<(Fabric, Place)>,
    /// Who holds it, if anybody.
    pub holder: Option<Name>,
}

/// A record of one fabric's port list: a port that is logged in there.
#[derive(Clone, Copy, PartialEq, Eq)]
pub struct PortRow {
    /// The N_Port_Name.
    pub name: Wwn,
    /// The Node_Name.
    pub node: Wwn,
    /// Where in the fabric it is logged in.
    pub place: Place,
    /// The address that it has there, if the list tells one.
    pub address: Option<Address>,
}

impl PortRow {
    /// A record that tells no address.
    pub fn plain(name: Wwn, node: Wwn, place: Place) -> PortRow
        ensures { result ≡ record { name = name; node = node; place = place; address = None } }
    {
        PortRow {
            name,
            node,
            place,
            address: None,
        }
    }
}
