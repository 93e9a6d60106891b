//! The inventory: which ports are known, where they are logged in, by what address, and who holds them; the hosts and
//! arrays that hold ports; and the volumes on the arrays.
#![tactic(auto)]

mod fault;
mod holder;
mod holding;
mod import;
mod inventory;
pub mod laws;
mod limits;
mod port;
mod restore;

pub use fab_lemmas as lemmas;
pub use fab_names as names;
pub use fault::{InventoryFault, InventoryLimit, RestoreFault};
pub use holder::{Holder, HolderKind, Volume};
pub use inventory::Inventory;
pub use limits::{MOST_BYTES, MOST_HOLDERS, MOST_PORTS, MOST_PORTS_OF_HOLDER, MOST_VOLUMES};
pub use port::{Known, Port, PortRow, Seat};
