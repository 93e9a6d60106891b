//! What a request asks of the desk: its kind, its path and its body as a command. A body is a plan
//! text, a port list, or JSON (RFC 8259): the ports and the tenant of a host or an array, or the array,
//! the capacity and the tenant of a volume.
//!
//! A JSON body is read as `serde_json` reads it, and is then one object with just the keys of its form.
//! Of a key that comes twice the last value counts, and the order of the keys does not matter.
#![tactic(auto)]

mod bodies;
pub mod body_laws;
mod fault;
mod holder;
pub mod laws;
mod meant;
mod paths;
pub mod port_list;
pub mod port_list_laws;
mod requests;
mod values;
mod volume;

pub use fault::BodyFault;
pub use holder::{HolderBody, read_holder};
pub use meant::Meant;
pub use paths::Subject;
pub use requests::meaning;
pub use volume::read_volume;
