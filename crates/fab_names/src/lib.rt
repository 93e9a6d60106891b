//! The names that zoning and mapping speak of, and their texts: names of records, world-wide
//! names, fabrics, places and addresses in a fabric, and members of zones; and the form of a caller's token.
//!
//! Each type has `read`, which accepts exactly its text forms, `print`, which gives its printed
//! form, and a `Display` that writes the same bytes without memory.
#![tactic(auto)]

mod address;
mod bytes;
mod fabric;
pub mod laws;
mod member;
mod name;
mod number;
mod place;
mod tokens;
mod wwn;

pub use address::{Address, FIRST_ADDRESS, LAST_ADDRESS};
pub use bytes::{read_address, read_fabric, read_name, read_wwn};
pub use fabric::Fabric;
pub use member::Member;
pub use name::{MOST_CHARACTERS, Name};
pub use number::{MOST_DIGITS, read_number};
pub use place::{FIRST_DOMAIN, LAST_DOMAIN, LAST_SLOT, Place};
pub use tokens::{MOST_TOKEN_BYTES, is_token};
pub use wwn::{PlainWwn, Wwn};

/// Why a text is not read. Where several faults stand in a text, any one of them is answered.
#[derive(Clone, Copy, Debug, Drop)]
pub enum NameFault {
    /// The text is empty.
    Empty,
    /// The text has more than 64 characters.
    TooLong,
    /// A character, or the form of the text, is none that the type allows.
    BadChar,
    /// The text is laid out in none of the forms of a world-wide name, or of an address.
    BadLength,
    /// A world-wide name is zero.
    Zero,
    /// A number is outside its range.
    OutOfRange,
    /// There was no memory. No reader here takes any.
    Memory,
}
