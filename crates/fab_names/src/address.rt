//! Addresses of ports in a fabric.
ghost use Rattle.std.specs.Prelude.{◌≡◌, ℕ, ◌<◌, ◌≤◌, length, IfOk, IfErr, OnErr, MatchOption, Some, EachIndex, slice_index, true};
ghost use Rattle.std.specs.Char.{is_ascii_hexdigit};
ghost use Rattle.std.specs.Str.{IsUtf8};
ghost use Rattle.std.specs.String.{string_bytes};
ghost use Rattle.fab_names.specs.Addresses as spec;
ghost use Rattle.fab_names.specs.Faults.{IsAddressFault};

use crate::NameFault;
use crate::wwn::{are_hexadecimal, byte, hex_digit};
use std::alloc::{AllocError, Allocator};
use std::marker::Model;
use std::{fmt, str};

/// The least address: the first of domain 1.
pub const FIRST_ADDRESS: u32 = 0x010000;

/// The greatest address: the last of domain 239.
pub const LAST_ADDRESS: u32 = 0xEFFFFF;

/// The N_Port_ID of a port that is logged in: 24 bits, of a domain, 1 to 239, an area and a port of
/// 8 bits each (FC-FS, address identifiers; FC-GS, the zone member by N_Port_ID).
///
/// Addresses are ordered as numbers. A contract sees an address as its number.
#[derive(Clone, Copy, PartialEq, Eq, PartialOrd, Ord)]
pub struct Address {
    number: u32,
}

impl Model for Address {
    ghost use Rattle.std.specs.Prelude.{ℕ};
    ghost use Rattle.fab_names.specs.Addresses.{IsAddress};

    ghost Value = { ℕ };

    ghost view = { λ a. a.number };

    ghost invariant = { λ a. IsAddress a.number };

    ghost inverse = { λ n. record { number = n } };
}

/// The six digits of a text, where it is laid out as one of the two forms.
fn six_in(t: &[u8]) -> Option<[u8; 6]>
    ensures { MatchOption result ((ds : _) → length ds ≡ 6 → ¬ spec.IsSixOf ds t.now) (λ ds. spec.IsSixOf ds t.now) }
{
    if t.len() == 6 {
        Some([t[0], t[1], t[2], t[3], t[4], t[5]])
    } else if t.len() == 8 && t[0] == b'0' && t[1] == b'x' {
        Some([t[2], t[3], t[4], t[5], t[6], t[7]])
    } else {
        None
    }
}

/// The value of six digits.
fn number_of(d: &[u8; 6]) -> u32
    requires { EachIndex d.now (λ k. is_ascii_hexdigit (slice_index d.now k) ≡ true) }
    ensures { result ≡ spec.number_of d.now }
{
    let domain = byte(d[0], d[1]) as u32;
    let area = byte(d[2], d[3]) as u32;
    let port = byte(d[4], d[5]) as u32;
    domain * 65536 + area * 256 + port
}

/// Six lower-case digits.
fn letters_of(number: u32) -> [u8; 6]
    requires { number < 16777216 }
    ensures { result ≡ spec.address_text number }
{
    let domain = (number / 65536) as u8;
    let area = (number / 256 % 256) as u8;
    let port = (number % 256) as u8;
    [
        hex_digit(domain / 16),
        hex_digit(domain % 16),
        hex_digit(area / 16),
        hex_digit(area % 16),
        hex_digit(port / 16),
        hex_digit(port % 16),
    ]
}

impl Address {
    /// Reads six hexadecimal digits of either case, plain or after `0x`. It takes no memory.
    ///
    /// # Errors
    /// `BadLength` where the text is laid out in none of these forms, `BadChar` where a digit is
    /// none, `OutOfRange` where the domain, which the first two digits write, is not 1 to 239.
    pub fn read(text: &str) -> Result<Address, NameFault>
        ensures ok { IfOk result (spec.SpellsAddress text.now) }
        ensures err { OnErr result ((n : ℕ) → ¬ spec.SpellsAddress text.now n) }
        ensures fault { IfErr result (IsAddressFault text.now) }
    {
        let Some(digits) = six_in(text.as_bytes()) else {
            return Err(NameFault::BadLength);
        };
        if !are_hexadecimal(&digits) {
            return Err(NameFault::BadChar);
        }
        let number = number_of(&digits);
        if number < FIRST_ADDRESS || number > LAST_ADDRESS {
            return Err(NameFault::OutOfRange);
        }
        Ok(Address { number })
    }

    /// Reads the printed form of an address, and no other. It takes no memory.
    pub fn read_printed(text: &str) -> Option<Address>
        ensures { MatchOption result ((n : ℕ) → ¬ spec.SpellsPrintedAddress text.now n) (spec.SpellsPrintedAddress text.now) }
    {
        let Ok(address) = Address::read(text) else {
            return None;
        };
        let letters = address.letters();
        if text.as_bytes() != &letters[..] {
            return None;
        }
        Some(address)
    }

    /// The number of the address.
    pub fn number(self) -> u32
        ensures value { result ≡ self }
        ensures low { 65536 ≤ result }
        ensures high { result < 15728640 }
    {
        self.number
    }

    /// The characters of the printed form, without memory.
    pub fn letters(self) -> [u8; 6]
        ensures value { result ≡ spec.address_text self }
        ensures text { IsUtf8 result }
    {
        letters_of(self.number)
    }

    /// The printed form: six lower-case digits.
    ///
    /// # Errors
    /// `AllocError` where there is no memory.
    pub fn print<A: Allocator>(self, alloc: A) -> Result<String<A>, AllocError>
        ensures { IfOk result (λ text. string_bytes text ≡ spec.address_text self) }
    {
        self.to_string(alloc)
    }
}

impl fmt::Display for Address {
    ghost output = { λ address. Some (spec.address_text address) };

    fn fmt<W: fmt::Write>(&self, f: &mut fmt::Formatter<W>) -> fmt::Result {
        let letters = self.letters();
        f.pad(unsafe { str::from_utf8_unchecked(&letters) })
    }
}
