//! Places where a port may be logged in.
ghost use Rattle.std.specs.Prelude.{◌≡◌, ◌≤◌, length, get_or, Some, IfOk, IfErr, OnErr, MatchOption, IsTrue, ◌↔◌};
ghost use Rattle.std.specs.String.{string_bytes};
ghost use Rattle.fab_names.specs.Places.{Position, SpellsPosition, SpellsPlace, SpellsPrintedPlace, place_text, first_domain, last_domain, last_slot};
ghost use Rattle.fab_names.specs.Faults.{IsPositionFault, IsPlaceFault};

use crate::{NameFault, read_number};
use std::alloc::{AllocError, Allocator};
use std::fmt;
use std::marker::Model;

/// The least Domain_ID.
pub const FIRST_DOMAIN: u8 = 1;

/// The greatest Domain_ID.
pub const LAST_DOMAIN: u8 = 239;

/// The greatest physical port of a domain.
pub const LAST_SLOT: u16 = 4095;

/// A place in a fabric: the Domain_ID of a switch, 1 to 239, and a physical port of it, 0 to 4095
/// (FC-GS, the zone member by Domain_ID and physical port).
///
/// Places are ordered by domain and then by port.
#[derive(Clone, Copy, PartialEq, Eq, PartialOrd, Ord)]
pub struct Place {
    domain: u8,
    slot: u16,
}

impl Model for Place {
    ghost use Rattle.fab_names.specs.Places.{Position, IsPosition};

    ghost Value = { Position };

    ghost view = { λ p. record { domain = p.domain; slot = p.slot } };

    ghost invariant = { λ p. IsPosition (record { domain = p.domain; slot = p.slot }) };

    ghost inverse = { λ s. record { domain = s.domain; slot = s.slot } };
}

/// Whether there are digits behind a leading zero.
fn has_leading_zero(text: &str) -> bool
    ensures { IsTrue result ↔ ((get_or text.now 0 0 ≡ 48) × (2 ≤ length text.now)) }
{
    let digits = text.as_bytes();
    digits.len() >= 2 && digits[0] == b'0'
}

impl Place {
    /// The place at a domain and a physical port of it.
    pub fn new(domain: u8, slot: u16) -> Self
        requires domain { (first_domain ≤ domain) × (domain ≤ last_domain) }
        requires slot { slot ≤ last_slot }
        ensures domain { result.domain ≡ domain }
        ensures slot { result.slot ≡ slot }
    {
        Place { domain, slot }
    }

    /// Reads a place from two number texts, of its domain and its physical port.
    ///
    /// # Errors
    /// `BadChar` where one of them is no number text, `OutOfRange` where a number is out of range.
    pub fn from_texts(domain: &[u8], slot: &[u8]) -> Result<Place, NameFault>
        ensures ok { IfOk result (SpellsPosition domain.now slot.now) }
        ensures err { OnErr result ((place : Position) → ¬ SpellsPosition domain.now slot.now place) }
        ensures fault { IfErr result (IsPositionFault domain.now slot.now) }
    {
        let Some(domain) = read_number(domain) else {
            return Err(NameFault::BadChar);
        };
        let Some(slot) = read_number(slot) else {
            return Err(NameFault::BadChar);
        };
        if domain < FIRST_DOMAIN as u128
            || domain > LAST_DOMAIN as u128
            || slot > LAST_SLOT as u128
        {
            return Err(NameFault::OutOfRange);
        }
        Ok(Place {
            domain: domain as u8,
            slot: slot as u16,
        })
    }

    /// Reads a domain and a physical port, joined by a comma.
    ///
    /// # Errors
    /// `BadChar` where the text is no two number texts joined by a comma, `OutOfRange` where one
    /// of the numbers is out of range.
    pub fn read(text: &str) -> Result<Place, NameFault>
        ensures ok { IfOk result (SpellsPlace text.now) }
        ensures err { OnErr result ((place : Position) → ¬ SpellsPlace text.now place) }
        ensures fault { IfErr result (IsPlaceFault text.now) }
    {
        match text.split_once(',') {
            Some((domain, slot)) => Place::from_texts(domain.as_bytes(), slot.as_bytes()),
            None => Err(NameFault::BadChar),
        }
    }

    /// Reads the printed form of a place, and no other. It takes no memory.
    pub fn read_printed(text: &str) -> Option<Place>
        ensures { MatchOption result ((place : Position) → ¬ SpellsPrintedPlace text.now place) (SpellsPrintedPlace text.now) }
    {
        let Some((domain, slot)) = text.split_once(',') else {
            return None;
        };
        if has_leading_zero(domain) {
            return None;
        }
        if has_leading_zero(slot) {
            return None;
        }
        match Place::from_texts(domain.as_bytes(), slot.as_bytes()) {
            Ok(place) => Some(place),
            Err(_) => None,
        }
    }

    /// The Domain_ID, 1 to 239.
    pub fn domain(self) -> u8
        ensures value { result ≡ self.domain }
        ensures low { first_domain ≤ result }
        ensures high { result ≤ last_domain }
    {
        self.domain
    }

    /// The physical port, 0 to 4095.
    pub fn slot(self) -> u16
        ensures value { result ≡ self.slot }
        ensures high { result ≤ last_slot }
    {
        self.slot
    }

    /// The printed form: both numbers without leading zeros, joined by a comma.
    ///
    /// # Errors
    /// `AllocError` where there is no memory.
    pub fn print<A: Allocator>(self, alloc: A) -> Result<String<A>, AllocError>
        ensures { IfOk result (λ text. string_bytes text ≡ place_text self) }
    {
        self.to_string(alloc)
    }
}

impl fmt::Display for Place {
    ghost output = { λ place. Some (place_text place) };

    fn fmt<W: fmt::Write>(&self, f: &mut fmt::Formatter<W>) -> fmt::Result {
        let domain = self.domain;
        let slot = self.slot;
        write!(f, "{domain},{slot}")
    }
}
