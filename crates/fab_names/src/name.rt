//! Names of records: aliases, zones, zone sets, hosts, arrays, volumes, groups and callers.
ghost use Rattle.std.specs.Prelude.{◌≡◌, ℕ, ◌+◌, ◌-◌, ◌<◌, ◌≤◌, ◌++◌, List, length, take, drop, replicate, Some, refl, nat_eq, IfOk, IfErr, OnErr};
ghost use Rattle.std.specs.Str.{chars};
ghost use Rattle.std.specs.String.{string_bytes};
ghost use Rattle.std.specs.List.{list_all};
ghost use Rattle.std.specs.Ordering.{nat_cmp};
ghost use Rattle.std.specs.Cmp.{partial_equiv_from_equiv};
ghost use Rattle.std.specs.Cmp.Lexicographic.{pointwise, slice_cmp, nat_list_eq_equiv, nat_list_cmp_total, texts_po, texts_ties};
ghost use Rattle.fab_names.specs.Names as names;
ghost use Rattle.fab_names.specs.Faults.{IsNameFault};

use crate::NameFault;
use std::alloc::{AllocError, Allocator};
use std::cmp::Ordering;
use std::marker::Model;
use std::{fmt, str};

/// How many characters a name has at most.
pub const MOST_CHARACTERS: usize = 64;

/// How many bytes a name has room for.
const ROOM: usize = MOST_CHARACTERS;

/// A name of 1 to 64 characters: first an ASCII letter, then letters, digits, `_`, `-`, `$`, `^`.
///
/// This is the zone name of FC-GS (Fabric Zone Server). Case counts, and names are ordered by
/// their bytes. A name lies in the value itself: it is copied, and takes no memory. A contract
/// sees it as its bytes.
#[derive(Clone, Copy)]
pub struct Name {
    bytes: [u8; ROOM],
    len: usize,
}

impl Model for Name {
    ghost use Rattle.std.specs.Prelude.{ℕ, ◌≡◌, ◌-◌, ◌≤◌, ◌++◌, List, length, take, drop, replicate};
    ghost use Rattle.fab_names.specs.Names.{IsNameText};
    ghost use Rattle.fab_names.specs.Padded.{padded_back};

    ghost Value = { List ℕ };

    ghost view = { λ s. take s.len s.bytes };

    ghost invariant = { λ s. (s.len ≤ 64) × (length s.bytes ≡ 64) × (drop s.len s.bytes ≡ replicate (64 - s.len) 0) × IsNameText (take s.len s.bytes) };

    ghost inverse = { λ v. record { bytes = v ++ replicate (64 - length v) 0; len = length v } };

    ghost inverse_ok = { λ s h i. record {
      bytes = (padded_back s.len s.bytes h.0 h.1 h.2).0 i;
      len = (padded_back s.len s.bytes h.0 h.1 h.2).1 i;
    } };
}

/// Whether a name may hold the character.
fn is_name_char(c: u8) -> bool
    ensures { result ≡ names.is_name_char c }
{
    c.is_ascii_alphanumeric() || c == b'_' || c == b'-' || c == b'$' || c == b'^'
}

/// Whether a name may hold each character.
fn all_name_chars(text: &[u8]) -> bool
    ensures { result ≡ list_all names.is_name_char text.now }
{
    text.iter().all(|c| is_name_char(*c))
}

/// How many characters the text has.
fn characters_in(text: &str) -> usize
    ensures { result ≡ length (chars text.now) }
{
    text.chars().count()
}

/// The bytes, and zeros behind them.
fn padded(text: &[u8]) -> [u8; ROOM]
    requires { length text.now ≤ 64 }
    ensures { result ≡ text.now ++ replicate (64 - length text.now) 0 }
{
    let mut bytes = [0; ROOM];
    for (i, c) in text.iter().enumerate() {
        bytes[i] = *c;
    }
    bytes
}

impl Name {
    /// Reads a name.
    ///
    /// # Errors
    /// `Empty`, `TooLong` for more than 64 characters, or `BadChar` where the first character is no
    /// letter or another is none that a name may hold.
    #[tactic(auto, using(crate::proofs::Characters::too_long, crate::proofs::Characters::as_many))]
    pub fn read(text: &str) -> Result<Name, NameFault>
        ensures ok { IfOk result (names.SpellsName text.now) }
        ensures err { OnErr result (¬ names.IsNameText text.now) }
        ensures fault { IfErr result (IsNameFault text.now) }
    {
        if characters_in(text) > MOST_CHARACTERS {
            return Err(NameFault::TooLong);
        }
        let text = text.as_bytes();
        if text.is_empty() {
            return Err(NameFault::Empty);
        }
        if !text[0].is_ascii_alphabetic() {
            return Err(NameFault::BadChar);
        }
        if !all_name_chars(text) {
            return Err(NameFault::BadChar);
        }
        Ok(Name {
            bytes: padded(text),
            len: text.len(),
        })
    }

    /// The name as text.
    pub fn as_str(&self) -> &str
        ensures text { result.now ≡ self.now }
        ensures name { names.IsNameText result.now }
    {
        unsafe { str::from_utf8_unchecked(&self.bytes[..self.len]) }
    }

    /// The bytes of the name.
    pub fn as_bytes(&self) -> &[u8]
        ensures text { result.now ≡ self.now }
        ensures name { names.IsNameText result.now }
    {
        &self.bytes[..self.len]
    }

    /// The printed form of the name: its own characters.
    ///
    /// # Errors
    /// `AllocError` where there is no memory.
    pub fn print<A: Allocator>(&self, alloc: A) -> Result<String<A>, AllocError>
        ensures { IfOk result (λ text. string_bytes text ≡ self.now) }
    {
        self.as_str().to_string(alloc)
    }
}

impl PartialEq for Name {
    ghost eq = { pointwise nat_eq };

    ghost laws = { partial_equiv_from_equiv nat_list_eq_equiv };

    fn eq(&self, other: &Self) -> bool {
        self.as_bytes() == other.as_bytes()
    }
}

impl Eq for Name {
    ghost laws = { nat_list_eq_equiv };
}

impl PartialOrd for Name {
    ghost partial_cmp = { λ s t. Some (slice_cmp nat_cmp s t) };

    ghost laws = { texts_po };

    fn partial_cmp(&self, other: &Self) -> Option<Ordering> {
        Some(self.cmp(other))
    }
}

impl Ord for Name {
    ghost cmp = { slice_cmp nat_cmp };

    ghost total = { nat_list_cmp_total };

    ghost matches_partial_cmp = { λ s t. refl };

    ghost matches_eq = { texts_ties };

    fn cmp(&self, other: &Self) -> Ordering {
        self.as_bytes().cmp(other.as_bytes())
    }
}

impl fmt::Display for Name {
    ghost output = { λ name. Some name };

    fn fmt<W: fmt::Write>(&self, f: &mut fmt::Formatter<W>) -> fmt::Result {
        f.pad(self.as_str())
    }
}

impl fmt::Debug for Name {
    fn fmt<W: fmt::Write>(&self, f: &mut fmt::Formatter<W>) -> fmt::Result {
        fmt::Debug::fmt(&self.as_str(), f)
    }
}
