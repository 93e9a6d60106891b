//! World-wide names: N_Port_Names and Node_Names.
ghost use Rattle.std.specs.Prelude.{◌≡◌, ℕ, ◌+◌, ◌*◌, ◌<◌, length, IfOk, IfErr, OnErr, MatchOption, Some, IsTrue, true, ◌↔◌, EachIndex, slice_index};
ghost use Rattle.std.specs.Char.{is_ascii_hexdigit, digit_value};
ghost use Rattle.std.specs.String.{string_bytes};
ghost use Rattle.fab_names.specs.WorldWideNames.{IsDigitsOf, SpellsWwn, HasColons, byte_of};
ghost use Rattle.fab_names.specs.WorldWideNames as spec;
ghost use Rattle.fab_names.specs.Faults.{IsWwnFault};

use crate::NameFault;
use std::alloc::{AllocError, Allocator};
use std::marker::Model;
use std::{fmt, str};

/// A world-wide name: the 64-bit N_Port_Name or Node_Name of FC-GS, which is not zero here.
///
/// Names are ordered as numbers. A contract sees a name as its number.
#[derive(Clone, Copy, Debug, PartialEq, Eq, PartialOrd, Ord)]
pub struct Wwn {
    number: u64,
}

impl Model for Wwn {
    ghost Value = { ℕ };

    ghost view = { λ w. w.number };

    ghost invariant = { λ w. 0 < w.number };

    ghost inverse = { λ n. record { number = n } };
}

/// The sixteen lower-case digits of a world-wide name, as a text.
#[derive(Clone, Copy)]
pub struct PlainWwn {
    digits: [u8; 16],
}

impl Model for PlainWwn {
    ghost use Rattle.std.specs.Prelude.{ℕ, List};
    ghost use Rattle.std.specs.Str.{IsUtf8};

    ghost Value = { List ℕ };

    ghost view = { λ p. p.digits };

    ghost invariant = { λ p. IsUtf8 p.digits };

    ghost inverse = { λ v. record { digits = v } };
}

impl PlainWwn {
    /// The digits.
    pub fn as_str(&self) -> &str
        ensures { result.now ≡ self.now }
    {
        unsafe { str::from_utf8_unchecked(&self.digits) }
    }
}

/// The sixteen digits of a text, where it is laid out as one of the three forms.
fn digits_in(t: &[u8]) -> Option<[u8; 16]>
    ensures { MatchOption result ((ds : _) → length ds ≡ 16 → ¬ IsDigitsOf ds t.now) (λ ds. IsDigitsOf ds t.now) }
{
    if t.len() == 16 {
        Some([
            t[0], t[1], t[2], t[3], t[4], t[5], t[6], t[7], t[8], t[9], t[10], t[11], t[12], t[13],
            t[14], t[15],
        ])
    } else if t.len() == 18 && t[0] == b'0' && t[1] == b'x' {
        Some([
            t[2], t[3], t[4], t[5], t[6], t[7], t[8], t[9], t[10], t[11], t[12], t[13], t[14],
            t[15], t[16], t[17],
        ])
    } else if t.len() == 23 && has_colons(t) {
        Some([
            t[0], t[1], t[3], t[4], t[6], t[7], t[9], t[10], t[12], t[13], t[15], t[16], t[18],
            t[19], t[21], t[22],
        ])
    } else {
        None
    }
}

/// Whether the pairs are joined by colons.
fn has_colons(t: &[u8]) -> bool
    requires { length t.now ≡ 23 }
    ensures { IsTrue result ↔ HasColons t.now }
{
    t[2] == b':'
        && t[5] == b':'
        && t[8] == b':'
        && t[11] == b':'
        && t[14] == b':'
        && t[17] == b':'
        && t[20] == b':'
}

/// Whether each byte is a hexadecimal digit.
pub(crate) fn are_hexadecimal(digits: &[u8]) -> bool
    ensures { IsTrue result ↔ EachIndex digits.now (λ k. is_ascii_hexdigit (slice_index digits.now k) ≡ true) }
{
    digits.iter().all(|d| d.is_ascii_hexdigit())
}

/// The value of a digit.
fn digit(d: u8) -> u8
    requires { is_ascii_hexdigit d ≡ true }
    ensures value { result ≡ digit_value d }
    ensures small { result < 16 }
{
    match d {
        b'0'..=b'9' => d - b'0',
        b'a'..=b'f' => d - b'a' + 10,
        b'A'..=b'F' => d - b'A' + 10,
        _ => 0,
    }
}

/// The value of two digits.
pub(crate) fn byte(high: u8, low: u8) -> u8
    requires high { is_ascii_hexdigit high ≡ true }
    requires low { is_ascii_hexdigit low ≡ true }
    ensures { result ≡ byte_of high low }
{
    digit(high) * 16 + digit(low)
}

/// The value of sixteen digits.
fn number_of(d: &[u8; 16]) -> u64
    requires { EachIndex d.now (λ k. is_ascii_hexdigit (slice_index d.now k) ≡ true) }
    ensures { result ≡ spec.number_of d.now }
{
    u64::from_be_bytes([
        byte(d[0], d[1]),
        byte(d[2], d[3]),
        byte(d[4], d[5]),
        byte(d[6], d[7]),
        byte(d[8], d[9]),
        byte(d[10], d[11]),
        byte(d[12], d[13]),
        byte(d[14], d[15]),
    ])
}

/// A digit of a number below sixteen.
pub(crate) fn hex_digit(d: u8) -> u8
    requires { d < 16 }
    ensures { result ≡ spec.hex_digit d }
{
    if d < 10 { b'0' + d } else { b'a' + (d - 10) }
}

/// Sixteen digits.
fn plain_digits_of(number: u64) -> [u8; 16]
    ensures { result ≡ spec.plain_text number }
{
    let b = number.to_be_bytes();
    [
        hex_digit(b[0] / 16),
        hex_digit(b[0] % 16),
        hex_digit(b[1] / 16),
        hex_digit(b[1] % 16),
        hex_digit(b[2] / 16),
        hex_digit(b[2] % 16),
        hex_digit(b[3] / 16),
        hex_digit(b[3] % 16),
        hex_digit(b[4] / 16),
        hex_digit(b[4] % 16),
        hex_digit(b[5] / 16),
        hex_digit(b[5] % 16),
        hex_digit(b[6] / 16),
        hex_digit(b[6] % 16),
        hex_digit(b[7] / 16),
        hex_digit(b[7] % 16),
    ]
}

/// Eight pairs of digits joined by colons.
fn letters_of(number: u64) -> [u8; 23]
    ensures { result ≡ spec.wwn_text number }
{
    let b = number.to_be_bytes();
    [
        hex_digit(b[0] / 16),
        hex_digit(b[0] % 16),
        b':',
        hex_digit(b[1] / 16),
        hex_digit(b[1] % 16),
        b':',
        hex_digit(b[2] / 16),
        hex_digit(b[2] % 16),
        b':',
        hex_digit(b[3] / 16),
        hex_digit(b[3] % 16),
        b':',
        hex_digit(b[4] / 16),
        hex_digit(b[4] % 16),
        b':',
        hex_digit(b[5] / 16),
        hex_digit(b[5] % 16),
        b':',
        hex_digit(b[6] / 16),
        hex_digit(b[6] % 16),
        b':',
        hex_digit(b[7] / 16),
        hex_digit(b[7] % 16),
    ]
}

impl fmt::Display for Wwn {
    ghost output = { λ wwn. Some (spec.wwn_text wwn) };

    fn fmt<W: fmt::Write>(&self, f: &mut fmt::Formatter<W>) -> fmt::Result {
        let letters = self.letters();
        f.pad(unsafe { str::from_utf8_unchecked(&letters) })
    }
}

impl Wwn {
    /// Reads sixteen hexadecimal digits of either case, plain, after `0x`, or as eight pairs
    /// joined by `:`. It takes no memory.
    ///
    /// # Errors
    /// `BadLength` where the text is laid out in none of these forms, `BadChar` where a digit is
    /// none, `Zero` where the number is zero.
    pub fn read(text: &str) -> Result<Wwn, NameFault>
        ensures ok { IfOk result (λ wwn. SpellsWwn text.now wwn) }
        ensures err { OnErr result ((n : ℕ) → ¬ SpellsWwn text.now n) }
        ensures fault { IfErr result (IsWwnFault text.now) }
    {
        let Some(digits) = digits_in(text.as_bytes()) else {
            return Err(NameFault::BadLength);
        };
        if !are_hexadecimal(&digits) {
            return Err(NameFault::BadChar);
        }
        let number = number_of(&digits);
        if number == 0 {
            return Err(NameFault::Zero);
        }
        Ok(Wwn { number })
    }

    /// Reads the sixteen lower-case digits of a name, and no other form. It takes no memory.
    pub fn read_plain(text: &str) -> Option<Wwn>
        ensures { MatchOption result ((n : ℕ) → ¬ spec.SpellsPlain text.now n) (spec.SpellsPlain text.now) }
    {
        let Ok(wwn) = Wwn::read(text) else {
            return None;
        };
        let digits = plain_digits_of(wwn.number());
        if text.as_bytes() != &digits[..] {
            return None;
        }
        Some(wwn)
    }

    /// Reads the printed form of a name, and no other. It takes no memory.
    pub fn read_printed(text: &str) -> Option<Wwn>
        ensures { MatchOption result ((n : ℕ) → ¬ spec.SpellsPrintedWwn text.now n) (spec.SpellsPrintedWwn text.now) }
    {
        let Ok(wwn) = Wwn::read(text) else {
            return None;
        };
        let letters = wwn.letters();
        if text.as_bytes() != &letters[..] {
            return None;
        }
        Some(wwn)
    }

    /// The name with this number.
    pub fn new(number: u64) -> Self
        requires { 0 < number }
        ensures { result ≡ number }
    {
        Wwn { number }
    }

    /// The number of the name, which is not zero.
    pub fn number(self) -> u64
        ensures value { result ≡ self }
        ensures nonzero { 0 < result }
    {
        self.number
    }

    /// The sixteen lower-case digits of the name, without memory.
    pub fn plain(self) -> PlainWwn
        ensures { result ≡ spec.plain_text self }
    {
        PlainWwn {
            digits: plain_digits_of(self.number),
        }
    }

    /// The characters of the printed form, without memory.
    pub fn letters(self) -> [u8; 23]
        ensures { result ≡ spec.wwn_text self }
    {
        letters_of(self.number)
    }

    /// The printed form: eight pairs of lower-case digits joined by `:`.
    ///
    /// # Errors
    /// `AllocError` where there is no memory.
    pub fn print<A: Allocator>(self, alloc: A) -> Result<String<A>, AllocError>
        ensures { IfOk result (λ text. string_bytes text ≡ spec.wwn_text self) }
    {
        self.to_string(alloc)
    }
}
