//! Number texts.
ghost use Rattle.std.specs.Prelude.{◌≡◌, ℕ, MatchOption};
ghost use Rattle.std.specs.Char.{is_ascii_digit};
ghost use Rattle.std.specs.List.{list_all};
ghost use Rattle.fab_names.specs.Numbers.{SpellsNumber};

use std::str;

/// How many digits a number text has at most.
pub const MOST_DIGITS: usize = 20;

/// Reads a number text: 1 to 20 ASCII digits, leading zeros allowed.
///
/// The number is below 10 to the 20th, and none is answered where the text is no number text.
pub fn read_number(text: &[u8]) -> Option<u128>
    ensures { MatchOption result ((n : ℕ) → ¬ SpellsNumber text.now n) (SpellsNumber text.now) }
{
    if text.len() > MOST_DIGITS || !all_digits(text) {
        return None;
    }
    match str::from_utf8(text) {
        Ok(digits) => digits.parse::<u128>().ok(),
        Err(_) => None,
    }
}

/// Whether each character is an ASCII digit.
fn all_digits(text: &[u8]) -> bool
    ensures { result ≡ list_all is_ascii_digit text.now }
{
    text.iter().all(|c| c.is_ascii_digit())
}
