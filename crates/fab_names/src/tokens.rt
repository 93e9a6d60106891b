//! The form of a token.
ghost use Rattle.std.specs.Prelude.{◌≡◌, IsTrue, ◌↔◌};
ghost use Rattle.std.specs.List.{list_all};
ghost use Rattle.fab_names.specs.Tokens.{IsTokenText, is_token_char};

/// The most bytes of a token.
pub const MOST_TOKEN_BYTES: usize = 128;

/// Whether a text has the form of a token: 1 to 128 letters, digits and `-._~+/=`. These are the
/// characters of a bearer token (RFC 6750, `b64token`), where `=` stands at the end alone.
pub fn is_token(text: &[u8]) -> bool
    ensures { IsTrue result ↔ IsTokenText text.now }
{
    !text.is_empty() && text.len() <= MOST_TOKEN_BYTES && has_token_chars(text)
}

/// Whether a token may hold each of the characters.
fn has_token_chars(text: &[u8]) -> bool
    ensures { result ≡ list_all is_token_char text.now }
{
    text.iter().all(|byte| is_char(*byte))
}

/// Whether a token may hold the character.
fn is_char(byte: u8) -> bool
    ensures { result ≡ is_token_char byte }
{
    byte.is_ascii_alphanumeric() || b"-._~+/=".contains(&byte)
}
