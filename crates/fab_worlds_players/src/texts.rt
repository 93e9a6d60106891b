//! The lines of recorded exchanges. Each has a mark, a space, and a text:
//!
//! | mark | text |
//! |---|---|
//! | `#` | what the file is; the first line, and no other |
//! | `=` | the name of a scenario, which a new desk plays |
//! | <code>&#124;</code> | its policy; where it has none, the policy of the scenario before stays |
//! | `%` | how many calls of its store are handed on before one is refused; the first opens the desk |
//! | `@` | the moment at which a request comes, in Unix seconds |
//! | `>` | the request's bytes |
//! | `<` | those of its answer: none where there is none |
//! | `;` | statements that somebody else makes |
//! | `^` | what comes of opening a desk over the tables: `serves`, or a fault |
//! | `&` | what comes of bringing them to the present schema: `changed`, `unchanged`, or a fault |
//! | `*` | what comes of making the tables of a new desk: `made`, or a fault |
//! | `?` | a query, each row of which is one text |
//! | `-` | a row that the query shows |
//!
//! The last six speak of tables, with no desk open: each of them closes that which is, and the requests
//! behind a `^` are asked the desk that it opens. A fault is told in these words: `damaged` and the table,
//! `newer-schema` and `old-schema` with a number, `store` and `memory`. Where the store refuses a `^`, `&`
//! or `*`, it counts that once, and else it counts nothing.
//!
//! The text of any but `#`, `=`, `%` and `@` stands for itself and a line feed, where `\r` is CR, `\\` a backslash,
//! `\xHH` any byte, and a `\` at the end means that no line feed follows.

use crate::Fault;
use std::alloc::Global;
use std::fmt::Write;

/// A line's text, or what is left of it, and its number from 1 on.
#[derive(Clone, Copy)]
pub struct Line<'t> {
    /// Its number, from 1 on.
    pub number: usize,
    /// Its text, or what is left of it.
    pub text: &'t str,
}

impl<'t> Line<'t> {
    /// Its mark, and the text behind it.
    ///
    /// # Errors
    /// `Text` where there is no space.
    pub fn parts(self) -> Result<(&'t str, Line<'t>), Fault> {
        match self.text.split_once(' ') {
            Some((mark, text)) => Ok((mark, Line { text, ..self })),
            None => Err(Fault::Text(self.number)),
        }
    }

    /// The number that it spells.
    ///
    /// # Errors
    /// `Text` where it spells no number of 64 bits.
    pub fn count(self) -> Result<u64, Fault> {
        match self.text.parse() {
            Ok(count) => Ok(count),
            Err(_) => Err(Fault::Text(self.number)),
        }
    }
}

/// The value of a hexadecimal digit.
fn digit_of(byte: u8) -> Option<u8> {
    match byte {
        b'0'..=b'9' => Some(byte - b'0'),
        b'a'..=b'f' => Some(byte - b'a' + 10),
        _ => None,
    }
}

/// The byte that two digits spell, and what stands behind them.
fn byte_of(digits: &str) -> Option<(u8, &[u8])> {
    let [high, low, rest @ ..] = digits.as_bytes() else {
        return None;
    };
    Some((digit_of(*high)? << 4 | digit_of(*low)?, rest))
}

/// The byte that is spelled right behind a backslash, and what stands behind it.
fn escaped(piece: &str) -> Option<(u8, &[u8])> {
    match piece.strip_prefix('r') {
        Some(rest) => Some((b'\r', rest.as_bytes())),
        None => byte_of(piece.strip_prefix('x')?),
    }
}

/// Adds what stands right behind a backslash.
fn push_escaped(bytes: &mut Vec<u8>, number: usize, piece: &str) -> Result<(), Fault> {
    let Some((byte, rest)) = escaped(piece) else {
        return Err(Fault::Text(number));
    };
    bytes.push(byte)?;
    bytes.extend_from_slice(rest)?;
    Ok(())
}

/// Adds the bytes that a line stands for. Its pieces are parted by backslashes, so an empty one behind
/// a backslash is a second backslash, or the end of the line: then it is taken back.
///
/// # Errors
/// `Text` where the line spells no bytes, and `Memory`; some bytes may have been added then.
pub fn push_line(bytes: &mut Vec<u8>, line: Line<'_>) -> Result<(), Fault> {
    let mut is_plain = true;
    for piece in line.text.split('\\') {
        if is_plain {
            bytes.extend_from_slice(piece.as_bytes())?;
            is_plain = false;
        } else if piece.is_empty() {
            bytes.push(b'\\')?;
            is_plain = true;
        } else {
            push_escaped(bytes, line.number, piece)?;
        }
    }
    if is_plain {
        let _ = bytes.pop();
    } else {
        bytes.push(b'\n')?;
    }
    Ok(())
}

/// Adds what stands for a byte.
fn push_byte(text: &mut String, byte: u8) -> Result<(), Fault> {
    match byte {
        b'\n' => text.push('\n')?,
        b'\r' => text.push_str("\\r")?,
        b'\\' => text.push_str("\\\\")?,
        b' '..=b'~' => text.push(char::from(byte))?,
        _ => {
            if write!(text, "\\x{byte:02x}").is_err() {
                return Err(Fault::Memory);
            }
        }
    }
    Ok(())
}

/// The lines that stand for the bytes of an answer, each behind its mark.
pub fn lines_of(alloc: Global, mark: char, bytes: &[u8]) -> Result<String, Fault> {
    let mut text = String::new(alloc);
    let mut is_begun = false;
    for &byte in bytes {
        if !is_begun {
            text.push(mark)?;
            text.push(' ')?;
        }
        push_byte(&mut text, byte)?;
        is_begun = byte != b'\n';
    }
    if is_begun {
        text.push_str("\\\n")?;
    }
    Ok(text)
}
