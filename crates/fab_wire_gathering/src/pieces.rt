//! Pieces of bytes that are read or written, and how far a call went.

ghost use Rattle.std.specs.Prelude.{◌≡◌, min, max, length, take, drop};
ghost use Rattle.fab_wire_gathering.specs.Pieces.{IsWent, TakesOn};

use std::io;
use std::io::{ErrorKind, Write};

/// How far a call went.
#[derive(Clone, Copy)]
pub enum Went {
    /// So many bytes, one at least.
    Some(usize),
    /// There are no more bytes.
    Ended,
    /// It would have to wait.
    Waits,
    /// It failed.
    Failed,
}

impl Went {
    /// How far a read or a write went that does not wait.
    pub fn of(answer: io::Result<usize>) -> Self
        ensures { IsWent answer result }
    {
        match answer {
            Ok(0) => Went::Ended,
            Ok(size) => Went::Some(size),
            Err(e) => {
                if e.kind() == ErrorKind::WouldBlock {
                    Went::Waits
                } else {
                    Went::Failed
                }
            }
        }
    }
}

/// Room for so many bytes, as far as there is any, and for one at least.
pub fn room_in(piece: &mut [u8], room: usize) -> &mut [u8]
    ensures { length result.now ≡ min (max room 1) (length piece.old) }
{
    let end = room.max(1).min(piece.len());
    &mut piece[..end]
}

/// The first bytes, so many, or all that there are.
pub fn first_of(bytes: &[u8], size: usize) -> &[u8]
    ensures { result.now ≡ take size bytes.now }
{
    &bytes[..size.min(bytes.len())]
}

/// The bytes behind so many.
pub fn rest_of(bytes: &[u8], sent: usize) -> &[u8]
    ensures { result.now ≡ drop sent bytes.now }
{
    &bytes[sent.min(bytes.len())..]
}

/// Writes the bytes behind so many, once, and counts those that were taken.
pub fn write_rest<W: Write>(writer: &mut W, bytes: &[u8], sent: &mut usize) -> Went
    ensures { TakesOn (W.contents writer.old) (W.contents writer.new) (drop sent.old bytes.now) sent.old sent.new result }
{
    let went = Went::of(writer.write(rest_of(bytes, *sent)));
    if let Went::Some(size) = went {
        *sent = sent.saturating_add(size);
    }
    went
}
