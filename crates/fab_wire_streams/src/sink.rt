//! What takes a text piece by piece: a writer, or a count of bytes.

ghost use Rattle.std.specs.Prelude.{ℕ, ◌≡◌, ◌-◌, List};
ghost use Rattle.std.specs.List.{flat_map};
ghost use Rattle.fab_wire_streams.specs.Taking.{Takes, IsSink};
ghost use Rattle.fab_wire_streams.specs.Sinks.{Wrote, WroteSome, bytes_of, Counts};
ghost use Rattle.fab_wire_streams.specs.SinkLaws as laws;

use crate::counted::Counted;
use crate::streams::WriteFailed;
use std::io::Write;

/// What takes a text piece by piece.
pub trait Sink {
    /// It took this text.
    ghost took: { Self → List ℕ → Self → Type 0 };

    /// It took a beginning of this text, and then failed.
    ghost cut: { Self → List ℕ → Self → Type 0 };

    /// Takes some bytes. `WriteFailed` says that it took a beginning of them, and that it failed.
    fn take(&mut self, bytes: &[u8]) -> Result<(), WriteFailed>
        ensures { Takes took cut self.old bytes.now self.new result };

    /// Texts in turn are taken as one, and a failure ends them.
    ghost laws: { IsSink took cut };
}

/// A writer takes what it writes. No failed write is tried again.
impl<W: Write> Sink for Counted<W> {
    ghost took = { λ a text b. Wrote W.contents a text b };

    ghost cut = { λ a text b. WroteSome W.contents a text b };

    ghost laws = { laws.writes W.contents };

    fn take(&mut self, bytes: &[u8]) -> Result<(), WriteFailed> {
        self.put(bytes)
    }
}

/// A count of bytes. At its greatest value, 18446744073709551615, it stays.
#[derive(Clone, Copy)]
pub struct Size {
    bytes: u64,
}

impl Size {
    /// No byte so far.
    pub fn new() -> Self
        ensures { bytes_of result ≡ 0 }
    {
        Size { bytes: 0 }
    }

    /// How many bytes were taken, at most 18446744073709551615.
    pub fn bytes(&self) -> u64
        ensures { result ≡ bytes_of self.now }
    {
        self.bytes
    }
}

/// A count takes every text, and never fails.
impl Sink for Size {
    ghost took = { Counts };

    ghost cut = { λ a text b. ⊥ };

    ghost laws = { laws.counts };

    fn take(&mut self, bytes: &[u8]) -> Result<(), WriteFailed> {
        self.bytes = self.bytes.saturating_add(bytes.len() as u64);
        Ok(())
    }
}

/// Puts texts one after the other.
///
/// # Errors
/// `WriteFailed` where the sink fails, which ends them. It has taken a beginning then.
pub fn put_all<S: Sink>(sink: &mut S, texts: &[&[u8]]) -> Result<(), WriteFailed>
    ensures { Takes S.took S.cut sink.old (flat_map (λ text. text.now) texts.now) sink.new result }
{
    for text in texts {
        let Ok(()) = sink.take(text) else {
            return Err(WriteFailed);
        };
    }
    Ok(())
}
