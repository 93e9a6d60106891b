//! Where a request ends.

ghost use Rattle.std.specs.Prelude.{◌<◌, ℕ, List, length, IfSome, IfNone};

/// Tells where a request ends (RFC 9112, section 6).
pub trait Framing {
    // Whatever comes behind these bytes of a connection, it asks what they ask.
    ghost is_whole: { Self → List ℕ → Type 0 };

    // These bytes are looked at again when so many are there.
    ghost lacking: { Self → List ℕ → ℕ → Type 0 };

    /// How many bytes of a connection have to be there before they are looked at again; none where
    /// what it asks is known, whatever comes behind them.
    fn lacks(&self, bytes: &[u8]) -> Option<usize>
        ensures whole { IfNone result (is_whole self.now bytes.now) }
        ensures lacking { IfSome result (λ size. lacking self.now bytes.now size) }
        ensures more { IfSome result (λ size. length bytes.now < size) };
}
