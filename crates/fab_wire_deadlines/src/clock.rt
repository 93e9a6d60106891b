//! A clock that tells how time goes by.

ghost use Rattle.std.specs.Prelude.{ℕ, ⊤, IfOk, OnErr};
ghost use Rattle.std.specs.Time.{instant_nanos};

use std::io;
use std::time::{Clock, Instant};

/// A monotonic clock. Any clock of std is one.
pub trait Ticks {
    // It may tell this time, in nanoseconds.
    ghost tells: { Self → ℕ → Type 0 };

    // It may tell none.
    ghost fails: { Self → Type 0 };

    /// The time that it tells.
    ///
    /// # Errors
    /// What it answers where it cannot be read.
    fn reading(&self) -> io::Result<Instant>
        ensures told { IfOk result (λ time. tells self.now (instant_nanos time)) }
        ensures none { OnErr result (fails self.now) };
}

impl<C: Clock> Ticks for C {
    ghost tells = { λ clock time. ⊤ };

    ghost fails = { λ clock. ⊤ };

    fn reading(&self) -> io::Result<Instant> {
        Instant::now(self)
    }
}
