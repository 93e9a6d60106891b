//! Readers and writers that are given up at some time.

ghost use Rattle.std.specs.Prelude.{ℕ, Option};
ghost use Rattle.std.specs.Io.Buffered.{writer_inner};

use std::alloc::Global;
use std::io::{BufWriter, Write};

/// A reader or a writer of which it is known when it is given up.
pub trait Bounded {
    // From when on each call of it fails, in nanoseconds of a monotonic clock, if there is such a time.
    ghost until: { Self → Option ℕ };
}

impl<W: Write + Bounded + Drop> Bounded for BufWriter<W, Global> {
    ghost until = { λ buffer. W.until (writer_inner buffer) };
}
