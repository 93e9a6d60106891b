//! What a connection goes over.

ghost use Rattle.std.specs.Prelude.{ℕ, ⊤, List, Option, None};
ghost use Rattle.std.specs.Duration.{as_nanos};
ghost use Rattle.std.specs.Io.{ReadsAtMost, WritesAtMost};
ghost use Rattle.std.specs.Io.KnownBytes.{ReadConsumes, WriteAppends};

use std::io;
use std::io::{Read, Write};
use std::net::{Shutdown, TcpStream};
use std::time::Duration;

/// What is read of a connection, by reads that wait no longer than they are told.
pub trait Source {
    // The bytes that reads will give from here on, where they are known.
    ghost remaining: { Self → Option (List ℕ) } = { λ _. None };

    // A read that waits this many nanoseconds at most may leave it so.
    ghost waits: { Self → ℕ → Self → Type 0 };

    /// One read, which waits so long at most.
    ///
    /// # Errors
    /// Whatever the system answers, also where the time is over; a time of 0 is refused.
    fn read_for(&mut self, most: Duration, buf: &mut [u8]) -> io::Result<usize>
        ensures bound { ReadsAtMost result buf.new }
        ensures bytes { ReadConsumes (remaining self.old) (remaining self.new) result buf.new }
        ensures waited { waits self.old (as_nanos most) self.new };
}

/// What is written to a connection, by writes that wait no longer than they are told.
pub trait Sink {
    // The bytes that it was given, where they are known.
    ghost contents: { Self → Option (List ℕ) } = { λ _. None };

    // A write that waits this many nanoseconds at most may leave it so.
    ghost waits: { Self → ℕ → Self → Type 0 };

    // Telling the other side that nothing more is sent may leave it so.
    ghost ends: { Self → Self → Type 0 };

    /// One write, which waits so long at most.
    ///
    /// # Errors
    /// Whatever the system answers, also where the time is over; a time of 0 is refused.
    fn write_for(&mut self, most: Duration, buf: &[u8]) -> io::Result<usize>
        ensures bound { WritesAtMost result buf.now }
        ensures bytes { WriteAppends (contents self.old) (contents self.new) result buf.now }
        ensures waited { waits self.old (as_nanos most) self.new };

    /// Tells the other side that nothing more is sent.
    ///
    /// # Errors
    /// Whatever the system answers.
    fn end_writing(&mut self) -> io::Result<()>
        ensures { ends self.old self.new };
}

impl<'s> Source for &'s TcpStream {
    ghost waits = { λ before most after. ⊤ };

    fn read_for(&mut self, most: Duration, buf: &mut [u8]) -> io::Result<usize> {
        self.set_read_timeout(Some(most))?;
        self.read(buf)
    }
}

impl<'s> Sink for &'s TcpStream {
    ghost waits = { λ before most after. ⊤ };

    ghost ends = { λ before after. ⊤ };

    fn write_for(&mut self, most: Duration, buf: &[u8]) -> io::Result<usize> {
        self.set_write_timeout(Some(most))?;
        self.write(buf)
    }

    fn end_writing(&mut self) -> io::Result<()> {
        self.shutdown(Shutdown::Write)
    }
}
