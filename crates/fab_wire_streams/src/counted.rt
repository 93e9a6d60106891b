//! A reader or a writer that counts its failures.
//!
//! Nothing else stands here, so that nothing else can raise a count: it is private to this module.

ghost use Rattle.std.specs.Prelude.{◌≡◌, length};
ghost use Rattle.std.specs.Io.{ReadsAtMost, WritesAtMost};
ghost use Rattle.std.specs.Io.KnownBytes.{Keeps, ReadConsumes, WriteAppends};
ghost use Rattle.fab_wire_streams.specs.Counting.{inner_of, failures_of};
ghost use Rattle.fab_wire_streams.specs.Failures.{one_more, failures_after, failures_after_write};

use std::io;
use std::io::{Read, Write};

/// A reader or a writer, and how many of its reads and writes have failed.
///
/// A read or write that answers an error has failed, and so has a write that takes none of some
/// bytes. The count rises by one there and only there; at its greatest value it stays.
#[derive(Drop)]
pub struct Counted<T> {
    inner: T,
    failures: u64,
}

impl<T> Counted<T> {
    /// Counts the failures of a reader or a writer from now on.
    pub fn new(inner: T) -> Self
        ensures inner { inner_of result ≡ inner }
        ensures none { failures_of result ≡ 0 }
    {
        Counted { inner, failures: 0 }
    }

    /// How many reads and writes have failed, at most 18446744073709551615.
    pub fn failures(&self) -> u64
        ensures { result ≡ failures_of self.now }
    {
        self.failures
    }

    /// Hands back the reader or writer, and drops the count.
    pub fn into_inner(self) -> T
        ensures { result ≡ inner_of self }
    {
        let Counted { inner, failures: _ } = self;
        inner
    }

    fn note_failure(&mut self)
        ensures inner { inner_of self.new ≡ inner_of self.old }
        ensures count { failures_of self.new ≡ one_more (failures_of self.old) }
    {
        let Counted { inner: _, failures } = self;
        *failures = failures.saturating_add(1);
    }
}

impl<R: Read> Read for Counted<R> {
    ghost remaining = { λ counted. R.remaining (inner_of counted) };

    /// One read, whose error is counted and handed on.
    fn read(&mut self, buf: &mut [u8]) -> io::Result<usize>
        ensures bound { ReadsAtMost result buf.new }
        ensures bytes { ReadConsumes (R.remaining (inner_of self.old))
            (R.remaining (inner_of self.new)) result buf.new }
        ensures count { failures_of self.new ≡ failures_after result (failures_of self.old) }
    {
        let outcome = self.inner.read(buf);
        if outcome.is_err() {
            self.note_failure();
        }
        outcome
    }
}

impl<W: Write> Write for Counted<W> {
    ghost contents = { λ counted. W.contents (inner_of counted) };

    /// One write, whose error is counted and handed on; `Ok(0)` is counted where there were bytes.
    fn write(&mut self, buf: &[u8]) -> io::Result<usize>
        ensures bound { WritesAtMost result buf.now }
        ensures bytes { WriteAppends (W.contents (inner_of self.old))
            (W.contents (inner_of self.new)) result buf.now }
        ensures count { failures_of self.new ≡ failures_after_write result (length buf.now)
            (failures_of self.old) }
    {
        let outcome = self.inner.write(buf);
        match &outcome {
            Ok(taken) => {
                if *taken == 0 && !buf.is_empty() {
                    self.note_failure();
                }
            }
            Err(_) => self.note_failure(),
        }
        outcome
    }

    /// Hands the call on. A flush is no write, so its error is not counted.
    fn flush(&mut self) -> io::Result<()>
        ensures bytes { Keeps (W.contents (inner_of self.old)) (W.contents (inner_of self.new)) }
        ensures count { failures_of self.new ≡ failures_of self.old }
    {
        self.inner.flush()
    }
}
