//! Writes whole texts and reads at a place, where no failed write or read is tried again.
//!
//! The count of a stream is raised in `counted` alone, by its calls `read` and `write`.

ghost use Rattle.std.specs.Prelude.{◌≡◌, ◌<◌, length, take, drop, OnOk, OnErr};
ghost use Rattle.std.specs.List.{flat_map};
ghost use Rattle.std.specs.Io.KnownBytes.{Appends};
ghost use Rattle.fab_wire_streams.specs.Counting.{inner_of, failures_of};
ghost use Rattle.fab_wire_streams.specs.Failures.{failures_after};
ghost use Rattle.fab_wire_streams.specs.Sent.{AppendsBeginning, AppendsSome};
ghost use Rattle.fab_wire_streams.specs.Received.{ReadsInto};

use crate::counted::Counted;
use std::io;
use std::io::{Read, Write};

/// A write failed: it answered an error, or took none of some bytes.
#[derive(Clone, Copy, Debug)]
pub struct WriteFailed;

impl<W: Write> Counted<W> {
    /// Writes a text. Each turn takes a byte or is the last.
    ///
    /// # Errors
    /// `WriteFailed` at the first write that fails. A beginning of the text is written then.
    pub fn put(&mut self, text: &[u8]) -> Result<(), WriteFailed>
        ensures ok { OnOk result (Appends (W.contents (inner_of self.old))
            (W.contents (inner_of self.new)) text.now) }
        ensures err { OnErr result (AppendsBeginning (W.contents (inner_of self.old))
            (W.contents (inner_of self.new)) text.now) }
        ensures count { failures_of self.new ≡ failures_after result (failures_of self.old) }
    {
        let mut rest = text;
        while !rest.is_empty() {
            let Ok(taken) = self.put_some(rest) else {
                return Err(WriteFailed);
            };
            let (_, left) = rest.split_at(taken);
            rest = left;
        }
        Ok(())
    }

    /// One write, which takes a byte or has failed.
    fn put_some(&mut self, text: &[u8]) -> Result<usize, WriteFailed>
        requires { 0 < length text.now }
        ensures bytes { AppendsSome (W.contents (inner_of self.old))
            (W.contents (inner_of self.new)) text.now result }
        ensures count { failures_of self.new ≡ failures_after result (failures_of self.old) }
    {
        match self.write(text) {
            Ok(0) => Err(WriteFailed),
            Ok(taken) => Ok(taken),
            Err(_) => Err(WriteFailed),
        }
    }

    /// Writes texts one after the other, as `put` writes one.
    ///
    /// # Errors
    /// `WriteFailed` at the first write that fails. A beginning of the texts is written then.
    pub fn put_all(&mut self, texts: &[&[u8]]) -> Result<(), WriteFailed>
        ensures ok { OnOk result (Appends (W.contents (inner_of self.old))
            (W.contents (inner_of self.new)) (flat_map (λ text. text.now) texts.now)) }
        ensures err { OnErr result (AppendsBeginning (W.contents (inner_of self.old))
            (W.contents (inner_of self.new)) (flat_map (λ text. text.now) texts.now)) }
        ensures count { failures_of self.new ≡ failures_after result (failures_of self.old) }
    {
        for text in texts {
            let Ok(()) = self.put(text) else {
                return Err(WriteFailed);
            };
        }
        Ok(())
    }
}

impl<R: Read> Counted<R> {
    /// One read, into `buf` from `at` on, as large as there is room. `Ok(0)` is the end of the
    /// input.
    ///
    /// # Errors
    /// That of the stream, whose read failed. What stands before `at` is as it was.
    pub fn read_at(&mut self, buf: &mut [u8], at: usize) -> io::Result<usize>
        requires { at < length buf.old }
        ensures front { take at buf.new ≡ take at buf.old }
        ensures bytes { ReadsInto (R.remaining (inner_of self.old))
            (R.remaining (inner_of self.new)) (drop at buf.new) result }
        ensures count { failures_of self.new ≡ failures_after result (failures_of self.old) }
    {
        self.read(&mut buf[at..])
    }
}
