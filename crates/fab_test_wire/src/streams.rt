//! Readers and writers that stand in for the two sides of a connection.

use std::alloc::Global;
use std::io;
use std::io::{ErrorKind, Read, Write};

/// A reader that gives so many bytes a read at most, and fails at one read alone: the read behind it
/// gives bytes again.
#[derive(Drop)]
pub struct Slow<'a> {
    bytes: &'a [u8],
    most: usize,
    reads: u64,
    fails_at: u64,
}

impl<'a> Slow<'a> {
    /// Gives so many of these bytes a read at most, and fails at the read of that number, from 0 on.
    pub fn new(bytes: &'a [u8], most: usize, fails_at: u64) -> Self {
        Slow {
            bytes,
            most,
            reads: 0,
            fails_at,
        }
    }

    /// How many reads were made of it.
    pub fn reads(&self) -> u64 {
        self.reads
    }
}

impl Read for Slow<'_> {
    fn read(&mut self, buf: &mut [u8]) -> io::Result<usize> {
        let number = self.reads;
        self.reads = number.saturating_add(1);
        if number == self.fails_at {
            return Err(io::Error::from(ErrorKind::ConnectionReset));
        }
        let most = buf.len().min(self.most);
        self.bytes.read(&mut buf[..most])
    }
}

/// A writer that keeps what it takes, and fails at one write alone: the write behind it takes bytes
/// again.
#[derive(Drop)]
pub struct Breaking {
    taken: Vec<u8, Global>,
    most: usize,
    writes: u64,
    fails_at: u64,
}

impl Breaking {
    /// Takes so many bytes a write at most, and fails at the write of that number, from 0 on.
    pub fn new(alloc: Global, most: usize, fails_at: u64) -> Self {
        Breaking {
            taken: Vec::new(alloc),
            most,
            writes: 0,
            fails_at,
        }
    }

    /// What it took.
    pub fn taken(&self) -> &[u8] {
        self.taken.as_slice()
    }
}

impl Write for Breaking {
    fn write(&mut self, buf: &[u8]) -> io::Result<usize> {
        let number = self.writes;
        self.writes = number.saturating_add(1);
        if number == self.fails_at {
            return Err(io::Error::from(ErrorKind::BrokenPipe));
        }
        let most = buf.len().min(self.most);
        self.taken.write(&buf[..most])
    }

    fn flush(&mut self) -> io::Result<()> {
        Ok(())
    }
}
