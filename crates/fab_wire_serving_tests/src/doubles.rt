//! What stands in for a clock, a listener, a stream and a log.

ghost use Rattle.std.specs.Prelude.{⊤};

use super::echo::{MUCH, byte_at};
use fab_wire_deadlines::stream::{Sink, Source};
use fab_wire_serving::Listens;
use std::alloc::Global;
use std::cell::Cell;
use std::io;
use std::io::{ErrorKind, Read, Write};
use std::net::{Net, Shutdown, TcpListener, TcpStream};
use std::os::fd::{AsRawFd, RawFd};
use std::time::{Clock, Duration};

/// A clock that has gone on by the same time whenever it is read.
#[derive(Drop)]
pub struct Ticking {
    seconds: Cell<u64>,
    step: u64,
}

impl Ticking {
    /// It shows 0 first, and this many seconds more at each reading.
    pub fn by(step: u64) -> Self {
        Ticking {
            seconds: Cell::new(0),
            step,
        }
    }

    /// How many seconds it shows next.
    pub fn shows(&self) -> u64 {
        self.seconds.get()
    }

    /// It goes on by so many seconds.
    pub fn go_on(&self, seconds: u64) {
        self.seconds.set(self.shows().saturating_add(seconds));
    }
}

impl Clock for Ticking {
    fn monotonic(&self) -> io::Result<Duration> {
        let seconds = self.shows();
        self.go_on(self.step);
        Ok(Duration::from_secs(seconds))
    }

    fn since_1970(&self) -> io::Result<Duration> {
        Ok(Duration::ZERO)
    }
}

/// A clock that stands still. Whenever it is read a client, which never waits, takes what has come of an
/// answer that is more than any socket holds.
#[derive(Drop)]
pub struct Taking<'t> {
    client: &'t TcpStream,
    taken: Cell<usize>,
    is_wrong: Cell<bool>,
}

impl<'t> Taking<'t> {
    /// Nothing has been taken yet.
    pub fn by(client: &'t TcpStream) -> Self {
        Taking {
            client,
            taken: Cell::new(0),
            is_wrong: Cell::new(false),
        }
    }

    /// How many bytes the client has taken; none where one was wrong.
    pub fn taken(&self) -> Option<usize> {
        if self.is_wrong.get() {
            None
        } else {
            Some(self.taken.get())
        }
    }

    /// Takes what has come. A client that has taken a wrong byte goes away.
    fn take(&self) -> io::Result<()> {
        let mut client = self.client;
        let mut piece = [0u8; 65536];
        for _ in 0..1000 {
            let size = client.read(&mut piece)?;
            if size == 0 {
                return Ok(());
            }
            if !is_of_much(self.taken.get(), &piece[..size]) {
                self.is_wrong.set(true);
                client.shutdown(Shutdown::Both)?;
            }
            self.taken.set(self.taken.get().saturating_add(size));
        }
        Ok(())
    }
}

/// Whether these bytes are those from a place on of what is more than any socket holds, and any behind it.
fn is_of_much(place: usize, bytes: &[u8]) -> bool {
    let mut place = place;
    for &byte in bytes {
        if place < MUCH && byte != byte_at(place) {
            return false;
        }
        place = place.saturating_add(1);
    }
    true
}

impl<'t> Clock for Taking<'t> {
    fn monotonic(&self) -> io::Result<Duration> {
        let _ = self.take();
        Ok(Duration::ZERO)
    }

    fn since_1970(&self) -> io::Result<Duration> {
        Ok(Duration::ZERO)
    }
}

/// A clock that cannot be read.
#[derive(Drop)]
pub struct Broken;

impl Clock for Broken {
    fn monotonic(&self) -> io::Result<Duration> {
        Err(io::Error::from(ErrorKind::Other))
    }

    fn since_1970(&self) -> io::Result<Duration> {
        Err(io::Error::from(ErrorKind::Other))
    }
}

/// A stream that gives the same bytes at each read, and takes all that is written but at one write of
/// some number, from 0 on, which fails alone.
#[derive(Drop)]
pub struct Brittle {
    pub told: &'static [u8],
    pub fails_at: u64,
    writes: Cell<u64>,
}

impl Brittle {
    pub fn new(told: &'static [u8], fails_at: u64) -> Self {
        Brittle {
            told,
            fails_at,
            writes: Cell::new(0),
        }
    }

    /// How many writes there were.
    pub fn writes(&self) -> u64 {
        self.writes.get()
    }
}

impl<'s> Source for &'s Brittle {
    ghost waits = { λ before most after. ⊤ };

    fn read_for(&mut self, _most: Duration, buf: &mut [u8]) -> io::Result<usize> {
        let mut told = self.told;
        told.read(buf)
    }
}

impl<'s> Sink for &'s Brittle {
    ghost waits = { λ before most after. ⊤ };

    ghost ends = { λ before after. ⊤ };

    fn write_for(&mut self, _most: Duration, buf: &[u8]) -> io::Result<usize> {
        let write = self.writes.get();
        self.writes.set(write.saturating_add(1));
        if write == self.fails_at {
            return Err(io::Error::from(ErrorKind::ConnectionReset));
        }
        Ok(buf.len())
    }

    fn end_writing(&mut self) -> io::Result<()> {
        Ok(())
    }
}

/// A listener of which one call fails, of some number from 0 on, though a connection may be there.
#[derive(Drop)]
pub struct Busy<'l> {
    pub listener: &'l TcpListener,
    pub calls: Cell<u64>,
    pub fails_at: u64,
}

impl<'l> Listens for Busy<'l> {
    ghost fails = { λ listener. ⊤ };

    fn connection(&self) -> io::Result<TcpStream> {
        let call = self.calls.get();
        self.calls.set(call.saturating_add(1));
        if call == self.fails_at {
            return Err(io::Error::from(ErrorKind::Other));
        }
        self.listener.connection()
    }

    fn set_waiting(&self, waits: bool) -> io::Result<()> {
        self.listener.set_waiting(waits)
    }

    fn descriptor(&self) -> RawFd {
        self.listener.as_raw_fd()
    }
}

/// A listener to which a client comes whenever a connection is asked for, as often as it is told. All send
/// nothing but the last one, which sends a byte.
#[derive(Drop)]
pub struct Crowd<'l, R> {
    pub rt: &'l R,
    pub alloc: Global,
    pub listener: &'l TcpListener,
    pub left: Cell<u64>,
    pub clients: Cell<Vec<TcpStream>>,
}

impl<'l, R: Net<Stream = TcpStream>> Crowd<'l, R> {
    /// One more client comes.
    fn come(&self) -> io::Result<()> {
        let left = self.left.get().saturating_sub(1);
        self.left.set(left);
        let mut client = TcpStream::connect(self.rt, self.listener.local_addr()?)?;
        if left == 0 {
            client.write_all(b"a")?;
        }
        let mut clients = self.clients.replace(Vec::new(self.alloc));
        let kept = clients.push(client).is_ok();
        self.clients.set(clients);
        if kept {
            Ok(())
        } else {
            Err(io::Error::from(ErrorKind::OutOfMemory))
        }
    }
}

impl<'l, R: Net<Stream = TcpStream>> Listens for Crowd<'l, R> {
    ghost fails = { λ listener. ⊤ };

    fn connection(&self) -> io::Result<TcpStream> {
        if self.left.get() > 0 {
            self.come()?;
        }
        self.listener.connection()
    }

    fn set_waiting(&self, waits: bool) -> io::Result<()> {
        self.listener.set_waiting(waits)
    }

    fn descriptor(&self) -> RawFd {
        self.listener.as_raw_fd()
    }
}

/// A log that refuses the writes of some numbers, from 0 on, the first and those before another one, and takes
/// all others.
#[derive(Drop)]
pub struct Leaky {
    pub taken: Vec<u8>,
    pub calls: u64,
    pub fails: (u64, u64),
}

impl Write for Leaky {
    fn write(&mut self, buf: &[u8]) -> io::Result<usize> {
        let call = self.calls;
        self.calls = call.saturating_add(1);
        if self.fails.0 <= call && call < self.fails.1 {
            return Err(io::Error::from(ErrorKind::StorageFull));
        }
        self.taken.write(buf)
    }

    fn flush(&mut self) -> io::Result<()> {
        Ok(())
    }
}
