//! The request of a guest as its turn reads it, and its answer as its turn writes it.

ghost use Rattle.std.specs.Prelude.{◌≡◌, ◌++◌, ⊤, ℕ, take, drop, IfOk};
ghost use Rattle.std.specs.Io.{WritesAtMost};
ghost use Rattle.fab_wire_gathering.specs.Guests.{gathered_of, read_of};

use fab_wire_deadlines::stream::{Sink, Source};
use fab_wire_gathering::guest::{Ending, Guest};
use std::alloc::Global;
use std::cell::Cell;
use std::io;
use std::io::{ErrorKind, Read};
use std::net::{Shutdown, TcpStream};
use std::time::Duration;

/// What a guest has sent. Reads give the bytes that were gathered, and then what came behind them: an
/// end, a failure, or the rest, which is read from the socket.
#[derive(Drop)]
pub struct Request<'g> {
    stream: &'g TcpStream,
    ending: Ending,
    bytes: &'g [u8],
}

impl<'g> Request<'g> {
    /// Nothing has been read yet.
    pub fn of(guest: &'g Guest) -> Self
        ensures { read_of result.ending result.bytes.now ≡ gathered_of guest.now }
    {
        Request {
            stream: guest.stream(),
            ending: guest.ending(),
            bytes: guest.bytes(),
        }
    }
}

impl<'g> Source for Request<'g> {
    ghost remaining = { λ request. read_of request.ending request.bytes.now };

    ghost waits = { λ before most after. ⊤ };

    fn read_for(&mut self, most: Duration, buf: &mut [u8]) -> io::Result<usize> {
        if !self.bytes.is_empty() {
            return self.bytes.read(buf);
        }
        match self.ending {
            Ending::Whole | Ending::Ended => Ok(0),
            Ending::Failed => Err(io::Error::from(ErrorKind::TimedOut)),
            Ending::Starved => self.stream.read_for(most, buf),
        }
    }
}

/// What is answered to a guest. What is written is kept, as far as there is memory, and the rest goes to
/// the socket; of a guest whose rest is read all of it does.
#[derive(Drop)]
pub struct Answer<'g> {
    alloc: Global,
    stream: &'g TcpStream,
    is_kept: bool,
    kept: Cell<Vec<u8>>,
}

impl<'g> Answer<'g> {
    /// Nothing has been written yet.
    pub fn to(alloc: Global, guest: &'g Guest) -> Self {
        Answer {
            alloc,
            stream: guest.stream(),
            is_kept: guest.ending() != Ending::Starved,
            kept: Cell::new(Vec::new(alloc)),
        }
    }

    /// What is kept of it, in no more memory than that takes.
    pub fn into_kept(self) -> Vec<u8> {
        let mut kept = self.kept.into_inner();
        kept.shrink_to_fit();
        kept
    }
}

/// Keeps bytes behind those that are kept. Where there is no memory for them as many of the first ones
/// are sent as the socket takes in so long, and as many of these kept in their place.
///
/// # Errors
/// That of the socket, which waits for so long at most; then nothing is kept any more.
fn keep(kept: &mut Vec<u8>, mut stream: &TcpStream, most: Duration, buf: &[u8]) -> io::Result<usize>
    ensures bound { WritesAtMost result buf.now }
    ensures kept { IfOk result (λ size. (sent : ℕ) × (kept.new.items ≡ drop sent (kept.old.items ++ take size buf.now))) }
{
    if kept.extend_from_slice(buf).is_ok() {
        return Ok(buf.len());
    }
    stream.set_nonblocking(false)?;
    if kept.is_empty() {
        return stream.write_for(most, buf);
    }
    let sent = stream.write_for(most, kept.as_slice())?;
    drop(kept.drain(..sent));
    let fits = sent.min(buf.len());
    kept.extend_from_slice(&buf[..fits])?;
    Ok(fits)
}

impl<'e, 'g> Sink for &'e Answer<'g> {
    ghost waits = { λ before most after. ⊤ };

    ghost ends = { λ before after. ⊤ };

    fn write_for(&mut self, most: Duration, buf: &[u8]) -> io::Result<usize> {
        if !self.is_kept {
            let mut stream = self.stream;
            return stream.write_for(most, buf);
        }
        let mut kept = self.kept.replace(Vec::new(self.alloc));
        let went = keep(&mut kept, self.stream, most, buf);
        if went.is_err() {
            kept.clear();
        }
        self.kept.set(kept);
        went
    }

    fn end_writing(&mut self) -> io::Result<()> {
        self.stream.shutdown(Shutdown::Write)
    }
}
