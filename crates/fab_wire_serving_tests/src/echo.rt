//! A server that stands in for the desk: it says again what it is told, and halts where it is told to.

ghost use Rattle.std.specs.Prelude.{◌≡◌, ⊤};
ghost use Rattle.fab_wire_log.specs.Shown.{shown_text};

use fab_wire_deadlines::bounds::Bounded;
use fab_wire_log::Shown;
use fab_wire_serving::{Forgets, Server};
use fab_wire_streams::counted::Counted;
use std::cell::Cell;
use std::io;
use std::io::{Read, Write};

/// What an echo is opened over. There is one at a time: until it is dropped there can be no other.
pub struct Held<'h> {
    is_held: &'h Cell<bool>,
    opens: bool,
}

impl<'h> Held<'h> {
    /// One over which an echo is opened, or is not.
    ///
    /// # Errors
    /// There is one already.
    pub fn take(is_held: &'h Cell<bool>, opens: bool) -> Result<Self, ()> {
        if is_held.get() {
            return Err(());
        }
        is_held.set(true);
        Ok(Held { is_held, opens })
    }
}

impl Drop for Held<'_> {
    fn drop(self) {
        self.is_held.set(false);
        let Held {
            is_held: _,
            opens: _,
        } = self;
    }
}

/// Says again what it is told in one read of up to 64 bytes. It halts at `!`, and says `halted` until
/// it is opened anew. At `*` it says more than any socket holds. What begins with `+` is whole with the
/// first `.` at its end, and is said again to its end, and what begins with `#` is whole when more bytes
/// are there than any memory has.
#[derive(Drop)]
pub struct Echo<'h> {
    is_halted: bool,
    store: Option<Held<'h>>,
}

impl<'h> Echo<'h> {
    /// One over this.
    pub fn over(store: Option<Held<'h>>) -> Self {
        Echo {
            is_halted: false,
            store,
        }
    }

    fn answer<R: Read, W: Write>(
        &mut self,
        told: &[u8],
        reader: &mut R,
        writer: &mut W,
    ) -> io::Result<Shown> {
        if told.starts_with(b"!") {
            self.is_halted = true;
        }
        if self.is_halted {
            writer.write_all(b"halted")?;
            return Ok(Shown::Status(503));
        }
        if told.starts_with(b"*") {
            say_much(writer)?;
        }
        writer.write_all(told)?;
        if told.starts_with(b"+") {
            say_rest(reader, writer)?;
        }
        Ok(Shown::Status(200))
    }
}

/// How many bytes more than any socket holds.
pub const MUCH: usize = 41943040;

/// The byte at a place of what is more than any socket holds. The bytes of 16384 places are told apart by
/// where they change.
pub fn byte_at(place: usize) -> u8 {
    (place / 64 % 256) as u8
}

/// Fills bytes with those of the first places.
pub fn fill(bytes: &mut [u8]) {
    for (place, byte) in bytes.iter_mut().enumerate() {
        *byte = byte_at(place);
    }
}

/// Says as much as that.
fn say_much<W: Write>(writer: &mut W) -> io::Result<()> {
    let mut bytes = [0u8; 16384];
    fill(&mut bytes);
    for _ in 0..MUCH / 16384 {
        writer.write_all(&bytes)?;
    }
    Ok(())
}

/// Says again what is still told, in as many reads as 64000 bytes take.
fn say_rest<R: Read, W: Write>(reader: &mut R, writer: &mut W) -> io::Result<()> {
    let mut told = [0u8; 64];
    for _ in 0..1000 {
        let taken = reader.read(&mut told)?;
        writer.write_all(&told[..taken])?;
    }
    Ok(())
}

/// A word, where one failure was counted.
fn counted(word: &'static str, failures: u64) -> Shown {
    if failures == 1 {
        Shown::Word(word)
    } else {
        Shown::Word("uncounted")
    }
}

impl<'h> Server for Echo<'h> {
    type Store = Held<'h>;

    type Fault = ();

    type Outcome = Shown;

    ghost is_halted = { λ echo. echo.is_halted };

    ghost serves = { λ before moment sides sides' outcome after. ⊤ };

    ghost shows = { shown_text };

    ghost is_whole = { λ echo bytes. ⊤ };

    ghost lacking = { λ echo bytes size. ⊤ };

    ghost releases = { λ before after. ⊤ };

    ghost reopens = { λ before store after. ⊤ };

    ghost refuses = { λ before store fault. ⊤ };

    fn lacks(&self, bytes: &[u8]) -> Option<usize> {
        let is_open = bytes.starts_with(b"+") && !bytes.ends_with(b".");
        if bytes.starts_with(b"#") && bytes.len() < usize::MAX {
            Some(usize::MAX)
        } else if bytes.is_empty() || (is_open && bytes.len() < usize::MAX) {
            Some(bytes.len() + 1)
        } else {
            None
        }
    }

    fn halted(&self) -> bool {
        self.is_halted
    }

    fn release(&mut self) -> Option<Held<'h>> {
        self.store.take()
    }

    fn reopen(&mut self, store: Held<'h>) -> Result<(), ((), Held<'h>)> {
        if store.opens {
            self.is_halted = false;
            self.store = Some(store);
            Ok(())
        } else {
            Err(((), store))
        }
    }

    fn serve_one<R: Read + Bounded, W: Write + Bounded>(
        &mut self,
        _moment: u64,
        reader: &mut Counted<R>,
        writer: &mut Counted<W>,
    ) -> Shown {
        let mut told = [0u8; 64];
        match reader.read(&mut told) {
            Ok(0) => Shown::Word("empty"),
            Ok(taken) => match self.answer(&told[..taken], reader, writer) {
                Ok(said) => said,
                Err(_) => counted("unsent", writer.failures()),
            },
            Err(_) => counted("unread", reader.failures()),
        }
    }

    fn shown(outcome: &Shown) -> Shown
        ensures { shown_text result ≡ shown_text outcome.now }
    {
        *outcome
    }
}

impl<'h> Forgets for Echo<'h> {
    ghost forgets = { λ before moment input sent until sides outcome after served. served };
}
