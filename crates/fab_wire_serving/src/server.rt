//! What serves connections.

ghost use Rattle.std.specs.Prelude.{◌≡◌, ◌<◌, ℕ, Bool, true, List, Option, Some, None, length, IfSome, IfNone, OnOk, IfErr, OnErr};
ghost use Rattle.fab_wire_serving.specs.Sides.{Sides, begun_sides, sides};
ghost use Rattle.fab_wire_log.specs.Shown.{shown_text};

use fab_wire_deadlines::bounds::Bounded;
use fab_wire_log::Shown;
use fab_wire_streams::counted::Counted;
use std::io::{Read, Write};

/// What serves one connection after the other. It may halt; it then lets go of the store that it
/// was opened over, and serves on as a halted one until it is opened anew.
pub trait Server {
    /// What it is opened over.
    type Store: Drop;

    /// Why it was not opened.
    type Fault: Drop;

    /// What came of a connection.
    type Outcome: Drop;

    // It is halted.
    ghost is_halted: { Self → Bool };

    // What a connection at a moment (Unix seconds), whose sides are known so before and after, does to
    // it, and what came of the connection.
    ghost serves: { Self → ℕ → Sides → Sides → Self.Outcome → Self → Type 0 };

    // The text of what came of a connection.
    ghost shows: { Self.Outcome → List ℕ };

    // What letting go of its store does to a halted one.
    ghost releases: { Self → Self → Type 0 };

    // What opening a halted one over a store does to it.
    ghost reopens: { Self → Self.Store → Self → Type 0 };

    // It is not opened over a store for this fault.
    ghost refuses: { Self → Self.Store → Self.Fault → Type 0 };

    // Whatever comes behind these bytes of a connection, it asks what they ask.
    ghost is_whole: { Self → List ℕ → Type 0 };

    // These bytes of a connection are looked at again when so many are there.
    ghost lacking: { Self → List ℕ → ℕ → Type 0 };

    /// How many bytes of a connection have to be there before they are looked at again; none where
    /// what it asks is known, whatever comes behind them.
    fn lacks(&self, bytes: &[u8]) -> Option<usize>
        ensures whole { IfNone result (is_whole self.now bytes.now) }
        ensures lacking { IfSome result (λ size. lacking self.now bytes.now size) }
        ensures more { IfSome result (λ size. length bytes.now < size) };

    /// Whether it is halted.
    fn halted(&self) -> bool
        ensures { result ≡ is_halted self.now };

    /// Hands over the store that it halted on, if it has one still, so that the store can be opened
    /// anew.
    fn release(&mut self) -> Option<Self::Store>
        requires { is_halted self.old ≡ true }
        ensures halted { is_halted self.new ≡ true }
        ensures released { releases self.old self.new };

    /// Opens a halted one over a store.
    ///
    /// # Errors
    /// Why it was not opened, and the store: then nothing has changed.
    fn reopen(&mut self, store: Self::Store) -> Result<(), (Self::Fault, Self::Store)>
        requires { is_halted self.old ≡ true }
        ensures reopened { OnOk result (reopens self.old store self.new) }
        ensures fault { IfErr result (λ e. refuses self.old store e.0) }
        ensures kept { OnErr result (self.new ≡ self.old) };

    /// Serves one connection at a moment, in Unix seconds: reads what is asked, and writes the answer.
    fn serve_one<R: Read + Bounded, W: Write + Bounded>(
        &mut self,
        moment: u64,
        reader: &mut Counted<R>,
        writer: &mut Counted<W>,
    ) -> Self::Outcome
        ensures { serves self.old moment
            (sides R.remaining R.until W.contents W.until reader.old writer.old)
            (sides R.remaining R.until W.contents W.until reader.new writer.new) result self.new };

    /// What the log shows of what came of a connection.
    fn shown(outcome: &Self::Outcome) -> Shown
        ensures { shown_text result ≡ shows outcome.now };
}

/// What serves a connection whose bytes are known as one whose bytes are not.
pub trait Forgets: Server {
    // What it does where the bytes of a connection are known, it does where they are not.
    ghost forgets: { (old : Self) → (moment : ℕ) → (input : List ℕ) → (sent : Option (List ℕ)) → (until : ℕ) → (after : Sides) → (outcome : Self.Outcome) → (new : Self)
        → Self.Server.serves old moment (begun_sides (Some input) sent until) after outcome new → Self.Server.serves old moment (begun_sides None sent until) after outcome new };
}
