//! Lines of the log that wait for those before them, or for the end of their turns.
//!
//! Answers are sent side by side, and end in any order. The log has its lines in the order of the turns.

ghost use Rattle.std.specs.Prelude.{◌≡◌, ◌<◌, ◌+◌, ◌-◌, ◌^◌, ◌⊎◌, ◌++◌, ◌∷◌, [], true, false, length, min, codes, IfOk, IsSome};
ghost use Rattle.std.specs.VecDeque.{deque_len, deque_capacity};
ghost use Rattle.fab_wire_log.specs.Shown.{shown_text};
ghost use Rattle.fab_wire_log.specs.Pending.{Advances, AreMarked, FirstWaits, IsMarked, ShowsEnd, IsEnded, HasEnded};

use crate::Watch;
use crate::shown::Shown;
use fab_wire_deadlines::clock::Ticks;
use fab_wire_gathering::gathering::Ended;
use std::alloc::{AllocError, Global};
use std::collections::VecDeque;
use std::io::Write;
use std::time::Instant;

/// How many lines may wait. Where there are more, the turns that have not ended are ended.
pub const MOST_PENDING: usize = 262144;

/// The line of a turn that is not in the log yet.
#[derive(Clone, Copy)]
pub struct Line {
    /// The moment of the turn, in Unix seconds.
    pub moment: u64,
    /// What came of it.
    pub shown: Shown,
    /// When its connection was taken up.
    pub start: Instant,
    /// How many milliseconds it took since then, once that is known.
    pub milliseconds: Option<u64>,
}

/// The lines that wait, in the order of their turns.
#[derive(Drop)]
pub struct Pending {
    /// The lines.
    pub lines: VecDeque<Line>,
    /// The number of the turn of the first of them.
    first: u64,
    ghost room: { 0 < deque_capacity lines },
}

/// What the log shows of a turn whose answer was taken, or was not.
fn shown_of(shown: Shown, is_taken: bool) -> Shown
    ensures either { (result ≡ shown) ⊎ (shown_text result ≡ codes "unsent") }
    ensures shows { ShowsEnd is_taken shown result }
{
    if is_taken {
        shown
    } else {
        Shown::Word("unsent")
    }
}

/// A line as it is once its turn has ended.
fn marked<C: Ticks, W: Write>(watch: &Watch<'_, C, W>, line: Line, is_taken: bool) -> Line
    ensures marked { IsMarked (C.tells watch.now.clock.now) (C.fails watch.now.clock.now) line result }
    ensures ended { IsEnded (C.tells watch.now.clock.now) (C.fails watch.now.clock.now) is_taken line result }
    ensures known { IsSome result.milliseconds }
{
    Line {
        moment: line.moment,
        shown: shown_of(line.shown, is_taken),
        start: line.start,
        milliseconds: Some(watch.milliseconds_since(line.start)),
    }
}

/// A line whose turn has ended: now, where it had not before, and then its answer was not taken.
fn ended<C: Ticks, W: Write>(watch: &Watch<'_, C, W>, line: Line) -> Line
    ensures marked { IsMarked (C.tells watch.now.clock.now) (C.fails watch.now.clock.now) line result }
    ensures known { IsSome result.milliseconds }
{
    if line.milliseconds.is_some() {
        line
    } else {
        marked(watch, line, false)
    }
}

impl Pending {
    /// No line waits.
    ///
    /// # Errors
    /// `AllocError` where there is no memory for the lines.
    pub fn new(alloc: Global) -> Result<Self, AllocError>
        ensures { IfOk result (λ pending. pending.lines.items ≡ []) }
    {
        Ok(Pending {
            lines: VecDeque::with_capacity(alloc, MOST_PENDING)?,
            first: 0,
        })
    }

    /// Whether there is no room for another line.
    pub fn is_full(&self) -> bool
        ensures { result ≡ false → deque_len self.now.lines < deque_capacity self.now.lines }
    {
        self.lines.len() >= self.lines.capacity()
    }

    /// The number of the next turn.
    pub fn next_number(&self) -> u64
        ensures { result ≡ min (self.now.first + length self.now.lines.items) (2 ^ 64 - 1) }
    {
        self.first.saturating_add(self.lines.len() as u64)
    }

    /// Puts the line of a turn behind the others.
    pub fn push(&mut self, line: Line)
        requires { deque_len self.old.lines < deque_capacity self.old.lines }
        ensures items { self.new.lines.items ≡ self.old.lines.items ++ line ∷ [] }
        ensures first { self.new.first ≡ self.old.first }
    {
        self.lines.push_back_reserved(line);
    }

    /// Notes that a turn has ended. It says nothing of a turn whose line is in the log.
    pub fn end<C: Ticks, W: Write>(&mut self, watch: &Watch<'_, C, W>, ended: Ended)
        ensures marked { AreMarked (C.tells watch.now.clock.now) (C.fails watch.now.clock.now) self.old.lines.items self.new.lines.items }
        ensures ended { HasEnded (C.tells watch.now.clock.now) (C.fails watch.now.clock.now)
            self.old.first ended.number ended.is_taken self.old.lines.items self.new.lines.items }
        ensures first { self.new.first ≡ self.old.first }
    {
        let Some(behind) = ended.number.checked_sub(self.first) else {
            return;
        };
        let Ok(place) = usize::try_from(behind) else {
            return;
        };
        if let Some(line) = self.lines.get_mut(place) {
            *line = marked(watch, *line, ended.is_taken);
        }
    }

    /// Whether it is known how the turn of the first line ended.
    fn is_first_ended(&self) -> bool
        ensures some { result ≡ true → 0 < length self.now.lines.items }
        ensures waits { result ≡ false → FirstWaits self.now.lines.items }
    {
        match self.lines.front() {
            Some(line) => line.milliseconds.is_some(),
            None => false,
        }
    }

    /// Writes the first line to the log. A turn that has not ended is ended by that: its answer was not
    /// taken.
    fn note_first<C: Ticks, W: Write>(&mut self, watch: &mut Watch<'_, C, W>)
        ensures clock { watch.new.clock.now ≡ watch.old.clock.now }
        ensures most { watch.new.most ≡ watch.old.most }
        ensures lines { Advances (C.tells watch.old.clock.now) (C.fails watch.old.clock.now) W.contents
            watch.old.log self.old.lines.items watch.new.log self.new.lines.items }
        ensures less { length self.new.lines.items ≡ length self.old.lines.items - 1 }
    {
        let Some(line) = self.lines.pop_front() else {
            return;
        };
        self.first = self.first.saturating_add(1);
        let line = ended(watch, line);
        watch.write_line(line.moment, line.shown, line.milliseconds.unwrap_or(0));
    }

    /// Writes those lines to the log that are known, and behind no other. Then the first one that is left
    /// waits for the end of its turn.
    pub fn note<C: Ticks, W: Write>(&mut self, watch: &mut Watch<'_, C, W>)
        ensures clock { watch.new.clock.now ≡ watch.old.clock.now }
        ensures most { watch.new.most ≡ watch.old.most }
        ensures lines { Advances (C.tells watch.old.clock.now) (C.fails watch.old.clock.now) W.contents
            watch.old.log self.old.lines.items watch.new.log self.new.lines.items }
        ensures first { FirstWaits self.new.lines.items }
    {
        while self.is_first_ended() {
            self.note_first(watch);
        }
    }

    /// Writes all lines to the log: the answers of turns that have not ended were not taken.
    pub fn note_all<C: Ticks, W: Write>(&mut self, watch: &mut Watch<'_, C, W>)
        ensures clock { watch.new.clock.now ≡ watch.old.clock.now }
        ensures most { watch.new.most ≡ watch.old.most }
        ensures lines { Advances (C.tells watch.old.clock.now) (C.fails watch.old.clock.now) W.contents
            watch.old.log self.old.lines.items watch.new.log self.new.lines.items }
        ensures none { self.new.lines.items ≡ [] }
    {
        for _ in 0..self.lines.len() {
            self.note_first(watch);
        }
    }
}
