//! The connections that are there, and the lines of the log that wait.

ghost use Rattle.std.specs.Prelude.{◌≡◌, ◌≢◌, ◌<◌, ◌⊎◌, ◌++◌, ◌∷◌, ℕ, [], true, Some, None, is_some, map, IfOk, IfErr, IfSome, IfNone};
ghost use Rattle.std.specs.Duration.{as_nanos};
ghost use Rattle.std.specs.Time.{instant_nanos};
ghost use Rattle.std.specs.VecDeque.{deque_len, deque_capacity};
ghost use Rattle.fab_wire_gathering.specs.Ends.{IsHanded, seats_of, tried_at};
ghost use Rattle.fab_wire_gathering.specs.Guests.{WaitsSo, answered, ending_of};
ghost use Rattle.fab_wire_gathering.specs.Rounds.{EachGoesOn, IsPutOff};
ghost use Rattle.fab_wire_gathering.specs.Seats.{takers_given_up};
ghost use Rattle.fab_wire_gathering.specs.declared.guest.Ending.TheVariants as ending;
ghost use Rattle.fab_wire_log.specs.Numbers.{first_of, next_of};
ghost use Rattle.fab_wire_log.specs.Pending.{Advances, AreMarked, FirstWaits, HasEnded};
ghost use Rattle.fab_wire_serving.specs.Rooms.{HasTurn, MayWait, TakesNoneUp, TakesUp};
ghost use Rattle.fab_wire_serving.specs.Starts.{AreTold};
ghost use Rattle.fab_wire_serving.specs.Stops.{IsStopped};

use crate::connection::let_go;
use crate::serving::ServeFault;
use crate::{Listens, Server};
use fab_wire_deadlines::clock::Ticks;
use fab_wire_deadlines::deadline::{Deadline, Timed};
use fab_wire_gathering::framing::Framing;
use fab_wire_gathering::gathering::{
    Ended, Gathering, MOST_GUESTS, Seating, leave_listener, watch_listener,
};
use fab_wire_gathering::guest::{Ending, Guest};
use fab_wire_log::Watch;
use fab_wire_log::pending::{Line, Pending};
use mio::Poll;
use std::io;
use std::io::{ErrorKind, Write};
use std::net::TcpStream;
use std::time::{Duration, Instant};

/// A server as what tells where a request ends.
#[derive(Drop)]
struct Framed<'d, D: Server> {
    server: &'d D,
}

impl<'d, D: Server> Framing for Framed<'d, D> {
    ghost is_whole = { λ framed bytes. D.is_whole framed.server.now bytes };

    ghost lacking = { λ framed bytes size. D.lacking framed.server.now bytes size };

    fn lacks(&self, bytes: &[u8]) -> Option<usize> {
        self.server.lacks(bytes)
    }
}

/// A connection whose turn has come.
#[derive(Drop)]
pub(crate) struct Turn {
    /// Its seat, if it has one.
    pub place: Option<usize>,
    /// The connection.
    pub guest: Guest,
    /// When it was taken up.
    pub start: Instant,
}

/// The connections that are there, when each was taken up, by its seat, and the lines that wait; the
/// connection that has no seat yet, how many are still to be taken up, and whether one may wait for that;
/// and what tells who is ready.
#[derive(Drop)]
pub(crate) struct Room {
    poll: Poll,
    gathering: Gathering,
    /// When each connection was taken up, by its seat.
    pub starts: Vec<Instant>,
    /// The lines that wait.
    pub pending: Pending,
    comer: Option<TcpStream>,
    left: u64,
    knocks: bool,
}

/// A reading of the clock; none where it cannot be read.
fn reading<C: Ticks>(clock: &C) -> Option<Instant>
    ensures told { IfSome result (λ now. C.tells clock.now (instant_nanos now)) }
    ensures none { IfNone result (C.fails clock.now) }
{
    clock.reading().ok()
}

/// Notes when the connection of a seat was taken up.
fn set_start<C: Ticks>(clock: &C, starts: &mut Vec<Instant>, place: usize, now: Instant)
    requires now { C.tells clock.now (instant_nanos now) }
    requires told { AreTold (C.tells clock.now) starts.old.items }
    ensures { AreTold (C.tells clock.now) starts.new.items }
{
    let _clock = clock;
    if let Some(start) = starts.get_mut(place) {
        *start = now;
    }
}

/// When the connection of a seat was taken up; now, where there is no such seat.
fn start_of<C: Ticks>(clock: &C, starts: &[Instant], place: usize, now: Instant) -> Instant
    requires now { C.tells clock.now (instant_nanos now) }
    requires told { AreTold (C.tells clock.now) starts.now }
    ensures { C.tells clock.now (instant_nanos result) }
{
    let _clock = clock;
    match starts.get(place) {
        Some(start) => *start,
        None => now,
    }
}

impl Room {
    /// Nobody is there yet, and so many connections are to be taken up.
    ///
    /// # Errors
    /// There is no memory for the seats or the lines, or no clock.
    pub(crate) fn new<C: Ticks, W: Write>(
        watch: &Watch<'_, C, W>,
        poll: Poll,
        left: u64,
    ) -> io::Result<Self>
        ensures told { IfOk result (λ room. AreTold (C.tells watch.now.clock.now) room.starts.items) }
        ensures lines { IfOk result (λ room. room.pending.lines.items ≡ []) }
    {
        let now = watch.clock.reading()?;
        let starts = Vec::from_elem(watch.alloc, now, MOST_GUESTS)?;
        let pending = Pending::new(watch.alloc)?;
        let gathering = Gathering::new(watch.alloc, now)?;
        Ok(Room {
            poll,
            gathering,
            starts,
            pending,
            comer: None,
            left,
            knocks: true,
        })
    }

    /// Has connections reported, and waited for no more.
    ///
    /// # Errors
    /// What the system answers; then connections are waited for as before.
    pub(crate) fn open<L: Listens>(&self, listener: &L) -> io::Result<()> {
        watch_listener(&self.poll, listener.descriptor())?;
        listener.set_waiting(false)
    }

    /// Has connections reported no more, and waited for again.
    pub(crate) fn close<L: Listens>(&self, listener: &L) {
        leave_listener(&self.poll, listener.descriptor());
        let _ = listener.set_waiting(true);
    }

    /// The next connection that wants a seat, if there is one. Where none can be accepted while others
    /// are there, that is tried again later.
    ///
    /// # Errors
    /// `Listener` where the listener gave none, and nobody is there.
    fn next_comer<L: Listens>(
        &mut self,
        listener: &L,
        now: Instant,
    ) -> Result<Option<TcpStream>, ServeFault>
        ensures starts { self.new.starts ≡ self.old.starts }
        ensures pending { self.new.pending ≡ self.old.pending }
        ensures fault { IfErr result (IsStopped (L.fails listener.now) ⊥) }
    {
        let comer = self.comer.take();
        if comer.is_some() || !self.knocks || self.left == 0 {
            return Ok(comer);
        }
        match listener.connection() {
            Ok(stream) => {
                self.left -= 1;
                Ok(Some(stream))
            }
            Err(e) => {
                if self.waits_on(&e, now) {
                    Ok(None)
                } else {
                    Err(ServeFault::Listener(e))
                }
            }
        }
    }

    /// The listener gave no connection. It says whether the next one is waited for: where none was there,
    /// or others are, who make way.
    fn waits_on(&mut self, e: &io::Error, now: Instant) -> bool
        ensures starts { self.new.starts ≡ self.old.starts }
        ensures pending { self.new.pending ≡ self.old.pending }
    {
        self.knocks = false;
        if e.kind() == ErrorKind::WouldBlock {
            return true;
        }
        let are_there = !self.gathering.is_empty();
        self.gathering.make_way(now);
        are_there
    }

    /// Takes up those who wait for it, while there are seats. It gives one that can have no seat, whose
    /// turn is now.
    ///
    /// # Errors
    /// As `next_comer`.
    fn take_up<C: Ticks, W: Write, D: Server, L: Listens>(
        &mut self,
        watch: &Watch<'_, C, W>,
        server: &D,
        listener: &L,
        now: Instant,
    ) -> Result<Option<TcpStream>, ServeFault>
        requires now { C.tells watch.now.clock.now (instant_nanos now) }
        requires told { AreTold (C.tells watch.now.clock.now) self.old.starts.items }
        ensures told { AreTold (C.tells watch.now.clock.now) self.new.starts.items }
        ensures pending { self.new.pending ≡ self.old.pending }
        ensures fault { IfErr result (IsStopped (L.fails listener.now) ⊥) }
    {
        for _ in 0..MOST_GUESTS {
            let Some(stream) = self.next_comer(listener, now)? else {
                return Ok(None);
            };
            match self.seat(watch, server, stream, now) {
                Seating::At(place) => set_start(watch.clock, &mut self.starts, place, now),
                Seating::Full(stream) => {
                    self.comer = Some(stream);
                    self.gathering.make_way(now);
                    return Ok(None);
                }
                Seating::Refused(stream) => return Ok(Some(stream)),
            }
        }
        Ok(None)
    }

    /// Gives a connection a seat.
    fn seat<C: Ticks, W: Write, D: Server>(
        &mut self,
        watch: &Watch<'_, C, W>,
        server: &D,
        stream: TcpStream,
        now: Instant,
    ) -> Seating
        ensures starts { self.new.starts ≡ self.old.starts }
        ensures pending { self.new.pending ≡ self.old.pending }
    {
        let framed = Framed { server };
        self.gathering
            .seat(&self.poll, &framed, stream, now, watch.most)
    }

    /// How long may be waited for something to do.
    fn time_to_wait(&self, now: Instant) -> Duration
        ensures knocks { TakesUp self.now.knocks self.now.left self.now.comer → as_nanos result ≡ 0 }
        ensures waits { TakesNoneUp self.now.knocks self.now.left self.now.comer
            → MayWait (is_some self.now.comer) (tried_at self.now.gathering) (instant_nanos now) (seats_of self.now.gathering) (as_nanos result) }
    {
        if self.knocks && self.left > 0 && self.comer.is_none() {
            Duration::ZERO
        } else {
            self.gathering.time_to_wait(now, self.comer.is_some())
        }
    }

    /// Notes the turns that have ended.
    fn mark_ended<C: Ticks, W: Write>(&mut self, watch: &Watch<'_, C, W>)
        ensures starts { self.new.starts ≡ self.old.starts }
        ensures lines { AreMarked (C.tells watch.now.clock.now) (C.fails watch.now.clock.now)
            self.old.pending.lines.items self.new.pending.lines.items }
    {
        for _ in 0..MOST_GUESTS {
            match self.gathering.next_ended() {
                Some(ended) => self.pending.end(watch, ended),
                None => return,
            }
        }
    }

    /// Writes the lines that are known, waits for something to do, and goes on with all that is ready.
    /// It gives the reading of the clock then; none where the clock cannot be read.
    fn go_round<C: Ticks, W: Write, D: Server>(
        &mut self,
        watch: &mut Watch<'_, C, W>,
        server: &D,
    ) -> Option<Instant>
        ensures clock { watch.new.clock.now ≡ watch.old.clock.now }
        ensures most { watch.new.most ≡ watch.old.most }
        ensures starts { self.new.starts ≡ self.old.starts }
        ensures lines { Advances (C.tells watch.old.clock.now) (C.fails watch.old.clock.now) W.contents
            watch.old.log self.old.pending.lines.items watch.new.log self.new.pending.lines.items }
        ensures now { IfSome result (λ now. C.tells watch.old.clock.now (instant_nanos now)) }
        ensures first { IfSome result (λ now. FirstWaits self.new.pending.lines.items) }
        ensures none { IfNone result (C.fails watch.old.clock.now) }
    {
        let now = reading(watch.clock)?;
        self.mark_ended(watch);
        self.pending.note(watch);
        self.gathering.see_off(&self.poll, now);
        let time = self.time_to_wait(now);
        let knocks = self.gathering.wait(&mut self.poll, time);
        let now = reading(watch.clock)?;
        let are_tried = self.gathering.go_on(&self.poll, &Framed { server }, now);
        self.knocks = self.knocks || knocks || are_tried;
        Some(now)
    }

    /// The next connection whose turn has come. It waits until there is one.
    ///
    /// # Errors
    /// `Listener` where the listener gave no connection and nobody is there, `NoClock` where the clock
    /// cannot be read.
    pub(crate) fn next_turn<C: Ticks, W: Write, D: Server, L: Listens>(
        &mut self,
        watch: &mut Watch<'_, C, W>,
        server: &D,
        listener: &L,
    ) -> Result<Turn, ServeFault>
        requires told { AreTold (C.tells watch.old.clock.now) self.old.starts.items }
        ensures clock { watch.new.clock.now ≡ watch.old.clock.now }
        ensures most { watch.new.most ≡ watch.old.most }
        ensures told { AreTold (C.tells watch.old.clock.now) self.new.starts.items }
        ensures lines { Advances (C.tells watch.old.clock.now) (C.fails watch.old.clock.now) W.contents
            watch.old.log self.old.pending.lines.items watch.new.log self.new.pending.lines.items }
        ensures start { IfOk result (λ turn. C.tells watch.old.clock.now (instant_nanos turn.start)) }
        ensures turn { IfOk result (λ turn. HasTurn turn.place turn.guest (seats_of self.new.gathering)) }
        ensures fault { IfErr result (IsStopped (L.fails listener.now) (C.fails watch.old.clock.now)) }
    {
        for _ in 0..u64::MAX {
            let Some(now) = self.go_round(watch, server) else {
                return Err(ServeFault::NoClock);
            };
            if let Some(stream) = self.take_up(watch, server, listener, now)? {
                return Ok(carried(watch, stream, now));
            }
            if let Some((place, guest)) = self.gathering.next_turn() {
                let start = start_of(watch.clock, self.starts.as_slice(), place, now);
                return Ok(seated(place, guest, start));
            }
        }
        waited_for(watch, listener)
    }

    /// Ends a turn: its connection has its answer, or so much of it as is kept, and so much time to take
    /// it. One whose request was not gathered has been sent its answer; it is let go.
    pub(crate) fn end_turn<C: Ticks, W: Write>(
        &mut self,
        watch: &Watch<'_, C, W>,
        turn: Turn,
        line: Line,
        answer: Vec<u8>,
        deadline: Deadline,
    )
        requires { deque_len self.old.pending.lines < deque_capacity self.old.pending.lines }
        ensures starts { self.new.starts ≡ self.old.starts }
        ensures lines { AreMarked (C.tells watch.now.clock.now) (C.fails watch.now.clock.now)
            (self.old.pending.lines.items ++ line ∷ []) self.new.pending.lines.items }
        ensures handed { (place : ℕ) → turn.place ≡ Some place → ending_of turn.guest ≢ ending.Starved
            → IsHanded ⟦<Instant as Ord>⟧.cmp (seats_of self.old.gathering) (seats_of self.new.gathering) place
            (answered answer (next_of self.old.pending) deadline turn.guest) }
        ensures carried { (turn.place ≡ None) ⊎ (ending_of turn.guest ≡ ending.Starved) → self.new.gathering ≡ self.old.gathering }
    {
        let number = self.pending.next_number();
        self.pending.push(line);
        let Turn {
            place,
            guest,
            start: _,
        } = turn;
        match place {
            Some(place) if guest.ending() != Ending::Starved => {
                self.gathering
                    .hand(&self.poll, place, guest, answer, number, deadline)
            }
            _ => {
                self.end_carried(watch, &guest, number, deadline);
            }
        }
    }

    /// Ends the turn of a connection that was sent its answer as it was served.
    fn end_carried<C: Ticks, W: Write>(
        &mut self,
        watch: &Watch<'_, C, W>,
        guest: &Guest,
        number: u64,
        deadline: Deadline,
    )
        ensures starts { self.new.starts ≡ self.old.starts }
        ensures lines { AreMarked (C.tells watch.now.clock.now) (C.fails watch.now.clock.now)
            self.old.pending.lines.items self.new.pending.lines.items }
        ensures ended { HasEnded (C.tells watch.now.clock.now) (C.fails watch.now.clock.now)
            (first_of self.old.pending) number true self.old.pending.lines.items self.new.pending.lines.items }
        ensures gathering { self.new.gathering ≡ self.old.gathering }
    {
        let ended = Ended {
            number,
            is_taken: true,
        };
        self.pending.end(watch, ended);
        let_go(&mut Timed::new(watch.clock, guest.stream(), deadline));
    }

    /// Gives those who are there so much more time.
    pub(crate) fn put_off(&mut self, by: Duration)
        ensures starts { self.new.starts ≡ self.old.starts }
        ensures pending { self.new.pending ≡ self.old.pending }
        ensures seats { EachGoesOn (IsPutOff (as_nanos by)) (seats_of self.old.gathering) (seats_of self.new.gathering) }
    {
        self.gathering.put_off(by);
    }

    /// Makes room for the line of a turn. Where there is none, all turns are ended, and their lines
    /// written.
    pub(crate) fn make_room<C: Ticks, W: Write>(&mut self, watch: &mut Watch<'_, C, W>)
        ensures clock { watch.new.clock.now ≡ watch.old.clock.now }
        ensures most { watch.new.most ≡ watch.old.most }
        ensures starts { self.new.starts ≡ self.old.starts }
        ensures lines { Advances (C.tells watch.old.clock.now) (C.fails watch.old.clock.now) W.contents
            watch.old.log self.old.pending.lines.items watch.new.log self.new.pending.lines.items }
        ensures room { deque_len self.new.pending.lines < deque_capacity self.new.pending.lines }
        ensures seats { (seats_of self.new.gathering ≡ seats_of self.old.gathering)
            ⊎ (seats_of self.new.gathering ≡ map takers_given_up (seats_of self.old.gathering)) }
    {
        if !self.pending.is_full() {
            return;
        }
        self.gathering.give_up_takers();
        self.pending.note_all(watch);
    }

    /// Lets everybody go: those whose requests have had no turn at once, the others when they have their
    /// answers. All lines are written then.
    pub(crate) fn finish<C: Ticks, W: Write, D: Server>(
        &mut self,
        watch: &mut Watch<'_, C, W>,
        server: &D,
    )
        ensures clock { watch.new.clock.now ≡ watch.old.clock.now }
        ensures most { watch.new.most ≡ watch.old.most }
        ensures lines { Advances (C.tells watch.old.clock.now) (C.fails watch.old.clock.now) W.contents
            watch.old.log self.old.pending.lines.items watch.new.log [] }
    {
        self.left = 0;
        self.comer = None;
        self.gathering.dismiss();
        self.see_off(watch, server);
        self.pending.note_all(watch);
    }

    /// Goes on until nobody is there any more.
    fn see_off<C: Ticks, W: Write, D: Server>(&mut self, watch: &mut Watch<'_, C, W>, server: &D)
        ensures clock { watch.new.clock.now ≡ watch.old.clock.now }
        ensures most { watch.new.most ≡ watch.old.most }
        ensures lines { Advances (C.tells watch.old.clock.now) (C.fails watch.old.clock.now) W.contents
            watch.old.log self.old.pending.lines.items watch.new.log self.new.pending.lines.items }
    {
        for _ in 0..u64::MAX {
            if self.gathering.is_empty() {
                return;
            }
            if self.go_round(watch, server).is_none() {
                return;
            }
        }
    }
}

/// A turn of a connection that has no seat: all of it is read in its turn.
fn carried<C: Ticks, W: Write>(watch: &Watch<'_, C, W>, stream: TcpStream, now: Instant) -> Turn
    ensures start { result.start ≡ now }
    ensures place { result.place ≡ None }
    ensures waits { WaitsSo ending.Starved result.guest }
{
    let deadline = Deadline::after(now, watch.most);
    Turn {
        place: None,
        guest: Guest::carried(watch.alloc, stream, now, deadline),
        start: now,
    }
}

/// A turn of a connection that leaves its seat for it.
fn seated(place: usize, guest: Guest, start: Instant) -> Turn
    ensures start { result.start ≡ start }
    ensures place { result.place ≡ Some place }
    ensures guest { result.guest ≡ guest }
{
    Turn {
        place: Some(place),
        guest,
        start,
    }
}

/// The next connection, which is waited for as if nobody were there.
///
/// # Errors
/// As `next_turn`.
fn waited_for<C: Ticks, W: Write, L: Listens>(
    watch: &Watch<'_, C, W>,
    listener: &L,
) -> Result<Turn, ServeFault>
    ensures start { IfOk result (λ turn. C.tells watch.now.clock.now (instant_nanos turn.start)) }
    ensures turn { IfOk result (λ turn. (turn.place ≡ None) × WaitsSo ending.Starved turn.guest) }
    ensures fault { IfErr result (IsStopped (L.fails listener.now) (C.fails watch.now.clock.now)) }
{
    let stream = listener.connection().map_err(ServeFault::Listener)?;
    match reading(watch.clock) {
        Some(now) => Ok(carried(watch, stream, now)),
        None => Err(ServeFault::NoClock),
    }
}
