//! Connections whose requests are gathered, and whose answers are sent, side by side.
ghost use Rattle.std.specs.Prelude.{true, false, [], ◌≡◌, ◌↔◌, ◌≤◌, ◌+◌, ◌-◌, ◌^◌, ℕ, min, All, Option, Some, None, IsTrue, IfSome, IfNone, IfOk, length, vec_capacity, map, nat_le, slice_get, slice_set};
ghost use Rattle.std.specs.Duration.{as_nanos};
ghost use Rattle.std.specs.Option.{option_map};
ghost use Rattle.std.specs.Ordering.{nat_cmp};
ghost use Rattle.std.specs.Time.{instant_nanos};
ghost use Rattle.fab_wire_deadlines.specs.Deadlines.{end_after};
ghost use Rattle.fab_wire_gathering.specs.Ends.{HasNoPlace, IsSeated, IsFirstEnd, IsNextEnded, FreesLeaver, LeavesIf, GivesUpSilent, MakesWay, MakesRoom, IsHanded};
ghost use Rattle.fab_wire_gathering.specs.Guests.{answered};
ghost use Rattle.fab_wire_gathering.specs.Inner.Seating.{IsSooner};
ghost use Rattle.fab_wire_gathering.specs.Rounds.{EachGoesOn, GoesOnSo, HasGoneOn, IsPutOff, IsRound, IsSeenOff, IsTimed, KeepResting, NobodyIsLate};
ghost use Rattle.fab_wire_gathering.specs.Seats.{most_guests, HasSeat, IsFirstSeat, turn_of, ended_of, leaves_at, takes_until, silent_since, ends_at, has_taken, dismissed, takers_given_up, without_gone, given_up_at, numbered_in, waited_in, most_waiting, kept_by, kept_in, SameSeats};
ghost use Rattle.fab_wire_gathering.specs.declared.guest.Guest.{Guest};
ghost use Rattle.fab_wire_gathering.specs.declared.guest.Stage.{Stage};
ghost use Rattle.fab_wire_gathering.specs.declared.guest.Stage.TheVariants as stage;

use crate::framing::Framing;
use crate::guest::{Ending, Guest, Stage};
use crate::seats::{
    EndedTurns, Leavers, MOST_SILENCE, Silent, Takers, Turns, first_seat, has_come, later,
};
use fab_wire_deadlines::deadline::{Deadline, sooner};
use mio::unix::SourceFd;
use mio::{Events, Interest, Poll, Token};
use std::alloc::{AllocError, Global};
use std::io;
use std::net::TcpStream;
use std::os::fd::{AsRawFd, RawFd};
use std::time::{Duration, Instant};

/// How many connections are there at once. Others wait where the system keeps them.
pub const MOST_GUESTS: usize = 256;

/// How many bytes of answers are kept at most, between two turns, that are not taken whole.
pub const MOST_KEPT: usize = 67108864;

/// How many bytes are read at once.
const PIECE: usize = 65536;

/// How long the system is waited for at most, and how often all are tried, in seconds.
const MOST_WAITING: u64 = 1;

/// The token of the listener.
const LISTENER: Token = Token(usize::MAX);

/// The connections that are there.
#[derive(Drop)]
pub struct Gathering {
    alloc: Global,
    seats: Vec<Option<Guest>>,
    events: Events,
    piece: Vec<u8>,
    /// How many have begun to wait for their turn.
    waited: u64,
    /// When all were tried, the last time.
    tried: Instant,
}

/// What came of seating a connection.
pub enum Seating {
    /// It has this seat.
    At(usize),
    /// All seats are taken.
    Full(TcpStream),
    /// The system does not watch it. Its reads and writes wait.
    Refused(TcpStream),
}

/// A turn whose answer is sent, or is not sent any more.
#[derive(Clone, Copy)]
pub struct Ended {
    /// The number of the turn.
    pub number: u64,
    /// Whether all of the answer was taken.
    pub is_taken: bool,
}

/// Has a descriptor reported, by its token, when it can be read or written.
///
/// # Errors
/// What the system answers, where it does not watch the descriptor.
fn watch(poll: &Poll, token: Token, descriptor: RawFd) -> io::Result<()> {
    let ways = Interest::READABLE | Interest::WRITABLE;
    poll.registry()
        .register(&mut SourceFd(&descriptor), token, ways)
}

/// Has the listener reported. What it gives without being waited for has to be asked for until there is
/// no more.
///
/// # Errors
/// What the system answers, where it does not watch the listener.
pub fn watch_listener(poll: &Poll, descriptor: RawFd) -> io::Result<()> {
    watch(poll, LISTENER, descriptor)
}

/// Has the listener reported no more.
pub fn leave_listener(poll: &Poll, descriptor: RawFd) {
    let _ = poll.registry().deregister(&mut SourceFd(&descriptor));
}

/// Has a connection that may have something left reported again. Where that can not be, it is tried
/// with all others.
fn watch_again(poll: &Poll, place: usize, descriptor: RawFd) {
    let ways = Interest::READABLE | Interest::WRITABLE;
    let _ = poll
        .registry()
        .reregister(&mut SourceFd(&descriptor), Token(place), ways);
}

/// Goes on with one as far as it can without waiting. Whoever begins to wait for its turn is given a
/// number.
fn go_on<F: Framing>(
    poll: &Poll,
    framing: &F,
    place: usize,
    guest: &mut Guest,
    piece: &mut [u8],
    now: Instant,
    waited: &mut u64,
)
    ensures numbered { guest.old.stage ≡ stage.Sends → guest.new.stage ≡ stage.Waits → guest.new.number ≡ waited.old }
    ensures waited { waited.new ≡ waited_in guest.old.stage guest.new.stage waited.old }
    ensures on { HasGoneOn guest.old guest.new }
{
    let was = guest.stage();
    if guest.go_on(framing, piece, now) {
        watch_again(poll, place, guest.stream().as_raw_fd());
    }
    number(guest, was, waited);
}

/// Gives one that has begun to wait for its turn the next number.
fn number(guest: &mut Guest, was: Stage, waited: &mut u64)
    ensures guest { guest.new ≡ numbered_in was guest.old.stage waited.old guest.old }
    ensures waited { waited.new ≡ waited_in was guest.old.stage waited.old }
{
    match was {
        Stage::Sends => match guest.stage() {
            Stage::Waits => {
                guest.be_number(*waited);
                *waited = waited.saturating_add(1);
            }
            _ => {}
        },
        _ => {}
    }
}

impl Gathering {
    /// Nobody is there yet.
    ///
    /// # Errors
    /// There is no memory for the seats, or for what is read.
    pub fn new(alloc: Global, now: Instant) -> Result<Self, AllocError>
        ensures nobody { IfOk result (λ g. (g.seats.items ≡ []) × (g.waited ≡ 0)) }
        ensures room { IfOk result (λ g. most_guests ≤ vec_capacity g.seats) }
        ensures tried { IfOk result (λ g. g.tried ≡ now) }
    {
        Ok(Gathering {
            alloc,
            seats: Vec::with_capacity(alloc, MOST_GUESTS)?,
            events: Events::with_capacity(alloc, MOST_GUESTS + 1)?,
            piece: Vec::from_elem(alloc, 0u8, PIECE)?,
            waited: 0,
            tried: now,
        })
    }

    /// Whether nobody is there.
    pub fn is_empty(&self) -> bool
        ensures { IsTrue result ↔ All (λ seat. seat ≡ None) self.now.seats.items }
    {
        self.seats.iter().all(|seat| seat.is_none())
    }

    /// A seat that is free, if there is one.
    fn free_place(&mut self) -> Option<usize>
        ensures free { IfSome result (λ place. slice_get self.new.seats.items place ≡ Some None) }
        ensures none { IfNone result (HasNoPlace self.old.seats × (self.new.seats.items ≡ self.old.seats.items)) }
        ensures same { SameSeats self.old.seats.items self.new.seats.items }
    {
        let free = self.seats.iter().position(|seat| seat.is_none());
        if free.is_some() {
            return free;
        }
        let place = self.seats.len();
        if place < MOST_GUESTS && self.seats.push(None).is_ok() {
            Some(place)
        } else {
            None
        }
    }

    /// Puts one into its seat.
    fn put(&mut self, place: usize, guest: Guest)
        ensures { self.new.seats.items ≡ slice_set self.old.seats.items place (Some guest) }
    {
        if let Some(seat) = self.seats.get_mut(place) {
            *seat = Some(guest);
        }
    }

    /// Gives a connection a seat, and reads what has come of it. Its request has so much time.
    pub fn seat<F: Framing>(
        &mut self,
        poll: &Poll,
        framing: &F,
        stream: TcpStream,
        now: Instant,
        most: Duration,
    ) -> Seating
        ensures { IsSeated self.old.seats self.new.seats.items stream (end_after (instant_nanos now) (as_nanos most)) result }
    {
        let Some(place) = self.free_place() else {
            return Seating::Full(stream);
        };
        if is_watched(poll, place, &stream).is_err() {
            let _ = stream.set_nonblocking(false);
            return Seating::Refused(stream);
        }
        let mut guest = Guest::new(self.alloc, stream, now, Deadline::after(now, most));
        go_on(
            poll,
            framing,
            place,
            &mut guest,
            &mut self.piece,
            now,
            &mut self.waited,
        );
        self.put(place, guest);
        Seating::At(place)
    }

    /// The seat of the one whose turn is the next: its request was the first to wait.
    fn waiting(&self) -> Option<usize>
        ensures { IsFirstSeat nat_cmp turn_of self.now.seats.items result }
    {
        first_seat(self.seats.as_slice(), &Turns)
    }

    /// The next one whose turn has come, and its seat, which it leaves for its turn. The reads and writes
    /// of one whose request is still to be read wait.
    pub fn next_turn(&mut self) -> Option<(usize, Guest)>
        ensures first { IsFirstSeat nat_cmp turn_of self.old.seats.items (option_map (λ turn. turn.0) result) }
        ensures some { IfSome result (λ turn. HasSeat self.old.seats.items turn.0 turn.1 × (self.new.seats.items ≡ slice_set self.old.seats.items turn.0 None)) }
        ensures none { IfNone result (self.new.seats ≡ self.old.seats) }
    {
        let place = self.waiting()?;
        let guest = self.seats.get_mut(place)?.take()?;
        if guest.ending() == Ending::Starved {
            let _ = guest.stream().set_nonblocking(false);
        }
        Some((place, guest))
    }

    /// When something is to be done, whatever the system reports. Where another connection waits for a
    /// seat, that is also when one has sent nothing for too long.
    fn next_end(&self, is_crowded: bool) -> Instant
        ensures { IsFirstEnd is_crowded (instant_nanos self.now.tried) self.now.seats.items (instant_nanos result) }
    {
        let mut first = later(self.tried, MOST_WAITING);
        for seat in &self.seats {
            first = sooner_in(first, seat, is_crowded);
        }
        first
    }

    /// How long may be waited for something to do: not at all where somebody's turn has come, and for a
    /// second at most. Where another connection waits for a seat, no longer than until one has sent
    /// nothing for too long.
    pub fn time_to_wait(&self, now: Instant, is_crowded: bool) -> Duration
        ensures ready { (place : ℕ) (guest : Guest) (number : ℕ) → HasSeat self.now.seats.items place guest → turn_of guest ≡ Some number → as_nanos result ≡ 0 }
        ensures waits { IsFirstSeat nat_cmp turn_of self.now.seats.items None
            → (end : ℕ) × IsFirstEnd is_crowded (instant_nanos self.now.tried) self.now.seats.items end × (as_nanos result ≡ end - instant_nanos now) }
    {
        if self.waiting().is_some() {
            Duration::ZERO
        } else {
            self.next_end(is_crowded).duration_since(now)
        }
    }

    /// Waits until something is ready, for so long at most. It says whether a connection may wait to be
    /// taken up.
    pub fn wait(&mut self, poll: &mut Poll, time: Duration) -> bool {
        let _ = poll.poll(&mut self.events, Some(time));
        for event in &self.events {
            if event.token() == LISTENER {
                return true;
            }
        }
        false
    }

    /// Goes on with all that is ready, and gives up those whose time is up. It says whether all were
    /// tried, as they are once in a second: so a report that got lost is no hang.
    pub fn go_on<F: Framing>(&mut self, poll: &Poll, framing: &F, now: Instant) -> bool
        ensures tried { result ≡ nat_le (end_after (instant_nanos self.old.tried) most_waiting) (instant_nanos now) }
        ensures round { IsRound (instant_nanos now) self.old.seats.items self.new.seats.items }
        ensures resting { KeepResting self.old.seats.items self.new.seats.items }
        ensures late { NobodyIsLate (instant_nanos now) self.new.seats.items }
    {
        self.go_on_with_ready(poll, framing, now);
        let are_tried = self.try_all(poll, framing, now);
        self.give_up_late(now);
        self.let_go();
        are_tried
    }

    /// Goes on with those that were reported.
    fn go_on_with_ready<F: Framing>(&mut self, poll: &Poll, framing: &F, now: Instant)
        ensures each { EachGoesOn HasGoneOn self.old.seats.items self.new.seats.items }
        ensures tried { self.new.tried ≡ self.old.tried }
    {
        for event in &self.events {
            let Token(place) = event.token();
            if let Some(seat) = self.seats.get_mut(place) {
                go_on_in(
                    poll,
                    framing,
                    place,
                    seat,
                    &mut self.piece,
                    now,
                    &mut self.waited,
                );
            }
        }
    }

    /// Goes on with everybody, if it is a second since that was done. It says whether it is.
    fn try_all<F: Framing>(&mut self, poll: &Poll, framing: &F, now: Instant) -> bool
        ensures tried { result ≡ nat_le (end_after (instant_nanos self.old.tried) most_waiting) (instant_nanos now) }
        ensures noted { result ≡ true → self.new.tried ≡ now }
        ensures untried { result ≡ false → self.new ≡ self.old }
        ensures each { EachGoesOn HasGoneOn self.old.seats.items self.new.seats.items }
    {
        if !has_come(later(self.tried, MOST_WAITING), now) {
            return false;
        }
        self.tried = now;
        self.go_on_with_all(poll, framing, now);
        true
    }

    /// Goes on with everybody.
    fn go_on_with_all<F: Framing>(&mut self, poll: &Poll, framing: &F, now: Instant)
        ensures each { EachGoesOn HasGoneOn self.old.seats.items self.new.seats.items }
        ensures tried { self.new.tried ≡ self.old.tried }
    {
        for (place, seat) in self.seats.iter_mut().enumerate() {
            go_on_in(
                poll,
                framing,
                place,
                seat,
                &mut self.piece,
                now,
                &mut self.waited,
            );
        }
    }

    /// Gives up those whose time is up.
    fn give_up_late(&mut self, now: Instant)
        ensures { EachGoesOn (IsTimed (instant_nanos now)) self.old.seats.items self.new.seats.items }
    {
        for seat in self.seats.iter_mut() {
            give_up_late_in(seat, now, &mut self.waited);
        }
    }

    /// Lets those go that are gone, and forgets the last seats that are free.
    fn let_go(&mut self)
        ensures { SameSeats (map without_gone self.old.seats.items) self.new.seats.items }
    {
        self.free_gone();
        self.forget_free();
    }

    /// Lets those go that are gone.
    fn free_gone(&mut self)
        ensures { self.new.seats.items ≡ map without_gone self.old.seats.items }
    {
        for seat in self.seats.iter_mut() {
            free_from_gone(seat);
        }
    }

    /// Forgets the last seats that are free.
    fn forget_free(&mut self)
        ensures { SameSeats self.old.seats.items self.new.seats.items }
    {
        for _ in 0..self.seats.len() {
            match self.seats.last() {
                Some(None) => drop(self.seats.pop()),
                _ => return,
            }
        }
    }

    /// Makes way for a connection where all seats are taken: one that has its answer and sends nothing
    /// more goes, the first to be given up; or else the one that has sent nothing for the longest, if
    /// that is two seconds at least, is given up.
    pub fn make_way(&mut self, now: Instant)
        ensures { MakesWay ⟦<Instant as Ord>⟧.cmp (instant_nanos now) self.old.waited self.old.seats.items self.new.seats.items }
    {
        if !self.free_leaving() {
            self.give_up_silent(now);
        }
    }

    /// Lets one go that has its answer and sends nothing more, the first to be given up. It says whether
    /// there was one.
    fn free_leaving(&mut self) -> bool
        ensures free { FreesLeaver ⟦<Instant as Ord>⟧.cmp self.old.seats.items self.new.seats.items result }
        ensures waited { self.new.waited ≡ self.old.waited }
    {
        match self.leaving() {
            Some(place) => self.free_quiet(place),
            None => false,
        }
    }

    /// Lets the one in a seat go that has its answer, if it sends nothing more. It says whether it does.
    fn free_quiet(&mut self, place: usize) -> bool
        ensures free { (guest : Guest) → HasSeat self.old.seats.items place guest
            → (after : Option Guest) × LeavesIf result guest after × (self.new.seats.items ≡ slice_set self.old.seats.items place after) }
        ensures waited { self.new.waited ≡ self.old.waited }
    {
        match self.seats.get_mut(place) {
            Some(seat) => free_from_quiet(seat, &mut self.piece),
            None => false,
        }
    }

    /// Gives up the one that has sent nothing for the longest, if that is long enough.
    fn give_up_silent(&mut self, now: Instant)
        ensures { GivesUpSilent ⟦<Instant as Ord>⟧.cmp (instant_nanos now) self.old.waited self.old.seats.items self.new.seats.items }
    {
        if let Some(place) = self.silent(now) {
            self.give_up_seat(place);
        }
    }

    /// Gives up the one in a seat.
    fn give_up_seat(&mut self, place: usize)
        ensures { (guest : Guest) → HasSeat self.old.seats.items place guest → self.new.seats.items ≡ slice_set self.old.seats.items place (Some (given_up_at self.old.waited guest)) }
    {
        if let Some(seat) = self.seats.get_mut(place) {
            give_up_in(seat, &mut self.waited);
        }
    }

    /// The seat of the first to be given up of those that have their answers.
    fn leaving(&self) -> Option<usize>
        ensures { IsFirstSeat ⟦<Instant as Ord>⟧.cmp leaves_at self.now.seats.items result }
    {
        first_seat(self.seats.as_slice(), &Leavers)
    }

    /// The seat of the one that sends its request and has sent nothing for the longest, and for long
    /// enough.
    fn silent(&self, now: Instant) -> Option<usize>
        ensures { IsFirstSeat ⟦<Instant as Ord>⟧.cmp (silent_since (instant_nanos now)) self.now.seats.items result }
    {
        first_seat(self.seats.as_slice(), &Silent { now })
    }

    /// Gives those who are there so much more time: nobody could go on meanwhile.
    pub fn put_off(&mut self, by: Duration)
        ensures { EachGoesOn (IsPutOff (as_nanos by)) self.old.seats.items self.new.seats.items }
    {
        for seat in self.seats.iter_mut() {
            put_off_in(seat, by);
        }
    }

    /// Hands one that had its turn its answer, with so much time to take it, and its seat. Where too many
    /// bytes are kept then, the first to be given up go without the rest of their answers.
    pub fn hand(
        &mut self,
        poll: &Poll,
        place: usize,
        mut guest: Guest,
        answer: Vec<u8>,
        number: u64,
        deadline: Deadline,
    )
        ensures { IsHanded ⟦<Instant as Ord>⟧.cmp self.old.seats.items self.new.seats.items place (answered answer number deadline guest) }
    {
        guest.answer(answer, number, deadline);
        begin_to_send(poll, place, &mut guest);
        self.put(place, guest);
        self.make_room();
    }

    /// How many bytes of answers are kept.
    fn kept(&self) -> usize
        ensures { result ≡ min (kept_in self.now.seats.items) (2 ^ 64 - 1) }
    {
        let mut all = 0usize;
        for seat in &self.seats {
            all = all.saturating_add(kept_by(seat));
        }
        all
    }

    /// The seat of the first to be given up of those that take their answers.
    fn taking(&self) -> Option<usize>
        ensures { IsFirstSeat ⟦<Instant as Ord>⟧.cmp takes_until self.now.seats.items result }
    {
        first_seat(self.seats.as_slice(), &Takers)
    }

    /// Gives up the first to be given up, while too many bytes are kept.
    fn make_room(&mut self)
        ensures { MakesRoom ⟦<Instant as Ord>⟧.cmp self.old.seats.items self.new.seats.items }
    {
        while self.kept() > MOST_KEPT {
            match self.taking() {
                Some(place) => self.give_up_seat(place),
                None => return,
            }
        }
    }

    /// The turn that has ended, of which was not told before, and that has the least number.
    pub fn next_ended(&mut self) -> Option<Ended>
        ensures some { IfSome result (λ ended. IsNextEnded self.old.seats.items self.new.seats.items ended) }
        ensures none { IfNone result (IsFirstSeat nat_cmp ended_of self.old.seats.items None × (self.new.seats ≡ self.old.seats)) }
    {
        let place = first_seat(self.seats.as_slice(), &EndedTurns)?;
        let guest = self.seats.get_mut(place)?.as_mut()?;
        let ended = Ended {
            number: guest.number(),
            is_taken: has_taken(guest.stage()),
        };
        guest.be_told();
        Some(ended)
    }

    /// Sees off those of whom was told that they have their answers.
    pub fn see_off(&mut self, poll: &Poll, now: Instant)
        ensures { EachGoesOn (IsSeenOff (instant_nanos now)) self.old.seats.items self.new.seats.items }
    {
        for (place, seat) in self.seats.iter_mut().enumerate() {
            see_off_in(poll, place, seat, &mut self.piece, now);
        }
    }

    /// Gives up those that take their answers.
    pub fn give_up_takers(&mut self)
        ensures { self.new.seats.items ≡ map takers_given_up self.old.seats.items }
    {
        for seat in self.seats.iter_mut() {
            give_up_taker(seat);
        }
    }

    /// Lets those go whose requests have had no turn.
    pub fn dismiss(&mut self)
        ensures { self.new.seats.items ≡ map dismissed self.old.seats.items }
    {
        for seat in self.seats.iter_mut() {
            dismiss_from(seat);
        }
    }
}

/// Goes on with the one in a seat, if there is one.
fn go_on_in<F: Framing>(
    poll: &Poll,
    framing: &F,
    place: usize,
    seat: &mut Option<Guest>,
    piece: &mut [u8],
    now: Instant,
    waited: &mut u64,
)
    ensures { GoesOnSo HasGoneOn seat.old seat.new }
{
    if let Some(guest) = seat {
        go_on(poll, framing, place, guest, piece, now, waited);
    }
}

/// Gives one up whose time is up.
fn give_up_if_late(guest: &mut Guest, now: Instant, waited: &mut u64)
    ensures { IsTimed (instant_nanos now) guest.old guest.new }
{
    if guest.is_late(now) {
        give_up(guest, waited);
    }
}

/// Gives up the one in a seat, if its time is up.
fn give_up_late_in(seat: &mut Option<Guest>, now: Instant, waited: &mut u64)
    ensures { GoesOnSo (IsTimed (instant_nanos now)) seat.old seat.new }
{
    if let Some(guest) = seat {
        give_up_if_late(guest, now, waited);
    }
}

/// Gives the one in a seat so much more time.
fn put_off_in(seat: &mut Option<Guest>, by: Duration)
    ensures { GoesOnSo (IsPutOff (as_nanos by)) seat.old seat.new }
{
    if let Some(guest) = seat {
        guest.put_off(by);
    }
}

/// Sees one off of whom was told that it has its answer.
fn see_off(poll: &Poll, place: usize, guest: &mut Guest, piece: &mut [u8], now: Instant)
    ensures { IsSeenOff (instant_nanos now) guest.old guest.new }
{
    match guest.stage() {
        Stage::Told => {
            guest.leave(now);
            if guest.take_rest(piece) {
                watch_again(poll, place, guest.stream().as_raw_fd());
            }
        }
        _ => {}
    }
}

/// Sees off the one in a seat, if it was told of it that it has its answer.
fn see_off_in(poll: &Poll, place: usize, seat: &mut Option<Guest>, piece: &mut [u8], now: Instant)
    ensures { GoesOnSo (IsSeenOff (instant_nanos now)) seat.old seat.new }
{
    if let Some(guest) = seat {
        see_off(poll, place, guest, piece, now);
    }
}

/// Gives up the one in a seat, if it takes its answer.
fn give_up_taker(seat: &mut Option<Guest>)
    ensures { seat.new ≡ takers_given_up seat.old }
{
    if let Some(guest) = seat
        && guest.stage() == Stage::Takes
    {
        guest.give_up();
    }
}

/// Lets the one in a seat go, if it is gone.
fn free_from_gone(seat: &mut Option<Guest>)
    ensures { seat.new ≡ without_gone seat.old }
{
    if let Some(guest) = seat
        && guest.stage() == Stage::Gone
    {
        *seat = None;
    }
}

/// Lets the one in a seat go, if its request has had no turn.
fn dismiss_from(seat: &mut Option<Guest>)
    ensures { seat.new ≡ dismissed seat.old }
{
    if let Some(guest) = seat
        && matches!(guest.stage(), Stage::Sends | Stage::Waits)
    {
        *seat = None;
    }
}

/// Whether one has taken its answer whole.
fn has_taken(stage: Stage) -> bool
    ensures { result ≡ has_taken stage }
{
    match stage {
        Stage::Taken => true,
        _ => false,
    }
}

/// Has a connection reported by the place of its seat, and never waits for it.
///
/// # Errors
/// What the system answers, where that can not be.
fn is_watched(poll: &Poll, place: usize, stream: &TcpStream) -> io::Result<()> {
    stream.set_nonblocking(true)?;
    watch(poll, Token(place), stream.as_raw_fd())
}

/// Sends what can be sent of an answer without waiting. Where its socket would wait, one is given up.
fn begin_to_send(poll: &Poll, place: usize, guest: &mut Guest)
    ensures rest { guest.old.stage ≡ stage.Takes → guest.new ≡ record guest.old { stage = guest.new.stage; sent = guest.new.sent } }
    ensures whole { guest.old.stage ≡ stage.Takes → guest.new.stage ≡ stage.Taken → length guest.new.bytes.items ≤ guest.new.sent }
{
    if guest.stream().set_nonblocking(true).is_err() {
        guest.give_up();
    } else if guest.send() {
        watch_again(poll, place, guest.stream().as_raw_fd());
    }
}

/// Gives one up. Where its request had not come, it begins to wait for its turn.
fn give_up(guest: &mut Guest, waited: &mut u64)
    ensures { guest.new ≡ given_up_at waited.old guest.old }
{
    let was = guest.stage();
    guest.give_up();
    number(guest, was, waited);
}

/// How many bytes are kept of the answer of the one in a seat.
fn kept_by(seat: &Option<Guest>) -> usize
    ensures { result ≡ kept_by seat.now }
{
    match seat {
        Some(guest) => guest.kept(),
        None => 0,
    }
}

/// Gives up the one in a seat, if there is one.
fn give_up_in(seat: &mut Option<Guest>, waited: &mut u64)
    ensures { seat.new ≡ option_map (given_up_at waited.old) seat.old }
{
    if let Some(guest) = seat {
        give_up(guest, waited);
    }
}

/// Lets the one in a seat go that has its answer, if nothing more has come of it. It says whether it does.
fn free_from_quiet(seat: &mut Option<Guest>, piece: &mut [u8]) -> bool
    ensures { (guest : Guest) → seat.old ≡ Some guest → LeavesIf result guest seat.new }
{
    match seat {
        Some(guest) => {
            if guest.take_rest(piece) {
                false
            } else {
                *seat = None;
                true
            }
        }
        None => false,
    }
}

/// The sooner of an end and that of the one in a seat.
fn sooner_in(first: Instant, seat: &Option<Guest>, is_crowded: bool) -> Instant
    ensures { IsSooner is_crowded seat.now (instant_nanos first) (instant_nanos result) }
{
    match seat {
        Some(guest) => sooner(first, end_of(guest, is_crowded)),
        None => first,
    }
}

/// When one is given up; where another connection waits for a seat, when it has sent nothing for too long.
fn end_of(guest: &Guest, is_crowded: bool) -> Instant
    ensures { instant_nanos result ≡ ends_at is_crowded guest.now }
{
    if is_crowded && guest.stage() == Stage::Sends {
        sooner(guest.end(), later(guest.heard(), MOST_SILENCE))
    } else {
        guest.end()
    }
}
