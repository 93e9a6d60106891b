//! Seats, and which of those who have one comes first.
ghost use Rattle.std.specs.Prelude.{◌≡◌, ◌*◌, nat_le};
ghost use Rattle.std.specs.Option.{option_and_then};
ghost use Rattle.std.specs.Time.{instant_nanos};
ghost use Rattle.fab_wire_deadlines.specs.Deadlines.{end_after};
ghost use Rattle.fab_wire_gathering.specs.Inner.Seating.{earlier};
ghost use Rattle.fab_wire_gathering.specs.Seats.{IsFirstSeat};

use crate::guest::{Guest, Stage};
use fab_wire_deadlines::deadline::Deadline;
use std::cmp::Ordering;
use std::time::{Duration, Instant};

/// How long a connection has to have sent nothing before it is given up for another, in seconds.
pub(crate) const MOST_SILENCE: u64 = 2;

/// A time so many seconds later, or the time itself at the end of the clock.
pub(crate) fn later(time: Instant, seconds: u64) -> Instant
    ensures { instant_nanos result ≡ end_after (instant_nanos time) (seconds * 1_000_000_000) }
{
    Deadline::after(time, Duration::from_secs(seconds)).end()
}

/// Whether a time is there, at a reading of the clock.
pub(crate) fn has_come(time: Instant, now: Instant) -> bool
    ensures { result ≡ nat_le (instant_nanos time) (instant_nanos now) }
{
    now.checked_duration_since(time).is_some()
}

/// What some of those who are there have, and by which they come one after the other.
pub(crate) trait Measure<K> {
    ghost use Rattle.std.specs.Prelude.{Option};
    ghost use Rattle.fab_wire_gathering.specs.declared.guest.Guest.{Guest};

    ghost has: { Self → Guest → Option K };

    /// What the guest has of it, if it has something.
    fn of(&self, guest: &Guest) -> Option<K>
        ensures { result ≡ has self.now guest.now };
}

/// The number of one whose turn is to come.
#[derive(Drop)]
pub(crate) struct Turns;

impl Measure<u64> for Turns {
    ghost use Rattle.fab_wire_gathering.specs.Seats.{turn_of};

    ghost has = { λ turns. turn_of };

    fn of(&self, guest: &Guest) -> Option<u64> {
        match guest.stage() {
            Stage::Waits => Some(guest.number()),
            _ => None,
        }
    }
}

/// The number of one whose turn has ended, of which was not told.
#[derive(Drop)]
pub(crate) struct EndedTurns;

impl Measure<u64> for EndedTurns {
    ghost use Rattle.fab_wire_gathering.specs.Seats.{ended_of};

    ghost has = { λ turns. ended_of };

    fn of(&self, guest: &Guest) -> Option<u64> {
        match guest.stage() {
            Stage::Taken | Stage::Unsent => Some(guest.number()),
            _ => None,
        }
    }
}

/// When one is let go that has its answer.
#[derive(Drop)]
pub(crate) struct Leavers;

impl Measure<Instant> for Leavers {
    ghost use Rattle.fab_wire_gathering.specs.Seats.{leaves_at};

    ghost has = { λ leavers. leaves_at };

    fn of(&self, guest: &Guest) -> Option<Instant> {
        match guest.stage() {
            Stage::Leaves(_) => Some(guest.end()),
            _ => None,
        }
    }
}

/// When one is given up that takes its answer.
#[derive(Drop)]
pub(crate) struct Takers;

impl Measure<Instant> for Takers {
    ghost use Rattle.fab_wire_gathering.specs.Seats.{takes_until};

    ghost has = { λ takers. takes_until };

    fn of(&self, guest: &Guest) -> Option<Instant> {
        match guest.stage() {
            Stage::Takes => Some(guest.end()),
            _ => None,
        }
    }
}

/// When one was heard that sends its request and has sent nothing for too long, at a reading of the
/// clock.
#[derive(Drop)]
pub(crate) struct Silent {
    pub now: Instant,
}

impl Measure<Instant> for Silent {
    ghost use Rattle.std.specs.Time.{instant_nanos};
    ghost use Rattle.fab_wire_gathering.specs.Seats.{silent_since};

    ghost has = { λ silent. silent_since (instant_nanos silent.now) };

    fn of(&self, guest: &Guest) -> Option<Instant> {
        match guest.stage() {
            Stage::Sends => {
                if has_come(later(guest.heard(), MOST_SILENCE), self.now) {
                    Some(guest.heard())
                } else {
                    None
                }
            }
            _ => None,
        }
    }
}

/// What the one in a seat has.
fn of_seat<K: Drop, M: Measure<K>>(measure: &M, seat: &Option<Guest>) -> Option<K>
    ensures { result ≡ option_and_then (M.has measure.now) seat.now }
{
    match seat {
        Some(guest) => measure.of(guest),
        None => None,
    }
}

/// The first of those so far and one more.
fn earlier<K: Ord + Copy + Drop>(
    first: Option<(usize, K)>,
    place: usize,
    has: Option<K>,
) -> Option<(usize, K)>
    ensures { result ≡ earlier K.cmp first place has }
{
    let Some(has) = has else {
        return first;
    };
    let Some(so_far) = first else {
        return Some((place, has));
    };
    match has.cmp(&so_far.1) {
        Ordering::Less => Some((place, has)),
        _ => Some(so_far),
    }
}

/// The seat of the one who comes first by the measure; none where nobody has something of it. It takes
/// no memory.
pub(crate) fn first_seat<K: Ord + Copy + Drop, M: Measure<K>>(
    seats: &[Option<Guest>],
    measure: &M,
) -> Option<usize>
    ensures { IsFirstSeat K.cmp (M.has measure.now) seats.now result }
{
    let mut first = None;
    for (place, seat) in seats.iter().enumerate() {
        first = earlier(first, place, of_seat(measure, seat));
    }
    match first {
        Some((place, _)) => Some(place),
        None => None,
    }
}
