//! Exchanges, played by new desks: what each answers is compared with what is recorded.

use crate::connections::{End, Ending, Waiting, connection_of};
use crate::desks::{Played, open};
use crate::telling::{Place, tell};
use crate::ways::Way;
use fab_store::OpenFault;
use fab_wire_base::routes::Routes;
use fab_worlds_players::{Exchange, Fault, Scenario, Tally};
use std::alloc::Global;

/// In how many parts a request comes: a read fails before each of them, and behind the last.
const MOST_FAILURES: usize = 3;

/// What is played: exchanges of a scenario of a file, in one way.
#[derive(Clone, Copy)]
pub struct Part<'t> {
    /// The path of the file.
    pub path: &'t str,
    /// The scenario.
    pub scenario: &'t Scenario<'t>,
    /// The exchanges.
    pub exchanges: &'t [Exchange],
    /// How many exchanges of the scenario are before them.
    pub before: usize,
    /// How they are served.
    pub way: Way,
}

/// Tells whether the connection of an exchange has ended as it has to. Where it has not, it is told.
fn is_right(
    rt: &HostRuntime,
    part: Part<'_>,
    number: usize,
    exchange: &Exchange,
    end: End,
    ending: &Ending,
) -> Result<bool, Fault> {
    let answer = exchange.answer.as_slice();
    let is_right = end.is_met(ending, answer);
    if !is_right {
        let place = Place {
            path: part.path,
            line: exchange.line,
            name: part.scenario.name,
            number,
            way: part.way.words(),
        };
        tell(rt, place, end.written(answer), ending)?;
    }
    Ok(is_right)
}

/// Where the answer breaks off: at another byte in each exchange of a scenario, and nowhere where there
/// is no answer.
fn break_of(answer: &[u8], number: usize) -> End {
    match number.saturating_mul(31).checked_rem(answer.len()) {
        Some(byte) => End::Unsent(byte),
        None => End::Sent,
    }
}

/// What no byte is taken of: an answer, if there is one.
fn untaken(answer: &[u8]) -> End {
    if answer.is_empty() {
        End::Sent
    } else {
        End::Untaken
    }
}

/// How many bytes a read gets at most in this way, and how the exchange has to end.
fn cut_of(way: Way, exchange: &Exchange, number: usize) -> (usize, End) {
    let answer = exchange.answer.as_slice();
    match way {
        Way::Whole | Way::List | Way::EveryPair | Way::OpenedAnew => (usize::MAX, End::Sent),
        Way::ByteByByte | Way::FailingReads => (1, End::Sent),
        Way::BrokenAnswers => (usize::MAX, break_of(answer, number)),
        Way::UntakenAnswers => (usize::MAX, untaken(answer)),
    }
}

/// Serves an exchange, and tells whether it ends as recorded.
fn play_one<T, D: Played<T>>(
    rt: &HostRuntime,
    routes: &Routes,
    desk: &mut D,
    part: Part<'_>,
    number: usize,
    exchange: &Exchange,
) -> Result<bool, Fault> {
    let (reads, end) = cut_of(part.way, exchange, number);
    let connection = connection_of(rt.alloc(), exchange, reads, end);
    let ending = desk.serve(rt.alloc(), routes, connection);
    is_right(rt, part, number, exchange, end, &ending)
}

/// Serves an exchange of which the read of one number fails, if it comes to that. What tells whether it
/// ends as it has to, and whether no read failed: then the request was served.
fn play_failing<T, D: Played<T>>(
    rt: &HostRuntime,
    routes: &Routes,
    desk: &mut D,
    part: Part<'_>,
    number: usize,
    exchange: &Exchange,
    read: usize,
) -> Result<(bool, bool), Fault> {
    let connection = connection_of(rt.alloc(), exchange, 1, End::Unread(read as u64));
    let ending = desk.serve(rt.alloc(), routes, connection);
    let is_served = !ending.has_failed_read();
    let end = if is_served {
        End::Sent
    } else {
        End::Unread(read as u64)
    };
    let is_right = is_right(rt, part, number, exchange, end, &ending)?;
    Ok((is_right, is_served))
}

/// Serves an exchange several times, and another read fails each time, from the first to that of the
/// end; and then as if nothing had been.
fn play_through<T, D: Played<T>>(
    rt: &HostRuntime,
    routes: &Routes,
    desk: &mut D,
    part: Part<'_>,
    number: usize,
    exchange: &Exchange,
) -> Result<bool, Fault> {
    for time in 0..=MOST_FAILURES {
        let read = exchange.request.len().saturating_mul(time) / MOST_FAILURES;
        let (is_right, is_served) = play_failing(rt, routes, desk, part, number, exchange, read)?;
        if is_served || !is_right {
            return Ok(is_right);
        }
    }
    play_one(rt, routes, desk, part, number, exchange)
}

/// Plays exchanges by a desk, one by one.
fn play_each<T, D: Played<T>>(
    rt: &HostRuntime,
    routes: &Routes,
    desk: &mut D,
    part: Part<'_>,
    tally: &mut Tally,
) -> Result<(), Fault> {
    for (index, exchange) in part.exchanges.iter().enumerate() {
        let number = part.before.saturating_add(index).saturating_add(1);
        let is_right = match part.way {
            Way::FailingReads => play_through(rt, routes, desk, part, number, exchange)?,
            _ => play_one(rt, routes, desk, part, number, exchange)?,
        };
        tally.count(is_right);
    }
    Ok(())
}

/// The connections of exchanges, in their order.
fn connections_of(alloc: Global, exchanges: &[Exchange]) -> Result<Vec<Waiting<'_>>, Fault> {
    let mut connections = Vec::new(alloc);
    for exchange in exchanges {
        connections.push(connection_of(alloc, exchange, usize::MAX, End::Sent))?;
    }
    Ok(connections)
}

/// Plays exchanges by a desk, as one list.
fn play_list<T, D: Played<T>>(
    rt: &HostRuntime,
    routes: &Routes,
    desk: &mut D,
    part: Part<'_>,
    tally: &mut Tally,
) -> Result<(), Fault> {
    let exchanges = part.exchanges;
    let connections = connections_of(rt.alloc(), exchanges)?;
    let all = desk.serve_all(rt.alloc(), routes, connections)?;
    for (index, (served, exchange)) in all.into_iter().zip(exchanges).enumerate() {
        let number = index.saturating_add(1);
        let ending = Ending::of(served);
        tally.count(is_right(rt, part, number, exchange, End::Sent, &ending)?);
    }
    Ok(())
}

/// Plays a scenario in one way, by a new desk over tables with this policy and such a book of paths.
fn play_by<T: Drop, D: Played<T>>(
    rt: &HostRuntime,
    routes: &Routes,
    policy: &[u8],
    part: Part<'_>,
    tables: T,
    tally: &mut Tally,
) -> Result<(), Fault> {
    let Ok(mut desk) = open::<T, D>(rt.alloc(), part.scenario, policy, tables)? else {
        return Err(Fault::Desk(part.scenario.line));
    };
    match part.way {
        Way::List => play_list(rt, routes, &mut desk, part, tally),
        _ => play_each(rt, routes, &mut desk, part, tally),
    }
}

/// Plays exchanges by a desk, one by one, and closes it: its tables.
fn play_and_close<T, D: Played<T>>(
    rt: &HostRuntime,
    routes: &Routes,
    desk: D,
    part: Part<'_>,
    tally: &mut Tally,
) -> Result<T, Fault> {
    let mut desk = desk;
    play_each(rt, routes, &mut desk, part, tally)?;
    match desk.close() {
        Some(tables) => Ok(tables),
        None => Err(Fault::Desk(part.scenario.line)),
    }
}

/// Plays exchanges by a desk that is opened over tables, with this policy, and closes it: its tables, and
/// why there was no desk, if none was.
///
/// # Errors
/// `Policy`; `Desk` where it has no tables at the end; `Memory` and `Output`.
pub fn visit<T: Drop, D: Played<T>>(
    rt: &HostRuntime,
    routes: &Routes,
    policy: &[u8],
    part: Part<'_>,
    tables: T,
    tally: &mut Tally,
) -> Result<(Option<OpenFault>, T), Fault> {
    match open::<T, D>(rt.alloc(), part.scenario, policy, tables)? {
        Ok(desk) => Ok((None, play_and_close(rt, routes, desk, part, tally)?)),
        Err((fault, tables)) => Ok((Some(fault), tables)),
    }
}

/// The same, where a desk has to be there.
///
/// # Errors
/// As for `visit`, and `Desk` where there is none.
pub fn serve_by<T: Drop, D: Played<T>>(
    rt: &HostRuntime,
    routes: &Routes,
    policy: &[u8],
    part: Part<'_>,
    tables: T,
    tally: &mut Tally,
) -> Result<T, Fault> {
    let (fault, tables) = visit::<T, D>(rt, routes, policy, part, tables, tally)?;
    if fault.is_some() {
        return Err(Fault::Desk(part.scenario.line));
    }
    Ok(tables)
}

/// Plays a scenario's exchanges, each by a desk that is opened anew over the tables.
fn play_anew<T: Drop, D: Played<T>>(
    rt: &HostRuntime,
    routes: &Routes,
    policy: &[u8],
    part: Part<'_>,
    tables: T,
    tally: &mut Tally,
) -> Result<(), Fault> {
    let mut tables = tables;
    for (before, exchanges) in part.exchanges.chunks(1).enumerate() {
        let one = Part {
            exchanges,
            before,
            ..part
        };
        tables = serve_by::<T, D>(rt, routes, policy, one, tables, tally)?;
    }
    Ok(())
}

/// Plays a scenario in one way, by a new desk over tables with this policy: by a plain one where its book
/// is to ask about every pair of ports, and else by a usual one.
///
/// # Errors
/// `Policy` and `Desk` where there is no desk, `Memory` and `Output`.
pub fn play_scenario<T: Drop, Usual: Played<T>, Plain: Played<T>>(
    rt: &HostRuntime,
    routes: &Routes,
    policy: &[u8],
    part: Part<'_>,
    tables: T,
    tally: &mut Tally,
) -> Result<(), Fault> {
    match part.way {
        Way::EveryPair => play_by::<T, Plain>(rt, routes, policy, part, tables, tally),
        Way::OpenedAnew => play_anew::<T, Usual>(rt, routes, policy, part, tables, tally),
        _ => play_by::<T, Usual>(rt, routes, policy, part, tables, tally),
    }
}
