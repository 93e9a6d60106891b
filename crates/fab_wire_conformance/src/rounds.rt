//! The scenarios of a file, each played in each way.

use crate::desks::{Played, Tables, new_tables};
use crate::playing::{Part, play_scenario};
use crate::stories::play_story;
use crate::ways::{WAYS, Way};
use fab_reach::IndexBook;
use fab_reach_pairs::PlainBook;
use fab_wire::Desk;
use fab_wire_base::routes::Routes;
use fab_worlds_players::{Fault, Scenario, Tally};
use sqlite::{Alter, Connection};
use std::alloc::Global;

/// How many bytes a request of a scenario has at most that is played over the plain book.
const MOST_BYTES: usize = 8192;

/// Whether no request of a scenario is longer than this: then few ports are known in it.
fn is_small(scenario: &Scenario<'_>) -> bool {
    scenario
        .exchanges
        .iter()
        .all(|exchange| exchange.request.len() <= MOST_BYTES)
}

/// Whether a scenario is played in this way. One that does something with its tables is a story of them, and
/// is played once. The book that asks about every pair of ports, and desks that are opened anew, are left out
/// where many ports may be known; these also where the store refuses a call, which may be one that opens a
/// desk.
fn is_played(scenario: &Scenario<'_>, way: Way) -> bool {
    match way {
        Way::Whole => true,
        Way::EveryPair => scenario.steps.is_empty() && is_small(scenario),
        Way::OpenedAnew => {
            scenario.steps.is_empty() && scenario.calls.is_none() && is_small(scenario)
        }
        _ => scenario.steps.is_empty(),
    }
}

/// A desk as the program has it.
type Usual<T> = Desk<Global, T, IndexBook<Global>>;

/// A desk whose book asks about every pair of ports.
type Plain<T> = Desk<Global, T, PlainBook<Global>>;

/// Plays a part by tables, with this policy, and desks of these types.
fn play_by_desks<T: Tables, D: Played<T>, P: Played<T>>(
    rt: &HostRuntime,
    routes: &Routes,
    policy: &[u8],
    part: Part<'_>,
    tables: T,
    tally: &mut Tally,
) -> Result<(), Fault> {
    if part.scenario.steps.is_empty() {
        play_scenario::<T, D, P>(rt, routes, policy, part, tables, tally)
    } else {
        play_story::<T, D>(rt, routes, policy, part, tables, tally)
    }
}

/// The same by the desks that there are. Their types are long, so all is done through one call of them.
fn play_by_tables<T: Tables>(
    rt: &HostRuntime,
    routes: &Routes,
    policy: &[u8],
    part: Part<'_>,
    tables: T,
    tally: &mut Tally,
) -> Result<(), Fault> {
    play_by_desks::<T, Usual<T>, Plain<T>>(rt, routes, policy, part, tables, tally)
}

/// The same by the tables of a new desk over a connection.
fn play_over<S: Alter + Drop>(
    rt: &HostRuntime,
    routes: &Routes,
    policy: &[u8],
    part: Part<'_>,
    connection: Connection<S>,
    tally: &mut Tally,
) -> Result<(), Fault> {
    let calls = part.scenario.calls.unwrap_or(u64::MAX);
    match new_tables(rt.alloc(), connection, calls) {
        Some(tables) => play_by_tables(rt, routes, policy, part, tables, tally),
        None => Err(Fault::Desk(part.scenario.line)),
    }
}

/// The same in memory. The type of its tables is long, so all is done through one call of it.
fn play_part(
    rt: &HostRuntime,
    routes: &Routes,
    policy: &[u8],
    part: Part<'_>,
    tally: &mut Tally,
) -> Result<(), Fault> {
    match Connection::open_in_memory(rt.alloc()) {
        Ok(connection) => play_over(rt, routes, policy, part, connection, tally),
        Err(_) => Err(Fault::Desk(part.scenario.line)),
    }
}

/// Plays scenarios in one way, each by a new desk.
fn play_all(
    rt: &HostRuntime,
    routes: &Routes,
    path: &str,
    scenarios: &[Scenario<'_>],
    way: Way,
    tally: &mut Tally,
) -> Result<(), Fault> {
    let mut policy: &[u8] = &[];
    for scenario in scenarios {
        if !scenario.policy.is_empty() {
            policy = scenario.policy.as_slice();
        }
        let part = Part {
            path,
            scenario,
            exchanges: scenario.exchanges.as_slice(),
            before: 0,
            way,
        };
        if is_played(scenario, way) {
            play_part(rt, routes, policy, part, tally)?;
        }
    }
    Ok(())
}

/// Plays the scenarios of the file of this name, in each way. Each answer that differs is told.
///
/// # Errors
/// `Policy` and `Desk` where a scenario gets no desk, `Memory` and `Output`.
pub fn play_in_each_way(
    rt: &HostRuntime,
    routes: &Routes,
    path: &str,
    scenarios: &[Scenario<'_>],
) -> Result<Tally, Fault> {
    let mut tally = Tally::new();
    for &way in WAYS {
        play_all(rt, routes, path, scenarios, way, &mut tally)?;
    }
    Ok(tally)
}
