//! How an answer that differs is told: in the form of the files.

use crate::connections::Ending;
use fab_worlds_players::{Fault, Step, lines_of};

/// Where an answer differs: the file and the line at which its exchange begins, the scenario, the
/// request's number in it from 1 on, and the words of the way in which it was played.
#[derive(Clone, Copy)]
pub struct Place<'t> {
    /// The path of the file.
    pub path: &'t str,
    /// The number of the line at which the exchange begins, from 1 on.
    pub line: usize,
    /// The name of the scenario.
    pub name: &'t str,
    /// The number of the request in the scenario, from 1 on.
    pub number: usize,
    /// The words of the way in which it was played.
    pub way: &'t str,
}

/// Tells what was written of an answer that differs, beside what is recorded, and what came of the
/// connection.
///
/// # Errors
/// `Memory`, and `Output` where it cannot be written.
pub fn tell(
    rt: &HostRuntime,
    place: Place<'_>,
    recorded: &[u8],
    ending: &Ending,
) -> Result<(), Fault> {
    let Place {
        path,
        line,
        name,
        number,
        way,
    } = place;
    let recorded = lines_of(rt.alloc(), '<', recorded)?;
    let answered = lines_of(rt.alloc(), '<', ending.written())?;
    let outcome = ending.outcome;
    match println!(rt;
        "{path}, line {line}: {name}, request {number}, {way}: {outcome}\nrecorded:\n{recorded}answered:\n{answered}"
    ) {
        Ok(()) => Ok(()),
        Err(_) => Err(Fault::Output),
    }
}

/// Tells what came of a step with the tables of the scenario of this name, beside what is recorded.
///
/// # Errors
/// `Memory`, and `Output` where it cannot be written.
pub fn tell_step(
    rt: &HostRuntime,
    path: &str,
    name: &str,
    step: &Step,
    came: &[u8],
) -> Result<(), Fault> {
    let mark = step.act.answer_mark();
    let recorded = lines_of(rt.alloc(), mark, step.wanted.as_slice())?;
    let answered = lines_of(rt.alloc(), mark, came)?;
    let line = step.line;
    match println!(rt;
        "{path}, line {line}: {name}, its tables\nrecorded:\n{recorded}answered:\n{answered}"
    ) {
        Ok(()) => Ok(()),
        Err(_) => Err(Fault::Output),
    }
}
