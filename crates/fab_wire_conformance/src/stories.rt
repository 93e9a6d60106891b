//! Stories of tables: what comes of each step is compared with what is recorded.

use crate::desks::{Came, Played, Tables, migrate};
use crate::playing::{Part, serve_by, visit};
use crate::telling::tell_step;
use fab_store::OpenFault;
use fab_wire_base::routes::Routes;
use fab_worlds_players::{Act, Fault, Step, Tally};
use std::alloc::Global;
use std::fmt::Write;
use std::str;

/// Adds the words of a fault.
fn push_fault(text: &mut String, fault: OpenFault) -> Result<(), Fault> {
    let written = match fault {
        OpenFault::Damaged(table) => write!(text, "damaged {}", table.name()),
        OpenFault::NewerSchema(schema) => write!(text, "newer-schema {schema}"),
        OpenFault::OldSchema(schema) => write!(text, "old-schema {schema}"),
        OpenFault::Store => write!(text, "store"),
        OpenFault::Memory => write!(text, "memory"),
    };
    written.map_err(|_| Fault::Memory)
}

/// Adds how many refusals were counted, where they are not those of the call.
fn push_count(text: &mut String, came: Came, counted: u64) -> Result<(), Fault> {
    let is_refused = matches!(came, Err(OpenFault::Store));
    if counted == u64::from(is_refused) {
        return Ok(());
    }
    write!(text, ", and {counted} counted").map_err(|_| Fault::Memory)
}

/// What comes of a call as a text, where so many refusals were counted.
fn told(alloc: Global, came: Came, counted: u64) -> Result<String, Fault> {
    let mut text = String::new(alloc);
    match came {
        Ok(word) => text.push_str(word)?,
        Err(fault) => push_fault(&mut text, fault)?,
    }
    push_count(&mut text, came, counted)?;
    text.push('\n')?;
    Ok(text)
}

/// The statements or the query of a step.
fn asked(step: &Step) -> Result<&str, Fault> {
    str::from_utf8(step.asked.as_slice()).map_err(|_| Fault::Text(step.line))
}

/// What comes of making the tables of a new desk, and the tables.
fn made<T: Tables>(alloc: Global, tables: T) -> Result<(String, T), Fault> {
    let before = tables.refusals();
    let (came, tables) = tables.made();
    let counted = tables.refusals().saturating_sub(before);
    Ok((told(alloc, came, counted)?, tables))
}

/// What comes of bringing the tables to the present schema, and the tables.
fn migrated<T: Tables>(alloc: Global, tables: T) -> Result<(String, T), Fault> {
    let mut tables = tables;
    let before = tables.refusals();
    let came = migrate(&mut tables);
    let counted = tables.refusals().saturating_sub(before);
    Ok((told(alloc, came, counted)?, tables))
}

/// What comes of opening a desk over the tables, which plays the exchanges of a part; and the tables.
fn opened<T: Tables, D: Played<T>>(
    rt: &HostRuntime,
    routes: &Routes,
    policy: &[u8],
    part: Part<'_>,
    tables: T,
    tally: &mut Tally,
) -> Result<(String, T), Fault> {
    let before = tables.refusals();
    let (fault, tables) = visit::<T, D>(rt, routes, policy, part, tables, tally)?;
    let Some(fault) = fault else {
        return Ok((told(rt.alloc(), Ok("serves"), 0)?, tables));
    };
    let counted = tables.refusals().saturating_sub(before);
    Ok((told(rt.alloc(), Err(fault), counted)?, tables))
}

/// The tables behind statements of somebody else, of which nothing comes.
fn changed_by<T: Tables>(alloc: Global, tables: T, step: &Step) -> Result<(String, T), Fault> {
    let tables = tables.changed(alloc, asked(step)?);
    Ok((String::new(alloc), tables.ok_or(Fault::Undone(step.line))?))
}

/// The rows that a query shows, and the tables.
fn shown_by<T: Tables>(alloc: Global, tables: T, step: &Step) -> Result<(String, T), Fault> {
    let mut rows = String::new(alloc);
    let tables = tables.shown(alloc, asked(step)?, &mut rows);
    Ok((rows, tables.ok_or(Fault::Undone(step.line))?))
}

/// What comes of a step, and the tables behind it. The exchanges of the part are asked the desk that it
/// opens.
fn come<T: Tables, D: Played<T>>(
    rt: &HostRuntime,
    routes: &Routes,
    policy: &[u8],
    part: Part<'_>,
    step: &Step,
    tables: T,
    tally: &mut Tally,
) -> Result<(String, T), Fault> {
    match step.act {
        Act::Change => changed_by(rt.alloc(), tables, step),
        Act::Show => shown_by(rt.alloc(), tables, step),
        Act::Open => opened::<T, D>(rt, routes, policy, part, tables, tally),
        Act::Make => made(rt.alloc(), tables),
        Act::Migrate => migrated(rt.alloc(), tables),
    }
}

/// Counts a step, unless it is one of somebody else. Where something else came of it, it is told.
fn judge(
    rt: &HostRuntime,
    part: Part<'_>,
    step: &Step,
    came: &[u8],
    tally: &mut Tally,
) -> Result<(), Fault> {
    if matches!(step.act, Act::Change) {
        return Ok(());
    }
    let is_right = came == step.wanted.as_slice();
    if !is_right {
        tell_step(rt, part.path, part.scenario.name, step, came)?;
    }
    tally.count(is_right);
    Ok(())
}

/// The exchanges of a part behind so many of its scenario, and before the next step.
fn part_behind<'t>(part: Part<'t>, before: usize, next: Option<&Step>) -> Part<'t> {
    let exchanges = part.scenario.exchanges.as_slice();
    let end = next.map_or(exchanges.len(), |step| step.before);
    Part {
        exchanges: exchanges.get(before..end).unwrap_or(&[]),
        before,
        ..part
    }
}

/// Plays a story by tables: a desk is asked the exchanges before the first step, and then what is done
/// with them step by step.
///
/// # Errors
/// `Policy`, `Desk`, `Memory` and `Output`; `Undone` where SQL of a step is not executed.
pub fn play_story<T: Tables, D: Played<T>>(
    rt: &HostRuntime,
    routes: &Routes,
    policy: &[u8],
    part: Part<'_>,
    tables: T,
    tally: &mut Tally,
) -> Result<(), Fault> {
    let steps = part.scenario.steps.as_slice();
    let first = part_behind(part, 0, steps.first());
    let mut tables = serve_by::<T, D>(rt, routes, policy, first, tables, tally)?;
    for (index, step) in steps.iter().enumerate() {
        let behind = part_behind(part, step.before, steps.get(index.saturating_add(1)));
        let (came, left) = come::<T, D>(rt, routes, policy, behind, step, tables, tally)?;
        tables = left;
        judge(rt, part, step, came.as_bytes(), tally)?;
    }
    Ok(())
}
