//! Lists that are printed.
ghost use Rattle.std.specs.Prelude.{◌≡◌, IfOk, filter};
ghost use Rattle.fab_desk_base.specs.declared.reply.Shown.{Shown};
ghost use Rattle.fab_program_looks.specs.Lists.{AreBoth, AreListed, TellsList, chosen, is_in, list_output, number_asked, number_of, table_of};
ghost use Rattle.fab_program_outside.specs.Printing.{Prints};
ghost use Rattle.fab_world.specs.Soundness.{IsSound};

use fab_desk_base::Shown;
use fab_files_base::End;
use fab_files_looks::{RowsJson, RowsText, Table};
use fab_looks::{Kind, list_rows, port_rows};
use fab_names::Fabric;
use fab_policy::{CallerId, Policy};
use fab_program_outside::{Fault, print_as};
use fab_program_words::{ListKind, ListState};
use fab_store_rows::PlanState;
use fab_world::World;
use std::alloc::{AllocError, Global};
use std::io::Write;

/// What the reads of two kinds show, the one behind the other.
fn both_rows(
    alloc: Global,
    world: &World<Global>,
    policy: &Policy,
    id: CallerId,
    first: Kind,
    second: Kind,
) -> Result<Vec<Shown<Global>>, AllocError>
    requires sound { IsSound world.now }
    ensures { IfOk result (λ rows. AreBoth policy.now world.now id first second rows.items) }
{
    let mut rows = list_rows(alloc, policy, world, id, first)?;
    let mut more = list_rows(alloc, policy, world, id, second)?;
    rows.append(&mut more)?;
    Ok(rows)
}

/// What the reads of a kind show, of both fabrics where it is of a fabric.
fn rows_at(
    alloc: Global,
    world: &World<Global>,
    policy: &Policy,
    id: CallerId,
    kind: ListKind,
) -> Result<Vec<Shown<Global>>, AllocError>
    requires sound { IsSound world.now }
    ensures { IfOk result (λ rows. AreListed policy.now world.now id kind rows.items) }
{
    let (a, b) = (Fabric::A, Fabric::B);
    match kind {
        ListKind::Hosts => list_rows(alloc, policy, world, id, Kind::Hosts),
        ListKind::Arrays => list_rows(alloc, policy, world, id, Kind::Arrays),
        ListKind::Volumes => list_rows(alloc, policy, world, id, Kind::Volumes),
        ListKind::Ports => port_rows(alloc, world),
        ListKind::Aliases => {
            both_rows(alloc, world, policy, id, Kind::Aliases(a), Kind::Aliases(b))
        }
        ListKind::Zones => both_rows(alloc, world, policy, id, Kind::Zones(a), Kind::Zones(b)),
        ListKind::Sets => both_rows(alloc, world, policy, id, Kind::Sets(a), Kind::Sets(b)),
        ListKind::HostGroups => list_rows(alloc, policy, world, id, Kind::HostGroups),
        ListKind::Groups => list_rows(alloc, policy, world, id, Kind::Groups),
        ListKind::Plans => list_rows(alloc, policy, world, id, Kind::Plans),
    }
}

/// The columns of a kind.
fn table_of(kind: ListKind) -> Table
    ensures { result ≡ table_of kind }
{
    match kind {
        ListKind::Hosts | ListKind::Arrays => Table::Holders,
        ListKind::Volumes => Table::Volumes,
        ListKind::Ports => Table::Ports,
        ListKind::Aliases | ListKind::Zones => Table::Members,
        ListKind::Sets => Table::Sets,
        ListKind::HostGroups => Table::HostGroups,
        ListKind::Groups => Table::Groups,
        ListKind::Plans => Table::Plans,
    }
}

/// The place of a state among those that are asked for.
fn number_asked(state: ListState) -> usize
    ensures { result ≡ number_asked state }
{
    match state {
        ListState::Staged => 0,
        ListState::Active => 1,
        ListState::RolledBack => 2,
        ListState::Withdrawn => 3,
    }
}

/// The place of a plan's state among those.
fn number_of(state: PlanState) -> usize
    ensures { result ≡ number_of state }
{
    match state {
        PlanState::Staged => 0,
        PlanState::Active => 1,
        PlanState::RolledBack => 2,
        PlanState::Withdrawn => 3,
    }
}

/// Whether a row is of a plan in the state.
fn is_in(state: ListState, row: &Shown<Global>) -> bool
    ensures { result ≡ is_in state row.now }
{
    match row {
        Shown::Plan(plan) => number_asked(state) == number_of(plan.state),
        _ => false,
    }
}

/// Those of the rows that are of plans in the state.
fn only(state: ListState, rows: Vec<Shown<Global>>) -> Vec<Shown<Global>>
    ensures { result.items ≡ filter (is_in state) rows.items }
{
    let mut rows = rows;
    rows.retain(|row| is_in(state, row));
    rows
}

/// Those of the rows that are of plans in the state, if one is asked for.
fn chosen(state: Option<ListState>, rows: Vec<Shown<Global>>) -> Vec<Shown<Global>>
    ensures { result.items ≡ chosen state rows.items }
{
    match state {
        Some(state) => only(state, rows),
        None => rows,
    }
}

/// Prints rows at a revision.
fn print_rows<W: Write + Drop>(
    alloc: Global,
    writer: W,
    kind: ListKind,
    revision: u64,
    rows: &[Shown<Global>],
    is_json: bool,
) -> Result<(W, End), Fault>
    ensures { Prints W.contents writer (list_output is_json kind revision rows.now) End.Done result }
{
    if is_json {
        print_as(alloc, writer, &RowsJson(rows), End::Done)
    } else {
        let table = table_of(kind);
        let text = RowsText {
            table,
            revision,
            rows,
        };
        print_as(alloc, writer, &text, End::Done)
    }
}

/// Lists what there is of a kind, as far as the caller may see it, or only the plans in a state.
///
/// # Errors
/// `Memory`; `Stream` where the writer failed.
pub fn list_at<W: Write + Drop>(
    alloc: Global,
    world: &World<Global>,
    policy: &Policy,
    id: CallerId,
    kind: ListKind,
    state: Option<ListState>,
    is_json: bool,
    writer: W,
) -> Result<(W, End), Fault>
    requires sound { IsSound world.now }
    ensures { TellsList W.contents world.now policy.now id kind state is_json writer result }
{
    let Ok(rows) = rows_at(alloc, world, policy, id, kind) else {
        return Err(Fault::Memory);
    };
    let rows = chosen(state, rows);
    print_rows(alloc, writer, kind, world.revision, &rows, is_json)
}
