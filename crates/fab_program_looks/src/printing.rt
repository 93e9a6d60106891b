//! Looks whose answers are printed.
ghost use Rattle.std.specs.Prelude.{◌≡◌};
ghost use Rattle.fab_program_looks.specs.Telling.{IsTurnedAway, TellsPort, TellsWay, TellsWho, end_of_port, end_of_why, port_output, way_output, who_output};
ghost use Rattle.fab_program_outside.specs.Printing.{Prints};
ghost use Rattle.fab_world.specs.Soundness.{IsSound};

use fab_desk_base::{DeskFault, Reply, Shown};
use fab_files::{Form, print};
use fab_files_base::End;
use fab_files_looks::{FoundText, ReachersJson, ReachersText, RowsJson, WayJson, WayText};
use fab_looks::{Why, port_way, told, way_rows};
use fab_looks_ways::{Pair, Reacher, pairs_told, reachers_told};
use fab_names::{Name, Wwn};
use fab_policy::{CallerId, Policy};
use fab_program_outside::{Fault, of_printing, print_as};
use fab_wire_answers::answers::Answer;
use fab_world::World;
use std::alloc::Global;
use std::io::Write;

/// Prints that nobody has the token.
pub fn turn_away<W: Write + Drop>(alloc: Global, writer: W) -> Result<(W, End), Fault>
    ensures { IsTurnedAway W.contents writer result }
{
    let answer = Answer::Replied(Reply::Refused(DeskFault::NoCaller));
    match print(alloc, writer, Form::Json, &answer) {
        Ok(printed) => Ok(printed),
        Err(fault) => Err(of_printing(fault)),
    }
}

/// How a look ends of which this is the answer: it is done where the host reaches the volume.
fn end_of_why(why: &Why<Global>) -> End
    ensures { result ≡ end_of_why why.now }
{
    match why {
        Why::Reaches(_) => End::Done,
        Why::Missing(_) => End::Refused,
    }
}

/// Prints why a host reaches a volume or does not.
fn print_way<W: Write + Drop>(
    alloc: Global,
    writer: W,
    host: Name,
    volume: Name,
    why: &Why<Global>,
    found: &[Shown<Global>],
    pairs: &[Pair],
    is_json: bool,
) -> Result<(W, End), Fault>
    ensures { Prints W.contents writer (way_output is_json host volume why.now found.now pairs.now) (end_of_why why.now) result }
{
    let end = end_of_why(why);
    if is_json {
        let text = WayJson {
            host,
            volume,
            why,
            found,
            pairs,
        };
        print_as(alloc, writer, &text, end)
    } else {
        print_as(alloc, writer, &WayText { why, found, pairs }, end)
    }
}

/// Tells a caller why a host reaches a volume or does not.
///
/// # Errors
/// `Memory`; `Stream` where the writer failed.
pub fn why_at<W: Write + Drop>(
    alloc: Global,
    world: &World<Global>,
    policy: &Policy,
    id: CallerId,
    host: Name,
    volume: Name,
    is_json: bool,
    writer: W,
) -> Result<(W, End), Fault>
    requires sound { IsSound world.now }
    ensures { TellsWay W.contents world.now policy.now id host volume is_json writer result }
{
    let Ok(why) = told(alloc, policy, world, id, &host, &volume) else {
        return Err(Fault::Memory);
    };
    let Ok(found) = way_rows(alloc, policy, world, id, &host, &volume) else {
        return Err(Fault::Memory);
    };
    let Ok(pairs) = pairs_told(alloc, policy, world, id, &host, &volume) else {
        return Err(Fault::Memory);
    };
    print_way(alloc, writer, host, volume, &why, &found, &pairs, is_json)
}

/// Prints who reaches a volume.
fn print_reachers<W: Write + Drop>(
    alloc: Global,
    writer: W,
    reachers: &[Reacher<Global>],
    is_json: bool,
) -> Result<(W, End), Fault>
    ensures { Prints W.contents writer (who_output is_json reachers.now) End.Done result }
{
    if is_json {
        print_as(alloc, writer, &ReachersJson(reachers), End::Done)
    } else {
        print_as(alloc, writer, &ReachersText(reachers), End::Done)
    }
}

/// Tells a caller who reaches a volume.
///
/// # Errors
/// `Memory`; `Stream` where the writer failed.
pub fn who_at<W: Write + Drop>(
    alloc: Global,
    world: &World<Global>,
    policy: &Policy,
    id: CallerId,
    volume: Name,
    is_json: bool,
    writer: W,
) -> Result<(W, End), Fault>
    ensures { TellsWho W.contents world.now policy.now id volume is_json writer result }
{
    let Ok(reachers) = reachers_told(alloc, policy, world, id, &volume) else {
        return Err(Fault::Memory);
    };
    print_reachers(alloc, writer, &reachers, is_json)
}

/// How a look at a port ends that shows this: it is done where there is something to show.
fn end_of_port(found: &[Shown<Global>]) -> End
    ensures { result ≡ end_of_port found.now }
{
    if found.is_empty() {
        End::Refused
    } else {
        End::Done
    }
}

/// Prints what is around a port.
fn print_port<W: Write + Drop>(
    alloc: Global,
    writer: W,
    found: &[Shown<Global>],
    is_json: bool,
) -> Result<(W, End), Fault>
    ensures { Prints W.contents writer (port_output is_json found.now) (end_of_port found.now) result }
{
    let end = end_of_port(found);
    if is_json {
        print_as(alloc, writer, &RowsJson(found), end)
    } else {
        print_as(alloc, writer, &FoundText(found), end)
    }
}

/// Tells a caller what is around a port.
///
/// # Errors
/// `Memory`; `Stream` where the writer failed.
pub fn port_at<W: Write + Drop>(
    alloc: Global,
    world: &World<Global>,
    policy: &Policy,
    id: CallerId,
    port: Wwn,
    is_json: bool,
    writer: W,
) -> Result<(W, End), Fault>
    requires sound { IsSound world.now }
    ensures { TellsPort W.contents world.now policy.now id port is_json writer result }
{
    let Ok(found) = port_way(alloc, policy, world, id, &port) else {
        return Err(Fault::Memory);
    };
    print_port(alloc, writer, &found, is_json)
}
