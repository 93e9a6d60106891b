//! Requests that take a body: the body is read first, and then what the path names.

ghost use Rattle.fab_wire_requests.specs.Commands.{IsGivenAs};
ghost use Rattle.fab_wire_requests.specs.Meanings.{IsMeantAs, MeansImport, MeansPlan, MeansHolder, MeansVolume};
ghost use Rattle.fab_wire_requests.specs.Reading.{IsPlanRead};

use crate::meant::Meant;
use crate::paths::holder_kind;
use crate::port_list::{FileFault, read_ports};
use crate::{BodyFault, read_holder, read_volume};
use fab_desk_base::Command;
use fab_plans_text::{PlanFaultKind, Step, read_plan};
use fab_wire_base::kinds::Kind;
use fab_wire_base::parts::{fabric_part, name_part};
use std::alloc::{Allocator, Global};

/// The import of the rows of the body, at the fabric that the path names.
pub fn import<A: Allocator + Copy>(alloc: A, global: Global, target: &[u8], body: &[u8]) -> Meant<A>
    ensures meant { IsMeantAs (MeansImport target.now body.now) result }
    ensures given { IsGivenAs result }
{
    let rows = match read_ports(alloc, global, body) {
        Ok(rows) => rows,
        Err(FileFault::Line(line)) => return Meant::BadBody(line),
        Err(FileFault::Memory) => return Meant::Memory,
    };
    match fabric_part(alloc, target, 2) {
        Ok(Some(fabric)) => Meant::Asks(Command::Import { fabric, rows }),
        Ok(None) => Meant::Unnamed,
        Err(_) => Meant::Memory,
    }
}

/// The staging of the plan that the path names, with the steps of the body.
pub fn stage<A: Allocator + Copy>(alloc: A, target: &[u8], body: &[u8]) -> Meant<A>
    ensures meant { IsMeantAs (MeansPlan target.now body.now) result }
    ensures given { IsGivenAs result }
{
    let steps = match plan_in(alloc, body) {
        PlanRead::Steps(steps) => steps,
        PlanRead::Bad(line) => return Meant::BadBody(line),
        PlanRead::Memory => return Meant::Memory,
    };
    match name_part(alloc, target, 2) {
        Ok(Some(plan)) => Meant::Asks(Command::Stage { plan, steps }),
        Ok(None) => Meant::Unnamed,
        Err(_) => Meant::Memory,
    }
}

/// The plan of a body.
#[derive(Drop)]
enum PlanRead<A: Allocator + Copy> {
    /// Its steps.
    Steps(Vec<Step<A>, A>),
    /// The line of its first fault, and 0 where that is the whole text's.
    Bad(usize),
    /// There was no memory.
    Memory,
}

/// Reads the plan of a body.
fn plan_in<A: Allocator + Copy>(alloc: A, body: &[u8]) -> PlanRead<A>
    ensures { IsPlanRead body.now result }
{
    let Ok(text) = str::from_utf8(body) else {
        return PlanRead::Bad(0);
    };
    match read_plan(alloc, text) {
        Ok(steps) => PlanRead::Steps(steps),
        Err(fault) => {
            if fault.kind == PlanFaultKind::Memory {
                PlanRead::Memory
            } else {
                PlanRead::Bad(fault.line)
            }
        }
    }
}

/// The putting of the host or the array that the path names, with the ports and the tenant of the
/// body.
pub fn put_holder<A: Allocator + Copy>(
    alloc: A,
    global: Global,
    kind: Kind,
    target: &[u8],
    body: &[u8],
) -> Meant<A>
    ensures meant { IsMeantAs (MeansHolder kind target.now body.now) result }
    ensures given { IsGivenAs result }
{
    let holder = match read_holder(alloc, global, body) {
        Ok(holder) => holder,
        Err(BodyFault::Bad) => return Meant::BadBody(0),
        Err(BodyFault::Memory) => return Meant::Memory,
    };
    match name_part(alloc, target, 2) {
        Ok(Some(name)) => Meant::Asks(Command::PutHolder {
            kind: holder_kind(kind),
            name,
            tenant: holder.tenant,
            ports: holder.ports,
        }),
        Ok(None) => Meant::Unnamed,
        Err(_) => Meant::Memory,
    }
}

/// The putting of the volume that the path names, as the body says.
pub fn put_volume<A: Allocator + Copy>(
    alloc: A,
    global: Global,
    target: &[u8],
    body: &[u8],
) -> Meant<A>
    ensures meant { IsMeantAs (MeansVolume target.now body.now) result }
    ensures given { IsGivenAs result }
{
    let volume = match read_volume(global, body) {
        Ok(volume) => volume,
        Err(BodyFault::Bad) => return Meant::BadBody(0),
        Err(BodyFault::Memory) => return Meant::Memory,
    };
    match name_part(alloc, target, 2) {
        Ok(Some(name)) => Meant::Asks(Command::PutVolume { name, volume }),
        Ok(None) => Meant::Unnamed,
        Err(_) => Meant::Memory,
    }
}
