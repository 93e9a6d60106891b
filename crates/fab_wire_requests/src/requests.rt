//! What a request asks of the desk.

ghost use Rattle.fab_wire_requests.specs.Meanings.{IsMeant};
ghost use Rattle.fab_wire_requests.specs.Commands.{IsGivenAs};

use crate::bodies::{import, put_holder, put_volume, stage};
use crate::meant::Meant;
use crate::paths::by_path;
use fab_wire_base::kinds::{Form, Kind};
use std::alloc::{Allocator, Global};

/// What a kind of request, its target and its body ask of the desk.
///
/// The body comes first: `BadBody` has the line of its first fault, which is 0 where the body is
/// JSON, where it is no UTF-8, and where a plan text is too long. `Unnamed` where a captured part of
/// the path, with its escapes read (RFC 3986, section 2.1), is no text of what should stand there.
/// `Memory` where there was none; nothing is left of what was read. A command has just the values
/// that the path and the body spell, and so only such as a body gives.
///
/// Rows, ports and steps come from `alloc`, and what the readers of CSV and JSON need from `global`.
pub fn meaning<A: Allocator + Copy>(
    alloc: A,
    global: Global,
    kind: Kind,
    target: &[u8],
    body: &[u8],
) -> Meant<A>
    ensures meant { IsMeant kind target.now body.now result }
    ensures given { IsGivenAs result }
{
    match kind.form() {
        Form::Nothing => by_path(alloc, kind, target),
        Form::PortList => import(alloc, global, target, body),
        Form::PlanText => stage(alloc, target, body),
        Form::Holder => put_holder(alloc, global, kind, target, body),
        Form::Volume => put_volume(alloc, global, target, body),
    }
}
