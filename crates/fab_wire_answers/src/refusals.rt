//! The bodies of refusals.

ghost use Rattle.std.specs.Prelude.{[], ◌∷◌, None, Some, codes};
ghost use Rattle.fab_world.specs.fab_plans.declared.fault.Refusal.TheVariants as refusal;
ghost use Rattle.fab_wire_streams.specs.Taking.{Takes};
ghost use Rattle.fab_wire_streams.specs.JsonText.{json_text};
ghost use Rattle.fab_wire_streams.specs.Values.{whole};
ghost use Rattle.fab_wire_answers.specs.Parts.{word, item_data};
ghost use Rattle.fab_wire_answers.specs.Bodies.{refusal_of, use_of, wire_body, step_body, fault_body};

use crate::codes::{Code, code_of_wire};
use crate::parts::{About, item_of};
use fab_desk_base::DeskFault;
use fab_policy::Need;
use fab_reach_base::mapping::Nexus;
use fab_reach_base::names::{Name, Wwn};
use fab_store_rows::PlanState;
use fab_wire_base::requests as wire;
use fab_wire_streams::object;
use fab_wire_streams::sink::Sink;
use fab_wire_streams::streams::WriteFailed;
use fab_wire_streams::values::{Json, Text};
use fab_world::plans;
use fab_world::plans::Item;

/// Puts the body of a refusal before the desk is asked.
pub fn put_wire_refusal<S: Sink>(sink: &mut S, why: wire::Refusal) -> Result<(), WriteFailed>
    ensures { Takes S.took S.cut sink.old (json_text (wire_body why)) sink.new result }
{
    match why {
        wire::Refusal::BadBody(line) => put_bad_body(sink, line),
        _ => put_plain(sink, code_of_wire(why)),
    }
}

/// Puts the body of a refusal of the desk.
pub fn put_fault<S: Sink>(sink: &mut S, why: DeskFault) -> Result<(), WriteFailed>
    ensures { Takes S.took S.cut sink.old (json_text (fault_body why)) sink.new result }
{
    match why {
        DeskFault::BadBody { line } => put_bad_body(sink, line),
        DeskFault::Denied { rule, name, need } => put_denied(sink, rule, name, need),
        DeskFault::Exists(name) => put_about(sink, Code::Exists, Item::Name(name), None),
        DeskFault::InUse { item, by } => put_use(sink, item, by, None),
        DeskFault::Unknown(item) => put_about(sink, Code::UnknownName, item, None),
        DeskFault::Limit(limit) => put_limit(sink, limit.word(), None),
        DeskFault::WrongState(state) => put_wrong_state(sink, state),
        DeskFault::NotLast(last) => put_not_last(sink, last),
        DeskFault::Gone(gone) => put_about(sink, Code::Gone, item_of(gone), None),
        DeskFault::PortClash(port) => put_port_clash(sink, port),
        DeskFault::Plan { step, refusal } => put_step_refusal(sink, step as u64, refusal),
        DeskFault::NoCaller => put_plain(sink, Code::NoCaller),
        DeskFault::NotFound => put_plain(sink, Code::NotFound),
        DeskFault::OwnPlan => put_plain(sink, Code::OwnPlan),
        DeskFault::Memory => put_plain(sink, Code::Memory),
        DeskFault::Store => put_plain(sink, Code::Store),
        DeskFault::Halted => put_plain(sink, Code::Halted),
    }
}

/// Puts the body of a refusal of a plan: the number of the step, from 1, or 0 for its end.
fn put_step_refusal<S: Sink>(
    sink: &mut S,
    step: u64,
    why: plans::Refusal,
) -> Result<(), WriteFailed>
    ensures { Takes S.took S.cut sink.old (json_text (step_body step why)) sink.new result }
{
    let at = Some(step);
    match why {
        plans::Refusal::Exists(name) => put_about(sink, Code::Exists, Item::Name(name), at),
        plans::Refusal::Unknown(item) => put_about(sink, Code::UnknownName, item, at),
        plans::Refusal::WrongArray(item) => put_about(sink, Code::WrongArray, item, at),
        plans::Refusal::UnitTaken { group, unit } => put_taken(sink, group, unit, step),
        plans::Refusal::InUse { name, by } => put_use(sink, Item::Name(name), by, at),
        plans::Refusal::Limit(limit) => put_limit(sink, limit.word(), at),
        plans::Refusal::Clash(nexus) => put_clash(sink, nexus, step),
    }
}

/// Puts the body of a refusal that is its line of the table and nothing else.
fn put_plain<S: Sink>(sink: &mut S, code: Code) -> Result<(), WriteFailed>
    ensures { Takes S.took S.cut sink.old (json_text (refusal_of code [] None)) sink.new result }
{
    object! { "code": code.number(), "error": Text(code.name()) }.put(sink)
}

/// Puts the body of a bad body: the line of its fault, 0 for the whole body.
fn put_bad_body<S: Sink>(sink: &mut S, line: usize) -> Result<(), WriteFailed>
    ensures { Takes S.took S.cut sink.old
        (json_text (refusal_of Code.BadBody ((codes "line", whole line) ∷ []) None)) sink.new result }
{
    let code = Code::BadBody;
    object! { "code": code.number(), "error": Text(code.name()), "line": line as u64 }.put(sink)
}

/// Puts the body of a denial: the need that is not met, and the number and the name of its rule.
fn put_denied<S: Sink>(sink: &mut S, rule: usize, name: Name, need: Need) -> Result<(), WriteFailed>
    ensures { Takes S.took S.cut sink.old (json_text (fault_body (DeskFault.Denied rule name need)))
        sink.new result }
{
    let code = Code::Denied;
    object! {
        "code": code.number(),
        "error": Text(code.name()),
        "need": Text(need.word()),
        "rule": rule as u64,
        "rule_name": name
    }
    .put(sink)
}

/// Puts the body of a refusal that names something.
fn put_about<S: Sink>(
    sink: &mut S,
    code: Code,
    item: Item,
    step: Option<u64>,
) -> Result<(), WriteFailed>
    ensures { Takes S.took S.cut sink.old
        (json_text (refusal_of code ((codes "name", item_data item) ∷ []) step)) sink.new result }
{
    object! {
        "code": code.number(),
        "error": Text(code.name()),
        "name": About(item),
        "step"? step
    }
    .put(sink)
}

/// Puts the body of a refusal because something is held or used by another.
fn put_use<S: Sink>(
    sink: &mut S,
    item: Item,
    by: Name,
    step: Option<u64>,
) -> Result<(), WriteFailed>
    ensures { Takes S.took S.cut sink.old (json_text (use_of (item_data item) by step))
        sink.new result }
{
    let code = Code::InUse;
    object! {
        "by": by,
        "code": code.number(),
        "error": Text(code.name()),
        "name": About(item),
        "step"? step
    }
    .put(sink)
}

/// Puts the body of a refusal because there would be too many of something.
fn put_limit<S: Sink>(
    sink: &mut S,
    limit: &'static str,
    step: Option<u64>,
) -> Result<(), WriteFailed>
    ensures { Takes S.took S.cut sink.old
        (json_text (refusal_of Code.Limit ((codes "limit", word limit.now) ∷ []) step))
        sink.new result }
{
    let code = Code::Limit;
    object! {
        "code": code.number(),
        "error": Text(code.name()),
        "limit": Text(limit),
        "step"? step
    }
    .put(sink)
}

/// Puts the body of a step's refusal because the unit of the group has another volume.
fn put_taken<S: Sink>(sink: &mut S, group: Name, unit: u16, step: u64) -> Result<(), WriteFailed>
    ensures { Takes S.took S.cut sink.old
        (json_text (step_body step (refusal.UnitTaken group unit))) sink.new result }
{
    let code = Code::UnitClash;
    object! {
        "code": code.number(),
        "error": Text(code.name()),
        "group": group,
        "lun": unit,
        "step": step
    }
    .put(sink)
}

/// Puts the body of a refusal because a host would meet two volumes.
fn put_clash<S: Sink>(sink: &mut S, nexus: Nexus, step: u64) -> Result<(), WriteFailed>
    ensures { Takes S.took S.cut sink.old
        (json_text (step_body step (refusal.Clash nexus))) sink.new result }
{
    let code = Code::UnitClash;
    object! {
        "code": code.number(),
        "error": Text(code.name()),
        "host": nexus.host,
        "lun": nexus.unit,
        "step": step,
        "target": nexus.target
    }
    .put(sink)
}

/// Puts the body of a refusal because of the state of a plan.
fn put_wrong_state<S: Sink>(sink: &mut S, state: PlanState) -> Result<(), WriteFailed>
    ensures { Takes S.took S.cut sink.old (json_text (fault_body (DeskFault.WrongState state)))
        sink.new result }
{
    let code = Code::WrongState;
    object! {
        "code": code.number(),
        "error": Text(code.name()),
        "state": Text(state.word())
    }
    .put(sink)
}

/// Puts the body of a refusal because another plan was activated last.
fn put_not_last<S: Sink>(sink: &mut S, last: Name) -> Result<(), WriteFailed>
    ensures { Takes S.took S.cut sink.old (json_text (fault_body (DeskFault.NotLast last)))
        sink.new result }
{
    let code = Code::NotLast;
    object! { "code": code.number(), "error": Text(code.name()), "last": last }.put(sink)
}

/// Puts the body of a refusal because two records of a port differ.
fn put_port_clash<S: Sink>(sink: &mut S, port: Wwn) -> Result<(), WriteFailed>
    ensures { Takes S.took S.cut sink.old (json_text (fault_body (DeskFault.PortClash port)))
        sink.new result }
{
    let code = Code::PortClash;
    object! { "code": code.number(), "error": Text(code.name()), "port": port }.put(sink)
}
