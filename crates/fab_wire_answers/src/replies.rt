//! The bodies of what the desk replies.

ghost use Rattle.fab_wire_streams.specs.Taking.{Takes};
ghost use Rattle.fab_wire_streams.specs.JsonText.{json_text};
ghost use Rattle.fab_wire_answers.specs.Bodies.{staged_body, withdrawn_body, approved_body, tried_body, moved_body, reply_body};

use crate::parts::Parts;
use crate::refusals::put_fault;
use crate::showing::put_shown;
use fab_desk_base::Reply;
use fab_reach_base::Path;
use fab_reach_base::names::Name;
use fab_store_rows::PlanState;
use fab_wire_streams::object;
use fab_wire_streams::sink::Sink;
use fab_wire_streams::streams::WriteFailed;
use fab_wire_streams::values::{Json, Text};
use std::alloc::Allocator;

/// Puts the body of a reply.
pub fn put_reply<A: Allocator + Copy, S: Sink>(
    sink: &mut S,
    reply: &Reply<A>,
) -> Result<(), WriteFailed>
    ensures { Takes S.took S.cut sink.old (json_text (reply_body reply.now)) sink.new result }
{
    match reply {
        Reply::Changed { revision } => object! { "revision": *revision }.put(sink),
        Reply::Staged { plan, steps } => put_staged(sink, *plan, *steps as u64),
        Reply::Withdrawn { plan } => put_withdrawn(sink, *plan),
        Reply::Approved {
            plan,
            approvals,
            revision,
        } => { put_approved(sink, *plan, *approvals as u64, *revision) }
        Reply::Tried { plan, delta } => {
            put_tried(sink, *plan, delta.gained.as_slice(), delta.lost.as_slice())
        }
        Reply::Reconfigured {
            plan,
            delta,
            revision,
        } => {
            put_moved(
                sink,
                *plan,
                delta.gained.as_slice(),
                delta.lost.as_slice(),
                *revision,
            )
        }
        Reply::Shown(shown) => put_shown(sink, shown),
        Reply::Refused(why) => put_fault(sink, *why),
    }
}

/// Puts the body of a plan that is staged.
fn put_staged<S: Sink>(sink: &mut S, plan: Name, steps: u64) -> Result<(), WriteFailed>
    ensures { Takes S.took S.cut sink.old (json_text (staged_body plan steps)) sink.new result }
{
    object! { "plan": plan, "steps": steps }.put(sink)
}

/// Puts the body of a plan that is withdrawn.
fn put_withdrawn<S: Sink>(sink: &mut S, plan: Name) -> Result<(), WriteFailed>
    ensures { Takes S.took S.cut sink.old (json_text (withdrawn_body plan)) sink.new result }
{
    object! { "plan": plan, "state": Text(PlanState::Withdrawn.word()) }.put(sink)
}

/// Puts the body of a plan that is approved.
fn put_approved<S: Sink>(
    sink: &mut S,
    plan: Name,
    approvals: u64,
    revision: u64,
) -> Result<(), WriteFailed>
    ensures { Takes S.took S.cut sink.old (json_text (approved_body plan approvals revision))
        sink.new result }
{
    object! { "approvals": approvals, "plan": plan, "revision": revision }.put(sink)
}

/// Puts the body of what a plan would gain and lose.
fn put_tried<S: Sink>(
    sink: &mut S,
    plan: Name,
    gained: &[Path],
    lost: &[Path],
) -> Result<(), WriteFailed>
    ensures { Takes S.took S.cut sink.old (json_text (tried_body plan gained.now lost.now))
        sink.new result }
{
    object! { "gained": Parts(gained), "lost": Parts(lost), "plan": plan }.put(sink)
}

/// Puts the body of what a plan gained and lost.
fn put_moved<S: Sink>(
    sink: &mut S,
    plan: Name,
    gained: &[Path],
    lost: &[Path],
    revision: u64,
) -> Result<(), WriteFailed>
    ensures { Takes S.took S.cut sink.old (json_text (moved_body plan gained.now lost.now revision))
        sink.new result }
{
    object! {
        "gained": Parts(gained),
        "lost": Parts(lost),
        "plan": plan,
        "revision": revision
    }
    .put(sink)
}
