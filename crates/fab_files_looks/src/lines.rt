//! The line of what a read shows.
ghost use Rattle.std.specs.Prelude.{◌≡◌};
ghost use Rattle.fab_files_looks.specs.Lines as lines;
ghost use Rattle.fab_files_looks.specs.Lines.{approval_text, approvals_text, count_line, listed_lines, row_line, signed_words};
ghost use Rattle.fab_wire_streams.specs.Taking.{Takes};

use fab_desk_base::{Shown, ShownGroup, ShownPlan};
use fab_files_base::{put_four, put_three};
use fab_inventory::Volume;
use fab_names::{Fabric, Name, Place, Wwn};
use fab_policy::Approval;
use fab_store_rows::PlanState;
use fab_wire_streams::sink::{Sink, put_all};
use fab_wire_streams::streams::WriteFailed;
use itoa::Buffer;
use std::alloc::Allocator;

/// Puts the line of what a read shows. Of paths, of why ports may communicate, and of an active set
/// the line is empty: no list has them.
pub fn put_row<S: Sink, A: Allocator + Copy>(
    sink: &mut S,
    shown: &Shown<A>,
) -> Result<(), WriteFailed>
    ensures { Takes S.took S.cut sink.old (row_line shown.now) sink.new result }
{
    match shown {
        Shown::Port {
            name,
            node,
            at,
            address: _,
        } => put_port(sink, *name, *node, *at),
        Shown::Holder(holder) => {
            put_count(
                sink,
                &holder.name,
                &holder.tenant,
                holder.ports.as_slice().len(),
            )
        }
        Shown::Volume { name, volume } => put_volume(sink, name, volume),
        Shown::HostGroup {
            name,
            tenant,
            hosts,
        } => put_count(sink, name, tenant, hosts.as_slice().len()),
        Shown::Group(group) => put_group(sink, group),
        Shown::Plan(plan) => put_plan(sink, plan),
        Shown::Members {
            fabric,
            name,
            members,
        } => put_of_fabric(sink, *fabric, name, members.as_slice().len()),
        Shown::Set {
            fabric,
            name,
            zones,
        } => put_of_fabric(sink, *fabric, name, zones.as_slice().len()),
        _ => sink.take(b"\n"),
    }
}

/// Puts the line of a thing of a tenant, and how many parts it has.
fn put_count<S: Sink>(
    sink: &mut S,
    name: &Name,
    tenant: &Name,
    count: usize,
) -> Result<(), WriteFailed>
    ensures { Takes S.took S.cut sink.old (count_line name.now tenant.now count) sink.new result }
{
    put_three(
        sink,
        name.as_bytes(),
        tenant.as_bytes(),
        Buffer::new().format(count).as_bytes(),
    )
}

/// Puts the line of a thing of a fabric, and how many parts it has.
fn put_of_fabric<S: Sink>(
    sink: &mut S,
    fabric: Fabric,
    name: &Name,
    count: usize,
) -> Result<(), WriteFailed>
    ensures { Takes S.took S.cut sink.old (lines.fabric_line fabric name.now count) sink.new result }
{
    put_three(
        sink,
        fabric.as_str().as_bytes(),
        name.as_bytes(),
        Buffer::new().format(count).as_bytes(),
    )
}

/// Puts the line of a port: its node, and the fabric where it is logged in, or `-`.
fn put_port<S: Sink>(
    sink: &mut S,
    name: Wwn,
    node: Wwn,
    at: Option<(Fabric, Place)>,
) -> Result<(), WriteFailed>
    ensures { Takes S.took S.cut sink.old (lines.port_line name node at) sink.new result }
{
    put_three(
        sink,
        &name.letters(),
        &node.letters(),
        fabric_of(at).as_bytes(),
    )
}

/// The fabric where a port is logged in, or `-`.
fn fabric_of(at: Option<(Fabric, Place)>) -> &'static str
    ensures { result.now ≡ lines.at_text at }
{
    match at {
        Some((fabric, _place)) => fabric.as_str(),
        None => "-",
    }
}

/// Puts the line of a volume, with its capacity in bytes.
fn put_volume<S: Sink>(sink: &mut S, name: &Name, volume: &Volume) -> Result<(), WriteFailed>
    ensures { Takes S.took S.cut sink.old (lines.volume_line name.now volume.now) sink.new result }
{
    put_four(
        sink,
        name.as_bytes(),
        volume.tenant.as_bytes(),
        volume.array.as_bytes(),
        Buffer::new().format(volume.bytes).as_bytes(),
    )
}

/// Puts the line of a storage group, and whether it is exposed.
fn put_group<S: Sink, A: Allocator + Copy>(
    sink: &mut S,
    group: &ShownGroup<A>,
) -> Result<(), WriteFailed>
    ensures { Takes S.took S.cut sink.old (lines.group_line group.now) sink.new result }
{
    put_four(
        sink,
        group.name.as_bytes(),
        group.tenant.as_bytes(),
        group.array.as_bytes(),
        exposed_word(group.exposed).as_bytes(),
    )
}

/// Whether a storage group is exposed, in a word.
fn exposed_word(exposed: bool) -> &'static str
    ensures { result.now ≡ lines.exposed_word exposed }
{
    if exposed { "exposed" } else { "hidden" }
}

/// Puts the line of a plan: its state, its author, and how many callers have approved it.
fn put_plan<S: Sink, A: Allocator + Copy>(
    sink: &mut S,
    plan: &ShownPlan<A>,
) -> Result<(), WriteFailed>
    ensures { Takes S.took S.cut sink.old (lines.plan_line plan.now) sink.new result }
{
    let count = plan.approvals.as_slice().len();
    put_head(sink, &plan.name, plan.state, &plan.author, count)
}

/// The approvals of what a read shows, if it is a plan.
fn approvals_in<A: Allocator + Copy>(shown: &Shown<A>) -> &[Approval]
    ensures { result.now ≡ lines.approvals_in shown.now }
{
    match shown {
        Shown::Plan(plan) => plan.approvals.as_slice(),
        _ => &[],
    }
}

/// Puts the line of what a read shows, and a line for each of its approvals, if it is a plan. Those that
/// were given at another revision than this are stale.
pub fn put_listed<S: Sink, A: Allocator + Copy>(
    sink: &mut S,
    revision: u64,
    shown: &Shown<A>,
) -> Result<(), WriteFailed>
    ensures { Takes S.took S.cut sink.old (listed_lines revision shown.now) sink.new result }
{
    let Ok(()) = put_row(sink, shown) else {
        return Err(WriteFailed);
    };
    put_approvals(sink, revision, approvals_in(shown))
}

/// Puts the line of a plan of this name.
fn put_head<S: Sink>(
    sink: &mut S,
    name: &Name,
    state: PlanState,
    author: &Name,
    count: usize,
) -> Result<(), WriteFailed>
    ensures { Takes S.took S.cut sink.old (lines.head_line name.now state author.now count) sink.new result }
{
    put_four(
        sink,
        name.as_bytes(),
        state.word().as_bytes(),
        author.as_bytes(),
        Buffer::new().format(count).as_bytes(),
    )
}

/// Puts a line for each approval.
fn put_approvals<S: Sink>(
    sink: &mut S,
    revision: u64,
    approvals: &[Approval],
) -> Result<(), WriteFailed>
    ensures { Takes S.took S.cut sink.old (approvals_text revision approvals.now) sink.new result }
{
    for approval in approvals {
        let Ok(()) = put_approval(sink, revision, approval) else {
            return Err(WriteFailed);
        };
    }
    Ok(())
}

/// What is told of an approval by whether it was given at the present revision.
fn stale_words(is_fresh: bool) -> &'static str
    ensures { result.now ≡ lines.stale_words is_fresh }
{
    if is_fresh { "\n" } else { ", stale\n" }
}

/// Puts who approved at which revision.
fn put_signed<S: Sink>(sink: &mut S, approval: &Approval) -> Result<(), WriteFailed>
    ensures { Takes S.took S.cut sink.old (signed_words approval.now) sink.new result }
{
    let mut digits = Buffer::new();
    let texts = [
        b"  approved by ".as_slice(),
        approval.caller.as_bytes(),
        b" at revision ".as_slice(),
        digits.format(approval.revision).as_bytes(),
    ];
    put_all(sink, &texts)
}

/// Puts the line of an approval: who approved at which revision, and whether that is the present one.
fn put_approval<S: Sink>(
    sink: &mut S,
    revision: u64,
    approval: &Approval,
) -> Result<(), WriteFailed>
    ensures { Takes S.took S.cut sink.old (approval_text revision approval.now) sink.new result }
{
    let Ok(()) = put_signed(sink, approval) else {
        return Err(WriteFailed);
    };
    let is_fresh = approval.revision == revision;
    sink.take(stale_words(is_fresh).as_bytes())
}
