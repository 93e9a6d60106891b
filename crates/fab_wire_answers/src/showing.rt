//! The bodies of what reads show.

ghost use Rattle.fab_wire_streams.specs.Taking.{Takes};
ghost use Rattle.fab_wire_streams.specs.JsonText.{json_text};
ghost use Rattle.fab_wire_answers.specs.Bodies.{joined_body, joint_body, paths_body, port_body, holder_body, volume_body, host_group_body, group_body, plan_body, members_body, set_body, active_body, shown_body};

use crate::parts::{At, Part, Parts};
use fab_desk_base::{Joint, Shown, ShownGroup, ShownHolder, ShownPlan, ZoneMembers};
use fab_reach_base::Path;
use fab_reach_base::inventory::Volume;
use fab_reach_base::names::{Address, Fabric, Member, Name, Place, Wwn};
use fab_reach_base::zoning::DefaultFlag;
use fab_wire_streams::object;
use fab_wire_streams::sink::Sink;
use fab_wire_streams::streams::WriteFailed;
use fab_wire_streams::structures::Array;
use fab_wire_streams::values::{Json, Text};
use std::alloc::Allocator;

/// Puts the body of what a read shows.
pub fn put_shown<A: Allocator + Copy, S: Sink>(
    sink: &mut S,
    shown: &Shown<A>,
) -> Result<(), WriteFailed>
    ensures { Takes S.took S.cut sink.old (json_text (shown_body shown.now)) sink.new result }
{
    match shown {
        Shown::Paths { host, paths } => put_paths(sink, *host, paths.as_slice()),
        Shown::Joined(why) => put_joined(sink, *why),
        Shown::Port {
            name,
            node,
            at,
            address,
        } => put_port(sink, *name, *node, *at, *address),
        Shown::Holder(holder) => put_holder(sink, holder),
        Shown::Volume { name, volume } => put_volume(sink, *name, volume),
        Shown::HostGroup {
            name,
            tenant,
            hosts,
        } => { put_host_group(sink, *name, *tenant, hosts.as_slice()) }
        Shown::Group(group) => put_group(sink, group),
        Shown::Plan(plan) => put_plan(sink, plan),
        Shown::Members {
            fabric,
            name,
            members,
        } => { put_members(sink, *fabric, *name, members.as_slice()) }
        Shown::Set {
            fabric,
            name,
            zones,
        } => put_set(sink, *fabric, *name, zones.as_slice()),
        Shown::Active {
            fabric,
            active,
            flag,
            zones,
        } => { put_active(sink, *fabric, *active, *flag, zones.as_slice()) }
    }
}

/// What a read shows, in a list: the body of its answer.
impl<A: Allocator + Copy> Part for Shown<A> {
    ghost part_data = { shown_body };

    fn put_part<S: Sink>(&self, sink: &mut S) -> Result<(), WriteFailed> {
        put_shown(sink, self)
    }
}

/// Puts the body of a host's paths.
fn put_paths<S: Sink>(sink: &mut S, host: Name, paths: &[Path]) -> Result<(), WriteFailed>
    ensures { Takes S.took S.cut sink.old (json_text (paths_body host paths.now)) sink.new result }
{
    object! { "host": host, "paths": Parts(paths) }.put(sink)
}

/// Puts the body of why two ports may communicate, or that they may not.
fn put_joined<S: Sink>(sink: &mut S, why: Option<Joint>) -> Result<(), WriteFailed>
    ensures { Takes S.took S.cut sink.old (json_text (joined_body why)) sink.new result }
{
    match why {
        Some(joint) => put_joint(sink, joint),
        None => object! { "joined": false }.put(sink),
    }
}

/// Puts the body of why two ports may communicate.
fn put_joint<S: Sink>(sink: &mut S, joint: Joint) -> Result<(), WriteFailed>
    ensures { Takes S.took S.cut sink.old (json_text (joint_body joint)) sink.new result }
{
    match joint {
        Joint::Zone(zone) => {
            object! { "joined": true, "why": Text("zone"), "zone": zone }.put(sink)
        }
        Joint::Default => object! { "joined": true, "why": Text("default") }.put(sink),
    }
}

/// Puts the body of a port.
fn put_port<S: Sink>(
    sink: &mut S,
    name: Wwn,
    node: Wwn,
    at: Option<(Fabric, Place)>,
    address: Option<Address>,
) -> Result<(), WriteFailed>
    ensures { Takes S.took S.cut sink.old (json_text (port_body name node at address)) sink.new result }
{
    object! { "at": At(at, address), "node_name": node, "port_name": name }.put(sink)
}

/// Puts the body of a host or an array.
fn put_holder<A: Allocator + Copy, S: Sink>(
    sink: &mut S,
    holder: &ShownHolder<A>,
) -> Result<(), WriteFailed>
    ensures { Takes S.took S.cut sink.old (json_text (holder_body holder.now)) sink.new result }
{
    object! {
        "kind": Text(holder.kind.word()),
        "name": holder.name,
        "ports": Array(holder.ports.as_slice()),
        "tenant": holder.tenant
    }
    .put(sink)
}

/// Puts the body of a volume.
fn put_volume<S: Sink>(sink: &mut S, name: Name, volume: &Volume) -> Result<(), WriteFailed>
    ensures { Takes S.took S.cut sink.old (json_text (volume_body name volume.now)) sink.new result }
{
    object! {
        "array": volume.array,
        "bytes": volume.bytes,
        "name": name,
        "tenant": volume.tenant
    }
    .put(sink)
}

/// Puts the body of a host group.
fn put_host_group<S: Sink>(
    sink: &mut S,
    name: Name,
    tenant: Name,
    hosts: &[Name],
) -> Result<(), WriteFailed>
    ensures { Takes S.took S.cut sink.old (json_text (host_group_body name tenant hosts.now))
        sink.new result }
{
    object! { "hosts": Array(hosts), "name": name, "tenant": tenant }.put(sink)
}

/// Puts the body of a storage group.
fn put_group<A: Allocator + Copy, S: Sink>(
    sink: &mut S,
    group: &ShownGroup<A>,
) -> Result<(), WriteFailed>
    ensures { Takes S.took S.cut sink.old (json_text (group_body group.now)) sink.new result }
{
    object! {
        "array": group.array,
        "exposed": group.exposed,
        "host_groups": Array(group.host_groups.as_slice()),
        "name": group.name,
        "targets": Array(group.targets.as_slice()),
        "tenant": group.tenant,
        "units": Parts(group.units.as_slice())
    }
    .put(sink)
}

/// Puts the body of a plan.
fn put_plan<A: Allocator + Copy, S: Sink>(
    sink: &mut S,
    plan: &ShownPlan<A>,
) -> Result<(), WriteFailed>
    ensures { Takes S.took S.cut sink.old (json_text (plan_body plan.now)) sink.new result }
{
    object! {
        "approvals": Parts(plan.approvals.as_slice()),
        "author": plan.author,
        "plan": plan.name,
        "state": Text(plan.state.word()),
        "text": Text(plan.text.as_str())
    }
    .put(sink)
}

/// Puts the body of an alias or a zone.
fn put_members<S: Sink>(
    sink: &mut S,
    fabric: Fabric,
    name: Name,
    members: &[Member],
) -> Result<(), WriteFailed>
    ensures { Takes S.took S.cut sink.old (json_text (members_body fabric name members.now))
        sink.new result }
{
    object! { "fabric": fabric, "members": Array(members), "name": name }.put(sink)
}

/// Puts the body of a zone set.
fn put_set<S: Sink>(
    sink: &mut S,
    fabric: Fabric,
    name: Name,
    zones: &[Name],
) -> Result<(), WriteFailed>
    ensures { Takes S.took S.cut sink.old (json_text (set_body fabric name zones.now))
        sink.new result }
{
    object! { "fabric": fabric, "name": name, "zones": Array(zones) }.put(sink)
}

/// Puts the body of what is active in a fabric.
fn put_active<A: Allocator + Copy, S: Sink>(
    sink: &mut S,
    fabric: Fabric,
    active: Option<Name>,
    flag: DefaultFlag,
    zones: &[ZoneMembers<A>],
) -> Result<(), WriteFailed>
    ensures { Takes S.took S.cut sink.old (json_text (active_body fabric active flag zones.now))
        sink.new result }
{
    object! {
        "active": active,
        "default": Text(flag.word()),
        "fabric": fabric,
        "zones": Parts(zones)
    }
    .put(sink)
}
