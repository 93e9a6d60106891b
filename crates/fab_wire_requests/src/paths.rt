//! Requests that take no body: the path says all.

ghost use Rattle.std.specs.Prelude.{◌≡◌};
ghost use Rattle.fab_desk_base.specs.Commands.{IsGiven};
ghost use Rattle.fab_wire_requests.specs.Subjects.{subject_of, holder_of};
ghost use Rattle.fab_wire_requests.specs.Commands.{IsGivenAs, order_of, order_at, query_in, named_query};
ghost use Rattle.fab_wire_requests.specs.Meanings.{IsMeantAs, MeansByPath, MeansFabric, MeansPort, MeansPorts, MeansNamed, MeansInFabric};

use crate::meant::Meant;
use fab_desk_base::{Command, Query};
use fab_inventory::HolderKind;
use fab_names::{Fabric, Name};
use fab_wire_base::kinds::Kind;
use fab_wire_base::parts::{fabric_part, name_part, wwn_part};
use std::alloc::Allocator;

/// What the path of a request names.
#[derive(Clone, Copy)]
pub enum Subject {
    /// A fabric.
    Fabric,
    /// A port, by its N_Port_Name.
    Port,
    /// Two ports, by their N_Port_Names.
    Ports,
    /// A name in a fabric: of an alias, a zone or a zone set.
    InFabric,
    /// A name: of a host, an array, a volume, a plan, a host group or a storage group.
    Named,
}

/// What the path of a kind names.
fn named_by(kind: Kind) -> Subject
    ensures { result ≡ subject_of kind }
{
    match kind {
        Kind::Import | Kind::ShowActive => Subject::Fabric,
        Kind::ShowPort => Subject::Port,
        Kind::Joined => Subject::Ports,
        Kind::ShowAlias | Kind::ShowZone | Kind::ShowSet => Subject::InFabric,
        _ => Subject::Named,
    }
}

/// Whether a kind is about a host or an array, where it is about one of them.
pub fn holder_kind(kind: Kind) -> HolderKind
    ensures { result ≡ holder_of kind }
{
    match kind {
        Kind::PutArray | Kind::DropArray | Kind::ShowArray => HolderKind::Array,
        _ => HolderKind::Host,
    }
}

/// What a kind that takes no body asks for at a path.
pub fn by_path<A: Allocator + Copy>(alloc: A, kind: Kind, target: &[u8]) -> Meant<A>
    ensures meant { IsMeantAs (MeansByPath (subject_of kind) kind target.now) result }
    ensures given { IsGivenAs result }
{
    match named_by(kind) {
        Subject::Fabric => show_active(alloc, target),
        Subject::Port => show_port(alloc, target),
        Subject::Ports => joined(alloc, target),
        Subject::InFabric => in_fabric(alloc, kind, target),
        Subject::Named => named(alloc, kind, target),
    }
}

/// The showing of what is active in the fabric that the path names.
fn show_active<A: Allocator + Copy>(alloc: A, target: &[u8]) -> Meant<A>
    ensures meant { IsMeantAs (MeansFabric target.now) result }
    ensures given { IsGivenAs result }
{
    match fabric_part(alloc, target, 2) {
        Ok(Some(fabric)) => Meant::Asks(Command::Show(Query::Active { fabric })),
        Ok(None) => Meant::Unnamed,
        Err(_) => Meant::Memory,
    }
}

/// The showing of the port that the path names.
fn show_port<A: Allocator + Copy>(alloc: A, target: &[u8]) -> Meant<A>
    ensures meant { IsMeantAs (MeansPort target.now) result }
    ensures given { IsGivenAs result }
{
    match wwn_part(alloc, target, 2) {
        Ok(Some(name)) => Meant::Asks(Command::Show(Query::Port { name })),
        Ok(None) => Meant::Unnamed,
        Err(_) => Meant::Memory,
    }
}

/// The question whether the two ports that the path names may communicate.
fn joined<A: Allocator + Copy>(alloc: A, target: &[u8]) -> Meant<A>
    ensures meant { IsMeantAs (MeansPorts target.now) result }
    ensures given { IsGivenAs result }
{
    let Ok(first) = wwn_part(alloc, target, 2) else {
        return Meant::Memory;
    };
    let Ok(second) = wwn_part(alloc, target, 3) else {
        return Meant::Memory;
    };
    let Some(port) = first else {
        return Meant::Unnamed;
    };
    let Some(other) = second else {
        return Meant::Unnamed;
    };
    Meant::Asks(Command::Show(Query::Joined { port, other }))
}

/// The showing of the alias, the zone or the zone set that the path names.
fn in_fabric<A: Allocator + Copy>(alloc: A, kind: Kind, target: &[u8]) -> Meant<A>
    ensures meant { IsMeantAs (MeansInFabric kind target.now) result }
    ensures given { IsGivenAs result }
{
    let Ok(first) = fabric_part(alloc, target, 2) else {
        return Meant::Memory;
    };
    let Ok(second) = name_part(alloc, target, 3) else {
        return Meant::Memory;
    };
    let Some(fabric) = first else {
        return Meant::Unnamed;
    };
    let Some(name) = second else {
        return Meant::Unnamed;
    };
    Meant::Asks(Command::Show(zoning_query(kind, fabric, name)))
}

/// What is asked for about a name in a fabric.
fn zoning_query(kind: Kind, fabric: Fabric, name: Name) -> Query
    ensures { result ≡ query_in kind fabric name }
{
    match kind {
        Kind::ShowAlias => Query::Alias { fabric, name },
        Kind::ShowZone => Query::Zone { fabric, name },
        _ => Query::Set { fabric, name },
    }
}

/// What is asked for about the name that the path has.
fn named<A: Allocator + Copy>(alloc: A, kind: Kind, target: &[u8]) -> Meant<A>
    ensures meant { IsMeantAs (MeansNamed kind target.now) result }
    ensures given { IsGivenAs result }
{
    match name_part(alloc, target, 2) {
        Ok(Some(name)) => Meant::Asks(at_name(kind, name)),
        Ok(None) => Meant::Unnamed,
        Err(_) => Meant::Memory,
    }
}

/// What is asked for about a name.
fn at_name<A: Allocator + Copy>(kind: Kind, name: Name) -> Command<A>
    ensures order { order_of result ≡ order_at kind name }
    ensures given { IsGiven result }
{
    let plan = name;
    match kind {
        Kind::DropHost | Kind::DropArray => Command::DropHolder {
            kind: holder_kind(kind),
            name,
        },
        Kind::DropVolume => Command::DropVolume { name },
        Kind::Withdraw => Command::Withdraw { plan },
        Kind::Approve => Command::Approve { plan },
        Kind::DryRun => Command::DryRun { plan },
        Kind::Activate => Command::Activate { plan },
        Kind::Rollback => Command::Rollback { plan },
        _ => Command::Show(query_at(kind, name)),
    }
}

/// What a read asks for about a name.
fn query_at(kind: Kind, name: Name) -> Query
    ensures { result ≡ named_query kind name }
{
    match kind {
        Kind::Paths => Query::Paths { host: name },
        Kind::ShowHost | Kind::ShowArray => Query::Holder {
            kind: holder_kind(kind),
            name,
        },
        Kind::ShowVolume => Query::Volume { name },
        Kind::ShowPlan => Query::Plan { name },
        Kind::ShowHostGroup => Query::HostGroup { name },
        _ => Query::Group { name },
    }
}
