//! The active set of a fabric.
ghost use Rattle.std.specs.Prelude.{◌≡◌, ◌++◌};
ghost use Rattle.fab_wire_streams.specs.Taking.{Takes};
ghost use Rattle.fab_files.specs.ActiveSets.{active_lines, head_lines, zones_lines, zone_lines, member_line, set_name, words_line};
ghost use Rattle.fab_reach_base.specs.fab_names.declared.member.Member.{Member};

use fab_desk_base::ZoneMembers;
use fab_reach_base::names::{Fabric, Member, Name, Place};
use fab_reach_base::zoning::DefaultFlag;
use fab_wire_streams::sink::{Sink, put_all};
use fab_wire_streams::streams::WriteFailed;
use itoa::Buffer;
use std::alloc::Allocator;

/// Puts the active set of a fabric: `fabric` and its letter; `active` and the set's name, or `-`
/// where none is active; `default` and what the default zone does; and then a line for each zone
/// and each of its members, in the order of the lists.
///
/// # Errors
/// `WriteFailed` where the sink fails, with a beginning of the text taken.
pub fn active_text<S: Sink, A: Allocator + Copy>(
    sink: &mut S,
    fabric: Fabric,
    active: Option<Name>,
    flag: DefaultFlag,
    zones: &[ZoneMembers<A>],
) -> Result<(), WriteFailed>
    ensures { Takes S.took S.cut sink.old (active_lines fabric active flag zones.now) sink.new result }
{
    let Ok(()) = put_head(sink, fabric, active, flag) else {
        return Err(WriteFailed);
    };
    put_zones(sink, zones)
}

/// Puts the three lines before the zones.
fn put_head<S: Sink>(
    sink: &mut S,
    fabric: Fabric,
    active: Option<Name>,
    flag: DefaultFlag,
) -> Result<(), WriteFailed>
    ensures { Takes S.took S.cut sink.old (head_lines fabric active flag) sink.new result }
{
    let texts = [
        b"fabric ".as_slice(),
        fabric.as_str().as_bytes(),
        b"\nactive ".as_slice(),
        name_of(&active),
        b"\ndefault ".as_slice(),
        flag.word().as_bytes(),
        b"\n".as_slice(),
    ];
    put_all(sink, &texts)
}

/// The name of the active set, or `-`.
#[tactic(auto, unfolding(crate::specs::ActiveSets::set_name))]
fn name_of(active: &Option<Name>) -> &[u8]
    ensures { result.now ≡ set_name active.now }
{
    match active {
        Some(name) => name.as_bytes(),
        None => b"-",
    }
}

/// Puts the lines of the zones.
fn put_zones<S: Sink, A: Allocator + Copy>(
    sink: &mut S,
    zones: &[ZoneMembers<A>],
) -> Result<(), WriteFailed>
    ensures { Takes S.took S.cut sink.old (zones_lines zones.now) sink.new result }
{
    for zone in zones {
        let Ok(()) = put_zone(sink, &zone.name, &zone.members) else {
            return Err(WriteFailed);
        };
    }
    Ok(())
}

/// Puts a line for each member of a zone.
fn put_zone<S: Sink>(sink: &mut S, zone: &Name, members: &[Member]) -> Result<(), WriteFailed>
    ensures { Takes S.took S.cut sink.old (zone_lines zone.now members.now) sink.new result }
{
    for member in members {
        let Ok(()) = put_member(sink, zone, member) else {
            return Err(WriteFailed);
        };
    }
    Ok(())
}

/// Puts the line of a member: its zone, a space, and its printed form.
#[tactic(auto, unfolding(crate::specs::ActiveSets::member_line))]
fn put_member<S: Sink>(sink: &mut S, zone: &Name, member: &Member) -> Result<(), WriteFailed>
    ensures { Takes S.took S.cut sink.old (member_line zone.now member.now) sink.new result }
{
    match member {
        Member::Port(name) => put_words(sink, zone, b"wwpn=", &name.letters()),
        Member::Node(name) => put_words(sink, zone, b"wwnn=", &name.letters()),
        Member::Place(place) => put_place(sink, zone, *place),
        Member::Address(address) => put_words(sink, zone, b"id=", &address.letters()),
        Member::Alias(name) => put_words(sink, zone, b"alias=", name.as_bytes()),
    }
}

/// Puts a line: a zone, a space, and two texts behind one another.
fn put_words<S: Sink>(
    sink: &mut S,
    zone: &Name,
    word: &[u8],
    text: &[u8],
) -> Result<(), WriteFailed>
    ensures { Takes S.took S.cut sink.old (words_line zone.now (word.now ++ text.now)) sink.new result }
{
    let texts = [
        zone.as_bytes(),
        b" ".as_slice(),
        word,
        text,
        b"\n".as_slice(),
    ];
    put_all(sink, &texts)
}

/// Puts the line of a place as a member.
#[tactic(auto, unfolding(crate::specs::ActiveSets::member_line))]
fn put_place<S: Sink>(sink: &mut S, zone: &Name, place: Place) -> Result<(), WriteFailed>
    ensures { Takes S.took S.cut sink.old (member_line zone.now (Member.Place place)) sink.new result }
{
    let mut domain = Buffer::new();
    let mut slot = Buffer::new();
    let texts = [
        zone.as_bytes(),
        b" ".as_slice(),
        b"dp=".as_slice(),
        domain.format(place.domain()).as_bytes(),
        b",".as_slice(),
        slot.format(place.slot()).as_bytes(),
        b"\n".as_slice(),
    ];
    put_all(sink, &texts)
}
