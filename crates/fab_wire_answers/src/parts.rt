//! Parts of bodies: lists of paths, units, approvals and zones, places, and what a refusal is about.

ghost use Rattle.std.specs.Prelude.{◌≡◌, length};
ghost use Rattle.serde_json.specs.Data.{Data};
ghost use Rattle.serde_json.specs.Written.{comma_if};
ghost use Rattle.fab_wire_streams.specs.Taking.{Takes};
ghost use Rattle.fab_wire_streams.specs.JsonText.{json_text};
ghost use Rattle.fab_wire_streams.specs.Pieces.{item_json};
ghost use Rattle.fab_wire_streams.specs.Values.{list_data, or_null};
ghost use Rattle.fab_wire_answers.specs.Parts.{path_data, unit_data, approval_data, place_data, zone_data, item_data, gone_item};

use fab_desk_base::ZoneMembers;
use fab_policy::Approval;
use fab_reach_base::Path;
use fab_reach_base::mapping::Gone;
use fab_reach_base::names::{Address, Fabric, Name, Place};
use fab_wire_streams::escapes::put_string;
use fab_wire_streams::object;
use fab_wire_streams::sink::Sink;
use fab_wire_streams::streams::WriteFailed;
use fab_wire_streams::structures::Array;
use fab_wire_streams::values::Json;
use fab_world::plans::Item;
use itoa::Buffer;
use std::alloc::Allocator;

/// What stands in a list of a body.
pub trait Part {
    /// Its value in the body.
    ghost part_data: { Self → Data };

    /// Puts the compact text of the value. A failure of the sink ends it.
    fn put_part<S: Sink>(&self, sink: &mut S) -> Result<(), WriteFailed>
        ensures { Takes S.took S.cut sink.old (json_text (part_data self.now)) sink.new result };
}

/// A path, `lun` being its logical unit number.
impl Part for Path {
    ghost part_data = { path_data };

    fn put_part<S: Sink>(&self, sink: &mut S) -> Result<(), WriteFailed> {
        object! {
            "fabric": self.fabric,
            "initiator": self.initiator,
            "lun": self.unit,
            "target": self.target,
            "volume": self.volume
        }
        .put(sink)
    }
}

/// A logical unit number and the volume there.
impl Part for (u16, Name) {
    ghost part_data = { unit_data };

    fn put_part<S: Sink>(&self, sink: &mut S) -> Result<(), WriteFailed> {
        object! { "lun": self.0, "volume": self.1 }.put(sink)
    }
}

/// An approval of a plan.
impl Part for Approval {
    ghost part_data = { approval_data };

    fn put_part<S: Sink>(&self, sink: &mut S) -> Result<(), WriteFailed> {
        object! { "caller": self.caller, "revision": self.revision }.put(sink)
    }
}

/// A zone with its members.
impl<A: Allocator + Copy> Part for ZoneMembers<A> {
    ghost part_data = { zone_data };

    fn put_part<S: Sink>(&self, sink: &mut S) -> Result<(), WriteFailed> {
        object! { "members": Array(self.members.as_slice()), "name": self.name }.put(sink)
    }
}

/// An array of the parts of a list, in its order.
#[derive(Clone, Copy)]
pub struct Parts<'a, T>(pub &'a [T]);

impl<T: Part> Json for Parts<'_, T> {
    ghost value = { λ parts. list_data T.part_data parts.0.now };

    ghost most = { λ parts. length (json_text (list_data T.part_data parts.0.now)) };

    fn put<S: Sink>(&self, sink: &mut S) -> Result<(), WriteFailed> {
        let Ok(()) = sink.take(b"[") else {
            return Err(WriteFailed);
        };
        let mut later = false;
        for part in self.0 {
            let Ok(()) = put_next(sink, later, part) else {
                return Err(WriteFailed);
            };
            later = true;
        }
        sink.take(b"]")
    }
}

/// Puts a part, after others or as the first.
fn put_next<S: Sink, T: Part>(sink: &mut S, later: bool, part: &T) -> Result<(), WriteFailed>
    ensures { Takes S.took S.cut sink.old (item_json later (T.part_data part.now)) sink.new result }
{
    let Ok(()) = put_comma(sink, later) else {
        return Err(WriteFailed);
    };
    part.put_part(sink)
}

/// Puts a comma, where something stands before.
fn put_comma<S: Sink>(sink: &mut S, later: bool) -> Result<(), WriteFailed>
    ensures { Takes S.took S.cut sink.old (comma_if later) sink.new result }
{
    if later { sink.take(b",") } else { Ok(()) }
}

/// Where a port is logged in, by what address, or null.
#[derive(Clone, Copy)]
pub struct At(pub Option<(Fabric, Place)>, pub Option<Address>);

impl Json for At {
    ghost value = { λ at. or_null (place_data at.1) at.0 };

    ghost most = { λ at. length (json_text (or_null (place_data at.1) at.0)) };

    #[tactic(auto, unfolding(fab_wire_streams::specs::JsonText::json_text))]
    fn put<S: Sink>(&self, sink: &mut S) -> Result<(), WriteFailed> {
        match self.0 {
            Some((fabric, place)) => put_place(sink, fabric, place, self.1),
            None => sink.take(b"null"),
        }
    }
}

/// Puts a fabric, a place in it and an address, or null.
fn put_place<S: Sink>(
    sink: &mut S,
    fabric: Fabric,
    place: Place,
    address: Option<Address>,
) -> Result<(), WriteFailed>
    ensures { Takes S.took S.cut sink.old (json_text (place_data address (fabric, place))) sink.new result }
{
    object! {
        "address": address,
        "domain": place.domain(),
        "fabric": fabric,
        "port": place.slot()
    }
    .put(sink)
}

/// What a refusal is about: a name, a port as it is printed, or the decimal text of a unit.
#[derive(Clone, Copy)]
pub struct About(pub Item);

impl Json for About {
    ghost value = { λ about. item_data about.0 };

    ghost most = { λ about. length (json_text (item_data about.0)) };

    #[tactic(auto, unfolding(fab_wire_streams::specs::JsonText::json_text, fab_wire_streams::specs::JsonText::quoted_json))]
    fn put<S: Sink>(&self, sink: &mut S) -> Result<(), WriteFailed> {
        match self.0 {
            Item::Name(name) => name.put(sink),
            Item::Port(port) => port.put(sink),
            Item::Unit(unit) => put_string(sink, Buffer::new().format(unit).as_bytes()),
        }
    }
}

/// What is gone, as what a refusal is about.
pub fn item_of(gone: Gone) -> Item
    ensures { result ≡ gone_item gone }
{
    match gone {
        Gone::Host(name) => Item::Name(name),
        Gone::Array(name) => Item::Name(name),
        Gone::Target(port) => Item::Port(port),
        Gone::Volume(name) => Item::Name(name),
    }
}
