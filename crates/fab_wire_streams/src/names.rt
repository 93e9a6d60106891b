//! Names, world-wide names, fabrics and members as JSON strings: their printed forms.

ghost use Rattle.std.specs.Prelude.{◌≤◌, ◌++◌, codes, length};
ghost use Rattle.serde_json.specs.Data.{string};
ghost use Rattle.fab_names.specs.Fabrics.{fabric_text};
ghost use Rattle.fab_names.specs.Places.{place_text};
ghost use Rattle.fab_names.specs.Members.{member_text};
ghost use Rattle.fab_wire_streams.specs.Taking.{Takes};
ghost use Rattle.fab_wire_streams.specs.JsonText.{quoted_json};
ghost use Rattle.fab_wire_streams.specs.Values.{address_data, wwn_data};
ghost use Rattle.fab_wire_streams.specs.Bounds.{string_most};

use crate::escapes::{put_joined, put_string};
use crate::sink::Sink;
use crate::streams::WriteFailed;
use crate::values::Json;
use fab_names::{Address, Fabric, Member, Name, Place, Wwn};
use itoa::Buffer;

/// A name, which needs no escape.
impl Json for Name {
    ghost value = { λ n. string n };

    ghost most = { λ n. string_most 64 };

    #[tactic(auto, unfolding(crate::specs::JsonText::json_text, crate::specs::JsonText::quoted_json))]
    fn put<S: Sink>(&self, sink: &mut S) -> Result<(), WriteFailed> {
        put_string(sink, self.as_bytes())
    }
}

/// A world-wide name: eight pairs of lower-case digits joined by colons.
impl Json for Wwn {
    ghost value = { wwn_data };

    ghost most = { λ w. string_most 23 };

    #[tactic(auto, unfolding(crate::specs::JsonText::json_text, crate::specs::JsonText::quoted_json))]
    fn put<S: Sink>(&self, sink: &mut S) -> Result<(), WriteFailed> {
        put_string(sink, &self.letters())
    }
}

/// An address: six lower-case digits.
impl Json for Address {
    ghost value = { address_data };

    ghost most = { λ a. string_most 6 };

    #[tactic(auto, unfolding(crate::specs::JsonText::json_text, crate::specs::JsonText::quoted_json))]
    fn put<S: Sink>(&self, sink: &mut S) -> Result<(), WriteFailed> {
        put_string(sink, &self.letters())
    }
}

/// A fabric: its letter.
impl Json for Fabric {
    ghost value = { λ f. string (fabric_text f) };

    ghost most = { λ f. string_most 1 };

    #[tactic(auto, unfolding(crate::specs::JsonText::json_text, crate::specs::JsonText::quoted_json))]
    fn put<S: Sink>(&self, sink: &mut S) -> Result<(), WriteFailed> {
        put_string(sink, self.as_str().as_bytes())
    }
}

/// A member: the word of its kind, `=`, and the printed form of what it names.
impl Json for Member {
    ghost value = { λ m. string (member_text m) };

    ghost most = { λ m. string_most 70 };

    #[tactic(auto, unfolding(crate::specs::JsonText::json_text, crate::specs::JsonText::quoted_json))]
    fn put<S: Sink>(&self, sink: &mut S) -> Result<(), WriteFailed> {
        match self {
            Member::Port(name) => put_joined(sink, &[b"wwpn=".as_slice(), &name.letters()]),
            Member::Node(name) => put_joined(sink, &[b"wwnn=".as_slice(), &name.letters()]),
            Member::Place(place) => put_place(sink, *place),
            Member::Address(address) => put_joined(sink, &[b"id=".as_slice(), &address.letters()]),
            Member::Alias(name) => put_joined(sink, &[b"alias=".as_slice(), name.as_bytes()]),
        }
    }
}

/// Puts a place as a member.
fn put_place<S: Sink>(sink: &mut S, place: Place) -> Result<(), WriteFailed>
    ensures text { Takes S.took S.cut sink.old (quoted_json (codes "dp=" ++ place_text place))
        sink.new result }
    ensures short { length (codes "dp=" ++ place_text place) ≤ 70 }
{
    let mut domain = Buffer::new();
    let mut slot = Buffer::new();
    let texts = [
        b"dp=".as_slice(),
        domain.format(place.domain()).as_bytes(),
        b",".as_slice(),
        slot.format(place.slot()).as_bytes(),
    ];
    put_joined(sink, &texts)
}
