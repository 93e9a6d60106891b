//! Members of zones and aliases.
ghost use Rattle.std.specs.Prelude.{◌≡◌, Some, IfOk, IfErr, OnErr, MatchOption};
ghost use Rattle.std.specs.String.{string_bytes};
ghost use Rattle.fab_names.specs.Members.{SpellsMember, SpellsPrinted, member_text};
ghost use Rattle.fab_names.specs.Faults.{IsMemberFault};
ghost use Rattle.fab_names.specs.declared.member.Member.{Member};

use crate::{Address, Name, NameFault, Place, Wwn};
use std::alloc::{AllocError, Allocator};
use std::fmt;

/// What a zone or an alias names: a port by its N_Port_Name, all ports of a node by its
/// Node_Name, whatever is logged in at a Domain_ID and physical port, all ports of an N_Port_ID, or,
/// in a zone, an alias (FC-GS, zone member types).
///
/// Members are ordered by kind, as listed, and then by number or by name.
#[derive(Clone, Copy, PartialEq, Eq, PartialOrd, Ord)]
pub enum Member {
    /// The port of this N_Port_Name.
    Port(Wwn),
    /// Every port of this Node_Name.
    Node(Wwn),
    /// Every port that is logged in here.
    Place(Place),
    /// Every port that has this address.
    Address(Address),
    /// The members of the alias.
    Alias(Name),
}

impl Member {
    /// Reads `wwpn=` or `wwnn=` and a world-wide name, `dp=` and a place, `id=` and an address, or
    /// `alias=` and a name.
    ///
    /// # Errors
    /// `BadChar` where the text begins with none of these words, or the fault of what follows.
    pub fn read(text: &str) -> Result<Member, NameFault>
        ensures ok { IfOk result (SpellsMember text.now) }
        ensures err { OnErr result ((member : Member) → ¬ SpellsMember text.now member) }
        ensures fault { IfErr result (IsMemberFault text.now) }
    {
        let Some((kind, value)) = text.split_once('=') else {
            return Err(NameFault::BadChar);
        };
        match kind {
            "wwpn" => Wwn::read(value).map(Member::Port),
            "wwnn" => Wwn::read(value).map(Member::Node),
            "dp" => Place::read(value).map(Member::Place),
            "id" => Address::read(value).map(Member::Address),
            "alias" => Name::read(value).map(Member::Alias),
            _ => Err(NameFault::BadChar),
        }
    }

    /// Reads the printed form of a member, and no other. It takes no memory.
    pub fn read_printed(text: &str) -> Option<Member>
        ensures { MatchOption result ((member : Member) → ¬ SpellsPrinted text.now member) (SpellsPrinted text.now) }
    {
        let Some((kind, value)) = text.split_once('=') else {
            return None;
        };
        match kind {
            "wwpn" => Wwn::read_printed(value).map(Member::Port),
            "wwnn" => Wwn::read_printed(value).map(Member::Node),
            "dp" => Place::read_printed(value).map(Member::Place),
            "id" => Address::read_printed(value).map(Member::Address),
            "alias" => Name::read(value).ok().map(Member::Alias),
            _ => None,
        }
    }

    /// The printed form: the word of the kind, `=`, and the printed form of what follows.
    ///
    /// # Errors
    /// `AllocError` where there is no memory.
    pub fn print<A: Allocator>(&self, alloc: A) -> Result<String<A>, AllocError>
        ensures { IfOk result (λ text. string_bytes text ≡ member_text self.now) }
    {
        self.to_string(alloc)
    }
}

impl fmt::Display for Member {
    ghost output = { λ member. Some (member_text member) };

    fn fmt<W: fmt::Write>(&self, f: &mut fmt::Formatter<W>) -> fmt::Result {
        match self {
            Member::Port(name) => write!(f, "wwpn={name}"),
            Member::Node(name) => write!(f, "wwnn={name}"),
            Member::Place(place) => write!(f, "dp={place}"),
            Member::Address(address) => write!(f, "id={address}"),
            Member::Alias(name) => write!(f, "alias={name}"),
        }
    }
}
