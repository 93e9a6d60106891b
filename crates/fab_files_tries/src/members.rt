//! Rows that end with a member.
ghost use Rattle.std.specs.Prelude.{◌++◌, codes};
ghost use Rattle.fab_files_tries.specs.Rows.{in_form, member_row, worded_row};
ghost use Rattle.fab_names.specs.WorldWideNames.{wwn_text};
ghost use Rattle.fab_names.specs.declared.member.Member.TheVariants as member;
ghost use Rattle.fab_wire_streams.specs.Taking.{Takes};

use crate::rows::{TextForm, put_pieces};
use fab_names::{Address, Member, Name, Place, Wwn};
use fab_wire_streams::sink::Sink;
use fab_wire_streams::streams::WriteFailed;
use itoa::Buffer;

/// Puts a row that ends with a member: a table and a space, a fabric, a kind between spaces, a name, a
/// space and the member.
#[tactic(auto, unfolding(crate::specs::Rows::member_row, crate::specs::Rows::worded_row))]
pub fn put_member<S: Sink>(
    sink: &mut S,
    form: TextForm,
    table: &str,
    fabric: &str,
    kind: &str,
    name: &Name,
    member: &Member,
) -> Result<(), WriteFailed>
    ensures { Takes S.took S.cut sink.old (in_form form (member_row table.now fabric.now kind.now name.now member.now)) sink.new result }
{
    match member {
        Member::Port(port) => put_wwn(sink, form, table, fabric, kind, name, "wwpn=", *port),
        Member::Node(node) => put_wwn(sink, form, table, fabric, kind, name, "wwnn=", *node),
        Member::Place(place) => put_placed(sink, form, table, fabric, kind, name, *place),
        Member::Address(address) => put_address(sink, form, table, fabric, kind, name, *address),
        Member::Alias(alias) => put_worded(
            sink,
            form,
            table,
            fabric,
            kind,
            name,
            "alias=",
            alias.as_bytes(),
        ),
    }
}

/// Puts a row that ends with a word and a world-wide name.
fn put_wwn<S: Sink>(
    sink: &mut S,
    form: TextForm,
    table: &str,
    fabric: &str,
    kind: &str,
    name: &Name,
    word: &str,
    wwn: Wwn,
) -> Result<(), WriteFailed>
    ensures { Takes S.took S.cut sink.old (in_form form (worded_row table.now fabric.now kind.now name.now word.now (wwn_text wwn))) sink.new result }
{
    let letters = wwn.letters();
    put_worded(sink, form, table, fabric, kind, name, word, &letters)
}

/// Puts a row that ends with an address.
#[tactic(auto, unfolding(crate::specs::Rows::member_row, crate::specs::Rows::worded_row))]
fn put_address<S: Sink>(
    sink: &mut S,
    form: TextForm,
    table: &str,
    fabric: &str,
    kind: &str,
    name: &Name,
    address: Address,
) -> Result<(), WriteFailed>
    ensures { Takes S.took S.cut sink.old (in_form form (member_row table.now fabric.now kind.now name.now (member.Address address))) sink.new result }
{
    let letters = address.letters();
    put_worded(sink, form, table, fabric, kind, name, "id=", &letters)
}

/// Puts a row that ends with a word and a text.
fn put_worded<S: Sink>(
    sink: &mut S,
    form: TextForm,
    table: &str,
    fabric: &str,
    kind: &str,
    name: &Name,
    word: &str,
    text: &[u8],
) -> Result<(), WriteFailed>
    ensures { Takes S.took S.cut sink.old (in_form form (worded_row table.now fabric.now kind.now name.now word.now text.now)) sink.new result }
{
    let texts = [
        table.as_bytes(),
        fabric.as_bytes(),
        kind.as_bytes(),
        name.as_bytes(),
        b" ".as_slice(),
        word.as_bytes(),
        text,
    ];
    put_pieces(sink, form, &texts)
}

/// Puts a row that ends with the digits of a place.
fn put_digits<S: Sink>(
    sink: &mut S,
    form: TextForm,
    table: &str,
    fabric: &str,
    kind: &str,
    name: &Name,
    domain: &[u8],
    slot: &[u8],
) -> Result<(), WriteFailed>
    ensures { Takes S.took S.cut sink.old (in_form form (worded_row table.now fabric.now kind.now name.now (codes "dp=") (domain.now ++ (codes "," ++ slot.now)))) sink.new result }
{
    let texts = [
        table.as_bytes(),
        fabric.as_bytes(),
        kind.as_bytes(),
        name.as_bytes(),
        b" dp=".as_slice(),
        domain,
        b",".as_slice(),
        slot,
    ];
    put_pieces(sink, form, &texts)
}

/// Puts a row that ends with a place.
#[tactic(auto, unfolding(crate::specs::Rows::member_row, crate::specs::Rows::worded_row))]
fn put_placed<S: Sink>(
    sink: &mut S,
    form: TextForm,
    table: &str,
    fabric: &str,
    kind: &str,
    name: &Name,
    place: Place,
) -> Result<(), WriteFailed>
    ensures { Takes S.took S.cut sink.old (in_form form (member_row table.now fabric.now kind.now name.now (member.Place place))) sink.new result }
{
    let mut domain = Buffer::new();
    let mut slot = Buffer::new();
    put_digits(
        sink,
        form,
        table,
        fabric,
        kind,
        name,
        domain.format(place.domain()).as_bytes(),
        slot.format(place.slot()).as_bytes(),
    )
}
