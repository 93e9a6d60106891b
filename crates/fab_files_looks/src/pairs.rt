//! Pairs of ports, and why they may communicate or may not, as texts.
ghost use Rattle.std.specs.Prelude.{length, ◌++◌};
ghost use Rattle.fab_files_looks.specs.Pairs.{apart_data, apart_text, apart_words, before_initiator, before_target, default_data, ends_text, in_text, many_text, pair_data, pair_line, pair_lines, tie_data, tie_text, zone_data, zone_words, zoned_data, zoned_text, zones_data};
ghost use Rattle.fab_wire_streams.specs.JsonText.{json_text};
ghost use Rattle.fab_wire_streams.specs.Taking.{Takes};

use crate::pieces::Piece;
use fab_looks_ways::{Ends, Pair, Tie, Zoned};
use fab_names::Name;
use fab_wire_streams::object;
use fab_wire_streams::sink::{Sink, put_all};
use fab_wire_streams::streams::WriteFailed;
use fab_wire_streams::values::{Json, Text};
use itoa::Buffer;

/// A pair, in a list.
impl Piece for Pair {
    ghost piece_data = { pair_data };

    fn put_piece<S: Sink>(&self, sink: &mut S) -> Result<(), WriteFailed> {
        put_tied(sink, self.ends, self.tie)
    }
}

/// Puts the object of a pair.
fn put_tied<S: Sink>(sink: &mut S, ends: Ends, tie: Tie) -> Result<(), WriteFailed>
    ensures { Takes S.took S.cut sink.old (json_text (tie_data ends tie)) sink.new result }
{
    match tie {
        Tie::Zone(zone) => put_zone(sink, ends, zone),
        Tie::Default => put_default(sink, ends),
        Tie::Apart { initiator, target } => put_apart(sink, ends, initiator, target),
    }
}

/// Puts the object of a pair that a zone joins.
fn put_zone<S: Sink>(sink: &mut S, ends: Ends, zone: Name) -> Result<(), WriteFailed>
    ensures { Takes S.took S.cut sink.old (json_text (zone_data ends zone)) sink.new result }
{
    object! {
        "fabric": ends.fabric,
        "initiator": ends.initiator,
        "joined": true,
        "target": ends.target,
        "why": Text("zone"),
        "zone": zone
    }
    .put(sink)
}

/// Puts the object of a pair that the default zone joins.
fn put_default<S: Sink>(sink: &mut S, ends: Ends) -> Result<(), WriteFailed>
    ensures { Takes S.took S.cut sink.old (json_text (default_data ends)) sink.new result }
{
    object! {
        "fabric": ends.fabric,
        "initiator": ends.initiator,
        "joined": true,
        "target": ends.target,
        "why": Text("default")
    }
    .put(sink)
}

/// Puts the object of a pair that nothing joins.
fn put_apart<S: Sink>(
    sink: &mut S,
    ends: Ends,
    initiator: Zoned,
    target: Zoned,
) -> Result<(), WriteFailed>
    ensures { Takes S.took S.cut sink.old (json_text (apart_data ends initiator target)) sink.new result }
{
    object! {
        "fabric": ends.fabric,
        "initiator": ends.initiator,
        "initiator_zones": Zones(initiator),
        "joined": false,
        "target": ends.target,
        "target_zones": Zones(target)
    }
    .put(sink)
}

/// The zones of a port as JSON: how many there are, and the name of a single one.
#[derive(Clone, Copy)]
struct Zones(Zoned);

impl Json for Zones {
    ghost value = { λ z. zoned_data z.0 };

    ghost most = { λ z. length (json_text (zoned_data z.0)) };

    fn put<S: Sink>(&self, sink: &mut S) -> Result<(), WriteFailed> {
        match self.0 {
            Zoned::Nowhere => put_zones(sink, 0, None),
            Zoned::One(zone) => put_zones(sink, 1, Some(zone)),
            Zoned::Many(count) => put_zones(sink, count as u64, None),
        }
    }
}

/// Puts how many zones there are, and the name of a single one.
fn put_zones<S: Sink>(sink: &mut S, count: u64, zone: Option<Name>) -> Result<(), WriteFailed>
    ensures { Takes S.took S.cut sink.old (json_text (zones_data count zone)) sink.new result }
{
    object! { "count": count, "zone" ? zone }.put(sink)
}

/// Puts a line for each pair.
pub fn put_pairs<S: Sink>(sink: &mut S, pairs: &[Pair]) -> Result<(), WriteFailed>
    ensures { Takes S.took S.cut sink.old (pair_lines pairs.now) sink.new result }
{
    for pair in pairs {
        let Ok(()) = put_pair(sink, pair) else {
            return Err(WriteFailed);
        };
    }
    Ok(())
}

/// Puts the line of a pair: its fabric, its ports, and why they may communicate or may not.
fn put_pair<S: Sink>(sink: &mut S, pair: &Pair) -> Result<(), WriteFailed>
    ensures { Takes S.took S.cut sink.old (pair_line pair.now) sink.new result }
{
    let Ok(()) = put_ends(sink, pair.ends) else {
        return Err(WriteFailed);
    };
    put_tie(sink, pair.tie)
}

/// Puts the fabric and the ports of a pair.
fn put_ends<S: Sink>(sink: &mut S, ends: Ends) -> Result<(), WriteFailed>
    ensures { Takes S.took S.cut sink.old (ends_text ends) sink.new result }
{
    let texts = [
        b"pair ".as_slice(),
        ends.fabric.as_str().as_bytes(),
        b" ".as_slice(),
        &ends.initiator.letters(),
        b" -> ".as_slice(),
        &ends.target.letters(),
    ];
    put_all(sink, &texts)
}

/// Puts why the ports may communicate or may not, and the end of the line.
fn put_tie<S: Sink>(sink: &mut S, tie: Tie) -> Result<(), WriteFailed>
    ensures { Takes S.took S.cut sink.old (tie_text tie) sink.new result }
{
    match tie {
        Tie::Zone(zone) => put_zone_words(sink, &zone),
        Tie::Default => sink.take(b"  default zone\n"),
        Tie::Apart { initiator, target } => put_apart_words(sink, initiator, target),
    }
}

/// Puts that a zone joins the ports.
fn put_zone_words<S: Sink>(sink: &mut S, zone: &Name) -> Result<(), WriteFailed>
    ensures { Takes S.took S.cut sink.old (zone_words zone.now) sink.new result }
{
    let texts = [b"  zone ".as_slice(), zone.as_bytes(), b"\n".as_slice()];
    put_all(sink, &texts)
}

/// Puts that nothing joins the ports, and the zones of each.
fn put_apart_words<S: Sink>(
    sink: &mut S,
    initiator: Zoned,
    target: Zoned,
) -> Result<(), WriteFailed>
    ensures { Takes S.took S.cut sink.old (apart_words initiator target) sink.new result }
{
    let Ok(()) = put_both_zoned(sink, initiator, target) else {
        return Err(WriteFailed);
    };
    sink.take(b"\n")
}

/// Puts the zones of two ports that nothing joins.
fn put_both_zoned<S: Sink>(sink: &mut S, initiator: Zoned, target: Zoned) -> Result<(), WriteFailed>
    ensures { Takes S.took S.cut sink.old (apart_text initiator target) sink.new result }
{
    let Ok(()) = put_of_initiator(sink, initiator) else {
        return Err(WriteFailed);
    };
    put_of_target(sink, target)
}

/// Puts that nothing joins the ports, and the zones of the initiator.
fn put_of_initiator<S: Sink>(sink: &mut S, initiator: Zoned) -> Result<(), WriteFailed>
    ensures { Takes S.took S.cut sink.old (before_initiator ++ zoned_text initiator) sink.new result }
{
    let Ok(()) = put_before_initiator(sink) else {
        return Err(WriteFailed);
    };
    put_zoned(sink, initiator)
}

/// Puts the zones of the target.
fn put_of_target<S: Sink>(sink: &mut S, target: Zoned) -> Result<(), WriteFailed>
    ensures { Takes S.took S.cut sink.old (before_target ++ zoned_text target) sink.new result }
{
    let Ok(()) = put_before_target(sink) else {
        return Err(WriteFailed);
    };
    put_zoned(sink, target)
}

/// Puts what stands before the zones of the initiator.
#[tactic(auto, unfolding(crate::specs::Pairs::before_initiator))]
fn put_before_initiator<S: Sink>(sink: &mut S) -> Result<(), WriteFailed>
    ensures { Takes S.took S.cut sink.old before_initiator sink.new result }
{
    sink.take(b"  NO COMMON ZONE: initiator in ")
}

/// Puts what stands before the zones of the target.
#[tactic(auto, unfolding(crate::specs::Pairs::before_target))]
fn put_before_target<S: Sink>(sink: &mut S) -> Result<(), WriteFailed>
    ensures { Takes S.took S.cut sink.old before_target sink.new result }
{
    sink.take(b"; target in ")
}

/// Puts the zones of a port.
fn put_zoned<S: Sink>(sink: &mut S, zoned: Zoned) -> Result<(), WriteFailed>
    ensures { Takes S.took S.cut sink.old (zoned_text zoned) sink.new result }
{
    match zoned {
        Zoned::Nowhere => sink.take(b"no zone"),
        Zoned::One(zone) => put_in(sink, &zone),
        Zoned::Many(count) => put_many(sink, count),
    }
}

/// Puts the single zone of a port.
fn put_in<S: Sink>(sink: &mut S, zone: &Name) -> Result<(), WriteFailed>
    ensures { Takes S.took S.cut sink.old (in_text zone.now) sink.new result }
{
    let texts = [b"zone ".as_slice(), zone.as_bytes()];
    put_all(sink, &texts)
}

/// Puts how many zones a port has.
fn put_many<S: Sink>(sink: &mut S, count: usize) -> Result<(), WriteFailed>
    ensures { Takes S.took S.cut sink.old (many_text count) sink.new result }
{
    let mut digits = Buffer::new();
    let texts = [digits.format(count).as_bytes(), b" zones".as_slice()];
    put_all(sink, &texts)
}
