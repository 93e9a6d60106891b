//! Why a host reaches a volume or does not, as texts.
ghost use Rattle.std.specs.Prelude.{◌≡◌};
ghost use Rattle.fab_files_looks.specs.Ways as ways;
ghost use Rattle.fab_files_looks.specs.Ways.{found_line, found_lines, missing_data, no_line, path_line, path_lines, reaches_data, way_json, way_text, yes_line};
ghost use Rattle.fab_looks.specs.declared.explaining.Why.TheVariants.{Missing, Reaches};
ghost use Rattle.fab_wire_streams.specs.JsonText.{json_text};
ghost use Rattle.fab_wire_streams.specs.Taking.{Takes};

use crate::lines::put_row;
use crate::pairs::put_pairs;
use crate::pieces::Pieces;
use crate::words::{link_word, missing_words};
use fab_desk_base::Shown;
use fab_files_base::Printable;
use fab_inventory::HolderKind;
use fab_looks::{Link, Why, count_at};
use fab_looks_ways::Pair;
use fab_names::{Fabric, Name};
use fab_reach_base::Path;
use fab_wire_answers::parts::Parts;
use fab_wire_streams::object;
use fab_wire_streams::sink::{Sink, put_all};
use fab_wire_streams::streams::WriteFailed;
use fab_wire_streams::values::{Json, Text};
use itoa::Buffer;
use std::alloc::Allocator;

/// Why a host reaches a volume or does not, as JSON: an object, and a line feed.
#[derive(Clone, Copy)]
pub struct WayJson<'w, A: Allocator + Copy> {
    /// The name of the host.
    pub host: Name,
    /// The name of the volume.
    pub volume: Name,
    /// The answer.
    pub why: &'w Why<A>,
    /// What reads show of the way.
    pub found: &'w [Shown<A>],
    /// The pairs of ports.
    pub pairs: &'w [Pair],
}

impl<A: Allocator + Copy> Printable for WayJson<'_, A> {
    ghost text = { λ w. way_json w.host w.volume w.why.now w.found.now w.pairs.now };

    fn put<S: Sink>(&self, sink: &mut S) -> Result<(), WriteFailed> {
        let Ok(()) = put_data(
            sink,
            self.host,
            self.volume,
            self.why,
            self.found,
            self.pairs,
        ) else {
            return Err(WriteFailed);
        };
        sink.take(b"\n")
    }
}

/// Puts the object.
fn put_data<S: Sink, A: Allocator + Copy>(
    sink: &mut S,
    host: Name,
    volume: Name,
    why: &Why<A>,
    found: &[Shown<A>],
    pairs: &[Pair],
) -> Result<(), WriteFailed>
    ensures { Takes S.took S.cut sink.old (json_text (ways.way_data host volume why.now found.now pairs.now)) sink.new result }
{
    match why {
        Why::Reaches(paths) => put_reaches(sink, host, volume, paths.as_slice(), found, pairs),
        Why::Missing(link) => put_missing(sink, host, volume, *link, found, pairs),
    }
}

/// Puts the object of a host that reaches a volume.
fn put_reaches<S: Sink, A: Allocator + Copy>(
    sink: &mut S,
    host: Name,
    volume: Name,
    paths: &[Path],
    found: &[Shown<A>],
    pairs: &[Pair],
) -> Result<(), WriteFailed>
    ensures { Takes S.took S.cut sink.old (json_text (reaches_data host volume paths.now found.now pairs.now)) sink.new result }
{
    object! {
        "found": Parts(found),
        "host": host,
        "pairs": Pieces(pairs),
        "paths": Parts(paths),
        "reaches": true,
        "volume": volume
    }
    .put(sink)
}

/// Puts the object of a host that does not reach a volume.
fn put_missing<S: Sink, A: Allocator + Copy>(
    sink: &mut S,
    host: Name,
    volume: Name,
    link: Link,
    found: &[Shown<A>],
    pairs: &[Pair],
) -> Result<(), WriteFailed>
    ensures { Takes S.took S.cut sink.old (json_text (missing_data host volume link found.now pairs.now)) sink.new result }
{
    object! {
        "found": Parts(found),
        "host": host,
        "missing": Text(link_word(link)),
        "pairs": Pieces(pairs),
        "reaches": false,
        "volume": volume
    }
    .put(sink)
}

/// Why a host reaches a volume or does not, in words: a line for each thing of the way that a read
/// shows, a line for each pair of ports, a line for each path, and the answer.
#[derive(Clone, Copy)]
pub struct WayText<'w, A: Allocator + Copy> {
    /// The answer.
    pub why: &'w Why<A>,
    /// What reads show of the way.
    pub found: &'w [Shown<A>],
    /// The pairs of ports.
    pub pairs: &'w [Pair],
}

impl<A: Allocator + Copy> Printable for WayText<'_, A> {
    ghost text = { λ w. way_text w.why.now w.found.now w.pairs.now };

    fn put<S: Sink>(&self, sink: &mut S) -> Result<(), WriteFailed> {
        let Ok(()) = put_found(sink, self.found) else {
            return Err(WriteFailed);
        };
        let Ok(()) = put_pairs(sink, self.pairs) else {
            return Err(WriteFailed);
        };
        put_answer(sink, self.why)
    }
}

/// What reads show, in words: a line for each thing.
#[derive(Clone, Copy)]
pub struct FoundText<'w, A: Allocator + Copy>(pub &'w [Shown<A>]);

impl<A: Allocator + Copy> Printable for FoundText<'_, A> {
    ghost text = { λ t. found_lines t.0.now };

    fn put<S: Sink>(&self, sink: &mut S) -> Result<(), WriteFailed> {
        put_found(sink, self.0)
    }
}

/// Puts a line for each thing that a read shows.
fn put_found<S: Sink, A: Allocator + Copy>(
    sink: &mut S,
    found: &[Shown<A>],
) -> Result<(), WriteFailed>
    ensures { Takes S.took S.cut sink.old (found_lines found.now) sink.new result }
{
    for shown in found {
        let Ok(()) = put_labelled(sink, shown) else {
            return Err(WriteFailed);
        };
    }
    Ok(())
}

/// Puts the line of what a read shows behind the word of its kind.
fn put_labelled<S: Sink, A: Allocator + Copy>(
    sink: &mut S,
    shown: &Shown<A>,
) -> Result<(), WriteFailed>
    ensures { Takes S.took S.cut sink.old (found_line shown.now) sink.new result }
{
    let Ok(()) = sink.take(label_of(shown).as_bytes()) else {
        return Err(WriteFailed);
    };
    put_row(sink, shown)
}

/// The word of what a read shows, and a space.
fn label_of<A: Allocator + Copy>(shown: &Shown<A>) -> &'static str
    ensures { result.now ≡ ways.label_of shown.now }
{
    match shown {
        Shown::Holder(holder) => label_of_holder(holder.kind),
        Shown::Port { .. } => "port ",
        Shown::Volume { .. } => "volume ",
        Shown::Group(_) => "group ",
        Shown::Members { .. } => "zone ",
        _ => "",
    }
}

/// The word of a host or an array, and a space.
fn label_of_holder(kind: HolderKind) -> &'static str
    ensures { result.now ≡ ways.label_of_holder kind }
{
    match kind {
        HolderKind::Host => "host ",
        HolderKind::Array => "array ",
    }
}

/// Puts the paths and the last line.
fn put_answer<S: Sink, A: Allocator + Copy>(sink: &mut S, why: &Why<A>) -> Result<(), WriteFailed>
    ensures { Takes S.took S.cut sink.old (ways.answer_text why.now) sink.new result }
{
    match why {
        Why::Reaches(paths) => put_yes(sink, paths.as_slice()),
        Why::Missing(link) => put_no(sink, *link),
    }
}

/// Puts a line for each path, and how many there are.
fn put_yes<S: Sink>(sink: &mut S, paths: &[Path]) -> Result<(), WriteFailed>
    ensures { Takes S.took S.cut sink.old (ways.yes_text paths.now) sink.new result }
{
    let Ok(()) = put_paths(sink, paths) else {
        return Err(WriteFailed);
    };
    put_count(sink, paths)
}

/// Puts a line for each path.
fn put_paths<S: Sink>(sink: &mut S, paths: &[Path]) -> Result<(), WriteFailed>
    ensures { Takes S.took S.cut sink.old (path_lines paths.now) sink.new result }
{
    for path in paths {
        let Ok(()) = put_path(sink, path) else {
            return Err(WriteFailed);
        };
    }
    Ok(())
}

/// Puts the line of a path: its fabric, its ports, and the logical unit number.
fn put_path<S: Sink>(sink: &mut S, path: &Path) -> Result<(), WriteFailed>
    ensures { Takes S.took S.cut sink.old (path_line path.now) sink.new result }
{
    let mut digits = Buffer::new();
    let texts = [
        b"path ".as_slice(),
        path.fabric.as_str().as_bytes(),
        b" ".as_slice(),
        &path.initiator.letters(),
        b" -> ".as_slice(),
        &path.target.letters(),
        b" unit ".as_slice(),
        digits.format(path.unit).as_bytes(),
        b"\n".as_slice(),
    ];
    put_all(sink, &texts)
}

/// The word for so many paths, and what stands before the count at the first fabric.
fn paths_word(count: usize) -> &'static str
    ensures { result.now ≡ ways.paths_word count }
{
    if count == 1 {
        " path: A "
    } else {
        " paths: A "
    }
}

/// Puts the last line of a host that reaches a volume by these paths: how many there are, and how many of
/// them at each fabric.
fn put_count<S: Sink>(sink: &mut S, paths: &[Path]) -> Result<(), WriteFailed>
    ensures { Takes S.took S.cut sink.old (yes_line paths.now) sink.new result }
{
    let (mut digits, mut at_a, mut at_b) = (Buffer::new(), Buffer::new(), Buffer::new());
    let texts = [
        b"YES  ".as_slice(),
        digits.format(paths.len()).as_bytes(),
        paths_word(paths.len()).as_bytes(),
        at_a.format(count_at(paths, Fabric::A)).as_bytes(),
        b", B ".as_slice(),
        at_b.format(count_at(paths, Fabric::B)).as_bytes(),
        b"\n".as_slice(),
    ];
    put_all(sink, &texts)
}

/// Puts the last line of a host that does not reach a volume.
fn put_no<S: Sink>(sink: &mut S, link: Link) -> Result<(), WriteFailed>
    ensures { Takes S.took S.cut sink.old (no_line link) sink.new result }
{
    let texts = [
        b"NO  ".as_slice(),
        missing_words(link).as_bytes(),
        b"\n".as_slice(),
    ];
    put_all(sink, &texts)
}
