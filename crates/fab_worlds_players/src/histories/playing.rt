//! The lines of a file, played one after the other.

use super::answers::{Answer, first_scarce, loading, word_of};
use super::making::{begin, hold, no_rows, put_config, put_plan, put_volume, row_of};
use crate::{Fault, Tally};
use fab_inventory::HolderKind;
use fab_store_rows::{ConfigRow, TableRows};
use fab_test_alloc::Refusing;
use std::alloc::Global;

/// The rows that are known by number.
type Known = Vec<ConfigRow, Global>;

/// Does what a line says that is no question.
fn make<'a>(
    heap: &'a Refusing<Global>,
    known: &[ConfigRow],
    tables: &mut TableRows<&'a Refusing<Global>>,
    word: &str,
    text: &str,
) -> Option<()> {
    match word {
        "host" => hold(tables, HolderKind::Host, text),
        "array" => hold(tables, HolderKind::Array, text),
        "volume" => put_volume(tables, text),
        "now" => put_config(tables, known, text),
        "plan" => put_plan(heap, tables, known, text),
        "history" => {
            begin(tables);
            Some(())
        }
        _ => None,
    }
}

/// The answer of a word.
fn wanted_of(word: &str) -> Option<Answer> {
    match word {
        "opens" => Some(Answer::Opens),
        "undo" => Some(Answer::Undo),
        _ => None,
    }
}

/// The answer that is not as the line says, if one is.
fn odd_answer<'a>(
    heap: &'a Refusing<Global>,
    tables: &TableRows<&'a Refusing<Global>>,
    word: &str,
    text: &str,
) -> Option<Option<Answer>> {
    if word == "scarce" {
        return Some(first_scarce(heap, tables, wanted_of(text)?));
    }
    let wanted = wanted_of(word)?;
    let found = loading(heap, tables);
    Some((found != wanted).then_some(found))
}

/// Whether what is answered is as the line says; what differs is printed.
fn is_told<'a>(
    rt: &HostRuntime,
    heap: &'a Refusing<Global>,
    tables: &TableRows<&'a Refusing<Global>>,
    place: (&str, usize),
    line: (&str, &str),
) -> Option<bool> {
    let Some(odd) = odd_answer(heap, tables, line.0, line.1)? else {
        return Some(true);
    };
    let (file, number) = place;
    let word = word_of(odd);
    println!(rt; "{file}, line {number}: {word}").ok()?;
    Some(false)
}

/// Plays a line, and says of a question whether its answer is as expected.
fn play_line<'a>(
    rt: &HostRuntime,
    heap: &'a Refusing<Global>,
    known: &mut Known,
    tables: &mut TableRows<&'a Refusing<Global>>,
    place: (&str, usize),
    line: &str,
) -> Option<Option<bool>> {
    let (word, text) = line.split_once(' ').unwrap_or((line, ""));
    match word {
        "#" => Some(None),
        "row" => {
            known.push(row_of(rt.alloc(), text)?).ok()?;
            Some(None)
        }
        "opens" | "undo" | "scarce" => {
            Some(Some(is_told(rt, heap, tables, place, (word, text))?))
        }
        _ => {
            make(heap, known.as_slice(), tables, word, text)?;
            Some(None)
        }
    }
}

/// Plays the lines of a file's text, with memory from this heap, and counts the histories.
fn play_lines(
    rt: &HostRuntime,
    heap: &Refusing<Global>,
    file: &str,
    text: &str,
) -> Result<Tally, Fault> {
    let mut known = Vec::new(rt.alloc());
    let Some(mut tables) = no_rows(heap) else {
        return Err(Fault::Memory);
    };
    let mut tally = Tally::new();
    for (place, line) in text.lines().enumerate() {
        let number = place.saturating_add(1);
        match play_line(rt, heap, &mut known, &mut tables, (file, number), line) {
            Some(Some(is_right)) => tally.count(is_right),
            Some(None) => {}
            None => return Err(Fault::Undone(number)),
        }
    }
    Ok(tally)
}

/// Plays the lines of a file's text, and counts the histories.
///
/// # Errors
/// `Memory` and `Undone` say where it ends, and why. What differed before that was printed.
pub fn play(rt: &HostRuntime, file: &str, text: &str) -> Result<Tally, Fault> {
    let heap = Refusing::new(rt.alloc());
    play_lines(rt, &heap, file, text)
}
