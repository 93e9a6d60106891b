//! The lines of a file, played one after the other.

use super::asking::answer;
use super::making::Making;
use crate::{Fault, Tally};
use fab_policy::Policy;
use fab_policy_text::ReadPolicy;
use std::alloc::Global;

/// Who asks: a caller who has every tenant, and one who has the tenant `blue` alone. The token of each
/// is the word by which the lines name them.
const POLICY: &str = r#"
[[callers]]
name = "all"
token = "all"
roles = []
tenants = "*"

[[callers]]
name = "blue"
token = "blue"
roles = []
tenants = ["blue"]
"#;

/// Whether the caller of a line is told what it says; what differs is printed.
fn is_told(
    rt: &HostRuntime,
    policy: &Policy,
    making: &Making,
    place: (&str, usize),
    word: &str,
    text: &str,
) -> Option<bool> {
    let (asked, wanted) = text.split_once(" = ")?;
    let told = answer(rt.alloc(), policy, &making.world, word, asked)?;
    if told.as_str() == wanted {
        return Some(true);
    }
    let (file, number) = place;
    println!(rt; "{file}, line {number}: {word} {asked}: {told}").ok()?;
    Some(false)
}

/// Plays a line, and says of a look whether it is as expected.
fn play_line(
    rt: &HostRuntime,
    policy: &Policy,
    making: &mut Making,
    place: (&str, usize),
    line: &str,
) -> Option<Option<bool>> {
    let (word, text) = line.split_once(' ').unwrap_or((line, ""));
    match word {
        "#" => Some(None),
        "world" => {
            *making = Making::new(rt.alloc());
            Some(None)
        }
        "why" | "who" | "pairs" | "by" => Some(Some(is_told(
            rt, policy, making, place, word, text,
        )?)),
        _ => {
            making.make(word, text)?;
            Some(None)
        }
    }
}

/// The policy of those who ask.
fn policy(alloc: Global) -> Option<Policy> {
    Policy::read(alloc, POLICY).ok()
}

/// Plays the lines of a file's text, and counts the looks.
///
/// # Errors
/// `Memory` and `Undone` say where it ends, and why. What differed before that was printed.
pub fn play(rt: &HostRuntime, file: &str, text: &str) -> Result<Tally, Fault> {
    let Some(policy) = policy(rt.alloc()) else {
        return Err(Fault::Memory);
    };
    let mut making = Making::new(rt.alloc());
    let mut tally = Tally::new();
    for (place, line) in text.lines().enumerate() {
        let number = place.saturating_add(1);
        match play_line(rt, &policy, &mut making, (file, number), line) {
            Some(Some(is_right)) => tally.count(is_right),
            Some(None) => {}
            None => return Err(Fault::Undone(number)),
        }
    }
    Ok(tally)
}
