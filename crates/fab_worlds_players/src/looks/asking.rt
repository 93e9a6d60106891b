//! What callers are told, as texts.

use super::making::name_of;
use fab_files_looks::link_word;
use fab_looks::{Counts, Why, told, who_told};
use fab_looks_ways::{Ends, Pair, Reacher, Tie, Zoned, pairs_told, reachers_told};
use fab_names::Name;
use fab_policy::{CallerId, Policy};
use fab_reach_base::Path;
use fab_world::World;
use std::alloc::Global;
use std::collections::BTreeMap;

/// The texts of paths, with a space between them.
fn text_of_paths(alloc: Global, paths: &[Path]) -> Option<String> {
    let mut text = String::new(alloc);
    for path in paths {
        if !text.is_empty() {
            text.push(' ').ok()?;
        }
        let Path {
            fabric,
            initiator,
            target,
            unit,
            ..
        } = path;
        write!(text, "{fabric} {initiator} {target} {unit}").ok()?;
    }
    Some(text)
}

/// The text of why a host reaches a volume or does not.
fn text_of_why(alloc: Global, why: &Why<Global>) -> Option<String> {
    match why {
        Why::Reaches(paths) => text_of_paths(alloc, paths),
        Why::Missing(link) => String::from_str(alloc, link_word(*link)).ok(),
    }
}

/// The text of who reaches a volume.
fn text_of_who(alloc: Global, counts: &BTreeMap<Name, Counts, Global>) -> Option<String> {
    let mut text = String::new(alloc);
    for (host, counts) in counts {
        if !text.is_empty() {
            text.push(' ').ok()?;
        }
        write!(text, "{host} {} {}", counts.a, counts.b).ok()?;
    }
    if text.is_empty() {
        text.push_str("nobody").ok()?;
    }
    Some(text)
}

/// What a caller is told of a host and a volume.
fn told_why(
    alloc: Global,
    policy: &Policy,
    world: &World<Global>,
    id: CallerId,
    text: &str,
) -> Option<String> {
    let (host, volume) = text.split_once(' ')?;
    let (host, volume) = (name_of(host)?, name_of(volume)?);
    let why = told(alloc, policy, world, id, &host, &volume).ok()?;
    text_of_why(alloc, &why)
}

/// What a caller is told of a volume.
fn told_who(
    alloc: Global,
    policy: &Policy,
    world: &World<Global>,
    id: CallerId,
    text: &str,
) -> Option<String> {
    let volume = name_of(text)?;
    let counts = who_told(alloc, policy, world, id, &volume).ok()?;
    text_of_who(alloc, &counts)
}

/// The text of the zones of a port.
fn text_of_zoned(alloc: Global, zoned: Zoned) -> Option<String> {
    let mut text = String::new(alloc);
    match zoned {
        Zoned::Nowhere => text.push('0').ok()?,
        Zoned::One(zone) => write!(text, "1:{zone}").ok()?,
        Zoned::Many(count) => write!(text, "{count}").ok()?,
    }
    Some(text)
}

/// Adds why two ports may communicate, or the zones of each.
fn add_tie(alloc: Global, text: &mut String, tie: Tie) -> Option<()> {
    match tie {
        Tie::Zone(zone) => write!(text, "zone {zone}").ok(),
        Tie::Default => text.push_str("default").ok(),
        Tie::Apart { initiator, target } => {
            let initiator = text_of_zoned(alloc, initiator)?;
            let target = text_of_zoned(alloc, target)?;
            write!(text, "apart {initiator} {target}").ok()
        }
    }
}

/// The text of pairs of ports.
fn text_of_pairs(alloc: Global, pairs: &[Pair]) -> Option<String> {
    let mut text = String::new(alloc);
    for pair in pairs {
        if !text.is_empty() {
            text.push_str(", ").ok()?;
        }
        let Ends {
            fabric,
            initiator,
            target,
        } = pair.ends;
        write!(text, "{fabric} {initiator} {target} ").ok()?;
        add_tie(alloc, &mut text, pair.tie)?;
    }
    if text.is_empty() {
        text.push_str("none").ok()?;
    }
    Some(text)
}

/// Adds logical unit numbers with commas between, or `-`.
fn add_units(text: &mut String, units: &[u16]) -> Option<()> {
    let mut mark = "";
    for unit in units {
        write!(text, "{mark}{unit}").ok()?;
        mark = ",";
    }
    if units.is_empty() {
        text.push('-').ok()?;
    }
    Some(())
}

/// Adds names with commas between, or `-`.
fn add_names(text: &mut String, names: &[Name]) -> Option<()> {
    let mut mark = "";
    for name in names {
        write!(text, "{mark}{name}").ok()?;
        mark = ",";
    }
    if names.is_empty() {
        text.push('-').ok()?;
    }
    Some(())
}

/// The text of hosts with their tenants, and by what they reach a volume.
fn text_of_reachers(alloc: Global, reachers: &[Reacher<Global>]) -> Option<String> {
    let mut text = String::new(alloc);
    for reacher in reachers {
        if !text.is_empty() {
            text.push_str(", ").ok()?;
        }
        write!(text, "{} {} ", reacher.host, reacher.tenant).ok()?;
        add_units(&mut text, &reacher.units)?;
        text.push(' ').ok()?;
        add_names(&mut text, &reacher.groups)?;
    }
    if text.is_empty() {
        text.push_str("nobody").ok()?;
    }
    Some(text)
}

/// The pairs of ports that a caller is told of a host and a volume.
fn told_pairs(
    alloc: Global,
    policy: &Policy,
    world: &World<Global>,
    id: CallerId,
    text: &str,
) -> Option<String> {
    let (host, volume) = text.split_once(' ')?;
    let (host, volume) = (name_of(host)?, name_of(volume)?);
    let pairs = pairs_told(alloc, policy, world, id, &host, &volume).ok()?;
    text_of_pairs(alloc, &pairs)
}

/// By what hosts reach a volume, as a caller is told.
fn told_by(
    alloc: Global,
    policy: &Policy,
    world: &World<Global>,
    id: CallerId,
    text: &str,
) -> Option<String> {
    let volume = name_of(text)?;
    let reachers = reachers_told(alloc, policy, world, id, &volume).ok()?;
    text_of_reachers(alloc, &reachers)
}

/// What a caller is told who asks so, by the word of the look, and the caller before what is asked of.
pub fn answer(
    alloc: Global,
    policy: &Policy,
    world: &World<Global>,
    word: &str,
    text: &str,
) -> Option<String> {
    let (caller, of) = text.split_once(' ')?;
    let id = policy.caller(caller)?;
    match word {
        "why" => told_why(alloc, policy, world, id, of),
        "pairs" => told_pairs(alloc, policy, world, id, of),
        "by" => told_by(alloc, policy, world, id, of),
        _ => told_who(alloc, policy, world, id, of),
    }
}
