//! Plays recorded exchanges: requests, the moments at which they come, and the bytes by which a desk has
//! to answer them. Its words name the files, which lie in `data/`:
//!
//! - `rows.txt`, the worked requests; `limits.txt`, limits of names, sets, groups and parts, at each and
//!   past it; `tenants.txt`, approval by each touched tenant; `scenarios.txt` and
//!   `scenarios_addresses.txt`, forty random scenarios of sixty requests each: made by an independent
//!   reference from the definitions;
//! - `steps.txt`, ports, holders, zoning and mapping step by step; `plans.txt`, plans and their texts,
//!   bodies, verdicts; `requests.txt`, tokens, port lists, inputs that end early, values as JSON;
//!   `addresses.txt`, members by address; `ports.txt`, a list of as many ports as may be known and one of
//!   a port more; `more.txt`, other cases: answers that were written by hand;
//! - `tables.txt`, stories of a desk's tables: somebody else changes them, and a desk is opened over them or
//!   not; they are migrated, made, and looked at: values that were written by hand from the definitions;
//! - `worlds.txt`, worlds with what two callers are told of each pair of a host and a volume, and of each
//!   volume; `histories.txt`, configurations with the changes of the activations in force, and whether a
//!   desk opens with them: made from the definitions by scripts. They are no exchanges:
//!   `fab_worlds_players` plays them, and tells their form and how what differs is told.
//!
//! None is made by the desk itself. Nothing here is part of the product.
//!
//! Each scenario of exchanges is played by a new desk in memory in each of eight ways: each request is
//! read whole; byte by byte; behind others of which a read fails, of which nothing comes; with an answer
//! that breaks off, or that nobody takes, though the desk has acted; all of them as one list; by a desk whose
//! book asks about every pair of ports, which has to answer as the other; and each by a desk that is opened
//! anew over the tables, which have to have what was answered before. A story of tables is played in the first
//! way alone. For each file a line says how many answers are as recorded. The form of a file of exchanges is told in
//! `texts` of `fab_worlds_players`; a line that is not of its form ends the player, which tells the file and the
//! line on standard error, with status 3. So does a policy that is none.
//!
//! An answer that differs is told on standard output, beside the one that is recorded, with its line, and the
//! status is 1: `CONTRIBUTING.md` shows how it is read.
//!
//! To add a scenario, write its requests and the answers that the definitions ask for as a list, as
//! `tools/record.py --help` tells, and put the text that it makes at the end of the file that tells of its like.
//! `tools/try_player.py` shows what the player does with a bad text and with an answer that differs.
#![tactic(auto)]

mod connections;
mod desks;
mod playing;
mod rounds;
mod stories;
mod telling;
mod ways;

use fab_wire_base::routes::Routes;
use fab_worlds_players::{Fault, Tally, histories, looks, scenarios_of};
use rounds::play_in_each_way;
use std::process::ExitCode;
use std::{env, fs};

/// Plays a text of exchanges, in each way.
fn play_exchanges(
    rt: &HostRuntime,
    routes: &Routes,
    path: &str,
    text: &str,
) -> Result<Tally, Fault> {
    let scenarios = scenarios_of(rt.alloc(), text)?;
    play_in_each_way(rt, routes, path, scenarios.as_slice())
}

/// Plays the text of a file: worlds and histories by their names, and else exchanges.
fn play_text(rt: &HostRuntime, routes: &Routes, path: &str, text: &str) -> Result<Tally, Fault> {
    match path {
        "worlds.txt" => looks::play(rt, path, text),
        "histories.txt" => histories::play(rt, path, text),
        _ => play_exchanges(rt, routes, path, text),
    }
}

/// Plays a file, says how many answers are as recorded, and tells whether all are.
fn play_file(rt: &HostRuntime, routes: &Routes, path: &str) -> Result<bool, Fault> {
    let Ok(text) = fs::read_to_string(rt, path) else {
        return Err(Fault::File);
    };
    let Tally { right, wrong } = play_text(rt, routes, path, text.as_str())?;
    match println!(rt; "{path}: {right} answers as recorded, {wrong} otherwise") {
        Ok(()) => Ok(wrong == 0),
        Err(_) => Err(Fault::Output),
    }
}

/// Plays the files of these names, and tells whether all is as recorded. A fault ends it, and is told
/// with the name of its file.
fn play_files(rt: &HostRuntime, routes: &Routes, paths: &[String]) -> Option<bool> {
    let mut is_right = true;
    for path in paths {
        match play_file(rt, routes, path.as_str()) {
            Ok(right) => is_right &= right,
            Err(fault) => {
                let _ = eprintln!(rt; "{path}: {fault}");
                return None;
            }
        }
    }
    Some(is_right)
}

/// Plays the files that the words name, behind the program's name.
fn play_words(rt: &HostRuntime) -> Option<bool> {
    let words = env::args(rt).ok()?;
    let paths = words.skip(1).collect::<Vec<String>>(rt.alloc()).ok()?;
    let routes = Routes::new(rt.alloc()).ok()?;
    play_files(rt, &routes, paths.as_slice())
}

fn main(rt: HostRuntime) -> ExitCode {
    match play_words(&rt) {
        Some(true) => ExitCode::from(0),
        Some(false) => ExitCode::from(1),
        None => ExitCode::from(3),
    }
}
