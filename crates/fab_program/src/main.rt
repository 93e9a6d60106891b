//! `sandesk`: a change desk for SAN zoning and volume mapping, over HTTP. It is started here, with the words,
//! the clock and the standard streams of the machine.
#![tactic(auto)]

mod looks;
mod running;
mod starting;
#[cfg(test)]
mod tests;
mod tries;

use starting::start;
use std::process::ExitCode;

fn main(rt: HostRuntime) -> ExitCode {
    ExitCode::from(start(&rt))
}
