//! The start of the program on this machine.
ghost use Rattle.fab_program.specs.Exits.{IsExitStatus};

use crate::running::run;
use fab_program_outside::{fail, open_standard, refuse_args, seconds, words_of};
use fab_wire_streams::counted::Counted;
use std::io;

/// Runs the program with the words, the clock, the standard streams and the files of this machine, and
/// gives the exit status.
pub fn start(rt: &HostRuntime) -> u8
    ensures { IsExitStatus result }
{
    if let Err(fault) = open_standard(rt) {
        return fail(&mut Counted::new(rt.stderr()), fault);
    }
    match words_of(rt) {
        Ok(words) => run(
            rt,
            words.as_slice(),
            || seconds(rt),
            rt.reader(),
            io::writer(rt),
            &mut rt.stderr(),
        ),
        Err(fault) => refuse_args(&mut Counted::new(rt.stderr()), fault),
    }
}
