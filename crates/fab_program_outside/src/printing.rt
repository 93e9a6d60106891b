//! Texts that are printed to standard output.
ghost use Rattle.std.specs.Prelude.{◌≡◌};
ghost use Rattle.fab_program_outside.specs.Printing.{Prints, fault_of_printing};

use crate::faults::Fault;
use fab_files_base::{End, PrintFault, Printable, print_text};
use std::alloc::Global;
use std::io::Write;

/// The fault of a text that is not printed.
pub fn of_printing(fault: PrintFault) -> Fault
    ensures { result ≡ fault_of_printing fault }
{
    match fault {
        PrintFault::Memory => Fault::Memory,
        PrintFault::Stream => Fault::Stream,
    }
}

/// Prints a text, with which a command ends so. The writer is handed back, and has just that text.
///
/// # Errors
/// `Stream` where the writer failed; `Memory`.
pub fn print_as<W: Write + Drop, T: Printable>(
    alloc: Global,
    writer: W,
    text: &T,
    end: End,
) -> Result<(W, End), Fault>
    ensures { Prints W.contents writer (T.text text.now) end result }
{
    match print_text(alloc, writer, text) {
        Ok(writer) => Ok((writer, end)),
        Err(fault) => Err(of_printing(fault)),
    }
}
