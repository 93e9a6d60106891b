//! A file that is checked, and what is printed of it.
ghost use Rattle.std.specs.Prelude.{◌≡◌};
ghost use Rattle.fab_program_checks.specs.Checks.{CheckComes, ChecksBytes, HasModeOf, IsFindingAs, end_of_finding, path_in};
ghost use Rattle.fab_program_checks.specs.Lines.{finding_text};
ghost use Rattle.fab_program_outside.specs.Coming.{After};
ghost use Rattle.fab_program_outside.specs.Printing.{Prints};

use crate::findings::{Finding, find_plan, find_policy, find_ports};
use crate::lines::FindingText;
use crate::modes::Modes;
use fab_files_base::End;
use fab_program_outside::{Fault, Files, bytes_of, print_as};
use fab_program_words::Check;
use std::alloc::Global;
use std::io::Write;

/// The path of the file.
fn path_of<'a>(asked: &Check<'a>) -> &'a str
    ensures { result.now ≡ path_in asked.now }
{
    match asked {
        Check::Policy { path } | Check::Plan { path } | Check::Ports { path } => path,
    }
}

/// The mode of the file, if tokens stand in it.
fn mode_of<O: Modes>(outside: &O, asked: &Check<'_>) -> Option<u32>
    ensures { HasModeOf O.Modes outside.now asked.now result }
{
    match asked {
        Check::Policy { path } => outside.mode(path),
        Check::Plan { .. } | Check::Ports { .. } => None,
    }
}

/// What is found in the bytes of the file.
fn find(alloc: Global, asked: &Check<'_>, bytes: &[u8]) -> Result<Finding, Fault>
    ensures { IsFindingAs asked.now bytes.now result }
{
    match asked {
        Check::Policy { .. } => find_policy(alloc, bytes),
        Check::Plan { .. } => find_plan(alloc, bytes),
        Check::Ports { .. } => find_ports(alloc, bytes),
    }
}

/// How a check ends that finds this: it is done where nothing is wrong.
fn end_of(finding: &Finding) -> End
    ensures { result ≡ end_of_finding finding.now }
{
    match finding {
        Finding::Sound | Finding::Warned(_) => End::Done,
        _ => End::Refused,
    }
}

/// Prints what is found, if that is known.
fn print_found<W: Write + Drop>(
    alloc: Global,
    path: &str,
    mode: Option<u32>,
    found: Result<Finding, Fault>,
    writer: W,
) -> Result<(W, End), Fault>
    ensures { After found (λ f. Prints W.contents writer (finding_text path.now f mode) (end_of_finding f)) result }
{
    match found {
        Ok(finding) => {
            let end = end_of(&finding);
            let text = FindingText {
                path,
                finding: &finding,
                mode,
            };
            print_as(alloc, writer, &text, end)
        }
        Err(fault) => Err(fault),
    }
}

/// Checks the bytes of the file.
fn check_bytes<O: Modes, W: Write + Drop>(
    alloc: Global,
    outside: &O,
    asked: &Check<'_>,
    bytes: &[u8],
    writer: W,
) -> Result<(W, End), Fault>
    ensures { ChecksBytes O.Modes W.contents outside.now asked.now bytes.now writer result }
{
    let mode = mode_of(outside, asked);
    let found = find(alloc, asked, bytes);
    print_found(alloc, path_of(asked), mode, found, writer)
}

/// Checks a file, and prints what is wrong with it, and what is worth a look there. The writer is handed
/// back, and has just that text.
///
/// # Errors
/// `File` where the file is not there, or cannot be opened or read; `Memory`; `Stream` where the writer
/// failed.
pub fn check<O: Files + Modes, W: Write + Drop>(
    alloc: Global,
    outside: &O,
    asked: &Check<'_>,
    writer: W,
) -> Result<(W, End), Fault>
    ensures { CheckComes O.Files O.File.remaining O.Modes W.contents outside.now asked.now writer result }
{
    match bytes_of(alloc, outside, path_of(asked)) {
        Ok(bytes) => check_bytes(alloc, outside, asked, bytes.as_slice(), writer),
        Err(fault) => Err(fault),
    }
}
