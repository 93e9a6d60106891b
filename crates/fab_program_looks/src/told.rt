//! What a caller is told, printed.
ghost use Rattle.std.specs.Prelude.{◌≡◌};
ghost use Rattle.fab_files.specs.Printed.{json_line};
ghost use Rattle.fab_files_base.specs.declared.printing.End.TheVariants.{Done, Refused};
ghost use Rattle.fab_program_outside.specs.Printing.{Prints};
ghost use Rattle.fab_program_looks.specs.Told as telling;
ghost use Rattle.fab_program_looks.specs.Told.{import_output, plan_output, refused_with};

use fab_desk_base::{DeskFault, Reply};
use fab_files::{Form, print};
use fab_files_base::End;
use fab_files_tries::looks_tries::{TriedImport, TriedPlan};
use fab_files_tries::{ImportJson, ImportText, PlanJson, PlanText, is_over};
use fab_program_outside::{Fault, of_printing, print_as};
use fab_wire_answers::answers::Answer;
use fab_wire_base::requests::Refusal;
use std::alloc::Global;
use std::io::Write;

/// Prints a refusal, as the desk answers it.
pub fn print_refusal<W: Write + Drop>(
    alloc: Global,
    writer: W,
    fault: DeskFault,
) -> Result<(W, End), Fault>
    ensures { Prints W.contents writer (json_line (refused_with fault)) Refused result }
{
    let answer = Answer::Replied(Reply::Refused(fault));
    match print(alloc, writer, Form::Json, &answer) {
        Ok(printed) => Ok(printed),
        Err(fault) => Err(of_printing(fault)),
    }
}

/// Prints a refusal of bytes, as the desk answers it.
pub fn print_unread<W: Write + Drop>(
    alloc: Global,
    writer: W,
    refusal: Refusal,
) -> Result<(W, End), Fault>
    ensures { Prints W.contents writer (json_line (telling.unread_with refusal)) Refused result }
{
    let answer = Answer::Refused(refusal);
    match print(alloc, writer, Form::Json, &answer) {
        Ok(printed) => Ok(printed),
        Err(fault) => Err(of_printing(fault)),
    }
}

/// How it ends: it is refused where more paths are lost than may be.
fn end_of(tried: &TriedImport<Global>, most_lost: Option<u64>) -> End
    ensures { result ≡ telling.end_of_import tried.now most_lost }
{
    if is_over(tried.paths.lost, most_lost) {
        End::Refused
    } else {
        End::Done
    }
}

/// Prints what an import would do.
pub fn print_import<W: Write + Drop>(
    alloc: Global,
    writer: W,
    tried: &TriedImport<Global>,
    most_lost: Option<u64>,
    is_json: bool,
) -> Result<(W, End), Fault>
    ensures { Prints W.contents writer (import_output is_json tried.now most_lost) (telling.end_of_import tried.now most_lost) result }
{
    let end = end_of(tried, most_lost);
    if is_json {
        print_as(alloc, writer, &ImportJson { tried, most_lost }, end)
    } else {
        print_as(alloc, writer, &ImportText { tried, most_lost }, end)
    }
}

/// Prints what the activation of a plan would do.
pub fn print_plan<W: Write + Drop>(
    alloc: Global,
    writer: W,
    tried: &TriedPlan<Global>,
    is_json: bool,
) -> Result<(W, End), Fault>
    ensures { Prints W.contents writer (plan_output is_json tried.now) Done result }
{
    if is_json {
        print_as(alloc, writer, &PlanJson(tried), End::Done)
    } else {
        print_as(alloc, writer, &PlanText(tried), End::Done)
    }
}
