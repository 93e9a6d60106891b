//! The forms in which an answer is printed.
ghost use Rattle.std.specs.Prelude.{◌≡◌, IsOk, OnOk, option_map};
ghost use Rattle.fab_wire_streams.specs.Taking.{Takes};
ghost use Rattle.fab_files.specs.Printed as printed;
ghost use Rattle.fab_files.specs.Printed.{Prints};

use crate::{ReportFault, active_text, paths_csv, report};
use fab_desk_base::{Reply, Shown, ZoneMembers};
use fab_files_base::PrintFault;
use fab_reach_base::Path;
use fab_reach_base::names::{Fabric, Name};
use fab_reach_base::zoning::DefaultFlag;
use fab_wire_answers::answers::{Answer, put_body};
use fab_wire_streams::sink::Sink;
use fab_wire_streams::streams::WriteFailed;
use std::alloc::Global;

/// In which form an answer is printed. What does not fit the form is printed as `Json`.
#[derive(Clone, Copy)]
pub enum Form {
    /// Its JSON and a line feed.
    Json,
    /// Its paths as CSV.
    Paths,
    /// The report on its paths.
    Report,
    /// The active set.
    Active,
}

/// The host and its paths that an answer shows, if it shows some host's.
fn paths_in(answer: &Answer<Global>) -> Option<(Name, &[Path])>
    ensures { option_map (λ p. (p.0, p.1.now)) result ≡ printed.paths_in answer.now }
{
    match answer {
        Answer::Replied(Reply::Shown(Shown::Paths { host, paths })) => {
            Some((*host, paths.as_slice()))
        }
        _ => None,
    }
}

/// What an active set is put from: its fabric, its name, what the default zone does, and its zones.
type ActiveSet<'s> = (Fabric, Option<Name>, DefaultFlag, &'s [ZoneMembers<Global>]);

/// The active set that an answer shows, if it shows one.
fn active_in(answer: &Answer<Global>) -> Option<ActiveSet<'_>>
    ensures { option_map (λ p. (p.0, p.1, p.2, p.3.now)) result ≡ printed.active_in answer.now }
{
    match answer {
        Answer::Replied(
            Reply::Shown(
                Shown::Active {
                    fabric,
                    active,
                    flag,
                    zones,
                },
            ),
        ) => Some((*fabric, *active, *flag, zones.as_slice())),
        _ => None,
    }
}

/// Puts the body of an answer and a line feed.
fn put_answer<S: Sink>(sink: &mut S, answer: &Answer<Global>) -> Result<(), WriteFailed>
    ensures { Takes S.took S.cut sink.old (printed.json_line answer.now) sink.new result }
{
    let Ok(()) = put_body(sink, answer) else {
        return Err(WriteFailed);
    };
    sink.take(b"\n")
}

/// Puts the paths of a host as CSV; and an answer that shows none as it is.
fn put_paths<S: Sink>(sink: &mut S, answer: &Answer<Global>) -> Result<(), WriteFailed>
    ensures { Takes S.took S.cut sink.old (printed.paths_text answer.now) sink.new result }
{
    match paths_in(answer) {
        Some((host, paths)) => paths_csv(sink, &host, paths),
        None => put_answer(sink, answer),
    }
}

/// Puts the active set of a fabric; and an answer that shows none as it is.
fn put_active<S: Sink>(sink: &mut S, answer: &Answer<Global>) -> Result<(), WriteFailed>
    ensures { Takes S.took S.cut sink.old (printed.active_text answer.now) sink.new result }
{
    match active_in(answer) {
        Some((fabric, active, flag, zones)) => active_text(sink, fabric, active, flag, zones),
        None => put_answer(sink, answer),
    }
}

/// Puts the report on the volumes of a host; and an answer that shows no paths as it is.
fn put_report<S: Sink>(
    alloc: Global,
    sink: &mut S,
    answer: &Answer<Global>,
) -> Result<(), PrintFault>
    ensures { OnOk result (Prints S.took Form.Report answer.now sink.old sink.new) }
{
    match paths_in(answer) {
        Some((host, paths)) => match report(alloc, sink, &host, paths) {
            Ok(()) => Ok(()),
            Err(ReportFault::Memory) => Err(PrintFault::Memory),
            Err(ReportFault::Unsent) => Err(PrintFault::Stream),
        },
        None => sent(put_answer(sink, answer)),
    }
}

/// What came of a text that was put.
fn sent(came: Result<(), WriteFailed>) -> Result<(), PrintFault>
    ensures { OnOk result (IsOk came) }
{
    match came {
        Ok(()) => Ok(()),
        Err(WriteFailed) => Err(PrintFault::Stream),
    }
}

/// Puts an answer in a form.
///
/// # Errors
/// `Stream` where the sink fails, with a beginning of the text taken; `Memory`.
pub(crate) fn put<S: Sink>(
    alloc: Global,
    sink: &mut S,
    form: Form,
    answer: &Answer<Global>,
) -> Result<(), PrintFault>
    ensures { OnOk result (Prints S.took form answer.now sink.old sink.new) }
{
    match form {
        Form::Json => sent(put_answer(sink, answer)),
        Form::Paths => sent(put_paths(sink, answer)),
        Form::Report => put_report(alloc, sink, answer),
        Form::Active => sent(put_active(sink, answer)),
    }
}
