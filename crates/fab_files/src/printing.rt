//! Answers that go to standard output.
ghost use Rattle.std.specs.Prelude.{◌≡◌, ℕ, List, IfOk};
ghost use Rattle.std.specs.Io.KnownBytes.{Appends};
ghost use Rattle.fab_files.specs.Ends as ends;
ghost use Rattle.fab_files.specs.Printed.{IsPrinted};

use crate::forms::{Form, put};
use fab_desk_base::Reply;
use fab_files_base::{End, PrintFault, buffered, finish, leave};
use fab_wire_answers::answers::Answer;
use std::alloc::Global;
use std::io::Write;

/// Whether an answer says that something was done or that it was refused.
fn end_of(answer: &Answer<Global>) -> End
    ensures { result ≡ ends.end_of answer.now }
{
    match answer {
        Answer::Refused(_) => End::Refused,
        Answer::Replied(Reply::Refused(_)) => End::Refused,
        Answer::Replied(_) => End::Done,
    }
}

/// Prints an answer in a form, and hands back the writer, which has got just that text.
///
/// # Errors
/// `Stream` where the writer failed, which may have got a beginning of the text and is not tried
/// again; `Memory`.
pub fn print<W: Write + Drop>(
    alloc: Global,
    writer: W,
    form: Form,
    answer: &Answer<Global>,
) -> Result<(W, End), PrintFault>
    ensures written { IfOk result (λ p. (text : List ℕ) × IsPrinted form answer.now text × Appends (W.contents writer) (W.contents p.0) text) }
    ensures ended { IfOk result (λ p. p.1 ≡ ends.end_of answer.now) }
{
    let mut out = buffered(alloc, writer)?;
    match put(alloc, &mut out, form, answer) {
        Ok(()) => {
            let printed = finish(out)?;
            Ok((printed, end_of(answer)))
        }
        Err(fault) => {
            leave(out);
            Err(fault)
        }
    }
}
