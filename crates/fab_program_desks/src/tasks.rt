//! What is done once at a desk, over any store.
ghost use Rattle.fab_program_outside.specs.Coming.{After};
ghost use Rattle.fab_program_desks.specs.Prints.{IsPrintedTo};
ghost use Rattle.fab_program_desks.specs.Tasks.{ComesOver, IsDone};
ghost use Rattle.fab_wire.specs.Tasks.{AnswersTask};

use crate::database::{ProgramDesk, desk_over};
use fab_files::{Form, print};
use fab_files_base::End;
use fab_policy_base::Policy;
use fab_program_outside::{Fault, of_printing};
use fab_store::Store;
use fab_wire::{Task, answer_task};
use fab_wire_answers::answers::Answer;
use std::alloc::Global;
use std::io::Write;

/// Whose task it is, when it is done, and how the reply is printed.
#[derive(Clone, Copy)]
pub struct Call<'t> {
    /// The token of the caller.
    pub token: &'t str,
    /// The moment in Unix seconds, or why there is none.
    pub moment: Result<u64, Fault>,
    /// In which form the reply is printed.
    pub form: Form,
}

/// Does a task at a desk over a store, if there is one, and prints the reply. The writer is handed
/// back, and has just that text.
///
/// # Errors
/// As for the store, `desk_over`, the moment and the stream, in this order.
pub fn do_over<S: Store<Global>, W: Write + Drop>(
    alloc: Global,
    store: Result<S, Fault>,
    policy: Policy,
    call: &Call<'_>,
    task: &Task<'_>,
    writer: W,
) -> Result<(W, End), Fault>
    ensures { After store (λ s. ComesOver S.Store (λ d m a e. AnswersTask S.Store d call.now.token.now m task.now a e) W.contents call.now.form s policy call.now.moment writer) result }
{
    match store {
        Ok(store) => do_by(alloc, desk_over(alloc, store, policy), call, task, writer),
        Err(fault) => Err(fault),
    }
}

/// Does a task at a desk, if there is one, and prints the reply.
fn do_by<S: Store<Global>, W: Write + Drop>(
    alloc: Global,
    desk: Result<ProgramDesk<S>, Fault>,
    call: &Call<'_>,
    task: &Task<'_>,
    writer: W,
) -> Result<(W, End), Fault>
    ensures { After desk (λ d. After call.now.moment (λ m. IsDone (λ d m a e. AnswersTask S.Store d call.now.token.now m task.now a e) W.contents call.now.form d m writer)) result }
{
    match desk {
        Ok(mut desk) => do_at(alloc, &mut desk, call, task, writer),
        Err(fault) => Err(fault),
    }
}

/// Does a task at a desk, if there is a moment, and prints the reply.
fn do_at<S: Store<Global>, W: Write + Drop>(
    alloc: Global,
    desk: &mut ProgramDesk<S>,
    call: &Call<'_>,
    task: &Task<'_>,
    writer: W,
) -> Result<(W, End), Fault>
    ensures { After call.now.moment (λ m. IsDone (λ d m a e. AnswersTask S.Store d call.now.token.now m task.now a e) W.contents call.now.form desk.old m writer) result }
{
    match call.moment {
        Ok(moment) => {
            let answer = answer_task(alloc, desk, call.token, moment, task);
            print_answer(alloc, writer, call.form, &answer)
        }
        Err(fault) => Err(fault),
    }
}

/// Prints an answer in a form.
fn print_answer<W: Write + Drop>(
    alloc: Global,
    writer: W,
    form: Form,
    answer: &Answer<Global>,
) -> Result<(W, End), Fault>
    ensures { IsPrintedTo W.contents form answer.now writer result }
{
    match print(alloc, writer, form, answer) {
        Ok(printed) => Ok(printed),
        Err(fault) => Err(of_printing(fault)),
    }
}
