//! One connection: a request is heard, handled by the desk, and answered.

ghost use Rattle.std.specs.Prelude.{◌≡◌, ◌⊎◌, true};
ghost use Rattle.fab_wire_streams.specs.Counting.{inner_of, failures_of};
ghost use Rattle.fab_wire_base.specs.Hearing.{request_of};
ghost use Rattle.fab_wire_answers.specs.Messages.{want_of_memory};
ghost use Rattle.fab_desk.specs.Handled.{Handles, policy_of, serving_of};
ghost use Rattle.fab_wire.specs.Known.{is_known};
ghost use Rattle.fab_wire.specs.Serving.{AnswersRequest, Serves, side, unnamed_fault};
ghost use Rattle.fab_wire.specs.Telling.{TellsOutcome, failures_after_outcome};

use crate::callers::KnownTo;
use crate::outcome::Outcome;
use fab_desk::Desk;
use fab_desk::base::{Command, DeskFault, Reply};
use fab_desk::store_base::Store;
use fab_reach_books::PathBook;
use fab_wire_answers::answers::{Answer, Told, tell};
use fab_wire_base::hear::{Asked, Heard, hear};
use fab_wire_base::requests::Refusal;
use fab_wire_base::routes::Routes;
use fab_wire_requests::{Meant, meaning};
use fab_wire_streams::counted::Counted;
use std::alloc::{Allocator, Global};
use std::io::{Read, Write};
use std::str;

/// Serves one connection over a desk: hears what is asked, has the desk handle it at the moment, in
/// Unix seconds, and writes the answer.
///
/// What the reader's bytes spell is answered, however its reads are cut. `Answered` has the status of
/// the answer. `Unsent`: a write failed; a beginning of the answer was written, and the command has
/// acted as its reply says. `ReadFailed`: a read failed; nothing was written and nothing has acted.
/// `Empty`: the input has no byte, and there is no answer. No read or write that failed is tried
/// again. Where there is no memory the answer says so, and nothing has changed; an empty input is
/// never answered so. What a change does is in the store before it is answered.
///
/// The request and its command come from `alloc`; what the readers of CSV and JSON need, from
/// `global`. The routes are made once, and serve each connection.
pub fn serve_one<A: Allocator + Copy, S: Store<A>, B: PathBook<A>, R: Read, W: Write>(
    alloc: A,
    global: Global,
    routes: &Routes,
    desk: &mut Desk<A, S, B>,
    moment: u64,
    reader: &mut Counted<R>,
    writer: &mut Counted<W>,
) -> Outcome
    ensures { Serves S.Store
        (side (R.remaining (inner_of reader.old)) (failures_of reader.old)) (side (R.remaining (inner_of reader.new)) (failures_of reader.new))
        (side (W.contents (inner_of writer.old)) (failures_of writer.old)) (side (W.contents (inner_of writer.new)) (failures_of writer.new))
        desk.old moment result desk.new }
{
    match hear(alloc, routes, &KnownTo::of(desk), reader) {
        Heard::Nothing => Outcome::Empty,
        Heard::ReadFailed => Outcome::ReadFailed,
        Heard::Refused(why) => tell_answer(writer, refusal(alloc, why)),
        Heard::Memory => tell_answer(writer, want(alloc)),
        Heard::Asked(asked) => {
            tell_answer(writer, answer_to(alloc, global, desk, moment, asked))
        }
    }
}

/// The answer of a refusal.
fn refusal<A: Allocator + Copy>(alloc: A, why: Refusal) -> Answer<A>
    ensures { result ≡ Answer.Refused why }
{
    let _alloc = alloc;
    Answer::Refused(why)
}

/// The answer of want of memory.
fn want<A: Allocator + Copy>(alloc: A) -> Answer<A>
    ensures { result ≡ want_of_memory }
{
    let _alloc = alloc;
    Answer::Replied(Reply::Refused(DeskFault::Memory))
}

/// Writes an answer.
fn tell_answer<A: Allocator + Copy, W: Write>(writer: &mut Counted<W>, answer: Answer<A>) -> Outcome
    ensures told { TellsOutcome (W.contents (inner_of writer.old)) (W.contents (inner_of writer.new)) answer result }
    ensures count { failures_of writer.new ≡ failures_after_outcome result (failures_of writer.old) }
{
    match tell(writer, &answer) {
        Told::Answered(status) => Outcome::Answered(status),
        Told::Unsent => Outcome::Unsent,
    }
}

/// Answers what a caller asks: by what it means, or for want of memory.
fn answer_to<A: Allocator + Copy, S: Store<A>, B: PathBook<A>>(
    alloc: A,
    global: Global,
    desk: &mut Desk<A, S, B>,
    moment: u64,
    asked: Asked<A>,
) -> Answer<A>
    requires { is_known (policy_of desk.old) asked.token.items ≡ true }
    ensures { ((result ≡ want_of_memory) × (desk.new ≡ desk.old)) ⊎ AnswersRequest S.Store desk.old moment (request_of asked) result desk.new }
{
    let meant = meaning(
        alloc,
        global,
        asked.kind,
        asked.target.as_slice(),
        asked.body.as_slice(),
    );
    match meant {
        Meant::BadBody(line) => Answer::Refused(Refusal::BadBody(line)),
        Meant::Unnamed => Answer::Replied(Reply::Refused(unnamed(desk))),
        Meant::Memory => want(alloc),
        Meant::Asks(command) => {
            Answer::Replied(handle(desk, asked.token.as_slice(), moment, command))
        }
    }
}

/// Why a path that names nothing is refused.
fn unnamed<A: Allocator + Copy, S: Store<A>, B: PathBook<A>>(desk: &Desk<A, S, B>) -> DeskFault
    ensures { result ≡ unnamed_fault (serving_of desk.now) }
{
    if desk.halted() {
        DeskFault::Halted
    } else {
        DeskFault::NotFound
    }
}

/// Has the desk handle a command of a caller, whose token is text since a caller has it.
fn handle<A: Allocator + Copy, S: Store<A>, B: PathBook<A>>(
    desk: &mut Desk<A, S, B>,
    token: &[u8],
    moment: u64,
    command: Command<A>,
) -> Reply<A>
    requires { is_known (policy_of desk.old) token.now ≡ true }
    ensures { Handles S.Store desk.old (record { token = token.now; moment = moment; command = command }) result desk.new }
{
    desk.policy_is_sound();
    match str::from_utf8(token) {
        Ok(text) => desk.handle(text, moment, command),
        Err(_) => unreachable!(),
    }
}
