//! What a caller asks for without a request, as at a command line: it is answered as over HTTP.
ghost use Rattle.std.specs.Prelude.{◌↔◌, IsTrue};
ghost use Rattle.fab_wire.specs.Tasks.{AnswersTask, ImportsAt, ImportsKnown, IsTooLong};

use fab_desk::Desk;
use fab_desk::base::{Command, DeskFault, Query, Reply};
use fab_desk::store_base::Store;
use fab_names::{Fabric, Name};
use fab_reach_books::PathBook;
use fab_wire_answers::answers::Answer;
use fab_wire_base::requests::{MOST_BODY, Refusal};
use fab_wire_requests::port_list::{FileFault, read_ports};
use std::alloc::Global;

/// What a caller asks for without a request.
#[derive(Clone, Copy)]
pub enum Task<'t> {
    /// The bytes of a port list are imported.
    Import { fabric: Fabric, bytes: &'t [u8] },
    /// What a plan would change is told.
    DryRun { plan: Name },
    /// What the records say is shown. A read meets no rule, so that its moment does not matter.
    Show { query: Query },
}

/// What a desk answers to a task of the caller who has the token, at a moment in Unix seconds. The desk
/// handles just the command that is asked for, and its reply is the answer.
///
/// Bytes are not imported, and nothing has changed, where nobody has the token (`NoCaller`), where there
/// are more than 1048576 of them (`TooLarge`), where a record is faulty (`BadBody`, with the number of
/// the first one), and where there was no memory to read them.
pub fn answer_task<S: Store<Global>, B: PathBook<Global>>(
    alloc: Global,
    desk: &mut Desk<Global, S, B>,
    token: &str,
    moment: u64,
    task: &Task<'_>,
) -> Answer<Global>
    ensures { AnswersTask S.Store desk.old token.now moment task.now result desk.new }
{
    match task {
        Task::Import { fabric, bytes } => import_over(alloc, desk, token, moment, *fabric, bytes),
        Task::DryRun { plan } => {
            Answer::Replied(desk.handle(token, moment, Command::DryRun { plan: *plan }))
        }
        Task::Show { query } => {
            Answer::Replied(desk.handle(token, moment, Command::Show(*query)))
        }
    }
}

/// Imports the bytes of a port list. As over HTTP the caller is looked at first, then how many bytes
/// there are, then what they list.
fn import_over<S: Store<Global>, B: PathBook<Global>>(
    alloc: Global,
    desk: &mut Desk<Global, S, B>,
    token: &str,
    moment: u64,
    fabric: Fabric,
    bytes: &[u8],
) -> Answer<Global>
    ensures { ImportsAt S.Store desk.old token.now moment fabric bytes.now result desk.new }
{
    if !desk.knows(token) {
        return Answer::Replied(Reply::Refused(DeskFault::NoCaller));
    }
    import_known(alloc, desk, token, moment, fabric, bytes)
}

/// Imports the bytes of a port list of a caller.
fn import_known<S: Store<Global>, B: PathBook<Global>>(
    alloc: Global,
    desk: &mut Desk<Global, S, B>,
    token: &str,
    moment: u64,
    fabric: Fabric,
    bytes: &[u8],
) -> Answer<Global>
    ensures { ImportsKnown S.Store desk.old token.now moment fabric bytes.now result desk.new }
{
    if is_too_long(bytes) {
        return Answer::Refused(Refusal::TooLarge);
    }
    match read_ports(alloc, alloc, bytes) {
        Ok(rows) => Answer::Replied(desk.handle(token, moment, Command::Import { fabric, rows })),
        Err(FileFault::Line(line)) => Answer::Refused(Refusal::BadBody(line)),
        Err(FileFault::Memory) => Answer::Replied(Reply::Refused(DeskFault::Memory)),
    }
}

/// Whether these are more bytes than a body may have.
fn is_too_long(bytes: &[u8]) -> bool
    ensures { IsTrue result ↔ IsTooLong bytes.now }
{
    bytes.len() as u128 > MOST_BODY
}
