//! The commands of one caller at a database: `import`, `paths`, `report`, `export` and `dryrun`.
ghost use Rattle.std.specs.Prelude.{Ok};
ghost use Rattle.fab_desk_base.specs.declared.command.Query.TheVariants as queries;
ghost use Rattle.fab_files.specs.declared.forms.Form.TheVariants as forms;
ghost use Rattle.fab_program_desks.specs.Commands.{ComesBy, ComesIn, DryRunComes, ImportComes, ImportComesIn, ShowComes};
ghost use Rattle.fab_wire.specs.Tasks.{AnswersTask};

use crate::database::Databases;
use crate::tasks::{Call, do_over};
use fab_desk_base::Query;
use fab_files::Form;
use fab_files_base::End;
use fab_policy_base::Policy;
use fab_program_outside::{Fault, Files, bytes_of, policy_of};
use fab_program_words::{Access, DryRun, Export, Import, Paths};
use fab_wire::Task;
use std::alloc::Global;
use std::io::Write;

/// Does a task at the desk of a database's file, and prints the reply. The writer is handed back.
///
/// # Errors
/// As for the database, the moment and the stream, in this order.
fn do_in<O: Databases, W: Write + Drop>(
    alloc: Global,
    outside: &O,
    db: &str,
    policy: Policy,
    call: &Call<'_>,
    task: &Task<'_>,
    writer: W,
) -> Result<(W, End), Fault>
    ensures { ComesIn O.Databases O.Tables.Store (λ d m a e. AnswersTask O.Tables.Store d call.now.token.now m task.now a e) W.contents call.now.form outside.now db.now policy call.now.moment writer result }
{
    do_over(alloc, outside.tables_in(db), policy, call, task, writer)
}

/// Does a task at a database at a moment, and prints the reply in a form. The writer is handed back.
///
/// # Errors
/// As for the policy, the database, the moment and the stream, in this order.
fn do_by<O: Files + Databases, W: Write + Drop>(
    alloc: Global,
    outside: &O,
    access: &Access<'_>,
    moment: Result<u64, Fault>,
    task: &Task<'_>,
    form: Form,
    writer: W,
) -> Result<(W, End), Fault>
    ensures { ComesBy O.Files O.File.remaining O.Databases O.Tables.Store (λ d m a e. AnswersTask O.Tables.Store d access.now.token.now m task.now a e) W.contents form outside.now access.now moment writer result }
{
    let call = Call {
        token: access.token,
        moment,
        form,
    };
    match policy_of(alloc, outside, access.policy) {
        Ok(policy) => do_in(alloc, outside, access.db, policy, &call, task, writer),
        Err(fault) => Err(fault),
    }
}

/// Imports a port list, and prints the reply. The writer is handed back.
///
/// # Errors
/// As for the policy, the file, the database, the moment and the stream, in this order.
pub fn import<O: Files + Databases, W: Write + Drop>(
    alloc: Global,
    outside: &O,
    asked: &Import<'_>,
    moment: Result<u64, Fault>,
    writer: W,
) -> Result<(W, End), Fault>
    ensures { ImportComes O.Files O.File.remaining O.Databases O.Tables.Store W.contents outside.now asked.entry.now moment writer result }
{
    match policy_of(alloc, outside, asked.access.policy) {
        Ok(policy) => import_under(alloc, outside, asked, policy, moment, writer),
        Err(fault) => Err(fault),
    }
}

/// Imports a port list under a policy.
fn import_under<O: Files + Databases, W: Write + Drop>(
    alloc: Global,
    outside: &O,
    asked: &Import<'_>,
    policy: Policy,
    moment: Result<u64, Fault>,
    writer: W,
) -> Result<(W, End), Fault>
    ensures { ImportComesIn O.Files O.File.remaining O.Databases O.Tables.Store W.contents outside.now asked.entry.now policy moment writer result }
{
    match bytes_of(alloc, outside, asked.file) {
        Ok(bytes) => {
            let call = Call {
                token: asked.access.token,
                moment,
                form: Form::Json,
            };
            let task = Task::Import {
                fabric: asked.fabric,
                bytes: bytes.as_slice(),
            };
            do_in(
                alloc,
                outside,
                asked.access.db,
                policy,
                &call,
                &task,
                writer,
            )
        }
        Err(fault) => Err(fault),
    }
}

/// Tells what a plan would change, and prints the reply. The writer is handed back.
///
/// # Errors
/// As for the policy, the database, the moment and the stream, in this order.
pub fn dry_run<O: Files + Databases, W: Write + Drop>(
    alloc: Global,
    outside: &O,
    asked: &DryRun<'_>,
    moment: Result<u64, Fault>,
    writer: W,
) -> Result<(W, End), Fault>
    ensures { DryRunComes O.Files O.File.remaining O.Databases O.Tables.Store W.contents outside.now asked.entry.now moment writer result }
{
    let task = Task::DryRun { plan: asked.plan };
    do_by(
        alloc,
        outside,
        &asked.access,
        moment,
        &task,
        Form::Json,
        writer,
    )
}

/// Prints what a read shows, in a form. The writer is handed back.
fn show<O: Files + Databases, W: Write + Drop>(
    alloc: Global,
    outside: &O,
    access: &Access<'_>,
    query: Query,
    form: Form,
    writer: W,
) -> Result<(W, End), Fault>
    ensures { ShowComes O.Files O.File.remaining O.Databases O.Tables.Store W.contents outside.now access.now query form writer result }
{
    let task = Task::Show { query };
    do_by(alloc, outside, access, Ok(0), &task, form, writer)
}

/// Prints the paths of a host as CSV. The writer is handed back.
///
/// # Errors
/// As for the policy, the database and the stream, in this order.
pub fn paths<O: Files + Databases, W: Write + Drop>(
    alloc: Global,
    outside: &O,
    asked: &Paths<'_>,
    writer: W,
) -> Result<(W, End), Fault>
    ensures { ShowComes O.Files O.File.remaining O.Databases O.Tables.Store W.contents outside.now asked.now.access (queries.Paths asked.now.host) forms.Paths writer result }
{
    let query = Query::Paths { host: asked.host };
    show(alloc, outside, &asked.access, query, Form::Paths, writer)
}

/// Prints the report on the volumes of a host. The writer is handed back.
///
/// # Errors
/// As for the policy, the database and the stream, in this order.
pub fn report<O: Files + Databases, W: Write + Drop>(
    alloc: Global,
    outside: &O,
    asked: &Paths<'_>,
    writer: W,
) -> Result<(W, End), Fault>
    ensures { ShowComes O.Files O.File.remaining O.Databases O.Tables.Store W.contents outside.now asked.now.access (queries.Paths asked.now.host) forms.Report writer result }
{
    let query = Query::Paths { host: asked.host };
    show(alloc, outside, &asked.access, query, Form::Report, writer)
}

/// Prints the active set of a fabric. The writer is handed back.
///
/// # Errors
/// As for the policy, the database and the stream, in this order.
pub fn export<O: Files + Databases, W: Write + Drop>(
    alloc: Global,
    outside: &O,
    asked: &Export<'_>,
    writer: W,
) -> Result<(W, End), Fault>
    ensures { ShowComes O.Files O.File.remaining O.Databases O.Tables.Store W.contents outside.now asked.now.access (queries.Active asked.now.fabric) forms.Active writer result }
{
    let query = Query::Active {
        fabric: asked.fabric,
    };
    show(alloc, outside, &asked.access, query, Form::Active, writer)
}
