//! What the words of the command line ask for, and the exit status.
ghost use Rattle.std.specs.Prelude.{◌≡◌, ◌<◌, map, string_bytes};
ghost use Rattle.sqlite.specs.Held.{state};
ghost use Rattle.sqlite.specs.Steps.{over_memory};
ghost use Rattle.fab_program_desks.specs.Tables.{AreNewTables};
ghost use Rattle.fab_wire_streams.specs.Sinks.{Wrote, WroteSome};
ghost use Rattle.fab_program_options.specs.Asking.{Asks};
ghost use Rattle.fab_program_words.specs.declared.words.Words.{Words};
ghost use Rattle.fab_program.specs.Exits.{IsExitStatus, end_of_making, end_only, status_of, words_status};
ghost use Rattle.fab_wire_serving.specs.Turns.{Gives};
ghost use Rattle.fab_program_desks.specs.Once.{ComesOnce};
ghost use Rattle.fab_program.specs.Runs.{Comes, EndsAt, IsToldOf, IsToldOfWords, RunsTo};

use crate::looks::{names, who, why};
use crate::tries::{diff, try_import};
use fab_files_base::End;
use fab_program_checks::{Modes, check, explain, now_in};
use fab_program_desks::{
    Addresses, Databases, Front, dry_run, export, import, make, once, paths, report, serve,
};
use fab_program_options::{WordsFault, read_words};
use fab_program_outside::{Fault, Files, Machine, fail, moment_of, refuse_text};
use fab_program_words::{Once, Words};
use fab_store::{SqlStore, Store};
use fab_wire_serving::Server;
use fab_wire_streams::counted::Counted;
use sqlite::MemStore;
use std::alloc::Global;
use std::io::{Read, Write};

/// The exit status of what was done.
const DONE: u8 = 0;

/// The exit status of a command that was refused.
const REFUSED: u8 = 1;

/// The exit status of a command line that is wrong, or asks for help.
const WRONG_WORDS: u8 = 2;

/// Runs the program on this machine: reads the words (the first is the program's name), does what they
/// ask for, and gives the exit status. `now` gives the moment in Unix seconds, if it can. What goes
/// wrong is told to `errors`.
///
/// The status is 0, where all is done, or 1, where a command is refused, only if the words ask for
/// something, and 2 only if they ask for nothing.
pub fn run<N: FnMut() -> Option<u64>, R: Read + Drop, W: Write + Drop, E: Write>(
    rt: &HostRuntime,
    words: &[String],
    now: N,
    reader: R,
    writer: W,
    errors: &mut E,
) -> u8
    requires { (state : N) → N.pre state }
    ensures status { IsExitStatus result }
    ensures asked { result < 2 → (w : Words) × Asks (map string_bytes words.now) w }
    ensures wrong { result ≡ 2 → (w : Words) → ¬ Asks (map string_bytes words.now) w }
{
    let mut errors = Counted::new(errors);
    run_over(rt, &Machine { rt }, words, now, reader, writer, &mut errors)
}

/// Runs the program over any files, databases and addresses.
///
/// What the words ask for is done, with the moment that they give, or else the clock's; what came of
/// it is the status, and a fault has its line.
pub fn run_over<
    O: Files + Databases + Addresses + Modes,
    N: FnMut() -> Option<u64>,
    R: Read + Drop,
    W: Write + Drop,
    E: Write,
>(
    rt: &HostRuntime,
    outside: &O,
    words: &[String],
    now: N,
    reader: R,
    writer: W,
    errors: &mut Counted<E>,
) -> u8
    requires { (state : N) → N.pre state }
    ensures status { IsExitStatus result }
    ensures asked { result < 2 → (w : Words) × Asks (map string_bytes words.now) w }
    ensures wrong { result ≡ 2 → (w : Words) → ¬ Asks (map string_bytes words.now) w }
    ensures done { (after : N) × RunsTo (Wrote E.contents) (WroteSome E.contents) (λ asked ended. Comes O.Files O.File.remaining O.Databases O.Addresses O.Modes O.Tables.Store (λ made. AreNewTables (state over_memory) made (λ tables. tables.conn)) ⟦<SqlStore<MemStore> as Store<Global>>⟧ R.remaining W.contents (λ told. N.step now told after) ⟦<Front<O::Tables> as Server>⟧ (λ front. front.desk) (Gives N.step) outside.now asked reader writer ended) (map string_bytes words.now) errors.old result errors.new }
{
    match read_words(rt.alloc(), words) {
        Ok(asked) => {
            let mut now = now;
            let came = carry_out(rt, outside, &asked, &mut now, reader, writer);
            exit_of(errors, came)
        }
        Err(fault) => refuse_words(errors, fault),
    }
}

/// Does what the words ask for: `import`, `dryrun`, `once` and `explain` at the moment that they give, or
/// else the clock's, `tryimport` and `diff` at the clock's, `serve` with one for each turn, and the others
/// with no moment.
fn carry_out<
    O: Files + Databases + Addresses + Modes,
    N: FnMut() -> Option<u64>,
    R: Read + Drop,
    W: Write + Drop,
>(
    rt: &HostRuntime,
    outside: &O,
    asked: &Words<'_>,
    now: &mut N,
    reader: R,
    writer: W,
) -> Result<End, Fault>
    requires { (state : N) → N.pre state }
    ensures { Comes O.Files O.File.remaining O.Databases O.Addresses O.Modes O.Tables.Store (λ made. AreNewTables (state over_memory) made (λ tables. tables.conn)) ⟦<SqlStore<MemStore> as Store<Global>>⟧ R.remaining W.contents (λ told. N.step now.old told now.new) ⟦<Front<O::Tables> as Server>⟧ (λ front. front.desk) (Gives N.step) outside.now asked.now reader writer result }
{
    let alloc = rt.alloc();
    match asked {
        Words::Init(asked) => made(make(outside, asked.db)),
        Words::Serve(asked) => serve(rt, outside, asked, now, writer),
        Words::Once(asked) => once_at(alloc, outside, asked, now, reader, writer),
        Words::Import(asked) => {
            let moment = moment_of(asked.now, now);
            without_writer(import(alloc, outside, asked, moment, writer))
        }
        Words::Paths(asked) => without_writer(paths(alloc, outside, asked, writer)),
        Words::Report(asked) => without_writer(report(alloc, outside, asked, writer)),
        Words::Export(asked) => without_writer(export(alloc, outside, asked, writer)),
        Words::DryRun(asked) => {
            let moment = moment_of(asked.now, now);
            without_writer(dry_run(alloc, outside, asked, moment, writer))
        }
        Words::Why(asked) => without_writer(why(alloc, outside, asked, writer)),
        Words::Who(asked) => without_writer(who(alloc, outside, asked, writer)),
        Words::Names(asked) => without_writer(names(alloc, outside, asked, writer)),
        Words::Check(asked) => without_writer(check(alloc, outside, asked, writer)),
        Words::Explain(asked) => {
            let moment = moment_of(now_in(&asked.of), now);
            without_writer(explain(alloc, outside, asked, moment, writer))
        }
        Words::TryImport(asked) => {
            let moment = moment_of(None, now);
            without_writer(try_import(alloc, outside, asked, moment, writer))
        }
        Words::Diff(asked) => {
            let moment = moment_of(None, now);
            without_writer(diff(alloc, outside, asked, moment, writer))
        }
    }
}

/// Answers one request at the moment that is given, or else the clock's.
fn once_at<O: Files + Databases, N: FnMut() -> Option<u64>, R: Read + Drop, W: Write + Drop>(
    alloc: Global,
    outside: &O,
    asked: &Once<'_>,
    now: &mut N,
    reader: R,
    writer: W,
) -> Result<End, Fault>
    requires { (state : N) → N.pre state }
    ensures { EndsAt asked.entry.now.now (λ told. N.step now.old told now.new) (λ moment. ComesOnce O.Files O.File.remaining O.Databases O.Tables.Store (λ made. AreNewTables (state over_memory) made (λ tables. tables.conn)) ⟦<SqlStore<MemStore> as Store<Global>>⟧ R.remaining W.contents outside.now asked.entry.now.over moment reader writer) result }
{
    let moment = moment_of(asked.now, now);
    without_writer(once(alloc, outside, asked, moment, reader, writer))
}

/// How making a database ended.
fn made(came: Result<(), Fault>) -> Result<End, Fault>
    ensures { result ≡ end_of_making came }
{
    match came {
        Ok(()) => Ok(End::Done),
        Err(fault) => Err(fault),
    }
}

/// How a command ended, whose writer is let go of.
fn without_writer<W: Drop>(came: Result<(W, End), Fault>) -> Result<End, Fault>
    ensures { result ≡ end_only came }
{
    match came {
        Ok((_writer, end)) => Ok(end),
        Err(fault) => Err(fault),
    }
}

/// The exit status of what came of it; a fault is told.
fn exit_of<E: Write>(errors: &mut Counted<E>, came: Result<End, Fault>) -> u8
    ensures status { result ≡ status_of came }
    ensures told { IsToldOf (Wrote E.contents) (WroteSome E.contents) errors.old came errors.new }
{
    match came {
        Ok(End::Done) => DONE,
        Ok(End::Refused) => REFUSED,
        Err(fault) => fail(errors, fault),
    }
}

/// Tells what is wrong with the words, and gives the exit status. The words themselves are told by
/// `clap` alone, as far as it names them.
fn refuse_words<E: Write>(errors: &mut Counted<E>, fault: WordsFault) -> u8
    ensures status { result ≡ words_status fault }
    ensures told { IsToldOfWords (Wrote E.contents) (WroteSome E.contents) errors.old fault errors.new }
{
    match fault {
        WordsFault::Refused(error) => {
            let _ = write!(errors, "{error}");
            WRONG_WORDS
        }
        WordsFault::BadText => refuse_text(errors),
        WordsFault::Memory => fail(errors, Fault::Memory),
    }
}
