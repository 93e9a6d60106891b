//! Reads the words of a command line.
ghost use Rattle.std.specs.Prelude.{MatchOption, IfOk, IfErr, map, option_map, string_bytes};
ghost use Rattle.clap.specs.Words.{found_of, rows_of, subcommand_rows_of};
ghost use Rattle.fab_program_options.specs.Asking.{Asks, IsReason, IsAccess, IsInit, IsServe, IsOver, IsOnce, IsImport, IsPaths, IsExport, IsDryRun, IsWhy, IsWho, IsWhoOf, IsNames, IsCheck, IsDeed, IsExplain, IsExplainOf, IsTryImport, IsDiff};
ghost use Rattle.fab_program_options.specs.Reading.{IsFaultOf, IsFound, IsRead, IsInMemory};
ghost use Rattle.fab_program_options.specs.declared.subcommands.Subcommand.{Subcommand};
ghost use Rattle.fab_program_words.specs.declared.words.Access.{Access};
ghost use Rattle.fab_program_words.specs.declared.words.Init.{Init};
ghost use Rattle.fab_program_words.specs.declared.words.Serve.{Serve};
ghost use Rattle.fab_program_words.specs.declared.words.Over.{Over};
ghost use Rattle.fab_program_words.specs.declared.words.Once.{Once};
ghost use Rattle.fab_program_words.specs.declared.words.Import.{Import};
ghost use Rattle.fab_program_words.specs.declared.words.Paths.{Paths};
ghost use Rattle.fab_program_words.specs.declared.words.Export.{Export};
ghost use Rattle.fab_program_words.specs.declared.words.DryRun.{DryRun};
ghost use Rattle.fab_program_words.specs.declared.words.Why.{Why};
ghost use Rattle.fab_program_words.specs.declared.words.Who.{Who};
ghost use Rattle.fab_program_words.specs.declared.words.WhoOf.{WhoOf};
ghost use Rattle.fab_program_words.specs.declared.words.Names.{Names};
ghost use Rattle.fab_program_words.specs.declared.words.Check.{Check};
ghost use Rattle.fab_program_words.specs.declared.words.Deed.{Deed};
ghost use Rattle.fab_program_words.specs.declared.words.Explain.{Explain};
ghost use Rattle.fab_program_words.specs.declared.words.ExplainOf.{ExplainOf};
ghost use Rattle.fab_program_words.specs.declared.words.TryImport.{TryImport};
ghost use Rattle.fab_program_words.specs.declared.words.Diff.{Diff};

use crate::commands::command_line;
use crate::subcommands::Subcommand;
use clap::error::ErrorKind;
use clap::{ArgMatches, Error};
use fab_program_words::{
    Access, Check, Deed, Diff, DryRun, Explain, ExplainOf, Export, Import, Init, ListKind, Names,
    Once, OptionKind, Over, Part, Paths, Serve, TryImport, Who, WhoOf, Why, Words, action_in,
    fabric_in, fabrics_in, is_given, kind_in, list_in, maybe_name_in, name_in, number_in, state_in,
    text_in, token_in, wwn_in,
};
use std::alloc::Global;

/// Why words ask for nothing.
#[derive(Debug, Drop)]
pub enum WordsFault {
    /// They are wrong, or ask for help: `clap` says what.
    Refused(Error),
    /// The value of an option has not its text form, or options do not go together: `once` has a
    /// database without a policy; `who` not just one of a volume and a port; `check` not just one file;
    /// `list` a state of something else than plans; `explain` the rules and a command, or neither.
    BadText,
    /// There was no memory.
    Memory,
}

/// Reads the words of a command line, of which the first is the program's name.
///
/// # Errors
/// `Refused` where `clap` finds a fault in the words, or they ask for help; `BadText` where the value
/// of an option is not of its text form (a token, a name, a world-wide name, a fabric, a number, a
/// kind, a state, an action, a list), or options do not go together; `Memory` where there is no
/// memory.
pub fn read_words<'a>(alloc: Global, words: &'a [String]) -> Result<Words<'a>, WordsFault>
    ensures ok { IfOk result (Asks (map string_bytes words.entry.now)) }
    ensures err { IfErr result (IsReason (map string_bytes words.entry.now)) }
{
    let Ok(command) = command_line(alloc) else {
        return Err(WordsFault::Memory);
    };
    match command.try_get_matches_from(words) {
        Ok(matches) => match words_in(&matches) {
            Some(words) => Ok(words),
            None => Err(WordsFault::BadText),
        },
        Err(error) => Err(fault_of(error)),
    }
}

/// What a parse that failed says of the words.
fn fault_of(error: Error) -> WordsFault
    ensures { IsFaultOf error result }
{
    if error.kind() == ErrorKind::OutOfMemory {
        WordsFault::Memory
    } else {
        WordsFault::Refused(error)
    }
}

/// What the matches of the program ask for.
fn words_in<'a>(matches: &ArgMatches<'a>) -> Option<Words<'a>>
    ensures { IsFound (subcommand_rows_of matches.now) result }
{
    let found = matches.subcommand()?;
    let subcommand = Subcommand::from_name(found.0)?;
    words_of(subcommand, found.1)
}

/// What the matches of a subcommand ask for.
fn words_of<'a>(subcommand: Subcommand, given: &ArgMatches<'a>) -> Option<Words<'a>>
    ensures { IsRead subcommand (rows_of (found_of given.now)) result }
{
    match subcommand {
        Subcommand::Init => init_in(given),
        Subcommand::Serve => serve_in(given),
        Subcommand::Once => once_in(given),
        Subcommand::Import => import_in(given),
        Subcommand::Paths => match paths_in(given) {
            Some(asked) => Some(Words::Paths(asked)),
            None => None,
        },
        Subcommand::Report => match paths_in(given) {
            Some(asked) => Some(Words::Report(asked)),
            None => None,
        },
        Subcommand::Export => export_in(given),
        Subcommand::DryRun => dry_run_in(given),
        Subcommand::Why => why_in(given),
        Subcommand::Who => who_in(given),
        Subcommand::Names => names_in(given),
        Subcommand::Check => check_in(given),
        Subcommand::Explain => explain_in(given),
        Subcommand::TryImport => try_import_in(given),
        Subcommand::Diff => diff_in(given),
    }
}

/// The caller and the database.
fn access_in<'a>(given: &ArgMatches<'a>) -> Option<Access<'a>>
    ensures { MatchOption result ((w : Access) → ¬ IsAccess (rows_of (found_of given.now)) w)
        (IsAccess (rows_of (found_of given.now))) }
{
    let db = text_in(given, OptionKind::Db)?;
    let policy = text_in(given, OptionKind::Policy)?;
    let token = token_in(given, OptionKind::Token)?;
    Some(Access { db, policy, token })
}

/// What the matches of `init` ask for.
fn init_in<'a>(given: &ArgMatches<'a>) -> Option<Words<'a>>
    ensures { IsRead Subcommand.Init (rows_of (found_of given.now)) result }
{
    let db = text_in(given, OptionKind::Db)?;
    Some(Words::Init(Init { db }))
}

/// What the matches of `serve` ask for.
fn serve_in<'a>(given: &ArgMatches<'a>) -> Option<Words<'a>>
    ensures { IsRead Subcommand.Serve (rows_of (found_of given.now)) result }
{
    let db = text_in(given, OptionKind::Db)?;
    let policy = text_in(given, OptionKind::Policy)?;
    let listen = text_in(given, OptionKind::Listen)?;
    let count = number_in(given, OptionKind::Count)?;
    Some(Words::Serve(Serve {
        db,
        policy,
        listen,
        count,
    }))
}

/// The desk that answers one request, or none for a database without a policy.
fn over_in<'a>(given: &ArgMatches<'a>) -> Option<Over<'a>>
    ensures { MatchOption result ((w : Over) → ¬ IsOver (rows_of (found_of given.now)) w)
        (IsOver (rows_of (found_of given.now))) }
{
    let policy = text_in(given, OptionKind::Policy);
    let Some(db) = text_in(given, OptionKind::Db) else {
        return Some(in_memory(policy));
    };
    match policy {
        Some(policy) => Some(Over::Database { policy, db }),
        None => None,
    }
}

/// A new desk in memory.
fn in_memory(policy: Option<&str>) -> Over<'_>
    ensures { IsInMemory (option_map (λ text. text.now) policy.entry) result }
{
    match policy {
        Some(policy) => Over::Memory { policy },
        None => Over::Trial,
    }
}

/// What the matches of `once` ask for.
fn once_in<'a>(given: &ArgMatches<'a>) -> Option<Words<'a>>
    ensures { IsRead Subcommand.Once (rows_of (found_of given.now)) result }
{
    let over = over_in(given)?;
    let now = number_in(given, OptionKind::Now)?;
    Some(Words::Once(Once { over, now }))
}

/// What the matches of `import` ask for.
fn import_in<'a>(given: &ArgMatches<'a>) -> Option<Words<'a>>
    ensures { IsRead Subcommand.Import (rows_of (found_of given.now)) result }
{
    let access = access_in(given)?;
    let fabric = fabric_in(given, OptionKind::Fabric)?;
    let file = text_in(given, OptionKind::File)?;
    let now = number_in(given, OptionKind::Now)?;
    Some(Words::Import(Import {
        access,
        fabric,
        file,
        now,
    }))
}

fn paths_in<'a>(given: &ArgMatches<'a>) -> Option<Paths<'a>>
    ensures { MatchOption result ((w : Paths) → ¬ IsPaths (rows_of (found_of given.now)) w)
        (IsPaths (rows_of (found_of given.now))) }
{
    let access = access_in(given)?;
    let host = name_in(given, OptionKind::Host)?;
    Some(Paths { access, host })
}

/// What the matches of `export` ask for.
fn export_in<'a>(given: &ArgMatches<'a>) -> Option<Words<'a>>
    ensures { IsRead Subcommand.Export (rows_of (found_of given.now)) result }
{
    let access = access_in(given)?;
    let fabric = fabric_in(given, OptionKind::Fabric)?;
    Some(Words::Export(Export { access, fabric }))
}

/// What the matches of `dryrun` ask for.
fn dry_run_in<'a>(given: &ArgMatches<'a>) -> Option<Words<'a>>
    ensures { IsRead Subcommand.DryRun (rows_of (found_of given.now)) result }
{
    let access = access_in(given)?;
    let plan = name_in(given, OptionKind::Plan)?;
    let now = number_in(given, OptionKind::Now)?;
    Some(Words::DryRun(DryRun { access, plan, now }))
}

/// What the matches of `why` ask for.
fn why_in<'a>(given: &ArgMatches<'a>) -> Option<Words<'a>>
    ensures { IsRead Subcommand.Why (rows_of (found_of given.now)) result }
{
    let access = access_in(given)?;
    let host = name_in(given, OptionKind::Host)?;
    let volume = name_in(given, OptionKind::Volume)?;
    Some(Words::Why(Why {
        access,
        host,
        volume,
        is_json: is_given(given, OptionKind::Json),
    }))
}

/// The volume or the port, or none where it is not one of them.
fn who_of_in(given: &ArgMatches<'_>) -> Option<WhoOf>
    ensures { MatchOption result ((w : WhoOf) → ¬ IsWhoOf (rows_of (found_of given.now)) w)
        (IsWhoOf (rows_of (found_of given.now))) }
{
    let volume = text_in(given, OptionKind::Volume);
    let port = text_in(given, OptionKind::Port);
    match (volume, port) {
        (Some(_), None) => match name_in(given, OptionKind::Volume) {
            Some(volume) => Some(WhoOf::Volume { volume }),
            None => None,
        },
        (None, Some(_)) => match wwn_in(given, OptionKind::Port) {
            Some(port) => Some(WhoOf::Port { port }),
            None => None,
        },
        _ => None,
    }
}

/// What the matches of `who` ask for.
fn who_in<'a>(given: &ArgMatches<'a>) -> Option<Words<'a>>
    ensures { IsRead Subcommand.Who (rows_of (found_of given.now)) result }
{
    let access = access_in(given)?;
    let of = who_of_in(given)?;
    Some(Words::Who(Who {
        access,
        of,
        is_json: is_given(given, OptionKind::Json),
    }))
}

/// What the matches of `list` ask for.
fn names_in<'a>(given: &ArgMatches<'a>) -> Option<Words<'a>>
    ensures { IsRead Subcommand.Names (rows_of (found_of given.now)) result }
{
    let access = access_in(given)?;
    let kind = kind_in(given, OptionKind::Kind)?;
    let state = state_in(given, OptionKind::State)?;
    if state.is_some() && kind != ListKind::Plans {
        return None;
    }
    Some(Words::Names(Names {
        access,
        kind,
        state,
        is_json: is_given(given, OptionKind::Json),
    }))
}

/// What the matches of `check` ask for: the one file that is to be checked, or none where it is not one.
fn check_in<'a>(given: &ArgMatches<'a>) -> Option<Words<'a>>
    ensures { IsRead Subcommand.Check (rows_of (found_of given.now)) result }
{
    let policy = text_in(given, OptionKind::Policy);
    let plan = text_in(given, OptionKind::PlanFile);
    let ports = text_in(given, OptionKind::Ports);
    match (policy, plan, ports) {
        (Some(path), None, None) => Some(Words::Check(Check::Policy { path })),
        (None, Some(path), None) => Some(Words::Check(Check::Plan { path })),
        (None, None, Some(path)) => Some(Words::Check(Check::Ports { path })),
        _ => None,
    }
}

/// The command, or none where a value of it has not its text form.
fn deed_in<'a>(given: &ArgMatches<'a>) -> Option<Deed<'a>>
    ensures { MatchOption result ((w : Deed) → ¬ IsDeed (rows_of (found_of given.now)) w)
        (IsDeed (rows_of (found_of given.now))) }
{
    let caller = name_in(given, OptionKind::Caller)?;
    let action = action_in(given, OptionKind::Action)?;
    let fabrics = fabrics_in(given, OptionKind::Fabrics)?;
    let tenants = list_in(given, OptionKind::Tenants, Part::Name)?;
    let author = maybe_name_in(given, OptionKind::Author)?;
    let approved = list_in(given, OptionKind::Approved, Part::Approval)?;
    let revision = number_in(given, OptionKind::Revision)?;
    let now = number_in(given, OptionKind::Now)?;
    Some(Deed {
        caller,
        action,
        fabrics,
        tenants,
        author,
        approved,
        revision,
        now,
    })
}

/// The rules or a command, or none where it is not one of them.
fn explain_of_in<'a>(given: &ArgMatches<'a>) -> Option<ExplainOf<'a>>
    ensures { MatchOption result ((w : ExplainOf) → ¬ IsExplainOf (rows_of (found_of given.now)) w)
        (IsExplainOf (rows_of (found_of given.now))) }
{
    let caller = text_in(given, OptionKind::Caller);
    let action = text_in(given, OptionKind::Action);
    if is_given(given, OptionKind::Rules) {
        return match (caller, action) {
            (None, None) => Some(ExplainOf::Rules),
            _ => None,
        };
    }
    match deed_in(given) {
        Some(deed) => Some(ExplainOf::Deed(deed)),
        None => None,
    }
}

/// What the matches of `explain` ask for.
fn explain_in<'a>(given: &ArgMatches<'a>) -> Option<Words<'a>>
    ensures { IsRead Subcommand.Explain (rows_of (found_of given.now)) result }
{
    let policy = text_in(given, OptionKind::Policy)?;
    let Some(of) = explain_of_in(given) else {
        return None;
    };
    Some(Words::Explain(Explain { policy, of }))
}

/// What the matches of `tryimport` ask for.
fn try_import_in<'a>(given: &ArgMatches<'a>) -> Option<Words<'a>>
    ensures { IsRead Subcommand.TryImport (rows_of (found_of given.now)) result }
{
    let access = access_in(given)?;
    let fabric = fabric_in(given, OptionKind::Fabric)?;
    let file = text_in(given, OptionKind::File)?;
    let most_lost = number_in(given, OptionKind::MostLost)?;
    Some(Words::TryImport(TryImport {
        access,
        fabric,
        file,
        most_lost,
        is_json: is_given(given, OptionKind::Json),
    }))
}

/// What the matches of `diff` ask for.
fn diff_in<'a>(given: &ArgMatches<'a>) -> Option<Words<'a>>
    ensures { IsRead Subcommand.Diff (rows_of (found_of given.now)) result }
{
    let access = access_in(given)?;
    let plan = name_in(given, OptionKind::Plan)?;
    Some(Words::Diff(Diff {
        access,
        plan,
        is_json: is_given(given, OptionKind::Json),
    }))
}
