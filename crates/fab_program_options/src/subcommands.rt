//! The subcommands of the program.
ghost use Rattle.std.specs.Prelude.{◌≡◌, ◌≢◌, MatchOption};
ghost use Rattle.fab_program_options.specs.declared.subcommands.Subcommand.{Subcommand};
ghost use Rattle.fab_program_options.specs.CommandLine.{subcommand_name, access_of, required_of, optional_of};

use fab_program_words::OptionKind;

// The longer examples, which help shows.
const SERVE: &str =
    "Example: sandesk serve --db desk.db --policy policy.toml --listen 127.0.0.1:8080";

const IMPORT: &str =
    "Example: sandesk import --db desk.db --policy policy.toml --token t-ada --fabric A --file \
     ports.csv";

const PATHS: &str =
    "Example: sandesk paths --db desk.db --policy policy.toml --token t-ada --host db1";

const REPORT: &str =
    "Example: sandesk report --db desk.db --policy policy.toml --token t-ada --host db1";

const EXPORT: &str =
    "Example: sandesk export --db desk.db --policy policy.toml --token t-ada --fabric A";

const DRY_RUN: &str =
    "Example: sandesk dryrun --db desk.db --policy policy.toml --token t-ada --plan p1";

const WHY: &str =
    "Example: sandesk why --db desk.db --policy policy.toml --token t-ada --host db1 --volume v1";

const WHO: &str =
    "Example: sandesk who --db desk.db --policy policy.toml --token t-ada --volume v1";

const LIST: &str = "Example: sandesk list --db desk.db --policy policy.toml --token t-ada hosts";

const EXPLAIN: &str =
    "Example: sandesk explain --policy policy.toml --caller ada --action activate --fabric B \
     --approved bob@6 --revision 6";

const TRY_IMPORT: &str =
    "Example: sandesk tryimport --db desk.db --policy policy.toml --token t-ada --fabric A \
     --file ports.csv --most-lost 0";

const DIFF: &str =
    "Example: sandesk diff --db desk.db --policy policy.toml --token t-ada --plan p1";

/// What the program does.
#[derive(Clone, Copy)]
pub enum Subcommand {
    /// Makes a database.
    Init,
    /// Serves HTTP connections.
    Serve,
    /// Answers one request.
    Once,
    /// Imports the ports of a fabric.
    Import,
    /// Lists the paths of a host.
    Paths,
    /// Reports on the volumes of a host.
    Report,
    /// Shows the active set of a fabric.
    Export,
    /// Tells what a plan would change.
    DryRun,
    /// Tells why a host reaches a volume or does not.
    Why,
    /// Tells who reaches a volume, or what is around a port.
    Who,
    /// Lists what there is of a kind.
    Names,
    /// Tells what is wrong with a file.
    Check,
    /// Tells what a policy says of a command.
    Explain,
    /// Tells what an import would gain and lose.
    TryImport,
    /// Tells what activating a plan would change.
    Diff,
}

/// Every subcommand, in the order of the help.
pub const SUBCOMMANDS: [Subcommand; 15] = [
    Subcommand::Init,
    Subcommand::Serve,
    Subcommand::Once,
    Subcommand::Import,
    Subcommand::Paths,
    Subcommand::Report,
    Subcommand::Export,
    Subcommand::DryRun,
    Subcommand::Why,
    Subcommand::Who,
    Subcommand::Names,
    Subcommand::Check,
    Subcommand::Explain,
    Subcommand::TryImport,
    Subcommand::Diff,
];

impl Subcommand {
    /// The subcommand of this name.
    pub fn from_name(name: &str) -> Option<Self>
        ensures { MatchOption result ((s : Subcommand) → name.now ≢ subcommand_name s)
            (λ s. name.now ≡ subcommand_name s) }
    {
        match name {
            "init" => Some(Subcommand::Init),
            "serve" => Some(Subcommand::Serve),
            "once" => Some(Subcommand::Once),
            "import" => Some(Subcommand::Import),
            "paths" => Some(Subcommand::Paths),
            "report" => Some(Subcommand::Report),
            "export" => Some(Subcommand::Export),
            "dryrun" => Some(Subcommand::DryRun),
            "why" => Some(Subcommand::Why),
            "who" => Some(Subcommand::Who),
            "list" => Some(Subcommand::Names),
            "check" => Some(Subcommand::Check),
            "explain" => Some(Subcommand::Explain),
            "tryimport" => Some(Subcommand::TryImport),
            "diff" => Some(Subcommand::Diff),
            _ => None,
        }
    }

    /// The name, which is the word that asks for it.
    pub fn name<'a>(self) -> &'a str
        ensures { result.now ≡ subcommand_name self }
    {
        match self {
            Subcommand::Init => "init",
            Subcommand::Serve => "serve",
            Subcommand::Once => "once",
            Subcommand::Import => "import",
            Subcommand::Paths => "paths",
            Subcommand::Report => "report",
            Subcommand::Export => "export",
            Subcommand::DryRun => "dryrun",
            Subcommand::Why => "why",
            Subcommand::Who => "who",
            Subcommand::Names => "list",
            Subcommand::Check => "check",
            Subcommand::Explain => "explain",
            Subcommand::TryImport => "tryimport",
            Subcommand::Diff => "diff",
        }
    }

    /// The options by which it asks as a caller at a database.
    pub fn access(self) -> &'static [OptionKind]
        ensures { result.now ≡ access_of self }
    {
        match self {
            Subcommand::Init
            | Subcommand::Serve
            | Subcommand::Once
            | Subcommand::Check
            | Subcommand::Explain => &[],
            _ => &[OptionKind::Db, OptionKind::Policy, OptionKind::Token],
        }
    }

    /// The options that it must have beside those.
    pub fn required(self) -> &'static [OptionKind]
        ensures { result.now ≡ required_of self }
    {
        match self {
            Subcommand::Init => &[OptionKind::Db],
            Subcommand::Serve => &[OptionKind::Db, OptionKind::Policy, OptionKind::Listen],
            Subcommand::Once | Subcommand::Check | Subcommand::Who => &[],
            Subcommand::Import | Subcommand::TryImport => &[OptionKind::Fabric, OptionKind::File],
            Subcommand::Paths | Subcommand::Report => &[OptionKind::Host],
            Subcommand::Export => &[OptionKind::Fabric],
            Subcommand::DryRun | Subcommand::Diff => &[OptionKind::Plan],
            Subcommand::Why => &[OptionKind::Host, OptionKind::Volume],
            Subcommand::Names => &[OptionKind::Kind],
            Subcommand::Explain => &[OptionKind::Policy],
        }
    }

    /// The options that it may have.
    pub fn optional(self) -> &'static [OptionKind]
        ensures { result.now ≡ optional_of self }
    {
        match self {
            Subcommand::Init | Subcommand::Paths | Subcommand::Report | Subcommand::Export => &[],
            Subcommand::Serve => &[OptionKind::Count],
            Subcommand::Once => &[OptionKind::Policy, OptionKind::Db, OptionKind::Now],
            Subcommand::Import | Subcommand::DryRun => &[OptionKind::Now],
            Subcommand::Why | Subcommand::Diff => &[OptionKind::Json],
            Subcommand::TryImport => &[OptionKind::MostLost, OptionKind::Json],
            Subcommand::Who => &[OptionKind::Volume, OptionKind::Port, OptionKind::Json],
            Subcommand::Names => &[OptionKind::State, OptionKind::Json],
            Subcommand::Check => &[OptionKind::Policy, OptionKind::PlanFile, OptionKind::Ports],
            Subcommand::Explain => &[
                OptionKind::Rules,
                OptionKind::Caller,
                OptionKind::Action,
                OptionKind::Fabrics,
                OptionKind::Tenants,
                OptionKind::Author,
                OptionKind::Approved,
                OptionKind::Revision,
                OptionKind::Now,
            ],
        }
    }

    /// What help says of it.
    pub fn about<'a>(self) -> &'a str {
        match self {
            Subcommand::Init => "Makes an empty database, where no file or an empty one is",
            Subcommand::Serve =>
                "Serves HTTP connections: gathers requests side by side, and answers them in turn",
            Subcommand::Once => {
                "Answers one HTTP request from standard input on standard output. Without --db the \
                 desk is a new one in memory; without --policy it is a trial under a sample policy"
            }
            Subcommand::Import => "Imports the list of all ports that are logged in to a fabric",
            Subcommand::Paths => "Lists the paths of a host as CSV",
            Subcommand::Report => "Reports how many paths a host has to each of its volumes",
            Subcommand::Export => "Shows the active zone set of a fabric",
            Subcommand::DryRun =>
                "Tells which paths a plan would add and remove, and changes nothing",
            Subcommand::Why => {
                "Tells by which paths a host reaches a volume, or which link between them is missing"
            }
            Subcommand::Who => {
                "Lists the hosts that reach a volume, and by how many paths; or shows what is around a port"
            }
            Subcommand::Names => "Lists what there is of a kind, as far as the caller may see it",
            Subcommand::Check => {
                "Tells what is wrong with a policy, a plan or a port list, and what is worth a look in \
                 a policy"
            }
            Subcommand::Explain => {
                "Tells what a policy says of a command, rule by rule, and when its windows open; or shows \
                 the policy without its tokens"
            }
            Subcommand::TryImport => {
                "Tells which ports and paths an import of a port list would gain and lose, and changes \
                 nothing"
            }
            Subcommand::Diff =>
                "Tells what activating a staged plan would change, and changes nothing",
        }
    }

    /// An example of its use, which help shows.
    pub fn example<'a>(self) -> &'a str {
        match self {
            Subcommand::Init => "Example: sandesk init --db desk.db",
            Subcommand::Serve => SERVE,
            Subcommand::Once => "Example: sandesk once --now 349200 < request.http",
            Subcommand::Import => IMPORT,
            Subcommand::Paths => PATHS,
            Subcommand::Report => REPORT,
            Subcommand::Export => EXPORT,
            Subcommand::DryRun => DRY_RUN,
            Subcommand::Why => WHY,
            Subcommand::Who => WHO,
            Subcommand::Names => LIST,
            Subcommand::Check => "Example: sandesk check --policy policy.toml",
            Subcommand::Explain => EXPLAIN,
            Subcommand::TryImport => TRY_IMPORT,
            Subcommand::Diff => DIFF,
        }
    }
}
