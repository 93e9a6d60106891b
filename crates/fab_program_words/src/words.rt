//! What the words of a command line ask for.

use fab_names::{Fabric, Name, Wwn};

/// What the words ask for.
#[derive(Clone, Copy)]
pub enum Words<'a> {
    /// `init`: makes a database.
    Init(Init<'a>),
    /// `serve`: serves HTTP connections.
    Serve(Serve<'a>),
    /// `once`: answers one request.
    Once(Once<'a>),
    /// `import`: imports the ports of a fabric.
    Import(Import<'a>),
    /// `paths`: lists the paths of a host.
    Paths(Paths<'a>),
    /// `report`: reports on the volumes of a host.
    Report(Paths<'a>),
    /// `export`: shows the active set of a fabric.
    Export(Export<'a>),
    /// `dryrun`: tells what a plan would change.
    DryRun(DryRun<'a>),
    /// `why`: tells why a host reaches a volume or does not.
    Why(Why<'a>),
    /// `who`: tells who reaches a volume, or what is around a port.
    Who(Who<'a>),
    /// `list`: lists what there is of a kind.
    Names(Names<'a>),
    /// `check`: tells what is wrong with a file.
    Check(Check<'a>),
    /// `explain`: tells what a policy says of a command.
    Explain(Explain<'a>),
    /// `tryimport`: tells what an import would gain and lose.
    TryImport(TryImport<'a>),
    /// `diff`: tells what activating a plan would change.
    Diff(Diff<'a>),
}

/// A caller at a database.
#[derive(Clone, Copy)]
pub struct Access<'a> {
    /// The database's file.
    pub db: &'a str,
    /// The policy's file.
    pub policy: &'a str,
    /// The caller's token: 1 to 128 letters, digits and `-._~+/=`.
    pub token: &'a str,
}

/// A database to be made.
#[derive(Clone, Copy)]
pub struct Init<'a> {
    /// The database's file.
    pub db: &'a str,
}

/// Connections to be served.
#[derive(Clone, Copy)]
pub struct Serve<'a> {
    /// The database's file.
    pub db: &'a str,
    /// The policy's file.
    pub policy: &'a str,
    /// The address and the port, as they were given.
    pub listen: &'a str,
    /// How many connections; without it, until accepting one fails, or the clock does.
    pub count: Option<u64>,
}

/// The desk that answers one request.
#[derive(Clone, Copy)]
pub enum Over<'a> {
    /// A new desk in memory, under the sample policy.
    Trial,
    /// A new desk in memory, under the policy of a file.
    Memory { policy: &'a str },
    /// The desk of a database's file, under the policy of a file.
    Database { policy: &'a str, db: &'a str },
}

/// A request to be answered.
#[derive(Clone, Copy)]
pub struct Once<'a> {
    /// The desk that answers it.
    pub over: Over<'a>,
    /// The moment, in seconds since 1970; without it the clock's.
    pub now: Option<u64>,
}

/// A port list to be imported.
#[derive(Clone, Copy)]
pub struct Import<'a> {
    /// Who imports it, and into which database.
    pub access: Access<'a>,
    /// The fabric whose ports the list has.
    pub fabric: Fabric,
    /// The port list's file.
    pub file: &'a str,
    /// The moment, in seconds since 1970; without it the clock's.
    pub now: Option<u64>,
}

/// A host whose paths are asked for.
#[derive(Clone, Copy)]
pub struct Paths<'a> {
    /// Who asks, and at which database.
    pub access: Access<'a>,
    /// The name of the host.
    pub host: Name,
}

/// A fabric whose active set is asked for.
#[derive(Clone, Copy)]
pub struct Export<'a> {
    /// Who asks, and at which database.
    pub access: Access<'a>,
    /// The fabric.
    pub fabric: Fabric,
}

/// A plan to be tried.
#[derive(Clone, Copy)]
pub struct DryRun<'a> {
    /// Who asks, and at which database.
    pub access: Access<'a>,
    /// The name of the plan.
    pub plan: Name,
    /// The moment, in seconds since 1970; without it the clock's.
    pub now: Option<u64>,
}

/// A host and a volume, of which it is asked why the one reaches the other or does not.
#[derive(Clone, Copy)]
pub struct Why<'a> {
    /// Who asks, and at which database.
    pub access: Access<'a>,
    /// The name of the host.
    pub host: Name,
    /// The name of the volume.
    pub volume: Name,
    /// Whether JSON is asked for.
    pub is_json: bool,
}

/// Of what it is asked who is there.
#[derive(Clone, Copy)]
pub enum WhoOf {
    /// Who reaches this volume.
    Volume { volume: Name },
    /// Who holds this port, and which zones and storage groups have it.
    Port { port: Wwn },
}

/// A volume or a port, of which it is asked who is there.
#[derive(Clone, Copy)]
pub struct Who<'a> {
    /// Who asks, and at which database.
    pub access: Access<'a>,
    /// The volume or the port.
    pub of: WhoOf,
    /// Whether JSON is asked for.
    pub is_json: bool,
}

/// What a list is of.
#[derive(Clone, Copy, PartialEq, Eq)]
pub enum ListKind {
    /// The hosts.
    Hosts,
    /// The arrays.
    Arrays,
    /// The volumes.
    Volumes,
    /// The ports.
    Ports,
    /// The aliases of both fabrics.
    Aliases,
    /// The zones of both fabrics.
    Zones,
    /// The zone sets of both fabrics.
    Sets,
    /// The host groups.
    HostGroups,
    /// The storage groups.
    Groups,
    /// The plans.
    Plans,
}

/// In which state plans are that are listed.
#[derive(Clone, Copy)]
pub enum ListState {
    /// They wait for their activation.
    Staged,
    /// They were activated, and their activation is in force.
    Active,
    /// Their activation was undone.
    RolledBack,
    /// They were withdrawn before they were activated.
    Withdrawn,
}

/// A kind of which a list is asked for.
#[derive(Clone, Copy)]
pub struct Names<'a> {
    /// Who asks, and at which database.
    pub access: Access<'a>,
    /// The kind.
    pub kind: ListKind,
    /// Only plans in this state, if one is given.
    pub state: Option<ListState>,
    /// Whether JSON is asked for.
    pub is_json: bool,
}

/// A file of which it is asked what is wrong with it.
#[derive(Clone, Copy)]
pub enum Check<'a> {
    /// The file of a policy.
    Policy { path: &'a str },
    /// The file of a plan's text.
    Plan { path: &'a str },
    /// The file of a port list.
    Ports { path: &'a str },
}

/// What a command does, as a policy names it.
#[derive(Clone, Copy)]
pub enum ActionWord {
    /// It imports a port list.
    Import,
    /// It puts or drops a host, an array or a volume.
    Inventory,
    /// It stages a plan.
    Stage,
    /// It withdraws a staged plan.
    Withdraw,
    /// It approves a staged plan.
    Approve,
    /// It tells what activating a plan would gain and lose.
    DryRun,
    /// It activates a staged plan.
    Activate,
    /// It rolls an active plan back.
    Rollback,
}

/// The fabrics that a command names.
#[derive(Clone, Copy)]
pub enum NamedFabrics {
    /// Fabric A alone.
    A,
    /// Fabric B alone.
    B,
    /// Both fabrics.
    Both,
}

/// A command of which it is asked what a policy says.
#[derive(Clone, Copy)]
pub struct Deed<'a> {
    /// Who sends it.
    pub caller: Name,
    /// What it does.
    pub action: ActionWord,
    /// Without it no fabric.
    pub fabrics: Option<NamedFabrics>,
    /// The tenants whose things it touches: names with commas between. Without it none.
    pub tenants: Option<&'a str>,
    /// The author of its plan; without it the caller.
    pub author: Option<Name>,
    /// The approvals of its plan: names, each with `@` and a revision, with commas between. Without it
    /// none.
    pub approved: Option<&'a str>,
    /// The present revision; without it 0.
    pub revision: Option<u64>,
    /// The moment, in seconds since 1970; without it the clock's.
    pub now: Option<u64>,
}

/// What is asked of a policy.
#[derive(Clone, Copy)]
pub enum ExplainOf<'a> {
    /// What it is, without its tokens.
    Rules,
    /// What it says of a command.
    Deed(Deed<'a>),
}

/// A policy of which something is asked.
#[derive(Clone, Copy)]
pub struct Explain<'a> {
    /// The policy's file.
    pub policy: &'a str,
    /// What is asked of it.
    pub of: ExplainOf<'a>,
}

/// A port list of which it is asked what its import would gain and lose.
#[derive(Clone, Copy)]
pub struct TryImport<'a> {
    /// Who asks, and at which database.
    pub access: Access<'a>,
    /// The fabric whose ports the list has.
    pub fabric: Fabric,
    /// The port list's file.
    pub file: &'a str,
    /// How many paths it may lose; without it any number.
    pub most_lost: Option<u64>,
    /// Whether JSON is asked for.
    pub is_json: bool,
}

/// A plan of which it is asked what activating it would change.
#[derive(Clone, Copy)]
pub struct Diff<'a> {
    /// Who asks, and at which database.
    pub access: Access<'a>,
    /// The name of the plan.
    pub plan: Name,
    /// Whether JSON is asked for.
    pub is_json: bool,
}
