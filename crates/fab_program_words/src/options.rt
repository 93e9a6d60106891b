//! The options of the subcommands.
ghost use Rattle.std.specs.Prelude.{◌≡◌};
ghost use Rattle.fab_program_words.specs.Options.{option_name, shape_of};

/// How an option stands in the words.
#[derive(Clone, Copy)]
pub enum OptionShape {
    /// Its name behind `--`, and a value.
    Value,
    /// A value alone.
    Place,
    /// Its name behind `--` alone.
    Flag,
}

/// An option of a subcommand.
#[derive(Clone, Copy)]
pub enum OptionKind {
    /// The file of the database.
    Db,
    /// The file of the policy.
    Policy,
    /// The address and the port to listen at.
    Listen,
    /// How many connections are served.
    Count,
    /// The moment that stands for the clock's.
    Now,
    /// The caller's token.
    Token,
    /// A fabric.
    Fabric,
    /// The file of a port list.
    File,
    /// A host.
    Host,
    /// A plan.
    Plan,
    /// A volume.
    Volume,
    /// What a list is of.
    Kind,
    /// JSON is asked for.
    Json,
    /// The file of a plan's text.
    PlanFile,
    /// The file of a port list that is checked.
    Ports,
    /// The state of the plans that are listed.
    State,
    /// A port.
    Port,
    /// The rules of a policy are asked for.
    Rules,
    /// The name of a caller.
    Caller,
    /// What a command does.
    Action,
    /// The fabrics that a command names.
    Fabrics,
    /// The tenants whose things a command touches.
    Tenants,
    /// The author of a plan.
    Author,
    /// The approvals of a plan.
    Approved,
    /// A revision.
    Revision,
    /// How many paths may be lost.
    MostLost,
}

impl OptionKind {
    /// The name, which stands behind `--`.
    pub fn name<'a>(self) -> &'a str
        ensures { result.now ≡ option_name self }
    {
        match self {
            OptionKind::Db => "db",
            OptionKind::Policy => "policy",
            OptionKind::Listen => "listen",
            OptionKind::Count => "count",
            OptionKind::Now => "now",
            OptionKind::Token => "token",
            OptionKind::Fabric => "fabric",
            OptionKind::File => "file",
            OptionKind::Host => "host",
            OptionKind::Plan => "plan",
            OptionKind::Volume => "volume",
            OptionKind::Kind => "kind",
            OptionKind::Json => "json",
            OptionKind::PlanFile => "plan",
            OptionKind::Ports => "ports",
            OptionKind::State => "state",
            OptionKind::Port => "port",
            OptionKind::Rules => "rules",
            OptionKind::Caller => "caller",
            OptionKind::Action => "action",
            OptionKind::Fabrics => "fabric",
            OptionKind::Tenants => "tenants",
            OptionKind::Author => "author",
            OptionKind::Approved => "approved",
            OptionKind::Revision => "revision",
            OptionKind::MostLost => "most-lost",
        }
    }

    /// How it stands in the words.
    pub fn shape(self) -> OptionShape
        ensures { result ≡ shape_of self }
    {
        match self {
            OptionKind::Kind => OptionShape::Place,
            OptionKind::Json | OptionKind::Rules => OptionShape::Flag,
            _ => OptionShape::Value,
        }
    }

    /// What help calls the value.
    pub fn value_name<'a>(self) -> &'a str {
        match self {
            OptionKind::Db
            | OptionKind::Policy
            | OptionKind::File
            | OptionKind::PlanFile
            | OptionKind::Ports => "PATH",
            OptionKind::Listen => "ADDR:PORT",
            OptionKind::Count | OptionKind::Revision | OptionKind::MostLost => "N",
            OptionKind::Now => "SECONDS",
            OptionKind::Token => "TOKEN",
            OptionKind::Fabric => "A|B",
            OptionKind::Fabrics => "A|B|A,B",
            OptionKind::Host
            | OptionKind::Plan
            | OptionKind::Volume
            | OptionKind::Caller
            | OptionKind::Author => "NAME",
            OptionKind::Action => "WORD",
            OptionKind::Tenants => "NAME,..",
            OptionKind::Approved => "NAME@N,..",
            OptionKind::State => "STATE",
            OptionKind::Port => "WWN",
            OptionKind::Kind | OptionKind::Json | OptionKind::Rules => "KIND",
        }
    }

    /// What help says of the option.
    pub fn help<'a>(self) -> &'a str {
        match self {
            OptionKind::Db => "The file of the database, which `sandesk init` makes",
            OptionKind::Policy => "The policy in TOML: callers, windows and rules",
            OptionKind::Listen => "Where to listen, as 127.0.0.1:8080",
            OptionKind::Count => "How many connections to serve [default: no end]",
            OptionKind::Now => {
                "The moment in seconds since 1970-01-01T00:00:00Z [default: the clock's]"
            }
            OptionKind::Token => "The token of the caller, as the policy lists it",
            OptionKind::Fabric => "The fabric, A or B",
            OptionKind::File | OptionKind::Ports => {
                "The ports of a fabric: CSV lines port_name,node_name,domain,port[,address]"
            }
            OptionKind::Host => "The name of the host",
            OptionKind::Plan => "The name of the plan",
            OptionKind::Volume => "The name of the volume",
            OptionKind::Kind => {
                "hosts, arrays, volumes, ports, aliases, zones, sets, host-groups, groups or plans"
            }
            OptionKind::Json => "Writes JSON, for programs",
            OptionKind::PlanFile => "The text of a plan: a line for each step",
            OptionKind::Port => "The N_Port_Name of the port",
            OptionKind::Rules => "Shows the policy without its tokens",
            OptionKind::Caller => "The name of the caller, as the policy has it",
            OptionKind::Action => {
                "import, inventory, stage, withdraw, approve, dryrun, activate or rollback"
            }
            OptionKind::Fabrics => "The fabrics that the command names [default: none]",
            OptionKind::Tenants => {
                "The tenants whose things the command touches, with commas between [default: none]"
            }
            OptionKind::Author => "The author of the plan [default: the caller]",
            OptionKind::Approved => {
                "Who approved the plan, each with the revision, with commas between [default: nobody]"
            }
            OptionKind::Revision => "The present revision [default: 0]",
            OptionKind::MostLost => "How many paths may be lost [default: any number]",
            OptionKind::State => "Only plans that are staged, active, rolled-back or withdrawn",
        }
    }
}
