//! What a caller asks of the desk.
ghost use Rattle.std.specs.Prelude.{◌≡◌};

use fab_reach_base::inventory::{HolderKind, PortRow, Volume};
use fab_reach_base::names::{Fabric, Name, Wwn};
use fab_world::plans::base::Step;
use std::alloc::Allocator;

/// A command: a change of the world, a dry run of one, or a read.
///
/// The first three changes have values that a body gives. A body gives at most 64 ports (equal
/// ones counted), a capacity of 1 to 9223372036854775807 bytes, and 1 to 200 steps whose printed
/// form has at most 65536 bytes; a command with other values is answered as a bad body.
pub enum Command<A: Allocator + Copy> {
    /// Takes over the whole list of the ports that are logged in at a fabric.
    Import {
        /// The fabric.
        fabric: Fabric,
        /// The records of its port list.
        rows: Vec<PortRow, A>,
    },
    /// Makes or replaces a host or an array, with just these ports.
    PutHolder {
        /// Whether it is a host or an array.
        kind: HolderKind,
        /// Its name.
        name: Name,
        /// Whose it is.
        tenant: Name,
        /// The N_Port_Names of its ports.
        ports: Vec<Wwn, A>,
    },
    /// Makes or replaces a volume.
    PutVolume {
        /// Its name.
        name: Name,
        /// Its array, whose it is, and its capacity.
        volume: Volume,
    },
    /// Drops a host or an array.
    DropHolder {
        /// Whether it is a host or an array.
        kind: HolderKind,
        /// Its name.
        name: Name,
    },
    /// Drops a volume.
    DropVolume {
        /// Its name.
        name: Name,
    },
    /// Stages a plan of these steps, with the caller as its author.
    Stage {
        /// The name of the plan.
        plan: Name,
        /// Its steps, in order.
        steps: Vec<Step<A>, A>,
    },
    /// Withdraws a staged plan.
    Withdraw {
        /// The name of the plan.
        plan: Name,
    },
    /// Approves a staged plan at the present revision.
    Approve {
        /// The name of the plan.
        plan: Name,
    },
    /// Tells what the activation of the plan would gain and lose now, and changes nothing.
    DryRun {
        /// The name of the plan.
        plan: Name,
    },
    /// Carries out the steps of a staged plan, whole or not at all.
    Activate {
        /// The name of the plan.
        plan: Name,
    },
    /// Puts back the configuration from before the activation of the plan.
    Rollback {
        /// The name of the plan.
        plan: Name,
    },
    /// Shows something.
    Show(Query),
}

// It is written out, so that a caller does not prove again how each part is dropped.
impl<A: Allocator + Copy> Drop for Command<A> {
    fn drop(self) {
        match self {
            Command::Import { fabric: _, rows: _ } => {}
            Command::PutHolder {
                kind: _,
                name: _,
                tenant: _,
                ports: _,
            } => {}
            Command::PutVolume { name: _, volume: _ } => {}
            Command::DropHolder { kind: _, name: _ } => {}
            Command::DropVolume { name: _ } => {}
            Command::Stage { plan: _, steps: _ } => {}
            Command::Withdraw { plan: _ } => {}
            Command::Approve { plan: _ } => {}
            Command::DryRun { plan: _ } => {}
            Command::Activate { plan: _ } => {}
            Command::Rollback { plan: _ } => {}
            Command::Show(_) => {}
        }
    }
}

impl<A: Allocator + Copy> Command<A> {
    ghost use Rattle.fab_desk_base.specs.Commands.{IsStaging};
    ghost use Rattle.fab_desk_base.specs.declared.command.Command.TheVariants.{Stage};

    /// The name and the steps of the plan that the command stages. It has to stage one.
    pub fn into_staged(self) -> (Name, Vec<Step<A>, A>)
        requires { IsStaging self }
        ensures { self ≡ Stage result.0 result.1 }
    {
        match self {
            Command::Stage { plan, steps } => (plan, steps),
            _ => unreachable!(),
        }
    }
}

/// What a read asks for. A read meets no rule of the policy and changes nothing.
#[derive(Clone, Copy, Drop)]
pub enum Query {
    /// The paths whose initiator the host holds.
    Paths { host: Name },
    /// Whether two ports may communicate, and why.
    Joined { port: Wwn, other: Wwn },
    /// A port: its node, and where it is logged in.
    Port { name: Wwn },
    /// A host or an array, with its ports.
    Holder { kind: HolderKind, name: Name },
    /// A volume.
    Volume { name: Name },
    /// A host group, with its hosts.
    HostGroup { name: Name },
    /// A storage group, with its parts.
    Group { name: Name },
    /// A plan, with its approvals and its text.
    Plan { name: Name },
    /// An alias, with its members.
    Alias { fabric: Fabric, name: Name },
    /// A zone, with its members.
    Zone { fabric: Fabric, name: Name },
    /// A zone set, with its zones.
    Set { fabric: Fabric, name: Name },
    /// What is active in a fabric, and what its default zone permits.
    Active { fabric: Fabric },
}
