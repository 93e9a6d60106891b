//! What the desk answers.

use crate::DeskFault;
use fab_policy::Approval;
use fab_reach_base::inventory::{HolderKind, Volume};
use fab_reach_base::names::{Address, Fabric, Member, Name, Place, Wwn};
use fab_reach_base::zoning::DefaultFlag;
use fab_reach_base::{Delta, Path};
use fab_world::load::rows::PlanState;
use std::alloc::Allocator;

/// What the desk answers to a command.
pub enum Reply<A: Allocator + Copy> {
    /// An import, a put or a drop was done: the revision after it.
    Changed {
        /// The revision after it.
        revision: u64,
    },
    /// The plan is staged, with so many steps, 1 to 200.
    Staged {
        /// The name of the plan.
        plan: Name,
        /// How many steps it has, 1 to 200.
        steps: usize,
    },
    /// The plan is withdrawn.
    Withdrawn {
        /// The name of the plan.
        plan: Name,
    },
    /// The plan has approvals of so many callers; the present revision.
    Approved {
        /// The name of the plan.
        plan: Name,
        /// How many callers approved it.
        approvals: usize,
        /// The present revision.
        revision: u64,
    },
    /// What the activation of the plan would gain and lose.
    Tried {
        /// The name of the plan.
        plan: Name,
        /// The paths that it would gain and lose.
        delta: Delta<A>,
    },
    /// What the activation or the rollback of the plan gained and lost, and the revision after it.
    Reconfigured {
        /// The name of the plan.
        plan: Name,
        /// The paths that it gained and lost.
        delta: Delta<A>,
        /// The revision after it.
        revision: u64,
    },
    /// What a read asked for.
    Shown(Shown<A>),
    /// The command was refused.
    Refused(DeskFault),
}

// It is written out, so that a caller does not prove again how each part is dropped.
impl<A: Allocator + Copy> Drop for Reply<A> {
    fn drop(self) {
        match self {
            Reply::Changed { revision: _ } => {}
            Reply::Staged { plan: _, steps: _ } => {}
            Reply::Withdrawn { plan: _ } => {}
            Reply::Approved {
                plan: _,
                approvals: _,
                revision: _,
            } => {}
            Reply::Tried { plan: _, delta: _ } => {}
            Reply::Reconfigured {
                plan: _,
                delta: _,
                revision: _,
            } => {}
            Reply::Shown(_) => {}
            Reply::Refused(_) => {}
        }
    }
}

/// Why two ports may communicate.
#[derive(Clone, Copy, Drop)]
pub enum Joint {
    /// The first zone by name of the active set that has both.
    Zone(Name),
    /// The default zone has both, and permits it.
    Default,
}

/// A zone of an active set, with its members in order, each once.
#[derive(Drop)]
pub struct ZoneMembers<A: Allocator + Copy> {
    /// Its name.
    pub name: Name,
    /// Its members.
    pub members: Vec<Member, A>,
}

/// A host or an array, and the ports that it holds, in order.
#[derive(Drop)]
pub struct ShownHolder<A: Allocator + Copy> {
    /// Whether it is a host or an array.
    pub kind: HolderKind,
    /// Its name.
    pub name: Name,
    /// Whose it is.
    pub tenant: Name,
    /// The N_Port_Names of its ports.
    pub ports: Vec<Wwn, A>,
}

/// A storage group, its host groups, its targets, and its volumes by their logical unit numbers,
/// each in order.
#[derive(Drop)]
pub struct ShownGroup<A: Allocator + Copy> {
    /// Its name.
    pub name: Name,
    /// Whose it is.
    pub tenant: Name,
    /// The array that it is on.
    pub array: Name,
    /// Whether it is exposed.
    pub exposed: bool,
    /// The names of the host groups that it serves.
    pub host_groups: Vec<Name, A>,
    /// The N_Port_Names of its targets.
    pub targets: Vec<Wwn, A>,
    /// Its logical unit numbers, 0 to 16383, each with the name of the volume there.
    pub units: Vec<(u16, Name), A>,
}

/// A plan, its approvals by the names of the callers, in order, and the printed form of its steps.
#[derive(Drop)]
pub struct ShownPlan<A: Allocator + Copy> {
    /// Its name.
    pub name: Name,
    /// Who staged it.
    pub author: Name,
    /// Its state.
    pub state: PlanState,
    /// Its approvals, one a caller at most.
    pub approvals: Vec<Approval, A>,
    /// The printed form of its steps.
    pub text: String<A>,
}

/// What a read shows. Lists are in order and have each item once: names by their bytes,
/// world-wide names and units as numbers, members by their kind and then by number or name.
pub enum Shown<A: Allocator + Copy> {
    /// The paths of a host.
    Paths {
        /// The name of the host.
        host: Name,
        /// Its paths, in order.
        paths: Vec<Path, A>,
    },
    /// Why the two ports may communicate, or that they may not.
    Joined(Option<Joint>),
    /// A port, the Node_Name of its node, where it is logged in, if anywhere, and the address that
    /// it has there, if one is known.
    Port {
        /// Its N_Port_Name.
        name: Wwn,
        /// The Node_Name of its node.
        node: Wwn,
        /// The fabric and the place in it where it is logged in, if anywhere.
        at: Option<(Fabric, Place)>,
        /// The address that it has there, if one is known.
        address: Option<Address>,
    },
    /// A host or an array, and the ports that it holds.
    Holder(ShownHolder<A>),
    /// A volume.
    Volume {
        /// Its name.
        name: Name,
        /// Its array, whose it is, and its capacity.
        volume: Volume,
    },
    /// A host group, and its hosts.
    HostGroup {
        /// Its name.
        name: Name,
        /// Whose it is.
        tenant: Name,
        /// The names of its hosts.
        hosts: Vec<Name, A>,
    },
    /// A storage group, and its parts.
    Group(ShownGroup<A>),
    /// A plan, its approvals, and the printed form of its steps.
    Plan(ShownPlan<A>),
    /// An alias or a zone, and its members.
    Members {
        /// The fabric that has it.
        fabric: Fabric,
        /// Its name.
        name: Name,
        /// Its members.
        members: Vec<Member, A>,
    },
    /// A zone set, and its zones.
    Set {
        /// The fabric that has it.
        fabric: Fabric,
        /// Its name.
        name: Name,
        /// The names of its zones.
        zones: Vec<Name, A>,
    },
    /// The active set of a fabric, if there is one, what the default zone permits, and the zones
    /// that are active, as they were when the set was activated.
    Active {
        /// The fabric.
        fabric: Fabric,
        /// The name of its active zone set, if one is active.
        active: Option<Name>,
        /// What its default zone permits.
        flag: DefaultFlag,
        /// The zones that are active, by name, with their members.
        zones: Vec<ZoneMembers<A>, A>,
    },
}

// It is written out, so that a caller does not prove again how each part is dropped.
impl<A: Allocator + Copy> Drop for Shown<A> {
    fn drop(self) {
        match self {
            Shown::Paths { host: _, paths: _ } => {}
            Shown::Joined(_) => {}
            Shown::Port {
                name: _,
                node: _,
                at: _,
                address: _,
            } => {}
            Shown::Holder(_) => {}
            Shown::Volume { name: _, volume: _ } => {}
            Shown::HostGroup {
                name: _,
                tenant: _,
                hosts: _,
            } => {}
            Shown::Group(_) => {}
            Shown::Plan(_) => {}
            Shown::Members {
                fabric: _,
                name: _,
                members: _,
            } => {}
            Shown::Set {
                fabric: _,
                name: _,
                zones: _,
            } => {}
            Shown::Active {
                fabric: _,
                active: _,
                flag: _,
                zones: _,
            } => {}
        }
    }
}
