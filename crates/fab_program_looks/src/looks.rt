//! A look at the world of a store.
ghost use Rattle.std.specs.Prelude.{IfOk};
ghost use Rattle.fab_program_looks.specs.Looks.{LooksAs, LooksAt, LooksIn, LooksOver};
ghost use Rattle.fab_program_outside.specs.Coming.{After};
ghost use Rattle.fab_world.specs.Soundness.{IsSound};

use crate::lists::list_at;
use crate::loading::world_of;
use crate::printing::{port_at, turn_away, who_at, why_at};
use fab_files_base::End;
use fab_names::{Name, Wwn};
use fab_policy::{CallerId, Policy};
use fab_program_outside::Fault;
use fab_program_words::{ListKind, ListState};
use fab_store_base::Store;
use fab_world::World;
use std::alloc::Global;
use std::io::Write;

/// What is looked at.
#[derive(Clone, Copy)]
pub enum Look {
    /// Why a host reaches a volume or does not.
    Why {
        /// The name of the host.
        host: Name,
        /// The name of the volume.
        volume: Name,
    },
    /// Who reaches a volume.
    Who {
        /// The name of the volume.
        volume: Name,
    },
    /// What is around a port.
    Port {
        /// The N_Port_Name of the port.
        port: Wwn,
    },
    /// What there is of a kind, or only plans in a state.
    List {
        /// The kind.
        kind: ListKind,
        /// The state that the plans are in, if one is asked for.
        state: Option<ListState>,
    },
}

/// Who looks at what, and in which form it is told.
#[derive(Clone, Copy)]
pub struct Asked<'t> {
    /// The token of the caller.
    pub token: &'t str,
    /// What is looked at.
    pub look: Look,
    /// Whether JSON is asked for.
    pub is_json: bool,
}

/// Looks at the world of a store, if there is one, and prints what the caller is told. The writer is
/// handed back, and has just that text. The store is let go of.
///
/// # Errors
/// As for the store; `Memory`; `Stream` where the writer failed.
pub fn look_over<S: Store<Global>, W: Write + Drop>(
    alloc: Global,
    store: Result<S, Fault>,
    policy: &Policy,
    asked: &Asked<'_>,
    writer: W,
) -> Result<(W, End), Fault>
    ensures { After store (λ s. LooksOver S.Store W.contents s policy.now asked.now writer) result }
{
    match store {
        Ok(store) => {
            let mut store = store;
            look_in(alloc, &mut store, policy, asked, writer)
        }
        Err(fault) => Err(fault),
    }
}

/// Looks at the world of a store. Nothing of the store is changed.
fn look_in<S: Store<Global>, W: Write + Drop>(
    alloc: Global,
    store: &mut S,
    policy: &Policy,
    asked: &Asked<'_>,
    writer: W,
) -> Result<(W, End), Fault>
    ensures { LooksIn S.Store W.contents store.old store.new policy.now asked.now writer result }
{
    look_by(alloc, world_of(alloc, store), policy, asked, writer)
}

/// Looks at a world, if there is one.
fn look_by<W: Write + Drop>(
    alloc: Global,
    world: Result<World<Global>, Fault>,
    policy: &Policy,
    asked: &Asked<'_>,
    writer: W,
) -> Result<(W, End), Fault>
    requires sound { IfOk world IsSound }
    ensures { After world (λ w. LooksAt W.contents w policy.now asked.now writer) result }
{
    match world {
        Ok(world) => look_at(alloc, &world, policy, asked, writer),
        Err(fault) => Err(fault),
    }
}

/// Looks at a world, if somebody has the token.
fn look_at<W: Write + Drop>(
    alloc: Global,
    world: &World<Global>,
    policy: &Policy,
    asked: &Asked<'_>,
    writer: W,
) -> Result<(W, End), Fault>
    requires sound { IsSound world.now }
    ensures { LooksAt W.contents world.now policy.now asked.now writer result }
{
    match policy.caller(asked.token) {
        Some(id) => look_as(alloc, world, policy, id, asked, writer),
        None => turn_away(alloc, writer),
    }
}

/// Looks at a world as a caller.
fn look_as<W: Write + Drop>(
    alloc: Global,
    world: &World<Global>,
    policy: &Policy,
    id: CallerId,
    asked: &Asked<'_>,
    writer: W,
) -> Result<(W, End), Fault>
    requires sound { IsSound world.now }
    ensures { LooksAs W.contents world.now policy.now id asked.now.look asked.now.is_json writer result }
{
    match asked.look {
        Look::Why { host, volume } => {
            why_at(
                alloc,
                world,
                policy,
                id,
                host,
                volume,
                asked.is_json,
                writer,
            )
        }
        Look::Port { port } => port_at(alloc, world, policy, id, port, asked.is_json, writer),
        Look::Who { volume } => who_at(alloc, world, policy, id, volume, asked.is_json, writer),
        Look::List { kind, state } => {
            list_at(alloc, world, policy, id, kind, state, asked.is_json, writer)
        }
    }
}
