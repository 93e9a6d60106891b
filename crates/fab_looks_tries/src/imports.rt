//! What an import would do.
ghost use Rattle.std.specs.Prelude.{◌≡◌, ℕ, List, IfOk, IfErr};
ghost use Rattle.fab_desk_machine.specs.fab_desk_base.declared.command.Command.{Command};
ghost use Rattle.fab_desk_machine.specs.fab_desk_base.declared.command.Command.TheVariants as command;
ghost use Rattle.fab_desk_machine.specs.Foreseen.{IsTurnedDown};
ghost use Rattle.fab_desk_machine.specs.Proposals.{request_of};
ghost use Rattle.fab_desk_machine.specs.fab_desk_trials.Trials.{EffectSuits, IsStepReady, effect_world};
ghost use Rattle.fab_looks_tries.specs.Hosts.{ArePathsMoved};
ghost use Rattle.fab_looks_tries.specs.Ports.{ArePortsMoved};
ghost use Rattle.fab_looks_tries.specs.Tries.{IsTriedImport};
ghost use Rattle.fab_reach_base.specs.Records.{Records};
ghost use Rattle.fab_world.specs.Soundness.{IsSound};
ghost use Rattle.fab_world.specs.Worlds.{records_of};

use crate::paths::{PathsMoved, paths_moved};
use crate::ports::{PortsMoved, count_listed, ports_moved};
use crate::rows::new_ports;
use fab_desk_machine::base::{Command, DeskFault};
use fab_desk_machine::foresee;
use fab_desk_machine::trials::Prepared;
use fab_inventory::PortRow;
use fab_names::Fabric;
use fab_policy_base::Policy;
use fab_reach_books::PathBook;
use fab_world::World;
use std::alloc::{AllocError, Allocator};

/// What the import of a port list would do.
#[derive(Drop)]
pub struct TriedImport<A: Allocator + Copy> {
    /// How many ports are listed.
    pub listed: usize,
    /// What it would do to ports.
    pub ports: PortsMoved<A>,
    /// What it would do to paths.
    pub paths: PathsMoved<A>,
}

/// What an effect does to ports and to paths; the book takes its step.
fn moved<A: Allocator + Copy, B: PathBook<A>>(
    alloc: A,
    world: &World<A>,
    book: &mut B,
    listed: usize,
    prepared: Prepared<A, B::Ready>,
) -> Result<TriedImport<A>, AllocError>
    requires stands { B.stands book.old (records_of world.now) }
    ensures listed { IfOk result (λ t. t.listed ≡ listed) }
    ensures ports { (caller : List ℕ) (c : Command A) → EffectSuits world.now c prepared.effect → IfOk result (λ t. ArePortsMoved world.now.inventory (effect_world world.now caller c prepared.effect).inventory t.ports) }
    ensures paths { (v : Records) → IsStepReady (B.leads book.old) (records_of world.now) v prepared.step → IfOk result (λ t. ArePathsMoved (records_of world.now) v t.paths) }
{
    let Prepared { effect, step } = prepared;
    let ports = ports_moved(alloc, &world.inventory, new_ports(&effect))?;
    let paths = paths_moved(alloc, world, book, step)?;
    Ok(TriedImport {
        listed,
        ports,
        paths,
    })
}

/// What the import of these records at the fabric would do, for the caller of the token at this moment,
/// in Unix seconds. The world has to be sound, and the book has to stand at it. Nothing is changed but
/// the book, which is at the world after the import then.
///
/// # Errors
/// What the import would be answered; `Memory`.
pub fn try_import<A: Allocator + Copy, B: PathBook<A>>(
    alloc: A,
    world: &World<A>,
    book: &mut B,
    policy: &Policy,
    token: &str,
    moment: u64,
    fabric: Fabric,
    rows: Vec<PortRow, A>,
) -> Result<TriedImport<A>, DeskFault>
    requires sound { IsSound world.now }
    requires stands { B.stands book.old (records_of world.now) }
    ensures ok { IfOk result (IsTriedImport policy.now world.now token.now moment fabric rows) }
    ensures err { IfErr result (IsTurnedDown policy.now world.now (request_of token.now moment (command.Import fabric rows))) }
{
    let Ok(listed) = count_listed(alloc, rows.as_slice()) else {
        return Err(DeskFault::Memory);
    };
    let asked = Command::Import { fabric, rows };
    let prepared = match foresee(alloc, world, book, policy, token, moment, &asked) {
        Ok(prepared) => prepared,
        Err(fault) => return Err(fault),
    };
    match moved(alloc, world, book, listed, prepared) {
        Ok(tried) => Ok(tried),
        Err(_) => Err(DeskFault::Memory),
    }
}
