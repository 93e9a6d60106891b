//! The limit on changes.
ghost use Rattle.std.specs.Prelude.{◌≡◌, OnOk, IfErr};
ghost use Rattle.fab_desk_base.specs.Commands.{is_counted, tried};
ghost use Rattle.fab_desk_base.specs.declared.fault.DeskFault.TheVariants as fault;
ghost use Rattle.fab_desk_base.specs.declared.fault.DeskLimit.TheVariants as limit;
ghost use Rattle.fab_desk_base.specs.Refusals.{HasManyChanges};
ghost use Rattle.fab_desk_trials.specs.Limits.{IsLimitFault};

use fab_desk_base::{Command, DeskFault, DeskLimit};
use fab_world::{MOST_CHANGES, World};
use std::alloc::Allocator;

/// Whether the command counts as a change, a dry run as the activation.
fn is_change<A: Allocator + Copy>(command: &Command<A>) -> bool
    ensures { result ≡ is_counted (tried command.now) }
{
    match command {
        Command::Stage { .. } => false,
        Command::Withdraw { .. } => false,
        Command::Approve { .. } => false,
        Command::Show(_) => false,
        _ => true,
    }
}

/// Checks that there may be one change more, where the command counts as one.
///
/// # Errors
/// `Limit(Changes)`.
pub fn check_changes<A: Allocator + Copy>(
    world: &World<A>,
    command: &Command<A>,
) -> Result<(), DeskFault>
    ensures ok { OnOk result (¬ HasManyChanges world.now (tried command.now)) }
    ensures err { IfErr result (IsLimitFault (fault.Limit limit.Changes) (HasManyChanges world.now (tried command.now))) }
{
    if is_change(command) && world.revision >= MOST_CHANGES {
        return Err(DeskFault::Limit(DeskLimit::Changes));
    }
    Ok(())
}
