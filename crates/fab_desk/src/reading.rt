//! The paths of a host, from the store.
ghost use Rattle.std.specs.Prelude.{◌≡◌, ◌≢◌, ◌⊎◌};
ghost use Rattle.fab_desk_machine.specs.fab_desk_base.Answers.{IsAnswerTo};
ghost use Rattle.fab_desk_machine.specs.fab_desk_base.declared.command.Command.TheVariants as command;
ghost use Rattle.fab_desk_machine.specs.fab_desk_base.declared.command.Query.TheVariants as query;
ghost use Rattle.fab_desk_machine.specs.fab_desk_base.declared.fault.DeskFault.TheVariants as faults;
ghost use Rattle.fab_desk_machine.specs.fab_desk_base.declared.reply.Reply.TheVariants as replies;
ghost use Rattle.fab_store_base.specs.Calls.{Rises};
ghost use Rattle.fab_desk.specs.Desks.{IsTied};

use fab_desk_machine::Sender;
use fab_desk_machine::base::{DeskFault, Query, Reply, Shown, is_open_to};
use fab_names::Name;
use fab_policy_base::Policy;
use fab_store_base::Store;
use fab_world::World;
use std::alloc::Allocator;

/// Shows the paths of a host as the store has them, if they are for the sender. Where the store refuses,
/// nothing is changed.
pub fn show_paths<A: Allocator + Copy, S: Store<A>>(
    alloc: A,
    world: &World<A>,
    policy: &Policy,
    store: &mut S,
    sender: &Sender,
    host: &Name,
) -> Reply<A>
    ensures clean { S.is_clean store.new → S.is_clean store.old }
    ensures tied { S.is_clean store.new → IsTied S.Store store.old world.now → IsTied S.Store store.new world.now }
    ensures answers { S.is_clean store.new → IsTied S.Store store.old world.now →
        ((result ≡ replies.Refused faults.Store) ⊎ IsAnswerTo policy.now world.now sender.now.id sender.now.name sender.now.moment (command.Show (query.Paths host.now)) result world.now) }
    ensures memory { result ≢ replies.Refused faults.Memory }
    ensures counted { result ≡ replies.Refused faults.Store → Rises (S.refused store.old) (S.refused store.new) }
    ensures uncounted { result ≢ replies.Refused faults.Store → S.refused store.new ≡ S.refused store.old }
{
    if !is_open_to(policy, world, sender.id, &Query::Paths { host: *host }) {
        return Reply::Refused(DeskFault::NotFound);
    }
    match store.paths_of(alloc, host) {
        Ok(paths) => Reply::Shown(Shown::Paths { host: *host, paths }),
        Err(_) => Reply::Refused(DeskFault::Store),
    }
}
