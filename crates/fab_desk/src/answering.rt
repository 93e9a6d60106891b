//! Requests answered over a store.
ghost use Rattle.std.specs.Prelude.{◌≡◌, ◌≢◌, ◌↔◌, ℕ, List, IfSome, MatchOption, true, false};
ghost use Rattle.fab_desk_machine.specs.fab_desk_base.declared.command.Command.TheVariants as command;
ghost use Rattle.fab_desk_machine.specs.fab_desk_base.declared.command.Query.TheVariants as query;
ghost use Rattle.fab_desk_machine.specs.fab_desk_base.declared.fault.DeskFault.TheVariants as faults;
ghost use Rattle.fab_desk_machine.specs.fab_desk_base.declared.reply.Reply.TheVariants as replies;
ghost use Rattle.fab_desk_machine.specs.Proposals.{CountsStep, IsAccepted, IsEffectOf, request_of};
ghost use Rattle.fab_store_base.specs.Calls.{Rises};
ghost use Rattle.fab_world.specs.Soundness.{IsSound};
ghost use Rattle.fab_world.specs.Worlds.{records_of};
ghost use Rattle.fab_desk.specs.Desks.{IsHandled, IsInDoubt, IsTied, IsRead};

use crate::carrying::{Served, carry_out};
use crate::ledger::Ledger;
use crate::reading::show_paths;
use fab_desk_machine::base::{Command, DeskFault, Query, Reply, holders_are_kept, steps_are_done};
use fab_desk_machine::{Proposal, propose, sender_of};
use fab_names::Name;
use fab_policy_base::Policy;
use fab_reach_base::Config;
use fab_reach_books::PathBook;
use fab_store_base::Store;
use fab_world::World;
use std::alloc::Allocator;

/// The host whose paths a command asks for, if it asks for paths.
fn host_asked<A: Allocator + Copy>(asked: &Command<A>) -> Option<Name>
    ensures { MatchOption result ((host : List ℕ) → asked.now ≢ command.Show (query.Paths host)) (λ host. asked.now ≡ command.Show (query.Paths host)) }
{
    match asked {
        Command::Show(Query::Paths { host }) => Some(*host),
        _ => None,
    }
}

/// Answers a request for the paths of a host.
fn read_paths<A: Allocator + Copy, S: Store<A>>(
    alloc: A,
    world: &World<A>,
    policy: &Policy,
    store: &mut S,
    token: &str,
    moment: u64,
    host: &Name,
) -> Reply<A>
    ensures clean { S.is_clean store.new → S.is_clean store.old }
    ensures tied { S.is_clean store.new → IsTied S.Store store.old world.now → IsTied S.Store store.new world.now }
    ensures answers { S.is_clean store.new → IsTied S.Store store.old world.now → IsHandled policy.now world.now (request_of {A = A} token.now moment (command.Show (query.Paths host.now))) result world.now }
    ensures counted { result ≡ replies.Refused faults.Store → Rises (S.refused store.old) (S.refused store.new) }
    ensures uncounted { result ≢ replies.Refused faults.Store → S.refused store.new ≡ S.refused store.old }
    ensures memory { result ≢ replies.Refused faults.Memory }
{
    match sender_of(policy, token, moment) {
        Some(sender) => show_paths(alloc, world, policy, store, &sender, host),
        None => Reply::Refused(DeskFault::NoCaller),
    }
}

/// Answers a request by the machine, and has the store take its change.
fn act<A: Allocator + Copy, S: Store<A>, B: PathBook<A>>(
    alloc: A,
    world: &mut World<A>,
    book: &mut B,
    spare: &mut Option<Config<A>>,
    policy: &Policy,
    store: &mut S,
    token: &str,
    moment: u64,
    asked: Command<A>,
) -> Served<A>
    requires sound { IsSound world.old }
    requires stands { B.stands book.old (records_of world.old) }
    requires spare { IfSome spare.old (λ s. s ≡ world.old.config) }
    ensures sound { IsSound world.new }
    ensures stands { B.stands book.new (records_of world.new) }
    ensures spare { IfSome spare.new (λ s. s ≡ world.new.config) }
    ensures bounds { IsAccepted result.reply → CountsStep B.bounds world.old (IsEffectOf policy.now world.old (request_of token.now moment asked)) (B.count book.old) (B.count book.new) }
    ensures answers { IsHandled policy.now world.old (request_of token.now moment asked) result.reply world.new }
    ensures shut { result.is_shut ≡ true → (result.reply ≡ replies.Refused faults.Store) × (world.new ≡ world.old) }
    ensures clean { S.is_clean store.new → S.is_clean store.old }
    ensures tied { S.is_clean store.new → IsTied S.Store store.old world.old → result.is_shut ≡ false → IsTied S.Store store.new world.new }
    ensures doubt { S.is_clean store.new → IsTied S.Store store.old world.old → IsInDoubt S.Store policy.now world.old (request_of token.now moment asked) store.new }
    ensures halts { result.reply ≡ replies.Refused faults.Store → result.is_shut ≡ true }
    ensures change { result.reply ≡ replies.Refused faults.Store → ¬ IsRead (request_of {A = A} token.now moment asked) }
    ensures counted { result.reply ≡ replies.Refused faults.Store → Rises (S.refused store.old) (S.refused store.new) }
    ensures uncounted { result.reply ≢ replies.Refused faults.Store → S.refused store.new ≡ S.refused store.old }
    ensures untouched { result.reply ≡ replies.Refused faults.Memory → store.new ≡ store.old }
{
    holders_are_kept(alloc);
    steps_are_done(alloc);
    match propose(alloc, world, book, spare, policy, token, moment, asked) {
        Proposal::Answer(reply) => Served {
            reply,
            is_shut: false,
        },
        Proposal::Ready(change) => carry_out(alloc, world, book, spare, store, change),
    }
}

/// Answers a request over a store: the paths of a host from the store, and all else by the machine.
pub fn serve<A: Allocator + Copy, S: Store<A>, B: PathBook<A>>(
    alloc: A,
    ledger: &mut Ledger<A, B>,
    policy: &Policy,
    store: &mut S,
    token: &str,
    moment: u64,
    asked: Command<A>,
) -> Served<A>
    ensures bounds { IsAccepted result.reply → CountsStep B.bounds ledger.old.world (IsEffectOf policy.now ledger.old.world (request_of token.now moment asked)) ledger.old.asked ledger.new.asked }
    ensures answers { S.is_clean store.new → IsTied S.Store store.old ledger.old.world → IsHandled policy.now ledger.old.world (request_of token.now moment asked) result.reply ledger.new.world }
    ensures shut { result.is_shut ≡ true → (result.reply ≡ replies.Refused faults.Store) × (ledger.new.world ≡ ledger.old.world) }
    ensures clean { S.is_clean store.new → S.is_clean store.old }
    ensures tied { S.is_clean store.new → IsTied S.Store store.old ledger.old.world → result.is_shut ≡ false → IsTied S.Store store.new ledger.new.world }
    ensures doubt { S.is_clean store.new → IsTied S.Store store.old ledger.old.world → IsInDoubt S.Store policy.now ledger.old.world (request_of token.now moment asked) store.new }
    ensures halts { result.reply ≡ replies.Refused faults.Store → (result.is_shut ≡ true) ↔ ¬ IsRead (request_of {A = A} token.now moment asked) }
    ensures counted { result.reply ≡ replies.Refused faults.Store → Rises (S.refused store.old) (S.refused store.new) }
    ensures uncounted { result.reply ≢ replies.Refused faults.Store → S.refused store.new ≡ S.refused store.old }
    ensures untouched { result.reply ≡ replies.Refused faults.Memory → store.new ≡ store.old }
{
    match host_asked(&asked) {
        Some(host) => {
            let told = read_paths(alloc, &ledger.world, policy, store, token, moment, &host);
            Served {
                reply: told,
                is_shut: false,
            }
        }
        None => act(
            alloc,
            &mut ledger.world,
            &mut ledger.book,
            &mut ledger.spare,
            policy,
            store,
            token,
            moment,
            asked,
        ),
    }
}
