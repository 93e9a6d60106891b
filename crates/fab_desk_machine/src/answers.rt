//! Requests answered in memory.
ghost use Rattle.fab_world.specs.Soundness.{IsSound};
ghost use Rattle.fab_world.specs.Worlds.{records_of};
ghost use Rattle.fab_desk_machine.specs.Proposals.{CountsStep, IsAccepted, IsAnswered, IsEffectOf, request_of};

use crate::change::carry_through;
use crate::proposing::{Proposal, propose_on_copies};
use fab_desk_base::{Command, Reply};
use fab_policy::base::Policy;
use fab_reach_books::PathBook;
use fab_world::World;
use std::alloc::Allocator;

/// A request: the token that its sender shows, when it comes, in Unix seconds, and its command.
#[derive(Drop)]
pub struct Asked<'a, A: Allocator + Copy> {
    /// The token that its sender shows.
    pub token: &'a str,
    /// When it comes, in Unix seconds.
    pub moment: u64,
    /// Its command.
    pub command: Command<A>,
}

/// Answers a request in memory, for a desk that has no store: what `propose` says, and a change is taken
/// over at once. Want of memory is answered `Memory`, and nothing is changed.
pub fn answer<A: Allocator + Copy, B: PathBook<A>>(
    alloc: A,
    world: &mut World<A>,
    book: &mut B,
    policy: &Policy,
    token: &str,
    moment: u64,
    command: Command<A>,
) -> Reply<A>
    requires sound { IsSound world.old }
    requires stands { B.stands book.old (records_of world.old) }
    ensures sound { IsSound world.new }
    ensures stands { B.stands book.new (records_of world.new) }
    ensures answers { IsAnswered policy.now world.old (request_of token.now moment command) result world.new }
    ensures bounds { IsAccepted result → CountsStep B.bounds world.old (IsEffectOf policy.now world.old (request_of token.now moment command)) (B.count book.old) (B.count book.new) }
{
    match propose_on_copies(alloc, world, book, policy, token, moment, command) {
        Proposal::Answer(reply) => reply,
        Proposal::Ready(change) => carry_through(alloc, change, world, book),
    }
}
