//! Requests answered one after the other.
ghost use Rattle.std.specs.Prelude.{◌≡◌, IfOk, OnErr, None, Some, map};
ghost use Rattle.fab_desk_machine.specs.fab_desk_base.Answers.{IsRun};
ghost use Rattle.fab_desk_machine.specs.Proposals.{asked_of};
ghost use Rattle.fab_desk.specs.Desks.{IsCleanDesk, IsLeftByStop, IsTied, IsTiedDesk, done_replies, done_requests};
ghost use Rattle.fab_desk.specs.Handled.{AreHandled, Asks, Handles};

use crate::Desk;
use fab_desk_machine::Asked;
use fab_desk_machine::base::{Reply, steps_are_done};
use fab_reach_books::PathBook;
use fab_store_base::Store;
use std::alloc::{AllocError, Allocator};

/// Answers requests, one after the other, each handled by the desk that the one before left. Room for
/// all replies is taken first.
///
/// The world that the desk comes to is that of the requests which are done, in their order: those that
/// are answered that there was no memory, that the store refused, or that the desk is halted, count as
/// not made. Where the store refuses a change, those before it are done, it halts the desk, and those
/// behind it are turned away.
///
/// Each request that is accepted asks about as many pairs of ports as `Desk::handle` says.
///
/// Whatever moment a stop comes at, it leaves the tables of that world; where the store refused a
/// change, those, or the tables with that one besides.
///
/// # Errors
/// `AllocError` where there is no memory for the replies: then none was answered, and the desk is as
/// it was.
pub fn handle_all<'a, A: Allocator + Copy, S: Store<A>, B: PathBook<A>>(
    alloc: A,
    desk: &mut Desk<A, S, B>,
    requests: Vec<Asked<'a, A>, A>,
) -> Result<Vec<Reply<A>, A>, AllocError>
    ensures handled { IfOk result (λ replies. AreHandled S.Store B.bounds desk.old (map asked_of requests.entry.items) replies.items desk.new) }
    ensures policy { desk.new.policy ≡ desk.old.policy }
    ensures halted { desk.old.store ≡ None → desk.new ≡ desk.old }
    ensures clean { IsCleanDesk S.Store desk.new.store desk.new.aside → IsCleanDesk S.Store desk.old.store desk.old.aside }
    ensures run { IsCleanDesk S.Store desk.new.store desk.new.aside → IsTiedDesk S.Store desk.old.store desk.old.ledger.world →
        IfOk result (λ replies. IsRun desk.old.policy desk.old.ledger.world (done_requests (map asked_of requests.entry.items) replies.items) (done_replies replies.items) desk.new.ledger.world) }
    ensures tied { IsCleanDesk S.Store desk.new.store desk.new.aside → IsTiedDesk S.Store desk.old.store desk.old.ledger.world → IsTiedDesk S.Store desk.new.store desk.new.ledger.world }
    ensures stop { IsCleanDesk S.Store desk.new.store desk.new.aside → (s : S) → desk.old.store ≡ Some s → IsTied S.Store s desk.old.ledger.world →
        IfOk result (λ replies. IsLeftByStop S.Store desk.old.policy (map asked_of requests.entry.items) replies.items desk.new.store desk.new.aside desk.new.ledger.world) }
    ensures kept { OnErr result (desk.new ≡ desk.old) }
{
    steps_are_done(alloc);
    let mut replies = Vec::with_capacity(alloc, requests.len())?;
    for asked in requests {
        replies.push_reserved(handle_asked(desk, asked));
    }
    Ok(replies)
}

/// Answers one of them.
fn handle_asked<'a, A: Allocator + Copy, S: Store<A>, B: PathBook<A>>(
    desk: &mut Desk<A, S, B>,
    asked: Asked<'a, A>,
) -> Reply<A>
    ensures handles { Handles S.Store desk.old (asked_of asked.entry) result desk.new }
    ensures asks { Asks B.bounds desk.old (asked_of asked.entry) result desk.new }
{
    desk.handle(asked.token, asked.moment, asked.command)
}
