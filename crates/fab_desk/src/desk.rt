//! The desk.
ghost use Rattle.std.specs.Prelude.{◌≡◌, ◌↔◌, ℕ, Some, None, IsSome, IsTrue, IfOk, IfErr, OnOk, OnErr};
ghost use Rattle.std.specs.Option.{option_or};
ghost use Rattle.fab_desk_machine.specs.Proposals.{CountsStep, IsAccepted, IsEffectOf, request_of};
ghost use Rattle.fab_policy_base.specs.Callers.{HasToken};
ghost use Rattle.fab_policy_base.specs.Sound.{IsSound};
ghost use Rattle.fab_desk.specs.Desks.{IsOpened, IsServed, IsTurnedAway, IsUnopened};

use crate::answering::serve;
use crate::ledger::Ledger;
use crate::opening::opened;
use fab_desk_machine::base::{Command, DeskFault, Reply};
use fab_policy_base::Policy;
use fab_policy_base::laws::policy_is_sound;
use fab_reach_books::PathBook;
use fab_store_base::{OpenFault, Store};
use std::alloc::Allocator;

/// A desk over a store, with a policy, a sound world and a book of its paths.
pub struct Desk<A: Allocator + Copy, S: Store<A>, B: PathBook<A>> {
    alloc: A,
    /// The store that serves; none while the desk is halted.
    store: Option<S>,
    /// The store that refused a change, until it is released.
    aside: Option<S>,
    policy: Policy,
    ledger: Ledger<A, B>,
}

// It is written out, so that a caller does not prove again how each part is dropped.
impl<A: Allocator + Copy, S: Store<A>, B: PathBook<A>> Drop for Desk<A, S, B> {
    fn drop(self) {
        let Desk {
            alloc: _,
            store: _,
            aside: _,
            policy: _,
            ledger: _,
        } = self;
    }
}

/// What a halted desk answers.
fn turned_away<A: Allocator + Copy>(policy: &Policy, token: &str) -> Reply<A>
    ensures { IsTurnedAway policy.now token.now result }
{
    match policy.caller(token) {
        Some(_) => Reply::Refused(DeskFault::Halted),
        None => Reply::Refused(DeskFault::NoCaller),
    }
}

impl<A: Allocator + Copy, S: Store<A>, B: PathBook<A>> Desk<A, S, B> {
    /// A desk over a store: its world is the one that the tables have. It has asked about no pair.
    ///
    /// # Errors
    /// Why there is none, with the store, which is as it was: `Damaged` where the rows are not those of
    /// a sound world, `NewerSchema`, `OldSchema`, `Store` where a call was refused, `Memory`.
    pub fn open(alloc: A, store: S, policy: Policy) -> Result<Self, (OpenFault, S)>
        ensures policy { IfOk result (λ desk. desk.policy ≡ policy) }
        ensures opened { IfOk result (λ desk. IsOpened S.Store store desk.store desk.ledger.world) }
        ensures unasked { IfOk result (λ desk. desk.ledger.asked ≡ 0) }
        ensures aside { IfOk result (λ desk. desk.aside ≡ None) }
        ensures fault { IfErr result (λ e. IsUnopened S.Store store e.0 e.1) }
    {
        let mut store = store;
        match opened(alloc, &mut store) {
            Ok(ledger) => Ok(Desk {
                alloc,
                store: Some(store),
                aside: None,
                policy,
                ledger,
            }),
            Err(fault) => Err((fault, store)),
        }
    }

    /// Opens a halted desk again, over another store or the same one opened anew: its world is the
    /// one that the tables have. It has asked about no pair since. A store that refused a change and was
    /// not released is let go of.
    ///
    /// # Errors
    /// As for `open`: the desk stays halted, with the world that it had.
    pub fn reopen(&mut self, store: S) -> Result<(), (OpenFault, S)>
        requires { self.old.store ≡ None }
        ensures policy { self.new.policy ≡ self.old.policy }
        ensures opened { OnOk result (IsOpened S.Store store self.new.store self.new.ledger.world) }
        ensures unasked { OnOk result (self.new.ledger.asked ≡ 0) }
        ensures aside { OnOk result (self.new.aside ≡ None) }
        ensures fault { IfErr result (λ e. IsUnopened S.Store store e.0 e.1) }
        ensures kept { OnErr result (self.new ≡ self.old) }
    {
        let mut store = store;
        match opened(self.alloc, &mut store) {
            Ok(ledger) => {
                self.ledger = ledger;
                self.store = Some(store);
                self.aside = None;
                Ok(())
            }
            Err(fault) => Err((fault, store)),
        }
    }

    /// The store that is there, if any: that which serves, or the one that refused a change and was
    /// not released.
    pub fn close(self) -> Option<S>
        ensures { result ≡ option_or self.store self.aside }
    {
        let Desk {
            alloc: _,
            store,
            aside,
            policy: _,
            ledger: _,
        } = self;
        store.or(aside)
    }

    /// Whether somebody has the token. It takes no memory.
    pub fn knows(&self, token: &str) -> bool
        ensures { IsTrue result ↔ ((id : ℕ) × HasToken self.now.policy token.now id) }
    {
        self.policy.caller(token).is_some()
    }

    /// The policy is sound: names and tokens stand once, each window that a rule names is there, and
    /// no limit is passed. Nothing is done.
    pub fn policy_is_sound(&self)
        ensures { IsSound self.now.policy }
    {
        policy_is_sound(&self.policy);
    }

    /// How many pairs of ports the desk has asked about, since it was opened, to tell which paths its
    /// commands would gain and lose; the dry runs count too. At 18446744073709551615 the count stays.
    pub fn pairs_asked(&self) -> u64
        ensures { result ≡ self.now.ledger.asked }
    {
        self.ledger.book.asked()
    }

    /// Whether the desk is halted: the store refused a change, and it was not opened again since.
    pub fn halted(&self) -> bool
        ensures { IsTrue result ↔ (self.now.store ≡ None) }
    {
        self.store.is_none()
    }

    /// Answers a request: the token that its sender shows, when it comes, in Unix seconds, and its
    /// command.
    ///
    /// What is answered is a step of the desk, and what it changes is in the store before it is
    /// answered. `Memory` where there was none, before anything is changed; `Store` where a call of
    /// the store was refused, which is counted, and nothing else is: a read then changes nothing, and
    /// the desk serves on; a change halts the desk, and is in the tables whole or not at all. A halted
    /// desk answers `NoCaller` or `Halted`, and changes nothing.
    ///
    /// Where the command is done, or its dry run is answered, the count of `pairs_asked` rises within the
    /// bounds that the book has of a step to the command's effect.
    pub fn handle(&mut self, token: &str, moment: u64, asked: Command<A>) -> Reply<A>
        ensures policy { self.new.policy ≡ self.old.policy }
        ensures halted { self.old.store ≡ None → IsTurnedAway self.old.policy token.now result × (self.new ≡ self.old) }
        ensures served { (s : S) → self.old.store ≡ Some s →
            IsServed S.Store self.old.policy self.old.ledger.world (request_of token.now moment asked) result s self.new.store self.new.aside self.new.ledger.world }
        ensures bounds { IsAccepted result → CountsStep B.bounds self.old.ledger.world (IsEffectOf self.old.policy self.old.ledger.world (request_of token.now moment asked)) self.old.ledger.asked self.new.ledger.asked }
    {
        let Some(store) = &mut self.store else {
            return turned_away(&self.policy, token);
        };
        let served = serve(
            self.alloc,
            &mut self.ledger,
            &self.policy,
            store,
            token,
            moment,
            asked,
        );
        if served.is_shut {
            self.aside = self.store.take();
        }
        served.reply
    }

    /// Hands out the store of a halted desk, once, so that it can be closed before its file is opened
    /// again. A desk that is not halted hands out none, and stays as it is.
    pub fn release(&mut self) -> Option<S>
        ensures halted { self.old.store ≡ None → (result ≡ self.old.aside) × (self.new ≡ record self.old { aside = None }) }
        ensures serving { IsSome self.old.store → (result ≡ None) × (self.new ≡ self.old) }
    {
        if self.store.is_some() {
            return None;
        }
        self.aside.take()
    }
}
