//! A world with a book of its paths, from a store.
ghost use Rattle.std.specs.Prelude.{◌≡◌, IfOk, IfErr, OnOk};
ghost use Rattle.fab_store_load.specs.declared.fault.OpenFault.TheVariants as faults;
ghost use Rattle.fab_store_base.specs.Calls.{IsCounted, OpensNot};
ghost use Rattle.fab_store_tables.specs.Tables.{Tables};
ghost use Rattle.fab_world.specs.Soundness.{IsSound};
ghost use Rattle.fab_world.specs.Worlds.{records_of};
ghost use Rattle.fab_desk.specs.Desks.{IsTied};

use crate::ledger::Ledger;
use fab_reach_base::View;
use fab_reach_books::PathBook;
use fab_store_base::{OpenFault, Store};
use fab_world::World;
use std::alloc::{AllocError, Allocator};

/// A book of the paths of a sound world, which has asked nothing.
///
/// # Errors
/// `AllocError` where there is no memory.
fn book_of<A: Allocator + Copy, B: PathBook<A>>(alloc: A, world: &World<A>) -> Result<B, AllocError>
    requires { IsSound world.now }
    ensures stands { IfOk result (λ book. B.stands book (records_of world.now)) }
    ensures new { IfOk result (λ book. B.count book ≡ 0) }
{
    B::open(alloc, &View::of(&world.inventory, &world.config))
}

/// A sound world with a book of its paths, which has asked nothing.
///
/// # Errors
/// `Memory` where there is none.
fn ledger_of<A: Allocator + Copy, B: PathBook<A>>(
    alloc: A,
    world: World<A>,
) -> Result<Ledger<A, B>, OpenFault>
    requires { IsSound world }
    ensures ledger { IfOk result (λ ledger. ledger ≡ record { world = world; asked = 0 }) }
    ensures fault { IfErr result (λ e. e ≡ faults.Memory) }
{
    match book_of(alloc, &world) {
        Ok(book) => Ok(Ledger {
            world,
            book,
            spare: None,
        }),
        Err(_) => Err(OpenFault::Memory),
    }
}

/// The world that the tables of the store have, with a book of its paths, which has asked nothing. The
/// store is as it was.
///
/// # Errors
/// As for `Store::load`.
pub fn opened<A: Allocator + Copy, S: Store<A>, B: PathBook<A>>(
    alloc: A,
    store: &mut S,
) -> Result<Ledger<A, B>, OpenFault>
    ensures clean { S.is_clean store.new → S.is_clean store.old }
    ensures tied { S.is_clean store.new → IfOk result (λ ledger. S.is_open store.new × IsTied S.Store store.new ledger.world) }
    ensures unasked { IfOk result (λ ledger. ledger.asked ≡ 0) }
    ensures same { S.is_clean store.new → S.is_open store.new → S.is_open store.old × (S.tables store.new ≡ S.tables store.old) }
    ensures fault { S.is_clean store.new → IfErr result (OpensNot (S.tables store.old)) }
    ensures counted { IfErr result (IsCounted (S.refused store.old) (S.refused store.new)) }
    ensures uncounted { OnOk result (S.refused store.new ≡ S.refused store.old) }
    ensures stop { S.is_clean store.new → (left : Tables) → S.may_leave store.new left → S.may_leave store.old left }
{
    match store.load(alloc) {
        Ok(world) => ledger_of(alloc, world),
        Err(fault) => Err(fault),
    }
}
