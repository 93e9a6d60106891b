//! A sound world, with a book of its paths.

use fab_reach_base::Config;
use fab_reach_books::PathBook;
use fab_world::World;
use std::alloc::Allocator;
use std::marker::Model;

/// A world with a book of its paths. A contract sees the world, which is sound, and at which the book
/// stands, and how many questions the book has asked.
///
/// Beside them there may be a spare configuration, equal to the world's, on which a plan's steps are
/// tried. No contract sees it.
pub struct Ledger<A: Allocator + Copy, B: PathBook<A>> {
    pub world: World<A>,
    pub book: B,
    pub spare: Option<Config<A>>,
}

// It is written out, so that a caller does not prove again how each part is dropped.
impl<A: Allocator + Copy, B: PathBook<A>> Drop for Ledger<A, B> {
    fn drop(self) {
        let Ledger {
            world: _,
            book: _,
            spare: _,
        } = self;
    }
}

impl<A: Allocator + Copy, B: PathBook<A>> Model for Ledger<A, B> {
    ghost use Rattle.std.specs.Prelude.{◌≡◌, IfSome};
    ghost use Rattle.fab_world.specs.Soundness.{IsSound};
    ghost use Rattle.fab_world.specs.Worlds.{records_of};
    ghost use Rattle.fab_desk.specs.Ledgers.{LedgerRows, ledger_code};

    ghost Value = { LedgerRows };

    ghost coded = { ledger_code };

    ghost view = { λ l. record { world = l.world; asked = B.count l.book } };

    ghost invariant = { λ l. IsSound l.world × B.stands l.book (records_of l.world) × IfSome l.spare (λ s. s ≡ l.world.config) };
}
