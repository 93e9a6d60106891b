//! Where the tables are kept.
ghost use Rattle.std.specs.Prelude.{◌≡◌, ◌⊎◌, ℕ, false, IsTrue, IfOk, IfErr, OnOk, OnErr};
ghost use Rattle.fab_store_tables.specs.Tables.{Tables, CanChange, AreChanged};
ghost use Rattle.fab_store_tables.specs.Versions.{IsMigrated};
ghost use Rattle.fab_world.specs.Soundness.{IsSound};
ghost use Rattle.fab_store_base.specs.Worlds.{HoldsWorld, IsWritten, ArePathsIn};
ghost use Rattle.fab_store_base.specs.Calls.{OpensNot, MigratesNot, IsCounted, Rises};

use crate::{OpenFault, StoreFault};
use fab_names::Name;
use fab_reach_base::Path;
use fab_store_tables::LineChanges;
use fab_world::World;
use std::alloc::Allocator;

/// The tables of a desk. A commit changes them whole or not at all. The count of refused calls rises by
/// one with each call that is refused, and with no other; a store that a fault has shut refuses every
/// call.
pub trait Store<A: Allocator + Copy>: Sized + Drop {
    // No wrong answer of the disk has been taken as true so far.
    ghost is_clean: { Self → Type 0 };

    // It is open: no fault has shut it.
    ghost is_open: { Self → Type 0 };

    // Where it is open, it has the tables of the schema, and nothing is pending.
    ghost is_ready: { Self → Type 0 };

    // It is open, nothing is pending, and it has the tables of the schema before, which tell it.
    ghost is_old: { Self → Type 0 };

    // It has the tables of the schema, or of the one before.
    ghost is_known: { Self → Type 0 };

    ghost tables: { Self → Tables };

    // What a stop at this moment may leave.
    ghost may_leave: { Self → Tables → Type 0 };

    // How many calls were refused.
    ghost refused: { Self → ℕ };

    /// How many calls were refused. At its greatest value it stays.
    fn refusals(&self) -> u64
        ensures { result ≡ refused self.now };

    /// The world that the tables have. Nothing is changed.
    ///
    /// # Errors
    /// `NewerSchema` where a newer schema stands in the settings, `OldSchema` where an older one does;
    /// `Damaged` where neither does, and the rows are not those of a sound world; `Store` where a call
    /// was refused, also because the tables are not those of the schema; `Memory`.
    fn load(&mut self, alloc: A) -> Result<World<A>, OpenFault>
        ensures clean { is_clean self.new → is_clean self.old }
        ensures ready { is_clean self.new → OnOk result (is_open self.new × is_ready self.new) }
        ensures world { IfOk result (λ w. IsSound w × IsWritten w) }
        ensures rows { is_clean self.new → IfOk result (HoldsWorld (tables self.new)) }
        ensures same { is_clean self.new → is_open self.new → is_open self.old × (tables self.new ≡ tables self.old) }
        ensures fault { is_clean self.new → IfErr result (OpensNot (tables self.old)) }
        ensures counted { IfErr result (IsCounted (refused self.old) (refused self.new)) }
        ensures uncounted { OnOk result (refused self.new ≡ refused self.old) }
        ensures stop { is_clean self.new → (left : Tables) → may_leave self.new left → may_leave self.old left };

    /// Brings the tables to the present schema, in one transaction, and tells whether it changed them:
    /// those of the schema before get a table of addresses, which is empty, and a setting that tells the
    /// present schema; no other row is changed.
    ///
    /// # Errors
    /// `NewerSchema` where a newer schema stands in the settings; `Damaged` where none stands there that
    /// ever was; `Store` where a call was refused, also because there are no settings or the tables are
    /// not those of the schema that is told; `Memory`. The tables are those before, if it is still open.
    fn migrate(&mut self) -> Result<bool, OpenFault>
        ensures clean { is_clean self.new → is_clean self.old }
        ensures done { is_clean self.new → IfOk result (λ changed. IsTrue changed → is_old self.old × is_open self.new × IsMigrated (tables self.old) (tables self.new)) }
        ensures unchanged { is_clean self.new → IfOk result (λ changed. changed ≡ false → is_open self.new → is_open self.old × (tables self.new ≡ tables self.old)) }
        ensures present { IfOk result (λ changed. changed ≡ false → ¬ is_old self.old) }
        ensures failed { is_clean self.new → OnErr result (is_open self.new → is_open self.old × (tables self.new ≡ tables self.old)) }
        ensures fault { is_clean self.new → is_known self.old → IfErr result (MigratesNot (tables self.old)) }
        ensures counted { IfErr result (IsCounted (refused self.old) (refused self.new)) }
        ensures uncounted { OnOk result (refused self.new ≡ refused self.old) }
        ensures alone { is_clean self.new → IfOk result (λ changed. IsTrue changed → (left : Tables) → may_leave self.new left → left ≡ tables self.new) }
        ensures stop { is_clean self.new → (left : Tables) → may_leave self.new left → may_leave self.old left ⊎ (is_old self.old × IsMigrated (tables self.old) left) };

    /// Makes the changes, all or none.
    ///
    /// # Errors
    /// `StoreFault` where the store refused: the tables are those before, if it is still open, and
    /// a stop may leave those before or those after.
    fn commit(&mut self, changes: &LineChanges<A>) -> Result<(), StoreFault>
        ensures clean { is_clean self.new → is_clean self.old }
        ensures ready { is_clean self.new → is_ready self.old → (is_open self.old → CanChange changes.now (tables self.old)) → is_ready self.new }
        ensures done { is_clean self.new → is_ready self.old → (is_open self.old → CanChange changes.now (tables self.old)) → OnOk result (is_open self.old × is_open self.new × AreChanged changes.now (tables self.old) (tables self.new)) }
        ensures failed { is_clean self.new → is_ready self.old → OnErr result (is_open self.new → is_open self.old × (tables self.new ≡ tables self.old)) }
        ensures counted { OnErr result (Rises (refused self.old) (refused self.new)) }
        ensures uncounted { OnOk result (refused self.new ≡ refused self.old) }
        ensures stop { is_clean self.new → is_ready self.old → (is_open self.old → CanChange changes.now (tables self.old)) → (left : Tables) → may_leave self.new left
            → may_leave self.old left ⊎ (is_open self.old × AreChanged changes.now (tables self.old) left) };

    /// The paths of the host, in order, from their table. Nothing is changed.
    ///
    /// # Errors
    /// `StoreFault` where the store refused, for want of memory too.
    fn paths_of(&mut self, alloc: A, host: &Name) -> Result<Vec<Path, A>, StoreFault>
        ensures clean { is_clean self.new → is_clean self.old }
        ensures ready { is_clean self.new → is_ready self.old → is_ready self.new }
        ensures rows { is_clean self.new → is_ready self.old → IfOk result (λ paths. is_open self.new × ArePathsIn (tables self.old) host.now paths.items) }
        ensures same { is_clean self.new → is_ready self.old → is_open self.new → is_open self.old × (tables self.new ≡ tables self.old) }
        ensures counted { OnErr result (Rises (refused self.old) (refused self.new)) }
        ensures uncounted { OnOk result (refused self.new ≡ refused self.old) }
        ensures stop { is_clean self.new → (left : Tables) → may_leave self.new left → may_leave self.old left };

    // While it is open and nothing is pending, a stop leaves the tables as they are.
    ghost settled: { (s : Self) (left : Tables) → is_open s → is_ready s → may_leave s left → left ≡ tables s };
}
