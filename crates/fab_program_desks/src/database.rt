//! Databases: files with the tables of a desk, and tables in memory.
ghost use Rattle.std.specs.Prelude.{ℕ, List, Result};
ghost use Rattle.fab_program_outside.specs.declared.faults.Fault.{Fault};
ghost use Rattle.fab_program_desks.specs.Databases.{IsAgain, IsDeskOver, IsMade};

use fab_policy_base::Policy;
use fab_program_outside::{Fault, Files, is_free, of_opening};
use fab_reach::IndexBook;
use fab_store::{OpenFault, Store};
use fab_wire::Desk;
use std::alloc::Global;

/// The desk of the program over a store.
pub type ProgramDesk<S> = Desk<Global, S, IndexBook<Global>>;

/// Where the tables of desks are found and made.
pub trait Databases {
    /// The tables of a desk in a file.
    type Tables: Store<Global>;

    // What came of opening the tables at a path, where they have to be.
    ghost finds: { Self → List ℕ → Result Self.Tables Fault → Type 0 };

    // What came of making the tables of a new desk at a path.
    ghost makes: { Self → List ℕ → Result Self.Tables Fault → Type 0 };

    /// The tables at a path, where they have to be, brought to the present schema.
    ///
    /// # Errors
    /// `File` where nothing is there, or it cannot be opened; `NewerSchema` where a newer schema stands in
    /// its settings, and `Damaged` where none stands there that ever was; `Store` where it is no database,
    /// another process has it open, or it refused; `Memory`.
    fn tables_in(&self, path: &str) -> Result<Self::Tables, Fault>
        ensures { finds self.now path.now result };

    /// The tables of a new desk at a path, where nothing is but an empty file at most.
    ///
    /// # Errors
    /// `File` where it cannot be opened; `Store` where it is no database, another process has it open, or
    /// the tables could not be made: there is none of them then; `Memory`.
    fn new_tables_in(&self, path: &str) -> Result<Self::Tables, Fault>
        ensures { makes self.now path.now result };
}

/// The tables at a path, for a desk that is opened again.
///
/// # Errors
/// `Memory` where there was none, and else `Store`.
pub fn tables_again<O: Databases>(outside: &O, path: &str) -> Result<O::Tables, OpenFault>
    ensures { IsAgain (O.finds outside.now path.now) result }
{
    match outside.tables_in(path) {
        Ok(tables) => Ok(tables),
        Err(Fault::Memory) => Err(OpenFault::Memory),
        Err(_) => Err(OpenFault::Store),
    }
}

/// Makes the tables of a new desk in a file that is not there, or is empty.
///
/// # Errors
/// `File` where the file is there and not empty, or it cannot be made; `Store` where the store
/// refused; `Memory`. No table was made then.
pub fn make<O: Files + Databases>(outside: &O, path: &str) -> Result<(), Fault>
    ensures { IsMade (O.measures outside.now path.now) (O.makes outside.now path.now) result }
{
    if !is_free(outside, path) {
        return Err(Fault::File);
    }
    match outside.new_tables_in(path) {
        Ok(_) => Ok(()),
        Err(fault) => Err(fault),
    }
}

/// A desk over a store, with a policy.
///
/// # Errors
/// `Damaged`, `NewerSchema`, `Store` or `Memory`: why its tables are not those of a desk.
pub fn desk_over<S: Store<Global>>(
    alloc: Global,
    store: S,
    policy: Policy,
) -> Result<ProgramDesk<S>, Fault>
    ensures { IsDeskOver S.Store store policy result }
{
    match Desk::open(alloc, store, policy) {
        Ok(desk) => Ok(desk),
        Err((fault, _)) => Err(of_opening(fault)),
    }
}
