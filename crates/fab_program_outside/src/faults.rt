//! Why the program could not do what was asked.
ghost use Rattle.std.specs.Prelude.{◌≡◌};
ghost use Rattle.fab_program_outside.specs.Faults as faults;

use fab_store_load::{OpenFault, Table};

/// Why the program ends with status 3.
#[derive(Clone, Copy, Debug, Drop)]
pub enum Fault {
    /// A file is not there, or it cannot be opened or read.
    File,
    /// The policy's file spells no policy.
    Policy,
    /// The store refused.
    Store,
    /// There was no memory.
    Memory,
    /// The address cannot be listened at, or accepting a connection failed.
    Listen,
    /// Standard input or output failed.
    Stream,
    /// The clock could not be read.
    Clock,
    /// The rows of this table, the first that has a fault, are not those of a sound world.
    Damaged(Table),
    /// The database is of this schema, which is newer than the program's.
    NewerSchema(u64),
}

impl Fault {
    /// The word by which the standard error names it.
    pub fn word(self) -> &'static str
        ensures { result.now ≡ faults.word_of self }
    {
        match self {
            Fault::File => "file",
            Fault::Policy => "policy",
            Fault::Store => "store",
            Fault::Memory => "memory",
            Fault::Listen => "listen",
            Fault::Stream => "stream",
            Fault::Clock => "clock",
            Fault::Damaged(_) => "damaged",
            Fault::NewerSchema(_) => "newer-schema",
        }
    }
}

/// The fault of a store that has no world of a desk.
pub fn of_opening(fault: OpenFault) -> Fault
    ensures { result ≡ faults.fault_of_opening fault }
{
    match fault {
        OpenFault::Damaged(table) => Fault::Damaged(table),
        OpenFault::NewerSchema(schema) => Fault::NewerSchema(schema),
        OpenFault::OldSchema(_) => Fault::Store,
        OpenFault::Store => Fault::Store,
        OpenFault::Memory => Fault::Memory,
    }
}
