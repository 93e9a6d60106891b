//! Files that are opened as databases.
ghost use Rattle.std.specs.Prelude.{◌≡◌, ℕ, List, Bool, Result, false, IfOk};
ghost use Rattle.sqlite.specs.Held.{Held};
ghost use Rattle.sqlite.specs.declared.error.Error.{Error};

use fab_program_outside::Machine;
use sqlite::{Alter, Connection, Error, File as DatabaseFile, FileStore};
use sqlite_disk::Disk;
use std::fs::File;

/// Where files are opened as databases, by their paths.
pub trait Connections {
    /// Where the pages of such a database are.
    type Pages: Alter + Drop;

    // Whether the file at a path could be opened.
    ghost has_file: { Self → List ℕ → Bool → Type 0 };

    // What came of opening the file at a path as a database.
    ghost connects: { Self → List ℕ → Result (Held Self.Pages) Error → Type 0 };

    /// Whether there is a file at the path that can be opened.
    fn is_there(&self, path: &str) -> bool
        ensures { has_file self.now path.now result };

    /// A connection to the database in the file at the path, in which no transaction runs.
    fn connect(&self, path: &str) -> Result<Connection<Self::Pages>, Error>
        ensures outside { IfOk result (λ conn. conn.in_transaction ≡ false) }
        ensures connected { connects self.now path.now result };
}

/// This machine. No contract of the system says what stands at a path, nor why a file is not opened as a
/// database, so nothing is said of it here.
impl<'r> Connections for Machine<'r> {
    ghost use Rattle.std.specs.Prelude.{⊤};
    ghost use Rattle.fab_program_desks.specs.Tables.{IsConnected};

    type Pages = FileStore<DatabaseFile>;

    ghost has_file = { λ machine path there. ⊤ };

    ghost connects = { λ machine path came. IsConnected ⟦<DatabaseFile as Disk>⟧ came };

    fn is_there(&self, path: &str) -> bool {
        File::open(self.rt, path).is_ok()
    }

    fn connect(&self, path: &str) -> Result<Connection<FileStore<DatabaseFile>>, Error> {
        Connection::open(self.rt, path)
    }
}
