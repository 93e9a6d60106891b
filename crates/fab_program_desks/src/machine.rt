//! What this machine has: SQLite databases, and sockets.
ghost use Rattle.std.specs.Prelude.{◌≡◌, ◌⊎◌, false, IfOk, IfErr, OnOk};
ghost use Rattle.sqlite.specs.Held.{state};
ghost use Rattle.sqlite.specs.State.{HasCleanDisk};
ghost use Rattle.sqlite.specs.Steps.{over_memory};
ghost use Rattle.fab_program_desks.specs.Tables.{AreBroughtFrom, AreFound, AreMade, AreMadeFrom, AreNewTables, AreUnbroughtFrom, AreUnfound, AreUnmade, AreUnmadeFrom, IsBrought, IsMadeIn, IsUnbrought, IsUnmade, IsUnopened, opened_fault};

use crate::addresses::Addresses;
use crate::connections::Connections;
use crate::database::Databases;
use fab_program_outside::{Fault, Machine, of_opening};
use fab_store::{SqlStore, Store};
use fab_wire_serving::listen_at;
use sqlite::{Alter, Connection, Error, ErrorCode, File as DatabaseFile, FileStore, MemStore};
use sqlite_disk::Disk;
use std::alloc::Global;
use std::net::TcpListener;

/// The tables in a file.
pub type FileTables = SqlStore<FileStore<DatabaseFile>>;

/// The tables in memory.
pub type MemoryTables = SqlStore<MemStore>;

/// Makes the tables of a new desk where there is no table.
///
/// # Errors
/// `Store` where they could not be made: all is as it was then.
fn make_in<S: Alter + Drop>(tables: &mut SqlStore<S>) -> Result<(), Fault>
    ensures made { OnOk result (IsMadeIn (state S.Store tables.old.conn) (state S.Store tables.new.conn)) }
    ensures fault { IfErr result (IsUnmade (state S.Store tables.old.conn) (state S.Store tables.new.conn) tables.old.refusals tables.new.refusals) }
{
    match tables.init() {
        Ok(()) => Ok(()),
        Err(_) => Err(Fault::Store),
    }
}

/// The tables of a new desk over a connection, if there is one.
///
/// # Errors
/// Why there is no connection; else `Store` where they could not be made: all is as it was then.
fn new_over<S: Alter + Drop>(
    alloc: Global,
    opened: Result<Connection<S>, Fault>,
) -> Result<SqlStore<S>, Fault>
    requires { IfOk opened (λ conn. conn.in_transaction ≡ false) }
    ensures made { IfOk result (λ tables. AreMadeFrom (state S.Store) (λ before. opened ≡ Ok before) tables.conn) }
    ensures fault { IfErr result (λ fault. (opened ≡ Err fault) ⊎ AreUnmadeFrom (state S.Store) (λ before. opened ≡ Ok before) fault) }
{
    match opened {
        Ok(conn) => {
            let mut tables = SqlStore::new(conn, alloc);
            match make_in(&mut tables) {
                Ok(()) => Ok(tables),
                Err(fault) => Err(fault),
            }
        }
        Err(fault) => Err(fault),
    }
}

/// A connection to the database in the file at a path.
///
/// # Errors
/// `File` where it cannot be opened; `Store` where it is no database, or another process has it open;
/// `Memory`.
fn connected<O: Connections>(outside: &O, path: &str) -> Result<Connection<O::Pages>, Fault>
    ensures outside { IfOk result (λ conn. conn.in_transaction ≡ false) }
    ensures opened { IfOk result (λ conn. O.connects outside.now path.now (Ok conn)) }
    ensures fault { IfErr result (IsUnopened (O.connects outside.now path.now)) }
{
    match outside.connect(path) {
        Ok(conn) => Ok(conn),
        Err(error) => Err(fault_of(&error)),
    }
}

/// Why a file was not opened as a database.
fn fault_of(error: &Error) -> Fault
    ensures { result ≡ opened_fault error.now }
{
    match error {
        Error::SqliteFailure(ErrorCode::CannotOpen) => Fault::File,
        Error::SqliteFailure(ErrorCode::OutOfMemory) => Fault::Memory,
        _ => Fault::Store,
    }
}

/// The tables of a new desk in memory.
///
/// # Errors
/// `Memory`; `Store` where they could not be made.
pub fn new_tables(alloc: Global) -> Result<MemoryTables, Fault>
    ensures { AreNewTables (state over_memory) result (λ tables. tables.conn) }
{
    match Connection::open_in_memory(alloc) {
        Ok(conn) => new_over(alloc, Ok(conn)),
        Err(_) => Err(Fault::Memory),
    }
}

/// Brings tables to the present schema.
///
/// # Errors
/// `NewerSchema` where a newer schema stands in the settings; `Damaged` where none stands there that ever
/// was; `Store` where the store refused, or the tables are not those of the schema that is told; `Memory`.
/// The tables are as they were then.
fn bring<S: Alter + Drop>(tables: &mut SqlStore<S>) -> Result<(), Fault>
    ensures done { OnOk result (HasCleanDisk (state S.Store tables.new.conn) → HasCleanDisk (state S.Store tables.old.conn) × IsBrought (state S.Store tables.old.conn) (state S.Store tables.new.conn)) }
    ensures fault { IfErr result (IsUnbrought (state S.Store tables.old.conn) (state S.Store tables.new.conn) tables.old.refusals tables.new.refusals) }
{
    match Store::<Global>::migrate(tables) {
        Ok(_) => Ok(()),
        Err(fault) => Err(of_opening(fault)),
    }
}

/// The tables over a connection, if there is one, brought to the present schema.
///
/// # Errors
/// Why there is no connection; else as for `bring`.
fn brought_over<S: Alter + Drop>(
    alloc: Global,
    opened: Result<Connection<S>, Fault>,
) -> Result<SqlStore<S>, Fault>
    requires { IfOk opened (λ conn. conn.in_transaction ≡ false) }
    ensures done { IfOk result (λ tables. AreBroughtFrom (state S.Store) (λ before. opened ≡ Ok before) tables.conn) }
    ensures fault { IfErr result (λ fault. (opened ≡ Err fault) ⊎ AreUnbroughtFrom (state S.Store) (λ before. opened ≡ Ok before) fault) }
{
    match opened {
        Ok(conn) => {
            let mut tables = SqlStore::new(conn, alloc);
            match bring(&mut tables) {
                Ok(()) => Ok(tables),
                Err(fault) => Err(fault),
            }
        }
        Err(fault) => Err(fault),
    }
}

/// The tables in the file at a path, which has to be there, brought to the present schema.
///
/// # Errors
/// `File` where it is not there, or cannot be opened; else as for `connected` and `bring`.
fn tables_at<O: Connections>(
    alloc: Global,
    outside: &O,
    path: &str,
) -> Result<SqlStore<O::Pages>, Fault>
    ensures found { IfOk result (λ tables. AreFound (state O.Pages.Store) (O.has_file outside.now path.now) (O.connects outside.now path.now) tables.conn) }
    ensures unfound { IfErr result (AreUnfound (state O.Pages.Store) (O.has_file outside.now path.now) (O.connects outside.now path.now)) }
{
    if !outside.is_there(path) {
        return Err(Fault::File);
    }
    brought_over(alloc, connected(outside, path))
}

/// The tables of a new desk in the file at a path.
///
/// # Errors
/// As for `connected` and `make_in`.
fn new_tables_at<O: Connections>(
    alloc: Global,
    outside: &O,
    path: &str,
) -> Result<SqlStore<O::Pages>, Fault>
    ensures made { IfOk result (λ tables. AreMade (state O.Pages.Store) (O.connects outside.now path.now) tables.conn) }
    ensures unmade { IfErr result (AreUnmade (state O.Pages.Store) (O.connects outside.now path.now)) }
{
    new_over(alloc, connected(outside, path))
}

impl<'r> Databases for Machine<'r> {
    ghost use Rattle.std.specs.Prelude.{⊤, IfOk, IfErr};
    ghost use Rattle.sqlite.specs.Files.{file_state};
    ghost use Rattle.fab_program_desks.specs.Tables.{AreFound, AreMade, AreUnfound, AreUnmade, IsConnected};

    type Tables = FileTables;

    ghost finds = { λ machine path came. IfOk came (λ tables. AreFound file_state (λ there. ⊤) (IsConnected ⟦<DatabaseFile as Disk>⟧) tables.conn) × IfErr came (AreUnfound file_state (λ there. ⊤) (IsConnected ⟦<DatabaseFile as Disk>⟧)) };

    ghost makes = { λ machine path came. IfOk came (λ tables. AreMade file_state (IsConnected ⟦<DatabaseFile as Disk>⟧) tables.conn) × IfErr came (AreUnmade file_state (IsConnected ⟦<DatabaseFile as Disk>⟧)) };

    fn tables_in(&self, path: &str) -> Result<FileTables, Fault> {
        tables_at(self.rt.alloc(), self, path)
    }

    fn new_tables_in(&self, path: &str) -> Result<FileTables, Fault> {
        new_tables_at(self.rt.alloc(), self, path)
    }
}

impl<'r> Addresses for Machine<'r> {
    ghost use Rattle.std.specs.Prelude.{⊤};

    ghost listens = { λ machine address listener. ⊤ };

    fn listen(&self, address: &str) -> Option<TcpListener> {
        listen_at(self.rt, address).ok()
    }
}
