//! Desks over tables in memory, and the tables behind them. A call with a long contract is dear in each
//! function that makes it: so each such call of a desk stands in one function here, and callers see a type
//! parameter.

use crate::connections::{Ended, Ending, Waiting};
use fab_policy_base::Policy;
use fab_policy_text::ReadPolicy;
use fab_reach::PathBook;
use fab_store::{OpenFault, RefusingStore, SqlStore, Store};
use fab_wire::laws::{self, Served};
use fab_wire::{Desk, serve_one};
use fab_wire_base::routes::Routes;
use fab_worlds_players::{Fault, Scenario};
use sqlite::{Alter, Connection, Error};
use std::alloc::{AllocError, Global};
use std::str;

/// What comes of a call, in a word, or why nothing does.
pub type Came = Result<&'static str, OpenFault>;

/// The policy that a text spells.
fn policy_of(alloc: Global, text: &[u8]) -> Option<Policy> {
    let text = str::from_utf8(text).ok()?;
    Policy::read(alloc, text).ok()
}

/// Tables of a desk, and what is done with them while no desk is open.
pub trait Tables: Store<Global> + Drop + Sized {
    /// The tables after statements of somebody else, all of which are executed.
    fn changed(self, alloc: Global, statements: &str) -> Option<Self>;

    /// The tables of which a query shows rows, which are added.
    fn shown(self, alloc: Global, query: &str, text: &mut String) -> Option<Self>;

    /// Makes the tables of a new desk: `made`.
    fn made(self) -> (Came, Self);
}

/// The tables of a new desk over a connection, of whose calls one is refused behind so many.
pub fn new_tables<S: Alter + Drop>(
    alloc: Global,
    connection: Connection<S>,
    calls: u64,
) -> Option<RefusingStore<SqlStore<S>>> {
    if !connection.is_autocommit() {
        return None;
    }
    let mut tables = SqlStore::new(connection, alloc);
    match tables.init() {
        Ok(()) => Some(RefusingStore::new(tables, calls)),
        Err(_) => None,
    }
}

/// What is asked of a desk over tables that is played.
pub trait Played<T>: Sized + Drop {
    /// A desk over the tables with a policy, or why there is none, with the tables.
    fn open(alloc: Global, tables: T, policy: Policy) -> Result<Self, (OpenFault, T)>;

    /// Serves a connection.
    fn serve(&mut self, alloc: Global, routes: &Routes, connection: Waiting<'_>) -> Ending;

    /// Serves connections as one list.
    fn serve_all<'t>(
        &mut self,
        alloc: Global,
        routes: &Routes,
        connections: Vec<Waiting<'t>>,
    ) -> Result<Vec<Ended<'t>>, AllocError>;

    /// The tables of the desk, which ends, if it has some.
    fn close(self) -> Option<T>;
}

impl<T: Tables, B: PathBook<Global>> Played<T> for Desk<Global, T, B> {
    fn open(alloc: Global, tables: T, policy: Policy) -> Result<Self, (OpenFault, T)> {
        Desk::open(alloc, tables, policy)
    }

    fn serve(&mut self, alloc: Global, routes: &Routes, connection: Waiting<'_>) -> Ending {
        let laws::Connection {
            moment,
            mut reader,
            mut writer,
        } = connection;
        let outcome = serve_one(alloc, alloc, routes, self, moment, &mut reader, &mut writer);
        Ending::of(Served {
            outcome,
            reader,
            writer,
        })
    }

    fn serve_all<'t>(
        &mut self,
        alloc: Global,
        routes: &Routes,
        connections: Vec<Waiting<'t>>,
    ) -> Result<Vec<Ended<'t>>, AllocError> {
        laws::serve_all(alloc, alloc, routes, self, connections)
    }

    fn close(self) -> Option<T> {
        Desk::close(self)
    }
}

/// Opens a desk for a scenario over tables, with the policy of this text: the desk, or why there is none,
/// with the tables.
///
/// # Errors
/// `Policy` where the text spells none.
pub fn open<T: Drop, D: Played<T>>(
    alloc: Global,
    scenario: &Scenario<'_>,
    policy: &[u8],
    tables: T,
) -> Result<Result<D, (OpenFault, T)>, Fault> {
    match policy_of(alloc, policy) {
        Some(policy) => Ok(D::open(alloc, tables, policy)),
        None => Err(Fault::Policy(scenario.line)),
    }
}

/// Brings the tables to the present schema: `changed` or `unchanged`.
pub fn migrate<T: Tables>(tables: &mut T) -> Came {
    match Store::<Global>::migrate(tables) {
        Ok(true) => Ok("changed"),
        Ok(false) => Ok("unchanged"),
        Err(fault) => Err(fault),
    }
}

/// Tables over a connection, none of whose calls is refused: none while a transaction runs.
fn tables_over<S: Alter + Drop>(
    alloc: Global,
    connection: Connection<S>,
) -> Option<RefusingStore<SqlStore<S>>> {
    if connection.is_autocommit() {
        let tables = SqlStore::new(connection, alloc);
        return Some(RefusingStore::new(tables, u64::MAX));
    }
    None
}

/// Adds the rows of a query, each of which is one text, on lines of their own.
fn add_rows<S: Alter + Drop>(
    connection: &mut Connection<S>,
    query: &str,
    text: &mut String,
) -> Result<(), Error> {
    let rows = connection.query_all(query, &[])?;
    for row in rows.iter() {
        let line: String = row.get(0)?;
        text.push_str(line.as_str())?;
        text.push('\n')?;
    }
    Ok(())
}

impl<S: Alter + Drop> Tables for RefusingStore<SqlStore<S>> {
    fn changed(self, alloc: Global, statements: &str) -> Option<Self> {
        let mut connection = self.into_inner().into_connection();
        match connection.execute_batch(statements) {
            Ok(()) => tables_over(alloc, connection),
            Err(_) => None,
        }
    }

    fn shown(self, alloc: Global, query: &str, text: &mut String) -> Option<Self> {
        let mut connection = self.into_inner().into_connection();
        match add_rows(&mut connection, query, text) {
            Ok(()) => tables_over(alloc, connection),
            Err(_) => None,
        }
    }

    fn made(self) -> (Came, Self) {
        let mut inner = self.into_inner();
        let came = match inner.init() {
            Ok(()) => Ok("made"),
            Err(_) => Err(OpenFault::Store),
        };
        (came, RefusingStore::new(inner, u64::MAX))
    }
}
