//! Connections served in turn.

ghost use Rattle.std.specs.Prelude.{◌≡◌, IfOk, OnErr};
ghost use Rattle.fab_desk.specs.Desks.{IsCleanDesk, IsTiedDesk};
ghost use Rattle.fab_desk.specs.Handled.{aside_of, policy_of, serving_of, world_of};
ghost use Rattle.fab_wire.specs.Beginnings.{BeginningsServe};
ghost use Rattle.fab_wire.specs.InTurn.{AreServed, IsServed};
ghost use Rattle.fab_wire.specs.Runs.{LeadTo};

use crate::outcome::Outcome;
use crate::serving::serve_one;
use fab_desk::Desk;
use fab_desk::base::steps_are_done;
use fab_desk::store_base::Store;
use fab_reach_books::PathBook;
use fab_wire_base::routes::Routes;
use fab_wire_streams::counted::Counted;
use std::alloc::{AllocError, Allocator, Global};
use std::io::{Read, Write};

/// A connection that waits: when it comes, in Unix seconds, and its two sides.
#[derive(Drop)]
pub struct Connection<R, W> {
    /// When it comes, in Unix seconds.
    pub moment: u64,
    /// The side that requests are read from.
    pub reader: Counted<R>,
    /// The side that answers are written to.
    pub writer: Counted<W>,
}

/// A connection that was served: what came of it, and its two sides as it left them.
#[derive(Drop)]
pub struct Served<R, W> {
    /// What came of it.
    pub outcome: Outcome,
    /// The side that requests were read from.
    pub reader: Counted<R>,
    /// The side that answers were written to.
    pub writer: Counted<W>,
}

/// Serves connections, one after the other, each over the desk that the one before left. Room for
/// what comes of them is taken first.
///
/// The world that the desk comes to is that of the commands which the connections ask and which are
/// done, in their order: those whose read failed, and those that are told of want of memory, of a
/// refusal by the store or of a halted desk, count as not made.
///
/// # Errors
/// `AllocError` where there is no memory for that: then none was served, and the desk is as it was.
pub fn serve_all<A: Allocator + Copy, S: Store<A>, B: PathBook<A>, R: Read + Drop, W: Write + Drop>(
    alloc: A,
    global: Global,
    routes: &Routes,
    desk: &mut Desk<A, S, B>,
    connections: Vec<Connection<R, W>, A>,
) -> Result<Vec<Served<R, W>, A>, AllocError>
    ensures served { IfOk result (λ served. AreServed S.Store R.remaining W.contents desk.old connections.items served.items desk.new) }
    ensures run { IsCleanDesk S.Store (serving_of desk.new) (aside_of desk.new) → IsTiedDesk S.Store (serving_of desk.old) (world_of desk.old) →
        IfOk result (λ served. LeadTo A.row.Denot R.remaining W.contents (policy_of desk.old) (world_of desk.old) connections.items served.items (world_of desk.new)) }
    ensures kept { OnErr result (desk.new ≡ desk.old) }
{
    steps_are_done(alloc);
    let mut all = Vec::with_capacity(alloc, connections.len())?;
    for connection in connections {
        all.push_reserved(serve(alloc, global, routes, desk, connection));
    }
    Ok(all)
}

/// Serves one of them.
fn serve<A: Allocator + Copy, S: Store<A>, B: PathBook<A>, R: Read + Drop, W: Write + Drop>(
    alloc: A,
    global: Global,
    routes: &Routes,
    desk: &mut Desk<A, S, B>,
    connection: Connection<R, W>,
) -> Served<R, W>
    ensures { IsServed S.Store R.remaining W.contents desk.old connection result desk.new }
{
    let Connection {
        moment,
        mut reader,
        mut writer,
    } = connection;
    let outcome = serve_one(
        alloc,
        global,
        routes,
        desk,
        moment,
        &mut reader,
        &mut writer,
    );
    Served {
        outcome,
        reader,
        writer,
    }
}

/// What serving a beginning does that is whole, serving each input does that begins so. So a request is
/// gathered until it is whole, and then served, whatever comes behind it.
pub fn beginnings_serve<A: Allocator + Copy, S: Store<A>, B: PathBook<A>>(desk: &Desk<A, S, B>)
    ensures { BeginningsServe S.Store desk.now }
{
    let _desk = desk;
}
