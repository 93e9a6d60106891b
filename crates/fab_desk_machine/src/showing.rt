//! What reads show to a caller.
ghost use Rattle.std.specs.Prelude.{IfOk, MatchOption};
ghost use Rattle.fab_world.specs.Soundness.{IsSound};
ghost use Rattle.fab_world.specs.Worlds.{WorldRows, records_of};
ghost use Rattle.fab_desk_base.specs.Showing.{IsOpenTo, Shows, ShowsPaths};

use fab_desk_base::{Query, Shown, is_open_to, recorded};
use fab_policy::{CallerId, Policy};
use fab_reach_base::names::Name;
use fab_reach_books::PathBook;
use fab_world::World;
use std::alloc::{AllocError, Allocator};

/// The paths of a host, by a book.
///
/// # Errors
/// `AllocError` where there is no memory.
fn paths_shown<A: Allocator + Copy, B: PathBook<A>>(
    book: &B,
    host: &Name,
) -> Result<Shown<A>, AllocError>
    ensures { (w : WorldRows) → B.stands book.now (records_of w) → IfOk result (ShowsPaths w host.now) }
{
    let paths = book.of_host(host)?;
    Ok(Shown::Paths { host: *host, paths })
}

/// What a read shows to the caller, if it is open to it.
///
/// # Errors
/// `AllocError` where there is no memory.
pub(crate) fn shown<A: Allocator + Copy, B: PathBook<A>>(
    alloc: A,
    policy: &Policy,
    world: &World<A>,
    book: &B,
    id: CallerId,
    query: &Query,
) -> Result<Option<Shown<A>>, AllocError>
    requires sound { IsSound world.now }
    requires stands { B.stands book.now (records_of world.now) }
    ensures { IfOk result (λ found. MatchOption found (¬ IsOpenTo policy.now world.now id query.now) (λ s. IsOpenTo policy.now world.now id query.now × Shows world.now query.now s)) }
{
    if !is_open_to(policy, world, id, query) {
        return Ok(None);
    }
    match query {
        Query::Paths { host } => Ok(Some(paths_shown(book, host)?)),
        _ => recorded(alloc, world, query),
    }
}
