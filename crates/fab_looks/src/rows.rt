//! What the reads of lists show.
ghost use Rattle.std.specs.Prelude.{◌≡◌, ℕ, map, Contains, IfOk};
ghost use Rattle.std.specs.List.{AllZip};
ghost use Rattle.fab_desk_base.specs.Showing.{Shows};
ghost use Rattle.fab_desk_base.specs.declared.command.Query.{Query};
ghost use Rattle.fab_desk_base.specs.declared.command.Query.TheVariants as query;
ghost use Rattle.fab_desk_base.specs.Recorded.{IsRecorded};
ghost use Rattle.fab_looks.specs.Lists as lists;
ghost use Rattle.fab_looks.specs.Rows.{AreRows, ArePortRows};
ghost use Rattle.fab_policy.specs.fab_policy_base.Policies.{PolicyRows};
ghost use Rattle.fab_world.specs.Soundness.{IsSound};

use crate::listing::{Kind, list, query_of};
use crate::port_listing::list_ports;
use fab_desk_base::{Query, Shown, recorded};
use fab_policy::{CallerId, Policy};
use fab_reach_base::names::{Name, Wwn};
use fab_world::World;
use std::alloc::{AllocError, Allocator};
use std::collections::BTreeSet;

/// What a read shows.
fn answer_to<A: Allocator + Copy>(
    alloc: A,
    world: &World<A>,
    query: &Query,
) -> Result<Shown<A>, AllocError>
    requires sound { IsSound world.now }
    requires there { IsRecorded world.now query.now }
    ensures { IfOk result (Shows world.now query.now) }
{
    match recorded(alloc, world, query)? {
        Some(shown) => Ok(shown),
        None => unreachable!(),
    }
}

/// What reads show, in their order. What they ask for has to be there, and none may ask for paths.
///
/// # Errors
/// `AllocError` where there is no memory.
pub fn answers_to<A: Allocator + Copy>(
    alloc: A,
    world: &World<A>,
    queries: &[Query],
) -> Result<Vec<Shown<A>, A>, AllocError>
    requires sound { IsSound world.now }
    requires there { (q : Query) → Contains queries.now q → IsRecorded world.now q }
    ensures { IfOk result (λ rows. AllZip (Shows world.now) queries.now rows.items) }
{
    let mut rows = Vec::new(alloc);
    for query in queries {
        let row = answer_to(alloc, world, query)?;
        rows.push(row)?;
    }
    Ok(rows)
}

/// The reads of the names of a kind, in their order.
fn name_queries<A: Allocator + Copy>(
    alloc: A,
    kind: Kind,
    names: &BTreeSet<Name, A>,
) -> Result<Vec<Query, A>, AllocError>
    ensures { IfOk result (λ queries. queries.items ≡ map (lists.query_of kind) names.now.keys) }
{
    let mut queries = Vec::new(alloc);
    for name in names {
        queries.push(query_of(kind, *name))?;
    }
    Ok(queries)
}

/// The reads of ports, in their order.
fn port_queries<A: Allocator + Copy>(
    alloc: A,
    ports: &BTreeSet<Wwn, A>,
) -> Result<Vec<Query, A>, AllocError>
    ensures { IfOk result (λ queries. queries.items ≡ map (λ (a : ℕ). query.Port a) ports.now.keys) }
{
    let mut queries = Vec::new(alloc);
    for port in ports {
        queries.push(Query::Port { name: *port })?;
    }
    Ok(queries)
}

/// What the reads of a kind show that are open to the caller, in the order of the names.
///
/// # Errors
/// `AllocError` where there is no memory.
pub fn list_rows<A: Allocator + Copy>(
    alloc: A,
    policy: &Policy,
    world: &World<A>,
    id: CallerId,
    kind: Kind,
) -> Result<Vec<Shown<A>, A>, AllocError>
    requires sound { IsSound world.now }
    ensures { IfOk result (λ rows. AreRows policy.now world.now id kind rows.items) }
{
    let names = list(alloc, policy, world, id, kind)?;
    let _count = names.len();
    let queries = name_queries(alloc, kind, &names)?;
    let rows = answers_to(alloc, world, &queries)?;
    Ok(rows)
}

/// What the reads of all known ports show, in the order of the ports. They are open to every caller.
///
/// # Errors
/// `AllocError` where there is no memory.
pub fn port_rows<A: Allocator + Copy>(
    alloc: A,
    world: &World<A>,
) -> Result<Vec<Shown<A>, A>, AllocError>
    requires sound { IsSound world.now }
    ensures { IfOk result (λ rows. (p : PolicyRows) (id : ℕ) → ArePortRows p world.now id rows.items) }
{
    let ports = list_ports(alloc, world)?;
    let _count = ports.len();
    let queries = port_queries(alloc, &ports)?;
    let rows = answers_to(alloc, world, &queries)?;
    Ok(rows)
}
