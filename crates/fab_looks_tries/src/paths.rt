//! What a change does to paths and to the hosts that lose some.
ghost use Rattle.std.specs.Prelude.{◌↔◌, ℕ, List, IfOk};
ghost use Rattle.fab_desk_machine.specs.fab_desk_base.Tenants.{Has};
ghost use Rattle.fab_desk_machine.specs.fab_desk_trials.Trials.{IsStepReady};
ghost use Rattle.fab_looks_tries.specs.Hosts.{AreLosing, ArePathsMoved, IsOnOneFabric, IsWithoutPath, LosesPath};
ghost use Rattle.fab_reach_base.specs.Books.{IsGained};
ghost use Rattle.fab_reach_base.specs.Orders.{IsListOf};
ghost use Rattle.fab_reach_base.specs.Records.{Records};
ghost use Rattle.fab_reach_base.specs.Views.{seen};
ghost use Rattle.fab_world.specs.Worlds.{records_of};

use crate::hosts::losing_hosts;
use crate::left::{Left, left_of};
use crate::order::in_order;
use fab_desk_machine::adopt;
use fab_names::Name;
use fab_reach_base::{Path, View};
use fab_reach_books::PathBook;
use fab_world::World;
use std::alloc::{AllocError, Allocator};
use std::collections::BTreeSet;

/// The hosts that lose paths by a change, by name.
#[derive(Drop)]
pub struct LosingHosts<A: Allocator + Copy> {
    /// All of them.
    pub all: Vec<Name, A>,
    /// Those that have paths over one fabric alone afterwards.
    pub on_one: Vec<Name, A>,
    /// Those that have no path afterwards.
    pub without: Vec<Name, A>,
}

/// What a change does to paths.
#[derive(Drop)]
pub struct PathsMoved<A: Allocator + Copy> {
    /// How many paths it gains.
    pub gained: usize,
    /// How many it loses.
    pub lost: usize,
    /// The hosts that lose paths.
    pub hosts: LosingHosts<A>,
}

/// The hosts that lose paths, and what they have left, as lists.
fn lists_of<A: Allocator + Copy>(
    alloc: A,
    losing: &BTreeSet<Name, A>,
    left: &Left<A>,
) -> Result<LosingHosts<A>, AllocError>
    ensures { (w v : Records) → ((h : List ℕ) → Has losing.now h ↔ LosesPath w v h)
        → ((h : List ℕ) → Has left.now.on_one h ↔ (Has losing.now h × IsOnOneFabric v h)) → ((h : List ℕ) → Has left.now.without h ↔ (Has losing.now h × IsWithoutPath v h))
        → IfOk result (AreLosing w v) }
{
    let all = in_order(alloc, losing)?;
    let on_one = in_order(alloc, &left.on_one)?;
    let without = in_order(alloc, &left.without)?;
    Ok(LosingHosts {
        all,
        on_one,
        without,
    })
}

/// The hosts that lose paths by a change to the world where the book stands.
fn hosts_of<A: Allocator + Copy, B: PathBook<A>>(
    alloc: A,
    before: &View<'_, A>,
    book: &B,
    lost: &[Path],
) -> Result<LosingHosts<A>, AllocError>
    ensures { (v : Records) → B.stands book.now v → IsListOf (IsGained v (seen before.now)) lost.now → IfOk result (AreLosing (seen before.now) v) }
{
    let losing = losing_hosts(alloc, before, lost)?;
    let left = left_of(alloc, book, &losing)?;
    let hosts = lists_of(alloc, &losing, &left)?;
    Ok(hosts)
}

/// What the step of a book does to paths: the book takes it, and stands at the world after the change
/// then.
///
/// # Errors
/// `AllocError` where there is no memory.
pub fn paths_moved<A: Allocator + Copy, B: PathBook<A>>(
    alloc: A,
    world: &World<A>,
    book: &mut B,
    step: Option<B::Ready>,
) -> Result<PathsMoved<A>, AllocError>
    requires stands { B.stands book.old (records_of world.now) }
    ensures { (v : Records) → IsStepReady (B.leads book.old) (records_of world.now) v step → IfOk result (ArePathsMoved (records_of world.now) v) }
{
    let delta = adopt(alloc, book, step);
    let before = View::of(&world.inventory, &world.config);
    let hosts = hosts_of(alloc, &before, book, delta.lost.as_slice())?;
    Ok(PathsMoved {
        gained: delta.gained.as_slice().len(),
        lost: delta.lost.as_slice().len(),
        hosts,
    })
}
