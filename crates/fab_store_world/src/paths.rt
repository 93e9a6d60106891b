//! The rows of paths, each with the host that holds its initiator; and those of a world's paths, compared with
//! given ones.
ghost use Rattle.std.specs.Prelude.{◌↔◌, ℕ, List, IsTrue, OnOk, IfOk, IfErr, MatchOption};
ghost use Rattle.fab_reach_base.specs.Adding.{Adds};
ghost use Rattle.fab_reach_base.specs.Reach.{IsInitiatorOf};
ghost use Rattle.fab_reach_base.specs.Views.{seen};
ghost use Rattle.fab_store_world.specs.Paths.{ArePathRows, HasFewPaths, PathsFail};
ghost use Rattle.fab_store_world.specs.PathGathering.{Has, HaveSame, IsRowOf, IsRowOfSome, HasPathRows};

use fab_reach_base::inventory::Inventory;
use fab_reach_base::lemmas::set_of;
use fab_reach_base::names::{Name, Wwn};
use fab_reach_base::{Config, Path, PathsFault, View, few_paths, host_of};
use fab_world::load::rows::PathRow;
use std::alloc::{AllocError, Allocator};
use std::collections::BTreeSet;

/// What leads from the rows of one world's paths to those of another: those that are taken away, and
/// those that are added. Each list is in the order of rows of paths.
#[derive(Drop)]
pub struct PathRowDifference<A: Allocator> {
    /// The rows that are taken away.
    pub taken: Vec<PathRow, A>,
    /// The rows that are added.
    pub added: Vec<PathRow, A>,
}

/// The host that holds the port of this name, if one does.
fn host_of_port<A: Allocator + Copy>(view: &View<'_, A>, initiator: &Wwn) -> Option<Name>
    ensures { MatchOption result ((h : List ℕ) → ¬ IsInitiatorOf (seen view.now) initiator.now h) (IsInitiatorOf (seen view.now) initiator.now) }
{
    match view.inventory.port(initiator) {
        Some(port) => host_of(view, &port),
        None => None,
    }
}

/// Adds the row of a path, if a host holds its initiator.
fn add_row<A: Allocator + Copy>(
    rows: &mut BTreeSet<PathRow, A>,
    view: &View<'_, A>,
    path: &Path,
) -> Result<(), AllocError>
    ensures { OnOk result (Adds (IsRowOf (seen view.now) path.now) (Has rows.old) (Has rows.new)) }
{
    let Some(host) = host_of_port(view, &path.initiator) else {
        return Ok(());
    };
    rows.insert(PathRow { host, path: *path })?;
    Ok(())
}

/// Adds the rows of the paths, each with the host that holds its initiator. A path whose initiator no
/// host holds has no row.
///
/// # Errors
/// `AllocError` where there is no memory: some of the rows may have been added.
pub fn add_path_rows<A: Allocator + Copy>(
    rows: &mut BTreeSet<PathRow, A>,
    view: &View<'_, A>,
    paths: &[Path],
) -> Result<(), AllocError>
    ensures { OnOk result (Adds (IsRowOfSome (seen view.now) paths.now) (Has rows.old) (Has rows.new)) }
{
    for path in paths {
        add_row(rows, view, path)?;
    }
    Ok(())
}

/// The set of the rows of a world's paths.
fn gather<A: Allocator + Copy>(
    alloc: A,
    view: &View<'_, A>,
) -> Result<BTreeSet<PathRow, A>, PathsFault>
    ensures ok { IfOk result (HasPathRows (seen view.now)) }
    ensures few { OnOk result (HasFewPaths (seen view.now)) }
    ensures err { IfErr result (PathsFail (seen view.now)) }
{
    let paths = few_paths(alloc, view.inventory, view.config)?;
    let mut rows = BTreeSet::new(alloc);
    add_path_rows(&mut rows, view, paths.as_slice())?;
    Ok(rows)
}

/// Whether the two sets have the same rows.
fn are_equal<A: Allocator + Copy>(
    rows: &BTreeSet<PathRow, A>,
    others: &BTreeSet<PathRow, A>,
) -> bool
    ensures { IsTrue result ↔ HaveSame rows.now others.now }
{
    rows.is_subset(others) && others.is_subset(rows)
}

/// Whether the given rows, in any order and however often each, are just those of the world's paths.
///
/// # Errors
/// `TooMany` where the world has more than `MOST_PATHS` paths, and only there; `Memory`.
pub fn are_path_rows<A: Allocator + Copy>(
    alloc: A,
    inventory: &Inventory<A>,
    config: &Config<A>,
    rows: &[PathRow],
) -> Result<bool, PathsFault>
    ensures ok { IfOk result (λ same. IsTrue same ↔ ArePathRows (record { inventory = inventory.now; config = config.now }) rows.now) }
    ensures few { OnOk result (HasFewPaths (record { inventory = inventory.now; config = config.now })) }
    ensures err { IfErr result (PathsFail (record { inventory = inventory.now; config = config.now })) }
{
    let wanted = gather(alloc, &View::of(inventory, config))?;
    let given = set_of(alloc, rows)?;
    Ok(are_equal(&given, &wanted))
}
