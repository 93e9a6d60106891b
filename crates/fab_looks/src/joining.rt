//! Which of the paths that there would be are there.
ghost use Rattle.std.specs.Prelude.{◌↔◌, IsTrue, IfOk};
ghost use Rattle.fab_reach_base.specs.Orders.{Has};
ghost use Rattle.fab_reach_base.specs.Views.{seen};
ghost use Rattle.fab_looks.specs.Inner.Offers.{MayPass};
ghost use Rattle.fab_reach_base.specs.declared.path.Path.{Path};

use fab_reach_base::{Path, View};
use std::alloc::{AllocError, Allocator};
use std::collections::BTreeSet;

/// Whether the ports of the path are known, and may communicate in its fabric.
fn may_pass<A: Allocator + Copy>(view: &View<'_, A>, path: &Path) -> bool
    ensures { IsTrue result ↔ MayPass (seen view.now) path.now }
{
    let Some(p) = view.inventory.port(&path.initiator) else {
        return false;
    };
    let Some(q) = view.inventory.port(&path.target) else {
        return false;
    };
    view.config.zoning(path.fabric).joined(&p, &q).is_some()
}

/// Those of the paths whose ports may communicate.
pub fn passable<A: Allocator + Copy>(
    alloc: A,
    view: &View<'_, A>,
    paths: &BTreeSet<Path, A>,
) -> Result<BTreeSet<Path, A>, AllocError>
    ensures { IfOk result (λ there. (x : Path) → Has there x ↔ (Has paths.now x × MayPass (seen view.now) x)) }
{
    let mut there = BTreeSet::new(alloc);
    for path in paths {
        if may_pass(view, path) {
            there.insert(*path)?;
        }
    }
    Ok(there)
}
