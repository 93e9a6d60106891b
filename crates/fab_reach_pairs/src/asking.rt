//! The paths of all pairs of some ports, by asking about each.
ghost use Rattle.std.specs.Prelude.{◌≡◌, Contains, OnOk, IfOk};
ghost use Rattle.fab_reach_base.specs.Adding.{Adds};
ghost use Rattle.fab_reach_base.specs.Books.{AreReached};
ghost use Rattle.fab_reach_base.specs.Orders.{Has};
ghost use Rattle.fab_reach_base.specs.Reach.{PathOf};
ghost use Rattle.fab_reach_books.specs.Inner.Sets.{HasPortIn};
ghost use Rattle.fab_reach_pairs.specs.Owning.{IsKnownPort, IsToAny, IsOfAny};

use fab_names::Wwn;
use fab_reach_base::Path;
use fab_reach_books::Sight;
use std::alloc::{AllocError, Allocator};
use std::collections::BTreeSet;

/// Adds the listed paths.
fn add_listed<A: Allocator + Copy>(
    paths: &mut BTreeSet<Path, A>,
    these: &[Path],
) -> Result<(), AllocError>
    ensures { OnOk result (Adds (Contains these.now) (Has paths.old) (Has paths.new)) }
{
    for path in these {
        paths.insert(*path)?;
    }
    Ok(())
}

/// Adds the paths of a pair.
fn add_pair<A: Allocator + Copy, S: Sight<A>>(
    paths: &mut BTreeSet<Path, A>,
    sight: &mut S,
    p: &Wwn,
    q: &Wwn,
) -> Result<(), AllocError>
    ensures same { S.world sight.new ≡ S.world sight.old }
    ensures paths { OnOk result (Adds (PathOf (S.world sight.old) p.now q.now) (Has paths.old) (Has paths.new)) }
{
    let these = sight.pair(p, q)?;
    add_listed(paths, these.as_slice())?;
    Ok(())
}

/// Adds the paths from a port to each of the ports.
fn add_from<A: Allocator + Copy, S: Sight<A>>(
    paths: &mut BTreeSet<Path, A>,
    sight: &mut S,
    p: &Wwn,
    ports: &BTreeSet<Wwn, A>,
) -> Result<(), AllocError>
    ensures same { S.world sight.new ≡ S.world sight.old }
    ensures paths { OnOk result (Adds (IsToAny (S.world sight.old) ports.now p.now) (Has paths.old) (Has paths.new)) }
{
    for q in ports {
        add_pair(paths, sight, p, q)?;
    }
    Ok(())
}

/// Adds the paths from each of the ports to each of them.
fn add_all<A: Allocator + Copy, S: Sight<A>>(
    paths: &mut BTreeSet<Path, A>,
    sight: &mut S,
    ports: &BTreeSet<Wwn, A>,
) -> Result<(), AllocError>
    ensures same { S.world sight.new ≡ S.world sight.old }
    ensures paths { OnOk result (Adds (IsOfAny (S.world sight.old) ports.now) (Has paths.old) (Has paths.new)) }
{
    for p in ports {
        add_from(paths, sight, p, ports)?;
    }
    Ok(())
}

/// The paths of the world that is seen, by asking about each pair of the ports: all known ports are
/// among them.
///
/// # Errors
/// `AllocError` where there is no memory.
pub fn all_pairs<A: Allocator + Copy, S: Sight<A>>(
    alloc: A,
    sight: &mut S,
    ports: &BTreeSet<Wwn, A>,
) -> Result<BTreeSet<Path, A>, AllocError>
    requires { (p : _) → IsKnownPort (S.world sight.old) p → HasPortIn ports.now p }
    ensures same { S.world sight.new ≡ S.world sight.old }
    ensures paths { IfOk result (λ paths. AreReached (S.world sight.old) (Has paths)) }
{
    let mut paths = BTreeSet::new(alloc);
    add_all(&mut paths, sight, ports)?;
    Ok(paths)
}
