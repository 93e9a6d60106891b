//! A step that asks about some pairs alone.
ghost use Rattle.std.specs.Prelude.{◌≡◌, ◌↔◌, Contains, IsTrue, IfOk, OnOk, ◌+◌, ◌<◌, ◌≤◌, length, min};
ghost use Rattle.fab_reach_base.specs.Records.{Records};
ghost use Rattle.fab_reach_base.specs.Orders.{Has, IsListOf, path_cmp};
ghost use Rattle.fab_reach_base.specs.Reach.{PathOf};
ghost use Rattle.fab_reach_base.specs.Adding.{Adds};
ghost use Rattle.fab_reach.specs.Inner.Asking.{in_rows, AreToldIn, IsLater, IsEarlier};
ghost use Rattle.fab_reach_base.specs.Books.{IsDelta};
ghost use Rattle.fab_reach_books.specs.Pairs.{AreChanged, pair_cmp};
ghost use Rattle.fab_reach_index.specs.Indexes.{IsTreeOf, IsRowOf};

use fab_names::Wwn;
use fab_reach_base::{Delta, Path, listed};
use fab_reach_books::{RenewedGroups, Sight};
use std::alloc::{AllocError, Allocator};
use std::collections::{BTreeMap, BTreeSet};

/// Whether the path is among the rows, if there are any.
fn is_in<A: Allocator + Copy>(rows: Option<&BTreeSet<Path, A>>, path: &Path) -> bool
    ensures { result ≡ in_rows rows.entry path.now }
{
    match rows {
        Some(rows) => rows.contains(path),
        None => false,
    }
}

/// Adds the listed paths that are not among the rows.
fn add_new<A: Allocator + Copy>(
    paths: &mut BTreeSet<Path, A>,
    these: &[Path],
    rows: Option<&BTreeSet<Path, A>>,
) -> Result<(), AllocError>
    ensures { OnOk result (Adds (IsLater these.now rows.entry) (Has paths.old) (Has paths.new)) }
{
    for path in these {
        if !is_in(rows, path) {
            paths.insert(*path)?;
        }
    }
    Ok(())
}

/// Whether the path is listed.
fn is_listed(these: &[Path], path: &Path) -> bool
    ensures { IsTrue result ↔ Contains these.now path.now }
{
    these.contains(path)
}

/// Adds the rows, if there are any, that are not among the listed paths.
fn add_gone<A: Allocator + Copy>(
    paths: &mut BTreeSet<Path, A>,
    rows: Option<&BTreeSet<Path, A>>,
    these: &[Path],
) -> Result<(), AllocError>
    ensures { OnOk result (Adds (IsEarlier rows.entry these.now) (Has paths.old) (Has paths.new)) }
{
    let Some(rows) = rows else {
        return Ok(());
    };
    for path in rows {
        if !is_listed(these, path) {
            paths.insert(*path)?;
        }
    }
    Ok(())
}

/// The paths of a pair, by one question, which tells the storage groups of the hosts where they are
/// known.
fn ask<A: Allocator + Copy, S: Sight<A>>(
    sight: &mut S,
    p: &Wwn,
    q: &Wwn,
    groups: Option<RenewedGroups<'_, A>>,
) -> Result<Vec<Path, A>, AllocError>
    requires { AreToldIn (S.world sight.old) groups }
    ensures same { S.world sight.new ≡ S.world sight.old }
    ensures counted { S.count sight.new ≡ min (S.count sight.old + 1) 18446744073709551615 }
    ensures paths { IfOk result (λ paths. IsListOf (PathOf (S.world sight.old) p.now q.now) paths.items) }
{
    match groups {
        Some(groups) => sight.pair_by(p, q, &groups),
        None => sight.pair(p, q),
    }
}

/// What a step gains and loses, by the paths of these pairs before it and in the world that is
/// seen. It asks about each pair once. The storage groups of the hosts in the world that is seen are
/// told where they are known.
pub fn delta_by<A: Allocator + Copy, S: Sight<A>>(
    alloc: A,
    rows: &BTreeMap<(Wwn, Wwn), BTreeSet<Path, A>, A>,
    pairs: &[(Wwn, Wwn)],
    groups: Option<RenewedGroups<'_, A>>,
    sight: &mut S,
) -> Result<Delta<A>, AllocError>
    requires { AreToldIn (S.world sight.old) groups }
    ensures delta { (w : Records) → IsTreeOf pair_cmp path_cmp (IsRowOf w) rows.now → AreChanged w (S.world sight.old) pairs.now → IfOk result (λ delta. IsDelta w (S.world sight.old) delta.gained.items delta.lost.items) }
    ensures most { S.count sight.new ≤ S.count sight.old + length pairs.now }
    ensures least { OnOk result (S.count sight.new < 18446744073709551615 → S.count sight.old + length pairs.now ≤ S.count sight.new) }
    ensures same { S.world sight.new ≡ S.world sight.old }
{
    let mut gained = BTreeSet::new(alloc);
    let mut lost = BTreeSet::new(alloc);
    for (p, q) in pairs {
        let now = ask(sight, p, q, groups)?;
        let before = rows.get(&(*p, *q));
        add_new(&mut gained, now.as_slice(), before)?;
        add_gone(&mut lost, before, now.as_slice())?;
    }
    let _counts = (gained.len(), lost.len());
    let gained = listed(alloc, &gained)?;
    let lost = listed(alloc, &lost)?;
    Ok(Delta { gained, lost })
}
