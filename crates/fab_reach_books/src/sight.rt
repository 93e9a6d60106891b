//! Questions about pairs, which are counted.
ghost use Rattle.std.specs.Prelude.{◌≡◌, ℕ, IfOk, OnOk, min, ◌+◌};
ghost use Rattle.fab_reach_base.specs.Records.{Records};
ghost use Rattle.fab_reach_base.specs.Views.{seen};
ghost use Rattle.fab_reach_base.specs.Orders.{Has, IsListOf};
ghost use Rattle.fab_reach_base.specs.Adding.{Adds};
ghost use Rattle.fab_reach_base.specs.Gathering.{IsIndexOf};
ghost use Rattle.fab_reach_base.specs.Reach.{PathOf};
ghost use Rattle.fab_reach_books.specs.Renewed.{IsRenewedIndex};

use crate::renewed::RenewedGroups;
use fab_names::{Name, Wwn};
use fab_reach_base::{Path, View, add_pair_of, host_of, listed, served_hosts};
use std::alloc::{AllocError, Allocator};
use std::collections::{BTreeMap, BTreeSet};
use std::marker::Model;

/// What can be asked about the pairs of a world.
pub trait Sight<A: Allocator + Copy> {
    // The world that is seen.
    ghost world: { Self → Records };

    // How many questions were asked.
    ghost count: { Self → ℕ };

    /// The paths of a pair, in order. The question counts, also where it is refused.
    ///
    /// # Errors
    /// `AllocError` where there is no memory.
    fn pair(&mut self, p: &Wwn, q: &Wwn) -> Result<Vec<Path, A>, AllocError>
        ensures same { world self.new ≡ world self.old }
        ensures counted { count self.new ≡ min (count self.old + 1) 18446744073709551615 }
        ensures paths { IfOk result (λ paths. IsListOf (PathOf (world self.old) p.now q.now) paths.items) };

    /// The same, where it is told which exposed storage groups serve each host in the world that is seen.
    ///
    /// # Errors
    /// `AllocError` where there is no memory.
    fn pair_by(
        &mut self,
        p: &Wwn,
        q: &Wwn,
        groups: &RenewedGroups<'_, A>,
    ) -> Result<Vec<Path, A>, AllocError>
        requires groups { IsRenewedIndex (world self.old).config.mapping groups.now.new.now groups.now.old.now }
        ensures same { world self.new ≡ world self.old }
        ensures counted { count self.new ≡ min (count self.old + 1) 18446744073709551615 }
        ensures paths { IfOk result (λ paths. IsListOf (PathOf (world self.old) p.now q.now) paths.items) };

    /// How many questions were asked. At its greatest value the count stays.
    fn asked(&self) -> u64
        ensures { result ≡ count self.now };
}

/// The sight of a world that is lent. The exposed storage groups of each host are found at the first
/// question that does not tell them.
#[derive(Drop)]
pub struct ViewSight<'a, A: Allocator + Copy> {
    alloc: A,
    view: View<'a, A>,
    served: Option<BTreeMap<Name, BTreeSet<Name, A>, A>>,
    asked: u64,
}

impl<'a, A: Allocator + Copy> Model for ViewSight<'a, A> {
    ghost use Rattle.fab_reach_base.specs.Views.{seen};
    ghost use Rattle.fab_reach_books.specs.Sights.{SightRows, sight_code, IsIndexIfMade};

    ghost Value = { SightRows };

    ghost coded = { sight_code };

    ghost view = { λ a. record { world = seen a.view; asked = a.asked } };

    ghost invariant = { λ a. IsIndexIfMade (seen a.view).config.mapping a.served };
}

/// Adds the paths of a pair of known ports, if there are such.
fn add_known_pair<A: Allocator + Copy>(
    paths: &mut BTreeSet<Path, A>,
    view: &View<'_, A>,
    groups: &RenewedGroups<'_, A>,
    p: &Wwn,
    q: &Wwn,
) -> Result<(), AllocError>
    requires { IsRenewedIndex (seen view.now).config.mapping groups.now.new.now groups.now.old.now }
    ensures { OnOk result (Adds (PathOf (seen view.now) p.now q.now) (Has paths.old) (Has paths.new)) }
{
    let Some(from) = view.inventory.port(p) else {
        return Ok(());
    };
    let Some(to) = view.inventory.port(q) else {
        return Ok(());
    };
    let Some(host) = host_of(view, &from) else {
        return Ok(());
    };
    add_pair_of(paths, view, groups.of(&host), &host, &from, &to)
}

/// The paths of a pair, in order.
fn pair_paths<A: Allocator + Copy>(
    alloc: A,
    view: &View<'_, A>,
    groups: &RenewedGroups<'_, A>,
    p: &Wwn,
    q: &Wwn,
) -> Result<Vec<Path, A>, AllocError>
    requires { IsRenewedIndex (seen view.now).config.mapping groups.now.new.now groups.now.old.now }
    ensures { IfOk result (λ paths. IsListOf (PathOf (seen view.now) p.now q.now) paths.items) }
{
    let mut paths = BTreeSet::new(alloc);
    add_known_pair(&mut paths, view, groups, p, q)?;
    let _count = paths.len();
    let items = listed(alloc, &paths)?;
    Ok(items)
}

/// The paths of a pair, in order, by the index of a world.
fn indexed_paths<A: Allocator + Copy>(
    alloc: A,
    view: &View<'_, A>,
    served: &BTreeMap<Name, BTreeSet<Name, A>, A>,
    p: &Wwn,
    q: &Wwn,
) -> Result<Vec<Path, A>, AllocError>
    requires { IsIndexOf (seen view.now).config.mapping served.now }
    ensures { IfOk result (λ paths. IsListOf (PathOf (seen view.now) p.now q.now) paths.items) }
{
    let none = BTreeMap::new(alloc);
    let groups = RenewedGroups {
        new: &none,
        old: served,
    };
    pair_paths(alloc, view, &groups, p, q)
}

/// The exposed storage groups of each host in a world that is lent.
fn index_of<A: Allocator + Copy>(
    alloc: A,
    view: &View<'_, A>,
) -> Result<BTreeMap<Name, BTreeSet<Name, A>, A>, AllocError>
    ensures { IfOk result (IsIndexOf (seen view.now).config.mapping) }
{
    let served = served_hosts(alloc, view.config.mapping())?;
    Ok(served)
}

impl<'a, A: Allocator + Copy> ViewSight<'a, A> {
    /// The sight of a view, of which nothing was asked yet. It takes no memory.
    pub fn new(alloc: A, view: View<'a, A>) -> Self
        ensures { result ≡ record { world = seen view.entry; asked = 0 } }
    {
        ViewSight {
            alloc,
            view,
            served: None,
            asked: 0,
        }
    }
}

impl<'a, A: Allocator + Copy> Sight<A> for ViewSight<'a, A> {
    ghost world = { λ sight. sight.world };

    ghost count = { λ sight. sight.asked };

    fn pair(&mut self, p: &Wwn, q: &Wwn) -> Result<Vec<Path, A>, AllocError> {
        self.asked = self.asked.saturating_add(1);
        if let Some(served) = &self.served {
            return indexed_paths(self.alloc, &self.view, served, p, q);
        }
        let served = index_of(self.alloc, &self.view)?;
        let paths = indexed_paths(self.alloc, &self.view, &served, p, q)?;
        self.served = Some(served);
        Ok(paths)
    }

    fn pair_by(
        &mut self,
        p: &Wwn,
        q: &Wwn,
        groups: &RenewedGroups<'_, A>,
    ) -> Result<Vec<Path, A>, AllocError> {
        self.asked = self.asked.saturating_add(1);
        pair_paths(self.alloc, &self.view, groups, p, q)
    }

    fn asked(&self) -> u64 {
        self.asked
    }
}
