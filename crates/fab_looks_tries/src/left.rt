//! Over which fabrics hosts have paths.
ghost use Rattle.std.specs.Prelude.{◌≡◌, ◌≢◌, ◌↔◌, ℕ, List, IsTrue, OnOk, IfOk};
ghost use Rattle.fab_desk_machine.specs.fab_desk_base.Tenants.{Has};
ghost use Rattle.fab_looks_tries.specs.Hosts.{HasPathOver, IsOnOneFabric, IsWithoutPath};
ghost use Rattle.fab_looks_tries.specs.Inner.Gathered.{IsOver};
ghost use Rattle.fab_names.specs.declared.fabric.Fabric.TheVariants as fabrics;
ghost use Rattle.fab_reach_base.specs.Adding.{Adds};
ghost use Rattle.fab_reach_base.specs.Records.{Records};

use fab_names::{Fabric, Name};
use fab_reach_base::Path;
use fab_reach_books::PathBook;
use std::alloc::{AllocError, Allocator};
use std::collections::BTreeSet;

/// Whether a host has paths over each fabric.
#[derive(Clone, Copy)]
struct Over {
    a: bool,
    b: bool,
}

/// Hosts that have paths over one fabric alone, and hosts that have none.
#[derive(Drop)]
pub struct Left<A: Allocator + Copy> {
    /// Those that have paths over one fabric alone.
    pub on_one: BTreeSet<Name, A>,
    /// Those that have no path.
    pub without: BTreeSet<Name, A>,
}

/// Whether one of the paths is over the fabric.
fn is_over(paths: &[Path], fabric: Fabric) -> bool
    ensures { IsTrue result ↔ IsOver paths.now fabric }
{
    paths.iter().any(|path| path.fabric == fabric)
}

/// Over which fabrics the host has paths, in the world where the book stands.
fn over_of<A: Allocator + Copy, B: PathBook<A>>(book: &B, host: &Name) -> Result<Over, AllocError>
    ensures { (v : Records) → B.stands book.now v → IfOk result (λ over.
        (IsTrue over.a ↔ HasPathOver v host.now fabrics.A) × (IsTrue over.b ↔ HasPathOver v host.now fabrics.B)) }
{
    let paths = book.of_host(host)?;
    Ok(Over {
        a: is_over(&paths, Fabric::A),
        b: is_over(&paths, Fabric::B),
    })
}

/// Whether the paths are over one fabric alone.
fn is_one(over: Over) -> bool
    ensures { IsTrue result ↔ (over.a ≢ over.b) }
{
    over.a != over.b
}

/// Whether there is no path.
fn is_none(over: Over) -> bool
    ensures { IsTrue result ↔ ((¬ IsTrue over.a) × ¬ IsTrue over.b) }
{
    if over.a {
        return false;
    }
    !over.b
}

/// Adds the name to the set if it is asked for.
fn add_if<A: Allocator + Copy>(
    names: &mut BTreeSet<Name, A>,
    is_asked: bool,
    name: Name,
) -> Result<(), AllocError>
    ensures { OnOk result (Adds (λ n. IsTrue is_asked × (n ≡ name)) (Has names.old) (Has names.new)) }
{
    if !is_asked {
        return Ok(());
    }
    names.insert(name)?;
    Ok(())
}

/// Those of the hosts that have paths over one fabric alone, and those that have none, in the world
/// where the book stands.
///
/// # Errors
/// `AllocError` where there is no memory.
pub fn left_of<A: Allocator + Copy, B: PathBook<A>>(
    alloc: A,
    book: &B,
    hosts: &BTreeSet<Name, A>,
) -> Result<Left<A>, AllocError>
    ensures { (v : Records) → B.stands book.now v → IfOk result (λ left.
        ((h : List ℕ) → Has left.on_one h ↔ (Has hosts.now h × IsOnOneFabric v h)) × ((h : List ℕ) → Has left.without h ↔ (Has hosts.now h × IsWithoutPath v h))) }
{
    let mut on_one = BTreeSet::new(alloc);
    let mut without = BTreeSet::new(alloc);
    for host in hosts {
        let over = over_of(book, host)?;
        add_if(&mut on_one, is_one(over), *host)?;
        add_if(&mut without, is_none(over), *host)?;
    }
    Ok(Left { on_one, without })
}
