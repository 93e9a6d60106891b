//! A sight that stops past the limit on paths.
ghost use Rattle.std.specs.Prelude.{◌≡◌, ◌⊎◌, true, Contains, IsTrue, ◌<◌, length};
ghost use Rattle.std.specs.BTreeSet.{IsOrdered};
ghost use Rattle.fab_reach_base.specs.Adding.{AddsOnly};
ghost use Rattle.fab_reach_base.specs.Limits.{MoreThan, most_paths};
ghost use Rattle.fab_reach_base.specs.Orders.{Has, path_cmp};
ghost use Rattle.fab_reach_base.specs.Reach.{Reaches};

use crate::renewed::RenewedGroups;
use crate::sight::Sight;
use fab_names::Wwn;
use fab_reach_base::{MOST_PATHS, Path};
use std::alloc::{AllocError, Allocator};
use std::collections::BTreeSet;
use std::marker::Model;

/// A sight that refuses once it has shown more paths than a world may have. It keeps the paths that it
/// showed, at most one pair's past the limit.
#[derive(Drop)]
pub struct Limited<A: Allocator + Copy, S: Sight<A> + Drop> {
    sight: S,
    shown: BTreeSet<Path, A>,
    over: bool,
}

impl<A: Allocator + Copy, S: Sight<A> + Drop> Model for Limited<A, S> {
    ghost use Rattle.fab_reach_books.specs.Limiting.{LimitedRows, limited_code, ShowsPaths};

    ghost Value = { LimitedRows };

    ghost coded = { limited_code };

    ghost view = { λ a. record { world = S.world a.sight; asked = S.count a.sight; over = a.over } };

    ghost invariant = { λ a. ShowsPaths (S.world a.sight) a.shown a.over };
}

/// Adds the listed paths; where there is no memory, some of them.
fn show<A: Allocator + Copy>(
    shown: &mut BTreeSet<Path, A>,
    paths: &[Path],
) -> Result<(), AllocError>
    ensures { AddsOnly (Contains paths.now) (Has shown.old) (Has shown.new) }
{
    for path in paths {
        shown.insert(*path)?;
    }
    Ok(())
}

/// Adds the listed paths, and notes where there are more than there may be.
fn show_few<A: Allocator + Copy>(
    shown: &mut BTreeSet<Path, A>,
    over: &mut bool,
    paths: &[Path],
) -> Result<(), AllocError>
    ensures shown { AddsOnly (Contains paths.now) (Has shown.old) (Has shown.new) }
    ensures over { over.new ≡ true → (over.old ≡ true) ⊎ (IsOrdered path_cmp shown.new × (most_paths < length shown.new.keys)) }
{
    show(shown, paths)?;
    if shown.len() > MOST_PATHS {
        *over = true;
        return Err(AllocError);
    }
    Ok(())
}

impl<A: Allocator + Copy, S: Sight<A> + Drop> Limited<A, S> {
    /// The same sight, which stops past the limit. It takes no memory.
    pub fn new(alloc: A, sight: S) -> Self
        ensures world { result.world ≡ S.world sight }
        ensures asked { result.asked ≡ S.count sight }
    {
        Limited {
            sight,
            shown: BTreeSet::new(alloc),
            over: false,
        }
    }

    /// Whether it has shown more than `MOST_PATHS` paths: then the world has more.
    pub fn is_over(&self) -> bool
        ensures { IsTrue result → MoreThan most_paths (Reaches self.now.world) }
    {
        self.over
    }
}

impl<A: Allocator + Copy, S: Sight<A> + Drop> Sight<A> for Limited<A, S> {
    ghost world = { λ sight. sight.world };

    ghost count = { λ sight. sight.asked };

    fn pair(&mut self, p: &Wwn, q: &Wwn) -> Result<Vec<Path, A>, AllocError> {
        let paths = self.sight.pair(p, q)?;
        show_few(&mut self.shown, &mut self.over, paths.as_slice())?;
        Ok(paths)
    }

    fn pair_by(
        &mut self,
        p: &Wwn,
        q: &Wwn,
        groups: &RenewedGroups<'_, A>,
    ) -> Result<Vec<Path, A>, AllocError> {
        let paths = self.sight.pair_by(p, q, groups)?;
        show_few(&mut self.shown, &mut self.over, paths.as_slice())?;
        Ok(paths)
    }

    fn asked(&self) -> u64 {
        self.sight.asked()
    }
}
