//! How many paths lead to each volume over each fabric.
ghost use Rattle.std.specs.Prelude.{◌≡◌, ◌<◌, ◌-◌, ◌^◌, IfOk, unwrap_or};
ghost use Rattle.std.specs.BTreeMap.{get};
ghost use Rattle.fab_reach_base.specs.fab_names.Orders.{name_cmp};
ghost use Rattle.fab_files.specs.Counting.{AreCounted, none_counted, one_more};

use fab_reach_base::Path;
use fab_reach_base::names::{Fabric, Name};
use std::alloc::{AllocError, Allocator};
use std::collections::BTreeMap;

/// How many paths lead to a volume over each fabric.
#[derive(Clone, Copy)]
pub struct Counts {
    /// How many over fabric A.
    pub over_a: u64,
    /// How many over fabric B.
    pub over_b: u64,
}

impl Counts {
    /// No path so far.
    fn none() -> Self
        ensures { result ≡ none_counted }
    {
        Counts {
            over_a: 0,
            over_b: 0,
        }
    }

    /// With one path more over a fabric.
    fn with(self, fabric: Fabric) -> Self
        requires a { self.over_a < 2 ^ 64 - 1 }
        requires b { self.over_b < 2 ^ 64 - 1 }
        ensures { result ≡ one_more fabric self }
    {
        match fabric {
            Fabric::A => Counts {
                over_a: self.over_a + 1,
                over_b: self.over_b,
            },
            Fabric::B => Counts {
                over_a: self.over_a,
                over_b: self.over_b + 1,
            },
        }
    }
}

/// The counts of each volume to which one of the paths leads, by name.
///
/// # Errors
/// `AllocError` where there is no memory.
pub fn counts_of<A: Allocator + Copy>(
    alloc: A,
    paths: &[Path],
) -> Result<BTreeMap<Name, Counts, A>, AllocError>
    ensures { IfOk result (AreCounted paths.now) }
{
    let mut counts = BTreeMap::new(alloc);
    for path in paths {
        let before = counted(&counts, &path.volume);
        counts.insert(path.volume, before.with(path.fabric))?;
    }
    Ok(counts)
}

/// What is counted of a volume so far.
fn counted<A: Allocator + Copy>(counts: &BTreeMap<Name, Counts, A>, volume: &Name) -> Counts
    ensures { result ≡ unwrap_or (get name_cmp counts.now volume.now) none_counted }
{
    match counts.get(volume) {
        Some(counts) => *counts,
        None => Counts::none(),
    }
}
