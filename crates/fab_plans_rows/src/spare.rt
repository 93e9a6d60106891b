//! A spare configuration: another one that is the world's, to do steps on, so that none is copied.
ghost use Rattle.std.specs.Prelude.{◌≡◌, IfOk, IfSome};
ghost use Rattle.fab_reach_base.specs.Records.{ConfigRows};
ghost use Rattle.fab_reach_base.specs.Soundness.{IsSoundAlone};
ghost use Rattle.fab_store_rows.specs.Differences.{IsDifference};

use fab_reach_base::Config;
use fab_store_drafts::edits::lead;
use fab_store_rows::{ConfigRow, RowDifference};
use std::alloc::{AllocError, Allocator};

/// A configuration equal to this one, to do steps on: the spare one, which is taken, or else a copy.
///
/// # Errors
/// `AllocError` where there is no spare one, and no memory for a copy.
pub fn take_spare<A: Allocator + Copy>(
    config: &Config<A>,
    spare: &mut Option<Config<A>>,
) -> Result<Config<A>, AllocError>
    requires { IfSome spare.old (λ s. s ≡ config.now) }
    ensures equal { IfOk result (λ copy. copy ≡ config.now) }
    ensures spare { IfSome spare.new (λ s. s ≡ config.now) }
{
    match spare.take() {
        Some(equal) => Ok(equal),
        None => config.copy(),
    }
}

/// The configuration to which these rows lead from another one: they are taken out of it, and put in.
/// None where there is no memory for the way.
fn led<A: Allocator + Copy>(
    alloc: A,
    from: Config<A>,
    go: &[ConfigRow],
    come: &[ConfigRow],
) -> Option<Config<A>>
    ensures { (to : ConfigRows) → IsSoundAlone to → IsSoundAlone from → IsDifference to from come.now go.now → IfSome result (λ s. s ≡ to) }
{
    let mut config = from;
    match lead(alloc, &mut config, go, come) {
        Ok(true) => Some(config),
        Ok(false) | Err(_) => None,
    }
}

/// The configuration from before a change, led back to from the one after it: a spare one. None where
/// there is no memory for the way back.
pub fn spare_after<A: Allocator + Copy>(
    alloc: A,
    before: &Config<A>,
    after: Config<A>,
    change: &RowDifference<A>,
) -> Option<Config<A>>
    requires before { IsSoundAlone before.now }
    requires after { IsSoundAlone after }
    requires differs { IsDifference before.now after change.now.taken.items change.now.added.items }
    ensures { IfSome result (λ s. s ≡ before.now) }
{
    let _before = before;
    led(
        alloc,
        after,
        change.added.as_slice(),
        change.taken.as_slice(),
    )
}

/// The configuration after a change, led to from the one before it: a spare one beside the one that
/// is now. None where there is no memory for the way.
pub fn spare_ahead<A: Allocator + Copy>(
    alloc: A,
    before: Config<A>,
    now: &Config<A>,
    change: &RowDifference<A>,
) -> Option<Config<A>>
    ensures { IsSoundAlone before → IsSoundAlone now.now → IsDifference before now.now change.now.taken.items change.now.added.items → IfSome result (λ s. s ≡ now.now) }
{
    let _now = now;
    led(
        alloc,
        before,
        change.taken.as_slice(),
        change.added.as_slice(),
    )
}
