//! All rows of a configuration, and the differences of two.
ghost use Rattle.std.specs.Prelude.{IfOk};
ghost use Rattle.std.specs.Option.{option_copied};
ghost use Rattle.fab_reach_base.specs.fab_lemmas.Lists.{IsListOf};
ghost use Rattle.fab_store_rows.specs.RowOrder.{row_order};
ghost use Rattle.fab_store_rows.specs.Standing.{Stands};
ghost use Rattle.fab_store_rows.specs.Gathering.{Lacking};
ghost use Rattle.fab_store_rows.specs.Differences.{IsDifference};

use crate::ConfigRow;
use crate::gathering::add_all;
use fab_reach_base::Config;
use fab_reach_base::lemmas::keys_listed;
use std::alloc::{AllocError, Allocator};
use std::collections::BTreeSet;

/// What leads from one configuration to another, as rows: those that are taken away, and those that
/// are added. Each list is in the order of rows.
#[derive(Drop)]
pub struct RowDifference<A: Allocator> {
    /// The rows that are taken away.
    pub taken: Vec<ConfigRow, A>,
    /// The rows that are added.
    pub added: Vec<ConfigRow, A>,
}

/// The rows of a configuration, but for those that stand in another that is given.
fn rows_without<'a, A: Allocator + Copy>(
    alloc: A,
    without: Option<&'a Config<A>>,
    config: &'a Config<A>,
) -> Result<Vec<ConfigRow, A>, AllocError>
    ensures { IfOk result (λ rows. IsListOf row_order (Lacking (option_copied without.entry) (Stands config.now)) rows.items) }
{
    let mut rows = BTreeSet::new(alloc);
    add_all(&mut rows, without, config)?;
    let _count = rows.len();
    let items = keys_listed(alloc, &rows)?;
    Ok(items)
}

/// All rows of a configuration, each once, in their order.
///
/// # Errors
/// `AllocError` where there is no memory.
pub fn config_rows<A: Allocator + Copy>(
    alloc: A,
    config: &Config<A>,
) -> Result<Vec<ConfigRow, A>, AllocError>
    ensures { IfOk result (λ rows. IsListOf row_order (Stands config.now) rows.items) }
{
    let items = rows_without(alloc, None, config)?;
    Ok(items)
}

/// The difference of two configurations: the rows of the first that do not stand in the second, and
/// those of the second that do not stand in the first, each once, in their order. Besides what
/// differs it takes no memory.
///
/// # Errors
/// `AllocError` where there is no memory.
pub fn difference<A: Allocator + Copy>(
    alloc: A,
    before: &Config<A>,
    after: &Config<A>,
) -> Result<RowDifference<A>, AllocError>
    ensures { IfOk result (λ change. IsDifference before.now after.now change.taken.items change.added.items) }
{
    let taken = rows_without(alloc, Some(after), before)?;
    let added = rows_without(alloc, Some(before), after)?;
    Ok(RowDifference { taken, added })
}
