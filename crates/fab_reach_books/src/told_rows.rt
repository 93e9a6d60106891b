//! Rows that paths follow from, of differences that are told already.
ghost use Rattle.std.specs.Prelude.{◌≡◌, ◌↔◌, Contains, IfOk, OnOk};
ghost use Rattle.fab_reach_base.specs.Adding.{Adds};
ghost use Rattle.fab_reach_base.specs.Records.{Records};
ghost use Rattle.fab_reach_books.specs.Inner.Telling.{AreIn};
ghost use Rattle.fab_reach_books.specs.Rows.{IsRowDiff};
ghost use Rattle.fab_reach_books.specs.Stocks.{AreKnownOnlyIn, IsHolderOf, IsPortOf, IsStockRow};
ghost use Rattle.fab_store_rows.specs.Differences.{IsDifference};

use crate::differing::add_kept;
use crate::row::{Row, RowDiff};
use fab_inventory::Port;
use fab_store_rows::{ConfigRow, HolderRow, RowDifference};
use std::alloc::{AllocError, Allocator};

/// Those of the rows that paths follow from.
fn kept<A: Allocator + Copy>(alloc: A, rows: &[ConfigRow]) -> Result<Vec<Row, A>, AllocError>
    ensures { IfOk result (λ kept. (r : _) → Contains kept.items r ↔ AreIn rows.now r) }
{
    let mut kept = Vec::new(alloc);
    add_kept(&mut kept, rows)?;
    Ok(kept)
}

/// The rows in which two worlds of one inventory differ, of the rows in which their configurations
/// do: those that paths follow from. It walks through the rows of the change.
///
/// # Errors
/// `AllocError` where there is no memory.
pub fn config_diff<A: Allocator + Copy>(
    alloc: A,
    change: &RowDifference<A>,
) -> Result<RowDiff<A>, AllocError>
    ensures { (w v : Records) → w.inventory ≡ v.inventory → IsDifference w.config v.config change.now.taken.items change.now.added.items → IfOk result (λ diff. IsRowDiff w v diff.gone.items diff.come.items) }
{
    let gone = kept(alloc, change.taken.as_slice())?;
    let come = kept(alloc, change.added.as_slice())?;
    Ok(RowDiff { gone, come })
}

/// Puts the rows of the ports at the end.
fn add_ports<A: Allocator + Copy>(rows: &mut Vec<Row, A>, ports: &[Port]) -> Result<(), AllocError>
    ensures { OnOk result (Adds (IsPortOf ports.now) (Contains rows.old.items) (Contains rows.new.items)) }
{
    for port in ports {
        rows.push(Row::Port(*port))?;
    }
    Ok(())
}

/// Puts the rows of the holders at the end.
fn add_holders<A: Allocator + Copy>(
    rows: &mut Vec<Row, A>,
    holders: &[HolderRow],
) -> Result<(), AllocError>
    ensures { OnOk result (Adds (IsHolderOf holders.now) (Contains rows.old.items) (Contains rows.new.items)) }
{
    for holder in holders {
        rows.push(Row::Holder(*holder))?;
    }
    Ok(())
}

/// Ports and holders that stand in one inventory, and not in another.
#[derive(Clone, Copy)]
pub struct StockRows<'a> {
    /// What is known of the ports.
    pub ports: &'a [Port],
    /// The hosts and arrays.
    pub holders: &'a [HolderRow],
}

/// The rows of ports and holders.
fn stock_rows<A: Allocator + Copy>(
    alloc: A,
    stock: &StockRows<'_>,
) -> Result<Vec<Row, A>, AllocError>
    ensures { IfOk result (λ rows. (r : _) → Contains rows.items r ↔ IsStockRow stock.now.ports.now stock.now.holders.now r) }
{
    let mut rows = Vec::new(alloc);
    add_ports(&mut rows, stock.ports)?;
    add_holders(&mut rows, stock.holders)?;
    Ok(rows)
}

/// The rows in which two worlds of one configuration differ, of the ports and holders that stand in
/// the first inventory alone, and of those that stand in the second alone. It walks through these.
///
/// # Errors
/// `AllocError` where there is no memory.
pub fn stock_diff<A: Allocator + Copy>(
    alloc: A,
    gone: &StockRows<'_>,
    come: &StockRows<'_>,
) -> Result<RowDiff<A>, AllocError>
    ensures { (w v : Records) → w.config ≡ v.config → AreKnownOnlyIn w.inventory v.inventory gone.now.ports.now gone.now.holders.now → AreKnownOnlyIn v.inventory w.inventory come.now.ports.now come.now.holders.now
        → IfOk result (λ diff. IsRowDiff w v diff.gone.items diff.come.items) }
{
    let gone = stock_rows(alloc, gone)?;
    let come = stock_rows(alloc, come)?;
    Ok(RowDiff { gone, come })
}
