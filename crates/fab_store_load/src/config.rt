//! A configuration from its rows.
ghost use Rattle.std.specs.Prelude.{IfOk, IfErr};
ghost use Rattle.fab_reach_base.specs.Records.{ConfigRows};
ghost use Rattle.fab_reach_base.specs.Soundness.{IsSoundAlone};
ghost use Rattle.fab_store_load.specs.Faults.{OfTable};
ghost use Rattle.fab_store_load.specs.Configs.{AreConfigRows, ConfigPartIsSound};

use crate::LoadFault;
use crate::mappings::mapping_of;
use crate::zonings::{Zonings, zonings_of};
use fab_reach_base::Config;
use fab_store_rows::ConfigRow;
use std::alloc::Allocator;

/// The configuration that has exactly these rows, and is sound of itself: whether it fits an
/// inventory `Mapping::fits` tells. Equal rows count once. The work grows with the rows.
///
/// # Errors
/// `Damaged` where no sound configuration has just these rows, with the first table that has a
/// fault: `Meta` where a fabric's setting is missing or there are two; `Zoning` where aliases, zones
/// or zone sets of a fabric are not sound; `Active` where its active rows are not; `Groups` where two
/// rows of one group differ, or there are too many; `GroupParts` where a part is of no group, a group
/// lacks a part or names a host group that is not there, a limit is passed, or a unit clash stands.
/// `Memory` where there is none.
pub fn config_of<A: Allocator + Copy>(alloc: A, rows: &[ConfigRow]) -> Result<Config<A>, LoadFault>
    ensures rows { IfOk result (AreConfigRows rows.now) }
    ensures sound { IfOk result IsSoundAlone }
    ensures damaged { IfErr result (OfTable (λ table. (c : ConfigRows) → AreConfigRows rows.now c → ¬ ConfigPartIsSound table c)) }
    ensures exact { IfErr result (OfTable (λ table. (c : ConfigRows) → AreConfigRows rows.now c → ¬ IsSoundAlone c)) }
{
    let zonings = match zonings_of(alloc, rows) {
        Ok(zonings) => zonings,
        Err(fault) => return Err(fault),
    };
    let mapping = match mapping_of(alloc, rows) {
        Ok(mapping) => mapping,
        Err(fault) => return Err(fault),
    };
    let Zonings { a, b } = zonings;
    Ok(Config { a, b, mapping })
}
