//! Lines of the tables of approvals and of paths.
ghost use Rattle.std.specs.Prelude.{◌≤◌, MatchOption, IfOk, string_bytes};
ghost use Rattle.fab_names.specs.WorldWideNames.{SpellsPlain};
ghost use Rattle.fab_store_columns.specs.RecordLines.{ShowsApproval, ShowsPath};
ghost use Rattle.fab_store_rows.specs.declared.record_row.ApprovalRow.{ApprovalRow};
ghost use Rattle.fab_store_rows.specs.declared.record_row.PathRow.{PathRow};
ghost use Rattle.fab_store_columns_base.specs.Limits.{most_number};
ghost use Rattle.fab_mapping_base.specs.Limits.{last_unit};

use fab_mapping::LAST_UNIT;
use fab_names::Wwn;
use fab_reach_base::Path;
use fab_store_columns_base::{
    MOST_NUMBER, name_text, plain_text, read_count, read_fabric, read_name,
};
use fab_store_rows::{ApprovalRow, PathRow};
use std::alloc::{AllocError, Allocator};
use std::marker::Model;

/// A line of `approvals`. A contract sees its columns.
#[derive(Drop)]
pub struct ApprovalLine<A: Allocator + Copy> {
    pub plan: String<A>,
    pub caller: String<A>,
    pub revision: i64,
}

impl<A: Allocator + Copy> Model for ApprovalLine<A> {
    ghost use Rattle.std.specs.Prelude.{string_bytes};
    ghost use Rattle.fab_store_columns.specs.RecordLines.{ApprovalColumns};

    ghost Value = { ApprovalColumns };

    ghost view = { λ l. record { plan = string_bytes l.plan; caller = string_bytes l.caller; revision = l.revision } };
}

/// A line of `paths`. A contract sees its columns.
#[derive(Drop)]
pub struct PathLine<A: Allocator + Copy> {
    pub host: String<A>,
    /// `A` or `B`.
    pub fabric: String<A>,
    /// The sixteen digits of the host's port.
    pub initiator: String<A>,
    /// The sixteen digits of the array's port.
    pub target: String<A>,
    pub volume: String<A>,
    /// 0 to 16383.
    pub lun: i64,
}

impl<A: Allocator + Copy> Model for PathLine<A> {
    ghost use Rattle.std.specs.Prelude.{string_bytes};
    ghost use Rattle.fab_store_columns.specs.RecordLines.{PathColumns};

    ghost Value = { PathColumns };

    ghost view = { λ l. record {
      host = string_bytes l.host;
      fabric = string_bytes l.fabric;
      initiator = string_bytes l.initiator;
      target = string_bytes l.target;
      volume = string_bytes l.volume;
      lun = l.lun;
    } };
}

impl<A: Allocator + Copy> ApprovalLine<A> {
    /// The row that the line shows, if it shows one. It takes no memory.
    pub fn read(&self) -> Option<ApprovalRow>
        ensures { MatchOption result ((r : ApprovalRow) → ¬ ShowsApproval self.now r) (ShowsApproval self.now) }
    {
        let plan = read_name(self.plan.as_str())?;
        let caller = read_name(self.caller.as_str())?;
        let Some(revision) = read_count(&self.revision, 0, MOST_NUMBER) else {
            return None;
        };
        Some(ApprovalRow {
            plan,
            caller,
            revision,
        })
    }

    /// The line that shows the row, whose revision is one that a database keeps.
    ///
    /// # Errors
    /// `AllocError` where there is no memory.
    pub fn print(alloc: A, row: &ApprovalRow) -> Result<Self, AllocError>
        requires { row.now.revision ≤ most_number }
        ensures { IfOk result (λ line. ShowsApproval line row.now) }
    {
        Ok(ApprovalLine {
            plan: name_text(alloc, &row.plan)?,
            caller: name_text(alloc, &row.caller)?,
            revision: row.revision as i64,
        })
    }
}

/// The digits of the initiator and of the target of a path.
fn port_texts<A: Allocator + Copy>(
    alloc: A,
    path: &Path,
) -> Result<(String<A>, String<A>), AllocError>
    ensures { IfOk result (λ texts. SpellsPlain (string_bytes texts.0) path.now.initiator × SpellsPlain (string_bytes texts.1) path.now.target) }
{
    let initiator = plain_text(alloc, path.initiator)?;
    let target = plain_text(alloc, path.target)?;
    Ok((initiator, target))
}

impl<A: Allocator + Copy> PathLine<A> {
    /// The row that the line shows, if it shows one. It takes no memory.
    pub fn read(&self) -> Option<PathRow>
        ensures { MatchOption result ((r : PathRow) → ¬ ShowsPath self.now r) (ShowsPath self.now) }
    {
        let host = read_name(self.host.as_str())?;
        let fabric = read_fabric(self.fabric.as_str())?;
        let initiator = Wwn::read_plain(self.initiator.as_str())?;
        let target = Wwn::read_plain(self.target.as_str())?;
        let Some(volume) = read_name(self.volume.as_str()) else {
            return None;
        };
        let Some(unit) = read_count(&self.lun, 0, LAST_UNIT as u64) else {
            return None;
        };
        let path = Path {
            fabric,
            initiator,
            target,
            volume,
            unit: unit as u16,
        };
        Some(PathRow { host, path })
    }

    /// The line that shows the row, whose unit is at most 16383.
    ///
    /// # Errors
    /// `AllocError` where there is no memory.
    pub fn print(alloc: A, row: &PathRow) -> Result<Self, AllocError>
        requires { row.now.path.unit ≤ last_unit }
        ensures { IfOk result (λ line. ShowsPath line row.now) }
    {
        let ports = port_texts(alloc, &row.path)?;
        Ok(PathLine {
            host: name_text(alloc, &row.host)?,
            fabric: row.path.fabric.print(alloc)?,
            initiator: ports.0,
            target: ports.1,
            volume: name_text(alloc, &row.path.volume)?,
            lun: row.path.unit as i64,
        })
    }
}
