//! The row that a line shows, for lines of each table.
ghost use Rattle.std.specs.Prelude.{MatchOption};
ghost use Rattle.fab_store_columns.specs.GroupLines.{ShowsGroup, ShowsPart};
ghost use Rattle.fab_store_columns.specs.InventoryLines.{ShowsPort, ShowsAddress, ShowsHolder, ShowsVolume};
ghost use Rattle.fab_store_columns.specs.MetaLines.{ShowsMeta};
ghost use Rattle.fab_store_columns.specs.RecordLines.{ShowsApproval, ShowsPath};
ghost use Rattle.fab_store_columns.specs.ZoningLines.{ShowsZoning, ShowsActive};
ghost use Rattle.fab_store_rows.specs.declared.config_row.ConfigRow.TheVariants as config;
ghost use Rattle.fab_store_tables.specs.Reading.{IsShownAs};
ghost use Rattle.fab_store_tables.specs.UndoLines.{ShowsUndo};

use crate::UndoLine;
use fab_store_columns::{
    ActiveLine, AddressLine, ApprovalLine, GroupLine, HolderLine, MetaLine, MetaRow, PartLine,
    PathLine, PortLine, VolumeLine, ZoningLine,
};
use fab_store_rows::{
    AddressRow, ApprovalRow, ConfigRow, HolderRow, PathRow, PortEntry, UndoRow, VolumeRow,
};
use std::alloc::Global;

/// A line of some table, which shows a row.
pub trait Line<R> {
    // the line shows the row
    ghost shows: { Self → R → Type 0 };

    /// The row that the line shows, if it shows one. It takes no memory.
    fn row(&self) -> Option<R>
        ensures { MatchOption result ((r : R) → ¬ shows self.now r) (shows self.now) };
}

impl Line<MetaRow> for MetaLine<Global> {
    ghost shows = { ShowsMeta };

    fn row(&self) -> Option<MetaRow> {
        self.read()
    }
}

impl Line<PortEntry> for PortLine<Global> {
    ghost shows = { ShowsPort };

    fn row(&self) -> Option<PortEntry> {
        self.read()
    }
}

impl Line<AddressRow> for AddressLine<Global> {
    ghost shows = { ShowsAddress };

    fn row(&self) -> Option<AddressRow> {
        self.read()
    }
}

impl Line<HolderRow> for HolderLine<Global> {
    ghost shows = { ShowsHolder };

    fn row(&self) -> Option<HolderRow> {
        self.read()
    }
}

impl Line<VolumeRow> for VolumeLine<Global> {
    ghost shows = { ShowsVolume };

    fn row(&self) -> Option<VolumeRow> {
        self.read()
    }
}

impl Line<ConfigRow> for ZoningLine<Global> {
    ghost shows = { IsShownAs ShowsZoning config.Zoning };

    fn row(&self) -> Option<ConfigRow> {
        match self.read() {
            Some(row) => Some(ConfigRow::Zoning(row)),
            None => None,
        }
    }
}

impl Line<ConfigRow> for ActiveLine<Global> {
    ghost shows = { IsShownAs ShowsActive config.Active };

    fn row(&self) -> Option<ConfigRow> {
        match self.read() {
            Some(row) => Some(ConfigRow::Active(row)),
            None => None,
        }
    }
}

impl Line<ConfigRow> for GroupLine<Global> {
    ghost shows = { IsShownAs ShowsGroup config.Group };

    fn row(&self) -> Option<ConfigRow> {
        match self.read() {
            Some(row) => Some(ConfigRow::Group(row)),
            None => None,
        }
    }
}

impl Line<ConfigRow> for PartLine<Global> {
    ghost shows = { IsShownAs ShowsPart config.Part };

    fn row(&self) -> Option<ConfigRow> {
        match self.read() {
            Some(row) => Some(ConfigRow::Part(row)),
            None => None,
        }
    }
}

impl Line<ApprovalRow> for ApprovalLine<Global> {
    ghost shows = { ShowsApproval };

    fn row(&self) -> Option<ApprovalRow> {
        self.read()
    }
}

impl Line<UndoRow> for UndoLine<Global> {
    ghost shows = { ShowsUndo };

    fn row(&self) -> Option<UndoRow> {
        self.read()
    }
}

impl Line<PathRow> for PathLine<Global> {
    ghost shows = { ShowsPath };

    fn row(&self) -> Option<PathRow> {
        self.read()
    }
}
