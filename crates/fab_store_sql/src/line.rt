//! How lines are read from rows that a query showed.
ghost use Rattle.std.specs.Prelude.{◌≡◌, IfOk};
ghost use Rattle.sqlite.specs.Order.{Row as Cells};
ghost use Rattle.fab_store_load.specs.declared.fault.Table.TheVariants as table;
ghost use Rattle.fab_store_load.specs.declared.fault.Table.{Table as AnyTable};
ghost use Rattle.fab_store_tables.specs.Columns as column;
ghost use Rattle.fab_store_sql.specs.Trees.{show_of};

use fab_store_columns::{
    ActiveLine, AddressLine, ApprovalLine, GroupLine, HolderLine, MetaLine, PartLine, PathLine,
    PlanLine, PortLine, VolumeLine, ZoningLine,
};
use fab_store_tables::{Table, UndoLine};
use sqlite::{Error, Row};
use std::alloc::Global;

/// A line of one table.
pub trait Line: Sized + Drop {
    // Its table.
    ghost place: { AnyTable };

    // Its row, by the columns of its table.
    ghost row: { Self → Cells };

    /// The table.
    fn table() -> Table
        ensures { result ≡ place };

    /// The line of a row that is shown behind its rowid.
    ///
    /// # Errors
    /// Where a column is not of the line's type, or there is no memory.
    fn read(shown: &Row) -> Result<Self, Error>
        ensures { IfOk result (λ line. show_of place shown.now ≡ row line) };
}

impl Line for MetaLine<Global> {
    ghost place = { table.Meta };

    ghost row = { column.meta_row };

    fn table() -> Table {
        Table::Meta
    }

    fn read(shown: &Row) -> Result<Self, Error> {
        Ok(MetaLine {
            key: shown.get(1)?,
            value: shown.get(2)?,
        })
    }
}

impl Line for PortLine<Global> {
    ghost place = { table.Ports };

    ghost row = { column.port_row };

    fn table() -> Table {
        Table::Ports
    }

    fn read(shown: &Row) -> Result<Self, Error> {
        Ok(PortLine {
            wwpn: shown.get(1)?,
            wwnn: shown.get(2)?,
            fabric: shown.get(3)?,
            domain: shown.get(4)?,
            slot: shown.get(5)?,
            holder: shown.get(6)?,
        })
    }
}

impl Line for AddressLine<Global> {
    ghost place = { table.Addresses };

    ghost row = { column.address_row };

    fn table() -> Table {
        Table::Addresses
    }

    fn read(shown: &Row) -> Result<Self, Error> {
        Ok(AddressLine {
            wwpn: shown.get(1)?,
            address: shown.get(2)?,
        })
    }
}

impl Line for HolderLine<Global> {
    ghost place = { table.Holders };

    ghost row = { column.holder_row };

    fn table() -> Table {
        Table::Holders
    }

    fn read(shown: &Row) -> Result<Self, Error> {
        Ok(HolderLine {
            name: shown.get(1)?,
            kind: shown.get(2)?,
            tenant: shown.get(3)?,
        })
    }
}

impl Line for VolumeLine<Global> {
    ghost place = { table.Volumes };

    ghost row = { column.volume_row };

    fn table() -> Table {
        Table::Volumes
    }

    fn read(shown: &Row) -> Result<Self, Error> {
        Ok(VolumeLine {
            name: shown.get(1)?,
            array: shown.get(2)?,
            tenant: shown.get(3)?,
            bytes: shown.get(4)?,
        })
    }
}

impl Line for ZoningLine<Global> {
    ghost place = { table.Zoning };

    ghost row = { column.zoning_row };

    fn table() -> Table {
        Table::Zoning
    }

    fn read(shown: &Row) -> Result<Self, Error> {
        Ok(ZoningLine {
            fabric: shown.get(1)?,
            kind: shown.get(2)?,
            name: shown.get(3)?,
            item: shown.get(4)?,
        })
    }
}

impl Line for ActiveLine<Global> {
    ghost place = { table.Active };

    ghost row = { column.active_row };

    fn table() -> Table {
        Table::Active
    }

    fn read(shown: &Row) -> Result<Self, Error> {
        Ok(ActiveLine {
            fabric: shown.get(1)?,
            zone: shown.get(2)?,
            member: shown.get(3)?,
        })
    }
}

impl Line for GroupLine<Global> {
    ghost place = { table.Groups };

    ghost row = { column.group_row };

    fn table() -> Table {
        Table::Groups
    }

    fn read(shown: &Row) -> Result<Self, Error> {
        Ok(GroupLine {
            kind: shown.get(1)?,
            name: shown.get(2)?,
            tenant: shown.get(3)?,
            array: shown.get(4)?,
            exposed: shown.get(5)?,
        })
    }
}

impl Line for PartLine<Global> {
    ghost place = { table.GroupParts };

    ghost row = { column.part_row };

    fn table() -> Table {
        Table::GroupParts
    }

    fn read(shown: &Row) -> Result<Self, Error> {
        Ok(PartLine {
            kind: shown.get(1)?,
            name: shown.get(2)?,
            part: shown.get(3)?,
            item: shown.get(4)?,
            volume: shown.get(5)?,
        })
    }
}

impl Line for PlanLine<Global> {
    ghost place = { table.Plans };

    ghost row = { column.plan_row };

    fn table() -> Table {
        Table::Plans
    }

    fn read(shown: &Row) -> Result<Self, Error> {
        Ok(PlanLine {
            name: shown.get(1)?,
            author: shown.get(2)?,
            text: shown.get(3)?,
            state: shown.get(4)?,
            position: shown.get(5)?,
        })
    }
}

impl Line for ApprovalLine<Global> {
    ghost place = { table.Approvals };

    ghost row = { column.approval_row };

    fn table() -> Table {
        Table::Approvals
    }

    fn read(shown: &Row) -> Result<Self, Error> {
        Ok(ApprovalLine {
            plan: shown.get(1)?,
            caller: shown.get(2)?,
            revision: shown.get(3)?,
        })
    }
}

impl Line for UndoLine<Global> {
    ghost place = { table.Undo };

    ghost row = { column.undo_row };

    fn table() -> Table {
        Table::Undo
    }

    fn read(shown: &Row) -> Result<Self, Error> {
        Ok(UndoLine {
            plan: shown.get(1)?,
            sign: shown.get(2)?,
            entry: shown.get(3)?,
        })
    }
}

impl Line for PathLine<Global> {
    ghost place = { table.Paths };

    ghost row = { column.path_row };

    fn table() -> Table {
        Table::Paths
    }

    fn read(shown: &Row) -> Result<Self, Error> {
        Ok(PathLine {
            host: shown.get(1)?,
            fabric: shown.get(2)?,
            initiator: shown.get(3)?,
            target: shown.get(4)?,
            volume: shown.get(5)?,
            lun: shown.get(6)?,
        })
    }
}
