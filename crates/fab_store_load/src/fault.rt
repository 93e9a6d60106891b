//! Why nothing is made of rows, and why no tables are opened.
ghost use Rattle.std.specs.Prelude.{◌≡◌};
ghost use Rattle.fab_store_load.specs.TableNames.{table_name};
ghost use Rattle.fab_store_load.specs.declared.fault.LoadFault.TheVariants.{Memory};

use std::alloc::AllocError;

/// A table of the records.
#[derive(Clone, Copy, Debug, PartialEq, Eq, Drop)]
pub enum Table {
    /// The schema, the revision, and the settings of both fabrics.
    Meta,
    /// The ports, without their addresses.
    Ports,
    /// The addresses of ports.
    Addresses,
    /// The hosts and arrays.
    Holders,
    /// The volumes.
    Volumes,
    /// The items of aliases, zones and zone sets.
    Zoning,
    /// The rows of active zone sets.
    Active,
    /// The host groups and storage groups.
    Groups,
    /// The parts of groups.
    GroupParts,
    /// The plans.
    Plans,
    /// The approvals of plans.
    Approvals,
    /// What active plans took away and added.
    Undo,
    /// The paths.
    Paths,
}

impl Table {
    /// The name of the table.
    pub fn name(self) -> &'static str
        ensures { result.now ≡ table_name self }
    {
        match self {
            Table::Meta => "meta",
            Table::Ports => "ports",
            Table::Addresses => "addresses",
            Table::Holders => "holders",
            Table::Volumes => "volumes",
            Table::Zoning => "zoning",
            Table::Active => "active",
            Table::Groups => "groups",
            Table::GroupParts => "group_parts",
            Table::Plans => "plans",
            Table::Approvals => "approvals",
            Table::Undo => "undo",
            Table::Paths => "paths",
        }
    }
}

/// Why nothing is made of rows.
#[derive(Clone, Copy, Debug, Drop)]
pub enum LoadFault {
    /// Nothing sound has just these rows; this table has a fault.
    Damaged(Table),
    /// There was no memory.
    Memory,
}

impl From<AllocError> for LoadFault {
    ghost from_gives = { λ _ e. e ≡ Memory };

    fn from(_error: AllocError) -> LoadFault {
        LoadFault::Memory
    }
}

/// Why nothing is opened.
#[derive(Clone, Copy, Debug, Drop)]
pub enum OpenFault {
    /// The rows are not those of a sound world: this is the first table that has a fault.
    Damaged(Table),
    /// The tables are of this schema, which is newer than the present one.
    NewerSchema(u64),
    /// The tables are of this schema, which is older than the present one.
    OldSchema(u64),
    /// A call of the store was refused, and counted.
    Store,
    /// There was no memory.
    Memory,
}
