//! A line shows one row at most, and a row is shown by one line: each is the contract of a function
//! that does nothing.
ghost use Rattle.std.specs.Prelude.{◌≡◌};
ghost use Rattle.fab_store_rows.specs.declared.inventory_row.PortEntry.{PortEntry};
ghost use Rattle.fab_store_rows.specs.declared.inventory_row.AddressRow.{AddressRow};
ghost use Rattle.fab_store_rows.specs.declared.inventory_row.HolderRow.{HolderRow};
ghost use Rattle.fab_store_rows.specs.declared.inventory_row.VolumeRow.{VolumeRow};
ghost use Rattle.fab_store_rows.specs.declared.config_row.ZoningRow.{ZoningRow};
ghost use Rattle.fab_store_rows.specs.declared.config_row.ActiveRow.{ActiveRow};
ghost use Rattle.fab_store_rows.specs.declared.config_row.GroupRow.{GroupRow};
ghost use Rattle.fab_store_rows.specs.declared.config_row.PartRow.{PartRow};
ghost use Rattle.fab_store_columns.specs.declared.meta_lines.MetaRow.{MetaRow};
ghost use Rattle.fab_store_rows.specs.declared.record_row.ApprovalRow.{ApprovalRow};
ghost use Rattle.fab_store_rows.specs.declared.record_row.PathRow.{PathRow};
ghost use Rattle.fab_store_columns.specs.MetaLines.{MetaColumns, ShowsMeta};
ghost use Rattle.fab_store_columns.specs.ZoningLines.{ZoningColumns, ShowsZoning, ActiveColumns, ShowsActive};
ghost use Rattle.fab_store_columns.specs.GroupLines.{GroupColumns, ShowsGroup, PartColumns, ShowsPart};
ghost use Rattle.fab_store_columns.specs.RecordLines.{ApprovalColumns, ShowsApproval, PathColumns, ShowsPath};
ghost use Rattle.fab_store_rows.specs.PlanEntries.{PlanEntry};
ghost use Rattle.fab_store_columns.specs.PlanLines.{PlanColumns, ShowsPlan};
ghost use Rattle.fab_store_columns.specs.InventoryLines.{PortColumns, ShowsPort, AddressColumns, ShowsAddress, HolderColumns, ShowsHolder, VolumeColumns, ShowsVolume};

/// Lines of `ports`.
pub fn ports()
    ensures row { (l : PortColumns) (p q : PortEntry) → ShowsPort l p → ShowsPort l q → p ≡ q }
    ensures line { (l m : PortColumns) (p : PortEntry) → ShowsPort l p → ShowsPort m p → l ≡ m }
{}

/// Lines of `addresses`.
pub fn addresses()
    ensures row { (l : AddressColumns) (p q : AddressRow) → ShowsAddress l p → ShowsAddress l q → p ≡ q }
    ensures line { (l m : AddressColumns) (r : AddressRow) → ShowsAddress l r → ShowsAddress m r → l ≡ m }
{}

/// Lines of `holders`.
pub fn holders()
    ensures row { (l : HolderColumns) (p q : HolderRow) → ShowsHolder l p → ShowsHolder l q → p ≡ q }
    ensures line { (l m : HolderColumns) (r : HolderRow) → ShowsHolder l r → ShowsHolder m r → l ≡ m }
{}

/// Lines of `volumes`.
pub fn volumes()
    ensures row { (l : VolumeColumns) (p q : VolumeRow) → ShowsVolume l p → ShowsVolume l q → p ≡ q }
    ensures line { (l m : VolumeColumns) (r : VolumeRow) → ShowsVolume l r → ShowsVolume m r → l ≡ m }
{}

/// Lines of `meta`.
pub fn settings()
    ensures row { (l : MetaColumns) (p q : MetaRow) → ShowsMeta l p → ShowsMeta l q → p ≡ q }
    ensures line { (l m : MetaColumns) (r : MetaRow) → ShowsMeta l r → ShowsMeta m r → l ≡ m }
{}

/// Lines of `zoning`.
pub fn zoning()
    ensures row { (l : ZoningColumns) (p q : ZoningRow) → ShowsZoning l p → ShowsZoning l q → p ≡ q }
    ensures line { (l m : ZoningColumns) (r : ZoningRow) → ShowsZoning l r → ShowsZoning m r → l ≡ m }
{}

/// Lines of `active`.
pub fn active()
    ensures row { (l : ActiveColumns) (p q : ActiveRow) → ShowsActive l p → ShowsActive l q → p ≡ q }
    ensures line { (l m : ActiveColumns) (r : ActiveRow) → ShowsActive l r → ShowsActive m r → l ≡ m }
{}

/// Lines of `groups`.
pub fn groups()
    ensures row { (l : GroupColumns) (p q : GroupRow) → ShowsGroup l p → ShowsGroup l q → p ≡ q }
    ensures line { (l m : GroupColumns) (r : GroupRow) → ShowsGroup l r → ShowsGroup m r → l ≡ m }
{}

/// Lines of `group_parts`.
pub fn parts()
    ensures row { (l : PartColumns) (p q : PartRow) → ShowsPart l p → ShowsPart l q → p ≡ q }
    ensures line { (l m : PartColumns) (r : PartRow) → ShowsPart l r → ShowsPart m r → l ≡ m }
{}

/// Lines of `plans`.
pub fn plans()
    ensures row { (l : PlanColumns) (p q : PlanEntry) → ShowsPlan l p → ShowsPlan l q → p ≡ q }
    ensures line { (l m : PlanColumns) (r : PlanEntry) → ShowsPlan l r → ShowsPlan m r → l ≡ m }
{}

/// Lines of `approvals`.
pub fn approvals()
    ensures row { (l : ApprovalColumns) (p q : ApprovalRow) → ShowsApproval l p → ShowsApproval l q → p ≡ q }
    ensures line { (l m : ApprovalColumns) (r : ApprovalRow) → ShowsApproval l r → ShowsApproval m r → l ≡ m }
{}

/// Lines of `paths`.
pub fn paths()
    ensures row { (l : PathColumns) (p q : PathRow) → ShowsPath l p → ShowsPath l q → p ≡ q }
    ensures line { (l m : PathColumns) (r : PathRow) → ShowsPath l r → ShowsPath m r → l ≡ m }
{}
