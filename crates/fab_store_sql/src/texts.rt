//! The texts of the statements.
ghost use Rattle.std.specs.Prelude.{◌≡◌};
ghost use Rattle.fab_store_sql.specs.Statements as spec;

use fab_store_tables::Table;

/// The text that adds a row.
pub fn insert_text(table: Table) -> &'static str
    ensures { result.now ≡ spec.insert_text table }
{
    match table {
        Table::Meta => "INSERT INTO meta VALUES (?1, ?2)",
        Table::Ports => "INSERT INTO ports VALUES (?1, ?2, ?3, ?4, ?5, ?6)",
        Table::Holders => "INSERT INTO holders VALUES (?1, ?2, ?3)",
        Table::Volumes => "INSERT INTO volumes VALUES (?1, ?2, ?3, ?4)",
        Table::Zoning => "INSERT INTO zoning VALUES (?1, ?2, ?3, ?4)",
        Table::Active => "INSERT INTO active VALUES (?1, ?2, ?3)",
        Table::Groups => "INSERT INTO groups VALUES (?1, ?2, ?3, ?4, ?5)",
        Table::GroupParts => "INSERT INTO group_parts VALUES (?1, ?2, ?3, ?4, ?5)",
        Table::Plans => "INSERT INTO plans VALUES (?1, ?2, ?3, ?4, ?5)",
        Table::Approvals => "INSERT INTO approvals VALUES (?1, ?2, ?3)",
        Table::Undo => "INSERT INTO undo VALUES (?1, ?2, ?3)",
        Table::Paths => "INSERT INTO paths VALUES (?1, ?2, ?3, ?4, ?5, ?6)",
        Table::Addresses => "INSERT INTO addresses VALUES (?1, ?2)",
    }
}

/// The text that removes the rows with a key.
pub fn delete_text(table: Table) -> &'static str
    ensures { result.now ≡ spec.delete_text table }
{
    match table {
        Table::Meta => "DELETE FROM meta WHERE key = ?1",
        Table::Ports => "DELETE FROM ports WHERE wwpn = ?1",
        Table::Holders => "DELETE FROM holders WHERE name = ?1",
        Table::Volumes => "DELETE FROM volumes WHERE name = ?1",
        Table::Zoning =>
            "DELETE FROM zoning WHERE fabric = ?1 AND kind = ?2 AND name = ?3 AND item = ?4",
        Table::Active => "DELETE FROM active WHERE fabric = ?1 AND zone = ?2 AND member = ?3",
        Table::Groups => "DELETE FROM groups WHERE kind = ?1 AND name = ?2",
        Table::GroupParts =>
            "DELETE FROM group_parts WHERE kind = ?1 AND name = ?2 AND part = ?3 AND item = ?4",
        Table::Plans => "DELETE FROM plans WHERE name = ?1",
        Table::Approvals => "DELETE FROM approvals WHERE plan = ?1 AND caller = ?2",
        Table::Undo => "DELETE FROM undo WHERE plan = ?1 AND sign = ?2 AND entry = ?3",
        Table::Paths =>
            "DELETE FROM paths WHERE host = ?1 AND fabric = ?2 AND initiator = ?3 AND target = ?4 AND volume = ?5 AND lun = ?6",
        Table::Addresses => "DELETE FROM addresses WHERE wwpn = ?1",
    }
}

/// The text that shows all rows, each behind its rowid.
pub fn select_text(table: Table) -> &'static str
    ensures { result.now ≡ spec.select_text table }
{
    match table {
        Table::Meta => "SELECT rowid, key, value FROM meta ORDER BY rowid",
        Table::Ports =>
            "SELECT rowid, wwpn, wwnn, fabric, domain, slot, holder FROM ports ORDER BY rowid",
        Table::Holders => "SELECT rowid, name, kind, tenant FROM holders ORDER BY rowid",
        Table::Volumes => "SELECT rowid, name, array, tenant, bytes FROM volumes ORDER BY rowid",
        Table::Zoning => "SELECT rowid, fabric, kind, name, item FROM zoning ORDER BY rowid",
        Table::Active => "SELECT rowid, fabric, zone, member FROM active ORDER BY rowid",
        Table::Groups =>
            "SELECT rowid, kind, name, tenant, array, exposed FROM groups ORDER BY rowid",
        Table::GroupParts =>
            "SELECT rowid, kind, name, part, item, volume FROM group_parts ORDER BY rowid",
        Table::Plans =>
            "SELECT rowid, name, author, text, state, position FROM plans ORDER BY rowid",
        Table::Approvals => "SELECT rowid, plan, caller, revision FROM approvals ORDER BY rowid",
        Table::Undo => "SELECT rowid, plan, sign, entry FROM undo ORDER BY rowid",
        Table::Paths =>
            "SELECT rowid, host, fabric, initiator, target, volume, lun FROM paths ORDER BY rowid",
        Table::Addresses => "SELECT rowid, wwpn, address FROM addresses ORDER BY rowid",
    }
}

/// The text that shows the rows of the paths of a host, in their order, each behind its rowid.
pub fn paths_text() -> &'static str
    ensures { result.now ≡ spec.paths_text }
{
    "SELECT rowid, host, fabric, initiator, target, volume, lun FROM paths WHERE host = ?1 ORDER BY host, fabric, initiator, target, volume, lun"
}

/// The text that makes the table.
pub fn create_text(table: Table) -> &'static str
    ensures { result.now ≡ spec.create_text table }
{
    match table {
        Table::Meta =>
            "CREATE TABLE meta (key TEXT NOT NULL, value TEXT NOT NULL, PRIMARY KEY (key)) STRICT",
        Table::Ports =>
            "CREATE TABLE ports (wwpn TEXT NOT NULL, wwnn TEXT NOT NULL, fabric TEXT, domain INTEGER, slot INTEGER, holder TEXT, PRIMARY KEY (wwpn)) STRICT",
        Table::Holders =>
            "CREATE TABLE holders (name TEXT NOT NULL, kind TEXT NOT NULL, tenant TEXT NOT NULL, PRIMARY KEY (name)) STRICT",
        Table::Volumes =>
            "CREATE TABLE volumes (name TEXT NOT NULL, array TEXT NOT NULL, tenant TEXT NOT NULL, bytes INTEGER NOT NULL, PRIMARY KEY (name)) STRICT",
        Table::Zoning =>
            "CREATE TABLE zoning (fabric TEXT NOT NULL, kind TEXT NOT NULL, name TEXT NOT NULL, item TEXT NOT NULL, PRIMARY KEY (fabric, kind, name, item)) STRICT",
        Table::Active =>
            "CREATE TABLE active (fabric TEXT NOT NULL, zone TEXT NOT NULL, member TEXT NOT NULL, PRIMARY KEY (fabric, zone, member)) STRICT",
        Table::Groups =>
            "CREATE TABLE groups (kind TEXT NOT NULL, name TEXT NOT NULL, tenant TEXT NOT NULL, array TEXT NOT NULL, exposed INTEGER NOT NULL, PRIMARY KEY (kind, name)) STRICT",
        Table::GroupParts =>
            "CREATE TABLE group_parts (kind TEXT NOT NULL, name TEXT NOT NULL, part TEXT NOT NULL, item TEXT NOT NULL, volume TEXT NOT NULL, PRIMARY KEY (kind, name, part, item)) STRICT",
        Table::Plans =>
            "CREATE TABLE plans (name TEXT NOT NULL, author TEXT NOT NULL, text TEXT NOT NULL, state TEXT NOT NULL, position INTEGER NOT NULL, PRIMARY KEY (name)) STRICT",
        Table::Approvals =>
            "CREATE TABLE approvals (plan TEXT NOT NULL, caller TEXT NOT NULL, revision INTEGER NOT NULL, PRIMARY KEY (plan, caller)) STRICT",
        Table::Undo =>
            "CREATE TABLE undo (plan TEXT NOT NULL, sign TEXT NOT NULL, entry TEXT NOT NULL, PRIMARY KEY (plan, sign, entry)) STRICT",
        Table::Paths =>
            "CREATE TABLE paths (host TEXT NOT NULL, fabric TEXT NOT NULL, initiator TEXT NOT NULL, target TEXT NOT NULL, volume TEXT NOT NULL, lun INTEGER NOT NULL, PRIMARY KEY (host, fabric, initiator, target, volume, lun)) STRICT",
        Table::Addresses =>
            "CREATE TABLE addresses (wwpn TEXT NOT NULL, address TEXT NOT NULL, PRIMARY KEY (wwpn)) STRICT",
    }
}
