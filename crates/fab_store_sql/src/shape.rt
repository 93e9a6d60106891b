//! Whether a connection has the tables of the schema, and no others.
ghost use Rattle.std.specs.Prelude.{◌≡◌, [], ◌∷◌, false, true, None, IsTrue, map};
ghost use Rattle.std.specs.Option.{option_map};
ghost use Rattle.sqlite.specs.Held.{state};
ghost use Rattle.sqlite.specs.Kind.TheVariants.{Text};
ghost use Rattle.sqlite_value.specs.Keys.{plain};
ghost use Rattle.fab_store_load.specs.declared.fault.Table.TheVariants as table;
ghost use Rattle.fab_store_sql.specs.Schema as spec;

use fab_store_tables::Table;
use sqlite::{Alter, Connection};
use sqlite_items::Items;
use sqlite_schema::schema::{Column, Index, Kind, Table as SqlTable};
use sqlite_value::keys::{Collation, Order};
use sqlite_value::value::{Bytes, Value};

/// The tables, in the order in which they are made.
pub const ALL: [Table; 13] = [
    Table::Meta,
    Table::Ports,
    Table::Holders,
    Table::Volumes,
    Table::Zoning,
    Table::Active,
    Table::Groups,
    Table::GroupParts,
    Table::Plans,
    Table::Approvals,
    Table::Undo,
    Table::Paths,
    Table::Addresses,
];

fn tree_of(table: Table) -> u32
    ensures { result ≡ spec.tree_of table }
{
    match table {
        Table::Meta => 0,
        Table::Ports => 2,
        Table::Holders => 4,
        Table::Volumes => 6,
        Table::Zoning => 8,
        Table::Active => 10,
        Table::Groups => 12,
        Table::GroupParts => 14,
        Table::Plans => 16,
        Table::Approvals => 18,
        Table::Undo => 20,
        Table::Paths => 22,
        Table::Addresses => 24,
    }
}

fn index_name(table: Table) -> &'static str
    ensures { result.now ≡ spec.index_name table }
{
    match table {
        Table::Meta => "sqlite_autoindex_meta_1",
        Table::Ports => "sqlite_autoindex_ports_1",
        Table::Holders => "sqlite_autoindex_holders_1",
        Table::Volumes => "sqlite_autoindex_volumes_1",
        Table::Zoning => "sqlite_autoindex_zoning_1",
        Table::Active => "sqlite_autoindex_active_1",
        Table::Groups => "sqlite_autoindex_groups_1",
        Table::GroupParts => "sqlite_autoindex_group_parts_1",
        Table::Plans => "sqlite_autoindex_plans_1",
        Table::Approvals => "sqlite_autoindex_approvals_1",
        Table::Undo => "sqlite_autoindex_undo_1",
        Table::Paths => "sqlite_autoindex_paths_1",
        Table::Addresses => "sqlite_autoindex_addresses_1",
    }
}

/// The columns of the key of the table.
fn places_of(table: Table) -> &'static [usize]
    ensures { result.now ≡ spec.places_of table }
{
    match table {
        Table::Meta
        | Table::Ports
        | Table::Addresses
        | Table::Holders
        | Table::Volumes
        | Table::Plans => &[1],
        Table::Groups | Table::Approvals => &[1, 2],
        Table::Active | Table::Undo => &[1, 2, 3],
        Table::Zoning | Table::GroupParts => &[1, 2, 3, 4],
        Table::Paths => &[1, 2, 3, 4, 5, 6],
    }
}

fn is_named(found: &Bytes, wanted: &str) -> bool
    ensures { IsTrue result → found.now ≡ wanted.now }
{
    found.as_slice() == wanted.as_bytes()
}

fn is_column(found: &Column, name: &str, kind: Kind, not_null: bool) -> bool
    ensures { IsTrue result → found.now ≡ spec.column_of name.now kind not_null }
{
    is_named(&found.name, name)
        && found.kind == kind
        && found.is_strict
        && found.not_null == not_null
        && matches!(found.default, Value::Null)
        && matches!(found.collation, Collation::Binary)
}

/// Whether the columns are texts with these names, and then perhaps a number, each NOT NULL.
fn are_columns(found: &[Column], texts: &[&'static str], number: Option<&'static str>) -> bool
    ensures { IsTrue result → found.now ≡ spec.columns_named (map (λ t. t.now) texts.now) (option_map (λ t. t.now) number.entry) }
{
    let mut rest = found;
    for name in texts {
        let [first, more @ ..] = rest else {
            return false;
        };
        if !is_column(first, name, Kind::Text, true) {
            return false;
        }
        rest = more;
    }
    match number {
        Some(name) => is_number(rest, name),
        None => are_none(rest),
    }
}

/// Whether there is no column.
fn are_none(found: &[Column]) -> bool
    ensures { IsTrue result → found.now ≡ [] }
{
    found.is_empty()
}

/// Whether there is one column, which is a number that is NOT NULL.
fn is_number(found: &[Column], name: &str) -> bool
    ensures { IsTrue result → found.now ≡ spec.column_of name.now Kind.Integer true ∷ [] }
{
    match found {
        [only] => is_column(only, name, Kind::Integer, true),
        _ => false,
    }
}

/// Whether the columns are those of the ports.
fn are_port_columns(found: &[Column]) -> bool
    ensures { IsTrue result → found.now ≡ spec.columns_of table.Ports }
{
    match found {
        [wwpn, wwnn, fabric, domain, slot, holder] => {
            is_column(wwpn, "wwpn", Kind::Text, true)
                && is_column(wwnn, "wwnn", Kind::Text, true)
                && is_column(fabric, "fabric", Kind::Text, false)
                && is_column(domain, "domain", Kind::Integer, false)
                && is_column(slot, "slot", Kind::Integer, false)
                && is_column(holder, "holder", Kind::Text, false)
        }
        _ => false,
    }
}

/// Whether the columns are those of the table.
fn are_columns_of(found: &[Column], table: Table) -> bool
    ensures { IsTrue result → found.now ≡ spec.columns_of table }
{
    match table {
        Table::Meta => are_columns(found, &["key", "value"], None),
        Table::Ports => are_port_columns(found),
        Table::Holders => are_columns(found, &["name", "kind", "tenant"], None),
        Table::Volumes => are_columns(found, &["name", "array", "tenant"], Some("bytes")),
        Table::Zoning => are_columns(found, &["fabric", "kind", "name", "item"], None),
        Table::Active => are_columns(found, &["fabric", "zone", "member"], None),
        Table::Groups => are_columns(found, &["kind", "name", "tenant", "array"], Some("exposed")),
        Table::GroupParts => are_columns(found, &["kind", "name", "part", "item", "volume"], None),
        Table::Plans => are_columns(
            found,
            &["name", "author", "text", "state"],
            Some("position"),
        ),
        Table::Approvals => are_columns(found, &["plan", "caller"], Some("revision")),
        Table::Undo => are_columns(found, &["plan", "sign", "entry"], None),
        Table::Paths => are_path_columns(found),
        Table::Addresses => are_columns(found, &["wwpn", "address"], None),
    }
}

/// Whether the columns are those of the paths.
fn are_path_columns(found: &[Column]) -> bool
    ensures { IsTrue result → found.now ≡ spec.columns_of table.Paths }
{
    let texts = ["host", "fabric", "initiator", "target", "volume"];
    are_columns(found, &texts, Some("lun"))
}

/// Whether the table has no rule but its types, its NOT NULL columns and its key.
fn is_bare(table: &SqlTable) -> bool
    ensures { IsTrue result → (table.now.key ≡ None) × (table.now.checks ≡ []) × (table.now.references ≡ []) × (table.now.computed ≡ []) × (table.now.is_counted ≡ false)
        × (table.now.stamps ≡ record { places = []; terms = []; formats = [] }) }
{
    let checks = &table.checks;
    let terms = &table.stamps.terms;
    table.key.is_none()
        && checks.roots.is_empty()
        && table.references.is_empty()
        && table.computed.is_empty()
        && !table.is_counted
        && table.stamps.places.is_empty()
        && terms.roots.is_empty()
        && table.stamps.formats.is_empty()
}

fn is_plain(orders: &Items<Order>) -> bool
    ensures { IsTrue result → orders.now ≡ plain ∷ [] }
{
    matches!(orders.as_slice(), [order] if *order == Order::PLAIN)
}

fn are_places(found: &Items<usize>, places: &[usize]) -> bool
    ensures { IsTrue result → found.now ≡ places.now }
{
    found.as_slice() == places
}

/// Whether there is one unique key, of these columns.
fn is_unique(found: &Items<Items<usize>>, places: &[usize]) -> bool
    ensures { IsTrue result → found.now ≡ places.now ∷ [] }
{
    match found.as_slice() {
        [only] => are_places(only, places),
        _ => false,
    }
}

/// Whether it is the table.
fn is_table(found: &SqlTable, table: Table) -> bool
    ensures { IsTrue result → found.now ≡ spec.made_of table }
{
    let places = places_of(table);
    is_named(&found.name, table.name())
        && found.tree == tree_of(table)
        && are_columns_of(found.columns.as_slice(), table)
        && are_places(&found.primary, places)
        && is_unique(&found.uniques, places)
        && is_plain(&found.orders)
        && is_bare(found)
}

/// Whether it is a unique index in this tree, of these columns of the table in that tree.
fn is_index(found: &Index, name: &str, tree: u32, table: u32, places: &[usize]) -> bool
    ensures { IsTrue result → found.now ≡ record { name = name.now; tree = tree; table = table; columns = places.now; order = plain; is_unique = true } }
{
    is_named(&found.name, name)
        && found.tree == tree
        && found.table == table
        && are_places(&found.columns, places)
        && found.order == Order::PLAIN
        && found.is_unique
}

/// Whether it is the index of the key of the table.
#[tactic(auto, using(crate::proofs::Shapes::index_made))]
fn is_key_index(found: &Index, table: Table) -> bool
    ensures { IsTrue result → found.now ≡ spec.key_index table }
{
    let tree = tree_of(table);
    is_index(found, index_name(table), tree + 1, tree, places_of(table))
}

fn are_tables(found: &[SqlTable], tables: &[Table]) -> bool
    ensures { IsTrue result → found.now ≡ map spec.made_of tables.now }
{
    let mut rest = found;
    for table in tables {
        let [first, more @ ..] = rest else {
            return false;
        };
        if !is_table(first, *table) {
            return false;
        }
        rest = more;
    }
    rest.is_empty()
}

fn are_indexes(found: &[Index], tables: &[Table]) -> bool
    ensures { IsTrue result → found.now ≡ map spec.key_index tables.now }
{
    let mut rest = found;
    for table in tables {
        let [first, more @ ..] = rest else {
            return false;
        };
        if !is_key_index(first, *table) {
            return false;
        }
        rest = more;
    }
    rest.is_empty()
}

/// Whether the connection has these tables, made in this order, and nothing else: true only if it has.
/// `ALL` are those of the schema.
pub fn has_tables<S: Alter>(conn: &Connection<S>, tables: &[Table]) -> bool
    ensures { IsTrue result → (state S.Store conn.now).now.schema ≡ spec.schema_of tables.now }
{
    let schema = conn.schema();
    are_tables(schema.tables.as_slice(), tables)
        && are_indexes(schema.indexes.as_slice(), tables)
        && schema.views.is_empty()
}
