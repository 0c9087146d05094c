//! Whether what a database declares is exactly a broker's: its tables and its indexes, as SQLite reads the statements
//! that make them, each in its place, and nothing else: no other table or index, no view, no trigger.
ghost use Rattle.std.specs.Prelude.{◌≡◌, ◌↔◌, [], ◌∷◌, IsTrue, Some, None, IsSomeAnd, slice_get, map};
ghost use Rattle.std.specs.List.{AllZip};
ghost use Rattle.sqlite_schema.specs.Code.{term_in};
ghost use Rattle.sqlite_schema.specs.declared.code.Op.TheVariants.{Column as Place, Literal};
ghost use Rattle.sqlite_value.specs.declared.value.Value.TheVariants.{Int, Null};
ghost use Rattle.broker_tables.specs.Format1.{format_1_tables};
ghost use Rattle.broker_tables.specs.Schema.{broker_schema, schema_of};
ghost use Rattle.broker_database.specs.Catalog.{IsColumnOf, IsReferenceOf, IsEqualOp, IsTruthOp, HasNoStamps, HasKeysOf, HasRulesOf, columns_of, references_of, IsTableOf, IsIndexOf, HasForms, schema_by, made_table, made_index, check_of, checks_of, IsKeyOf, IsPlain};

use sqlite_items::Items;
use sqlite_schema::code::{Op, Terms};
use sqlite_schema::schema::Kind::{Integer, Text};
use sqlite_schema::schema::{Action, Column, Index, Kind, Reference, Schema, Stamps, Table};
use sqlite_sql::ops::{BinaryOp, CompareOp};
use sqlite_value::keys::{Collation, Order};
use sqlite_value::value::{Bytes, Value};

/// A CHECK of the column at a place.
#[derive(Clone, Copy)]
enum Check {
    /// The column is 1.
    One(usize),
    /// The column is 0 or 1.
    Truth(usize),
}

/// A table as a broker makes it, in its place. A place of a column counts from 1, and place 0 is the row's number.
#[derive(Clone, Copy)]
struct TableForm {
    name: &'static [u8],
    tree: u32,
    /// Each column's name and kind, and whether it is NOT NULL. All are STRICT.
    columns: &'static [(&'static [u8], Kind, bool)],
    key: Option<usize>,
    primary: &'static [usize],
    uniques: &'static [&'static [usize]],
    check: Option<Check>,
    /// Each REFERENCES: the place, the other table and its column.
    references: &'static [(usize, &'static [u8], &'static [u8])],
}

/// An index, in its place: of a key, as SQLite makes it, or of its own.
#[derive(Clone, Copy)]
struct IndexForm {
    name: &'static [u8],
    tree: u32,
    table: u32,
    columns: &'static [usize],
    is_unique: bool,
}

/// The tables, in the order in which they are made.
const TABLES: [TableForm; 15] = [
    TableForm {
        name: b"meta",
        tree: 0,
        columns: &[
            (b"one", Integer, true),
            (b"format", Integer, true),
            (b"office_digest", Text, true),
        ],
        key: Some(0),
        primary: &[0],
        uniques: &[],
        check: Some(Check::One(0)),
        references: &[],
    },
    TableForm {
        name: b"teams",
        tree: 1,
        columns: &[(b"name", Text, true), (b"token_digest", Text, true)],
        key: None,
        primary: &[1],
        uniques: &[&[1], &[2]],
        check: None,
        references: &[],
    },
    TableForm {
        name: b"pacticipants",
        tree: 4,
        columns: &[(b"name", Text, true), (b"team", Text, true)],
        key: None,
        primary: &[1],
        uniques: &[&[1]],
        check: None,
        references: &[(2, b"teams", b"name")],
    },
    TableForm {
        name: b"versions",
        tree: 6,
        columns: &[
            (b"number", Integer, true),
            (b"pacticipant", Text, true),
            (b"version", Text, true),
        ],
        key: Some(0),
        primary: &[0],
        uniques: &[&[2, 3]],
        check: None,
        references: &[(2, b"pacticipants", b"name")],
    },
    TableForm {
        name: b"branches",
        tree: 8,
        columns: &[(b"version_number", Integer, true), (b"branch", Text, true)],
        key: None,
        primary: &[1, 2],
        uniques: &[&[1, 2]],
        check: None,
        references: &[(1, b"versions", b"number")],
    },
    TableForm {
        name: b"environments",
        tree: 10,
        columns: &[(b"name", Text, true), (b"gated", Integer, true)],
        key: None,
        primary: &[1],
        uniques: &[&[1]],
        check: Some(Check::Truth(2)),
        references: &[],
    },
    TableForm {
        name: b"grants",
        tree: 12,
        columns: &[(b"team", Text, true), (b"environment", Text, true)],
        key: None,
        primary: &[1, 2],
        uniques: &[&[1, 2]],
        check: None,
        references: &[(1, b"teams", b"name"), (2, b"environments", b"name")],
    },
    TableForm {
        name: b"contents",
        tree: 14,
        columns: &[
            (b"number", Integer, true),
            (b"digest", Text, true),
            (b"body", Text, true),
        ],
        key: Some(0),
        primary: &[0],
        uniques: &[],
        check: None,
        references: &[],
    },
    TableForm {
        name: b"contracts",
        tree: 15,
        columns: &[
            (b"version_number", Integer, true),
            (b"provider", Text, true),
            (b"content", Integer, true),
        ],
        key: None,
        primary: &[1, 2],
        uniques: &[&[1, 2]],
        check: None,
        references: &[
            (1, b"versions", b"number"),
            (2, b"pacticipants", b"name"),
            (3, b"contents", b"number"),
        ],
    },
    TableForm {
        name: b"results",
        tree: 17,
        columns: &[
            (b"number", Integer, true),
            (b"content", Integer, true),
            (b"provider", Text, true),
            (b"provider_version", Integer, true),
            (b"pass", Integer, true),
            (b"run", Text, false),
        ],
        key: Some(0),
        primary: &[0],
        uniques: &[&[3, 6]],
        check: Some(Check::Truth(5)),
        references: &[
            (2, b"contents", b"number"),
            (3, b"pacticipants", b"name"),
            (4, b"versions", b"number"),
        ],
    },
    TableForm {
        name: b"latest",
        tree: 19,
        columns: &[
            (b"content", Integer, true),
            (b"provider_version", Integer, true),
            (b"result", Integer, true),
        ],
        key: None,
        primary: &[1, 2],
        uniques: &[&[1, 2]],
        check: None,
        references: &[
            (1, b"contents", b"number"),
            (2, b"versions", b"number"),
            (3, b"results", b"number"),
        ],
    },
    TableForm {
        name: b"deployed",
        tree: 21,
        columns: &[
            (b"environment", Text, true),
            (b"pacticipant", Text, true),
            (b"instance", Text, true),
            (b"version_number", Integer, true),
        ],
        key: None,
        primary: &[1, 2, 3],
        uniques: &[&[1, 2, 3]],
        check: None,
        references: &[
            (1, b"environments", b"name"),
            (2, b"pacticipants", b"name"),
            (4, b"versions", b"number"),
        ],
    },
    TableForm {
        name: b"released",
        tree: 23,
        columns: &[
            (b"environment", Text, true),
            (b"version_number", Integer, true),
        ],
        key: None,
        primary: &[1, 2],
        uniques: &[&[1, 2]],
        check: None,
        references: &[(1, b"environments", b"name"), (2, b"versions", b"number")],
    },
    TableForm {
        name: b"checked_results",
        tree: 25,
        columns: &[(b"result", Integer, true)],
        key: Some(0),
        primary: &[0],
        uniques: &[],
        check: None,
        references: &[(0, b"results", b"number")],
    },
    TableForm {
        name: b"strict_environments",
        tree: 26,
        columns: &[(b"environment", Text, true)],
        key: None,
        primary: &[1],
        uniques: &[&[1]],
        check: None,
        references: &[(1, b"environments", b"name")],
    },
];

/// The indexes, in the order in which they are made: those of keys with their tables, and then the broker's own.
const INDEXES: [IndexForm; 17] = [
    IndexForm {
        name: b"sqlite_autoindex_teams_1",
        tree: 2,
        table: 1,
        columns: &[1],
        is_unique: true,
    },
    IndexForm {
        name: b"sqlite_autoindex_teams_2",
        tree: 3,
        table: 1,
        columns: &[2],
        is_unique: true,
    },
    IndexForm {
        name: b"sqlite_autoindex_pacticipants_1",
        tree: 5,
        table: 4,
        columns: &[1],
        is_unique: true,
    },
    IndexForm {
        name: b"sqlite_autoindex_versions_1",
        tree: 7,
        table: 6,
        columns: &[2, 3],
        is_unique: true,
    },
    IndexForm {
        name: b"sqlite_autoindex_branches_1",
        tree: 9,
        table: 8,
        columns: &[1, 2],
        is_unique: true,
    },
    IndexForm {
        name: b"sqlite_autoindex_environments_1",
        tree: 11,
        table: 10,
        columns: &[1],
        is_unique: true,
    },
    IndexForm {
        name: b"sqlite_autoindex_grants_1",
        tree: 13,
        table: 12,
        columns: &[1, 2],
        is_unique: true,
    },
    IndexForm {
        name: b"sqlite_autoindex_contracts_1",
        tree: 16,
        table: 15,
        columns: &[1, 2],
        is_unique: true,
    },
    IndexForm {
        name: b"sqlite_autoindex_results_1",
        tree: 18,
        table: 17,
        columns: &[3, 6],
        is_unique: true,
    },
    IndexForm {
        name: b"sqlite_autoindex_latest_1",
        tree: 20,
        table: 19,
        columns: &[1, 2],
        is_unique: true,
    },
    IndexForm {
        name: b"sqlite_autoindex_deployed_1",
        tree: 22,
        table: 21,
        columns: &[1, 2, 3],
        is_unique: true,
    },
    IndexForm {
        name: b"sqlite_autoindex_released_1",
        tree: 24,
        table: 23,
        columns: &[1, 2],
        is_unique: true,
    },
    IndexForm {
        name: b"sqlite_autoindex_strict_environments_1",
        tree: 27,
        table: 26,
        columns: &[1],
        is_unique: true,
    },
    IndexForm {
        name: b"contents_by_digest",
        tree: 28,
        table: 14,
        columns: &[2],
        is_unique: false,
    },
    IndexForm {
        name: b"contracts_by_content",
        tree: 29,
        table: 15,
        columns: &[3],
        is_unique: false,
    },
    IndexForm {
        name: b"latest_by_provider_version",
        tree: 30,
        table: 19,
        columns: &[2],
        is_unique: false,
    },
    IndexForm {
        name: b"versions_by_pacticipant",
        tree: 31,
        table: 6,
        columns: &[2, 0],
        is_unique: false,
    },
];

/// Whether a column is STRICT, has this name, this kind and this NOT NULL, no default, and compares bytes.
fn is_column(column: &Column, name: &[u8], kind: Kind, not_null: bool) -> bool
    ensures { IsTrue result ↔ IsColumnOf (name.now, kind, not_null) column.now }
{
    column.name.as_slice() == name
        && column.kind == kind
        && column.is_strict
        && column.not_null == not_null
        && is_null(&column.default)
        && column.collation == Collation::Binary
}

/// Whether a default is none.
fn is_null(value: &Value) -> bool
    ensures { IsTrue result ↔ (value.now ≡ Null) }
{
    matches!(value, Value::Null)
}

/// Whether the columns are these, in this order.
fn are_columns(columns: &[Column], wanted: &[(&[u8], Kind, bool)]) -> bool
    ensures { IsTrue result ↔ AllZip IsColumnOf (columns_of wanted.now) columns.now }
{
    match wanted {
        [] => columns.is_empty(),
        [(name, kind, not_null), wanted @ ..] => match columns {
            [] => false,
            [column, columns @ ..] => is_column(column, name, *kind, *not_null)
                && are_columns(columns, wanted),
        },
    }
}

/// Whether a key has these places.
fn is_key(key: &[usize], wanted: &[usize]) -> bool
    ensures { IsTrue result ↔ (key.now ≡ wanted.now) }
{
    key == wanted
}

/// Whether the keys have these places, in this order.
fn are_keys(keys: &[Items<usize>], wanted: &[&[usize]]) -> bool
    ensures { IsTrue result ↔ AllZip IsKeyOf wanted.now keys.now }
{
    match wanted {
        [] => keys.is_empty(),
        [places, wanted @ ..] => match keys {
            [] => false,
            [key, keys @ ..] => is_key(key.as_slice(), places) && are_keys(keys, wanted),
        },
    }
}

/// Whether the indexes of these keys all ascend by bytes.
fn are_plain(orders: &[Order], keys: &[&[usize]]) -> bool
    ensures { IsTrue result ↔ AllZip IsPlain keys.now orders.now }
{
    match keys {
        [] => orders.is_empty(),
        [_, keys @ ..] => match orders {
            [] => false,
            [order, orders @ ..] => order.digits == 0 && are_plain(orders, keys),
        },
    }
}

/// Whether a name is this one.
fn is_name(name: &Bytes, wanted: &[u8]) -> bool
    ensures { IsTrue result ↔ (name.now ≡ wanted.now) }
{
    name.as_slice() == wanted
}

/// Whether there is one name, and it is this one.
fn is_name_alone(names: &[Bytes], wanted: &[u8]) -> bool
    ensures { IsTrue result ↔ (names.now ≡ wanted.now ∷ []) }
{
    match names {
        [] => false,
        [name, more @ ..] => more.is_empty() && is_name(name, wanted),
    }
}

/// Whether there is one place, and it is this one.
fn is_place_alone(places: &[usize], wanted: usize) -> bool
    ensures { IsTrue result ↔ (places.now ≡ wanted ∷ []) }
{
    match places {
        [place] => *place == wanted,
        _ => false,
    }
}

/// Whether a REFERENCES is of this place and to this column, and tested at once.
fn is_reference(reference: &Reference, place: usize, table: &[u8], column: &[u8]) -> bool
    ensures { IsTrue result ↔ IsReferenceOf (place, table.now, column.now) reference.now }
{
    is_place_alone(reference.columns.as_slice(), place)
        && reference.parent.as_slice() == table
        && is_name_alone(reference.parent_columns.as_slice(), column)
        && reference.on_delete == Action::NoAction
        && reference.on_update == Action::NoAction
        && !reference.is_deferred
}

/// Whether the REFERENCES are these, in this order.
fn are_references(references: &[Reference], wanted: &[(usize, &[u8], &[u8])]) -> bool
    ensures { IsTrue result ↔ AllZip IsReferenceOf (references_of wanted.now) references.now }
{
    match wanted {
        [] => references.is_empty(),
        [(place, table, column), wanted @ ..] => match references {
            [] => false,
            [reference, references @ ..] => {
                is_reference(reference, *place, table, column) && are_references(references, wanted)
            },
        },
    }
}

/// Whether the node at this place is the column at that place of the row.
fn is_column_at(nodes: &[Op], at: usize, place: usize) -> bool
    ensures { IsTrue result ↔ (slice_get nodes.now at ≡ Some (Place 1 place)) }
{
    match nodes.get(at) {
        Some(Op::Column(slot, found)) => *slot == 1 && *found == place,
        _ => false,
    }
}

/// Whether the node at this place is this number.
fn is_number_at(nodes: &[Op], at: usize, number: i64) -> bool
    ensures { IsTrue result ↔ (slice_get nodes.now at ≡ Some (Literal (Int number))) }
{
    match nodes.get(at) {
        Some(Op::Literal(Value::Int(found))) => *found == number,
        _ => false,
    }
}

/// Whether the node at this place says that the column is this number.
fn is_equal_at(nodes: &[Op], at: usize, place: usize, number: i64) -> bool
    ensures { IsTrue result ↔ IsSomeAnd (slice_get nodes.now at) (IsEqualOp nodes.now place number) }
{
    match nodes.get(at) {
        Some(Op::Binary(op, a, b)) => {
            *op == BinaryOp::Compare(CompareOp::Eq, Collation::Binary)
                && is_column_at(nodes, *a, place)
                && is_number_at(nodes, *b, number)
        },
        _ => false,
    }
}

/// Whether the node at this place says that the column is 0 or 1.
fn is_truth_at(nodes: &[Op], at: usize, place: usize) -> bool
    ensures { IsTrue result ↔ IsSomeAnd (slice_get nodes.now at) (IsTruthOp nodes.now place) }
{
    match nodes.get(at) {
        Some(Op::Binary(op, a, b)) => {
            *op == BinaryOp::Or
                && is_equal_at(nodes, *a, place, 0)
                && is_equal_at(nodes, *b, place, 1)
        },
        _ => false,
    }
}

/// Whether the expression at this place is this CHECK.
fn is_check(nodes: &[Op], root: usize, check: &Check) -> bool
    ensures { IsTrue result ↔ (term_in nodes.now root ≡ check_of check.now) }
{
    match check {
        Check::One(place) => nodes.len() >= 2 && is_equal_at(nodes, root, *place, 1),
        Check::Truth(place) => nodes.len() >= 3 && is_truth_at(nodes, root, *place),
    }
}

/// Whether the only CHECK is the wanted one; or, if none is wanted, whether there is none.
fn are_checks(terms: &Terms, wanted: &Option<Check>) -> bool
    ensures { IsTrue result ↔ (terms.now ≡ checks_of wanted.now) }
{
    match wanted {
        None => terms.roots.as_slice().is_empty(),
        Some(check) => match terms.roots.as_slice() {
            [root] => is_check(terms.nodes.as_slice(), *root, check),
            _ => false,
        },
    }
}

/// Whether no default reads the time.
fn has_no_stamps(stamps: &Stamps) -> bool
    ensures { IsTrue result ↔ HasNoStamps stamps.now }
{
    stamps.places.as_slice().is_empty()
        && are_checks(&stamps.terms, &None)
        && stamps.formats.as_slice().is_empty()
}

/// Whether a table's keys and their indexes are these.
fn has_keys(table: &Table, form: &TableForm) -> bool
    ensures { IsTrue result ↔ HasKeysOf form.now table.now }
{
    table.key == form.key
        && is_key(table.primary.as_slice(), form.primary)
        && are_keys(table.uniques.as_slice(), form.uniques)
        && are_plain(table.orders.as_slice(), form.uniques)
}

/// Whether a table's rows obey these rules and no others, and no value of theirs is computed.
fn has_rules(table: &Table, form: &TableForm) -> bool
    ensures { IsTrue result ↔ HasRulesOf form.now table.now }
{
    are_checks(&table.checks, &form.check)
        && are_references(table.references.as_slice(), form.references)
        && table.computed.as_slice().is_empty()
        && has_no_stamps(&table.stamps)
        && !table.is_counted
}

/// Whether a table is this one, in its place.
fn is_table(table: &Table, form: &TableForm) -> bool
    ensures { IsTrue result ↔ IsTableOf form.now table.now }
{
    table.name.as_slice() == form.name
        && table.tree == form.tree
        && are_columns(table.columns.as_slice(), form.columns)
        && has_keys(table, form)
        && has_rules(table, form)
}

/// Whether the tables are these, in this order.
fn are_tables(tables: &[Table], forms: &[TableForm]) -> bool
    ensures { IsTrue result ↔ AllZip IsTableOf forms.now tables.now }
{
    match forms {
        [] => tables.is_empty(),
        [form, forms @ ..] => match tables {
            [] => false,
            [table, tables @ ..] => is_table(table, form) && are_tables(tables, forms),
        },
    }
}

/// Whether an index is this one, in its place.
fn is_index(index: &Index, form: &IndexForm) -> bool
    ensures { IsTrue result ↔ IsIndexOf form.now index.now }
{
    index.name.as_slice() == form.name
        && index.tree == form.tree
        && index.table == form.table
        && is_key(index.columns.as_slice(), form.columns)
        && index.order.digits == 0
        && index.is_unique == form.is_unique
}

/// Whether the indexes are these, in this order.
fn are_indexes(indexes: &[Index], forms: &[IndexForm]) -> bool
    ensures { IsTrue result ↔ AllZip IsIndexOf forms.now indexes.now }
{
    match forms {
        [] => indexes.is_empty(),
        [form, forms @ ..] => match indexes {
            [] => false,
            [index, indexes @ ..] => is_index(index, form) && are_indexes(indexes, forms),
        },
    }
}

/// Whether what is declared has these forms, one after another, and no view is there.
fn has_forms(schema: &Schema, tables: &[TableForm], indexes: &[IndexForm]) -> bool
    ensures { IsTrue result ↔ HasForms tables.now indexes.now schema.now }
{
    are_tables(schema.tables.as_slice(), tables)
        && are_indexes(schema.indexes.as_slice(), indexes)
        && schema.views.as_slice().is_empty()
}

/// Whether exactly these tables and indexes are declared.
fn declares(schema: &Schema, tables: &[TableForm], indexes: &[IndexForm]) -> bool
    ensures { IsTrue result ↔ (schema.now ≡ schema_by tables.now indexes.now) }
{
    has_forms(schema, tables, indexes)
}

/// A broker's tables.
fn broker_tables() -> [TableForm; 15]
    ensures { map made_table result ≡ broker_schema.tables }
{
    TABLES
}

/// A broker's indexes.
fn broker_indexes() -> [IndexForm; 17]
    ensures { map made_index result ≡ broker_schema.indexes }
{
    INDEXES
}

/// Whether exactly a broker's tables and indexes are declared.
pub(crate) fn is_broker_schema(schema: &Schema) -> bool
    ensures { IsTrue result ↔ (schema.now ≡ broker_schema) }
{
    let tables = broker_tables();
    let indexes = broker_indexes();
    declares(schema, &tables, &indexes)
}

/// Whether exactly the tables of format 1 are declared, and the indexes of their keys, in their places.
pub(crate) fn is_format_1_schema(schema: &Schema) -> bool
    ensures { IsTrue result ↔ (schema.now ≡ schema_of format_1_tables) }
{
    let tables = broker_tables();
    let indexes = broker_indexes();
    declares(schema, &tables[..13], &indexes[..12])
}
