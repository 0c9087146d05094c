//! The format of the tables of a broker.
ghost use Rattle.std.specs.Prelude.{◌≡◌, ◌≢◌, ◌↔◌, ◌∷◌, [], IsTrue, IfOk, IfErr, MatchOption, IsSomeAnd, Some, None, pos, map, length};
ghost use Rattle.std.specs.List.{AllZip};
ghost use Rattle.sqlite.specs.Held.{state};
ghost use Rattle.sqlite.specs.Order.{Row as SqlRow, column};
ghost use Rattle.sqlite.specs.State.{IsLive};
ghost use Rattle.sqlite.specs.declared.types.Value.TheVariants.{Int};
ghost use Rattle.table_access.specs.Calls.{CallsStore};
ghost use Rattle.table_access.specs.Reading.{IsNumberRow};
ghost use Rattle.broker_tables.specs.Schema.{meta};
ghost use Rattle.registry_tables.specs.Form.{columns_of};
ghost use Rattle.registry_tables.specs.Format.{IsColumn, IsMetaTable, Finds, FailsToFind, FailsOnlyFor, table_of};

use sqlite::{Alter, Connection, Row};
use sqlite_schema::schema::{Column, Kind, Schema, Table};
use table_access::{StoreFault, number_in, select};

/// How a table of the broker's is recognized: by its name, the names and kinds of its columns, and its keys. A place
/// counts the columns from 1, and place 0 is the row's number.
#[derive(Clone, Copy)]
pub(crate) struct Form {
    pub(crate) name: &'static [u8],
    pub(crate) columns: &'static [(&'static [u8], Kind)],
    /// The column that is the row's number.
    pub(crate) key: Option<usize>,
    /// The places of the PRIMARY KEY.
    pub(crate) primary: &'static [usize],
    /// The places of each UNIQUE.
    pub(crate) uniques: &'static [&'static [usize]],
}

/// The table of the format.
pub(crate) const META: Form = Form {
    name: b"meta",
    columns: &[
        (b"one", Kind::Integer),
        (b"format", Kind::Integer),
        (b"office_digest", Kind::Text),
    ],
    key: Some(0),
    primary: &[0],
    uniques: &[],
};

/// The table that SQLite finds by this name.
pub(crate) fn table_named<'a>(schema: &'a Schema, name: &[u8]) -> Option<&'a Table>
    ensures { MatchOption result (table_of name.now schema.now ≡ None)
        (λ table. table_of name.now schema.now ≡ Some table.now) }
{
    match schema.table_named(name) {
        Some(at) => schema.tables.get(at),
        None => None,
    }
}

/// Whether a column has this name, and values of this kind, however it is declared.
pub(crate) fn is_column(column: &Column, name: &[u8], kind: Kind) -> bool
    ensures { IsTrue result ↔ IsColumn (name.now, kind) column.now }
{
    column.name.as_slice() == name && column.kind == kind
}

/// Whether the columns have these names and kinds, in this order.
pub(crate) fn are_columns(columns: &[Column], wanted: &[(&[u8], Kind)]) -> bool
    ensures { IsTrue result ↔ AllZip IsColumn (columns_of wanted.now) columns.now }
{
    match wanted {
        [] => columns.is_empty(),
        [(name, kind), wanted @ ..] => match columns {
            [] => false,
            [column, columns @ ..] => {
                is_column(column, name, *kind) && are_columns(columns, wanted)
            }
        },
    }
}

/// Whether a table has the columns and the key of `meta`, however it is declared.
fn is_meta(table: &Table) -> bool
    ensures { IsTrue result ↔ IsMetaTable table.now }
{
    are_columns(table.columns.as_slice(), META.columns) && table.key == META.key
}

/// Whether the table of that name is `meta`, wherever it is.
fn is_marked<S: Alter>(conn: &Connection<S>) -> bool
    ensures marked { IsTrue result ↔ IsSomeAnd (table_of meta.name (state S.Store conn.now).now.schema) IsMetaTable }
    ensures live { IsLive (state S.Store conn.now) }
{
    match table_named(conn.schema(), META.name) {
        Some(table) => is_meta(table),
        None => false,
    }
}

/// The number in the first column of the one row. `None` if there isn't exactly one.
fn one_number(rows: &[Row]) -> Result<Option<u32>, StoreFault>
    ensures ok { IfOk result
        (λ found. MatchOption found (length rows.now ≢ 1)
        (λ n. map (λ row. column row 0) rows.now ≡ Int (pos n) ∷ [])) }
    ensures cause { IfErr result (λ fault. (fault ≡ StoreFault.Store)
        × (row : SqlRow) × (rows.now ≡ row ∷ []) × (¬ IsNumberRow row)) }
{
    match rows {
        [row] => Ok(Some(done!(number_in(row)))),
        _ => Ok(None),
    }
}

/// The format of the broker's tables, or `None` if there is no table `meta` with its columns, its key and one row,
/// wherever it is and however it is declared. Nothing changes.
///
/// # Errors
/// `StoreFault::Memory` if the database has no memory; `StoreFault::Store` if it failed or holds no number there, and, if
/// no query has a limit of steps, only then.
pub fn format_of<S: Alter>(conn: &mut Connection<S>) -> Result<Option<u32>, StoreFault>
    ensures finds { CallsStore S.Store conn.old conn.new result
        (λ found old new. Finds old.now found
        × (new.now ≡ old.now)) }
    ensures cause { FailsOnlyFor (state S.Store conn.old) (state S.Store conn.new) result FailsToFind }
{
    if !is_marked(conn) {
        return Ok(None);
    }
    let rows = done!(select(conn, "SELECT format FROM meta", &[]));
    one_number(&rows)
}
