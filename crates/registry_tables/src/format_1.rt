//! Whether a database has the tables of format 1: each by its name, with its columns, which compare texts by their
//! bytes, and its keys, wherever it is. STRICT, NOT NULL, CHECKs and defaults make no difference.
ghost use Rattle.std.specs.Prelude.{◌≡◌, ◌↔◌, IsTrue};
ghost use Rattle.std.specs.List.{AllByRecursion};
ghost use Rattle.sqlite.specs.Held.{state};
ghost use Rattle.registry_tables.specs.Form.{HasTableOf, IsOfForm, keys_of};
ghost use Rattle.registry_tables.specs.Format.{AreKeys, CompareBytes, HasFormat1Tables};

use crate::format::{Form, META, are_columns, table_named};
use sqlite::{Alter, Connection};
use sqlite_items::Items;
use sqlite_schema::schema::Kind::{Integer, Text};
use sqlite_schema::schema::{Column, Schema, Table};
use sqlite_value::keys::Collation;

/// The tables of format 1, in the order in which they were made.
const FORMER: [Form; 13] = [
    META,
    Form {
        name: b"teams",
        columns: &[(b"name", Text), (b"token_digest", Text)],
        key: None,
        primary: &[1],
        uniques: &[&[1], &[2]],
    },
    Form {
        name: b"pacticipants",
        columns: &[(b"name", Text), (b"team", Text)],
        key: None,
        primary: &[1],
        uniques: &[&[1]],
    },
    Form {
        name: b"versions",
        columns: &[
            (b"number", Integer),
            (b"pacticipant", Text),
            (b"version", Text),
        ],
        key: Some(0),
        primary: &[0],
        uniques: &[&[2, 3]],
    },
    Form {
        name: b"branches",
        columns: &[(b"version_number", Integer), (b"branch", Text)],
        key: None,
        primary: &[1, 2],
        uniques: &[&[1, 2]],
    },
    Form {
        name: b"environments",
        columns: &[(b"name", Text), (b"gated", Integer)],
        key: None,
        primary: &[1],
        uniques: &[&[1]],
    },
    Form {
        name: b"grants",
        columns: &[(b"team", Text), (b"environment", Text)],
        key: None,
        primary: &[1, 2],
        uniques: &[&[1, 2]],
    },
    Form {
        name: b"contents",
        columns: &[(b"number", Integer), (b"digest", Text), (b"body", Text)],
        key: Some(0),
        primary: &[0],
        uniques: &[],
    },
    Form {
        name: b"contracts",
        columns: &[
            (b"version_number", Integer),
            (b"provider", Text),
            (b"content", Integer),
        ],
        key: None,
        primary: &[1, 2],
        uniques: &[&[1, 2]],
    },
    Form {
        name: b"results",
        columns: &[
            (b"number", Integer),
            (b"content", Integer),
            (b"provider", Text),
            (b"provider_version", Integer),
            (b"pass", Integer),
            (b"run", Text),
        ],
        key: Some(0),
        primary: &[0],
        uniques: &[&[3, 6]],
    },
    Form {
        name: b"latest",
        columns: &[
            (b"content", Integer),
            (b"provider_version", Integer),
            (b"result", Integer),
        ],
        key: None,
        primary: &[1, 2],
        uniques: &[&[1, 2]],
    },
    Form {
        name: b"deployed",
        columns: &[
            (b"environment", Text),
            (b"pacticipant", Text),
            (b"instance", Text),
            (b"version_number", Integer),
        ],
        key: None,
        primary: &[1, 2, 3],
        uniques: &[&[1, 2, 3]],
    },
    Form {
        name: b"released",
        columns: &[(b"environment", Text), (b"version_number", Integer)],
        key: None,
        primary: &[1, 2],
        uniques: &[&[1, 2]],
    },
];

/// Whether a key has these places.
fn is_key(key: &[usize], wanted: &[usize]) -> bool
    ensures { IsTrue result ↔ (key.now ≡ wanted.now) }
{
    key == wanted
}

/// Whether the keys have these places, in this order.
fn are_keys(keys: &[Items<usize>], wanted: &[&[usize]]) -> bool
    ensures { IsTrue result ↔ AreKeys (keys_of wanted.now) keys.now }
{
    match wanted {
        [] => keys.is_empty(),
        [places, wanted @ ..] => match keys {
            [] => false,
            [key, keys @ ..] => is_key(key.as_slice(), places) && are_keys(keys, wanted),
        },
    }
}

/// Whether each column compares texts by their bytes, so that only its own name finds a row.
fn compare_bytes(columns: &[Column]) -> bool
    ensures { IsTrue result ↔ CompareBytes columns.now }
{
    match columns {
        [] => true,
        [column, columns @ ..] => column.collation == Collation::Binary && compare_bytes(columns),
    }
}

/// Whether a table has these columns, which compare texts by their bytes, and these keys.
fn has_form(table: &Table, form: &Form) -> bool
    ensures { IsTrue result ↔ IsOfForm form.now table.now }
{
    are_columns(table.columns.as_slice(), form.columns)
        && compare_bytes(table.columns.as_slice())
        && table.key == form.key
        && is_key(table.primary.as_slice(), form.primary)
        && are_keys(table.uniques.as_slice(), form.uniques)
}

/// Whether a table is found by this name, and has these columns, which compare texts by their bytes, and these keys.
fn has_table(schema: &Schema, form: &Form) -> bool
    ensures { IsTrue result ↔ HasTableOf schema.now form.now }
{
    match table_named(schema, form.name) {
        Some(table) => has_form(table, form),
        None => false,
    }
}

/// Whether a schema has each of these tables.
fn has_tables(schema: &Schema, forms: &[Form]) -> bool
    ensures { IsTrue result ↔ AllByRecursion (HasTableOf schema.now) forms.now }
{
    match forms {
        [] => true,
        [form, forms @ ..] => has_table(schema, form) && has_tables(schema, forms),
    }
}

/// Whether each table of format 1 is there.
pub(crate) fn has_format_1_tables<S: Alter>(conn: &Connection<S>) -> bool
    ensures { IsTrue result ↔ HasFormat1Tables (state S.Store conn.now).now.schema }
{
    has_tables(conn.schema(), &FORMER)
}
