//! Making the tables of format 1 again, if another program declared them: by columns and keys they are those of format
//! 1, but not STRICT, without a NOT NULL, a CHECK or a REFERENCES, or in another order.
ghost use Rattle.std.specs.Prelude.{◌≡◌, ◌<◌, length};
ghost use Rattle.std.specs.List.{AllByRecursion};
ghost use Rattle.sqlite.specs.Order.{column};
ghost use Rattle.sqlite_value.specs.Value.{owned};
ghost use Rattle.sqlite_resolve.specs.Compile.{first};
ghost use Rattle.table_access.specs.Calls.{CallsStore};
ghost use Rattle.table_access.specs.Writes.{IsWriteText};
ghost use Rattle.broker_database.specs.Renewal.{IsDropText};

use broker_tables::create::{
    BRANCHES, CONTENTS, CONTRACTS, DEPLOYED, ENVIRONMENTS, GRANTS, LATEST, META, PACTICIPANTS,
    RELEASED, RESULTS, TEAMS, VERSIONS,
};
use broker_tables::make_each;
use sqlite::types::ValueRef;
use sqlite::{Alter, Connection, Row};
use table_access::{StoreFault, change, select};

/// The texts that read the rows of each table of format 1, and put a row into it: each table before those to which it
/// refers.
const ROWS: [(&str, &str); 13] = [
    (
        "SELECT environment, version_number FROM released",
        "INSERT INTO released (environment, version_number) VALUES (?1, ?2)",
    ),
    (
        "SELECT environment, pacticipant, instance, version_number FROM deployed",
        "INSERT INTO deployed (environment, pacticipant, instance, version_number) VALUES (?1, ?2, ?3, ?4)",
    ),
    (
        "SELECT content, provider_version, result FROM latest",
        "INSERT INTO latest (content, provider_version, result) VALUES (?1, ?2, ?3)",
    ),
    (
        "SELECT number, content, provider, provider_version, pass, run FROM results",
        "INSERT INTO results (number, content, provider, provider_version, pass, run) VALUES (?1, ?2, ?3, ?4, ?5, ?6)",
    ),
    (
        "SELECT version_number, provider, content FROM contracts",
        "INSERT INTO contracts (version_number, provider, content) VALUES (?1, ?2, ?3)",
    ),
    (
        "SELECT number, digest, body FROM contents",
        "INSERT INTO contents (number, digest, body) VALUES (?1, ?2, ?3)",
    ),
    (
        "SELECT team, environment FROM grants",
        "INSERT INTO grants (team, environment) VALUES (?1, ?2)",
    ),
    (
        "SELECT name, gated FROM environments",
        "INSERT INTO environments (name, gated) VALUES (?1, ?2)",
    ),
    (
        "SELECT version_number, branch FROM branches",
        "INSERT INTO branches (version_number, branch) VALUES (?1, ?2)",
    ),
    (
        "SELECT number, pacticipant, version FROM versions",
        "INSERT INTO versions (number, pacticipant, version) VALUES (?1, ?2, ?3)",
    ),
    (
        "SELECT name, team FROM pacticipants",
        "INSERT INTO pacticipants (name, team) VALUES (?1, ?2)",
    ),
    (
        "SELECT name, token_digest FROM teams",
        "INSERT INTO teams (name, token_digest) VALUES (?1, ?2)",
    ),
    (
        "SELECT one, format, office_digest FROM meta",
        "INSERT INTO meta (one, format, office_digest) VALUES (?1, ?2, ?3)",
    ),
];

/// Takes a table away, in a transaction. After an error the caller ends the transaction.
fn drop_table<S: Alter>(conn: &mut Connection<S>, sql: &str) -> Result<(), StoreFault>
    requires { IsDropText (first sql.now) }
    ensures { CallsStore S.Store conn.old conn.new result (λ _ _ _. Unit {0}) }
{
    match conn.execute(sql, &[]) {
        Ok(_) => Ok(()),
        Err(error) => Err(StoreFault::from(error)),
    }
}

/// Takes tables away, one after another.
fn drop_each<S: Alter>(conn: &mut Connection<S>, texts: &[&str]) -> Result<(), StoreFault>
    requires { AllByRecursion (λ text. IsDropText (first text.now)) texts.now }
    ensures { CallsStore S.Store conn.old conn.new result (λ _ _ _. Unit {0}) }
{
    for text in texts {
        match drop_table(conn, text) {
            Ok(()) => {},
            Err(fault) => return Err(fault),
        }
    }
    Ok(())
}

/// Takes the tables of format 1 away, each before those to which it refers.
fn drop_format_1<S: Alter>(conn: &mut Connection<S>) -> Result<(), StoreFault>
    ensures { CallsStore S.Store conn.old conn.new result (λ _ _ _. Unit {0}) }
{
    drop_each(
        conn,
        &[
            "DROP TABLE released",
            "DROP TABLE deployed",
            "DROP TABLE latest",
            "DROP TABLE results",
            "DROP TABLE contracts",
            "DROP TABLE contents",
            "DROP TABLE grants",
            "DROP TABLE environments",
            "DROP TABLE branches",
            "DROP TABLE versions",
            "DROP TABLE pacticipants",
            "DROP TABLE teams",
            "DROP TABLE meta",
        ],
    )
}

/// Makes the tables of format 1 as a broker made them.
fn make_format_1<S: Alter>(conn: &mut Connection<S>) -> Result<(), StoreFault>
    ensures { CallsStore S.Store conn.old conn.new result (λ _ _ _. Unit {0}) }
{
    make_each(
        conn,
        &[
            META,
            TEAMS,
            PACTICIPANTS,
            VERSIONS,
            BRANCHES,
            ENVIRONMENTS,
            GRANTS,
            CONTENTS,
            CONTRACTS,
            RESULTS,
            LATEST,
            DEPLOYED,
            RELEASED,
        ],
    )
}

/// Takes the tables of format 1 away, and makes them again, without rows.
fn make_empty<S: Alter>(conn: &mut Connection<S>) -> Result<(), StoreFault>
    ensures { CallsStore S.Store conn.old conn.new result (λ _ _ _. Unit {0}) }
{
    done!(drop_format_1(conn));
    make_format_1(conn)
}

/// The value at this place of a row, and NULL past its end.
fn value(row: &Row, at: usize) -> ValueRef<'_>
    ensures { at < length row.now → owned result ≡ column row.now at }
{
    match row.get_ref(at) {
        Ok(value) => value,
        Err(_) => ValueRef::Null,
    }
}

/// Puts these values into a table as a row.
fn put_values<S: Alter>(
    conn: &mut Connection<S>,
    sql: &str,
    params: &[ValueRef<'_>],
) -> Result<(), StoreFault>
    requires { IsWriteText (first sql.now) }
    ensures { CallsStore S.Store conn.old conn.new result (λ _ _ _. Unit {0}) }
{
    change(conn, sql, params)
}

/// Puts a row into a table: of two, three, four or six columns.
fn put_row<S: Alter>(conn: &mut Connection<S>, sql: &str, row: &Row) -> Result<(), StoreFault>
    requires { IsWriteText (first sql.now) }
    ensures { CallsStore S.Store conn.old conn.new result (λ _ _ _. Unit {0}) }
{
    let (a, b, c) = (value(row, 0), value(row, 1), value(row, 2));
    match row.column_count() {
        2 => put_values(conn, sql, &[a, b]),
        3 => put_values(conn, sql, &[a, b, c]),
        4 => put_values(conn, sql, &[a, b, c, value(row, 3)]),
        _ => put_values(
            conn,
            sql,
            &[a, b, c, value(row, 3), value(row, 4), value(row, 5)],
        ),
    }
}

/// Puts these rows into a table, one after another.
fn put_rows<S: Alter>(conn: &mut Connection<S>, sql: &str, rows: &[Row]) -> Result<(), StoreFault>
    requires { IsWriteText (first sql.now) }
    ensures { CallsStore S.Store conn.old conn.new result (λ _ _ _. Unit {0}) }
{
    for row in rows {
        match put_row(conn, sql, row) {
            Ok(()) => {},
            Err(fault) => return Err(fault),
        }
    }
    Ok(())
}

/// Makes the tables of format 1 again, with the rows of these: each by the text that reads its rows, and the one that
/// puts one of them in again, the last table first. A row that breaks a rule of its table is refused as `Store`.
fn renew_each<S: Alter>(conn: &mut Connection<S>, tables: &[(&str, &str)]) -> Result<(), StoreFault>
    requires { AllByRecursion (λ table. IsWriteText (first table.1.now)) tables.now }
    ensures { CallsStore S.Store conn.old conn.new result (λ _ _ _. Unit {0}) }
{
    match tables {
        [] => make_empty(conn),
        [(read, insert), tables @ ..] => {
            let rows = done!(select(conn, read, &[]));
            done!(renew_each(conn, tables));
            put_rows(conn, insert, &rows)
        },
    }
}

/// Makes the tables of format 1 again, as a broker made them, with all their rows, which are in memory meanwhile. A row
/// that breaks a rule of its table is refused as `Store`.
pub(crate) fn renew<S: Alter>(conn: &mut Connection<S>) -> Result<(), StoreFault>
    ensures { CallsStore S.Store conn.old conn.new result (λ _ _ _. Unit {0}) }
{
    renew_each(conn, &ROWS)
}
