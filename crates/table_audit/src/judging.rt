//! The rows that a query shows, judged by one rule.
ghost use Rattle.std.specs.Prelude.{◌≡◌, ◌⊎◌, ℕ, List, [], IsTrue, ◌↔◌, IfOk, IfErr};
ghost use Rattle.sqlite.specs.Order.{Row as SqlRow};
ghost use Rattle.sqlite.specs.Held.{state};
ghost use Rattle.sqlite.specs.State.{HasCleanDisk, Shown};
ghost use Rattle.table_access.specs.Calls.{CallsTables};
ghost use Rattle.table_access.specs.Columns.{whole_at};
ghost use Rattle.table_access.specs.Reading.{IsRefusedAs};
ghost use Rattle.table_audit.specs.Shown.{FindsAmong};

use sqlite::types::ValueRef;
use sqlite::{Alter, Connection, Row};
use std::alloc::{AllocError, Global};
use table_access::{StoreFault, select};

/// What each row that a query shows has to be. Its first column is the number of the row that is judged.
pub(crate) trait RowRule {
    ghost use Rattle.std.specs.Prelude.{ℕ};
    ghost use Rattle.sqlite.specs.Order.{Row as SqlRow};

    // the row keeps the rule, if the query shows so many
    ghost Keeps: { ℕ → SqlRow → Type 0 };

    /// Whether the row keeps the rule, if the query shows so many. The error is out of memory.
    fn keeps(alloc: Global, count: usize, row: &Row) -> Result<bool, AllocError>
        ensures { IfOk result (λ kept. IsTrue kept ↔ Keeps count row.now) };
}

/// The number in the first column of a row, or 0 if there is none.
pub(crate) fn row_number(row: &Row) -> i64
    ensures { result ≡ whole_at 0 row.now }
{
    match row.get_ref(0) {
        Ok(ValueRef::Int(number)) => number,
        _ => 0,
    }
}

/// The number of the first row that breaks the rule, or `None` if each keeps it. The error is out of memory.
fn first_breaking<R: RowRule>(alloc: Global, rows: &[Row]) -> Result<Option<i64>, AllocError>
    ensures { IfOk result (FindsAmong R.Keeps rows.now) }
{
    for row in rows {
        if !R::keeps(alloc, rows.len(), row)? {
            return Ok(Some(row_number(row)));
        }
    }
    Ok(None)
}

/// Judges the rows that a query shows: the number of the first one that breaks the rule, or `None`.
pub(crate) fn judge<R: RowRule, S: Alter>(
    alloc: Global,
    conn: &mut Connection<S>,
    sql: &str,
) -> Result<Option<i64>, StoreFault>
    ensures leaves { CallsTables S.Store conn.old conn.new result
        (λ found old new. (rows : List SqlRow)
        × Shown sql.now [] old new rows
        × FindsAmong R.Keeps rows found) }
    ensures cause { HasCleanDisk (state S.Store conn.new) → IfErr result
        (λ fault. IsRefusedAs sql.now [] (state S.Store conn.old) (state S.Store conn.new) fault
        ⊎ (fault ≡ StoreFault.Memory)) }
{
    let rows = done!(select(conn, sql, &[]));
    match first_breaking::<R>(alloc, &rows) {
        Ok(found) => Ok(found),
        Err(_) => Err(StoreFault::Memory),
    }
}
