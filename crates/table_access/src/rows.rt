//! Answers of queries, read into values.

ghost use Rattle.std.specs.Prelude.{◌≡◌, pos, List, [], Some, IfOk, IfErr, IfSome, IfNone, option_map, is_some, string_bytes, slice_get};
ghost use Rattle.sqlite.specs.State.{HasCleanDisk, Shown};
ghost use Rattle.sqlite.specs.Held.{state};
ghost use Rattle.sqlite.specs.Values.{bound};
ghost use Rattle.sqlite.specs.Order.{Row as SqlRow, column};
ghost use Rattle.sqlite_rules.specs.Lists.{Has};
ghost use Rattle.sqlite.specs.declared.types.Value.TheVariants.{Int, Text as SqlText};
ghost use Rattle.table_access.specs.Calls.{CallsTables, CallsStore};
ghost use Rattle.table_access.specs.Columns.{text};
ghost use Rattle.table_access.specs.Reading.{AreRead, IsRefusedAs, FailsToRead, FailsToReadRow, FailsToTake, IsTextAt, BeginsWithText, ReportsText, ReportsNumber, ReportsNumberAt};

use crate::{StoreFault, fault_of, select};
use sqlite::types::ValueRef;
use sqlite::{Alter, Connection, Row};
use std::alloc::Global;

/// How a row of an answer is read into a value.
pub trait ReadRow {
    ghost use Rattle.table_access.specs.declared.StoreFault.{StoreFault};

    type Item: Drop;

    // The row reads as this value.
    ghost reads_as: { SqlRow → Self.Item → Type 0 };

    // Reading the row may fail so. It says of `StoreFault::Store` that the row doesn't read.
    ghost fails_as: { SqlRow → StoreFault → Type 0 };

    /// Reads a row.
    fn read(alloc: Global, row: &Row) -> Result<Self::Item, StoreFault>
        ensures ok { IfOk result (reads_as row.now) }
        ensures cause { IfErr result (fails_as row.now) };
}

/// Reads each row.
fn read_all<R: ReadRow>(alloc: Global, rows: &[Row]) -> Result<Vec<R::Item>, StoreFault>
    ensures ok { IfOk result (λ items. AreRead R.reads_as rows.now items.items) }
    ensures cause { IfErr result (λ f. (row : SqlRow) × Has rows.now row
        × FailsToReadRow R.reads_as R.fails_as row f) }
{
    let mut items = Vec::new(alloc);
    for row in rows {
        let item = done!(R::read(alloc, row));
        match items.push(item) {
            Ok(()) => {}
            Err(_) => return Err(StoreFault::Memory),
        }
    }
    Ok(items)
}

/// The rows that a query shows, in its order, each read into a value.
pub fn list_of<R: ReadRow, S: Alter>(
    alloc: Global,
    conn: &mut Connection<S>,
    sql: &str,
    params: &[ValueRef<'_>],
) -> Result<Vec<R::Item>, StoreFault>
    ensures leaves { CallsTables S.Store conn.old conn.new result
        (λ items old new. (rows : List SqlRow)
        × Shown sql.now (bound params.now) old new rows
        × AreRead R.reads_as rows items.items) }
    ensures cause { HasCleanDisk (state S.Store conn.new) →
        IfErr result (FailsToRead R.reads_as R.fails_as sql.now (bound params.now)
        (state S.Store conn.old) (state S.Store conn.new)) }
{
    let rows = done!(select(conn, sql, params));
    read_all::<R>(alloc, &rows)
}

/// Whether a query shows a row.
pub fn has_row<S: Alter>(
    conn: &mut Connection<S>,
    sql: &str,
    params: &[ValueRef<'_>],
) -> Result<bool, StoreFault>
    ensures leaves { CallsStore S.Store conn.old conn.new result
        (λ has old new. (rows : List SqlRow)
        × Shown sql.now (bound params.now) old new rows
        × (has ≡ is_some (slice_get rows 0))) }
    ensures cause { HasCleanDisk (state S.Store conn.new) →
        IfErr result (IsRefusedAs sql.now (bound params.now) (state S.Store conn.old) (state S.Store conn.new)) }
{
    let rows = done!(select(conn, sql, params));
    Ok(!rows.is_empty())
}

/// The text in a column, lent. None if there is no such column, or no text in UTF-8 in it.
pub fn text_at(row: &Row, at: usize) -> Option<&str>
    ensures some { IfSome result (λ found. IsTextAt at row.now × (column row.now at ≡ SqlText found.now)) }
    ensures none { IfNone result (¬ IsTextAt at row.now) }
{
    match row.get_ref(at) {
        Ok(ValueRef::Text(bytes)) => std::str::from_utf8(bytes).ok(),
        _ => None,
    }
}

/// The text in the first column of the first row, if there is a row.
/// `StoreFault::Store` if there is no text, and `StoreFault::Memory` if there is one and no room for it.
fn first_text(alloc: Global, rows: &[Row]) -> Result<Option<String>, StoreFault>
    ensures ok { IfOk result (λ found. (option_map string_bytes found ≡ option_map (text 0) (slice_get rows.now 0))
        × BeginsWithText rows.now) }
    ensures cause { IfErr result (λ f. (row : SqlRow) × (slice_get rows.now 0 ≡ Some row) × ReportsText row f) }
{
    match rows.first() {
        None => Ok(None),
        Some(row) => match text_at(row, 0) {
            Some(text) => match String::from_str(alloc, text) {
                Ok(text) => Ok(Some(text)),
                Err(_) => Err(StoreFault::Memory),
            },
            None => Err(StoreFault::Store),
        },
    }
}

/// The whole number in the first column. `StoreFault::Store` if there is no number from 0 to 2^32 - 1.
pub fn number_in(row: &Row) -> Result<u32, StoreFault>
    ensures ok { IfOk result (λ n. column row.now 0 ≡ Int (pos n)) }
    ensures cause { IfErr result (ReportsNumber row.now) }
{
    number_at(row, 0)
}

/// The whole number in a column. `StoreFault::Store` if there is no such column, or no number from 0 to 2^32 - 1 in it.
pub fn number_at(row: &Row, place: usize) -> Result<u32, StoreFault>
    ensures ok { IfOk result (λ n. column row.now place ≡ Int (pos n)) }
    ensures cause { IfErr result (ReportsNumberAt place row.now) }
{
    match row.get_ref(place) {
        Ok(ValueRef::Int(number)) => match u32::try_from(number) {
            Ok(number) => Ok(number),
            Err(_) => Err(StoreFault::Store),
        },
        _ => Err(StoreFault::Store),
    }
}

/// A row that is read as the number in its first column.
pub struct NumberRow;

impl ReadRow for NumberRow {
    type Item = u32;

    ghost reads_as = { λ row number. column row 0 ≡ Int (pos number) };

    ghost fails_as = { ReportsNumber };

    fn read(_alloc: Global, row: &Row) -> Result<u32, StoreFault> {
        number_in(row)
    }
}

/// The whole number in the first column of the first row, if there is a row. `StoreFault::Store` if there is no number
/// from 0 to 2^32 - 1.
fn first_number(rows: &[Row]) -> Result<Option<u32>, StoreFault>
    ensures ok { IfOk result
        (λ found. option_map (λ n. Int (pos n)) found ≡ option_map (λ row. column row 0) (slice_get rows.now 0)) }
    ensures cause { IfErr result (λ f. (row : SqlRow) × (slice_get rows.now 0 ≡ Some row) × ReportsNumber row f) }
{
    match rows.first() {
        None => Ok(None),
        Some(row) => Ok(Some(done!(number_in(row)))),
    }
}

/// The text in the first column of the first row that a query shows. None if it shows no row; `StoreFault::Store` if
/// there is NULL, a number or no UTF-8.
pub fn find_text<S: Alter>(
    conn: &mut Connection<S>,
    sql: &str,
    params: &[ValueRef<'_>],
) -> Result<Option<String>, StoreFault>
    ensures leaves { CallsTables S.Store conn.old conn.new result
        (λ found old new. (rows : List SqlRow)
        × Shown sql.now (bound params.now) old new rows
        × (option_map string_bytes found ≡ option_map (text 0) (slice_get rows 0))
        × BeginsWithText rows) }
    ensures cause { HasCleanDisk (state S.Store conn.new) →
        IfErr result (FailsToTake ReportsText sql.now (bound params.now)
        (state S.Store conn.old) (state S.Store conn.new)) }
{
    let rows = done!(select(conn, sql, params));
    first_text(*rows.allocator(), &rows)
}

/// The whole number in the first column of the first row that a query shows. None if it shows no row;
/// `StoreFault::Store` if there is no number from 0 to 2^32 - 1.
pub fn find_number<S: Alter>(
    conn: &mut Connection<S>,
    sql: &str,
    params: &[ValueRef<'_>],
) -> Result<Option<u32>, StoreFault>
    ensures leaves { CallsStore S.Store conn.old conn.new result
        (λ found old new. (rows : List SqlRow)
        × Shown sql.now (bound params.now) old new rows
        × (option_map (λ n. Int (pos n)) found ≡ option_map (λ row. column row 0) (slice_get rows 0))) }
    ensures cause { HasCleanDisk (state S.Store conn.new) →
        IfErr result (FailsToTake ReportsNumber sql.now (bound params.now)
        (state S.Store conn.old) (state S.Store conn.new)) }
{
    let rows = done!(select(conn, sql, params));
    first_number(&rows)
}
