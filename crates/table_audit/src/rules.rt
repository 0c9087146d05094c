//! Rules about the rows of one table.
ghost use Rattle.std.specs.Prelude.{◌≡◌, ◌↔◌, IsTrue, IfOk, is_some};
ghost use Rattle.sqlite.specs.Order.{column};
ghost use Rattle.sqlite.specs.declared.types.Value.TheVariants.{Int, Text as SqlText};
ghost use Rattle.table_access.specs.Reading.{IsTextAt};
ghost use Rattle.broker_tables.specs.Rows.{run_in};
ghost use Rattle.table_audit.specs.Shown.{Tries, FindsUnder, HasNumberOf, IsOfficeShown, IsTeamShown, HasTwoNames, IsContentShown, SaysRunShown};
ghost use Rattle.table_audit.specs.declared.auditing.TableRule.TheVariants.{Office, Team, Pacticipant, Version, Content, Result as ResultRule};

use crate::judging::{RowRule, judge, row_number};
use broker_core::limit::GREATEST_NUMBER;
use broker_tables::has_name;
use content_store::{Sha256Digester, digest_text};
use itoa::Buffer;
use sqlite::types::ValueRef;
use sqlite::{Alter, Connection, Row};
use std::alloc::{AllocError, Global};
use table_access::{StoreFault, text_at};

/// Today's format.
const FORMAT: i64 = 2;

/// Whether a column holds a text in UTF-8.
pub(crate) fn has_text(row: &Row, at: usize) -> bool
    ensures { IsTrue result ↔ IsTextAt at row.now }
{
    text_at(row, at).is_some()
}

/// Whether a column holds this number.
fn has_number(row: &Row, at: usize, wanted: i64) -> bool
    ensures { IsTrue result ↔ (column row.now at ≡ Int wanted) }
{
    match row.get_ref(at) {
        Ok(ValueRef::Int(number)) => number == wanted,
        _ => false,
    }
}

/// Whether the first column holds the number of one of so many rows, which are numbered from 1.
fn has_number_of(count: usize, row: &Row) -> bool
    ensures { IsTrue result ↔ HasNumberOf count row.now }
{
    match row.get_ref(0) {
        Ok(ValueRef::Int(number)) => match u64::try_from(number) {
            Ok(number) => 1 <= number && number <= count as u64 && number <= GREATEST_NUMBER,
            Err(_) => false,
        },
        _ => false,
    }
}

// ---- meta, teams and pacticipants

/// The row of `meta`.
struct SoundOffice;

impl RowRule for SoundOffice {
    ghost Keeps = { λ count. IsOfficeShown };

    fn keeps(_alloc: Global, _count: usize, row: &Row) -> Result<bool, AllocError> {
        Ok(has_number(row, 1, FORMAT) && has_text(row, 2))
    }
}

/// Judges the rows of `meta`.
pub(crate) fn judge_office<S: Alter>(
    alloc: Global,
    conn: &mut Connection<S>,
) -> Result<Option<i64>, StoreFault>
    ensures { Tries S.Store conn.old conn.new result (λ found db. FindsUnder Office db found) }
{
    judge::<SoundOffice, S>(alloc, conn, "SELECT one, format, office_digest FROM meta")
}

/// A row of `teams`.
struct SoundTeam;

impl RowRule for SoundTeam {
    ghost Keeps = { λ count. IsTeamShown };

    fn keeps(_alloc: Global, _count: usize, row: &Row) -> Result<bool, AllocError> {
        Ok(has_name(row, 1) && has_text(row, 2))
    }
}

/// Judges the rows of `teams`.
pub(crate) fn judge_teams<S: Alter>(
    alloc: Global,
    conn: &mut Connection<S>,
) -> Result<Option<i64>, StoreFault>
    ensures { Tries S.Store conn.old conn.new result (λ found db. FindsUnder Team db found) }
{
    judge::<SoundTeam, S>(alloc, conn, "SELECT rowid, name, token_digest FROM teams")
}

/// A row with two names, as one of `pacticipants`.
struct SoundNames;

impl RowRule for SoundNames {
    ghost Keeps = { λ count. HasTwoNames };

    fn keeps(_alloc: Global, _count: usize, row: &Row) -> Result<bool, AllocError> {
        Ok(has_name(row, 1) && has_name(row, 2))
    }
}

/// Judges the rows of `pacticipants`.
pub(crate) fn judge_pacticipants<S: Alter>(
    alloc: Global,
    conn: &mut Connection<S>,
) -> Result<Option<i64>, StoreFault>
    ensures { Tries S.Store conn.old conn.new result (λ found db. FindsUnder Pacticipant db found) }
{
    judge::<SoundNames, S>(alloc, conn, "SELECT rowid, name, team FROM pacticipants")
}

// ---- tables that number their rows

/// A row of `versions`.
struct SoundVersion;

impl RowRule for SoundVersion {
    ghost Keeps = { λ count row. HasNumberOf count row × HasTwoNames row };

    fn keeps(_alloc: Global, count: usize, row: &Row) -> Result<bool, AllocError> {
        Ok(has_number_of(count, row) && has_name(row, 1) && has_name(row, 2))
    }
}

/// Judges the rows of `versions`.
pub(crate) fn judge_versions<S: Alter>(
    alloc: Global,
    conn: &mut Connection<S>,
) -> Result<Option<i64>, StoreFault>
    ensures { Tries S.Store conn.old conn.new result (λ found db. FindsUnder Version db found) }
{
    judge::<SoundVersion, S>(
        alloc,
        conn,
        "SELECT number, pacticipant, version FROM versions",
    )
}

/// Whether the second column holds the digest of the text in the third. The error is out of memory.
fn has_own_digest(alloc: Global, row: &Row) -> Result<bool, AllocError>
    ensures { IfOk result (λ has. IsTrue has ↔ IsContentShown row.now) }
{
    match (row.get_ref(1), text_at(row, 2)) {
        (Ok(ValueRef::Text(digest)), Some(body)) => {
            let own = digest_text(alloc, &Sha256Digester, body.as_bytes())?;
            Ok(own.as_bytes() == digest)
        }
        _ => Ok(false),
    }
}

/// A row of `contents`.
struct SoundContent;

impl RowRule for SoundContent {
    ghost Keeps = { λ count row. HasNumberOf count row × IsContentShown row };

    fn keeps(alloc: Global, count: usize, row: &Row) -> Result<bool, AllocError> {
        Ok(has_number_of(count, row) && has_own_digest(alloc, row)?)
    }
}

/// Judges the rows of `contents`.
pub(crate) fn judge_contents<S: Alter>(
    alloc: Global,
    conn: &mut Connection<S>,
) -> Result<Option<i64>, StoreFault>
    ensures { Tries S.Store conn.old conn.new result (λ found db. FindsUnder Content db found) }
{
    judge::<SoundContent, S>(alloc, conn, "SELECT number, digest, body FROM contents")
}

/// Whether the text in the column of a run is a run, or says that the row with this number has none.
fn is_run_or_none(number: i64, text: &[u8]) -> bool
    ensures { result ≡ is_some (run_in number (SqlText text.now)) }
{
    match text {
        [b'\t', digits @ ..] => digits == Buffer::new().format(number).as_bytes(),
        _ => true,
    }
}

/// Whether the second column holds a run, or says that the row with the number in the first column has none.
fn says_run(row: &Row) -> bool
    ensures { IsTrue result ↔ SaysRunShown row.now }
{
    match row.get_ref(1) {
        Ok(ValueRef::Text(text)) => is_run_or_none(row_number(row), text),
        Ok(ValueRef::Null) | Err(_) => true,
        Ok(_) => false,
    }
}

/// A row of `results`.
struct SoundResult;

impl RowRule for SoundResult {
    ghost Keeps = { λ count row. HasNumberOf count row × SaysRunShown row };

    fn keeps(_alloc: Global, count: usize, row: &Row) -> Result<bool, AllocError> {
        Ok(has_number_of(count, row) && says_run(row))
    }
}

/// Judges the rows of `results`.
pub(crate) fn judge_results<S: Alter>(
    alloc: Global,
    conn: &mut Connection<S>,
) -> Result<Option<i64>, StoreFault>
    ensures { Tries S.Store conn.old conn.new result (λ found db. FindsUnder ResultRule db found) }
{
    judge::<SoundResult, S>(alloc, conn, "SELECT number, run FROM results")
}
