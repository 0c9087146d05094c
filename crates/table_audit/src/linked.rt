//! Rules about a row and a row of another table that it names, or that names it.
ghost use Rattle.std.specs.Prelude.{◌≡◌, ◌↔◌, IsTrue, IfOk, ℕ};
ghost use Rattle.sqlite.specs.Order.{Row as SqlRow};
ghost use Rattle.table_access.specs.Reading.{IsTextAt};
ghost use Rattle.table_audit.specs.Shown.{Tries, FindsUnder, HoldsSame, IsPassedOrSame};
ghost use Rattle.table_audit.specs.declared.auditing.TableRule.TheVariants.{Provider, Named, Newest, Deployed};

use crate::judging::{RowRule, judge};
use crate::rules::has_text;
use sqlite::types::ValueRef;
use sqlite::{Alter, Connection, Row};
use std::alloc::{AllocError, Global};
use table_access::StoreFault;

/// Whether two columns hold the same text, or the same number.
fn are_same(row: &Row, one: usize, other: usize) -> bool
    ensures { IsTrue result ↔ HoldsSame one other row.now }
{
    match (row.get_ref(one), row.get_ref(other)) {
        (Ok(ValueRef::Int(a)), Ok(ValueRef::Int(b))) => a == b,
        (Ok(ValueRef::Text(a)), Ok(ValueRef::Text(b))) => a == b,
        _ => false,
    }
}

/// A result with its provider, and the pacticipant of its version.
struct SoundProvider;

impl RowRule for SoundProvider {
    ghost Keeps = { λ count. HoldsSame 1 2 };

    fn keeps(_alloc: Global, _count: usize, row: &Row) -> Result<bool, AllocError> {
        Ok(are_same(row, 1, 2))
    }
}

/// Judges the providers of results.
pub(crate) fn judge_providers<S: Alter>(
    alloc: Global,
    conn: &mut Connection<S>,
) -> Result<Option<i64>, StoreFault>
    ensures { Tries S.Store conn.old conn.new result (λ found db. FindsUnder Provider db found) }
{
    judge::<SoundProvider, S>(
        alloc,
        conn,
        "SELECT r.number, r.provider, v.pacticipant FROM results r JOIN versions v ON v.number = r.provider_version",
    )
}

/// A row of `latest` with the content and the version of the result that it names.
struct SoundNamed;

impl RowRule for SoundNamed {
    ghost Keeps = { λ count row. HoldsSame 1 2 row × HoldsSame 3 4 row };

    fn keeps(_alloc: Global, _count: usize, row: &Row) -> Result<bool, AllocError> {
        Ok(are_same(row, 1, 2) && are_same(row, 3, 4))
    }
}

/// Judges the results that the rows of `latest` name.
pub(crate) fn judge_named<S: Alter>(
    alloc: Global,
    conn: &mut Connection<S>,
) -> Result<Option<i64>, StoreFault>
    ensures { Tries S.Store conn.old conn.new result (λ found db. FindsUnder Named db found) }
{
    judge::<SoundNamed, S>(
        alloc,
        conn,
        "SELECT l.rowid, l.content, r.content, l.provider_version, r.provider_version FROM latest l JOIN results r ON r.number = l.result",
    )
}

/// Whether the second column holds a number that isn't below the one in the first, which isn't negative.
fn is_passed_or_same(row: &Row) -> bool
    ensures { IsTrue result ↔ IsPassedOrSame row.now }
{
    match (row.get_ref(0), row.get_ref(1)) {
        (Ok(ValueRef::Int(number)), Ok(ValueRef::Int(latest))) => 0 <= number && number <= latest,
        _ => false,
    }
}

/// The number of a result, and of the one that `latest` names for its content and its version.
struct SoundNewest;

impl RowRule for SoundNewest {
    ghost Keeps = { λ count. IsPassedOrSame };

    fn keeps(_alloc: Global, _count: usize, row: &Row) -> Result<bool, AllocError> {
        Ok(is_passed_or_same(row))
    }
}

/// Judges the results, each beside the one that `latest` names for its content and its version.
pub(crate) fn judge_newest<S: Alter>(
    alloc: Global,
    conn: &mut Connection<S>,
) -> Result<Option<i64>, StoreFault>
    ensures { Tries S.Store conn.old conn.new result (λ found db. FindsUnder Newest db found) }
{
    judge::<SoundNewest, S>(
        alloc,
        conn,
        "SELECT r.number, l.result FROM results r LEFT JOIN latest l ON l.content = r.content AND l.provider_version = r.provider_version",
    )
}

/// A row of `deployed` with the pacticipant of its version.
struct SoundDeployed;

impl RowRule for SoundDeployed {
    ghost Keeps = { λ count row. HoldsSame 1 2 row × IsTextAt 3 row };

    fn keeps(_alloc: Global, _count: usize, row: &Row) -> Result<bool, AllocError> {
        Ok(are_same(row, 1, 2) && has_text(row, 3))
    }
}

/// Judges the rows of `deployed`.
pub(crate) fn judge_deployed<S: Alter>(
    alloc: Global,
    conn: &mut Connection<S>,
) -> Result<Option<i64>, StoreFault>
    ensures { Tries S.Store conn.old conn.new result (λ found db. FindsUnder Deployed db found) }
{
    judge::<SoundDeployed, S>(
        alloc,
        conn,
        "SELECT d.rowid, d.pacticipant, v.pacticipant, d.instance FROM deployed d JOIN versions v ON v.number = d.version_number",
    )
}
