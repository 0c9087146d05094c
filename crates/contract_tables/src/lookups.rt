//! What the results say: the latest one for a content and a version of its provider, and each by its number.
ghost use Rattle.std.specs.Prelude.{◌≡◌, ◌↔◌, option_map, Some, length, IsTrue, IfOk, IfErr, slice_get, None};
ghost use Rattle.sqlite.specs.Held.{state};
ghost use Rattle.sqlite.specs.State.{HasCleanDisk, IsUnchanged};
ghost use Rattle.table_access.specs.Calls.{HasFailed};
ghost use Rattle.broker_core.specs.declared.command.Version.{Version as VersionModel};
ghost use Rattle.broker_core.specs.State.{Verification, latest_result, latest};
ghost use Rattle.broker_core.specs.Change.{result_of_run as run_result};
ghost use Rattle.broker_tables.specs.Numbers.{number_of};
ghost use Rattle.broker_tables.specs.Failures.{LooksUpInPlace, IfNoVersion};
ghost use Rattle.broker_tables.specs.Asking.{ReportsOfAny, CanBeAsked};
ghost use Rattle.broker_tables.specs.Rows.{IsTruthAt};
ghost use Rattle.sqlite.specs.Order.{Row as SqlRow};
ghost use Rattle.contract_tables.specs.Verified.{result_with, cells, cells_of, ReadsAsResult, pass_cells, pass_of, passed_of, passed_as, by_numbers, numbers_are, returned_of, returned};
ghost use Rattle.contract_tables.specs.VersionResults.{IsOfItsPair, ReadsAsLatest};
ghost use Rattle.contract_tables.specs.LatestRows.{IsLatestIn, IsPassIn, IsMarkedChecked, FailsAsNamed};

use crate::version_results::{ContentPass, read_latest};
use broker_core::need::Latest;
use broker_names::name::Name;
use broker_tables::truth_at;
use sqlite::{Alter, Connection, Row, params};
use table_access::{StoreFault, find_number, has_row, number_at, select};

/// How many results there are: the number of the newest, or 0.
///
/// # Errors
/// `StoreFault::Memory` if the database is out of memory; `StoreFault::Store` if it refused the query or holds no
/// number there.
pub fn result_count<S: Alter>(conn: &mut Connection<S>) -> Result<u64, StoreFault>
    ensures { LooksUpInPlace S.Store conn.old conn.new result (λ count s. count ≡ length s.results) }
{
    let newest = done!(find_number(
        conn,
        "SELECT number FROM results ORDER BY number DESC LIMIT 1",
        &[],
    ));
    Ok(newest.unwrap_or(0) as u64)
}

/// Whether the broker checked the result with this number, which is there.
fn is_checked<S: Alter>(conn: &mut Connection<S>, number: u32) -> Result<bool, StoreFault>
    ensures answers { LooksUpInPlace S.Store conn.old conn.new result
        (λ checked s. (r : Verification) → result_with s number ≡ Some r → checked ≡ r.checked) }
    ensures mark { ReportsOfAny S.Store conn.old conn.new result
        (λ checked db. IsTrue checked ↔ IsMarkedChecked number db) HasFailed }
{
    has_row(
        conn,
        "SELECT result FROM checked_results WHERE result = ?1",
        params![number],
    )
}

/// The latest result in the first row, if there is a row. `StoreFault::Store` if that doesn't read, or has a result of
/// another content or version.
fn first_pass(rows: &[Row]) -> Result<Option<ContentPass>, StoreFault>
    ensures ok { IfOk result
        (λ found. option_map (λ r. pass_of r.result r.pass) found ≡ option_map pass_cells (slice_get rows.now 0)) }
    ensures reads { IfOk result (λ _. (row : SqlRow) → slice_get rows.now 0 ≡ Some row →
        IsTruthAt 1 row × IsOfItsPair row) }
    ensures cause { IfErr result (λ f. (f ≡ StoreFault.Store)
        × (row : SqlRow) × (slice_get rows.now 0 ≡ Some row) × (¬ ReadsAsLatest row)) }
{
    match rows.first() {
        None => Ok(None),
        Some(row) => Ok(Some(done!(read_latest(row)))),
    }
}

/// The latest result for a content and the version of this number: its own number, and whether it is a pass.
/// `StoreFault::Store` also if a result of another content or version is said to be it.
fn latest_pass<S: Alter>(
    conn: &mut Connection<S>,
    content: u32,
    provider_version: u32,
) -> Result<Option<ContentPass>, StoreFault>
    ensures answers { LooksUpInPlace S.Store conn.old conn.new result
        (λ found s. (v : VersionModel) → number_of s.versions v ≡ Some provider_version →
        option_map (λ r. passed_as r.result r.pass) found ≡ option_map passed_of (latest_result s content v)) }
    ensures unknown { IfNoVersion S.Store conn.old conn.new result provider_version (λ found. found ≡ None) }
    ensures mark { ReportsOfAny S.Store conn.old conn.new result
        (IsPassIn content provider_version) (FailsAsNamed content provider_version) }
    ensures stays { HasCleanDisk (state S.Store conn.new) → CanBeAsked (state S.Store conn.old) →
        IfOk result (λ _. IsUnchanged (state S.Store conn.old) (state S.Store conn.new)) }
{
    let rows = done!(select(
        conn,
        "SELECT r.number, r.pass, l.content, r.content, l.provider_version, r.provider_version FROM latest l JOIN results r ON r.number = l.result WHERE l.content = ?1 AND l.provider_version = ?2",
        params![content, provider_version],
    ));
    first_pass(&rows)
}

/// What the latest result for a content and the version of this number says, or `None` if there is none. A mark that is
/// neither 0 nor 1 is never taken for a pass, nor the result of another content or version, with any CHECKs and
/// references in the tables.
///
/// # Errors
/// `StoreFault::Memory` if the database is out of memory; `StoreFault::Store` if it refused a query, or holds no number
/// or truth value there, or a result of another content or version.
pub fn latest_of<S: Alter>(
    conn: &mut Connection<S>,
    content: u32,
    version_number: u32,
) -> Result<Option<Latest>, StoreFault>
    ensures answers { LooksUpInPlace S.Store conn.old conn.new result
        (λ found s. (v : VersionModel) → number_of s.versions v ≡ Some version_number →
        found ≡ latest s content v) }
    ensures unknown { IfNoVersion S.Store conn.old conn.new result version_number (λ found. found ≡ None) }
    ensures mark { ReportsOfAny S.Store conn.old conn.new result
        (IsLatestIn content version_number) (FailsAsNamed content version_number) }
{
    match done!(latest_pass(conn, content, version_number)) {
        Some(found) => {
            let checked = done!(is_checked(conn, found.result));
            Ok(Some(Latest {
                pass: found.pass,
                checked,
            }))
        },
        None => Ok(None),
    }
}

/// A result with its number, the number of its content and that of the version that was verified.
#[derive(Clone, Copy, Debug, PartialEq, Eq)]
pub struct ResultRow {
    pub number: u32,
    pub content: u32,
    pub provider_version: u32,
    /// Whether it is a pass.
    pub pass: bool,
    /// Whether the broker checked recorded replies; otherwise its sender claimed it.
    pub checked: bool,
}

/// A result as its row has it.
#[derive(Clone, Copy)]
struct StoredResult {
    number: u32,
    content: u32,
    provider_version: u32,
    pass: bool,
}

/// The result in a row of its number, its content, the number of its version and whether it is a pass.
/// `StoreFault::Store` if one of them isn't there.
fn read_result(row: &Row) -> Result<StoredResult, StoreFault>
    ensures ok { IfOk result (λ r. cells_of r.number r.content r.provider_version r.pass ≡ cells row.now) }
    ensures reads { IfOk result (λ _. IsTruthAt 3 row.now) }
    ensures cause { IfErr result (λ f. (f ≡ StoreFault.Store) × (¬ ReadsAsResult row.now)) }
{
    let number = number_at(row, 0)?;
    let content = number_at(row, 1)?;
    let provider_version = number_at(row, 2)?;
    let pass = truth_at(row, 3)?;
    Ok(StoredResult {
        number,
        content,
        provider_version,
        pass,
    })
}

/// The result in the first row, if there is a row. `StoreFault::Store` if that doesn't read.
fn first_result(rows: &[Row]) -> Result<Option<StoredResult>, StoreFault>
    ensures ok { IfOk result
        (λ found. option_map (λ r. cells_of r.number r.content r.provider_version r.pass) found
        ≡ option_map cells (slice_get rows.now 0)) }
    ensures reads { IfOk result (λ _. (row : SqlRow) → slice_get rows.now 0 ≡ Some row → IsTruthAt 3 row) }
    ensures cause { IfErr result (λ f. (f ≡ StoreFault.Store)
        × (row : SqlRow) × (slice_get rows.now 0 ≡ Some row) × (¬ ReadsAsResult row)) }
{
    match rows.first() {
        None => Ok(None),
        Some(row) => Ok(Some(done!(read_result(row)))),
    }
}

/// The result of a run of the provider, without the mark whether the broker checked it.
fn stored_of_run<S: Alter>(
    conn: &mut Connection<S>,
    provider: &str,
    run: &Name,
) -> Result<Option<StoredResult>, StoreFault>
    ensures { LooksUpInPlace S.Store conn.old conn.new result
        (λ found s. option_map (λ r. numbers_are r.number r.content r.provider_version r.pass) found
        ≡ option_map (by_numbers s.versions) (run_result s provider.now (Some run.now))) }
{
    run.is_name();
    let rows = done!(select(
        conn,
        "SELECT number, content, provider_version, pass FROM results WHERE provider = ?1 AND run = ?2",
        params![provider, run.as_str()],
    ));
    first_result(&rows)
}

/// The result of a run of the provider, or `None` if it has none.
///
/// # Errors
/// `StoreFault::Memory` if the database is out of memory; `StoreFault::Store` if it refused a query, or holds no number
/// or truth value there.
pub fn result_of_run<S: Alter>(
    conn: &mut Connection<S>,
    provider: &str,
    run: &Name,
) -> Result<Option<ResultRow>, StoreFault>
    ensures { LooksUpInPlace S.Store conn.old conn.new result
        (λ found s. option_map (λ r. returned r.number r.content r.provider_version r.pass r.checked) found
        ≡ option_map (returned_of s.versions) (run_result s provider.now (Some run.now))) }
{
    match done!(stored_of_run(conn, provider, run)) {
        Some(stored) => {
            let checked = done!(is_checked(conn, stored.number));
            Ok(Some(ResultRow {
                number: stored.number,
                content: stored.content,
                provider_version: stored.provider_version,
                pass: stored.pass,
                checked,
            }))
        },
        None => Ok(None),
    }
}
