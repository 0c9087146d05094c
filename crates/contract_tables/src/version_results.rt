//! The latest results of one version of a provider, for every content at once.
ghost use Rattle.std.specs.Prelude.{◌≡◌, ℕ, Some, IfOk, IfErr, IfSome, IsTrue, IsSorted, Contains, option_map, pos, true, []};
ghost use Rattle.std.specs.Ordering.{nat_cmp};
ghost use Rattle.sqlite.specs.Held.{state};
ghost use Rattle.sqlite.specs.State.{HasCleanDisk, IsUnchanged};
ghost use Rattle.sqlite.specs.Order.{column};
ghost use Rattle.sqlite.specs.declared.types.Value.TheVariants.{Int};
ghost use Rattle.table_access.specs.Reading.{AreRead};
ghost use Rattle.broker_core.specs.declared.command.Version.{Version as VersionModel};
ghost use Rattle.broker_core.specs.Listing.{Lists};
ghost use Rattle.broker_core.specs.State.{State as Broker, latest_result, latest};
ghost use Rattle.broker_tables.specs.Numbers.{number_of};
ghost use Rattle.broker_tables.specs.Failures.{LooksUp, IfNoVersion};
ghost use Rattle.broker_tables.specs.Asking.{ReportsOfAny, CanBeAsked};
ghost use Rattle.contract_tables.specs.VersionResults.{pass_cmp, latest_cmp, IsPassOf, IsLatestOf, IsPassRow, AreSame, FailsAsLatest, is_among};
ghost use Rattle.contract_tables.specs.LatestRows.{ArePassesIn, IsCheckedFor, AreLatestIn, IsMarkedOf, FailsAsListed};
ghost use Rattle.contract_tables.specs.declared.version_results.LatestResult.{LatestResult as LatestModel};

use broker_core::need::Latest;
use broker_tables::truth_at;
use sqlite::{Alter, Connection, Row, params};
use std::alloc::{AllocError, Global};
use table_access::{NumberRow, ReadRow, StoreFault, list_of, number_at, number_in};

/// A content for which a version has a result: its number, that of the latest result, and what that says.
#[derive(Clone, Copy, Debug)]
pub struct LatestResult {
    pub content: u32,
    pub result: u32,
    pub latest: Latest,
}

/// A content for which a version has a result, the latest of them, and whether that is a pass.
#[derive(Clone, Copy)]
pub(crate) struct ContentPass {
    pub content: u32,
    pub result: u32,
    pub pass: bool,
}

/// The number in both columns. `StoreFault::Store` if one of them has none, or they have two.
fn same_at(row: &Row, one: usize, other: usize) -> Result<u32, StoreFault>
    ensures ok { IfOk result (λ n. (column row.now one ≡ Int (pos n)) × (column row.now one ≡ column row.now other)) }
    ensures cause { IfErr result (λ f. (f ≡ StoreFault.Store) × (¬ AreSame one other row.now)) }
{
    let number = number_at(row, one)?;
    if number_at(row, other)? == number {
        Ok(number)
    } else {
        Err(StoreFault::Store)
    }
}

/// The content, the latest result for it and whether that is a pass, as a row has them. `StoreFault::Store` if one of
/// them isn't there, or the result is for another content, or of another version, than the row says.
pub(crate) fn read_latest(row: &Row) -> Result<ContentPass, StoreFault>
    ensures ok { IfOk result (IsPassRow row.now) }
    ensures cause { IfErr result (FailsAsLatest row.now) }
{
    let content = same_at(row, 2, 3)?;
    same_at(row, 4, 5)?;
    let result = number_in(row)?;
    let pass = truth_at(row, 1)?;
    Ok(ContentPass {
        content,
        result,
        pass,
    })
}

/// A latest result, with what it is said to be of.
pub(crate) struct PassRow;

impl ReadRow for PassRow {
    type Item = ContentPass;

    ghost reads_as = { IsPassRow };

    ghost fails_as = { FailsAsLatest };

    fn read(_alloc: Global, row: &Row) -> Result<ContentPass, StoreFault> {
        read_latest(row)
    }
}

/// The contents for which the version of this number has a result, each once, in the order of their numbers, with
/// the latest one and whether it is a pass.
fn passes_of<S: Alter>(
    alloc: Global,
    conn: &mut Connection<S>,
    version_number: u32,
) -> Result<Vec<ContentPass>, StoreFault>
    ensures answers { LooksUp S.Store conn.old conn.new result
        (λ found s. (v : VersionModel) → number_of s.versions v ≡ Some version_number →
        Lists pass_cmp (IsPassOf s v) found.items) }
    ensures unknown { IfNoVersion S.Store conn.old conn.new result version_number (λ found. found.items ≡ []) }
    ensures mark { ReportsOfAny S.Store conn.old conn.new result
        (λ found db. ArePassesIn version_number found.items db) (FailsAsListed version_number) }
    ensures stays { HasCleanDisk (state S.Store conn.new) → CanBeAsked (state S.Store conn.old) →
        IfOk result (λ _. IsUnchanged (state S.Store conn.old) (state S.Store conn.new)) }
{
    list_of::<PassRow, S>(
        alloc,
        conn,
        "SELECT r.number, r.pass, l.content, r.content, l.provider_version, r.provider_version FROM latest l JOIN results r ON r.number = l.result WHERE l.provider_version = ?1 ORDER BY l.content",
        params![version_number],
    )
}

/// The contents for which the version of this number has a result, and the broker checked the latest one: each once, in
/// the order of their numbers.
fn checked_of<S: Alter>(
    alloc: Global,
    conn: &mut Connection<S>,
    version_number: u32,
) -> Result<Vec<u32>, StoreFault>
    ensures answers { LooksUp S.Store conn.old conn.new result
        (λ found s. (v : VersionModel) → number_of s.versions v ≡ Some version_number →
        Lists nat_cmp
        (λ content. option_map (λ e. e.1.checked) (latest_result s content v) ≡ Some true) found.items) }
    ensures unknown { IfNoVersion S.Store conn.old conn.new result version_number (λ found. found.items ≡ []) }
    ensures mark { ReportsOfAny S.Store conn.old conn.new result
        (λ found db. (k : ℕ) → Contains found.items k → IsCheckedFor version_number db k) (FailsAsListed version_number) }
{
    list_of::<NumberRow, S>(
        alloc,
        conn,
        "SELECT l.content FROM latest l JOIN checked_results c ON c.result = l.result WHERE l.provider_version = ?1 ORDER BY l.content",
        params![version_number],
    )
}

/// Whether the number is one of these, which are in order.
pub(crate) fn is_among(numbers: &[u32], number: u32) -> bool
    ensures answers { IsSorted nat_cmp numbers.now → result ≡ is_among numbers.now number }
    ensures found { IsTrue result → Contains numbers.now number }
{
    numbers.binary_search(&number).is_ok()
}

/// What the result says: whether it is a pass, and whether its content is one of those that were checked, which are in
/// order.
fn with_its_mark(one: &ContentPass, checked: &[u32]) -> LatestResult
    ensures { IsMarkedOf checked.now one.now result }
{
    let latest = Latest {
        pass: one.pass,
        checked: is_among(checked, one.content),
    };
    LatestResult {
        content: one.content,
        result: one.result,
        latest,
    }
}

/// What each of the results says.
fn with_marks(
    alloc: Global,
    passes: &[ContentPass],
    checked: &[u32],
) -> Result<Vec<LatestResult>, AllocError>
    ensures { IfOk result (λ found. AreRead (IsMarkedOf checked.now) passes.now found.items) }
{
    let mut found = Vec::new(alloc);
    for one in passes {
        found.push(with_its_mark(one, checked))?;
    }
    Ok(found)
}

/// The contents for which the version of this number has a result, each once, in the order of their numbers, with the
/// number of the latest result and what it says. A mark that is neither 0 nor 1 is never taken for a pass, nor the
/// result of another content or version, with any CHECKs and references in the tables.
///
/// # Errors
/// `StoreFault::Memory` if the database is out of memory, or there is none for the answer; `StoreFault::Store` if it
/// refused a query, or if a row doesn't read.
pub fn latest_results<S: Alter>(
    alloc: Global,
    conn: &mut Connection<S>,
    version_number: u32,
) -> Result<Vec<LatestResult>, StoreFault>
    ensures answers { LooksUp S.Store conn.old conn.new result
        (λ found s. (v : VersionModel) → number_of s.versions v ≡ Some version_number →
        Lists latest_cmp (IsLatestOf s v) found.items) }
    ensures unknown { IfNoVersion S.Store conn.old conn.new result version_number (λ found. found.items ≡ []) }
    ensures mark { ReportsOfAny S.Store conn.old conn.new result
        (λ found db. AreLatestIn version_number found.items db) (FailsAsListed version_number) }
{
    let passes = done!(passes_of(alloc, conn, version_number));
    let checked = done!(checked_of(alloc, conn, version_number));
    match with_marks(alloc, &passes, &checked) {
        Ok(found) => Ok(found),
        Err(_) => Err(StoreFault::Memory),
    }
}

/// What the latest result for the content says, found among all of a version: the list that `latest_results` answers.
/// Of any other list it says only what one of its results for this content says.
pub fn latest_among(results: &[LatestResult], content: u32) -> Option<Latest>
    ensures answers { (s : Broker) (v : VersionModel) →
        Lists latest_cmp (IsLatestOf s v) results.now → result ≡ latest s content v }
    ensures found { IfSome result (λ latest. (x : LatestModel) × Contains results.now x
        × (x.content ≡ content) × (x.latest ≡ latest)) }
{
    match results.binary_search_by_key(&content, |one| one.content) {
        Ok(at) => Some(results[at].latest),
        Err(_) => None,
    }
}
