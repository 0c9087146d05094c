//! The matrix of a version: its contracts, and those that it has results for, with the latest result of each version of
//! the provider.
ghost use Rattle.std.specs.Prelude.{◌≡◌, ◌↔◌, Some, Contains};
ghost use Rattle.broker_core.specs.declared.answer.MatrixRow.{MatrixRow as RowModel};
ghost use Rattle.broker_core.specs.Listing.{Lists};
ghost use Rattle.broker_core.specs.Machine.{IsMatrixRow, matrix_cmp};
ghost use Rattle.broker_tables.specs.Numbers.{number_of};
ghost use Rattle.broker_tables.specs.Failures.{LooksUp};
ghost use Rattle.deploy_tables.specs.Matrix.{IsOfContract, IsOfContent, IsOfSome, IsProvided, ListsMatrix};

use crate::lists::add;
use crate::rows::{each_row_once, rows_used, rows_with};
use crate::version_names::find_version;
use broker_core::answer::MatrixRow;
use broker_core::command::Version;
use contract_tables::{
    Contract, LatestResult, consumers_of, contracts_of, latest_results, verified_versions,
};
use sqlite::{Alter, Connection};
use std::alloc::Global;
use table_access::StoreFault;

/// The contract of the version, with each version of its provider that has a result, or with none.
fn of_contract<S: Alter>(
    alloc: Global,
    conn: &mut Connection<S>,
    version: &Version,
    contract: &Contract,
) -> Result<Vec<MatrixRow>, StoreFault>
    ensures { LooksUp S.Store conn.old conn.new result
        (λ found s. (x : RowModel) → Contains found.items x ↔ IsOfContract s version.now contract.now x) }
{
    let verified = done!(verified_versions(
        alloc,
        conn,
        contract.provider.as_str(),
        contract.content,
    ));
    match rows_with(alloc, version, contract, &verified) {
        Ok(rows) => Ok(rows),
        Err(_) => Err(StoreFault::Memory),
    }
}

/// These contracts of the version, each with the versions of its provider that have a result, or with none.
fn of_contracts<S: Alter>(
    alloc: Global,
    conn: &mut Connection<S>,
    version: &Version,
    contracts: &[Contract],
) -> Result<Vec<MatrixRow>, StoreFault>
    ensures { LooksUp S.Store conn.old conn.new result
        (λ found s. (x : RowModel) → Contains found.items x
        ↔ IsOfSome (λ c. IsOfContract s version.now c x) contracts.now) }
{
    let mut found = Vec::new(alloc);
    for contract in contracts {
        let more = done!(of_contract(alloc, conn, version, contract));
        done!(add(&mut found, more));
    }
    Ok(found)
}

/// The contracts with the version's pacticipant of the content that the version has this result for.
fn of_content<S: Alter>(
    alloc: Global,
    conn: &mut Connection<S>,
    version: &Version,
    latest: &LatestResult,
) -> Result<Vec<MatrixRow>, StoreFault>
    ensures { LooksUp S.Store conn.old conn.new result
        (λ found s. (x : RowModel) → Contains found.items x ↔ IsOfContent s version.now latest.now x) }
{
    let consumers = done!(consumers_of(alloc, conn, version.pacticipant.as_str(), latest.content));
    match rows_used(alloc, version, latest, &consumers) {
        Ok(rows) => Ok(rows),
        Err(_) => Err(StoreFault::Memory),
    }
}

/// The contracts with the version's pacticipant of the contents that the version has these results for.
fn of_contents<S: Alter>(
    alloc: Global,
    conn: &mut Connection<S>,
    version: &Version,
    results: &[LatestResult],
) -> Result<Vec<MatrixRow>, StoreFault>
    ensures { LooksUp S.Store conn.old conn.new result
        (λ found s. (x : RowModel) → Contains found.items x
        ↔ IsOfSome (λ c. IsOfContent s version.now c x) results.now) }
{
    let mut found = Vec::new(alloc);
    for latest in results {
        let more = done!(of_content(alloc, conn, version, latest));
        done!(add(&mut found, more));
    }
    Ok(found)
}

/// The contracts with the version's pacticipant for whose content the version has a result.
fn provided<S: Alter>(
    alloc: Global,
    conn: &mut Connection<S>,
    number: u32,
    version: &Version,
) -> Result<Vec<MatrixRow>, StoreFault>
    ensures { LooksUp S.Store conn.old conn.new result
        (λ found s. number_of s.versions version.now ≡ Some number →
        (x : RowModel) → Contains found.items x ↔ IsProvided s version.now x) }
{
    let results = done!(latest_results(alloc, conn, number));
    of_contents(alloc, conn, version, &results)
}

/// The matrix of the version of this number.
fn matrix_numbered<S: Alter>(
    alloc: Global,
    conn: &mut Connection<S>,
    number: u32,
    version: &Version,
) -> Result<Vec<MatrixRow>, StoreFault>
    ensures { LooksUp S.Store conn.old conn.new result
        (λ rows s. number_of s.versions version.now ≡ Some number →
        Lists matrix_cmp (IsMatrixRow s version.now) rows.items) }
{
    let contracts = done!(contracts_of(alloc, conn, number));
    let mut rows = done!(of_contracts(alloc, conn, version, &contracts));
    let others = done!(provided(alloc, conn, number, version));
    done!(add(&mut rows, others));
    Ok(each_row_once(rows))
}

/// The matrix of the version of this number, in the order of faults: each of its contracts with each version of the
/// provider that has a result for the content, or with none; and each contract with its pacticipant for whose content it
/// has a result. Each row has the latest result. The list is empty if no version has this number.
///
/// # Errors
/// `StoreFault::Memory` if the database is out of memory, or there is none for the answer; `StoreFault::Store` if it
/// refused a query, or if a row doesn't read.
pub fn matrix<S: Alter>(
    alloc: Global,
    conn: &mut Connection<S>,
    number: u32,
) -> Result<Vec<MatrixRow>, StoreFault>
    ensures { LooksUp S.Store conn.old conn.new result (λ rows s. ListsMatrix s number rows.items) }
{
    match done!(find_version(alloc, conn, number)) {
        Some(version) => matrix_numbered(alloc, conn, number, &version),
        None => Ok(Vec::new(alloc)),
    }
}
