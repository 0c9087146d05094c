//! The contracts with one provider of all versions that are in an environment, by the numbers of the versions.
ghost use Rattle.std.specs.Prelude.{◌≡◌, ◌↔◌, IfOk, IsTrue, filter_map};
ghost use Rattle.sqlite.specs.Order.{column};
ghost use Rattle.sqlite.specs.declared.types.Value.TheVariants.{Null};
ghost use Rattle.deploy_tables.specs.AnyThere.{AnswersOnlyIf, HasNull};
ghost use Rattle.broker_core.specs.Gate.{IsPresent};
ghost use Rattle.broker_tables.specs.Failures.{LooksUp};
ghost use Rattle.contract_tables.specs.Listings.{FailsAsNumbers};
ghost use Rattle.deploy_tables.specs.ContractsThere.{IsDeployedIn, IsReleasedIn, ReportsContracts, ReportsContractsIfAny, IsNumberedRow, IsContractIfAny, FailsAsContractIfAny};

use crate::lists::add;
use sqlite::types::ValueRef;
use sqlite::{Alter, Connection, Row, params};
use std::alloc::{AllocError, Global};
use table_access::{ReadRow, StoreFault, list_of, number_at, number_in};

/// The contract of a version with a provider: the version's number, and that of the content.
#[derive(Clone, Copy, Debug)]
pub struct NumberedContract {
    pub number: u32,
    pub content: u32,
}

/// A version's number and a content.
struct NumberedRow;

impl ReadRow for NumberedRow {
    type Item = NumberedContract;

    ghost reads_as = { IsNumberedRow };

    ghost fails_as = { FailsAsNumbers };

    fn read(_alloc: Global, row: &Row) -> Result<NumberedContract, StoreFault> {
        let number = number_in(row)?;
        let content = number_at(row, 1)?;
        Ok(NumberedContract { number, content })
    }
}

/// Whether NULL is in a column, or there is no such column.
fn is_null(row: &Row, at: usize) -> bool
    ensures { IsTrue result ↔ (column row.now at ≡ Null) }
{
    match row.get_ref(at) {
        Ok(ValueRef::Null) => true,
        Ok(_) => false,
        Err(_) => true,
    }
}

/// A version's number, and its contract, if it has one: that number again and a content, or NULL for both.
struct ContractIfAnyRow;

impl ReadRow for ContractIfAnyRow {
    type Item = Option<NumberedContract>;

    ghost reads_as = { IsContractIfAny };

    ghost fails_as = { FailsAsContractIfAny };

    fn read(_alloc: Global, row: &Row) -> Result<Option<NumberedContract>, StoreFault> {
        let version = number_in(row)?;
        if is_null(row, 1) {
            return Ok(None);
        }
        let content = number_at(row, 2)?;
        Ok(Some(NumberedContract {
            number: version,
            content,
        }))
    }
}

/// The contract with the provider of each version that is deployed in the environment, or that it has none, in no order.
/// That of a version in two instances is there twice. `StoreFault::Store` also if a row of what is deployed there has no
/// version: NULL, as in a table that was declared without NOT NULL.
fn contracts_if_any<S: Alter>(
    alloc: Global,
    conn: &mut Connection<S>,
    environment: &str,
    provider: &str,
) -> Result<Vec<Option<NumberedContract>>, StoreFault>
    ensures answers { LooksUp S.Store conn.old conn.new result
        (λ found s. ReportsContractsIfAny s provider.now (IsDeployedIn s environment.now) found.items) }
    ensures null { AnswersOnlyIf S.Store conn.old conn.new result (λ db. ¬ (HasNull environment.now db)) }
{
    list_of::<ContractIfAnyRow, S>(
        alloc,
        conn,
        "SELECT d.version_number, c.version_number, c.content FROM deployed d LEFT JOIN contracts c ON c.version_number = d.version_number AND c.provider = ?2 WHERE d.environment = ?1",
        params![environment, provider],
    )
}

/// The contracts that there are.
fn contracts_among(
    alloc: Global,
    found: &[Option<NumberedContract>],
) -> Result<Vec<NumberedContract>, AllocError>
    ensures { IfOk result (λ contracts. contracts.items ≡ filter_map (λ one. one) found.now) }
{
    let mut contracts = Vec::new(alloc);
    for one in found {
        if let Some(contract) = *one {
            contracts.push(contract)?;
        }
    }
    Ok(contracts)
}

/// The contracts with the provider of the versions that are deployed in the environment, in no order. That of a version
/// in two instances is there twice.
fn deployed_contracts<S: Alter>(
    alloc: Global,
    conn: &mut Connection<S>,
    environment: &str,
    provider: &str,
) -> Result<Vec<NumberedContract>, StoreFault>
    ensures answers { LooksUp S.Store conn.old conn.new result
        (λ found s. ReportsContracts s provider.now (IsDeployedIn s environment.now) found.items) }
    ensures null { AnswersOnlyIf S.Store conn.old conn.new result (λ db. ¬ (HasNull environment.now db)) }
{
    let found = done!(contracts_if_any(alloc, conn, environment, provider));
    match contracts_among(alloc, &found) {
        Ok(contracts) => Ok(contracts),
        Err(_) => Err(StoreFault::Memory),
    }
}

/// The contracts with the provider of the versions that are released in the environment, in no order.
fn released_contracts<S: Alter>(
    alloc: Global,
    conn: &mut Connection<S>,
    environment: &str,
    provider: &str,
) -> Result<Vec<NumberedContract>, StoreFault>
    ensures { LooksUp S.Store conn.old conn.new result
        (λ found s. ReportsContracts s provider.now (IsReleasedIn s environment.now) found.items) }
{
    list_of::<NumberedRow, S>(
        alloc,
        conn,
        "SELECT c.version_number, c.content FROM released r JOIN contracts c ON c.version_number = r.version_number WHERE r.environment = ?1 AND c.provider = ?2",
        params![environment, provider],
    )
}

/// The contracts with the provider of the versions that are in the environment, in no order. That of a version in two
/// instances, or deployed and released, is there more than once.
///
/// # Errors
/// `StoreFault::Memory` if the database is out of memory, or there is none for the answer; `StoreFault::Store` if it
/// refused a query, if a row doesn't read, or if one of what is deployed there has no version.
pub(crate) fn contracts_there<S: Alter>(
    alloc: Global,
    conn: &mut Connection<S>,
    environment: &str,
    provider: &str,
) -> Result<Vec<NumberedContract>, StoreFault>
    ensures answers { LooksUp S.Store conn.old conn.new result
        (λ found s. ReportsContracts s provider.now (IsPresent s environment.now) found.items) }
    ensures null { AnswersOnlyIf S.Store conn.old conn.new result (λ db. ¬ (HasNull environment.now db)) }
{
    let mut all = done!(deployed_contracts(alloc, conn, environment, provider));
    let released = done!(released_contracts(alloc, conn, environment, provider));
    done!(add(&mut all, released));
    Ok(all)
}
