//! Contracts, listed.
ghost use Rattle.std.specs.Prelude.{◌≡◌, ℕ, List, Some, None, []};
ghost use Rattle.broker_core.specs.declared.command.Version.{Version as VersionModel};
ghost use Rattle.broker_core.specs.Listing.{Lists};
ghost use Rattle.broker_core.specs.Machine.{version_cmp};
ghost use Rattle.broker_tables.specs.Numbers.{number_of};
ghost use Rattle.broker_tables.specs.Failures.{LooksUp, IfNoVersion, TakesNoMemoryIf};
ghost use Rattle.contract_tables.specs.Listings.{contract_cmp, IsContractRow, IsNumberedName, IsConsumerRow, FailsAsMarked, FailsAsNames};

use broker_core::command::Version;
use broker_names::name::Name;
use broker_tables::{has_name, name_in};
use sqlite::{Alter, Connection, Row, params};
use std::alloc::Global;
use table_access::{ReadRow, StoreFault, list_of, number_in};

/// A contract of a consumer version: its provider, and the number of its content.
#[derive(Debug, Drop)]
pub struct Contract {
    pub provider: Name,
    pub content: u32,
}

/// A number, and the name that belongs to it.
#[derive(Debug, Drop)]
pub struct NumberedName {
    pub number: u32,
    pub name: Name,
}

/// A number and a name.
pub struct NumberedNameRow;

impl ReadRow for NumberedNameRow {
    type Item = NumberedName;

    ghost reads_as = { IsNumberedName };

    ghost fails_as = { FailsAsMarked };

    fn read(alloc: Global, row: &Row) -> Result<NumberedName, StoreFault> {
        let number = number_in(row)?;
        let name = name_in(alloc, row, 1)?;
        Ok(NumberedName { number, name })
    }
}

/// A content and a provider.
struct ContractRow;

impl ReadRow for ContractRow {
    type Item = Contract;

    ghost reads_as = { IsContractRow };

    ghost fails_as = { FailsAsMarked };

    fn read(alloc: Global, row: &Row) -> Result<Contract, StoreFault> {
        let content = number_in(row)?;
        let provider = name_in(alloc, row, 1)?;
        Ok(Contract { provider, content })
    }
}

/// A pacticipant and a version. Both are looked at before memory is taken.
struct ConsumerRow;

impl ReadRow for ConsumerRow {
    type Item = Version;

    ghost reads_as = { IsConsumerRow };

    ghost fails_as = { FailsAsNames };

    fn read(alloc: Global, row: &Row) -> Result<Version, StoreFault> {
        if !has_name(row, 1) {
            return Err(StoreFault::Store);
        }
        let pacticipant = name_in(alloc, row, 0)?;
        let name = name_in(alloc, row, 1)?;
        Ok(Version { pacticipant, name })
    }
}

/// The contracts of the version of this number, each once, in the order of their providers.
///
/// # Errors
/// `StoreFault::Memory` if the database is out of memory, or there is none for the answer; `StoreFault::Store` if it
/// refused the query, or if a row doesn't read.
pub fn contracts_of<S: Alter>(
    alloc: Global,
    conn: &mut Connection<S>,
    version_number: u32,
) -> Result<Vec<Contract>, StoreFault>
    ensures answers { LooksUp S.Store conn.old conn.new result
        (λ found s. (v : VersionModel) → number_of s.versions v ≡ Some version_number →
        Lists contract_cmp (λ c. s.contracts (v, c.provider) ≡ Some c.content) found.items) }
    ensures unknown { IfNoVersion S.Store conn.old conn.new result version_number (λ found. found.items ≡ []) }
    ensures missing { TakesNoMemoryIf S.Store conn.old conn.new result
        (λ s. (v : VersionModel) × (number_of s.versions v ≡ Some version_number) × ((p : List ℕ) → s.contracts (v, p) ≡ None)) }
{
    list_of::<ContractRow, S>(
        alloc,
        conn,
        "SELECT content, provider FROM contracts WHERE version_number = ?1 ORDER BY provider",
        params![version_number],
    )
}

/// The versions of consumers that have a contract of this content with the provider, each once, in the order of
/// pacticipants and versions.
///
/// # Errors
/// `StoreFault::Memory` if the database is out of memory, or there is none for the answer; `StoreFault::Store` if it
/// refused the query, or if a row doesn't read.
pub fn consumers_of<S: Alter>(
    alloc: Global,
    conn: &mut Connection<S>,
    provider: &str,
    content: u32,
) -> Result<Vec<Version>, StoreFault>
    ensures answers { LooksUp S.Store conn.old conn.new result
        (λ found s. Lists version_cmp (λ w. s.contracts (w, provider.now) ≡ Some content) found.items) }
    ensures missing { TakesNoMemoryIf S.Store conn.old conn.new result
        (λ s. (w : VersionModel) → ¬ (s.contracts (w, provider.now) ≡ Some content)) }
{
    list_of::<ConsumerRow, S>(
        alloc,
        conn,
        "SELECT v.pacticipant, v.version FROM contracts c JOIN versions v ON v.number = c.version_number WHERE c.content = ?1 AND c.provider = ?2 ORDER BY v.pacticipant, v.version",
        params![content, provider],
    )
}
