//! The contracts of consumers' versions with providers.
ghost use Rattle.std.specs.Prelude.{◌≡◌, Some, None, codes, [], ◌∷◌};
ghost use Rattle.broker_core.specs.declared.command.Version.{Version as VersionModel};
ghost use Rattle.broker_tables.specs.Numbers.{number_of};
ghost use Rattle.broker_tables.specs.Holds.{Changes};
ghost use Rattle.broker_tables.specs.Failures.{LooksUpInPlace, IfNoVersion};
ghost use Rattle.broker_tables.specs.ChangeRefusals.{FailsByStoreChange};
ghost use Rattle.contract_tables.specs.Verified.{AddsContract};

use sqlite::{Alter, Connection, params};
use table_access::{StoreFault, change, find_number};

/// The number of the content that the version of this number has for the provider, or `None` if it has no contract with
/// it.
///
/// # Errors
/// `StoreFault::Memory` if the database is out of memory; `StoreFault::Store` if it refused the query or holds no
/// number there.
pub fn contract_of<S: Alter>(
    conn: &mut Connection<S>,
    version_number: u32,
    provider: &str,
) -> Result<Option<u32>, StoreFault>
    ensures answers { LooksUpInPlace S.Store conn.old conn.new result
        (λ found s. (v : VersionModel) → number_of s.versions v ≡ Some version_number →
        found ≡ s.contracts (v, provider.now)) }
    ensures unknown { IfNoVersion S.Store conn.old conn.new result version_number (λ found. found ≡ None) }
{
    find_number(
        conn,
        "SELECT content FROM contracts WHERE version_number = ?1 AND provider = ?2",
        params![version_number, provider],
    )
}

/// Gives the version of this number a contract with a provider, with which it has none.
///
/// # Errors
/// `StoreFault::Memory` if the database is out of memory; `StoreFault::Store` if it refused the row.
#[tactic(auto, unfolding(sqlite_tied::specs::Compute::everything))]
pub fn add_contract<S: Alter>(
    conn: &mut Connection<S>,
    version_number: u32,
    provider: &str,
    content: u32,
) -> Result<(), StoreFault>
    ensures changes { Changes S.Store conn.old conn.new result (AddsContract version_number provider.now content) }
    ensures failure { FailsByStoreChange S.Store conn.old conn.new result (codes "contracts" ∷ []) (provider.now ∷ [])
        (AddsContract version_number provider.now content) }
{
    change(
        conn,
        "INSERT INTO contracts (version_number, provider, content) VALUES (?1, ?2, ?3)",
        params![version_number, provider, content],
    )
}
