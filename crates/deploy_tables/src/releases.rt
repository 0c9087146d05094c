//! The versions that are released and supported in an environment.
ghost use Rattle.std.specs.Prelude.{◌≡◌, Some, codes, [], ◌∷◌};
ghost use Rattle.broker_core.specs.declared.command.Version.{Version as VersionModel};
ghost use Rattle.broker_tables.specs.Holds.{Changes, ChangesAndAnswers};
ghost use Rattle.broker_tables.specs.Failures.{LooksUpInPlace, FailsByStoreInPlace};
ghost use Rattle.broker_tables.specs.ChangeRefusals.{FailsByStoreStoring};
ghost use Rattle.broker_tables.specs.Numbers.{number_of};
ghost use Rattle.deploy_tables.specs.Releases.{IsVersion, FindsReleased, RecordsReleased, MayBeReleased, EndsSupport};

use sqlite::{Alter, Connection, params};
use table_access::{StoreFault, change, change_counted, has_row};

/// Whether the version of that number is released in the environment. `false` if no version has that number.
///
/// # Errors
/// `StoreFault::Memory` if the database is out of memory; `StoreFault::Store` if it refused the query.
pub fn is_released<S: Alter>(
    conn: &mut Connection<S>,
    environment: &str,
    number: u32,
) -> Result<bool, StoreFault>
    ensures { LooksUpInPlace S.Store conn.old conn.new result (FindsReleased environment.now number) }
{
    has_row(
        conn,
        "SELECT environment FROM released WHERE environment = ?1 AND version_number = ?2",
        params![environment, number],
    )
}

/// Releases the version of that number in the environment, which is there; it isn't released there yet.
///
/// # Errors
/// `StoreFault::Memory` if the database is out of memory; `StoreFault::Store` if it refused the row.
#[tactic(auto, unfolding(sqlite_tied::specs::Compute::everything))]
pub fn record_released<S: Alter>(
    conn: &mut Connection<S>,
    environment: &str,
    number: u32,
) -> Result<(), StoreFault>
    ensures changes { Changes S.Store conn.old conn.new result (RecordsReleased environment.now number) }
    ensures failure { FailsByStoreStoring S.Store conn.old conn.new result (codes "released" ∷ []) (environment.now ∷ [])
        (MayBeReleased environment.now number) }
{
    change(
        conn,
        "INSERT INTO released (environment, version_number) VALUES (?1, ?2)",
        params![environment, number],
    )
}

/// Ends the support of the version of that number in the environment, and answers whether it was released there. All
/// other releases stay. In a state that can be read back only a failure of the store keeps it.
///
/// # Errors
/// `StoreFault::Memory` if the database is out of memory; `StoreFault::Store` if it refused the change.
#[tactic(auto, unfolding(sqlite_tied::specs::Compute::everything))]
pub fn end_support<S: Alter>(
    conn: &mut Connection<S>,
    environment: &str,
    number: u32,
) -> Result<bool, StoreFault>
    ensures ended { ChangesAndAnswers S.Store conn.old conn.new result
        (IsVersion number) (λ stood s t. EndsSupport environment.now number s t
        × ((v : VersionModel) → number_of s.versions v ≡ Some number →
        stood ≡ s.released (environment.now, v))) }
    ensures failure { FailsByStoreInPlace S.Store conn.old conn.new result }
{
    let ended = done!(change_counted(
        conn,
        "DELETE FROM released WHERE environment = ?1 AND version_number = ?2",
        params![environment, number],
    ));
    Ok(ended > 0)
}
