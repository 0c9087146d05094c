//! The versions that are deployed: one of a pacticipant in an environment, as an instance.
ghost use Rattle.std.specs.Prelude.{◌≡◌, ◌==◌, false, codes, [], ◌∷◌};
ghost use Rattle.std.specs.Option.{option_map_or};
ghost use Rattle.broker_tables.specs.Holds.{Changes, ChangesAndAnswers};
ghost use Rattle.broker_tables.specs.Failures.{LooksUpInPlace, FailsByStoreInPlace};
ghost use Rattle.broker_tables.specs.ChangeRefusals.{FailsByStoreStoring};
ghost use Rattle.deploy_tables.specs.Deployments.{RecordsDeployed, MayBeDeployed, IsVersionOf, FindsDeployed, TakesOutAndReports, FindsNothing};

use sqlite::{Alter, Connection, params};
use table_access::{StoreFault, change, change_counted, find_number};

/// Whether the version of that number, one of the pacticipant, is deployed in the environment as that instance. `false`
/// if the pacticipant has no version of that number.
///
/// # Errors
/// `StoreFault::Memory` if the database is out of memory; `StoreFault::Store` if it refused the query, or if the row
/// holds no number of a version.
pub fn is_deployed<S: Alter>(
    conn: &mut Connection<S>,
    environment: &str,
    pacticipant: &str,
    instance: &str,
    number: u32,
) -> Result<bool, StoreFault>
    ensures { LooksUpInPlace S.Store conn.old conn.new result
        (FindsDeployed environment.now pacticipant.now instance.now number) }
{
    let found = done!(find_number(
        conn,
        "SELECT version_number FROM deployed WHERE environment = ?1 AND pacticipant = ?2 AND instance = ?3",
        params![environment, pacticipant, instance],
    ));
    Ok(is_number(found, number))
}

/// Whether that number was found.
fn is_number(found: Option<u32>, number: u32) -> bool
    ensures { result ≡ option_map_or (λ k. k == number) found false }
{
    match found {
        Some(there) => there == number,
        None => false,
    }
}

/// Deploys the version of that number in the environment as that instance, in place of the version of its pacticipant
/// that is deployed there. The version is one of the pacticipant, and the environment is there.
///
/// # Errors
/// `StoreFault::Memory` if the database is out of memory; `StoreFault::Store` if it refused the row.
#[tactic(auto, unfolding(sqlite_tied::specs::Compute::everything))]
pub fn record_deployed<S: Alter>(
    conn: &mut Connection<S>,
    environment: &str,
    pacticipant: &str,
    instance: &str,
    number: u32,
) -> Result<(), StoreFault>
    ensures changes { Changes S.Store conn.old conn.new result
        (RecordsDeployed environment.now pacticipant.now instance.now number) }
    ensures failure { FailsByStoreStoring S.Store conn.old conn.new result (codes "deployed" ∷ [])
        (environment.now ∷ pacticipant.now ∷ instance.now ∷ []) (MayBeDeployed environment.now pacticipant.now number) }
{
    change(
        conn,
        "INSERT INTO deployed (environment, pacticipant, instance, version_number) VALUES (?1, ?2, ?3, ?4) ON CONFLICT (environment, pacticipant, instance) DO UPDATE SET version_number = excluded.version_number",
        params![environment, pacticipant, instance, number],
    )
}

/// Takes the version of that number, one of the pacticipant, out of the environment as that instance, and answers
/// whether it was deployed there. Its other instances stay, and so does another version that is deployed there. `false`
/// if the pacticipant has no version of that number; then everything stays. In a state that can be read back only a
/// failure of the store keeps it there.
///
/// # Errors
/// `StoreFault::Memory` if the database is out of memory; `StoreFault::Store` if it refused the change.
#[tactic(auto, unfolding(sqlite_tied::specs::Compute::everything))]
pub fn take_out<S: Alter>(
    conn: &mut Connection<S>,
    environment: &str,
    pacticipant: &str,
    instance: &str,
    number: u32,
) -> Result<bool, StoreFault>
    ensures taken { ChangesAndAnswers S.Store conn.old conn.new result (IsVersionOf pacticipant.now number)
        (TakesOutAndReports environment.now pacticipant.now instance.now number) }
    ensures unknown { ChangesAndAnswers S.Store conn.old conn.new result
        (λ s. ¬ (IsVersionOf pacticipant.now number s)) FindsNothing }
    ensures failure { FailsByStoreInPlace S.Store conn.old conn.new result }
{
    let taken = done!(change_counted(
        conn,
        "DELETE FROM deployed WHERE environment = ?1 AND pacticipant = ?2 AND instance = ?3 AND version_number = ?4",
        params![environment, pacticipant, instance, number],
    ));
    Ok(taken > 0)
}
