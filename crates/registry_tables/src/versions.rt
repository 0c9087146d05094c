//! Versions of pacticipants, and their numbers.
ghost use Rattle.std.specs.Prelude.{◌≡◌, [], ◌∷◌, length, is_some};
ghost use Rattle.broker_core.specs.Text.{version as version_named};
ghost use Rattle.broker_core.specs.Request.{is_known};
ghost use Rattle.broker_tables.specs.Numbers.{number_of};
ghost use Rattle.broker_tables.specs.Holds.{Changes, ChangesAndAnswers};
ghost use Rattle.broker_tables.specs.Failures.{LooksUpInPlace};
ghost use Rattle.broker_tables.specs.ChangeRefusals.{FailsByStoreStoring};
ghost use Rattle.registry_tables.specs.Registry.{AllowsVersion, AllowsVersionAs, CanAddVersion, AddsVersion, PutsVersion};

use broker_tables::next_number;
use sqlite::{Alter, Connection, params};
use table_access::{StoreFault, change, find_number};

/// The number of a version, by its pacticipant and its name, or `None` if there is no such version.
///
/// # Errors
/// `StoreFault::Memory` if the database is out of memory; `StoreFault::Store` if it refused the query or holds no
/// number there.
pub fn version_of<S: Alter>(
    conn: &mut Connection<S>,
    pacticipant: &str,
    version: &str,
) -> Result<Option<u32>, StoreFault>
    ensures { LooksUpInPlace S.Store conn.old conn.new result
        (λ found s. (found ≡ number_of s.versions (version_named pacticipant.now version.now))
        × (is_some found ≡ is_known s (version_named pacticipant.now version.now))) }
{
    find_number(
        conn,
        "SELECT number FROM versions WHERE pacticipant = ?1 AND version = ?2",
        params![pacticipant, version],
    )
}

/// How many versions there are: the number of the newest, or 0.
///
/// # Errors
/// `StoreFault::Memory` if the database is out of memory; `StoreFault::Store` if it refused the query or holds no
/// number there.
pub fn version_count<S: Alter>(conn: &mut Connection<S>) -> Result<u64, StoreFault>
    ensures { LooksUpInPlace S.Store conn.old conn.new result (λ count s. count ≡ length s.versions) }
{
    let newest = done!(find_number(
        conn,
        "SELECT number FROM versions ORDER BY number DESC LIMIT 1",
        &[],
    ));
    Ok(newest.unwrap_or(0) as u64)
}

/// Puts in a version under a number.
#[tactic(auto, unfolding(sqlite_tied::specs::Compute::everything))]
fn put_version<S: Alter>(
    conn: &mut Connection<S>,
    number: u32,
    pacticipant: &str,
    version: &str,
) -> Result<(), StoreFault>
    ensures changes { Changes S.Store conn.old conn.new result
        (PutsVersion number (version_named pacticipant.now version.now)) }
    ensures failure { FailsByStoreStoring S.Store conn.old conn.new result [] (pacticipant.now ∷ version.now ∷ [])
        (AllowsVersionAs number (version_named pacticipant.now version.now)) }
{
    change(
        conn,
        "INSERT INTO versions (number, pacticipant, version) VALUES (?1, ?2, ?3)",
        params![number, pacticipant, version],
    )
}

/// Adds a version of a pacticipant that is there, under a new name, with the next number, which is one more than there
/// are versions.
///
/// # Errors
/// `StoreFault::Memory` if the database is out of memory; `StoreFault::Store` if it refused the row.
pub fn insert_version<S: Alter>(
    conn: &mut Connection<S>,
    number: u32,
    pacticipant: &str,
    version: &str,
) -> Result<(), StoreFault>
    ensures changes { ChangesAndAnswers S.Store conn.old conn.new result
        (AllowsVersionAs number (version_named pacticipant.now version.now))
        (λ _. AddsVersion (version_named pacticipant.now version.now) number) }
    ensures failure { FailsByStoreStoring S.Store conn.old conn.new result [] (pacticipant.now ∷ version.now ∷ [])
        (AllowsVersionAs number (version_named pacticipant.now version.now)) }
{
    put_version(conn, number, pacticipant, version)
}

/// Adds a version of a pacticipant that is there, under a new name, and answers its number, which is the next one.
///
/// # Errors
/// `StoreFault::Memory` if the database is out of memory; `StoreFault::Store` if it refused the query or the row.
pub fn add_version<S: Alter>(
    conn: &mut Connection<S>,
    pacticipant: &str,
    version: &str,
) -> Result<u32, StoreFault>
    ensures changes { ChangesAndAnswers S.Store conn.old conn.new result
        (AllowsVersion (version_named pacticipant.now version.now))
        (AddsVersion (version_named pacticipant.now version.now)) }
    ensures failure { FailsByStoreStoring S.Store conn.old conn.new result [] (pacticipant.now ∷ version.now ∷ [])
        (CanAddVersion (version_named pacticipant.now version.now)) }
{
    let count = done!(version_count(conn));
    let Some(number) = next_number(count) else {
        return Err(StoreFault::Store);
    };
    done!(insert_version(conn, number, pacticipant, version));
    Ok(number)
}
