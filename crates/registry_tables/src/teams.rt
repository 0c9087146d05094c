//! Teams, and the digests of their tokens.
ghost use Rattle.std.specs.Prelude.{◌≡◌, ℕ, List, [], ◌∷◌, codes, Some, None, MatchOption, option_map, string_bytes, is_some};
ghost use Rattle.broker_tables.specs.Holds.{Changes};
ghost use Rattle.broker_tables.specs.Failures.{LooksUp, LooksUpInPlace, TakesNoMemoryIf};
ghost use Rattle.broker_tables.specs.ChangeRefusals.{FailsByStoreChange};
ghost use Rattle.registry_tables.specs.Registry.{AddsTeam};

use sqlite::{Alter, Connection, params};
use table_access::{StoreFault, change, find_text, has_row};

const DIGEST_OF_TEAM: &str = "SELECT token_digest FROM teams WHERE name = ?1";

/// The digest of a team's token, or `None` if there is no such team.
///
/// # Errors
/// `StoreFault::Memory` if the database is out of memory, or there is none for the answer; `StoreFault::Store` if it
/// refused the query.
pub fn digest_of<S: Alter>(
    conn: &mut Connection<S>,
    team: &str,
) -> Result<Option<String>, StoreFault>
    ensures answers { LooksUp S.Store conn.old conn.new result
        (λ digest s. option_map string_bytes digest ≡ s.teams team.now) }
    ensures missing { TakesNoMemoryIf S.Store conn.old conn.new result (λ s. s.teams team.now ≡ None) }
{
    find_text(conn, DIGEST_OF_TEAM, params![team])
}

/// Whether there is such a team.
///
/// # Errors
/// `StoreFault::Memory` if the database is out of memory; `StoreFault::Store` if it refused the query.
pub fn has_team<S: Alter>(conn: &mut Connection<S>, team: &str) -> Result<bool, StoreFault>
    ensures { LooksUpInPlace S.Store conn.old conn.new result (λ has s. has ≡ is_some (s.teams team.now)) }
{
    has_row(conn, DIGEST_OF_TEAM, params![team])
}

/// The team whose token has this digest, or `None` if no team's has.
///
/// # Errors
/// `StoreFault::Memory` if the database is out of memory, or there is none for the answer; `StoreFault::Store` if it
/// refused the query.
pub fn team_of_digest<S: Alter>(
    conn: &mut Connection<S>,
    digest: &str,
) -> Result<Option<String>, StoreFault>
    ensures answers { LooksUp S.Store conn.old conn.new result
        (λ team s. MatchOption team
        ((t : List ℕ) → ¬ (s.teams t ≡ Some digest.now))
        (λ name. s.teams (string_bytes name) ≡ Some digest.now)) }
    ensures missing { TakesNoMemoryIf S.Store conn.old conn.new result
        (λ s. (t : List ℕ) → ¬ (s.teams t ≡ Some digest.now)) }
{
    find_text(
        conn,
        "SELECT name FROM teams WHERE token_digest = ?1",
        params![digest],
    )
}

/// Adds a team of a new name, whose token's digest no other team has.
///
/// # Errors
/// `StoreFault::Memory` if the database is out of memory; `StoreFault::Store` if it refused the row.
#[tactic(auto, unfolding(sqlite_tied::specs::Compute::everything))]
pub fn add_team<S: Alter>(
    conn: &mut Connection<S>,
    team: &str,
    digest: &str,
) -> Result<(), StoreFault>
    ensures changes { Changes S.Store conn.old conn.new result (AddsTeam team.now digest.now) }
    ensures failure { FailsByStoreChange S.Store conn.old conn.new result (codes "teams" ∷ []) (team.now ∷ digest.now ∷ [])
        (AddsTeam team.now digest.now) }
{
    change(
        conn,
        "INSERT INTO teams (name, token_digest) VALUES (?1, ?2)",
        params![team, digest],
    )
}
