//! Grants: the teams that may change what is in an environment.
ghost use Rattle.std.specs.Prelude.{◌≡◌, codes, [], ◌∷◌};
ghost use Rattle.broker_tables.specs.Holds.{Changes};
ghost use Rattle.broker_tables.specs.Failures.{LooksUpInPlace, FailsByStoreInPlace};
ghost use Rattle.broker_tables.specs.ChangeRefusals.{FailsByStoreChange};
ghost use Rattle.registry_tables.specs.Registry.{AddsGrant, RemovesGrant};

use sqlite::{Alter, Connection, params};
use table_access::{StoreFault, change, has_row};

/// Whether the team has a grant for the environment.
///
/// # Errors
/// `StoreFault::Memory` if the database is out of memory; `StoreFault::Store` if it refused the query.
pub fn granted<S: Alter>(
    conn: &mut Connection<S>,
    team: &str,
    environment: &str,
) -> Result<bool, StoreFault>
    ensures { LooksUpInPlace S.Store conn.old conn.new result
        (λ has s. has ≡ s.grants (team.now, environment.now)) }
{
    has_row(
        conn,
        "SELECT team FROM grants WHERE team = ?1 AND environment = ?2",
        params![team, environment],
    )
}

/// Grants a team the change of an environment, both of which are there; it has no such grant yet.
///
/// # Errors
/// `StoreFault::Memory` if the database is out of memory; `StoreFault::Store` if it refused the row.
#[tactic(auto, unfolding(sqlite_tied::specs::Compute::everything))]
pub fn add_grant<S: Alter>(
    conn: &mut Connection<S>,
    team: &str,
    environment: &str,
) -> Result<(), StoreFault>
    ensures changes { Changes S.Store conn.old conn.new result (AddsGrant team.now environment.now) }
    ensures failure { FailsByStoreChange S.Store conn.old conn.new result (codes "grants" ∷ []) (team.now ∷ environment.now ∷ [])
        (AddsGrant team.now environment.now) }
{
    change(
        conn,
        "INSERT INTO grants (team, environment) VALUES (?1, ?2)",
        params![team, environment],
    )
}

/// Takes back a grant that is there. All other grants stay. In a state that can be read back only a failure of the
/// store keeps a grant.
///
/// # Errors
/// `StoreFault::Memory` if the database is out of memory; `StoreFault::Store` if it refused the statement.
#[tactic(auto, unfolding(sqlite_tied::specs::Compute::everything))]
pub fn remove_grant<S: Alter>(
    conn: &mut Connection<S>,
    team: &str,
    environment: &str,
) -> Result<(), StoreFault>
    ensures changes { Changes S.Store conn.old conn.new result (RemovesGrant team.now environment.now) }
    ensures failure { FailsByStoreInPlace S.Store conn.old conn.new result }
{
    change(
        conn,
        "DELETE FROM grants WHERE team = ?1 AND environment = ?2",
        params![team, environment],
    )
}
