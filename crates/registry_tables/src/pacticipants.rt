//! Pacticipants, and the teams that own them.
ghost use Rattle.std.specs.Prelude.{◌≡◌, [], ◌∷◌, codes, None, option_map, string_bytes};
ghost use Rattle.broker_tables.specs.Holds.{Changes};
ghost use Rattle.broker_tables.specs.Failures.{LooksUp, TakesNoMemoryIf};
ghost use Rattle.broker_tables.specs.ChangeRefusals.{FailsByStoreChange};
ghost use Rattle.registry_tables.specs.Registry.{AddsPacticipant};

use sqlite::{Alter, Connection, params};
use table_access::{StoreFault, change, find_text};

/// The team that owns a pacticipant, or `None` if there is no such pacticipant.
///
/// # Errors
/// `StoreFault::Memory` if the database is out of memory, or there is none for the team's name; `StoreFault::Store` if
/// it refused the query.
pub fn owner_of<S: Alter>(
    conn: &mut Connection<S>,
    pacticipant: &str,
) -> Result<Option<String>, StoreFault>
    ensures answers { LooksUp S.Store conn.old conn.new result
        (λ owner s. option_map string_bytes owner ≡ s.pacticipants pacticipant.now) }
    ensures missing { TakesNoMemoryIf S.Store conn.old conn.new result (λ s. s.pacticipants pacticipant.now ≡ None) }
{
    find_text(
        conn,
        "SELECT team FROM pacticipants WHERE name = ?1",
        params![pacticipant],
    )
}

/// Adds a pacticipant of a new name, owned by a team that is there.
///
/// # Errors
/// `StoreFault::Memory` if the database is out of memory; `StoreFault::Store` if it refused the row.
#[tactic(auto, unfolding(sqlite_tied::specs::Compute::everything))]
pub fn add_pacticipant<S: Alter>(
    conn: &mut Connection<S>,
    pacticipant: &str,
    team: &str,
) -> Result<(), StoreFault>
    ensures changes { Changes S.Store conn.old conn.new result (AddsPacticipant pacticipant.now team.now) }
    ensures failure { FailsByStoreChange S.Store conn.old conn.new result (codes "pacticipants" ∷ []) (pacticipant.now ∷ team.now ∷ [])
        (AddsPacticipant pacticipant.now team.now) }
{
    change(
        conn,
        "INSERT INTO pacticipants (name, team) VALUES (?1, ?2)",
        params![pacticipant, team],
    )
}
