//! The tables of a broker of format 1, as they become today's.
ghost use Rattle.std.specs.Prelude.{◌≡◌, ◌∷◌, []};
ghost use Rattle.sqlite.specs.Held.{state};
ghost use Rattle.table_access.specs.Calls.{CallsStore};
ghost use Rattle.broker_tables.specs.Schema.{checked_results};
ghost use Rattle.broker_tables.specs.Making.{FailsByStoreOver};
ghost use Rattle.broker_tables.specs.Format1.{added_tables};
ghost use Rattle.registry_tables.specs.Format.{FindsFormat1, FailsToFind, FailsOnlyFor, CanBecomeFormat2, BecomesFormat2};

use crate::format::format_of;
use crate::format_1::has_format_1_tables;
use crate::making::make_strict_environments;
use sqlite::{Alter, Connection};
use table_access::{StoreFault, change};

/// The format of a database that is to be migrated, as [`format_of`] finds it; but `None` too if that is 1 and a table
/// of format 1 isn't there, or has other columns or other keys, or a column that compares texts otherwise than by their
/// bytes (`COLLATE NOCASE`, `RTRIM`). Nothing changes.
///
/// # Errors
/// As `format_of`.
pub fn format_to_migrate<S: Alter>(conn: &mut Connection<S>) -> Result<Option<u32>, StoreFault>
    ensures finds { CallsStore S.Store conn.old conn.new result
        (λ found old new. FindsFormat1 old.now found
        × (new.now ≡ old.now)) }
    ensures cause { FailsOnlyFor (state S.Store conn.old) (state S.Store conn.new) result FailsToFind }
{
    match done!(format_of(conn)) {
        Some(1) => Ok(if has_format_1_tables(conn) {
            Some(1)
        } else {
            None
        }),
        found => Ok(found),
    }
}

/// Makes the table of strict environments in a database of format 1 that has that of checked results, without rows: no
/// environment that is there is strict. Then sets the format to 2. All other tables keep their rows.
///
/// # Errors
/// `StoreFault::Memory` if the database is out of memory; `StoreFault::Store` if it refused the table or the format: of
/// such a database, whose office has a digest as tokens have, only if the store failed.
pub fn to_format_2<S: Alter>(conn: &mut Connection<S>) -> Result<(), StoreFault>
    ensures makes { CallsStore S.Store conn.old conn.new result
        (λ _ old new. BecomesFormat2 (checked_results ∷ []) old.now new.now) }
    ensures failure { FailsByStoreOver S.Store conn.old conn.new result (CanBecomeFormat2 (checked_results ∷ [])) }
{
    done!(make_strict_environments(conn));
    set_format(conn)
}

/// Sets the format to 2.
#[tactic(auto, unfolding(sqlite_tied::specs::Compute::everything))]
fn set_format<S: Alter>(conn: &mut Connection<S>) -> Result<(), StoreFault>
    ensures sets { CallsStore S.Store conn.old conn.new result
        (λ _ old new. BecomesFormat2 added_tables old.now new.now) }
    ensures failure { FailsByStoreOver S.Store conn.old conn.new result (CanBecomeFormat2 added_tables) }
{
    change(conn, "UPDATE meta SET format = 2", &[])
}
